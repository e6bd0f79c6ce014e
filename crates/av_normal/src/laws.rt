//! Laws of normal forms, each the contract of a function that does nothing.

ghost use Rattle.std.specs.Prelude.{ℕ, ◌≡◌, All};
ghost use Rattle.av_flat.specs.declared.quantity.Quantity.{Quantity};
ghost use Rattle.av_flat.specs.Trees.{FlatSystem};
ghost use Rattle.av_flat.specs.WellFormed.{IsWellFormed};
ghost use Rattle.av_flat.specs.Sets.{HasFewRows, IsBounded};
ghost use Rattle.av_flat.specs.Kept.{IsKept};
ghost use Rattle.av_flat.specs.Proper.{IsProper};
ghost use Rattle.av_flat.specs.Quantities.{HasWideSets};
ghost use Rattle.av_flat.specs.Shown.{SameMeaning};
ghost use Rattle.av_flat.specs.Solutions.{shows_of, declares_of};
ghost use Rattle.av_flat.specs.OneSolution.{AreInputs, HasOneSolution};
ghost use Rattle.av_tree.specs.Values.{Assignment};
ghost use Rattle.av_normal.specs.NormalForm.{IsNormalForm};

/// A law on normal forms: what a well formed system shows its normal form shows, and nothing else.
pub fn normal_forms_show_the_same()
    ensures { (s t : FlatSystem) → IsWellFormed s
        → IsNormalForm s t → SameMeaning (shows_of s) (declares_of s) (shows_of t) (declares_of t) }
{}

/// A law on normal forms: where a well formed system is proper, its normal form is.
pub fn normal_forms_are_proper()
    ensures { (s t : FlatSystem) → IsWellFormed s → IsNormalForm s t → IsProper s → IsProper t }
{}

/// A law on normal forms: where the declared domains of a well formed system are bounded and have few rows, and no set
/// or map that comes up in its pieces is above a limit, its normal form is kept.
pub fn normal_forms_are_kept()
    ensures { (s t : FlatSystem) → IsWellFormed s
        → IsNormalForm s t → All (λ v. HasFewRows v.domain × IsBounded v.domain) s.variables
        → ((kind : Quantity) (n : ℕ) → HasWideSets s kind n → ⊥) → IsKept t }
{}

/// A law on normal forms: a system has at most one.
pub fn normal_forms_are_unique()
    ensures { (s t u : FlatSystem) → IsNormalForm s t → IsNormalForm s u → t ≡ u }
{}

/// A law on normal forms: the inputs of a well formed system are inputs of its normal form, and where that has just one solution
/// for them, the system has.
pub fn one_solution_of_normal_forms()
    ensures inputs { (s t : FlatSystem)
        → IsWellFormed s → IsNormalForm s t → (x : Assignment) → AreInputs s x → AreInputs t x }
    ensures one { (s t : FlatSystem) → IsWellFormed s
        → IsNormalForm s t → (x : Assignment) → HasOneSolution t x → HasOneSolution s x }
{}
