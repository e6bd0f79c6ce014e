//! Laws of the definitions of bounds and answers, each the contract of a function that does nothing.

ghost use Rattle.std.specs.Prelude.{ℕ, ◌≡◌, ◌≢◌, ◌≤◌, ◌<◌, ◌↔◌, length};
ghost use Rattle.av_poly.specs.Points.{Set};
ghost use Rattle.av_poly.specs.declared.poly.Bounds.{Bounds};
ghost use Rattle.av_poly.specs.Rational.{homogeneous, HasRationalPoint, HasRationalRay, IsEndless, AreBounds, entry_of};
ghost use Rattle.av_elim.specs.declared.bounding.Elim.{Elim};
ghost use Rattle.av_elim.specs.declared.bounding.Elim.TheVariants.{Memory};
ghost use Rattle.av_elim.specs.Faults.{IsCause};

/// A law: where a set has a rational point, some index is without a finite bound on one side exactly
/// where the set has a rational ray.
pub fn rays()
    ensures { (set : Set) → HasRationalPoint set.dim (homogeneous set.rows)
        → ((index : ℕ) × (index < set.dim) × IsEndless set.dim (homogeneous set.rows) index)
        ↔ HasRationalRay set.dim (homogeneous set.rows) }
{}

/// A law: unless memory runs out, a set has one answer. Bounds of one set have the same entries, no set
/// of at most 20 rows has bounds and a cause of another answer, and two causes are one.
pub fn one_answer()
    ensures bounds { (set : Set) (some other : Bounds) (index : ℕ) → AreBounds set some
        → AreBounds set other → (entry_of some.low index ≡ entry_of other.low index)
        × (entry_of some.high index ≡ entry_of other.high index) }
    ensures not_both { (set : Set) (some : Bounds) (cause : Elim)
        → length set.rows ≤ 20 → AreBounds set some → IsCause set cause → cause ≡ Memory }
    ensures one_cause { (set : Set) (some other : Elim) → IsCause set some → IsCause set other →
        some ≢ Memory → other ≢ Memory → some ≡ other }
{}
