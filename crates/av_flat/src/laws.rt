ghost use Rattle.std.specs.Prelude.{◌≡◌, ◌≤◌, ◌↔◌, ℕ, false, IsTrue, Contains, List, [], length};
ghost use Rattle.av_poly.specs.Points.{Set, Has};
ghost use Rattle.av_tree.specs.Points.{Point};
ghost use Rattle.av_tree.specs.Values.{Assignment};
ghost use Rattle.av_flat.specs.declared.timed.Time.{Time as TimeSeen};
ghost use Rattle.av_flat.specs.Trees.{Tree, Variable, FlatSystem};
ghost use Rattle.av_flat.specs.Points.{has};
ghost use Rattle.av_flat.specs.Counts.{count};
ghost use Rattle.av_flat.specs.Values.{Scene, HasValue};
ghost use Rattle.av_flat.specs.Signatures.{Signature, is_computed};
ghost use Rattle.av_flat.specs.WellFormed.{Fits, EachPart, IsInPlace, is_pick};
ghost use Rattle.av_flat.specs.Pieces.{parts, holding, IsOfPart};
ghost use Rattle.av_flat.specs.Quantities.{piece_count};
ghost use Rattle.av_flat.specs.Kept.{IsKept};
ghost use Rattle.av_flat.specs.Unreduced.{HasNoReduction};
ghost use Rattle.av_flat.specs.Chained.{IsChained};
ghost use Rattle.av_flat.specs.Proper.{IsProper};
ghost use Rattle.av_flat.specs.Nodes.{is_node};
ghost use Rattle.av_flat.specs.Schedules.{IsSchedule};
ghost use Rattle.av_flat.specs.Shown.{SameMeaning};
ghost use Rattle.av_flat.specs.Solutions.{shows_of, declares_of};
ghost use Rattle.av_flat.specs.Helped.{helped_shows_of};
ghost use Rattle.av_flat.specs.OneSolution.{AreInputs, HasOneSolution};

/// A law on values: under the same words a tree has at most one word at a point.
pub fn one_word()
    ensures { (s : Scene) (t : Tree) (z : Point) (a b : ℕ)
        → HasValue s t z a → HasValue s t z b → a ≡ b }
{}

/// A law on values: a tree has a word only at points where its count is 1.
pub fn counted_word()
    ensures { (s : Scene) (t : Tree) (z : Point) (w : ℕ)
        → HasValue s t z w → count s.variables t z ≡ 1 }
{}

/// A law on sets: the points that counts go by are those that sets have.
pub fn points_of_sets()
    ensures { (set : Set) (z : Point) → IsTrue (has set z) ↔ Has set z }
{}

/// A law on pieces: at a point of its context a tree has as many words as it has pieces whose rows hold there.
pub fn counted_pieces()
    ensures { (vs : List Signature) (t : Tree) (z : Point)
        → length z ≤ 4 → Fits vs (length z) t → count vs t z ≡ holding z (parts vs [] t) }
{}

/// A law on pieces: how many there are, before any is dropped.
pub fn number_of_pieces()
    ensures { (vs : List Signature) (t : Tree) → length (parts vs [] t) ≡ piece_count t }
{}

/// A law on pieces: where a tree has one word at a point of its context, it is that of the piece that holds there.
pub fn words_of_pieces()
    ensures { (s : Scene) (t : Tree) (z : Point) (w : ℕ)
        → length z ≤ 4 → Fits s.variables (length z) t
        → EachPart IsInPlace t → EachPart (λ u. is_pick u ≡ false) t → HasValue s t z w
        ↔ ((count s.variables t z ≡ 1) × IsOfPart s z (parts s.variables [] t) w) }
{}

/// A law on schedules: a proper chained system that has one has exactly one solution for all words of its inputs.
pub fn one_solution()
    ensures { (s : FlatSystem) (c : ℕ) (times : List TimeSeen) → IsChained s → IsProper s
        → IsSchedule s c times → (x : Assignment) → AreInputs s x → HasOneSolution s x }
{}

/// A law on chains: a kept system without reductions is chained.
pub fn unreduced_is_chained()
    ensures { (s : FlatSystem) → IsKept s → HasNoReduction s → IsChained s }
{}

/// A law on nodes: of a proper chained system they are the computed variables that have a point.
pub fn nodes_have_points()
    ensures { (s : FlatSystem)
        → IsChained s → IsProper s → (v : Variable) → Contains s.variables v → IsTrue (is_node v)
        ↔ (IsTrue (is_computed v.kind) × ((z : Point) × IsTrue (has v.domain z))) }
{}

/// A law on helpers: without any, a timed system shows what its flat system shows.
pub fn unhelped_systems_show_the_same()
    ensures { (s : FlatSystem)
        → SameMeaning (shows_of s) (declares_of s) (helped_shows_of s []) (declares_of s) }
{}
