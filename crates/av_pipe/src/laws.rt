//! Laws of pipelines, each the contract of a function that does nothing.

ghost use Rattle.std.specs.Prelude.{◌≡◌, ◌≢◌, ◌<◌, ◌⊎◌, ℕ, ℤ, ◌+ℤ◌, ◌≤ℤ◌, pos, All, AllPairs, Contains, IsTrue, List, []};
ghost use Rattle.av_tree.specs.Points.{Point};
ghost use Rattle.av_flat.specs.Trees.{FlatSystem, view_system};
ghost use Rattle.av_flat.specs.Points.{has};
ghost use Rattle.av_flat.specs.Shown.{SameMeaning};
ghost use Rattle.av_flat.specs.Solutions.{declares_of};
ghost use Rattle.av_flat.specs.declared.timed.Time.{Time};
ghost use Rattle.av_flat.specs.declared.timed.Helper.{Helper};
ghost use Rattle.av_flat.specs.Chained.{IsChained};
ghost use Rattle.av_flat.specs.Schedules.{cycle, IsSchedule};
ghost use Rattle.av_flat.specs.Legal.{IsMoving, IsLegal};
ghost use Rattle.av_flat.specs.Helped.{before, helped_shows_of};
ghost use Rattle.av_pipe.specs.Ranks.{Computed, StandsIn, NeedsWord};
ghost use Rattle.av_pipe.specs.Pipelines.{pipelines};
ghost use Rattle.av_pipe.specs.Piped.{IsPiped};
ghost use Rattle.av_flat.specs.declared.timed.Timed.{Timed};

/// A law on helpers: what a scheduled system shows it shows with helpers for moved references, and nothing else.
pub fn helped_systems_show_the_same()
    ensures { (s : FlatSystem) (times : List Time) (hs : List Helper) → IsChained s
        → IsSchedule s 4 times → All (IsMoving s times) hs → SameMeaning (helped_shows_of s
        []) (declares_of s) (helped_shows_of s hs) (declares_of s) }
{}

/// A law on helpers: the one for each moved reference is of such a reference, with the first direction that moves it.
pub fn pipelines_move()
    ensures { (s : FlatSystem) (times : List Time) → All (IsMoving s times) (pipelines s times) }
{}

/// A law on helpers: a helper's read of its own word at the point before is at least a cycle later.
pub fn helpers_read_earlier()
    ensures { (s : FlatSystem) (times : List Time) (h : Helper) → IsChained s → IsSchedule s 4 times
        → (m : IsMoving s times h) → (z : Point) → IsTrue (has m.piece.domain z)
        → (cycle m.time (before z h.direction) +ℤ pos 1) ≤ℤ cycle m.time z }
{}

/// A law on pipelines: with the same flat system and times and these helpers, a legal system without helpers is given as
/// the pass gives it.
pub fn pipelines_are_given()
    ensures { (from to : Timed) → IsLegal from
        → from.helpers ≡ [] → view_system to.flat ≡ view_system from.flat → to.times ≡ from.times
        → to.helpers ≡ pipelines (view_system from.flat) from.times → IsPiped from to }
{}

/// A law on pipelines: these helpers are all that the times ask for, and no two of them are equal.
pub fn pipelines_are_all()
    ensures each { (s : FlatSystem) (times : List Time) (h : Helper)
        → IsMoving s times h → Contains (pipelines s times) h }
    ensures once { (s : FlatSystem) (times : List Time)
        → AllPairs (λ a b. a ≢ b) (pipelines s times) }
{}

/// A law on legal systems: each word stands behind those that it is computed from, a cycle later or in the same cycle at a
/// higher rank.
pub fn words_come_in_order()
    ensures { (t : Timed) → IsLegal t → (a b : Computed) (c d : ℤ) (i j : ℕ) → NeedsWord t a b
        → StandsIn t a c i → StandsIn t b d j → ((d +ℤ pos 1) ≤ℤ c) ⊎ ((d ≡ c) × (j < i)) }
{}
