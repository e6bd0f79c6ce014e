//! Laws of schedules, each the contract of a function that does nothing.

ghost use Rattle.std.specs.Prelude.{◌≡◌, ℕ, List};
ghost use Rattle.av_flat.specs.declared.timed.Time.{Time};
ghost use Rattle.av_flat.specs.Trees.{FlatSystem};
ghost use Rattle.av_sched.specs.First.{IsFirstSchedule};

/// A law on first schedules: a system has at most one in a box.
pub fn first_schedules_are_unique()
    ensures { (s : FlatSystem) (c : ℕ) (times others : List Time)
        → IsFirstSchedule s c times → IsFirstSchedule s c others → times ≡ others }
{}
