ghost use Rattle.std.specs.Prelude.{◌≡◌};
ghost use Rattle.av_check.specs.declared.fault.CheckFault.TheVariants as fault;

use av_base::{Memory, Name, Point};

/// Why a system is refused: the first output or local, in the order of the variables, with a declared point at which
/// its equation has not just one word, and its least such point in lexicographic order.
#[derive(Debug, Drop)]
pub enum CheckFault {
    /// No branch has a word there. The reference that is blamed, where one is, is identified by the variable that it reads
    /// and the point which that does not have.
    Uncovered {
        variable: Name,
        point: Point,
        outside: Option<(Name, Point)>,
    },
    /// Two branches or more have a word there.
    TwoBranches {
        variable: Name,
        point: Point,
    },
    /// Out of memory. No contract says when it comes.
    Memory,
}

impl From<Memory> for CheckFault {
    ghost from_gives = { λ _ e. e ≡ fault.Memory };

    fn from(_: Memory) -> CheckFault {
        CheckFault::Memory
    }
}
