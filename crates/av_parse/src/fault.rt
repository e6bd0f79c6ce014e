ghost use Rattle.std.specs.Prelude.{◌≡◌};
ghost use Rattle.av_parse.specs.declared.fault.Stop.TheVariants as stop;

use av_base::{Memory, Place};
use std::alloc::{AllocError, AllocFailed};

/// Why tokens give no tree.
#[derive(Clone, Copy, Debug, PartialEq, Eq)]
pub enum ParseFault {
    /// No program goes on with the token there.
    Syntax(Place),
    /// The token there lies deeper than level 256.
    Depth(Place),
    /// Out of memory. No contract says when it comes.
    Memory,
}

/// What is wrong with the tokens, and how many are left from the faulty one on.
#[derive(Clone, Copy, Debug)]
pub(crate) enum Fault {
    Syntax(usize),
    Depth(usize),
}

/// Why reading stops.
#[derive(Clone, Copy, Debug)]
pub(crate) enum Stop {
    Fault(Fault),
    Memory,
}

impl From<Memory> for Stop {
    ghost from_gives = { λ _ e. e ≡ stop.Memory };

    fn from(_: Memory) -> Stop {
        Stop::Memory
    }
}

impl From<AllocError> for Stop {
    ghost from_gives = { λ _ e. e ≡ stop.Memory };

    fn from(_: AllocError) -> Stop {
        Stop::Memory
    }
}

impl<T: Drop> From<AllocFailed<T>> for Stop {
    ghost from_gives = { λ _ e. e ≡ stop.Memory };

    fn from(_: AllocFailed<T>) -> Stop {
        Stop::Memory
    }
}
