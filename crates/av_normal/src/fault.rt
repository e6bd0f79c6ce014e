ghost use Rattle.std.specs.Prelude.{◌≡◌};
ghost use Rattle.av_normal.specs.declared.fault.NormalFault.TheVariants as fault;

use av_base::{Memory, Name};
use av_flat::Quantity;
use std::alloc::{AllocError, AllocFailed};

/// Why a system has no normal form. Where several of these hold, the first of these is answered: pieces, limits of
/// sets and composed maps, unbounded domains, limits of boxes.
#[derive(Debug, Drop)]
pub enum NormalFault {
    /// How many pieces an equation has, which is above 256: the first such equation. A number that 128 bits do not
    /// hold is the greatest that they do.
    Pieces(u128),
    /// The first variable whose domain has a rational point and a rational ray.
    Unbounded(Name),
    /// A quantity that is above its limit: of sets and composed maps, or, behind `Unbounded`, of a domain's box.
    Limit(Quantity, u128),
    /// Out of memory. No contract says when it comes.
    Memory,
}

impl From<Memory> for NormalFault {
    ghost from_gives = { λ _ e. e ≡ fault.Memory };

    fn from(_: Memory) -> NormalFault {
        NormalFault::Memory
    }
}

impl From<AllocError> for NormalFault {
    ghost from_gives = { λ _ e. e ≡ fault.Memory };

    fn from(_: AllocError) -> NormalFault {
        NormalFault::Memory
    }
}

impl<T: Drop> From<AllocFailed<T>> for NormalFault {
    ghost from_gives = { λ _ e. e ≡ fault.Memory };

    fn from(_: AllocFailed<T>) -> NormalFault {
        NormalFault::Memory
    }
}
