ghost use Rattle.std.specs.Prelude.{◌≡◌};
ghost use Rattle.av_space.specs.declared.fault.SpaceFault.TheVariants as fault;

use av_base::Memory;

/// Why a scheduled system has no array: the first quantity of the whole array, in this order, that is above its limit, with its
/// value; or memory ran out.
#[derive(Clone, Copy, Debug, PartialEq, Eq)]
pub enum SpaceFault {
    /// Above 4,096 cycles.
    Cycles(u128),
    /// Above 2,048 cells.
    Cells(u128),
    /// Above 32,768 registers of delay lines.
    Delays(u128),
    /// Above 16,384 links.
    Links(u128),
    /// Above 1,048,576 operators.
    Operators(u128),
    Memory,
}

impl From<Memory> for SpaceFault {
    ghost from_gives = { λ _ e. e ≡ fault.Memory };

    fn from(_: Memory) -> SpaceFault {
        SpaceFault::Memory
    }
}
