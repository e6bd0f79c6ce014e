ghost use Rattle.std.specs.Prelude.{◌≡◌};
ghost use Rattle.av_lex.specs.declared.fault.LexFault.TheVariants as fault;

use av_base::{Memory, Place};

/// Why a text gives no tokens.
#[derive(Clone, Copy, Debug, PartialEq, Eq)]
pub enum LexFault {
    /// The byte there begins no token.
    BadByte(Place),
    /// The number there is above 18446744073709551615.
    Number(Place),
    /// Out of memory. No contract says when it comes.
    Memory,
}

impl From<Memory> for LexFault {
    ghost from_gives = { λ _ e. e ≡ fault.Memory };

    fn from(_: Memory) -> LexFault {
        LexFault::Memory
    }
}
