ghost use Rattle.std.specs.Prelude.{◌≡◌};
ghost use Rattle.av_vparse.specs.declared.fault.TextFault.TheVariants as fault;

use av_base::{Memory, Place};

/// Why bytes say no text.
#[derive(Clone, Copy, Debug, PartialEq, Eq)]
pub enum TextFault {
    /// The byte there begins no token.
    Byte(Place),
    /// The token there is the first that no text continues.
    Syntax(Place),
    /// Out of memory. No contract says when it comes.
    Memory,
}

impl From<Memory> for TextFault {
    ghost from_gives = { λ _ e. e ≡ fault.Memory };

    fn from(_: Memory) -> TextFault {
        TextFault::Memory
    }
}

/// Why the tokens of a text say nothing.
#[derive(Clone, Copy)]
pub(crate) enum ReadError {
    Syntax(Place),
    Memory,
}

impl From<Memory> for ReadError {
    ghost use Rattle.av_vparse.specs.declared.fault.ReadError.TheVariants as error;

    ghost from_gives = { λ _ e. e ≡ error.Memory };

    fn from(_: Memory) -> ReadError {
        ReadError::Memory
    }
}

impl ReadError {
    ghost use Rattle.av_vparse.specs.inner.Answers.{fault_for};

    /// The fault of the bytes that it stands for.
    pub(crate) fn fault(self) -> TextFault
        ensures { result ≡ fault_for self }
    {
        match self {
            ReadError::Syntax(place) => TextFault::Syntax(place),
            ReadError::Memory => TextFault::Memory,
        }
    }
}
