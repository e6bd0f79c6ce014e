ghost use Rattle.std.specs.Prelude.{◌≡◌, ◌<◌, ◌^◌};
ghost use Rattle.std.specs.Str.{IsAscii};
ghost use Rattle.av_base.specs.Tokens.{number_of};
ghost use Rattle.av_base.specs.declared.token_kind.TokenKind.TheVariants as kinds;

use av_base::{Place, TokenKind};

/// A token, with its bytes in the source and the place of the first of them. They are ASCII, and those of a
/// number are a number of 64 bits.
#[derive(Clone, Copy, Debug, PartialEq, Eq)]
pub struct Token<'a> {
    pub kind: TokenKind,
    pub text: &'a [u8],
    pub place: Place,
    pub ghost ascii: { IsAscii text.now },
    pub ghost in_range: { kind ≡ kinds.Number → number_of text.now < 2 ^ 64 },
}

impl<'a> Token<'a> {
    ghost use Rattle.av_lex.specs.Lexing.{view};

    /// The token of this kind with these bytes, at a place.
    pub(crate) fn new(kind: TokenKind, text: &'a [u8], place: Place) -> Token<'a>
        requires ascii { IsAscii text.now }
        requires in_range { kind ≡ kinds.Number → number_of text.now < 2 ^ 64 }
        ensures { view result ≡ record { kind = kind; text = text.now; place = place } }
    {
        Token { kind, text, place }
    }
}
