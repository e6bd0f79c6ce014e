//! Which shapes of tokens are tokens.

ghost use Rattle.std.specs.Prelude.{◌≡◌};
ghost use Rattle.av_lex.specs.inner.Scan.{is_in_range};

use av_base::{TokenKind, decimal_value};

/// Whether a token of this shape is a token: only a number may be too great.
pub(crate) fn is_in_range(kind: TokenKind, text: &[u8]) -> bool
    ensures { result ≡ is_in_range kind text.now }
{
    match kind {
        TokenKind::Number => decimal_value(text).is_some(),
        _ => true,
    }
}
