//! Tokens.

ghost use Rattle.std.specs.Prelude.{◌≡◌};
ghost use Rattle.av_vparse.specs.inner.Lexing.{view};
ghost use Rattle.av_vparse.specs.inner.Reading.{is_word, is_name};

use av_base::Place;
use av_net::DesignTokenKind;

/// A token, with its bytes in the source and the place of the first of them.
#[derive(Clone, Copy)]
pub(crate) struct DesignToken<'a> {
    pub(crate) kind: DesignTokenKind,
    pub(crate) text: &'a str,
    pub(crate) place: Place,
}

/// Whether a token is no name, and has this text.
pub(crate) fn is_word(token: &DesignToken, text: &str) -> bool
    ensures { result ≡ is_word text.now (view token.now) }
{
    token.kind != DesignTokenKind::Name && token.text == text
}

/// Whether a token is this name.
pub(crate) fn is_name(token: &DesignToken, text: &str) -> bool
    ensures { result ≡ is_name text.now (view token.now) }
{
    token.kind == DesignTokenKind::Name && token.text == text
}
