//! What stands at the front of a text.

ghost use Rattle.std.specs.Prelude.{◌≡◌, ◌<◌, ◌≤◌, ◌-◌, length, drop, slice_index};
ghost use Rattle.av_base.specs.Reading.{FitsIn};
ghost use Rattle.av_vparse.specs.inner.Scan.{is_single, is_pair, begins_pair, is_signed, tail_len, number_of, symbol_of, word_kind, token_of, piece_of};

use av_base::{Lexeme, begins_comment, digits_len, is_blank, line_len, word_len};
use av_net::{DesignTokenKind, begins_name, is_keyword};

fn word_kind(text: &[u8]) -> DesignTokenKind
    ensures { result ≡ word_kind text.now }
{
    if is_keyword(text) {
        DesignTokenKind::Reserved
    } else {
        DesignTokenKind::Name
    }
}

fn is_single(byte: u8) -> bool
    ensures { result ≡ is_single byte }
{
    matches!(
        byte,
        b'(' | b')'
            | b'['
            | b']'
            | b':'
            | b';'
            | b','
            | b'.'
            | b'@'
            | b'?'
            | b'='
            | b'<'
            | b'>'
            | b'+'
            | b'-'
            | b'*'
            | b'&'
            | b'|'
            | b'{'
            | b'}'
    )
}

fn is_pair(first: u8, second: u8) -> bool
    ensures { result ≡ is_pair first second }
{
    matches!(first, b'<' | b'>' | b'=' | b'!') && second == b'='
}

fn begins_pair(text: &[u8]) -> bool
    ensures { result ≡ begins_pair text.now }
{
    match text {
        [first, second, ..] => is_pair(*first, *second),
        _ => false,
    }
}

#[tactic(auto, unfolding(crate::specs::inner::Scan::symbol_of))]
fn symbol_of(first: u8, text: &[u8]) -> Lexeme<DesignTokenKind>
    ensures { result ≡ symbol_of first text.now }
{
    if begins_pair(text) {
        Lexeme::Token(DesignTokenKind::Symbol, 2)
    } else if is_single(first) {
        Lexeme::Token(DesignTokenKind::Symbol, 1)
    } else {
        Lexeme::Bad
    }
}

fn is_signed(text: &[u8]) -> bool
    ensures { result ≡ is_signed text.now }
{
    text.len() >= 7 && &text[..7] == b"$signed".as_slice()
}

// How many bytes of 'd and digits come first, or 0.
fn tail_len(text: &[u8]) -> usize
    ensures len { result ≡ tail_len text.now }
    ensures within { result ≤ length text.now }
{
    match text {
        [quote, base, digits @ ..] if *quote == b'\'' && *base == b'd' => {
            let len = digits_len(digits);
            if len == 0 { 0 } else { 2 + len }
        }
        _ => 0,
    }
}

#[tactic(auto, unfolding(crate::specs::inner::Scan::number_of))]
fn number_of(text: &[u8]) -> Lexeme<DesignTokenKind>
    ensures { result ≡ number_of text.now }
{
    let len = digits_len(text);
    let tail = tail_len(&text[len..]);
    if tail == 0 {
        Lexeme::Token(DesignTokenKind::Number, len)
    } else {
        Lexeme::Token(DesignTokenKind::Literal, len + tail)
    }
}

#[tactic(auto, unfolding(crate::specs::inner::Scan::token_of))]
fn token_of(first: u8, text: &[u8]) -> Lexeme<DesignTokenKind>
    ensures { result ≡ token_of first text.now }
{
    if begins_name(first) {
        let len = word_len(text);
        Lexeme::Token(word_kind(&text[..len]), len)
    } else if first.is_ascii_digit() {
        number_of(text)
    } else if is_signed(text) {
        Lexeme::Token(DesignTokenKind::System, 7)
    } else {
        symbol_of(first, text)
    }
}

#[tactic(auto, unfolding(av_base::specs::Reading::piece_by))]
fn piece_of(first: u8, text: &[u8]) -> Lexeme<DesignTokenKind>
    ensures { result ≡ piece_of first text.now }
{
    if is_blank(first) {
        Lexeme::Gap(1)
    } else if begins_comment(text, b'/') {
        Lexeme::Gap(line_len(text))
    } else {
        token_of(first, text)
    }
}

/// What stands at an index of a text.
pub(crate) fn piece_at(text: &[u8], at: usize) -> Lexeme<DesignTokenKind>
    requires { at < length text.now }
    ensures piece { result ≡ piece_of (slice_index text.now at) (drop at text.now) }
    ensures fits { FitsIn result (length text.now - at) }
{
    piece_of(text[at], &text[at..])
}
