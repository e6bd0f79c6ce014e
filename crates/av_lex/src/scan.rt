//! What stands at the front of a text.

ghost use Rattle.std.specs.Prelude.{◌≡◌, ◌<◌, ◌-◌, length, drop, slice_index};
ghost use Rattle.av_base.specs.Reading.{FitsIn};
ghost use Rattle.av_lex.specs.inner.Scan.{is_single, is_pair, begins_pair, symbol_of, word_kind, token_of, piece_of};

use av_base::{
    Lexeme, TokenKind, begins_comment, digits_len, is_blank, is_reserved_word, line_len, word_len,
};

fn word_kind(text: &[u8]) -> TokenKind
    ensures { result ≡ word_kind text.now }
{
    if is_reserved_word(text) {
        TokenKind::Reserved
    } else {
        TokenKind::Name
    }
}

fn is_single(byte: u8) -> bool
    ensures { result ≡ is_single byte }
{
    matches!(
        byte,
        b'(' | b')'
            | b'{'
            | b'}'
            | b'['
            | b']'
            | b'|'
            | b':'
            | b';'
            | b','
            | b'.'
            | b'='
            | b'<'
            | b'>'
            | b'+'
            | b'-'
            | b'*'
    )
}

fn is_pair(first: u8, second: u8) -> bool
    ensures { result ≡ is_pair first second }
{
    match first {
        b'<' => second == b'=' || second == b'>',
        b'>' => second == b'=',
        b'-' => second == b'>',
        _ => false,
    }
}

fn begins_pair(text: &[u8]) -> bool
    ensures { result ≡ begins_pair text.now }
{
    match text {
        [first, second, ..] => is_pair(*first, *second),
        _ => false,
    }
}

#[tactic(auto, unfolding(crate::specs::inner::Scan::symbol_of))]
fn symbol_of(first: u8, text: &[u8]) -> Lexeme<TokenKind>
    ensures { result ≡ symbol_of first text.now }
{
    if begins_pair(text) {
        Lexeme::Token(TokenKind::Symbol, 2)
    } else if is_single(first) {
        Lexeme::Token(TokenKind::Symbol, 1)
    } else {
        Lexeme::Bad
    }
}

#[tactic(auto, unfolding(crate::specs::inner::Scan::token_of))]
fn token_of(first: u8, text: &[u8]) -> Lexeme<TokenKind>
    ensures { result ≡ token_of first text.now }
{
    if first.is_ascii_alphabetic() {
        let len = word_len(text);
        Lexeme::Token(word_kind(&text[..len]), len)
    } else if first.is_ascii_digit() {
        Lexeme::Token(TokenKind::Number, digits_len(text))
    } else {
        symbol_of(first, text)
    }
}

#[tactic(auto, unfolding(av_base::specs::Reading::piece_by))]
fn piece_of(first: u8, text: &[u8]) -> Lexeme<TokenKind>
    ensures { result ≡ piece_of first text.now }
{
    if is_blank(first) {
        Lexeme::Gap(1)
    } else if begins_comment(text, b'-') {
        Lexeme::Gap(line_len(text))
    } else {
        token_of(first, text)
    }
}

/// What stands at an index of a text.
pub(crate) fn piece_at(text: &[u8], at: usize) -> Lexeme<TokenKind>
    requires { at < length text.now }
    ensures piece { result ≡ piece_of (slice_index text.now at) (drop at text.now) }
    ensures fits { FitsIn result (length text.now - at) }
{
    piece_of(text[at], &text[at..])
}
