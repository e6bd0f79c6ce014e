//! How words of texts are spelled, and the words that a program text keeps for itself.

ghost use Rattle.std.specs.Prelude.{◌≡◌, ◌≤◌, length};
ghost use Rattle.std.specs.List.{prefix_len, list_all, list_any};
ghost use Rattle.std.specs.Str.{IsAscii, bytes_eq};
ghost use Rattle.std.specs.Char.{is_ascii_digit};
ghost use Rattle.av_base.specs.Tokens.{is_blank, is_word_byte};
ghost use Rattle.av_base.specs.Spelling.{is_not_feed, is_reserved, is_name};

use std::str;

const RESERVED_WORDS: [&str; 16] = [
    "system", "returns", "var", "let", "tel", "case", "esac", "if", "then", "else", "reduce",
    "min", "max", "of", "integer", "word",
];

/// A space, a tab, a carriage return or a line feed.
pub fn is_blank(byte: u8) -> bool
    ensures { result ≡ is_blank byte }
{
    matches!(byte, b' ' | b'\t' | b'\r' | b'\n')
}

/// A letter, a digit or `_`.
pub fn is_word_byte(byte: u8) -> bool
    ensures { result ≡ is_word_byte byte }
{
    byte.is_ascii_alphabetic() || byte.is_ascii_digit() || byte == b'_'
}

/// How many letters, digits and `_` a text begins with.
pub fn word_len(text: &[u8]) -> usize
    ensures len { result ≡ prefix_len is_word_byte text.now }
    ensures within { result ≤ length text.now }
{
    text.iter().take_while(|byte| is_word_byte(**byte)).count()
}

/// How many digits a text begins with.
pub fn digits_len(text: &[u8]) -> usize
    ensures len { result ≡ prefix_len is_ascii_digit text.now }
    ensures within { result ≤ length text.now }
{
    text.iter().take_while(|byte| byte.is_ascii_digit()).count()
}

/// How many bytes of a text stand before its first line feed.
pub fn line_len(text: &[u8]) -> usize
    ensures len { result ≡ prefix_len is_not_feed text.now }
    ensures within { result ≤ length text.now }
{
    text.iter().take_while(|byte| **byte != b'\n').count()
}

/// Whether the text has letters, digits and `_` alone.
pub fn are_word_bytes(text: &[u8]) -> bool
    ensures { result ≡ list_all is_word_byte text.now }
{
    text.iter().all(|byte| is_word_byte(*byte))
}

/// Whether the text is one of these words.
pub fn is_one_of(text: &[u8], words: &[&str]) -> bool
    ensures { result ≡ list_any (λ word. bytes_eq text.now word.now) words.now }
{
    words.iter().any(|word| text == word.as_bytes())
}

/// Whether the text is a word that a program text keeps for itself, so that it names nothing there.
pub fn is_reserved_word(text: &[u8]) -> bool
    ensures { result ≡ is_reserved text.now }
{
    is_one_of(text, &RESERVED_WORDS)
}

/// Whether the text is a name of a program text: a letter, then letters, digits and `_`, and no reserved
/// word.
pub fn is_name(text: &[u8]) -> bool
    ensures { result ≡ is_name text.now }
{
    match text {
        [first, later @ ..] => {
            first.is_ascii_alphabetic() && are_word_bytes(later) && !is_reserved_word(text)
        }
        [] => false,
    }
}

/// ASCII bytes as text.
pub fn ascii(bytes: &[u8]) -> &str
    requires { IsAscii bytes.now }
    ensures { result.now ≡ bytes.now }
{
    match str::from_utf8(bytes) {
        Ok(text) => text,
        Err(_) => unreachable!(),
    }
}
