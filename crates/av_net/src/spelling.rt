//! How names of a module are spelled, and the keywords of the subset.

ghost use Rattle.std.specs.Prelude.{◌≡◌};
ghost use Rattle.av_net.specs.Lexemes.{begins_name};
ghost use Rattle.av_net.specs.Spelling.{is_identifier, is_reserved, is_name};

use av_base::{are_word_bytes, is_one_of};

const KEYWORDS: [&str; 11] = [
    "module",
    "endmodule",
    "input",
    "output",
    "wire",
    "reg",
    "assign",
    "always",
    "posedge",
    "if",
    "else",
];

/// A letter or `_`.
pub fn begins_name(byte: u8) -> bool
    ensures { result ≡ begins_name byte }
{
    byte.is_ascii_alphabetic() || byte == b'_'
}

/// Whether the text is a keyword of the subset, so that it names nothing (IEEE 1364-2005, 3.7.3).
pub fn is_keyword(text: &[u8]) -> bool
    ensures { result ≡ is_reserved text.now }
{
    is_one_of(text, &KEYWORDS)
}

fn is_identifier(text: &[u8]) -> bool
    ensures { result ≡ is_identifier text.now }
{
    match text {
        [] => false,
        [first, later @ ..] => begins_name(*first) && are_word_bytes(later),
    }
}

/// A name as in a design text: a letter or `_`, then letters, digits and `_`, and no reserved word.
pub fn is_name(text: &[u8]) -> bool
    ensures { result ≡ is_name text.now }
{
    is_identifier(text) && !is_keyword(text)
}
