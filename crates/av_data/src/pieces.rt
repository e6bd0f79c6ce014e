//! The parts of a line of data, which blanks may stand between.

ghost use Rattle.std.specs.Prelude.{◌≡◌, ◌≤◌, length, codes};
ghost use Rattle.std.specs.List.{prefix_len};
ghost use Rattle.std.specs.Str.{bytes_eq};
ghost use Rattle.av_data.specs.Reading.{is_empty};
ghost use Rattle.av_data.specs.inner.Parts.{is_joined, piece_len, first_piece, after_piece};

use crate::lines::{from, gap_len};
use av_base::is_word_byte;

fn is_joined(byte: u8) -> bool
    ensures { result ≡ is_joined byte }
{
    is_word_byte(byte) || byte == b'-'
}

fn joined_len(text: &[u8]) -> usize
    ensures len { result ≡ prefix_len is_joined text.now }
    ensures within { result ≤ length text.now }
{
    text.iter().take_while(|byte| is_joined(**byte)).count()
}

fn piece_len(text: &[u8]) -> usize
    ensures len { result ≡ piece_len text.now }
    ensures within { result ≤ length text.now }
{
    match text {
        [] => 0,
        [first, rest @ ..] => {
            if is_joined(*first) {
                1 + joined_len(rest)
            } else {
                1
            }
        }
    }
}

/// The first part of a text, which is a name, a number or a sign, and what follows it. Where there is no part,
/// it is empty.
pub(crate) fn first_piece(text: &[u8]) -> (&[u8], &[u8])
    ensures piece { result.0.now ≡ first_piece text.now }
    ensures rest { result.1.now ≡ after_piece text.now }
{
    let text = from(text, gap_len(text));
    let len = piece_len(text);
    (&text[..len], from(text, len))
}

/// Whether a text has no part.
pub(crate) fn is_end(text: &[u8]) -> bool
    ensures { result ≡ is_empty (first_piece text.now) }
{
    first_piece(text).0.is_empty()
}

/// Whether a part is the `,` between entries.
pub(crate) fn is_comma(piece: &[u8]) -> bool
    ensures { result ≡ bytes_eq piece.now (codes ",") }
{
    piece == b",".as_slice()
}

/// Whether a part is the `)` behind the entries.
pub(crate) fn is_close(piece: &[u8]) -> bool
    ensures { result ≡ bytes_eq piece.now (codes ")") }
{
    piece == b")".as_slice()
}
