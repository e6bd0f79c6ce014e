//! The lines of data, and the parts of a line.

ghost use Rattle.std.specs.Prelude.{◌≡◌, ◌≤◌, length, drop};
ghost use Rattle.std.specs.List.{prefix_len};
ghost use Rattle.av_net.specs.Listed.{begins_feed};
ghost use Rattle.av_data.specs.Lines.{uncommented, is_gap};
ghost use Rattle.av_data.specs.Reading.{is_part_byte, begins_return, first_line, line_size, first_part, after_part, is_empty};

use av_base::begins_comment;

/// The bytes from an index on.
pub(crate) fn from(text: &[u8], at: usize) -> &[u8]
    requires { at ≤ length text.now }
    ensures { result.now ≡ drop at text.now }
{
    &text[at..]
}

fn begins_feed(bytes: &[u8]) -> bool
    ensures { result ≡ begins_feed bytes.now }
{
    match bytes {
        [first, ..] => *first == b'\n',
        [] => false,
    }
}

fn begins_return(bytes: &[u8]) -> bool
    ensures { result ≡ begins_return bytes.now }
{
    match bytes {
        [first, rest @ ..] => *first == b'\r' && begins_feed(rest),
        [] => false,
    }
}

/// The first of the lines of some bytes, without what ends it, and how many bytes it has with that.
pub(crate) fn first_line(bytes: &[u8]) -> (&[u8], usize)
    ensures line { result.0.now ≡ first_line bytes.now }
    ensures size { result.1 ≡ line_size bytes.now }
{
    for i in 0..bytes.len() {
        let rest = from(bytes, i);
        if begins_feed(rest) {
            return (&bytes[..i], i + 1);
        }
        if begins_return(rest) {
            return (&bytes[..i], i + 2);
        }
    }
    (bytes, bytes.len())
}

/// What stands on a line before its comment.
pub(crate) fn uncommented(line: &[u8]) -> &[u8]
    ensures { result.now ≡ uncommented line.now }
{
    for i in 0..line.len() {
        if begins_comment(from(line, i), b'-') {
            return &line[..i];
        }
    }
    line
}

fn is_gap(byte: u8) -> bool
    ensures { result ≡ is_gap byte }
{
    byte == b' ' || byte == b'\t'
}

/// How many blanks and tabs stand at the front.
pub(crate) fn gap_len(text: &[u8]) -> usize
    ensures len { result ≡ prefix_len is_gap text.now }
    ensures within { result ≤ length text.now }
{
    text.iter().take_while(|byte| is_gap(**byte)).count()
}

fn part_len(text: &[u8]) -> usize
    ensures len { result ≡ prefix_len is_part_byte text.now }
    ensures within { result ≤ length text.now }
{
    text.iter().take_while(|byte| !is_gap(**byte)).count()
}

/// The first part of a text, which blanks and tabs separate from others, and what follows it. Where there is
/// no part, it is empty.
pub(crate) fn first_part(text: &[u8]) -> (&[u8], &[u8])
    ensures part { result.0.now ≡ first_part text.now }
    ensures rest { result.1.now ≡ after_part text.now }
{
    let text = from(text, gap_len(text));
    let len = part_len(text);
    (&text[..len], from(text, len))
}

/// Whether a text has no part.
pub(crate) fn is_empty(text: &[u8]) -> bool
    ensures { result ≡ is_empty (first_part text.now) }
{
    first_part(text).0.is_empty()
}
