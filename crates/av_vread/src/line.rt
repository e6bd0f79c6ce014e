//! The lines of a text, and the parts of a line.

ghost use Rattle.std.specs.Prelude.{◌≡◌, ◌<◌, ◌≤◌, ◌+◌, length, drop, option_map};
ghost use Rattle.std.specs.List.{prefix_len};
ghost use Rattle.av_vread.specs.inner.Lines.{is_not, cut, trimmed, line_len, first_line_of};

use av_base::line_len;

// How many bytes come before the first such byte.
fn front_len(text: &[u8], byte: u8) -> usize
    ensures { result ≡ prefix_len (is_not byte) text.now }
{
    text.iter().take_while(|other| **other != byte).count()
}

/// What stands before the first such byte, and what stands after it, where the text has one.
pub(crate) fn cut(text: &[u8], byte: u8) -> Option<(&[u8], &[u8])>
    ensures { option_map (λ parts. (parts.0.now, parts.1.now)) result ≡ cut byte text.now }
{
    let len = front_len(text, byte);
    if len < text.len() {
        Some((&text[..len], &text[len + 1..]))
    } else {
        None
    }
}

// Without a carriage return at the end.
fn trimmed(text: &[u8]) -> &[u8]
    ensures { result.now ≡ trimmed text.now }
{
    let len = text.len();
    if len > 0 && text[len - 1] == b'\r' {
        &text[..len - 1]
    } else {
        text
    }
}

/// A line, and how many bytes come before its line feed.
#[derive(Clone, Copy)]
pub(crate) struct Line<'a> {
    pub(crate) text: &'a [u8],
    pub(crate) len: usize,
}

/// The line that begins at an index, without what ends it: a line feed, and a carriage return directly
/// before it.
pub(crate) fn line_at(bytes: &[u8], at: usize) -> Line<'_>
    requires { at ≤ length bytes.now }
    ensures text { result.text.now ≡ first_line_of (drop at bytes.now) }
    ensures len { result.len ≡ line_len (drop at bytes.now) }
    ensures within { at + result.len ≤ length bytes.now }
{
    let rest = &bytes[at..];
    let len = line_len(rest);
    let text = if len < rest.len() {
        trimmed(&rest[..len])
    } else {
        rest
    };
    Line { text, len }
}
