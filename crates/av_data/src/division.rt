ghost use Rattle.std.specs.Prelude.{◌≡◌, ◌<◌, ◌≤◌, ◌+◌, ◌∷◌, length, if◌then◌else◌, nat_lt, IfSome, IfNone};
ghost use Rattle.av_data.specs.Divisions.{is_mark, IsDivided, HasNoMark};
ghost use Rattle.av_data.specs.Reading.{whole_size};

use crate::lines::from;
use av_base::{line_len, part};

/// A text, and what stands behind the first line `%%`. The lines of that are counted from the start of the
/// input, and its first one has the number `first_line`.
#[derive(Clone, Copy)]
pub struct Division<'a> {
    pub text: &'a [u8],
    pub rest: &'a [u8],
    pub first_line: u32,
}

// How many bytes the first line has with the line feed that ends it.
#[tactic(auto, unfolding(crate::specs::Reading::whole_size))]
fn whole_size(bytes: &[u8]) -> usize
    ensures size { result ≡ whole_size bytes.now }
    ensures within { result ≤ length bytes.now }
{
    let len = line_len(bytes);
    if len < bytes.len() { len + 1 } else { len }
}

fn is_mark(line: &[u8]) -> bool
    ensures { result ≡ is_mark line.now }
{
    line == b"%%".as_slice() || line == b"%%\n".as_slice() || line == b"%%\r\n".as_slice()
}

/// Divides an input at its first line `%%`, which may end with a carriage return before its line feed. `None`
/// says that there is no such line.
pub fn divide(bytes: &[u8]) -> Option<Division<'_>>
    requires { length bytes.now < 4294967294 }
    ensures some { IfSome result (λ d. IsDivided bytes.now d.text.now d.rest.now d.first_line) }
    ensures none { IfNone result (HasNoMark bytes.now) }
    ensures within { IfSome result (λ d. (length d.text.now ≤ length bytes.now)
        × (d.first_line + length d.rest.now ≤ length bytes.now + 1)) }
{
    let mut lines = 0u32;
    let mut at = 0;
    while at < bytes.len() {
        let size = whole_size(from(bytes, at));
        if is_mark(part(bytes, at, size)) {
            return Some(Division {
                text: &bytes[..at],
                rest: from(bytes, at + size),
                first_line: lines + 2,
            });
        }
        at += size;
        lines += 1;
    }
    None
}
