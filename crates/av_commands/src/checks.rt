//! The command `check`.

ghost use Rattle.std.specs.Prelude.{◌≤◌, length};
ghost use Rattle.av_commands.specs.WithWords.{RefusesWith, GivesWith};
ghost use Rattle.av_commands.specs.Written.{IsAnswered};

use crate::puts::{put, put_alpha_refusal};
use crate::sizes::sizes;
use crate::status::Status;
use av_base::{Memory, Name, Sink, Width};
use av_compile::checked;
use std::alloc::Global;

const OK: &str = "ok\n";

/// Answers an Alpha text with the sizes among the words.
pub fn check<K: Sink>(
    alloc: Global,
    words: &[Name],
    bytes: &[u8],
    width: Width,
    sink: &mut K,
) -> Status
    requires { length bytes.now ≤ 1048576 }
    ensures { IsAnswered (RefusesWith words.now width.bits bytes.now)
        (GivesWith words.now width.bits bytes.now) (K.state sink.old) (K.state sink.new) result }
{
    let sizes = match sizes(alloc, words) {
        Err(Memory) => return Status::Memory,
        Ok(sizes) => sizes,
    };
    match checked(alloc, bytes, sizes.as_slice(), width) {
        Err(refusal) => put_alpha_refusal(sink, refusal),
        Ok(_) => put(sink, OK, Status::Done),
    }
}
