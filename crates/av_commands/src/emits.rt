//! The command `emit`.

ghost use Rattle.std.specs.Prelude.{◌≤◌, length};
ghost use Rattle.av_commands.specs.WithWords.{RefusesEmitWith, GivesEmitWith};
ghost use Rattle.av_commands.specs.Written.{IsAnswered};

use crate::puts::{put_alpha_refusal, put_plan};
use crate::sizes::sizes;
use crate::status::Status;
use av_base::{Memory, Name, Sink, Width};
use av_compile::planned;
use av_flat::Reach;
use std::alloc::Global;

/// Answers an Alpha text with the sizes among the words.
pub fn emit<K: Sink>(
    alloc: Global,
    words: &[Name],
    bytes: &[u8],
    width: Width,
    reach: Reach,
    sink: &mut K,
) -> Status
    requires { length bytes.now ≤ 1048576 }
    ensures { IsAnswered (RefusesEmitWith words.now width.bits reach.size bytes.now) (GivesEmitWith
        words.now width.bits reach.size bytes.now) (K.state sink.old) (K.state sink.new) result }
{
    let sizes = match sizes(alloc, words) {
        Err(Memory) => return Status::Memory,
        Ok(sizes) => sizes,
    };
    match planned(alloc, bytes, sizes.as_slice(), width, reach) {
        Err(refusal) => put_alpha_refusal(sink, refusal),
        Ok(plan) => put_plan(sink, plan),
    }
}
