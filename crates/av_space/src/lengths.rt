//! A table of the lengths of delay lines.

ghost use Rattle.std.specs.Prelude.{◌≡◌, ◌-◌, ◌^◌, ◌<◌, max, if◌then◌else◌, IfOk, OnOk};
ghost use Rattle.av_space.specs.declared.lengths.DelayLine.{DelayLine as LineSeen};
ghost use Rattle.av_space.specs.inner.Lengths.{is_line};
ghost use Rattle.av_space.specs.Lengths.{length_in};

use crate::numbers::CellNumber;
use av_base::Memory;
use std::collections::BTreeMap;

/// A delay line: of the value of a cell, or of the pipeline of a helper on it.
#[derive(Clone, Copy, Debug, PartialEq, Eq, PartialOrd, Ord)]
pub struct DelayLine {
    pub(crate) cell: CellNumber,
    pub(crate) helper: Option<usize>,
}

/// Makes a line as long as a delay, where it is shorter; by how much.
pub(crate) fn lengthened(
    lengths: &mut BTreeMap<DelayLine, u32>,
    line: DelayLine,
    delay: u32,
) -> Result<u32, Memory>
    ensures by { IfOk result (λ by. by ≡ delay - length_in lengths.old line) }
    ensures small { IfOk result (λ by. by < 2 ^ 32) }
    ensures all { OnOk result ((q : LineSeen) → length_in lengths.new q ≡ (if is_line line q
        then max (length_in lengths.old q) delay else length_in lengths.old q)) }
{
    let length = match lengths.get(&line) {
        Some(length) => *length,
        None => 0,
    };
    if delay <= length {
        return Ok(0);
    }
    match lengths.insert(line, delay) {
        Ok(_) => Ok(delay - length),
        Err(_) => Err(Memory),
    }
}
