//! The length of a schedule.

ghost use Rattle.std.specs.Prelude.{IfOk};
ghost use Rattle.av_flat.specs.Trees.{view_system};
ghost use Rattle.av_flat.specs.Legal.{IsLegal};
ghost use Rattle.av_best.specs.Lengths.{IsLength};

use crate::bound::least_above;
use crate::span::{points_of, span_over};
use av_base::Memory;
use av_flat::{Node, Timed};
use std::alloc::Global;

/// The length of a legal schedule: its last cycle of a computation and one more, or 0 without a computation.
pub fn length_of(alloc: Global, timed: &Timed) -> Result<u64, Memory>
    requires { IsLegal timed.now }
    ensures { IfOk result (IsLength (view_system timed.now.flat) timed.now.times) }
{
    let times = timed.times.as_slice();
    let mut offsets = Vec::new(alloc);
    let mut spans = Vec::new(alloc);
    for k in 0..times.len() {
        let time = &times[k];
        let points = points_of(alloc, &timed.flat, Node(k))?;
        offsets.push(time.offset)?;
        spans.push(span_over(points.as_slice(), &time.linear))?;
    }
    Ok(least_above(&offsets, &spans, times.len()))
}
