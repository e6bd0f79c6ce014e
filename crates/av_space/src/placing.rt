//! The placements of the nodes of a legal timed system.

ghost use Rattle.std.specs.Prelude.{◌≡◌, ◌≢◌, ◌<◌, pos, length, Any, IfOk};
ghost use Rattle.av_affine.specs.Numbers.{AtMost};
ghost use Rattle.av_space.specs.Coordinates.{AreSpaceRows, IsPlacing, ArePlacings};

use crate::placement::Placement;
use crate::timed_nodes::TimedNodes;
use av_affine::{complete, is_inverse};
use av_base::{List, Memory, Point};
use av_flat::Time;
use std::alloc::Global;

// The rows below the first one of the matrix that completes the linear part's primitive vector.
fn space_rows(alloc: Global, linear: &Point) -> Result<List<Point>, Memory>
    requires not_zero { Any (λ x. x ≢ pos 0) linear.now }
    requires small { AtMost 4 linear.now }
    ensures { IfOk result (AreSpaceRows linear.now) }
{
    let completed = complete(linear);
    if !is_inverse(&completed.inverse, &completed.m) {
        unreachable!();
    }
    let matrix = completed.m;
    let size = matrix.size as usize;
    let mut rows = List::new(alloc);
    for k in 1..size {
        rows.push(Point::from_slice(&matrix.cells[k][..size]))?;
    }
    Ok(rows)
}

// The placement of a node with this time; a node without indices has no row.
fn placement_of(alloc: Global, time: &Time) -> Result<Placement, Memory>
    requires not_zero { 0 < length time.now.linear → Any (λ x. x ≢ pos 0) time.now.linear }
    requires small { AtMost 4 time.now.linear }
    ensures time { IfOk result (λ p. p.time ≡ time.now) }
    ensures rule { IfOk result IsPlacing }
{
    let own = Time {
        linear: Point::from_slice(time.linear.as_slice()),
        offset: time.offset,
    };
    if time.linear.as_slice().is_empty() {
        return Ok(Placement {
            time: own,
            rows: List::new(alloc),
        });
    }
    let rows = space_rows(alloc, &time.linear)?;
    Ok(Placement { time: own, rows })
}

/// The placements of all nodes, in order.
pub(crate) fn placements(alloc: Global, timed: &TimedNodes<'_>) -> Result<List<Placement>, Memory>
    ensures { IfOk result (ArePlacings timed.now.times) }
{
    let mut list = List::new(alloc);
    for time in timed.times() {
        list.push(placement_of(alloc, time)?)?;
    }
    Ok(list)
}
