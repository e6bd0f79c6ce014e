//! The number of cycles.

ghost use Rattle.std.specs.Prelude.{ℕ, ◌≤◌, ◌<ℤ◌, ◌≤ℤ◌, ◌^◌, pos, All, IfOk};
ghost use Rattle.av_affine.specs.Numbers.{AtMost};
ghost use Rattle.av_flat.specs.Schedules.{cycle};
ghost use Rattle.av_space.specs.SpaceFaults.{IsCycles};

use crate::placement::cycle_of;
use crate::points::node_points;
use crate::timed_nodes::TimedNodes;
use av_base::{Memory, Point};
use av_flat::{Node, Time};
use std::alloc::Global;

// The greater of a count and the number after the greatest cycle of the points.
fn raised(time: &Time, points: &[Point], count: u128) -> u128
    requires small { All (AtMost 4095) points.now }
    requires starts { All (λ z. pos 0 ≤ℤ cycle time.now z) points.now }
    requires fits { count ≤ 2 ^ 107 }
    ensures from { count ≤ result }
    ensures above { All (λ z. cycle time.now z <ℤ pos result) points.now }
    ensures least { (m : ℕ) → count ≤ m
        → All (λ z. cycle time.now z <ℤ pos m) points.now → result ≤ m }
    ensures fits { result ≤ 2 ^ 107 }
{
    let mut most = count;
    for point in points {
        let next = cycle_of(time, point).unsigned_abs() + 1;
        most = most.max(next);
    }
    most
}

/// The greatest cycle of a computation, plus 1, and 0 where there is no computation.
pub(crate) fn cycle_count(alloc: Global, timed: &TimedNodes<'_>) -> Result<u128, Memory>
    ensures { IfOk result (IsCycles timed.now) }
{
    let mut count: u128 = 0;
    for node in 0..timed.len() {
        let points = node_points(alloc, timed, Node(node))?;
        let time = timed.time(Node(node));
        count = raised(time, points.as_slice(), count);
    }
    Ok(count)
}
