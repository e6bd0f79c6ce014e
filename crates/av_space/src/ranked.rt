//! The computations of nodes by their coordinates and then by their cycles.

ghost use Rattle.std.specs.Prelude.{◌≡◌, ◌<◌, ◌≤◌, ◌^◌, length, map, All, Some, slice_get, IfOk};
ghost use Rattle.std.specs.List.Sorted.{IsPermutation, IsNonDecreasingBy};
ghost use Rattle.av_affine.specs.Numbers.{AtMost};
ghost use Rattle.av_flat.specs.Legal.{IsLegal};
ghost use Rattle.av_flat.specs.Trees.{view_system};
ghost use Rattle.av_space.specs.Coordinates.{IsPlacing};
ghost use Rattle.av_flat.specs.Nodes.{nodes};
ghost use Rattle.av_space.specs.inner.Laying.{HasFewCycles, IsTimely, IsRunEnd, AreRanked, rank_from, ranked_at};

use crate::layout::Slot;
use crate::placement::Placement;
use crate::points::node_points;
use crate::timed_nodes::TimedNodes;
use av_base::{Memory, Point};
use av_flat::Node;
use std::alloc::Global;

/// A computation of a node, with the number that orders them by coordinates and then by cycle.
#[derive(Debug, Drop)]
pub(crate) struct Ranked {
    pub(crate) rank: u128,
    pub(crate) slot: Slot,
}

// Coordinates as the digits of a number.
fn rank_of(at: &Point) -> u128
    requires { AtMost 16380 at.now }
    ensures value { result ≡ rank_from 0 at.now }
    ensures fits { result < 2 ^ 64 }
{
    let entries = at.as_slice();
    let mut rank: u128 = 0;
    for k in 0..entries.len() {
        let digit = (entries[k] + 32768) as u128;
        rank = rank * 65536 + digit;
    }
    rank
}

fn with_rank(placement: &Placement, z: &Point) -> Ranked
    requires placing { IsPlacing placement.now }
    requires few { length placement.now.time.linear ≤ 4 }
    requires timely { IsTimely placement.now z.now }
    ensures { result ≡ ranked_at placement.now z.now }
{
    let cycle = placement.cycle(z) as u32;
    let at = placement.coordinates(z);
    Ranked {
        rank: rank_of(&at) * 4096 + u128::from(cycle),
        slot: Slot {
            cycle,
            point: Point::from_slice(z.as_slice()),
        },
    }
}

// The points as computations, by rank.
fn in_order(alloc: Global, placement: &Placement, points: &[Point]) -> Result<Vec<Ranked>, Memory>
    requires placing { IsPlacing placement.now }
    requires few { length placement.now.time.linear ≤ 4 }
    requires timely { All (IsTimely placement.now) points.now }
    ensures { IfOk result (λ v. IsPermutation (map (ranked_at placement.now) points.now) v.items
        × IsNonDecreasingBy (λ r. r.rank) v.items) }
{
    let mut all = Vec::new(alloc);
    for point in points {
        all.push(with_rank(placement, point))?;
    }
    all.sort_unstable_by_key(|r: &Ranked| r.rank);
    Ok(all)
}

/// The computations of a node by rank.
pub(crate) fn node_ranked(
    alloc: Global,
    timed: &TimedNodes<'_>,
    node: Node,
    placement: &Placement,
) -> Result<Vec<Ranked>, Memory>
    requires within { node.0 < length (nodes (view_system timed.now.flat)) }
    requires placing { IsPlacing placement.now }
    requires time { slice_get timed.now.times node.0 ≡ Some placement.now.time }
    requires ends { HasFewCycles timed.now }
    ensures ranked { IfOk result (λ v.
        AreRanked (view_system timed.now.flat) node.0 placement.now v.items) }
    ensures legal { IsLegal timed.now }
{
    let points = node_points(alloc, timed, node)?;
    in_order(alloc, placement, points.as_slice())
}

/// The place behind those with the coordinates of the one at `start`.
pub(crate) fn run_end(ranked: &[Ranked], start: usize) -> usize
    requires { start < length ranked.now }
    ensures { IsRunEnd ranked.now start result }
{
    let place = ranked[start].rank / 4096;
    for k in start + 1..ranked.len() {
        if ranked[k].rank / 4096 != place {
            return k;
        }
    }
    ranked.len()
}
