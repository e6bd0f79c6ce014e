//! A number of cycles that no schedule with given first parts is below.

ghost use Rattle.std.specs.Prelude.{◌≡◌, ◌≤◌, ◌<◌, ◌⊎◌, ◌^◌, pos, ◌+ℤ◌, ◌<ℤ◌, unsigned_abs, length, All, IfOk};
ghost use Rattle.std.proofs.Math.IntN.{neg_ℤ};
ghost use Rattle.av_sched.specs.Choices.{AreLinearParts};
ghost use Rattle.av_sched.specs.Witnesses.{IsWitness};
ghost use Rattle.av_best.specs.inner.Spans.{AreSpanned, IsLeastAbove, AreLows, AreSmallSpans};
ghost use Rattle.av_best.specs.inner.Joint.{IsBounded};
ghost use Rattle.av_best.specs.inner.SearchSpaces.{system_of, IsSearchSpace};

use crate::space::SearchSpace;
use crate::span::PartSpan;
use av_base::{Memory, Point};
use av_sched::{Scratch, Witness, raise_to_least, witness_arcs};

// The number of cycles up to the last one of a node.
fn through(offset: i64, high: i64) -> u64
    ensures above { (offset +ℤ high) <ℤ pos result }
    ensures reached { (result ≡ 0) ⊎ ((offset +ℤ high) +ℤ pos 1 ≡ pos result) }
{
    let next = i128::from(offset) + i128::from(high) + 1;
    if next > 0 { next as u64 } else { 0 }
}

/// The least number above the last cycles of the first nodes.
pub(crate) fn least_above(offsets: &[i64], spans: &[PartSpan], many: usize) -> u64
    requires offsets { many ≤ length offsets.now }
    requires spans { many ≤ length spans.now }
    ensures { IsLeastAbove offsets.now spans.now many result }
{
    let mut cycles: u64 = 0;
    for j in 0..many {
        cycles = cycles.max(through(offsets[j], spans[j].high));
    }
    cycles
}

// The number with its sign turned.
fn turned(low: i64) -> i64
    requires { unsigned_abs low ≤ 2 ^ 29 }
    ensures { result ≡ neg_ℤ low }
{
    -low
}

/// Sets the offsets with which the first cycles of the first nodes are 0.
pub(crate) fn set_starts(
    spans: &[PartSpan],
    many: usize,
    offsets: &mut Vec<i64>,
) -> Result<(), Memory>
    requires spans { many ≤ length spans.now }
    requires small { AreSmallSpans many spans.now }
    ensures { IfOk result (λ done. AreLows many spans.now offsets.new.items) }
{
    offsets.clear();
    for j in 0..many {
        offsets.push(turned(spans[j].low))?;
    }
    Ok(())
}

/// No schedule with these parts for the first nodes is shorter; None where there is no schedule with them. It is judged by the
/// places of the pool alone.
pub(crate) fn bound(
    space: &SearchSpace<'_>,
    level: usize,
    linear: &[Point],
    spans: &[PartSpan],
    pool: &[Witness],
    scratch: &mut Scratch,
) -> Result<Option<u64>, Memory>
    requires space { IsSearchSpace space.now }
    requires level { level ≤ length space.now.nodes.now }
    requires linear { AreLinearParts (system_of space.now) space.now.reach.size linear.now }
    requires spans { AreSpanned (system_of space.now) level linear.now spans.now }
    requires pool { All (IsWitness space.now.edges.now space.now.nodes.now) pool.now }
    ensures { IfOk result (IsBounded (system_of space.now) space.now.reach.size level linear.now) }
{
    witness_arcs(space.nodes, level, linear, pool, &mut scratch.arcs)?;
    set_starts(spans, level, &mut scratch.off)?;
    if !raise_to_least(&scratch.arcs, &mut scratch.off, &mut scratch.old)? {
        return Ok(None);
    }
    Ok(Some(least_above(&scratch.off, spans, level)))
}
