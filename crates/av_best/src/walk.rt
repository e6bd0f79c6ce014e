//! The walk through the choices of all nodes together: depth first, one node after another. What is left out is known to have no
//! schedule, or none that comes before the best one so far.

ghost use Rattle.std.specs.Prelude.{◌≡◌, ◌≤◌, ◌<◌, ◌↔◌, length, take, All, IfOk, IsTrue};
ghost use Rattle.av_sched.specs.Choices.{AreLinearParts};
ghost use Rattle.av_sched.specs.Order.{cost, IsLess};
ghost use Rattle.av_sched.specs.Witnesses.{IsWitness};
ghost use Rattle.av_sched.specs.Prices.{IsSpent};
ghost use Rattle.av_best.specs.inner.Spans.{AreSpanned};
ghost use Rattle.av_best.specs.inner.Joint.{IsChosen, IsSound, IsAhead, IsBehind, IsBound, HasWalked};
ghost use Rattle.av_best.specs.inner.SearchSpaces.{system_of, IsSearchSpace};

use crate::best::Best;
use crate::bound::{bound, least_above, set_starts};
use crate::learn::learn;
use crate::space::{Estimate, Pool, SearchSpace};
use crate::span::PartSpan;
use av_base::{Memory, Point};
use av_depend::copy_point;
use av_sched::{
    Price, arcs_of, at_least, copy_points, is_above, is_earlier, raise_to_least, with_more,
};
use std::alloc::Global;

// Whether the linear parts come before those of the best choice.
fn is_cheaper(
    alloc: Global,
    space: &SearchSpace<'_>,
    linear: &[Point],
    spent: Price,
    best: &Best,
) -> Result<bool, Memory>
    requires space { IsSearchSpace space.now }
    requires linear { AreLinearParts (system_of space.now) space.now.reach.size linear.now }
    requires spent { IsSpent (system_of space.now) linear.now space.now.nodes.now spent }
    requires best { IsChosen (system_of space.now) space.now.reach.size best.now }
    ensures { IfOk result (λ b. IsTrue b ↔ IsLess (cost (system_of space.now) space.now.nodes.now
        linear.now) (cost (system_of space.now) space.now.nodes.now best.now.parts.items)) }
{
    if spent.left != best.price.left {
        return Ok(spent.left < best.price.left);
    }
    if spent.size != best.price.size {
        return Ok(spent.size < best.price.size);
    }
    is_earlier(alloc, space.nodes, linear, &best.parts)
}

// Whether a choice of this length comes before the best one so far.
fn is_better(
    alloc: Global,
    space: &SearchSpace<'_>,
    linear: &[Point],
    spent: Price,
    cycles: u64,
    best: &Option<Best>,
) -> Result<bool, Memory>
    requires space { IsSearchSpace space.now }
    requires linear { AreLinearParts (system_of space.now) space.now.reach.size linear.now }
    requires spent { IsSpent (system_of space.now) linear.now space.now.nodes.now spent }
    requires best { IsSound (system_of space.now) space.now.reach.size best.now }
    ensures { IfOk result (λ b. IsTrue b
        ↔ IsAhead (system_of space.now) cycles linear.now best.now) }
{
    match best {
        None => Ok(true),
        Some(found) => {
            if cycles != found.cycles {
                return Ok(cycles < found.cycles);
            }
            is_cheaper(alloc, space, linear, spent, found)
        }
    }
}

// Whether choices that are no shorter than the estimate, and cost no less than what was spent and the rest together, come behind
// the best one so far.
fn is_behind(estimate: Estimate, rest: Price, best: &Option<Best>) -> bool
    ensures { IsTrue result → IsBehind estimate rest best.now }
{
    let Some(found) = best else {
        return false;
    };
    if estimate.cycles != found.cycles {
        return estimate.cycles > found.cycles;
    }
    is_above(at_least(estimate.spent, rest), found.price)
}

// The best choice after one that has all parts.
fn leaf(
    alloc: Global,
    space: &SearchSpace<'_>,
    estimate: Estimate,
    linear: &[Point],
    spans: &[PartSpan],
    pool: &mut Pool,
    best: Option<Best>,
) -> Result<Option<Best>, Memory>
    requires space { IsSearchSpace space.now }
    requires linear { AreLinearParts (system_of space.now) space.now.reach.size linear.now }
    requires spans { AreSpanned (system_of space.now)
        (length space.now.nodes.now) linear.now spans.now }
    requires spent { IsSpent (system_of space.now) linear.now space.now.nodes.now estimate.spent }
    requires bound { IsBound (system_of space.now) space.now.reach.size
        (length space.now.nodes.now) linear.now estimate.cycles }
    requires pool { All (IsWitness space.now.edges.now space.now.nodes.now)
        pool.old.witnesses.items }
    requires best { IsSound (system_of space.now) space.now.reach.size best }
    ensures walked { IfOk result (HasWalked
        (system_of space.now) space.now.reach.size (length space.now.nodes.now) linear.now best) }
    ensures pool { IfOk result (λ new.
        All (IsWitness space.now.edges.now space.now.nodes.now) pool.new.witnesses.items) }
{
    let Estimate { spent, cycles } = estimate;
    if !is_better(alloc, space, linear, spent, cycles, &best)? {
        return Ok(best);
    }
    let arcs = arcs_of(alloc, space.edges, linear)?;
    let mut offsets = Vec::new(alloc);
    set_starts(spans, space.nodes.len(), &mut offsets)?;
    if !raise_to_least(&arcs, &mut offsets, &mut pool.scratch.old)? {
        learn(
            alloc,
            space.edges,
            space.nodes,
            linear,
            &arcs,
            &mut pool.witnesses,
        )?;
        return Ok(best);
    }
    let cycles = least_above(&offsets, spans, space.nodes.len());
    if !is_better(alloc, space, linear, spent, cycles, &best)? {
        learn(
            alloc,
            space.edges,
            space.nodes,
            linear,
            &arcs,
            &mut pool.witnesses,
        )?;
        return Ok(best);
    }
    Ok(Some(Best {
        parts: copy_points(alloc, linear)?,
        offsets,
        price: spent,
        cycles,
    }))
}

/// The best choice after all that have these parts for the first nodes.
#[cycle(walk)]
pub(crate) fn walk(
    alloc: Global,
    space: &SearchSpace<'_>,
    level: usize,
    estimate: Estimate,
    linear: &mut [Point],
    spans: &mut [PartSpan],
    pool: &mut Pool,
    best: Option<Best>,
) -> Result<Option<Best>, Memory>
    requires space { IsSearchSpace space.now }
    requires level { level ≤ length space.now.nodes.now }
    requires linear { AreLinearParts (system_of space.now) space.now.reach.size linear.old }
    requires spanned { AreSpanned (system_of space.now) level linear.old spans.old }
    requires wide { length spans.old ≡ length space.now.nodes.now }
    requires spent { IsSpent (system_of space.now) linear.old
        (take level space.now.nodes.now) estimate.spent }
    requires bound { IsBound (system_of space.now)
        space.now.reach.size level linear.old estimate.cycles }
    requires pool { All (IsWitness space.now.edges.now space.now.nodes.now)
        pool.old.witnesses.items }
    requires best { IsSound (system_of space.now) space.now.reach.size best }
    ensures walked { IfOk result
        (HasWalked (system_of space.now) space.now.reach.size level linear.old best) }
    ensures linear { IfOk result (λ new. linear.new ≡ linear.old) }
    ensures spanned { IfOk result (λ new.
        AreSpanned (system_of space.now) level linear.old spans.new) }
    ensures pool { IfOk result (λ new.
        All (IsWitness space.now.edges.now space.now.nodes.now) pool.new.witnesses.items) }
{
    if level == space.nodes.len() {
        return leaf(alloc, space, estimate, linear, spans, pool, best);
    }
    let before = copy_point(&linear[level]);
    let parts = space.plan.lists.as_slice()[level].as_slice();
    let prices = space.plan.prices.as_slice()[level].as_slice();
    let table = space.table;
    let reaches = table[level].as_slice();
    let mut best = best;
    for k in 0..parts.len() {
        linear[level] = copy_point(&parts[k]);
        spans[level] = reaches[k];
        let own = with_more(estimate.spent, prices[k]);
        best = walk_unless_barred(alloc, space, level + 1, own, linear, spans, pool, best)?;
    }
    linear[level] = before;
    Ok(best)
}

// The same, where those choices may be barred.
#[cycle(walk)]
fn walk_unless_barred(
    alloc: Global,
    space: &SearchSpace<'_>,
    level: usize,
    spent: Price,
    linear: &mut [Point],
    spans: &mut [PartSpan],
    pool: &mut Pool,
    best: Option<Best>,
) -> Result<Option<Best>, Memory>
    requires space { IsSearchSpace space.now }
    requires level { level ≤ length space.now.nodes.now }
    requires linear { AreLinearParts (system_of space.now) space.now.reach.size linear.old }
    requires spanned { AreSpanned (system_of space.now) level linear.old spans.old }
    requires wide { length spans.old ≡ length space.now.nodes.now }
    requires spent { IsSpent (system_of space.now) linear.old
        (take level space.now.nodes.now) spent }
    requires pool { All (IsWitness space.now.edges.now space.now.nodes.now)
        pool.old.witnesses.items }
    requires best { IsSound (system_of space.now) space.now.reach.size best }
    ensures walked { IfOk result
        (HasWalked (system_of space.now) space.now.reach.size level linear.old best) }
    ensures linear { IfOk result (λ new. linear.new ≡ linear.old) }
    ensures spanned { IfOk result (λ new.
        AreSpanned (system_of space.now) level linear.old spans.new) }
    ensures pool { IfOk result (λ new.
        All (IsWitness space.now.edges.now space.now.nodes.now) pool.new.witnesses.items) }
{
    let Some(cycles) = bound(
        space,
        level,
        linear,
        spans,
        &pool.witnesses,
        &mut pool.scratch,
    )?
    else {
        return Ok(best);
    };
    let estimate = Estimate { spent, cycles };
    let rest = space.plan.floors[space.nodes.len() - level];
    if is_behind(estimate, rest, &best) {
        return Ok(best);
    }
    walk(alloc, space, level, estimate, linear, spans, pool, best)
}
