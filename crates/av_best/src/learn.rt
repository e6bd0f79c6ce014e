//! What a choice teaches: of the edges between two nodes, the witness that asks for most.

ghost use Rattle.std.specs.Prelude.{ℕ, ◌≡◌, ◌<◌, length, All, Contains, IfOk, IfSome, slice_index_or};
ghost use Rattle.std.specs.List.{AllZip};
ghost use Rattle.av_sched.specs.Leads.{IsUsable, IsArcOf};
ghost use Rattle.av_sched.specs.Witnesses.{IsWitness};

use av_base::{Memory, Point};
use av_depend::Edge;
use av_sched::{Arc, Witness, is_listed, witness_of_edge};
use std::alloc::Global;

// Where among the chosen arcs one between the same nodes is.
fn rival(arcs: &[Arc], chosen: &[usize], k: usize) -> Option<usize>
    requires arc { k < length arcs.now }
    requires chosen { All (λ j. j < length arcs.now) chosen.now }
    ensures { IfSome result (λ i. i < length chosen.now) }
{
    for i in 0..chosen.len() {
        let other = arcs[chosen[i]];
        if other.reader == arcs[k].reader && other.read == arcs[k].read {
            return Some(i);
        }
    }
    None
}

// Of the arcs between two nodes the one that asks for most. Nothing is told of which these are.
fn pressing(alloc: Global, arcs: &[Arc]) -> Result<Vec<usize>, Memory>
    ensures { IfOk result (λ chosen. All (λ j. j < length arcs.now) chosen.items) }
{
    let mut chosen: Vec<usize> = Vec::new(alloc);
    for k in 0..arcs.len() {
        let Some(i) = rival(arcs, &chosen, k) else {
            chosen.push(k)?;
            continue;
        };
        if arcs[k].weight > arcs[chosen[i]].weight {
            chosen[i] = k;
        }
    }
    Ok(chosen)
}

/// Adds the witnesses at which these linear parts are pressed most.
pub(crate) fn learn(
    alloc: Global,
    edges: &[Edge],
    nodes: &[u32],
    linear: &[Point],
    arcs: &[Arc],
    pool: &mut Vec<Witness>,
) -> Result<(), Memory>
    requires nodes { (k : ℕ) → k < length nodes.now → slice_index_or nodes.now k 0 ≡ k }
    requires usable { All (IsUsable linear.now) edges.now }
    requires many { length linear.now ≡ length nodes.now }
    requires arcs { AllZip (IsArcOf linear.now) edges.now arcs.now }
    requires pool { All (IsWitness edges.now nodes.now) pool.old.items }
    ensures { IfOk result (λ done. All (IsWitness edges.now nodes.now) pool.new.items) }
{
    let chosen = pressing(alloc, arcs)?;
    for k in &chosen {
        let edge = &edges[*k];
        let reader = edge.consumer as usize;
        let read = edge.producer as usize;
        let witness = witness_of_edge(edge, reader, read, linear);
        if !is_listed(pool, &witness) {
            pool.push(witness)?;
        }
    }
    Ok(())
}
