//! Witnesses: listed points of edges inside the component, by which most choices are seen not to be feasible.

ghost use Rattle.std.specs.Prelude.{ℕ, List as Items, ◌≡◌, ◌<◌, length, All, Contains, IfOk, IfSome, slice_index_or};
ghost use Rattle.av_depend.specs.declared.edge.Edge.{Edge as EdgeSeen};
ghost use Rattle.av_sched.specs.Leads.{IsUsable};
ghost use Rattle.av_sched.specs.Witnesses.{IsWitness, IsUsableWitness, IsArcAt, IsWitnessArc};

use crate::arc::Arc;
use crate::lead::{lead_at, products};
use crate::placing::arcs_of;
use crate::witness::Witness;
use av_base::{Memory, Point};
use av_depend::Edge;
use av_flat::Node;
use std::alloc::Global;

/// Memory that the tests use again and again.
#[derive(Debug, Drop)]
pub struct Scratch {
    pub arcs: Vec<Arc>,
    pub off: Vec<i64>,
    pub old: Vec<i64>,
}

// What one witness asks for.
fn arc_at(component: &[u32], linear: &[Point], witness: &Witness) -> Arc
    requires { IsUsableWitness component.now linear.now witness.now }
    ensures { IsArcAt component.now linear.now witness.now result }
{
    let reader = &linear[component[witness.reader] as usize];
    let read = &linear[component[witness.read] as usize];
    let ahead = products(reader.as_slice(), witness.point.as_slice());
    let behind = products(read.as_slice(), witness.image.as_slice());
    Arc {
        reader: witness.reader,
        read: witness.read,
        weight: 1 - (ahead - behind),
    }
}

/// What the witnesses ask for whose nodes are all among the first.
pub fn witness_arcs(
    component: &[u32],
    level: usize,
    linear: &[Point],
    pool: &[Witness],
    arcs: &mut Vec<Arc>,
) -> Result<(), Memory>
    requires { All (IsUsableWitness component.now linear.now) pool.now }
    ensures { IfOk result (λ done. (edges : Items EdgeSeen)
        → All (IsWitness edges component.now) pool.now
        → All (IsWitnessArc edges component.now level linear.now) arcs.new.items) }
{
    arcs.clear();
    for witness in pool {
        if witness.reader >= level {
            continue;
        }
        if witness.read >= level {
            continue;
        }
        arcs.push(arc_at(component, linear, witness))?;
    }
    Ok(())
}

// The place of a node in the component.
fn place_in(component: &[u32], node: Node) -> Option<usize>
    ensures within { IfSome result (λ k. k < length component.now) }
    ensures is { IfSome result (λ k. slice_index_or component.now k 0 ≡ node.0) }
{
    for k in 0..component.len() {
        if component[k] as usize == node.0 {
            return Some(k);
        }
    }
    None
}

// The number of a point at which the lead is least. Nothing is told of which.
fn least_point(edge: &Edge, linear: &[Point]) -> usize
    requires { IsUsable linear.now edge.now }
    ensures { result < length edge.now.points }
{
    let consumer = edge.consumer as usize;
    let producer = edge.producer as usize;
    let points = edge.points.as_slice();
    let mut number = 0;
    let mut least = lead_at(&linear[consumer], &linear[producer], &edge.map, &points[0]);
    for k in 1..points.len() {
        let next = lead_at(&linear[consumer], &linear[producer], &edge.map, &points[k]);
        if next < least {
            least = next;
            number = k;
        }
    }
    number
}

/// A witness of the edge between these nodes, by their places in a component that both stand in.
pub fn witness_of_edge(edge: &Edge, reader: usize, read: usize, linear: &[Point]) -> Witness
    requires { IsUsable linear.now edge.now }
    ensures { (edges : Items EdgeSeen) (component : Items ℕ) → Contains edges edge.now
        → reader < length component → read < length component
        → slice_index_or component reader 0 ≡ edge.now.consumer
        → slice_index_or component read 0 ≡ edge.now.producer
        → IsWitness edges component result }
{
    let k = least_point(edge, linear);
    let point = &edge.points.as_slice()[k];
    Witness {
        reader,
        read,
        point: Point::from_slice(point.as_slice()),
        image: edge.map.apply(point),
    }
}

// Whether another arc between the same nodes asks for more, or an earlier one for as much. Nothing is told of it.
fn is_outdone(arcs: &[Arc], k: usize) -> bool
    requires { k < length arcs.now }
{
    let own = arcs[k];
    for j in 0..arcs.len() {
        let other = arcs[j];
        if other.reader != own.reader || other.read != own.read {
            continue;
        }
        if other.weight > own.weight || (other.weight == own.weight && j < k) {
            return true;
        }
    }
    false
}

/// Whether the witness is among them. Nothing is told of it.
pub fn is_listed(pool: &[Witness], witness: &Witness) -> bool {
    for other in pool {
        if other.reader == witness.reader
            && other.read == witness.read
            && other.point == witness.point
            && other.image == witness.image
        {
            return true;
        }
    }
    false
}

/// Adds, where the choice is not feasible, witnesses of it: for two nodes one that asks for most. Nothing is told of which.
pub(crate) fn learn(
    alloc: Global,
    edges: &[Edge],
    component: &[u32],
    linear: &[Point],
    pool: &mut Vec<Witness>,
) -> Result<(), Memory>
    requires usable { All (IsUsable linear.now) edges.now }
    requires pool { All (IsWitness edges.now component.now) pool.old.items }
    ensures { All (IsWitness edges.now component.now) pool.new.items }
{
    let arcs = arcs_of(alloc, edges, linear)?;
    for k in 0..edges.len() {
        if is_outdone(&arcs, k) {
            continue;
        }
        let edge = &edges[k];
        let Some(reader) = place_in(component, Node(edge.consumer as usize)) else {
            continue;
        };
        let Some(read) = place_in(component, Node(edge.producer as usize)) else {
            continue;
        };
        let witness = witness_of_edge(edge, reader, read, linear);
        if !is_listed(pool, &witness) {
            pool.push(witness)?;
        }
    }
    Ok(())
}
