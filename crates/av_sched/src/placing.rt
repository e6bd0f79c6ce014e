//! Least offsets to given linear parts.

ghost use Rattle.std.specs.Prelude.{◌≡◌, ◌≤◌, ℤ, List as Items, length, All, IfOk, IfSome, IfNone};
ghost use Rattle.std.specs.List.{AllZip};
ghost use Rattle.av_flat.specs.Trees.{view_system};
ghost use Rattle.av_flat.specs.Chained.{IsChained};
ghost use Rattle.av_flat.specs.Proper.{IsProper};
ghost use Rattle.std.proofs.Math.IntN.{neg_ℤ};
ghost use Rattle.av_affine.specs.Numbers.{AtMost};
ghost use Rattle.av_poly.specs.Points.{Has};
ghost use Rattle.av_depend.specs.Edges.{AreEdgesOf};
ghost use Rattle.av_elim.specs.Extents.{IsOrdinary};
ghost use Rattle.av_sched.specs.inner.Starts.{IsSpanned};
ghost use Rattle.av_sched.specs.Arcs.{AreSmall};
ghost use Rattle.av_sched.specs.Leads.{IsUsable, IsArcOf, AreStarts};
ghost use Rattle.av_sched.specs.Offsets.{AreVectors, AreOffsets, AreLeastOffsets};

use crate::arc::{Arc, least};
use crate::lead::arc_of;
use crate::start::least_value;
use av_base::{List, Memory, Point};
use av_depend::Edge;
use av_flat::{Flat, Node, Nodes, Var};
use std::alloc::Global;

/// The edges as differences of offsets.
pub fn arcs_of(alloc: Global, edges: &[Edge], linear: &[Point]) -> Result<Vec<Arc>, Memory>
    requires { All (IsUsable linear.now) edges.now }
    ensures { IfOk result (λ arcs. AllZip (IsArcOf linear.now) edges.now arcs.items) }
{
    let mut arcs = Vec::new(alloc);
    for edge in edges {
        arcs.push(arc_of(edge, linear))?;
    }
    Ok(arcs)
}

// The offset with which the first cycle of a node is 0.
fn start_of(alloc: Global, var: &Var, linear: &Point) -> Result<i64, Memory>
    requires ordinary { IsOrdinary var.now.domain.dim var.now.domain }
    requires dim { var.now.domain.dim ≤ 4 }
    requires size { length linear.now ≡ var.now.domain.dim }
    requires linear { AtMost 4 linear.now }
    requires points { (z : Items ℤ) → Has var.now.domain z → AtMost 4095 z }
    requires some { ((z : Items ℤ) → Has var.now.domain z → ⊥) → ⊥ }
    ensures { IfOk result (λ y. IsSpanned var.now.domain linear.now (neg_ℤ y) (neg_ℤ y)) }
{
    match least_value(alloc, &var.domain, linear)? {
        Some(value) => Ok(-value),
        None => unreachable!(),
    }
}

// For each node the offset with which its first cycle is 0.
fn starts_of(alloc: Global, flat: &Flat, linear: &[Point]) -> Result<List<i64>, Memory>
    requires chained { IsChained (view_system flat.now) }
    requires linear { AreVectors (view_system flat.now) 4 linear.now }
    ensures starts { IfOk result (λ low. AreStarts (view_system flat.now) linear.now low) }
    ensures small { IfOk result (λ low. AreSmall 1073741824 low) }
{
    let nodes = Nodes::new(alloc, flat)?;
    let mut low = List::new(alloc);
    for node in 0..nodes.len() {
        let var = nodes.variable(Node(node));
        let start = start_of(alloc, var, &linear[node])?;
        low.push(start)?;
    }
    Ok(low)
}

fn list_of(alloc: Global, numbers: &[i64]) -> Result<List<i64>, Memory>
    ensures { IfOk result (λ list. list ≡ numbers.now) }
{
    let mut list = List::new(alloc);
    for number in numbers {
        list.push(*number)?;
    }
    Ok(list)
}

/// The least offsets with which the nodes have these linear parts, no cycle is below 0 and each reader is at least a cycle
/// later than what it reads; None where there are none (textbook: rounds that raise offsets until nothing changes; a change
/// after as many rounds as there are nodes shows a circle of reads that no offsets satisfy).
pub fn offsets(
    alloc: Global,
    flat: &Flat,
    edges: &[Edge],
    linear: &[Point],
) -> Result<Option<List<i64>>, Memory>
    requires chained { IsChained (view_system flat.now) }
    requires proper { IsProper (view_system flat.now) }
    requires edges { AreEdgesOf (view_system flat.now) edges.now }
    requires linear { AreVectors (view_system flat.now) 4 linear.now }
    ensures least { IfOk result (λ o. IfSome o
        (AreLeastOffsets (view_system flat.now) linear.now)) }
    ensures none { IfOk result (λ o. IfNone o
        ((x : Items ℤ) → AreOffsets (view_system flat.now) linear.now x → ⊥)) }
{
    let low = starts_of(alloc, flat, linear)?;
    let arcs = arcs_of(alloc, edges, linear)?;
    match least(alloc, &arcs, &low)? {
        Some(found) => Ok(Some(list_of(alloc, &found)?)),
        None => Ok(None),
    }
}
