//! Which nodes are reached from which along edges.

ghost use Rattle.std.specs.Prelude.{◌≡◌, ◌<◌, ◌≤◌, ◌↔◌, false, length, All, IfOk, IfSome, IfNone, IsTrue, slice_index_or};
ghost use Rattle.std.specs.Prelude.{replicate};
ghost use Rattle.av_depend.specs.Components.{IsJoined};
ghost use Rattle.av_depend.specs.inner.Reaching.{IsOpen, IsClosed, IsReached, AreReached};

use crate::edge::Edge;
use av_base::{List, Memory};
use av_flat::Node;
use std::alloc::Global;

// Whether the edge leads from a marked node to one without a mark.
fn leads_out(edge: &Edge, marks: &[bool]) -> bool
    requires consumer { edge.now.consumer < length marks.now }
    requires producer { edge.now.producer < length marks.now }
    ensures yes { IsTrue result → IsTrue (slice_index_or marks.now edge.now.consumer false)
        × (slice_index_or marks.now edge.now.producer false ≡ false) }
    ensures no { result ≡ false → IsTrue (slice_index_or marks.now edge.now.consumer false)
        → IsTrue (slice_index_or marks.now edge.now.producer false) }
{
    if marks[edge.producer as usize] {
        return false;
    }
    marks[edge.consumer as usize]
}

// A node without a mark to which an edge leads from a marked one.
fn open_node(edges: &[Edge], marks: &[bool]) -> Option<Node>
    requires consumers { All (λ e. e.consumer < length marks.now) edges.now }
    requires producers { All (λ e. e.producer < length marks.now) edges.now }
    ensures found { IfSome result (λ node. IsOpen edges.now marks.now node.0) }
    ensures below { IfSome result (λ node. node.0 < length marks.now) }
    ensures closed { IfNone result (IsClosed edges.now marks.now) }
{
    for edge in edges {
        if leads_out(edge, marks) {
            return Some(Node(edge.producer as usize));
        }
    }
    None
}

// No marks, for this number of nodes.
fn unmarked(alloc: Global, nodes: u32) -> Result<List<bool>, Memory>
    ensures { IfOk result (λ marks. marks ≡ replicate nodes false) }
{
    let mut marks = List::new(alloc);
    for _node in 0..nodes {
        marks.push(false)?;
    }
    Ok(marks)
}

// Of each node whether it is reached from this one.
fn reached(alloc: Global, edges: &[Edge], nodes: u32, from: Node) -> Result<List<bool>, Memory>
    requires consumers { All (λ e. e.consumer < nodes) edges.now }
    requires producers { All (λ e. e.producer < nodes) edges.now }
    requires from { from.0 < nodes }
    ensures { IfOk result (IsReached nodes (IsJoined edges.now) from.0) }
{
    let mut marks = unmarked(alloc, nodes)?;
    marks.set(from.0, true);
    while let Some(node) = open_node(edges, marks.as_slice()) {
        marks.set(node.0, true);
    }
    Ok(marks)
}

/// The nodes that are reached from each node.
pub(crate) fn each_reached(
    alloc: Global,
    edges: &[Edge],
    nodes: u32,
) -> Result<List<List<bool>>, Memory>
    requires consumers { All (λ e. e.consumer < nodes) edges.now }
    requires producers { All (λ e. e.producer < nodes) edges.now }
    ensures { IfOk result (AreReached nodes (IsJoined edges.now)) }
{
    let mut rows = List::new(alloc);
    for from in 0..nodes {
        rows.push(reached(alloc, edges, nodes, Node(from as usize))?)?;
    }
    Ok(rows)
}
