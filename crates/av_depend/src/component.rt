//! Components of nodes that reach each other.

ghost use Rattle.std.specs.Prelude.{◌≡◌, ◌<◌, ◌↔◌, ◌^◌, false, length, All, IfOk, IsTrue, slice_index_or};
ghost use Rattle.av_depend.specs.Components.{first_node, IsJoined, AreComponents};
ghost use Rattle.av_depend.specs.inner.Reaching.{leads, IsSquare, IsComponentIn};

use crate::edge::Edge;
use crate::reach::each_reached;
use av_base::{List, Memory};
use av_flat::Node;
use std::alloc::Global;

// Whether each of the two nodes is reached from the other.
fn are_together(rows: &[List<bool>], one: Node, other: Node) -> bool
    requires square { IsSquare (length rows.now) rows.now }
    requires one { one.0 < length rows.now }
    requires other { other.0 < length rows.now }
    ensures { IsTrue result
        ↔ (IsTrue (leads rows.now one.0 other.0) × IsTrue (leads rows.now other.0 one.0)) }
{
    let there = rows[one.0].as_slice()[other.0];
    let back = rows[other.0].as_slice()[one.0];
    there && back
}

// The nodes that are reached from this one and from which it is reached.
fn component_of(
    alloc: Global,
    rows: &[List<bool>],
    nodes: u32,
    node: Node,
) -> Result<List<u32>, Memory>
    requires size { length rows.now ≡ nodes }
    requires square { IsSquare nodes rows.now }
    requires node { node.0 < nodes }
    ensures { IfOk result (IsComponentIn nodes rows.now node.0) }
{
    let mut list = List::new(alloc);
    for other in 0..nodes {
        if !are_together(rows, node, Node(other as usize)) {
            continue;
        }
        list.push(other)?;
    }
    Ok(list)
}

// The first node.
fn first_of(component: &[u32]) -> u32
    requires { 0 < length component.now }
    ensures { result ≡ first_node component.now }
{
    component[0]
}

/// The components of the nodes under edges, ordered by their first nodes; the nodes of each ascend. A node that no other one
/// reaches and is reached from is a component of its own. Nodes without an edge are among them.
pub fn components(alloc: Global, edges: &[Edge], nodes: u32) -> Result<List<List<u32>>, Memory>
    requires consumers { All (λ e. e.consumer < nodes) edges.now }
    requires producers { All (λ e. e.producer < nodes) edges.now }
    ensures { IfOk result (AreComponents nodes (IsJoined edges.now)) }
{
    let rows = each_reached(alloc, edges, nodes)?;
    let mut list = List::new(alloc);
    for node in 0..nodes {
        let component = component_of(alloc, rows.as_slice(), nodes, Node(node as usize))?;
        if first_of(component.as_slice()) != node {
            continue;
        }
        list.push(component)?;
    }
    Ok(list)
}
