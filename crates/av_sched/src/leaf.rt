//! The edges inside a component as differences of offsets, by all their listed points.

ghost use Rattle.std.specs.Prelude.{◌≡◌, All, Contains, IfOk, IsTrue, ◌↔◌};
ghost use Rattle.av_sched.specs.inner.Rounds.{zeros};
ghost use Rattle.av_sched.specs.Leads.{IsUsable};
ghost use Rattle.av_sched.specs.inner.Walk.{AreArcsInside};

use crate::arc::Arc;
use crate::lead::arc_of;
use av_base::{List, Memory, Point};
use av_depend::Edge;
use av_flat::Node;
use std::alloc::Global;

// Whether the component has the node.
fn is_in(component: &[u32], node: Node) -> bool
    ensures { IsTrue result ↔ Contains component.now node.0 }
{
    for other in component {
        if *other as usize == node.0 {
            return true;
        }
    }
    false
}

/// The edges inside the component as differences of offsets.
pub(crate) fn arcs_inside(
    alloc: Global,
    edges: &[Edge],
    component: &[u32],
    linear: &[Point],
) -> Result<Vec<Arc>, Memory>
    requires { All (IsUsable linear.now) edges.now }
    ensures { IfOk result (λ arcs. AreArcsInside linear.now edges.now component.now arcs.items) }
{
    let mut arcs = Vec::new(alloc);
    for edge in edges {
        if !is_in(component, Node(edge.consumer as usize)) {
            continue;
        }
        if !is_in(component, Node(edge.producer as usize)) {
            continue;
        }
        arcs.push(arc_of(edge, linear))?;
    }
    Ok(arcs)
}

/// So many zeros.
pub(crate) fn no_offsets(alloc: Global, many: usize) -> Result<List<i64>, Memory>
    ensures { IfOk result (λ low. low ≡ zeros many) }
{
    let mut low = List::new(alloc);
    for _k in 0..many {
        low.push(0)?;
    }
    Ok(low)
}
