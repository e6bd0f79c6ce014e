//! All points of domains.

ghost use Rattle.std.specs.Prelude.{◌≤◌, ◌<◌, length, All, IfOk};
ghost use Rattle.av_affine.specs.Forms.{IsWithinLimits};
ghost use Rattle.av_flat.specs.Legal.{IsLegal};
ghost use Rattle.av_flat.specs.Sets.{IsBounded};
ghost use Rattle.av_flat.specs.Trees.{view_system};
ghost use Rattle.av_depend.specs.AllPoints.{AreAllPoints};
ghost use Rattle.av_flat.specs.Nodes.{nodes};
ghost use Rattle.av_space.specs.inner.Laying.{AreNodePoints};

use crate::timed_nodes::TimedNodes;
use av_base::{List, Memory, Point};
use av_depend::all_points;
use av_elim::box_of;
use av_flat::Node;
use av_poly::Poly;
use std::alloc::Global;

/// All points of a domain, ascending.
pub(crate) fn points_of(alloc: Global, domain: &Poly) -> Result<List<Point>, Memory>
    requires indices { domain.now.dim ≤ 4 }
    requires rows { All IsWithinLimits domain.now.rows }
    requires bounded { IsBounded domain.now }
    ensures { IfOk result (AreAllPoints domain.now) }
{
    match box_of(alloc, domain)? {
        Some(extent) => all_points(alloc, domain, &extent),
        None => Ok(List::new(alloc)),
    }
}

/// The points of a node, ascending.
pub(crate) fn node_points(
    alloc: Global,
    timed: &TimedNodes<'_>,
    node: Node,
) -> Result<List<Point>, Memory>
    requires { node.0 < length (nodes (view_system timed.now.flat)) }
    ensures points { IfOk result (AreNodePoints (view_system timed.now.flat) node.0) }
    ensures legal { IsLegal timed.now }
{
    points_of(alloc, &timed.variable(node).domain)
}
