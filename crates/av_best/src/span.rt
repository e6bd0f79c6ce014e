//! How far the values of linear parts reach over the points of nodes.

ghost use Rattle.std.specs.Prelude.{ℕ, ◌≡◌, ◌≤◌, ◌<◌, length, map, All, IfOk};
ghost use Rattle.av_affine.specs.Numbers.{AtMost};
ghost use Rattle.av_flat.specs.Trees.{FlatSystem, view_system};
ghost use Rattle.av_flat.specs.Nodes.{nodes};
ghost use Rattle.av_flat.specs.Chained.{IsChained};
ghost use Rattle.av_flat.specs.Proper.{IsProper};
ghost use Rattle.av_sched.specs.Leads.{IsSmallPoint, IsSmallPart};
ghost use Rattle.av_sched.specs.Parts.{AreAllParts};
ghost use Rattle.av_best.specs.Least.{all_nodes};
ghost use Rattle.av_best.specs.inner.Spans.{IsSpanOver, ArePointsOf, AreSpansAt, AreSpansTo};

use av_base::{List, Memory, Point};
use av_depend::generating_points;
use av_elim::box_of;
use av_flat::{Flat, Node, variable_of};
use av_sched::products;
use std::alloc::Global;

// The least and the greatest value of a linear part over the points of a node.
#[derive(Clone, Copy, Debug)]
pub(crate) struct PartSpan {
    pub low: i64,
    pub high: i64,
}

/// The span of a part over listed points.
pub(crate) fn span_over(points: &[Point], part: &Point) -> PartSpan
    requires some { 0 < length points.now }
    requires part { IsSmallPart (length part.now) part.now }
    requires points { All (IsSmallPoint (length part.now)) points.now }
    ensures { IsSpanOver points.now part.now result }
{
    let first = products(part.as_slice(), points[0].as_slice());
    let mut low = first;
    let mut high = first;
    for k in 1..points.len() {
        let value = products(part.as_slice(), points[k].as_slice());
        low = low.min(value);
        high = high.max(value);
    }
    PartSpan { low, high }
}

/// Points of a node by which every linear part can be judged.
pub(crate) fn points_of(alloc: Global, flat: &Flat, node: Node) -> Result<List<Point>, Memory>
    requires chained { IsChained (view_system flat.now) }
    requires within { node.0 < length (nodes (view_system flat.now)) }
    ensures { IfOk result (ArePointsOf (view_system flat.now) node.0) }
{
    let var = variable_of(flat, node);
    match box_of(alloc, &var.domain)? {
        Some(extent) => generating_points(alloc, &var.domain, &extent),
        None => unreachable!(),
    }
}

// The span of each part over the points of a node.
fn spans_at(alloc: Global, points: &[Point], parts: &[Point]) -> Result<List<PartSpan>, Memory>
    requires some { 0 < length points.now }
    requires parts { All (λ a. IsSmallPart (length a) a) parts.now }
    requires fits { All (λ a. All (IsSmallPoint (length a)) points.now) parts.now }
    ensures { IfOk result (λ spans. (s : FlatSystem) (node : ℕ)
        → ArePointsOf s node points.now → AreSpansAt s node parts.now spans) }
{
    let mut spans = List::new(alloc);
    for part in parts {
        spans.push(span_over(points, part))?;
    }
    Ok(spans)
}

/// The span of each linear part that a node can have, node by node.
pub(crate) fn spans_of(
    alloc: Global,
    flat: &Flat,
    nodes: &[u32],
    lists: &[List<Point>],
) -> Result<List<List<PartSpan>>, Memory>
    requires chained { IsChained (view_system flat.now) }
    requires proper { IsProper (view_system flat.now) }
    requires nodes { nodes.now ≡ all_nodes (view_system flat.now) }
    requires lists { (box : ℕ) × (box ≤ 4)
        × AreAllParts (view_system flat.now) box nodes.now lists.now }
    ensures { IfOk result (AreSpansTo (view_system flat.now) (length nodes.now) lists.now) }
{
    let mut spans = List::new(alloc);
    for k in 0..lists.len() {
        let points = points_of(alloc, flat, Node(k))?;
        spans.push(spans_at(alloc, points.as_slice(), lists[k].as_slice())?)?;
    }
    Ok(spans)
}
