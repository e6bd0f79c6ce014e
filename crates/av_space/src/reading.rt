//! What a tap site reads at a point.

ghost use Rattle.std.specs.Prelude.{ℕ, ◌≡◌, ◌≤◌, ◌^◌, ◌-ℤ◌, pos, unsigned_abs, slice_index_or, ◌<◌, not, length, All, IsTrue, MatchOption};
ghost use Rattle.av_affine.specs.Numbers.{AtMost};
ghost use Rattle.av_affine.specs.Forms.{IsWithinLimits};
ghost use Rattle.av_tree.specs.Points.{Point as PointSeen};
ghost use Rattle.av_flat.specs.Trees.{view, view_piece, view_system};
ghost use Rattle.av_flat.specs.Points.{has};
ghost use Rattle.av_flat.specs.Values.{picked};
ghost use Rattle.av_flat.specs.Helped.{before};
ghost use Rattle.av_flat.specs.Nodes.{number_at};
ghost use Rattle.av_space.specs.Taps.{IsReadBy, IsTapRead};
ghost use Rattle.av_space.specs.inner.Sites.{tap_of, way_of};
ghost use Rattle.av_space.specs.inner.Readings.{IsReadable, IsFineTap, IsSmallIn};

use crate::tap::{TapSite, Way};
use crate::timed_nodes::TimedNodes;
use arrayvec::ArrayVec;
use av_base::Point;
use av_flat::{Choice, Node, Piece, Tree, VariablePlace};
use av_poly::Poly;

/// A point of a variable, by its place, that a reference or a pick reads.
#[derive(Drop)]
struct PlaceRead {
    place: VariablePlace,
    point: Point,
}

/// A computation that is read.
#[derive(Debug, Drop)]
pub(crate) struct Read {
    pub(crate) node: Node,
    pub(crate) point: Point,
}

/// Whether a point is in a set.
pub(crate) fn is_in(set: &Poly, point: &Point) -> bool
    requires fits { length point.now ≡ set.now.dim }
    requires small { AtMost (2 ^ 25) point.now }
    ensures { result ≡ has set.now point.now }
{
    set.contains(point)
}

// An entry less the one at its place in a direction, where there is one.
fn step_back(entry: i64, steps: &[i64], place: usize) -> i64
    requires entry { unsigned_abs entry ≤ 4095 }
    requires steps { AtMost 4095 steps.now }
    ensures value { result ≡ entry -ℤ slice_index_or steps.now place (pos 0) }
    ensures small { unsigned_abs result ≤ 2 ^ 25 }
{
    if place < steps.len() {
        entry - steps[place]
    } else {
        entry
    }
}

/// The point before another in a direction.
pub(crate) fn before(point: &Point, direction: &Point) -> Point
    requires point { AtMost 4095 point.now }
    requires direction { AtMost 4095 direction.now }
    ensures before { result ≡ before point.now direction.now }
    ensures small { AtMost (2 ^ 25) result }
    ensures size { length result ≡ length point.now }
{
    let own = point.as_slice();
    let steps = direction.as_slice();
    let mut entries: ArrayVec<i64, 4> = ArrayVec::new();
    for k in 0..own.len() {
        entries.push(step_back(own[k], steps, k));
    }
    Point::from_slice(entries.as_slice())
}

// What a pick reads: the image under the first choice whose set has the point.
fn picked(choices: &[Choice], point: &Point) -> Option<Point>
    requires choices { All (λ c. (c.set.dim ≡ length point.now)
        × (c.map.from ≡ length point.now) × All IsWithinLimits c.map.rows) choices.now }
    requires small { AtMost 4095 point.now }
    ensures { result ≡ picked choices.now point.now }
{
    for choice in choices {
        if is_in(&choice.set, point) {
            return Some(choice.map.apply(point));
        }
    }
    None
}

// What a reference or a pick reads at a point.
fn place_read(tree: &Tree, point: &Point) -> Option<PlaceRead>
    requires tree { (count : ℕ) × IsReadable (length point.now) count (view tree.now) }
    requires small { AtMost 4095 point.now }
    ensures { MatchOption result ((place : ℕ) (y : PointSeen)
        → IsReadBy (view tree.now) point.now place y → ⊥) (λ r.
        IsReadBy (view tree.now) point.now r.place.0 r.point) }
{
    match tree {
        Tree::Ref { var, map } => Some(PlaceRead {
            place: VariablePlace(*var),
            point: map.apply(point),
        }),
        Tree::Pick { var, choices, .. } => {
            let point = picked(choices.as_slice(), point)?;
            Some(PlaceRead {
                place: VariablePlace(*var),
                point,
            })
        }
        _ => None,
    }
}

// What a reference or a pick of a node reads at a point.
fn node_read(timed: &TimedNodes<'_>, tree: &Tree, point: &Point) -> Option<Read>
    requires tree { IsReadable (length point.now) (length timed.now.flat.vars) (view tree.now) }
    requires small { AtMost 4095 point.now }
    ensures { MatchOption result ((place : ℕ) (y : PointSeen)
        → IsReadBy (view tree.now) point.now place y → ⊥) (λ r. (place : ℕ)
        × IsReadBy (view tree.now) point.now place r.point
        × (r.node.0 ≡ number_at (view_system timed.now.flat) place)) }
{
    let read = place_read(tree, point)?;
    Some(Read {
        node: timed.number(read.place),
        point: read.point,
    })
}

// Whether the point before this one is outside of the set.
fn is_entry(set: &Poly, point: &Point, direction: &Point) -> bool
    requires point { IsSmallIn set.now point.now }
    requires direction { AtMost 4095 direction.now }
    ensures { result ≡ not (has set.now (before point.now direction.now)) }
{
    !is_in(set, &before(point, direction))
}

/// What a tap site of a node reads at a point of its piece.
pub(crate) fn read_at(
    timed: &TimedNodes<'_>,
    node: Node,
    site: &TapSite<'_>,
    piece: &Piece,
    point: &Point,
) -> Option<Read>
    requires site { IsFineTap piece.now.domain.dim (length timed.now.flat.vars) (tap_of site.now) }
    requires point { IsSmallIn piece.now.domain point.now }
    ensures { MatchOption result ((k : ℕ) (y : PointSeen) → IsTapRead (view_system timed.now.flat)
        node.0 (view site.now.place.tree) (way_of site.now.way) (view_piece piece.now) point.now k y
        → ⊥) (λ r. IsTapRead (view_system timed.now.flat) node.0 (view site.now.place.tree)
        (way_of site.now.way) (view_piece piece.now) point.now r.node.0 r.point) }
{
    match &site.way {
        Way::Each => node_read(timed, site.place.tree, point),
        Way::Entries(direction) => {
            if is_entry(&piece.domain, point, direction) {
                node_read(timed, site.place.tree, point)
            } else {
                None
            }
        }
        Way::Handed(_, direction) => {
            let point = before(point, direction);
            if is_in(&piece.domain, &point) {
                Some(Read { node, point })
            } else {
                None
            }
        }
    }
}
