//! All points of a set, in order.

ghost use Rattle.std.specs.Prelude.{◌≡◌, ◌≤◌, ◌+◌, ◌++◌, ◌∷◌, [], length, filter, All, IfOk, OnOk};
ghost use Rattle.av_affine.specs.Numbers.{AtMost};
ghost use Rattle.av_flat.specs.Points.{has};
ghost use Rattle.av_elim.specs.Extents.{IsInside};
ghost use Rattle.av_depend.specs.AllPoints.{AreAllPoints};
ghost use Rattle.av_depend.specs.SetPoints.{IsPointOf};
ghost use Rattle.av_depend.specs.inner.Listing.{HasListed};

use crate::generator::copy_point;
use av_base::{List, Memory, Point};
use av_poly::{Bounds, Poly, extended, first_entries};
use std::alloc::Global;

// Appends the point if the set has it.
fn add_point(set: &Poly, entries: &[i64], points: &mut List<Point>) -> Result<(), Memory>
    requires size { length entries.now ≡ set.now.dim }
    requires few { length entries.now ≤ 4 }
    requires small { AtMost 4095 entries.now }
    ensures { OnOk result (points.new ≡ points.old ++ filter (has set.now) (entries.now ∷ [])) }
{
    let point = Point::from_slice(entries);
    if set.contains(&point) {
        points.push(point)?;
    }
    Ok(())
}

// Appends those points of the set, in order, that begin with the fixed entries and have each other entry
// between its bounds.
fn add_points(
    set: &Poly,
    fixed: &[i64],
    low: &[i64],
    high: &[i64],
    points: &mut List<Point>,
) -> Result<(), Memory>
    requires size { length fixed.now + length low.now ≡ set.now.dim }
    requires few { set.now.dim ≤ 4 }
    requires same { length high.now ≡ length low.now }
    requires fixed { AtMost 4095 fixed.now }
    requires low { AtMost 4095 low.now }
    requires high { AtMost 4095 high.now }
    ensures { OnOk result (HasListed set.now fixed.now low.now high.now points.old points.new) }
{
    if low.is_empty() {
        return add_point(set, fixed, points);
    }
    for value in low[0]..high[0] + 1 {
        let next = extended(fixed, value);
        add_points(set, next.as_slice(), &low[1..], &high[1..], points)?;
    }
    Ok(())
}

/// All points of a set that has none outside the box, ascending.
pub fn all_points(alloc: Global, set: &Poly, extent: &Bounds) -> Result<List<Point>, Memory>
    requires few { set.now.dim ≤ 4 }
    requires low { AtMost 4095 extent.now.low }
    requires high { AtMost 4095 extent.now.high }
    requires inside { IsInside set.now.dim extent.now set.now }
    ensures { IfOk result (AreAllPoints set.now) }
{
    let low = first_entries(extent.low, set.dim);
    let high = first_entries(extent.high, set.dim);
    let mut points = List::new(alloc);
    add_points(set, &[], low.as_slice(), high.as_slice(), &mut points)?;
    Ok(points)
}

/// Of the points those that the set has, in order.
pub(crate) fn points_within(
    alloc: Global,
    set: &Poly,
    points: &[Point],
) -> Result<List<Point>, Memory>
    requires { All (IsPointOf set.now) points.now }
    ensures { IfOk result (λ to. to ≡ filter (has set.now) points.now) }
{
    let mut to = List::new(alloc);
    for point in points {
        if !set.contains(point) {
            continue;
        }
        to.push(copy_point(point))?;
    }
    Ok(to)
}
