//! Directions along which references read one point, and linear parts that go up along them.

ghost use Rattle.std.specs.Prelude.{◌≡◌, ◌++◌, ◌∷◌, [], ◌≤◌, ◌<◌, ◌&&◌, not, filter, pos, negsuc, map, length, slice_get, All, IfOk};
ghost use Rattle.std.specs.List.{flat_map};
ghost use Rattle.std.specs.Ordering.{int_eq};
ghost use Rattle.av_affine.specs.Numbers.{AtMost, dot};
ghost use Rattle.av_flat.specs.Broadcasts.{lists_of, directions, along, is_zero, stays, moves, first_moving};

use av_affine::{Form, Map, dot};
use av_base::{List, Memory, Point};
use av_poly::with_first;
use std::alloc::Global;

/// Adds each of the points with one more entry before its own.
pub fn prepend_all(to: &mut Vec<Point>, entry: i64, shorter: &[Point]) -> Result<(), Memory>
    requires { All (λ y. length y < 4) shorter.now }
    ensures { IfOk result (λ done. to.new.items ≡
        to.old.items ++ map (λ y. entry ∷ y) shorter.now) }
{
    for rest in shorter {
        to.push(with_first(entry, rest))?;
    }
    Ok(())
}

// All that have 0, 1 or -1 before one of the points.
fn longer(alloc: Global, shorter: &[Point]) -> Result<Vec<Point>, Memory>
    requires { All (λ y. length y < 4) shorter.now }
    ensures { IfOk result (λ to. to.items ≡
        flat_map (λ x. map (λ w. x ∷ w) shorter.now) (pos 0 ∷ pos 1 ∷ negsuc 0 ∷ [])) }
{
    let mut to = Vec::new(alloc);
    prepend_all(&mut to, 0, shorter)?;
    prepend_all(&mut to, 1, shorter)?;
    prepend_all(&mut to, -1, shorter)?;
    Ok(to)
}

/// All points of so many entries 0, 1 and -1, in this order.
pub fn sign_vectors(alloc: Global, size: u8) -> Result<Vec<Point>, Memory>
    requires { size ≤ 4 }
    ensures { IfOk result (λ to. to.items ≡ lists_of (pos 0 ∷ pos 1 ∷ negsuc 0 ∷ []) size) }
{
    let mut all = Vec::new(alloc);
    all.push(Point::from_slice(&[]))?;
    for _k in 0..size {
        all = longer(alloc, &all)?;
    }
    Ok(all)
}

// Whether a direction has no entry but 0.
fn is_zero(direction: &Point) -> bool
    ensures { result ≡ is_zero direction.now }
{
    direction.as_slice().iter().all(|x| *x == 0)
}

// Whether the coefficients of a form send a direction to 0.
fn is_still(form: &Form, direction: &Point) -> bool
    requires { AtMost 1 direction.now }
    ensures { result ≡ int_eq (dot form.now.coef direction.now) (pos 0) }
{
    dot(&form.coef, direction.as_slice()) == 0
}

// Whether the coefficients of a map send a direction to 0.
fn stays(map: &Map, direction: &Point) -> bool
    requires { AtMost 1 direction.now }
    ensures { result ≡ stays map.now direction.now }
{
    for form in map.rows.as_slice() {
        if !is_still(form, direction) {
            return false;
        }
    }
    true
}

/// Whether a linear part goes up along a direction.
pub fn moves(linear: &Point, direction: &Point) -> bool
    requires linear { AtMost 4 linear.now }
    requires small { AtMost 1 direction.now }
    ensures { result ≡ moves linear.now direction.now }
{
    dot(linear.as_slice(), direction.as_slice()) > 0
}

// Those of the points that are not 0, in order.
fn nonzero(alloc: Global, points: &[Point]) -> Result<Vec<Point>, Memory>
    ensures { IfOk result (λ to. to.items ≡ filter (λ w. not (is_zero w)) points.now) }
{
    let mut to = Vec::new(alloc);
    for point in points {
        if is_zero(point) {
            continue;
        }
        to.push(Point::from_slice(point.as_slice()))?;
    }
    Ok(to)
}

// Those of the points that the coefficients of a map send to 0, in order.
fn staying(alloc: Global, map: &Map, points: &[Point]) -> Result<List<Point>, Memory>
    requires { All (AtMost 1) points.now }
    ensures { IfOk result (λ to. to ≡ filter (stays map.now) points.now) }
{
    let mut to = List::new(alloc);
    for point in points {
        if !stays(map, point) {
            continue;
        }
        to.push(Point::from_slice(point.as_slice()))?;
    }
    Ok(to)
}

// All points of so many entries 0, 1 and -1 but 0, in this order.
fn directions_of(alloc: Global, size: u8) -> Result<Vec<Point>, Memory>
    requires { size ≤ 4 }
    ensures { IfOk result (λ to. to.items ≡ directions size) }
{
    let all = sign_vectors(alloc, size)?;
    nonzero(alloc, &all)
}

/// The directions along which a reference with this map reads one point.
pub fn along_of(alloc: Global, map: &Map) -> Result<List<Point>, Memory>
    requires { map.now.from ≤ 4 }
    ensures { IfOk result (λ to. to ≡ along map.now) }
{
    let all = directions_of(alloc, map.from)?;
    staying(alloc, map, &all)
}

// Whether a direction moves a reference.
fn is_mover(linear: &Point, map: &Map, direction: &Point) -> bool
    requires linear { AtMost 4 linear.now }
    requires small { AtMost 1 direction.now }
    ensures { result ≡ ((not (is_zero direction.now) && stays map.now direction.now)
        && moves linear.now direction.now) }
{
    !is_zero(direction) && stays(map, direction) && moves(linear, direction)
}

// The first of these points, but for 0, along which the map reads one point and the linear part goes up.
fn first_of(linear: &Point, map: &Map, points: &[Point]) -> Option<Point>
    requires linear { AtMost 4 linear.now }
    requires small { All (AtMost 1) points.now }
    ensures { result ≡ slice_get (filter (moves linear.now)
        (filter (stays map.now) (filter (λ w. not (is_zero w)) points.now))) 0 }
{
    for point in points {
        if is_mover(linear, map, point) {
            return Some(Point::from_slice(point.as_slice()));
        }
    }
    None
}

/// The first direction along which a reference with this map reads one point and the linear part goes up. The points are
/// those of `sign_vectors` with as many entries as the map has indices.
pub fn first_moving(linear: &Point, map: &Map, points: &[Point]) -> Option<Point>
    requires linear { AtMost 4 linear.now }
    requires points { points.now ≡ lists_of (pos 0 ∷ pos 1 ∷ negsuc 0 ∷ []) map.now.from }
    ensures { result ≡ first_moving linear.now map.now }
{
    first_of(linear, map, points)
}
