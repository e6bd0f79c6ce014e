//! Which point stands on a cell in a cycle.

ghost use Rattle.std.specs.Prelude.{◌≡◌, ◌≢◌, ◌<◌, ◌≤◌, ◌+◌, ◌^◌, ◌-ℤ◌, ◌*ℤ◌, ◌<ℤ◌, ◌≤ℤ◌, ◌∷◌, ◌↔◌, ℤ, Some, List as Items, pos, length, unsigned_abs, Any, IsTrue, IfSome, IfNone};
ghost use Rattle.av_affine.specs.Numbers.{AtMost};
ghost use Rattle.av_affine.specs.Completion.{rows_of};
ghost use Rattle.av_flat.specs.Points.{has};
ghost use Rattle.av_flat.specs.Trees.{view_variable};
ghost use Rattle.av_space.specs.Coordinates.{along};
ghost use Rattle.av_stream.specs.inner.Standing.{IsMatrixOf, IsMatrixFor, placing_by, StandsAt, Stands};

use arrayvec::ArrayVec;
use av_affine::{Placed, Square, complete, dot};
use av_base::Point;
use av_base::limits::MOST_COORDINATE;
use av_flat::{Time, Var};

/// The matrix of a node's coordinates; a node without indices has none.
pub(crate) fn matrix_of(time: &Time) -> Option<Placed>
    requires not_zero { 0 < length time.now.linear → Any (λ x. x ≢ pos 0) time.now.linear }
    requires small { AtMost 4 time.now.linear }
    ensures { IsMatrixFor time.now result }
{
    if time.linear.as_slice().is_empty() {
        None
    } else {
        Some(complete(&time.linear))
    }
}

// A number before the coordinates of a cell.
fn before(number: i64, at: &Point) -> ArrayVec<i64, 4>
    requires { length at.now < 4 }
    ensures { result.items ≡ number ∷ at.now }
{
    let mut entries = ArrayVec::new();
    entries.push(number);
    for coordinate in at.as_slice() {
        entries.push(*coordinate);
    }
    entries
}

// The point that the rows of a matrix give, where its entries are small.
fn image(matrix: &Square, entries: &[i64]) -> Option<Point>
    requires size { matrix.now.size ≡ length entries.now }
    requires few { length entries.now ≤ 4 }
    requires fits { AtMost (2 ^ 18) entries.now }
    ensures some { IfSome result (λ z. (z ≡ along (rows_of matrix.now) entries.now)
        × AtMost 4095 z) }
    ensures none { IfNone result (AtMost 4095 (along (rows_of matrix.now) entries.now) → ⊥) }
{
    let size = matrix.size as usize;
    let mut point: ArrayVec<i64, 4> = ArrayVec::new();
    for row in &matrix.cells[..size] {
        let entry = dot(&row[..size], entries);
        if entry.unsigned_abs() > MOST_COORDINATE {
            return None;
        }
        point.push(entry as i64);
    }
    Some(Point::from_slice(point.as_slice()))
}

// How often the divisor of the linear part goes into the cycles since the offset, where it does so exactly.
fn quotient(cycle: u32, time: &Time, placed: &Placed) -> Option<i64>
    requires timely { cycle ≤ 4096 }
    requires near { unsigned_abs time.now.offset ≤ 2 ^ 17 }
    requires positive { pos 0 <ℤ placed.now.gcd }
    requires small { placed.now.gcd ≤ℤ pos 4 }
    ensures some { IfSome result (λ n. n *ℤ placed.now.gcd ≡ (pos cycle -ℤ time.now.offset)) }
    ensures none { IfNone result ((n : ℤ)
        → n *ℤ placed.now.gcd ≡ (pos cycle -ℤ time.now.offset) → ⊥) }
{
    let since = i64::from(cycle) - time.offset;
    let number = since.div_euclid(placed.gcd);
    if number * placed.gcd == since {
        Some(number)
    } else {
        None
    }
}

// The only small point that may stand at these coordinates in a cycle, where the node has indices.
fn point_at(time: &Time, placed: &Placed, at: &Point, cycle: u32) -> Option<Point>
    requires matrix { IsMatrixOf time.now.linear placed.now }
    requires near { unsigned_abs time.now.offset ≤ 2 ^ 17 }
    requires small { AtMost (2 ^ 17) at.now }
    requires size { length at.now + 1 ≡ length time.now.linear }
    requires timely { cycle ≤ 4096 }
    ensures some { IfSome result (StandsAt (placing_by time.now (Some placed.now)) at.now cycle) }
    ensures small { IfSome result (AtMost 4095) }
    ensures only { IfSome result (λ z. (y : Items ℤ)
        → StandsAt (placing_by time.now (Some placed.now)) at.now cycle y → y ≡ z) }
    ensures none { IfNone result ((z : Items ℤ)
        → AtMost 4095 z → StandsAt (placing_by time.now (Some placed.now)) at.now cycle z → ⊥) }
{
    let number = quotient(cycle, time, placed)?;
    image(&placed.inverse, before(number, at).as_slice())
}

// The same for each node.
fn candidate(time: &Time, matrix: &Option<Placed>, at: &Point, cycle: u32) -> Option<Point>
    requires matrix { IsMatrixFor time.now matrix.now }
    requires near { unsigned_abs time.now.offset ≤ 2 ^ 17 }
    requires small { AtMost (2 ^ 17) at.now }
    requires size { length at.now ≡ length (placing_by time.now matrix.now).rows }
    requires timely { cycle ≤ 4096 }
    ensures some { IfSome result (StandsAt (placing_by time.now matrix.now) at.now cycle) }
    ensures small { IfSome result (AtMost 4095) }
    ensures only { IfSome result (λ z. (y : Items ℤ)
        → StandsAt (placing_by time.now matrix.now) at.now cycle y → y ≡ z) }
    ensures none { IfNone result ((z : Items ℤ)
        → AtMost 4095 z → StandsAt (placing_by time.now matrix.now) at.now cycle z → ⊥) }
{
    match matrix {
        Some(placed) => point_at(time, placed, at, cycle),
        None if i64::from(cycle) == time.offset => Some(Point::from_slice(&[])),
        None => None,
    }
}

/// Whether a point of the variable stands at these coordinates in a cycle.
pub(crate) fn stands(
    var: &Var,
    time: &Time,
    matrix: &Option<Placed>,
    at: &Point,
    cycle: u32,
) -> bool
    requires matrix { IsMatrixFor time.now matrix.now }
    requires near { unsigned_abs time.now.offset ≤ 2 ^ 17 }
    requires small { AtMost (2 ^ 17) at.now }
    requires size { length at.now ≡ length (placing_by time.now matrix.now).rows }
    requires timely { cycle ≤ 4096 }
    requires indices { length time.now.linear ≡ var.now.domain.dim }
    requires points { (z : Items ℤ) → IsTrue (has (view_variable var.now).domain z)
        → AtMost 4095 z }
    ensures { IsTrue result
        ↔ Stands (view_variable var.now) (placing_by time.now matrix.now) at.now cycle }
{
    match candidate(time, matrix, at, cycle) {
        Some(point) => var.domain.contains(&point),
        None => false,
    }
}
