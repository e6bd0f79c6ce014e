//! The bounds of a polyhedron, index by index, or why there are none.

ghost use Rattle.std.specs.Prelude.{ℤ, List as Items, ◌≡◌, ◌≤◌, ◌≤ℤ◌, ◌<◌, ◌↔◌, pos, length, All, IfOk, IfErr, IsTrue};
ghost use Rattle.av_affine.specs.Forms.{IsWithinLimits};
ghost use Rattle.av_poly.specs.Points.{Has};
ghost use Rattle.av_poly.specs.Search.{IsBetween};
ghost use Rattle.av_poly.specs.Rational.{AreBounds};
ghost use Rattle.av_elim.specs.Faults.{IsCause};

use crate::shadow::span_of;
use crate::span::ends;
use av_affine::Form;
use av_base::limits::MOST_ROWS;
use av_poly::{Bounds, Poly};
use std::alloc::Global;

/// Why a set has no bounds.
#[derive(Clone, Copy, Debug, PartialEq, Eq)]
pub enum Elim {
    /// The number of its rows, which is above 20.
    Constraints(u128),
    /// The first index without a finite bound on one side, where the set has a rational point.
    Unbounded(u8),
    /// No rational point, or an index with no whole number between its bounds, where all are finite.
    Empty,
    /// Out of memory.
    Memory,
}

// Whether rows hold that have no index.
fn constants_hold(rows: &[Form]) -> bool
    ensures { IsTrue result ↔ All (λ row. pos 0 ≤ℤ row.constant) rows.now }
{
    rows.iter().all(|row| row.constant >= 0)
}

// The bounds of a set without indices.
fn constant_bounds(rows: &[Form]) -> Result<Bounds, Elim>
    requires { length rows.now ≤ 20 }
    ensures found { IfOk result (AreBounds (record { dim = 0; rows = rows.now })) }
    ensures refused { IfErr result (IsCause (record { dim = 0; rows = rows.now })) }
{
    if constants_hold(rows) {
        Ok(Bounds {
            low: [0; 4],
            high: [0; 4],
        })
    } else {
        Err(Elim::Empty)
    }
}

// The bounds of a set with indices.
fn index_bounds(alloc: Global, rows: &[Form], dim: usize) -> Result<Bounds, Elim>
    requires some { 0 < dim }
    requires dim { dim ≤ 4 }
    requires few { length rows.now ≤ 20 }
    requires rows { All IsWithinLimits rows.now }
    ensures found { IfOk result (AreBounds (record { dim = dim; rows = rows.now })) }
    ensures inside { IfOk result (λ bounds. (z : Items ℤ)
        → Has (record { dim = dim; rows = rows.now }) z → IsBetween bounds.low bounds.high z) }
    ensures refused { IfErr result (IsCause (record { dim = dim; rows = rows.now })) }
{
    let mut low = [0i128; 4];
    let mut high = [0i128; 4];
    let mut gap = false;
    for index in 0..dim {
        let span = match span_of(alloc, rows, dim, index) {
            Ok(span) => span,
            Err(_) => return Err(Elim::Memory),
        };
        if !span.flat {
            return Err(Elim::Empty);
        }
        let (least, greatest) = match ends(span) {
            Some(both) => both,
            None => return Err(Elim::Unbounded(index as u8)),
        };
        if greatest < least {
            gap = true;
        }
        low[index] = least;
        high[index] = greatest;
    }
    if gap {
        Err(Elim::Empty)
    } else {
        Ok(Bounds { low, high })
    }
}

/// For each index the least and greatest whole number between its rational bounds: the bounds of the
/// rational points of the rows as they stand. For the bounds of the whole points alone, as near as rows
/// tell them, normalise the set before.
///
/// The indices are looked at in order: an unbounded index is told before a later one that has no
/// whole number between its bounds.
pub fn bounds(alloc: Global, poly: &Poly) -> Result<Bounds, Elim>
    requires dim { poly.now.dim ≤ 4 }
    requires rows { All IsWithinLimits poly.now.rows }
    ensures found { IfOk result (λ bounds. (length poly.now.rows ≤ 20)
        × AreBounds poly.now bounds) }
    ensures inside { IfOk result (λ bounds. (z : Items ℤ)
        → Has poly.now z → IsBetween bounds.low bounds.high z) }
    ensures refused { IfErr result (IsCause poly.now) }
{
    let rows = poly.rows.as_slice();
    if rows.len() > MOST_ROWS {
        Err(Elim::Constraints(rows.len() as u128))
    } else if poly.dim == 0 {
        constant_bounds(rows)
    } else {
        index_bounds(alloc, rows, poly.dim as usize)
    }
}
