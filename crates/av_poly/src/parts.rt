//! Set difference into disjoint parts: part k has the points at which row k is the first that does not
//! hold.

ghost use Rattle.std.specs.Prelude.{ℤ, List as Items, ◌≡◌, ◌<◌, ◌^◌, ◌↔◌, length, unsigned_abs, All, IfOk};
ghost use Rattle.av_poly.specs.Points.{IsSmall, Has, Holds, HoldsAt};
ghost use Rattle.av_poly.specs.inner.Parts.{AreParts};

use crate::Poly;
use crate::row::append_rows;
use av_affine::Form;
use av_base::{List, Memory};
use std::alloc::Global;

// The row that holds where this one does not: -a.z - c - 1 is at least 0.
fn complement(row: &Form) -> Form
    requires row { IsSmall row.now }
    requires constant { unsigned_abs row.now.constant < 2 ^ 40 }
    ensures points { (z : Items ℤ) → HoldsAt result z ↔ (HoldsAt row.now z → ⊥) }
    ensures small { IsSmall result }
{
    let coef = row.coef;
    Form {
        coef: [-coef[0], -coef[1], -coef[2], -coef[3]],
        constant: -row.constant - 1,
    }
}

// The points at which the kept rows hold and one row does not.
fn part(alloc: Global, dim: u8, kept: &[Form], row: &Form) -> Result<Poly, Memory>
    requires kept { All IsSmall kept.now }
    requires row { IsSmall row.now }
    requires constant { unsigned_abs row.now.constant < 2 ^ 40 }
    ensures points { IfOk result (λ part. (z : Items ℤ) →
        Has part z ↔ ((length z ≡ dim) × Holds kept.now z × (HoldsAt row.now z → ⊥))) }
    ensures dim { IfOk result (λ part. part.dim ≡ dim) }
{
    let mut rows = List::new(alloc);
    append_rows(&mut rows, kept)?;
    rows.push(complement(row))?;
    Ok(Poly { dim, rows })
}

/// The points at which the rows within hold and not all of the others do.
pub(crate) fn parts(
    alloc: Global,
    dim: u8,
    within: &[Form],
    rows: &[Form],
) -> Result<List<Poly>, Memory>
    requires within { All IsSmall within.now }
    requires rows { All IsSmall rows.now }
    requires constants { All (λ row. unsigned_abs row.constant < 2 ^ 40) rows.now }
    ensures { IfOk result (AreParts dim within.now rows.now) }
{
    let mut parts = List::new(alloc);
    let mut kept = List::new(alloc);
    append_rows(&mut kept, within)?;
    for row in rows {
        parts.push(part(alloc, dim, kept.as_slice(), row)?)?;
        kept.push(*row)?;
    }
    Ok(parts)
}
