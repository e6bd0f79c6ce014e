//! Forms, and sets with given rows.

ghost use Rattle.std.specs.Prelude.{◌≡◌, ◌≤◌, ◌^◌, unsigned_abs, All, IfOk, IsTrue};
ghost use Rattle.av_affine.specs.Forms.{IsWithinLimits};
ghost use Rattle.av_poly.specs.Points.{IsSmall};

use av_affine::{Form, Map, Rows};
use av_base::{List, Memory};
use av_poly::Poly;
use std::alloc::Global;

/// The coefficients and the constant of a form.
pub(crate) type Row = ([i64; 4], i64);

/// The form with these coefficients and this constant.
pub(crate) fn form(coef: [i64; 4], constant: i64) -> Form {
    Form { coef, constant }
}

/// The map of one index with one form.
pub(crate) fn scaled(coefficient: i64, constant: i64) -> Map {
    Map {
        from: 1,
        rows: Rows::from_slice(&[form([coefficient, 0, 0, 0], constant)]),
    }
}

fn is_small(row: &Form) -> bool
    ensures { IsTrue result → IsSmall row.now }
{
    row.coef.iter().all(|x| x.unsigned_abs() <= 1 << 40) && row.constant.unsigned_abs() <= 1 << 40
}

/// The set with these rows, of which those that are not small are left out.
pub(crate) fn set(alloc: Global, dim: u8, rows: &[Row]) -> Result<Poly, Memory>
    ensures { IfOk result (λ set. set.dim ≡ dim) }
{
    let mut kept: List<Form> = List::new(alloc);
    for row in rows {
        let row = form(row.0, row.1);
        if is_small(&row) {
            kept.push(row)?;
        }
    }
    Ok(Poly { dim, rows: kept })
}

/// Whether a form is within the limits.
pub(crate) fn is_within_limits(form: &Form) -> bool
    ensures { IsTrue result → IsWithinLimits form.now }
{
    form.coef.iter().all(|x| x.unsigned_abs() <= 1024) && form.constant.unsigned_abs() <= 1 << 20
}

/// Whether all forms are within the limits.
pub(crate) fn are_within_limits(rows: &[Form]) -> bool
    ensures { IsTrue result → All IsWithinLimits rows.now }
{
    rows.iter().all(|form| is_within_limits(form))
}

/// Whether the forms have these coefficients and constants.
pub(crate) fn are_rows(forms: &[Form], rows: &[Row]) -> bool {
    if forms.len() != rows.len() {
        return false;
    }
    for k in 0..forms.len() {
        if forms[k].coef != rows[k].0 || forms[k].constant != rows[k].1 {
            return false;
        }
    }
    true
}
