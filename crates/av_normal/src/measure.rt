//! Rows against the limits on sets.

ghost use Rattle.std.specs.Prelude.{◌≡◌, ◌≤◌, ◌^◌, length, All, IfOk, IfErr, OnOk};
ghost use Rattle.av_affine.specs.Forms.{IsWithinLimits};
ghost use Rattle.av_affine.specs.Maps.{greatest_coefficient, greatest_constant};
ghost use Rattle.av_poly.specs.Normal.{AreNormalised};
ghost use Rattle.av_flat.specs.Quantities.{of_set};
ghost use Rattle.av_normal.specs.Searches.{IsWideRows, IsNarrow, IsWideOne};

use crate::NormalFault;
use av_affine::{Form, most_coefficient, most_constant};
use av_base::limits::{MOST_COEFFICIENT, MOST_CONSTANT, MOST_ROWS};
use av_flat::Quantity;
use av_poly::Poly;

/// Tries the numbers of the rows, and then how many there are.
pub(crate) fn rows_fit(rows: &[Form]) -> Result<(), NormalFault>
    ensures fit { OnOk result ((greatest_coefficient rows.now ≤ 1024)
        × (greatest_constant rows.now ≤ 2 ^ 20) × (length rows.now ≤ 20)) }
    ensures wide { IfErr result (IsWideRows rows.now) }
{
    let coefficient = most_coefficient(rows);
    if coefficient > MOST_COEFFICIENT {
        return Err(NormalFault::Limit(Quantity::Coefficient, coefficient as u128));
    }
    let constant = most_constant(rows);
    if constant > MOST_CONSTANT {
        return Err(NormalFault::Limit(Quantity::Constant, constant as u128));
    }
    if rows.len() > MOST_ROWS {
        return Err(NormalFault::Limit(Quantity::Constraints, rows.len() as u128));
    }
    Ok(())
}

/// The set with normalised rows, where they are within the limits.
pub(crate) fn narrowed(set: Poly) -> Result<Poly, NormalFault>
    ensures dim { IfOk result (λ to. to.dim ≡ set.dim) }
    ensures normalised { IfOk result (λ to. AreNormalised set.dim set.rows to.rows) }
    ensures limits { IfOk result (λ to. All IsWithinLimits to.rows) }
    ensures few { IfOk result (λ to. length to.rows ≤ 20) }
    ensures greatest { IfOk result (λ to. (greatest_coefficient to.rows ≤ 1024)
        × (greatest_constant to.rows ≤ 2 ^ 20)) }
    ensures narrow { OnOk result (IsNarrow (of_set set)) }
    ensures wide { IfErr result (IsWideOne (of_set set)) }
{
    let mut set = set;
    set.normalise();
    rows_fit(set.rows.as_slice())?;
    Ok(set)
}
