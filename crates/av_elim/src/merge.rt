//! Rows that are gathered without repeats: of those with equal coefficients the one with the least
//! constant stays, each divided by the greatest common divisor of all its numbers.

ghost use Rattle.std.specs.Prelude.{◌≡◌, ◌^◌, ◌∷◌, [], ◌++◌, IsTrue, OnOk, false};
ghost use Rattle.av_poly.specs.Rational.{homogeneous};
ghost use Rattle.av_elim.specs.inner.Rows.{line, Small, IsReduced, StandsFor};

use av_affine::{Form, coefficients_over, gcd, gcd_of};
use av_base::{List, Memory};

// The row divided by the greatest common divisor of all its numbers.
fn reduced(row: &Form) -> Form
    requires { Small (2 ^ 43) (line row.now) }
    ensures { IsReduced (line row.now) (line result) }
{
    let coef = row.coef;
    let divisor = gcd(gcd_of(&coef), row.constant.unsigned_abs());
    if divisor == 0 {
        return *row;
    }
    let divisor = divisor as i64;
    Form {
        coef: coefficients_over(coef, divisor),
        constant: row.constant.div_euclid(divisor),
    }
}

// Lets a row take the place of the one that has equal coefficients, where its constant is less; false
// where none has.
fn replaced(rows: &mut List<Form>, row: &Form) -> bool
    ensures yes { IsTrue result
        → StandsFor (homogeneous rows.old ++ line row.now ∷ []) (homogeneous rows.new) }
    ensures no { result ≡ false → rows.new ≡ rows.old }
{
    for place in 0..rows.as_slice().len() {
        let other = rows.as_slice()[place];
        if other.coef == row.coef {
            if row.constant < other.constant {
                rows.set(place, *row);
            }
            return true;
        }
    }
    false
}

/// Adds a row to rows of which no two have equal coefficients.
pub(crate) fn add(rows: &mut List<Form>, row: &Form) -> Result<(), Memory>
    requires { Small (2 ^ 43) (line row.now) }
    ensures { OnOk result
        (StandsFor (homogeneous rows.old ++ line row.now ∷ []) (homogeneous rows.new)) }
{
    let row = reduced(row);
    if replaced(rows, &row) {
        Ok(())
    } else {
        rows.push(row)
    }
}
