//! The value of a row at a point, without overflow.

ghost use Rattle.std.specs.Prelude.{◌≡◌, ◌≤◌, ◌^◌, ◌*ℤ◌, ◌↔◌, ◌++◌, length, unsigned_abs, All, IsTrue, OnOk};
ghost use Rattle.av_affine.specs.Numbers.{dot, AtMost};
ghost use Rattle.av_affine.specs.Forms.{value_at};
ghost use Rattle.av_poly.specs.Points.{IsSmall, Holds};

use av_affine::{Form, dot};
use av_base::{List, Memory};

/// The product of small numbers.
pub(crate) fn product(a: i64, b: i64) -> i128
    requires first { unsigned_abs a ≤ 2 ^ 40 }
    requires second { unsigned_abs b ≤ 2 ^ 25 }
    ensures value { result ≡ a *ℤ b }
    ensures small { unsigned_abs result ≤ 2 ^ 65 }
{
    a as i128 * b as i128
}

/// The sum of the products of coefficients and numbers.
pub(crate) fn products(coef: [i64; 4], numbers: &[i64]) -> i128
    requires coef { AtMost (2 ^ 40) coef }
    requires numbers { AtMost (2 ^ 25) numbers.now }
    requires fits { length numbers.now ≤ 4 }
    ensures value { result ≡ dot coef numbers.now }
    ensures small { unsigned_abs result ≤ 2 ^ 67 }
{
    dot(&coef, numbers)
}

/// The value of a row at a point.
pub(crate) fn value(row: &Form, z: &[i64]) -> i128
    requires row { IsSmall row.now }
    requires point { AtMost (2 ^ 25) z.now }
    requires fits { length z.now ≤ 4 }
    ensures { result ≡ value_at row.now z.now }
{
    products(row.coef, z) + row.constant as i128
}

/// Whether each row holds at a point.
pub(crate) fn each_holds(rows: &[Form], z: &[i64]) -> bool
    requires rows { All IsSmall rows.now }
    requires point { AtMost (2 ^ 25) z.now }
    requires fits { length z.now ≤ 4 }
    ensures { IsTrue result ↔ Holds rows.now z.now }
{
    for row in rows {
        if value(row, z) < 0 {
            return false;
        }
    }
    true
}

/// Appends rows.
pub fn append_rows(rows: &mut List<Form>, more: &[Form]) -> Result<(), Memory>
    ensures { OnOk result (rows.new ≡ rows.old ++ more.now) }
{
    for row in more {
        rows.push(*row)?;
    }
    Ok(())
}
