//! Rows divided by the greatest common divisor of their coefficients, in place.

ghost use Rattle.std.specs.Prelude.{◌≡◌, ◌≢◌, ◌≤◌, ◌<◌, ◌+◌, ◌^◌, pos, length, take, All, IfSome, IfNone, IsTrue, false, nat_lt, if◌then◌else◌, slice_index_or};
ghost use Rattle.std.specs.Int.{int_min};
ghost use Rattle.av_poly.specs.Points.{IsSmall};
ghost use Rattle.av_poly.specs.Normal.{counted, IsConstant, IsDivided, AreNormalised, impossible};
ghost use Rattle.av_poly.specs.inner.Placing.{Lowers, Places};

use av_affine::{Form, coefficients_over, four, gcd_of};
use av_base::List;

// A coefficient that counts, or 0.
fn counted_at(dim: u8, coef: [i64; 4], index: usize) -> i64
    requires { index < 4 }
    ensures { result ≡ (if nat_lt index dim then slice_index_or coef index (pos 0) else pos 0) }
{
    if index < dim as usize { coef[index] } else { 0 }
}

// The coefficients that count, and 0 in place of the others.
fn counted_of(dim: u8, coef: [i64; 4]) -> [i64; 4]
    ensures { result ≡ counted dim coef }
{
    four!(index => counted_at(dim, coef, index))
}

// The row divided by the greatest common divisor of its coefficients; None where it has none.
fn divided(dim: u8, row: &Form) -> Option<Form>
    requires { IsSmall row.now }
    ensures divided { IfSome result (IsDivided dim row.now) }
    ensures small { IfSome result IsSmall }
    ensures none { IfNone result (IsConstant dim row.now) }
{
    let coef = counted_of(dim, row.coef);
    let divisor = gcd_of(&coef);
    if divisor == 0 {
        return None;
    }
    let divisor = divisor as i64;
    Some(Form {
        coef: coefficients_over(coef, divisor),
        constant: row.constant.div_euclid(divisor),
    })
}

// The row with the lesser of two constants.
fn lesser(row: &Form, constant: i64) -> Form
    ensures { result
        ≡ record { coef = row.now.coef; constant = int_min row.now.constant constant } }
{
    let coef = row.coef;
    let least = row.constant.min(constant);
    Form {
        coef,
        constant: least,
    }
}

// Lowers the constant of the one of the first rows that has equal coefficients; false where none has.
fn lowered(rows: &mut List<Form>, kept: usize, row: &Form) -> bool
    requires { kept ≤ length rows.old }
    ensures yes { IsTrue result → Lowers kept row.now rows.old rows.new }
    ensures no { result ≡ false
        → (rows.new ≡ rows.old) × All (λ other. other.coef ≢ row.now.coef) (take kept rows.old) }
{
    for k in 0..kept {
        let other = rows.as_slice()[k];
        if other.coef == row.coef {
            rows.set(k, lesser(&other, row.constant));
            return true;
        }
    }
    false
}

// Lets a row take its place among the first rows, and counts those.
fn placed(rows: &mut List<Form>, kept: usize, row: &Form) -> usize
    requires within { kept < length rows.old }
    requires room { kept + 1 < 2 ^ 64 }
    ensures { Places kept row.now rows.old rows.new result }
{
    if lowered(rows, kept, row) {
        kept
    } else {
        rows.set(kept, *row);
        kept + 1
    }
}

// The row 0 >= 1.
fn impossible_row() -> Form
    ensures { result ≡ impossible }
{
    Form {
        coef: [0, 0, 0, 0],
        constant: -1,
    }
}

/// Normalises rows.
pub(crate) fn normalise_rows(dim: u8, rows: &mut List<Form>)
    requires { All IsSmall rows.old }
    ensures normalised { AreNormalised dim rows.old rows.new }
    ensures small { All IsSmall rows.new }
{
    let mut kept = 0;
    for k in 0..rows.as_slice().len() {
        let row = rows.as_slice()[k];
        match divided(dim, &row) {
            Some(new) => {
                kept = placed(rows, kept, &new);
            }
            None => {
                if row.constant < 0 {
                    rows.set(0, impossible_row());
                    rows.truncate(1);
                    return;
                }
            }
        }
    }
    rows.truncate(kept);
}
