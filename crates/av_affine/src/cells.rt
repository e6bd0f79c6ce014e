//! Completed matrices and their inverses, cell by cell.

ghost use Rattle.std.specs.Prelude.{ℕ, ℤ, ◌≡◌, ◌≤◌, ◌<◌, ◌^◌, suc, ◌*ℤ◌, pos, length, unsigned_abs, nat_lt, ◌&&◌, if◌then◌else◌};
ghost use Rattle.av_affine.specs.Numbers.{AtMost, four};
ghost use Rattle.av_affine.specs.Squares.{square_of};
ghost use Rattle.av_affine.specs.Cells.{delta, skip, IsAmong, one_cell, two_cell, completed_cell, one_inverse, two_solved, two_inverse, inverse_cell, turn};

use crate::pivot::{Pivot, nth_other};
use crate::{Square, four};

// The product of small numbers.
fn product(a: i64, b: i64) -> i64
    requires first { unsigned_abs a ≤ 2 ^ 10 }
    requires second { unsigned_abs b ≤ 2 ^ 20 }
    ensures value { result ≡ a *ℤ b }
    ensures small { unsigned_abs result ≤ 2 ^ 30 }
{
    a * b
}

// A cell of a unit row.
fn unit(position: usize, index: usize) -> i64
    ensures { result ≡ delta position index }
{
    if position == index { 1 } else { 0 }
}

// A cell of the vector, or of the unit rows of all positions but one.
fn beside_one(vector: &[i64], p: usize, row: usize, index: usize) -> i64
    requires few { length vector.now ≤ 4 }
    requires row { row < length vector.now }
    requires index { index < length vector.now }
    ensures { result ≡ one_cell vector.now p row index }
{
    if row == 0 {
        vector[index]
    } else {
        unit(nth_other(p, row - 1), index)
    }
}

// A cell of the vector, of its signs at two positions, or of the unit rows of the others.
fn beside_two(vector: &[i64], p: usize, r: usize, row: usize, index: usize) -> i64
    requires few { length vector.now ≤ 4 }
    requires pivot { r < 4 }
    requires row { row < length vector.now }
    requires index { index < length vector.now }
    ensures { result ≡ two_cell vector.now p r row index }
{
    if row == 0 {
        vector[index]
    } else if row == 1 {
        if index == p || index == nth_other(p, r) {
            vector[index].signum()
        } else {
            0
        }
    } else {
        unit(nth_other(p, nth_other(r, row - 2)), index)
    }
}

// A cell of the completed matrix, and 0 past it.
fn completed_at(vector: &[i64], pivot: &Pivot, row: usize, index: usize) -> i64
    requires few { length vector.now ≤ 4 }
    requires pivot { IsAmong (length vector.now) pivot.now }
    ensures { result ≡ (if nat_lt row (length vector.now) && nat_lt index (length vector.now)
        then completed_cell pivot.now vector.now row index
        else pos 0) }
{
    let size = vector.len();
    if row < size && index < size {
        match pivot {
            Pivot::One(p) => beside_one(vector, *p, row, index),
            Pivot::Two(p, r) => beside_two(vector, *p, *r, row, index),
        }
    } else {
        0
    }
}

// A row of the completed matrix.
fn completed_row(vector: &[i64], pivot: &Pivot, row: usize) -> [i64; 4]
    requires few { length vector.now ≤ 4 }
    requires pivot { IsAmong (length vector.now) pivot.now }
    ensures { result ≡ four (λ index.
        if nat_lt row (length vector.now) && nat_lt index (length vector.now)
        then completed_cell pivot.now vector.now row index
        else pos 0) }
{
    four!(index => completed_at(vector, pivot, row, index))
}

/// The completed matrix.
pub(crate) fn completed(vector: &[i64], pivot: &Pivot) -> Square
    requires few { length vector.now ≤ 4 }
    requires pivot { IsAmong (length vector.now) pivot.now }
    ensures { result ≡ square_of (length vector.now) (completed_cell pivot.now vector.now) }
{
    Square {
        size: vector.len() as u8,
        cells: four!(row => completed_row(vector, pivot, row)),
    }
}

// A cell of the inverse beside one position. The matrix sends x to y, where y[0] is the sum of vector[k] * x[k] over all k and the
// other entries of y are those of x but x[p], in order. So x[p] is vector[p], which is 1 or -1, times (y[0] - the sum of vector[k] * x[k]
// over these).
fn inverse_beside_one(vector: &[i64], p: usize, row: usize, index: usize) -> i64
    requires few { length vector.now ≤ 4 }
    requires small { AtMost 4 vector.now }
    requires pivot { p < length vector.now }
    requires index { index < length vector.now }
    ensures { result ≡ one_inverse vector.now p row index }
{
    if index == 0 {
        return if row == p { vector[p] } else { 0 };
    }
    let other = nth_other(p, index - 1);
    if row == p {
        -product(vector[p], vector[other])
    } else {
        unit(other, row)
    }
}

// A cell of the row that solves for one of two entries, as head * (y[0] - the sum of vector[k] * x[k] over the other k) + second * y[1].
fn solved(vector: &[i64], p: usize, r: usize, head: i64, second: i64, index: usize) -> i64
    requires few { length vector.now ≤ 4 }
    requires small { AtMost 4 vector.now }
    requires head { unsigned_abs head ≤ 32 }
    requires pivot { (p < length vector.now) × (suc r < length vector.now) }
    requires index { index < length vector.now }
    ensures { result ≡ two_solved vector.now p r head second index }
{
    if index == 0 {
        head
    } else if index == 1 {
        second
    } else {
        -product(head, vector[nth_other(p, nth_other(r, index - 2))])
    }
}

// The determinant of the block of two numbers over their signs. Of the entries at a pivot it is 1 or -1, so that it is its own inverse.
fn determinant(a: i64, b: i64) -> i64
    requires first { unsigned_abs a ≤ 4 }
    requires second { unsigned_abs b ≤ 4 }
    ensures value { result ≡ turn a b }
    ensures small { unsigned_abs result ≤ 8 }
{
    product(a, b.signum()) - product(b, a.signum())
}

// That determinant times a number.
fn turned(a: i64, b: i64, x: i64) -> i64
    requires first { unsigned_abs a ≤ 4 }
    requires second { unsigned_abs b ≤ 4 }
    requires third { unsigned_abs x ≤ 4 }
    ensures value { result ≡ turn a b *ℤ x }
    ensures small { unsigned_abs result ≤ 32 }
{
    product(determinant(a, b), x)
}

// A cell of the inverse beside two positions, p and q, with the entries a and b there. Where x goes to y, t is what y[0] leaves over
// the sum of vector[k] * x[k] over the other k, whose x[k] stand in y from y[2] on. Then a * x[p] + b * x[q] = t, and
// sign(a) * x[p] + sign(b) * x[q] = y[1]. With the determinant d of these two equations, x[p] = d * (sign(b) * t - b * y[1]), and
// x[q] = d * (a * y[1] - sign(a) * t).
fn inverse_beside_two(vector: &[i64], p: usize, r: usize, row: usize, index: usize) -> i64
    requires few { length vector.now ≤ 4 }
    requires small { AtMost 4 vector.now }
    requires pivot { (p < length vector.now) × (suc r < length vector.now) }
    requires index { index < length vector.now }
    ensures { result ≡ two_inverse vector.now p r row index }
{
    let q = nth_other(p, r);
    let a = vector[p];
    let b = vector[q];
    if row == p {
        solved(
            vector,
            p,
            r,
            turned(a, b, b.signum()),
            -turned(a, b, b),
            index,
        )
    } else if row == q {
        solved(
            vector,
            p,
            r,
            -turned(a, b, a.signum()),
            turned(a, b, a),
            index,
        )
    } else if index < 2 {
        0
    } else {
        unit(nth_other(p, nth_other(r, index - 2)), row)
    }
}

// A cell of the inverse, and 0 past it.
fn inverse_at(vector: &[i64], pivot: &Pivot, row: usize, index: usize) -> i64
    requires few { length vector.now ≤ 4 }
    requires small { AtMost 4 vector.now }
    requires pivot { IsAmong (length vector.now) pivot.now }
    ensures { result ≡ (if nat_lt row (length vector.now) && nat_lt index (length vector.now)
        then inverse_cell pivot.now vector.now row index
        else pos 0) }
{
    let size = vector.len();
    if row < size && index < size {
        match pivot {
            Pivot::One(p) => inverse_beside_one(vector, *p, row, index),
            Pivot::Two(p, r) => inverse_beside_two(vector, *p, *r, row, index),
        }
    } else {
        0
    }
}

// A row of the inverse.
fn inverse_row(vector: &[i64], pivot: &Pivot, row: usize) -> [i64; 4]
    requires few { length vector.now ≤ 4 }
    requires small { AtMost 4 vector.now }
    requires pivot { IsAmong (length vector.now) pivot.now }
    ensures { result ≡ four (λ index.
        if nat_lt row (length vector.now) && nat_lt index (length vector.now)
        then inverse_cell pivot.now vector.now row index
        else pos 0) }
{
    four!(index => inverse_at(vector, pivot, row, index))
}

/// The inverse of the completed matrix.
pub(crate) fn inverted(vector: &[i64], pivot: &Pivot) -> Square
    requires few { length vector.now ≤ 4 }
    requires small { AtMost 4 vector.now }
    requires pivot { IsAmong (length vector.now) pivot.now }
    ensures { result ≡ square_of (length vector.now) (inverse_cell pivot.now vector.now) }
{
    Square {
        size: vector.len() as u8,
        cells: four!(row => inverse_row(vector, pivot, row)),
    }
}
