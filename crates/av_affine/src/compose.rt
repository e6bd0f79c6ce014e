//! The composition of two maps within the limits, whatever the size of its entries.

ghost use Rattle.std.specs.Prelude.{ℕ, ℤ, List, ◌≡◌, ◌≤◌, ◌<◌, ◌^◌, pos, length, map, max, fold, All, unsigned_abs, slice_index_or, nat_lt, if◌then◌else◌};
ghost use Rattle.av_affine.specs.Numbers.{dot, AtMost, greatest};
ghost use Rattle.av_affine.specs.Forms.{IsWithinLimits};
ghost use Rattle.av_affine.specs.Maps.{coefficients_of, constants_of, through, composition, greatest_coefficient, greatest_constant};

use crate::form::products;
use crate::{Form, Map, Rows, four};
use arrayvec::ArrayVec;

// The coefficients that the forms have for one index.
fn coefficients(rows: &[Form], index: usize) -> ArrayVec<i64, 4>
    requires fits { length rows.now ≤ 4 }
    requires index { index < 4 }
    ensures { result.items ≡ coefficients_of index rows.now }
{
    let mut coefficients = ArrayVec::new();
    for form in rows {
        coefficients.push(form.coef[index]);
    }
    coefficients
}

// The constants of the forms.
fn constants(rows: &[Form]) -> ArrayVec<i64, 4>
    requires { length rows.now ≤ 4 }
    ensures { result.items ≡ constants_of rows.now }
{
    let mut constants = ArrayVec::new();
    for form in rows {
        constants.push(form.constant);
    }
    constants
}

// The coefficient of one index in a form of what the inner map gives.
fn coefficient(form: &Form, inner: &Map, index: usize) -> i64
    requires index { index < 4 }
    requires form { IsWithinLimits form.now }
    requires inner { All IsWithinLimits inner.now.rows }
    ensures value { result ≡ (if nat_lt index inner.now.from
        then dot form.now.coef (coefficients_of index inner.now.rows) else pos 0) }
    ensures small { unsigned_abs result ≤ 2 ^ 32 }
{
    if index < inner.from as usize {
        products(
            form.coef,
            coefficients(inner.rows.as_slice(), index).as_slice(),
        )
    } else {
        0
    }
}

/// A form of what the inner map gives, as a form of the inner map's indices.
pub(crate) fn inward(form: &Form, inner: &Map) -> Form
    requires form { IsWithinLimits form.now }
    requires inner { All IsWithinLimits inner.now.rows }
    ensures value { result ≡ through inner.now.from inner.now.rows form.now }
    ensures coefficients { AtMost (2 ^ 32) result.coef }
    ensures constant { unsigned_abs result.constant ≤ 2 ^ 33 }
{
    let coef = four!(index => coefficient(form, inner, index));
    let constant = products(form.coef, constants(inner.rows.as_slice()).as_slice());
    Form {
        coef,
        constant: constant + form.constant,
    }
}

/// First `inner`, then `outer`.
pub(crate) fn composed(outer: &Map, inner: &Map) -> Map
    requires outer { All IsWithinLimits outer.now.rows }
    requires inner { All IsWithinLimits inner.now.rows }
    ensures { result ≡ composition outer.now inner.now }
{
    let mut forms: ArrayVec<Form, 4> = ArrayVec::new();
    for form in outer.rows.as_slice() {
        forms.push(inward(form, inner));
    }
    Map {
        from: inner.from,
        rows: Rows::from_slice(forms.as_slice()),
    }
}

// The greatest absolute value.
fn greatest_of(numbers: &[i64]) -> u64
    ensures { result ≡ greatest numbers.now }
{
    numbers
        .iter()
        .map(|x| x.unsigned_abs())
        .fold(0, |most, x| most.max(x))
}

/// The greatest absolute value of a coefficient.
pub fn most_coefficient(rows: &[Form]) -> u64
    ensures { result ≡ greatest_coefficient rows.now }
{
    rows.iter()
        .map(|f| greatest_of(&f.coef))
        .fold(0, |most, x| most.max(x))
}

/// The greatest absolute value of a constant.
pub fn most_constant(rows: &[Form]) -> u64
    ensures { result ≡ greatest_constant rows.now }
{
    rows.iter()
        .map(|f| f.constant.unsigned_abs())
        .fold(0, |most, x| most.max(x))
}
