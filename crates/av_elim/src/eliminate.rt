//! Fourier-Motzkin elimination of one index: the rows that do not have it, and the combinations of those
//! that bound it from below with those that bound it from above.

ghost use Rattle.std.specs.Prelude.{◌≡◌, ◌≤◌, ◌<◌, ◌+◌, ◌^◌, ◌++◌, ◌*ℤ◌, ◌+ℤ◌, suc, unsigned_abs, All, OnOk, IfOk};
ghost use Rattle.std.proofs.Math.IntN.{neg_ℤ};
ghost use Rattle.av_poly.specs.Rational.{homogeneous};
ghost use Rattle.av_elim.specs.inner.Rows.{line, factor, Small, StandsFor};
ghost use Rattle.av_elim.specs.inner.Step.{combination, pairs_of, eliminated};

use crate::merge::add;
use av_affine::{Form, four};
use av_base::{List, Memory};
use std::alloc::Global;

// The product of numbers that may have grown.
fn product(a: i64, b: i64) -> i128
    requires first { unsigned_abs a ≤ 2 ^ 43 }
    requires second { unsigned_abs b ≤ 2 ^ 53 }
    ensures value { result ≡ a *ℤ b }
    ensures small { unsigned_abs result ≤ 2 ^ 96 }
    ensures coefficient { unsigned_abs b ≤ 2 ^ 43 → unsigned_abs result ≤ 2 ^ 86 }
{
    a as i128 * b as i128
}

/// A number of the combination, of those of a row that bounds the index from below by the factor `low`
/// and of one that bounds it from above by the factor `high`.
pub(crate) fn combined_number(low: i64, high: i64, below: i64, above: i64) -> i128
    requires low { unsigned_abs low ≤ 2 ^ 43 }
    requires high { unsigned_abs high ≤ 2 ^ 43 }
    requires below { unsigned_abs below ≤ 2 ^ 53 }
    requires above { unsigned_abs above ≤ 2 ^ 53 }
    ensures value { result ≡ low *ℤ above +ℤ neg_ℤ high *ℤ below }
    ensures small { unsigned_abs result ≤ 2 ^ 97 }
    ensures coefficient { unsigned_abs below ≤ 2 ^ 43
        → unsigned_abs above ≤ 2 ^ 43 → unsigned_abs result ≤ 2 ^ 87 }
{
    let left = product(low, above);
    let right = product(high, below);
    left - right
}

// The same for rows whose numbers have grown once at most.
fn small_number(low: i64, high: i64, below: i64, above: i64) -> i64
    requires low { unsigned_abs low ≤ 2 ^ 21 }
    requires high { unsigned_abs high ≤ 2 ^ 21 }
    requires below { unsigned_abs below ≤ 2 ^ 31 }
    requires above { unsigned_abs above ≤ 2 ^ 31 }
    ensures { result ≡ low *ℤ above +ℤ neg_ℤ high *ℤ below }
{
    combined_number(low, high, below, above) as i64
}

// The number of an index in the combination.
fn coefficient(below: &Form, above: &Form, other: usize, index: usize) -> i64
    requires other { other < 4 }
    requires index { index < 4 }
    requires below { Small (2 ^ 21) (line below.now) }
    requires above { Small (2 ^ 21) (line above.now) }
    ensures { result ≡ factor (suc other) (line below.now) *ℤ factor (suc index) (line above.now)
        +ℤ neg_ℤ (factor (suc other) (line above.now)) *ℤ factor (suc index) (line below.now) }
{
    small_number(
        below.coef[other],
        above.coef[other],
        below.coef[index],
        above.coef[index],
    )
}

// One row without an index, of one that bounds it from below and one that bounds it from above.
fn combined(below: &Form, above: &Form, other: usize) -> Form
    requires other { other < 4 }
    requires below { Small (2 ^ 21) (line below.now) }
    requires above { Small (2 ^ 21) (line above.now) }
    ensures { line result ≡ combination (suc other) (line below.now) (line above.now) }
{
    let coef = four!(index => coefficient(below, above, other, index));
    let constant = small_number(
        below.coef[other],
        above.coef[other],
        below.constant,
        above.constant,
    );
    Form { coef, constant }
}

// Adds the combinations of a row with each row that bounds the index from above.
fn add_pairs(out: &mut List<Form>, below: &Form, rows: &[Form], other: usize) -> Result<(), Memory>
    requires other { other < 4 }
    requires below { Small (2 ^ 21) (line below.now) }
    requires rows { All (λ r. Small (2 ^ 21) (line r)) rows.now }
    ensures { OnOk result (StandsFor (homogeneous out.old
        ++ pairs_of (suc other) (line below.now) (homogeneous rows.now)) (homogeneous out.new)) }
{
    for above in rows {
        if above.coef[other] < 0 {
            add(out, &combined(below, above, other))?;
        }
    }
    Ok(())
}

/// The rows without an index.
pub(crate) fn eliminate(alloc: Global, rows: &[Form], other: usize) -> Result<List<Form>, Memory>
    requires other { other < 4 }
    requires rows { All (λ r. Small (2 ^ 21) (line r)) rows.now }
    ensures { IfOk result (λ out.
        StandsFor (eliminated (suc other) (homogeneous rows.now)) (homogeneous out)) }
{
    let mut out = List::new(alloc);
    for row in rows {
        if row.coef[other] == 0 {
            add(&mut out, row)?;
        }
    }
    for below in rows {
        if below.coef[other] > 0 {
            add_pairs(&mut out, below, rows, other)?;
        }
    }
    Ok(out)
}
