//! The interval of one index that rows leave, where the indices before it are fixed and those after it
//! lie between bounds.

ghost use Rattle.std.specs.Prelude.{ℕ, ℤ, List, ◌≡◌, ◌≤◌, ◌<◌, ◌+◌, ◌^◌, ◌≤ℤ◌, ◌+ℤ◌, ◌*ℤ◌, ◌∷◌, ◌++◌, pos, length, unsigned_abs, All, slice_index_or};
ghost use Rattle.av_affine.specs.Numbers.{dot, AtMost};
ghost use Rattle.av_poly.specs.Points.{IsSmall, Holds, HoldsAt};
ghost use Rattle.av_poly.specs.Search.{IsBetween};

use crate::row::{product, products};
use av_affine::Form;

// The whole numbers from `low` to `high`; none where `low` is above `high`.
#[derive(Clone, Copy)]
pub(crate) struct Interval {
    pub(crate) low: i128,
    pub(crate) high: i128,
}

// The greatest product of a coefficient and a number between bounds.
fn most_product(coef: i64, low: i64, high: i64) -> i128
    requires coef { unsigned_abs coef ≤ 2 ^ 40 }
    requires low { unsigned_abs low ≤ 4095 }
    requires high { unsigned_abs high ≤ 4095 }
    ensures most { (x : ℤ) → low ≤ℤ x → x ≤ℤ high → (coef *ℤ x) ≤ℤ result }
    ensures small { unsigned_abs result ≤ 2 ^ 65 }
{
    let first = product(coef, low);
    let last = product(coef, high);
    first.max(last)
}

// The most that coefficients give at numbers between bounds.
fn most(coef: &[i64], low: &[i64], high: &[i64]) -> i128
    requires coef { AtMost (2 ^ 40) coef.now }
    requires low { AtMost 4095 low.now }
    requires high { AtMost 4095 high.now }
    requires same { length high.now ≡ length low.now }
    requires fits { length low.now ≤ length coef.now }
    requires few { length low.now ≤ 4 }
    ensures most { (z : List ℤ) → length z ≡ length low.now
        → IsBetween low.now high.now z → dot coef.now z ≤ℤ result }
    ensures small { unsigned_abs result ≤ 2 ^ 67 }
{
    let mut sum: i128 = 0;
    for k in 0..low.len() {
        let term = most_product(coef[k], low[k], high[k]);
        sum += term;
    }
    sum
}

// The part of an interval at which a coefficient times the number, and what the rest gives, is not
// below 0.
fn restricted(coef: i64, rest: i128, span: Interval) -> Interval
    requires coef { unsigned_abs coef ≤ 2 ^ 40 }
    requires rest { unsigned_abs rest ≤ 2 ^ 70 }
    requires low { unsigned_abs span.low ≤ 2 ^ 70 }
    ensures keeps { (x : ℤ) → pos 0 ≤ℤ (coef *ℤ x +ℤ rest)
        → span.low ≤ℤ x → x ≤ℤ span.high → (result.low ≤ℤ x) × (x ≤ℤ result.high) }
    ensures above { span.low ≤ℤ result.low }
    ensures below { result.high ≤ℤ span.high }
    ensures low { unsigned_abs result.low ≤ 2 ^ 70 }
{
    let factor = coef as i128;
    if factor > 0 {
        let floor = rest.div_euclid(factor);
        Interval {
            low: span.low.max(-floor),
            high: span.high,
        }
    } else if factor < 0 {
        let floor = rest.div_euclid(-factor);
        Interval {
            low: span.low,
            high: span.high.min(floor),
        }
    } else if rest < 0 {
        Interval {
            low: span.low,
            high: span.high.min(span.low - 1),
        }
    } else {
        span
    }
}

// The part of an interval that a row leaves, where bounds are given for the indices after it.
fn narrowed(row: &Form, fixed: &[i64], low: &[i64], high: &[i64], span: Interval) -> Interval
    requires row { IsSmall row.now }
    requires fixed { AtMost 4095 fixed.now }
    requires later_low { AtMost 4095 low.now }
    requires later_high { AtMost 4095 high.now }
    requires same { length high.now ≡ length low.now }
    requires fits { length fixed.now + length low.now < 4 }
    requires low { unsigned_abs span.low ≤ 2 ^ 70 }
    ensures keeps { (x : ℤ) (z : List ℤ) → length z ≡ length low.now
        → IsBetween low.now high.now z → HoldsAt row.now (fixed.now ++ x ∷ z)
        → span.low ≤ℤ x → x ≤ℤ span.high → (result.low ≤ℤ x) × (x ≤ℤ result.high) }
    ensures above { span.low ≤ℤ result.low }
    ensures below { result.high ≤ℤ span.high }
    ensures low { unsigned_abs result.low ≤ 2 ^ 70 }
{
    let at = fixed.len();
    let coef = row.coef;
    let before = products(coef, fixed);
    let after = most(&coef[at + 1..], low, high);
    restricted(coef[at], before + row.constant as i128 + after, span)
}

/// The interval of the next index that the rows leave, where the first bounds are its own.
pub(crate) fn interval_of(rows: &[Form], fixed: &[i64], low: &[i64], high: &[i64]) -> Interval
    requires rows { All IsSmall rows.now }
    requires fixed { AtMost 4095 fixed.now }
    requires low { AtMost 4095 low.now }
    requires high { AtMost 4095 high.now }
    requires same { length high.now ≡ length low.now }
    requires some { 0 < length low.now }
    requires fits { length fixed.now + length low.now ≤ 4 }
    ensures keeps { (x : ℤ) (z : List ℤ)
        → length (x ∷ z) ≡ length low.now → IsBetween low.now high.now (x ∷ z)
        → Holds rows.now (fixed.now ++ x ∷ z) → (result.low ≤ℤ x) × (x ≤ℤ result.high) }
    ensures above { slice_index_or low.now 0 (pos 0) ≤ℤ result.low }
    ensures below { result.high ≤ℤ slice_index_or high.now 0 (pos 0) }
{
    let mut span = Interval {
        low: low[0] as i128,
        high: high[0] as i128,
    };
    for row in rows {
        span = narrowed(row, fixed, &low[1..], &high[1..], span);
    }
    span
}
