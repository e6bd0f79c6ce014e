//! What rows say of one index when no other is left in them.

ghost use Rattle.std.specs.Prelude.{◌≡◌, ◌≤◌, ◌<◌, ◌^◌, ◌<ℤ◌, ◌⊎◌, pos, suc, Some, None, unsigned_abs, All, IfSome, IfNone};
ghost use Rattle.std.specs.Int.{int_div_euclid};
ghost use Rattle.av_poly.specs.Rational.{homogeneous};
ghost use Rattle.av_elim.specs.inner.Rows.{line, factor, Small};
ghost use Rattle.av_elim.specs.inner.Step.{combination, pairs_of, eliminated};
ghost use Rattle.av_elim.specs.inner.Span.{higher, lower, stepped, scanned, whole};

use crate::eliminate::combined_number;
use av_affine::Form;

// The whole numbers from `low` to `high`, if `flat` holds: None is an unbounded side.
#[derive(Clone, Copy, Debug)]
pub(crate) struct Span {
    pub(crate) flat: bool,
    pub(crate) low: Option<i128>,
    pub(crate) high: Option<i128>,
}

// c over a, rounded down.
fn quotient(c: i128, a: i128) -> i128
    requires a { pos 0 <ℤ a }
    ensures value { result ≡ int_div_euclid c a }
    ensures small { unsigned_abs result ≤ unsigned_abs c }
{
    c.div_euclid(a)
}

// The greater of both, or the one that is there.
fn higher_of(low: Option<i128>, x: i128) -> i128
    ensures { result ≡ higher low x }
{
    match low {
        None => x,
        Some(y) => y.max(x),
    }
}

// The lesser of both, or the one that is there.
fn lower_of(high: Option<i128>, x: i128) -> i128
    ensures { result ≡ lower high x }
{
    match high {
        None => x,
        Some(y) => y.min(x),
    }
}

// One row a*x + c >= 0 more.
fn step(span: Span, a: i128, c: i128) -> Span
    requires a { unsigned_abs a ≤ 2 ^ 87 }
    requires c { unsigned_abs c ≤ 2 ^ 97 }
    ensures { result ≡ stepped a c span }
{
    if a == 0 {
        Span {
            flat: span.flat && !(c < 0),
            low: span.low,
            high: span.high,
        }
    } else if 0 < a {
        let x = -quotient(c, a);
        Span {
            flat: span.flat,
            low: Some(higher_of(span.low, x)),
            high: span.high,
        }
    } else {
        let x = quotient(c, -a);
        Span {
            flat: span.flat,
            low: span.low,
            high: Some(lower_of(span.high, x)),
        }
    }
}

// One row more, of the index alone.
fn row_step(span: Span, row: &Form, index: usize) -> Span
    requires index { index < 4 }
    requires row { Small (2 ^ 43) (line row.now) }
    ensures { result ≡ stepped (factor (suc index) (line row.now)) (factor 0 (line row.now)) span }
{
    step(span, row.coef[index] as i128, row.constant as i128)
}

// One row more, the combination of two without another index.
fn pair_step(span: Span, below: &Form, above: &Form, other: usize, index: usize) -> Span
    requires other { other < 4 }
    requires index { index < 4 }
    requires below { Small (2 ^ 43) (line below.now) }
    requires above { Small (2 ^ 43) (line above.now) }
    ensures { result ≡ stepped
        (factor (suc index) (combination (suc other) (line below.now) (line above.now)))
        (factor 0 (combination (suc other) (line below.now) (line above.now))) span }
{
    let low = below.coef[other];
    let high = above.coef[other];
    let a = combined_number(low, high, below.coef[index], above.coef[index]);
    let c = combined_number(low, high, below.constant, above.constant);
    step(span, a, c)
}

/// What rows say of an index that no other is left beside.
pub(crate) fn scan(rows: &[Form], index: usize) -> Span
    requires index { index < 4 }
    requires rows { All (λ r. Small (2 ^ 43) (line r)) rows.now }
    ensures { result ≡ scanned (suc index) (homogeneous rows.now) whole }
{
    let mut span = Span {
        flat: true,
        low: None,
        high: None,
    };
    for row in rows {
        span = row_step(span, row, index);
    }
    span
}

// The combinations of a row with each that bounds the other index from above.
fn scan_pairs(span: Span, below: &Form, rows: &[Form], other: usize, index: usize) -> Span
    requires other { other < 4 }
    requires index { index < 4 }
    requires below { Small (2 ^ 43) (line below.now) }
    requires rows { All (λ r. Small (2 ^ 43) (line r)) rows.now }
    ensures { result ≡ scanned
        (suc index) (pairs_of (suc other) (line below.now) (homogeneous rows.now)) span }
{
    let mut all = span;
    for above in rows {
        if above.coef[other] < 0 {
            all = pair_step(all, below, above, other, index);
        }
    }
    all
}

/// What rows say of an index once the only other one is eliminated. The combinations are not kept.
pub(crate) fn scan_without(rows: &[Form], other: usize, index: usize) -> Span
    requires other { other < 4 }
    requires index { index < 4 }
    requires rows { All (λ r. Small (2 ^ 43) (line r)) rows.now }
    ensures { result ≡ scanned (suc index) (eliminated (suc other) (homogeneous rows.now)) whole }
{
    let mut span = Span {
        flat: true,
        low: None,
        high: None,
    };
    for row in rows {
        if row.coef[other] == 0 {
            span = row_step(span, row, index);
        }
    }
    for below in rows {
        if below.coef[other] > 0 {
            span = scan_pairs(span, below, rows, other, index);
        }
    }
    span
}

/// Both ends, where there are both.
pub(crate) fn ends(span: Span) -> Option<(i128, i128)>
    ensures some { IfSome result (λ e. (span.low ≡ Some e.0) × (span.high ≡ Some e.1)) }
    ensures none { IfNone result ((span.low ≡ None) ⊎ (span.high ≡ None)) }
{
    match (span.low, span.high) {
        (Some(l), Some(h)) => Some((l, h)),
        _ => None,
    }
}
