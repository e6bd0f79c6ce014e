//! The least value of a linear part over a set, by halving.

ghost use Rattle.std.specs.Prelude.{ℤ, List as Items, ◌≡◌, ◌≤◌, ◌<◌, pos, ◌-ℤ◌, ◌≤ℤ◌, ◌<ℤ◌, [], ◌∷◌, length, unsigned_abs, IfOk, slice_index_or};
ghost use Rattle.std.proofs.Math.IntN.{neg_ℤ};
ghost use Rattle.av_affine.specs.Numbers.{AtMost};
ghost use Rattle.av_poly.specs.Points.{Has};
ghost use Rattle.av_elim.specs.Extents.{IsOrdinary, IsInside};
ghost use Rattle.av_sched.specs.inner.Starts.{row_at_most, IsSpanned, IsLeastValue};

use crate::lead::products;
use av_affine::{Form, four};
use av_base::{List, Memory, Point};
use av_elim::box_of;
use av_poly::{Bounds, Poly};
use std::alloc::Global;

// The entry at a place with its sign turned, and 0 past the end.
fn turned(linear: &[i64], k: usize) -> i64
    requires { AtMost 4 linear.now }
    ensures value { result ≡ neg_ℤ (slice_index_or linear.now k (pos 0)) }
    ensures small { unsigned_abs result ≤ 4 }
{
    if k < linear.len() { -linear[k] } else { 0 }
}

// The row that holds where the value is at most this.
fn row_of(linear: &Point, most: i64) -> Form
    requires { AtMost 4 linear.now }
    ensures row { result ≡ row_at_most linear.now most }
    ensures small { AtMost 4 result.coef }
    ensures constant { result.constant ≡ most }
{
    let entries = linear.as_slice();
    Form {
        coef: four!(index => turned(entries, index)),
        constant: most,
    }
}

// The points at which the value is at most this.
fn half(alloc: Global, dim: u8, linear: &Point, most: i64) -> Result<Poly, Memory>
    requires linear { AtMost 4 linear.now }
    requires most { unsigned_abs most ≤ 131072 }
    ensures dim { IfOk result (λ p. p.dim ≡ dim) }
    ensures rows { IfOk result (λ p. p.rows ≡ row_at_most linear.now most ∷ []) }
{
    let mut rows = List::new(alloc);
    rows.push(row_of(linear, most))?;
    Ok(Poly { dim, rows })
}

// A number from the first on that is below the second.
fn middle_of(low: i64, value: i64) -> i64
    requires low { unsigned_abs low ≤ 131072 }
    requires value { unsigned_abs value ≤ 131072 }
    requires apart { low <ℤ value }
    ensures above { low ≤ℤ result }
    ensures below { result <ℤ value }
{
    (low + value).div_euclid(2)
}

// Bounds that are closer to each other: the middle is tried.
fn narrowed(
    alloc: Global,
    domain: &Poly,
    extent: &Bounds,
    linear: &Point,
    low: i64,
    value: i64,
) -> Result<(i64, i64), Memory>
    requires dim { domain.now.dim ≤ 4 }
    requires size { length linear.now ≡ domain.now.dim }
    requires linear { AtMost 4 linear.now }
    requires low_box { AtMost 4095 extent.now.low }
    requires high_box { AtMost 4095 extent.now.high }
    requires inside { IsInside domain.now.dim extent.now domain.now }
    requires points { (z : Items ℤ) → Has domain.now z → AtMost 4095 z }
    requires spanned { IsSpanned domain.now linear.now low value }
    requires apart { low <ℤ value }
    ensures spanned { IfOk result (λ r. IsSpanned domain.now linear.now r.0 r.1) }
    ensures closer { IfOk result (λ r. unsigned_abs (r.1 -ℤ r.0) < unsigned_abs (value -ℤ low)) }
{
    let middle = middle_of(low, value);
    let part = half(alloc, domain.dim, linear, middle)?;
    let cut = domain.meet(alloc, &part)?;
    match cut.first_point(extent) {
        Some(z) => Ok((low, products(linear.as_slice(), z.as_slice()))),
        None => Ok((middle + 1, value)),
    }
}

/// The least value over the points of the set; None where it has no point.
pub(crate) fn least_value(
    alloc: Global,
    domain: &Poly,
    linear: &Point,
) -> Result<Option<i64>, Memory>
    requires ordinary { IsOrdinary domain.now.dim domain.now }
    requires dim { domain.now.dim ≤ 4 }
    requires size { length linear.now ≡ domain.now.dim }
    requires linear { AtMost 4 linear.now }
    requires points { (z : Items ℤ) → Has domain.now z → AtMost 4095 z }
    ensures { IfOk result (IsLeastValue domain.now linear.now) }
{
    let extent = match box_of(alloc, domain)? {
        Some(extent) => extent,
        None => return Ok(None),
    };
    let first = match domain.first_point(&extent) {
        Some(first) => first,
        None => return Ok(None),
    };
    let mut low: i64 = -131072;
    let mut value = products(linear.as_slice(), first.as_slice());
    while low < value {
        let closer = narrowed(alloc, domain, &extent, linear, low, value)?;
        low = closer.0;
        value = closer.1;
    }
    Ok(Some(value))
}
