//! Whether a piece has a point.

ghost use Rattle.std.specs.Prelude.{ℤ, List as Items, ◌≤◌, ◌≤ℤ◌, All, IfOk, unsigned_abs};
ghost use Rattle.av_affine.specs.Numbers.{AtMost};
ghost use Rattle.av_affine.specs.Forms.{IsWithinLimits};
ghost use Rattle.av_poly.specs.Points.{Has};
ghost use Rattle.av_poly.specs.Search.{IsBetween};
ghost use Rattle.av_normal.specs.Extents.{IsReach, SaysPoint};

use av_affine::four;
use av_base::Memory;
use av_elim::{Elim, bounds};
use av_poly::{Bounds, Poly};
use std::alloc::Global;

// The greater of two lower bounds, at most an upper one.
fn lower(own: i128, low: i128, high: i128) -> i128
    requires low { unsigned_abs low ≤ 4095 }
    requires high { unsigned_abs high ≤ 4095 }
    ensures small { unsigned_abs result ≤ 4095 }
    ensures below { (x : ℤ) → own ≤ℤ x → low ≤ℤ x → x ≤ℤ high → result ≤ℤ x }
{
    own.max(low).min(high)
}

// The lesser of two upper bounds, at least a lower one.
fn upper(own: i128, low: i128, high: i128) -> i128
    requires low { unsigned_abs low ≤ 4095 }
    requires high { unsigned_abs high ≤ 4095 }
    ensures small { unsigned_abs result ≤ 4095 }
    ensures above { (x : ℤ) → x ≤ℤ own → low ≤ℤ x → x ≤ℤ high → x ≤ℤ result }
{
    own.min(high).max(low)
}

// What two boxes have in common, as bounds that are as small as the second ones.
fn common(own: &Bounds, within: &Bounds) -> Bounds
    requires low { AtMost 4095 within.now.low }
    requires high { AtMost 4095 within.now.high }
    ensures low { AtMost 4095 result.low }
    ensures high { AtMost 4095 result.high }
    ensures between { (z : Items ℤ) → IsBetween own.now.low own.now.high z
        → IsBetween within.now.low within.now.high z → IsBetween result.low result.high z }
{
    let least = own.low;
    let most = own.high;
    let low = within.low;
    let high = within.high;
    Bounds {
        low: four!(index => lower(least[index], low[index], high[index])),
        high: four!(index => upper(most[index], low[index], high[index])),
    }
}

// Where the points of a set may be that has none outside a box; None where it has no point.
fn reach(alloc: Global, set: &Poly, within: &Bounds) -> Result<Option<Bounds>, Memory>
    requires dim { set.now.dim ≤ 4 }
    requires rows { All IsWithinLimits set.now.rows }
    requires low { AtMost 4095 within.now.low }
    requires high { AtMost 4095 within.now.high }
    requires inside { (z : Items ℤ) → Has set.now z → IsBetween within.now.low within.now.high z }
    ensures { IfOk result (IsReach set.now) }
{
    match bounds(alloc, set) {
        Ok(own) => Ok(Some(common(&own, within))),
        Err(Elim::Empty) => Ok(None),
        Err(Elim::Memory) => Err(Memory),
        Err(Elim::Unbounded(_)) | Err(Elim::Constraints(_)) => Ok(Some(*within)),
    }
}

/// Whether a set that has no point outside a box has one.
pub(crate) fn has_point(alloc: Global, set: &Poly, within: &Bounds) -> Result<bool, Memory>
    requires dim { set.now.dim ≤ 4 }
    requires rows { All IsWithinLimits set.now.rows }
    requires low { AtMost 4095 within.now.low }
    requires high { AtMost 4095 within.now.high }
    requires inside { (z : Items ℤ) → Has set.now z → IsBetween within.now.low within.now.high z }
    ensures { IfOk result (SaysPoint set.now) }
{
    let Some(reach) = reach(alloc, set, within)? else {
        return Ok(false);
    };
    match set.first_point(&reach) {
        Some(_point) => Ok(true),
        None => Ok(false),
    }
}
