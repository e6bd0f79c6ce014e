//! Boxes around sets whose points have coordinates within the limit.

ghost use Rattle.std.specs.Prelude.{ℤ, List as Items, ◌≡◌, ◌≤◌, length, map, IfOk, IfSome, IfNone, All};
ghost use Rattle.av_affine.specs.Numbers.{AtMost};
ghost use Rattle.av_affine.specs.Forms.{IsWithinLimits};
ghost use Rattle.av_poly.specs.Points.{Has};
ghost use Rattle.av_poly.specs.Search.{IsBetween};
ghost use Rattle.av_elim.specs.Extents.{IsOrdinary, IsInside};
ghost use Rattle.av_elim.specs.inner.Clamped.{clamp};

use crate::{Elim, bounds};
use av_affine::four;
use av_base::Memory;
use av_base::limits::MOST_COORDINATE;
use av_poly::{Bounds, Poly, normalised_copy};
use std::alloc::Global;

const MOST: i128 = MOST_COORDINATE as i128;

// The nearest number of at most 4,095 in absolute value.
fn nearest(number: i128) -> i128
    ensures { result ≡ clamp number }
{
    number.min(MOST).max(-MOST)
}

// The nearest of each of the numbers.
fn nearest_of(numbers: [i128; 4]) -> [i128; 4]
    ensures { result ≡ map clamp numbers }
{
    four!(index => nearest(numbers[index]))
}

// The box without what is above 4,095.
fn clipped(extent: &Bounds) -> Bounds
    ensures low { AtMost 4095 result.low }
    ensures high { AtMost 4095 result.high }
    ensures between { (z : Items ℤ) → AtMost 4095 z
        → IsBetween extent.now.low extent.now.high z → IsBetween result.low result.high z }
{
    Bounds {
        low: nearest_of(extent.low),
        high: nearest_of(extent.high),
    }
}

// The box of all points whose coordinates are at most 4,095.
fn widest() -> Bounds
    ensures low { AtMost 4095 result.low }
    ensures high { AtMost 4095 result.high }
    ensures between { (z : Items ℤ) → length z ≤ 4
        → AtMost 4095 z → IsBetween result.low result.high z }
{
    Bounds {
        low: [-MOST, -MOST, -MOST, -MOST],
        high: [MOST, MOST, MOST, MOST],
    }
}

/// A box that no point of the domain is outside of; None where it has no point.
pub fn box_of(alloc: Global, domain: &Poly) -> Result<Option<Bounds>, Memory>
    requires ordinary { IsOrdinary domain.now.dim domain.now }
    requires dim { domain.now.dim ≤ 4 }
    requires small { (z : Items ℤ) → Has domain.now z → AtMost 4095 z }
    ensures low { IfOk result (λ o. IfSome o (λ extent. AtMost 4095 extent.low)) }
    ensures high { IfOk result (λ o. IfSome o (λ extent. AtMost 4095 extent.high)) }
    ensures inside { IfOk result (λ o.
        IfSome o (λ extent. IsInside domain.now.dim extent domain.now)) }
    ensures empty { IfOk result (λ o. IfNone o ((z : Items ℤ) → Has domain.now z → ⊥)) }
{
    match bounds(alloc, &normalised_copy(alloc, domain)?) {
        Ok(extent) => Ok(Some(clipped(&extent))),
        Err(Elim::Empty) => Ok(None),
        Err(Elim::Memory) => Err(Memory),
        Err(Elim::Unbounded(_)) | Err(Elim::Constraints(_)) => Ok(Some(widest())),
    }
}
