//! The least point that no set has.

ghost use Rattle.std.specs.Prelude.{ℤ, ℕ, List as Items, ◌≡◌, ◌≤◌, ◌^◌, ◌<◌, ◌↔◌, ◌⊎◌, unsigned_abs, IfOk, OnOk, All};
ghost use Rattle.av_affine.specs.Numbers.{AtMost};
ghost use Rattle.av_poly.specs.Points.{Has};
ghost use Rattle.av_check.specs.inner.Least.{IsLeast};
ghost use Rattle.av_elim.specs.Extents.{IsInside, IsOrdinary};
ghost use Rattle.av_check.specs.inner.Coverage.{coverage, IsInAny};

use crate::order::lesser;
use crate::sets::least_point;
use av_base::{List, Memory, Point};
use av_poly::{Bounds, Poly, normalised_copy};
use std::alloc::Global;

// Appends the parts that have a point.
fn append_parts(
    alloc: Global,
    dim: u8,
    extent: &Bounds,
    parts: &[Poly],
    to: &mut List<Poly>,
) -> Result<(), Memory>
    requires dim { dim ≤ 4 }
    requires low { AtMost 4095 extent.now.low }
    requires high { AtMost 4095 extent.now.high }
    requires parts { All (IsInside dim extent.now) parts.now }
    requires to { All (IsInside dim extent.now) to.old }
    ensures inside { OnOk result (All (IsInside dim extent.now) to.new) }
    ensures points { OnOk result ((z : Items ℤ)
        → IsInAny to.new z ↔ (IsInAny to.old z ⊎ IsInAny parts.now z)) }
{
    for part in parts {
        let part = normalised_copy(alloc, part)?;
        if least_point(&part, extent).is_some() {
            to.push(part)?;
        }
    }
    Ok(())
}

// What a set leaves of parts.
fn left_outside(
    alloc: Global,
    dim: u8,
    extent: &Bounds,
    parts: &[Poly],
    set: &Poly,
) -> Result<List<Poly>, Memory>
    requires dim { dim ≤ 4 }
    requires low { AtMost 4095 extent.now.low }
    requires high { AtMost 4095 extent.now.high }
    requires parts { All (IsInside dim extent.now) parts.now }
    requires set { IsOrdinary dim set.now }
    ensures inside { IfOk result (All (IsInside dim extent.now)) }
    ensures points { IfOk result (λ left. (z : Items ℤ)
        → IsInAny left z ↔ (IsInAny parts.now z × (Has set.now z → ⊥))) }
{
    let mut left = List::new(alloc);
    for part in parts {
        let outside = set.split_outside(alloc, part)?;
        append_parts(alloc, dim, extent, outside.as_slice(), &mut left)?;
    }
    Ok(left)
}

// What sets leave of a domain.
fn left_of(
    alloc: Global,
    extent: &Bounds,
    domain: &Poly,
    sets: &[Poly],
) -> Result<List<Poly>, Memory>
    requires dim { domain.now.dim ≤ 4 }
    requires low { AtMost 4095 extent.now.low }
    requires high { AtMost 4095 extent.now.high }
    requires inside { IsInside domain.now.dim extent.now domain.now }
    requires sets { All (IsOrdinary domain.now.dim) sets.now }
    ensures inside { IfOk result (All (IsInside domain.now.dim extent.now)) }
    ensures points { IfOk result (λ left. (z : Items ℤ)
        → IsInAny left z ↔ (Has domain.now z × (coverage z sets.now ≡ 0))) }
{
    let mut left = List::new(alloc);
    left.push(normalised_copy(alloc, domain)?)?;
    for set in sets {
        left = left_outside(alloc, domain.dim, extent, left.as_slice(), set)?;
    }
    Ok(left)
}

// The least point of parts.
fn least_of_parts(dim: u8, extent: &Bounds, parts: &[Poly]) -> Option<Point>
    requires dim { dim ≤ 4 }
    requires low { AtMost 4095 extent.now.low }
    requires high { AtMost 4095 extent.now.high }
    requires parts { All (IsInside dim extent.now) parts.now }
    ensures { IsLeast (IsInAny parts.now) result }
{
    let mut least = None;
    for part in parts {
        least = lesser(least, least_point(part, extent));
    }
    least
}

/// The least point of the domain that no set has.
pub(crate) fn least_left(
    alloc: Global,
    extent: &Bounds,
    domain: &Poly,
    sets: &[Poly],
) -> Result<Option<Point>, Memory>
    requires dim { domain.now.dim ≤ 4 }
    requires low { AtMost 4095 extent.now.low }
    requires high { AtMost 4095 extent.now.high }
    requires inside { IsInside domain.now.dim extent.now domain.now }
    requires sets { All (IsOrdinary domain.now.dim) sets.now }
    ensures { IfOk result (IsLeast (λ z. Has domain.now z × (coverage z sets.now ≡ 0))) }
{
    let left = left_of(alloc, extent, domain, sets)?;
    Ok(least_of_parts(domain.dim, extent, left.as_slice()))
}
