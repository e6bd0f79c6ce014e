//! The least point that two sets have.

ghost use Rattle.std.specs.Prelude.{◌≤◌, IfOk, All, ◌≡◌};
ghost use Rattle.av_affine.specs.Numbers.{AtMost};
ghost use Rattle.av_poly.specs.Points.{Has};
ghost use Rattle.av_check.specs.inner.Least.{IsLeast};
ghost use Rattle.av_elim.specs.Extents.{IsInside};
ghost use Rattle.av_check.specs.inner.Coverage.{IsShared, IsSharedBy};

use crate::order::lesser;
use crate::sets::least_point;
use av_base::{List, Memory, Point};
use av_poly::{Bounds, Poly, normalised_copy};
use std::alloc::Global;

// The least point of the domain that both sets have.
fn least_of_both(
    alloc: Global,
    domain: &Poly,
    extent: &Bounds,
    some: &Poly,
    other: &Poly,
) -> Result<Option<Point>, Memory>
    requires dim { domain.now.dim ≤ 4 }
    requires low { AtMost 4095 extent.now.low }
    requires high { AtMost 4095 extent.now.high }
    requires inside { IsInside domain.now.dim extent.now domain.now }
    requires some { some.now.dim ≡ domain.now.dim }
    requires other { other.now.dim ≡ domain.now.dim }
    ensures { IfOk result (IsLeast (λ z. Has domain.now z × Has some.now z × Has other.now z)) }
{
    let both = some.meet(alloc, other)?;
    let all = domain.meet(alloc, &both)?;
    Ok(least_point(&normalised_copy(alloc, &all)?, extent))
}

// The least point of the domain that the set has and one of the others.
fn least_with_others(
    alloc: Global,
    domain: &Poly,
    extent: &Bounds,
    set: &Poly,
    others: &[Poly],
) -> Result<Option<Point>, Memory>
    requires dim { domain.now.dim ≤ 4 }
    requires low { AtMost 4095 extent.now.low }
    requires high { AtMost 4095 extent.now.high }
    requires inside { IsInside domain.now.dim extent.now domain.now }
    requires set { set.now.dim ≡ domain.now.dim }
    requires others { All (λ other. other.dim ≡ domain.now.dim) others.now }
    ensures { IfOk result (IsLeast (IsSharedBy domain.now set.now others.now)) }
{
    let mut least = None;
    for other in others {
        let next = least_of_both(alloc, domain, extent, set, other)?;
        least = lesser(least, next);
    }
    Ok(least)
}

/// The least point of the domain that two sets or more have.
pub(crate) fn least_overlap(
    alloc: Global,
    domain: &Poly,
    extent: &Bounds,
    sets: &[Poly],
) -> Result<Option<Point>, Memory>
    requires dim { domain.now.dim ≤ 4 }
    requires low { AtMost 4095 extent.now.low }
    requires high { AtMost 4095 extent.now.high }
    requires inside { IsInside domain.now.dim extent.now domain.now }
    requires sets { All (λ set. set.dim ≡ domain.now.dim) sets.now }
    ensures { IfOk result (IsLeast (IsShared domain.now sets.now)) }
{
    let mut least = None;
    for k in 0..sets.len() {
        let next = least_with_others(alloc, domain, extent, &sets[k], &sets[..k])?;
        least = lesser(least, next);
    }
    Ok(least)
}
