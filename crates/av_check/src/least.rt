//! The least point of a domain that not just one of some sets has, found from the sets: the points that two of them
//! have, and what they leave of the domain.

ghost use Rattle.std.specs.Prelude.{ℤ, List as Items, ◌≤◌, IfOk, All};
ghost use Rattle.av_affine.specs.Numbers.{AtMost};
ghost use Rattle.av_poly.specs.Points.{Has};
ghost use Rattle.av_check.specs.inner.Least.{IsLeast};
ghost use Rattle.av_elim.specs.Extents.{IsInside, IsOrdinary};
ghost use Rattle.av_check.specs.inner.Coverage.{IsOff};

use crate::order::lesser;
use crate::outside::least_left;
use crate::overlap::least_overlap;
use av_base::{Memory, Point};
use av_elim::box_of;
use av_poly::{Bounds, Poly};
use std::alloc::Global;

// The least point of a domain that not just one of the sets has, between bounds of the domain.
fn least_between(
    alloc: Global,
    extent: &Bounds,
    domain: &Poly,
    sets: &[Poly],
) -> Result<Option<Point>, Memory>
    requires dim { domain.now.dim ≤ 4 }
    requires low { AtMost 4095 extent.now.low }
    requires high { AtMost 4095 extent.now.high }
    requires inside { IsInside domain.now.dim extent.now domain.now }
    requires sets { All (IsOrdinary domain.now.dim) sets.now }
    ensures { IfOk result (IsLeast (IsOff domain.now sets.now)) }
{
    let shared = least_overlap(alloc, domain, extent, sets)?;
    let left = least_left(alloc, extent, domain, sets)?;
    Ok(lesser(shared, left))
}

/// The least point of the domain that not just one of the sets has.
pub(crate) fn least_miscovered(
    alloc: Global,
    domain: &Poly,
    sets: &[Poly],
) -> Result<Option<Point>, Memory>
    requires ordinary { IsOrdinary domain.now.dim domain.now }
    requires dim { domain.now.dim ≤ 4 }
    requires small { (z : Items ℤ) → Has domain.now z → AtMost 4095 z }
    requires sets { All (IsOrdinary domain.now.dim) sets.now }
    ensures { IfOk result (IsLeast (IsOff domain.now sets.now)) }
{
    match box_of(alloc, domain)? {
        Some(extent) => least_between(alloc, &extent, domain, sets),
        None => Ok(None),
    }
}
