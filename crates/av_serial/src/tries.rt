//! Reductions against the causes for a fault.

ghost use Rattle.std.specs.Prelude.{◌≡◌, ◌≤◌, false, All, Any, IsTrue, IfOk, IfErr, OnOk, IfSome, IfNone, length};
ghost use Rattle.std.specs.List.{AllByRecursion};
ghost use Rattle.av_affine.specs.Forms.{IsWithinLimits};
ghost use Rattle.av_poly.specs.Normal.{AreNormalised};
ghost use Rattle.av_normal.specs.Extents.{IsExtent};
ghost use Rattle.av_normal.specs.Domains.{HasFourEntries, IsSmallExtent};
ghost use Rattle.av_serial.specs.Lines.{IsUnit};
ghost use Rattle.av_serial.specs.SerialFaults.{Reduced, HasPoint};
ghost use Rattle.av_serial.specs.inner.Tries.{IsTriable, IsClean, IsFaultOf, IsSteepOf, IsEndlessOf, IsLargeExtent, IsDomainOf};

use crate::SerialFault;
use crate::line::is_unit;
use av_affine::{Form, Map};
use av_base::{Memory, Name};
use av_elim::{Elim, bounds};
use av_flat::Quantity;
use av_normal::quantity_over;
use av_poly::{Bounds, Poly, normalised_copy};
use std::alloc::Global;

// ---- rows

// The set with normalised rows.
fn normal_set(alloc: Global, set: &Poly) -> Result<Poly, Memory>
    requires { All IsWithinLimits set.now.rows }
    ensures dim { IfOk result (λ to. to.dim ≡ set.now.dim) }
    ensures rows { IfOk result (λ to. AreNormalised set.now.dim set.now.rows to.rows) }
    ensures limits { IfOk result (λ to. All IsWithinLimits to.rows) }
{
    normalised_copy(alloc, set)
}

// Whether no row is steep.
fn all_units(map: &Map, rows: &[Form]) -> bool
    requires from { map.now.from ≤ 4 }
    requires rows { All IsWithinLimits rows.now }
    ensures units { IsTrue result → AllByRecursion (IsUnit map.now) rows.now }
    ensures steep { result ≡ false → Any (λ row. IsUnit map.now row → ⊥) rows.now }
{
    for row in rows {
        if !is_unit(map, row) {
            return false;
        }
    }
    true
}

// The set with normalised rows, where none is steep.
fn unit_set(alloc: Global, name: &Name, map: &Map, set: &Poly) -> Result<Poly, SerialFault>
    requires { IsTriable map.now set.now }
    ensures dim { IfOk result (λ domain. domain.dim ≡ set.now.dim) }
    ensures rows { IfOk result (λ domain. AreNormalised set.now.dim set.now.rows domain.rows) }
    ensures limits { IfOk result (λ domain. All IsWithinLimits domain.rows) }
    ensures units { IfOk result (λ domain. AllByRecursion (IsUnit map.now) domain.rows) }
    ensures steep { IfErr result
        (IsSteepOf (record { name = name.now; map = map.now; set = set.now })) }
{
    let domain = normal_set(alloc, set)?;
    if all_units(map, domain.rows.as_slice()) {
        Ok(domain)
    } else {
        Err(SerialFault::NonUnit(Name::new(alloc, name.as_str())?))
    }
}

// ---- ends

// The box of a set; None where it has no box.
fn extent(alloc: Global, name: &Name, domain: &Poly) -> Result<Option<Bounds>, SerialFault>
    requires dim { domain.now.dim ≤ 4 }
    requires rows { All IsWithinLimits domain.now.rows }
    requires few { length domain.now.rows ≤ 20 }
    ensures found { IfOk result (IsExtent domain.now) }
    ensures size { IfOk result HasFourEntries }
    ensures endless { IfErr result (IsEndlessOf name.now domain.now) }
{
    match bounds(alloc, domain) {
        Ok(extent) => Ok(Some(extent)),
        Err(Elim::Empty) => Ok(None),
        Err(Elim::Unbounded(_)) => Err(SerialFault::Unbounded(Name::new(alloc, name.as_str())?)),
        Err(Elim::Constraints(n)) => Err(SerialFault::Limit(Quantity::Constraints, n)),
        Err(Elim::Memory) => Err(SerialFault::Memory),
    }
}

// ---- boxes

// Tries a box where there is one.
fn extent_fits(extent: &Option<Bounds>) -> Result<(), SerialFault>
    ensures fit { OnOk result (IsSmallExtent extent.now) }
    ensures over { IfErr result (IsLargeExtent extent.now) }
{
    let Some(extent) = extent else {
        return Ok(());
    };
    match quantity_over(extent) {
        Some((quantity, number)) => Err(SerialFault::Limit(quantity, number)),
        None => Ok(()),
    }
}

// The set, where it has a point.
fn inhabited(domain: Poly, extent: &Option<Bounds>) -> Option<Poly>
    requires dim { domain.dim ≤ 4 }
    requires extent { IsExtent domain extent.now }
    requires size { HasFourEntries extent.now }
    requires small { IsSmallExtent extent.now }
    ensures same { IfSome result (λ to. to ≡ domain) }
    ensures some { IfSome result (λ to. HasPoint domain) }
    ensures none { IfNone result (HasPoint domain → ⊥) }
{
    match extent {
        Some(extent) => match domain.first_point(extent) {
            Some(_point) => Some(domain),
            None => None,
        },
        None => None,
    }
}

// ---- one reduction

/// Tries a reduction; where it has a point, its set with normalised rows.
pub(crate) fn reduction_domain(
    alloc: Global,
    name: &Name,
    map: &Map,
    set: &Poly,
) -> Result<Option<Poly>, SerialFault>
    requires { IsTriable map.now set.now }
    ensures clean { OnOk result
        (IsClean (record { name = name.now; map = map.now; set = set.now })) }
    ensures domain { IfOk result (IsDomainOf map.now set.now) }
    ensures cause { IfErr result
        (IsFaultOf (record { name = name.now; map = map.now; set = set.now })) }
{
    let domain = unit_set(alloc, name, map, set)?;
    let extent = extent(alloc, name, &domain)?;
    extent_fits(&extent)?;
    Ok(inhabited(domain, &extent))
}
