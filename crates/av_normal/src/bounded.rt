//! The boxes of declared domains.

ghost use Rattle.std.specs.List.{AllByRecursion};
ghost use Rattle.std.specs.Prelude.{◌≤◌, All, IfOk, IfErr, OnOk, length, map};
ghost use Rattle.av_affine.specs.Forms.{IsWithinLimits};
ghost use Rattle.av_flat.specs.Trees.{view_variable};
ghost use Rattle.av_normal.specs.Pairwise.{Pairwise, IsFirstOf};
ghost use Rattle.av_normal.specs.Domains.{HasNarrowDomain, HasFourEntries, IsDeclaredExtent, IsEndless, IsEndlessOne, IsSmallExtent, IsLargeExtent};
ghost use Rattle.av_normal.specs.Extents.{IsExtent, IsEndlessOf};

use crate::NormalFault;
use crate::box_limit::quantity_over;
use av_base::{List, Name};
use av_elim::{Elim, bounds};
use av_flat::{Quantity, Var};
use av_poly::{Bounds, Poly, normalised_copy};
use std::alloc::Global;

// The box of a variable's domain, whose rows are normalised; None where it has no box.
fn extent(alloc: Global, name: &Name, domain: &Poly) -> Result<Option<Bounds>, NormalFault>
    requires dim { domain.now.dim ≤ 4 }
    requires rows { All IsWithinLimits domain.now.rows }
    requires few { length domain.now.rows ≤ 20 }
    ensures found { IfOk result (IsExtent domain.now) }
    ensures size { IfOk result HasFourEntries }
    ensures endless { IfErr result (IsEndlessOf name.now domain.now) }
{
    match bounds(alloc, domain) {
        Ok(extent) => Ok(Some(extent)),
        Err(Elim::Empty) => Ok(None),
        Err(Elim::Unbounded(_)) => Err(NormalFault::Unbounded(Name::new(alloc, name.as_str())?)),
        Err(Elim::Constraints(n)) => Err(NormalFault::Limit(Quantity::Constraints, n)),
        Err(Elim::Memory) => Err(NormalFault::Memory),
    }
}

// The box of a variable's declared domain; None where it has no box.
fn declared_extent(alloc: Global, var: &Var) -> Result<Option<Bounds>, NormalFault>
    requires { HasNarrowDomain (view_variable var.now) }
    ensures found { IfOk result (IsDeclaredExtent (view_variable var.now)) }
    ensures endless { IfErr result (IsEndlessOne (view_variable var.now)) }
{
    let domain = normalised_copy(alloc, &var.domain)?;
    extent(alloc, &var.name, &domain)
}

/// The boxes of the declared domains.
pub(crate) fn extents(alloc: Global, vars: &[Var]) -> Result<List<Option<Bounds>>, NormalFault>
    requires { AllByRecursion HasNarrowDomain (map view_variable vars.now) }
    ensures found { IfOk result (Pairwise IsDeclaredExtent (map view_variable vars.now)) }
    ensures endless { IfErr result (IsEndless (map view_variable vars.now)) }
{
    let mut extents = List::new(alloc);
    for var in vars {
        extents.push(declared_extent(alloc, var)?)?;
    }
    Ok(extents)
}

// Tries a box where there is one.
fn extent_fits(extent: &Option<Bounds>) -> Result<(), NormalFault>
    ensures fit { OnOk result (IsSmallExtent extent.now) }
    ensures over { IfErr result (λ fault. IsLargeExtent fault extent.now) }
{
    let Some(extent) = extent else {
        return Ok(());
    };
    match quantity_over(extent) {
        Some((quantity, number)) => Err(NormalFault::Limit(quantity, number)),
        None => Ok(()),
    }
}

/// Tries each box.
pub(crate) fn boxes_fit(extents: &[Option<Bounds>]) -> Result<(), NormalFault>
    ensures fit { OnOk result (AllByRecursion IsSmallExtent extents.now) }
    ensures over { IfErr result (λ fault.
        IsFirstOf IsSmallExtent (IsLargeExtent fault) extents.now) }
{
    for extent in extents {
        extent_fits(extent)?;
    }
    Ok(())
}
