//! Maps composed outwards, step by step.

ghost use Rattle.std.specs.Prelude.{◌≡◌, ◌≢◌, [], ◌∷◌, All, IfOk, IfErr, IfSome, OnOk, map};
ghost use Rattle.av_affine.specs.Forms.{IsWithinLimits};
ghost use Rattle.av_affine.specs.Maps.{composition};
ghost use Rattle.av_flat.specs.Trees.{view};
ghost use Rattle.av_flat.specs.Pieces.{composed};
ghost use Rattle.av_flat.specs.Quantities.{of_map, steps, steps_under, composed_maps};
ghost use Rattle.av_normal.specs.Searches.{IsNarrow, AreNarrow, IsWideOne, IsWide};
ghost use Rattle.av_normal.specs.declared.fault.NormalFault.TheVariants as fault;
ghost use Rattle.av_normal.specs.inner.UnderMaps.{composed_under, AreChained, StandsUnder};

use crate::NormalFault;
use av_affine::{Map, Over};
use av_base::{List, Memory};
use av_flat::{Quantity, Tree, copy_map};
use std::alloc::Global;

// A map after one that it stands under.
fn step(own: &Map, outer: &Map) -> Result<Map, NormalFault>
    requires { AreChained (own.now ∷ outer.now ∷ []) }
    ensures composed { IfOk result (λ m. m ≡ composition own.now outer.now) }
    ensures limits { IfOk result (λ m. All IsWithinLimits m.rows) }
    ensures narrow { OnOk result (IsNarrow (of_map (composition own.now outer.now))) }
    ensures wide { IfErr result (IsWideOne (of_map (composition own.now outer.now))) }
{
    match own.compose(outer) {
        Ok(composed) => Ok(composed),
        Err(Over::Coefficient(n)) => Err(NormalFault::Limit(Quantity::Coefficient, n)),
        Err(Over::Constant(n)) => Err(NormalFault::Limit(Quantity::Constant, n)),
    }
}

/// The map after those that it stands under, of which the innermost comes first.
pub(crate) fn outwards(own: &Map, under: &[Map]) -> Result<Map, NormalFault>
    requires { AreChained (own.now ∷ under.now) }
    ensures composed { IfOk result (λ m. m ≡ composed own.now under.now) }
    ensures limits { IfOk result (λ m. All IsWithinLimits m.rows) }
    ensures narrow { OnOk result (AreNarrow (map of_map (steps own.now under.now))) }
    ensures first { IfErr result (IsWide (map of_map (steps own.now under.now))) }
    ensures over { IfErr result (λ f. f ≢ fault.Memory) }
{
    let mut whole = copy_map(own);
    for outer in under {
        whole = step(&whole, outer)?;
    }
    Ok(whole)
}

/// All maps as one, where there are any; the innermost comes first.
pub(crate) fn together(under: &[Map]) -> Result<Option<Map>, NormalFault>
    requires { AreChained under.now }
    ensures composed { IfOk result (λ m. m ≡ composed_under under.now) }
    ensures limits { IfOk result (λ m. IfSome m (λ whole. All IsWithinLimits whole.rows)) }
    ensures narrow { OnOk result (AreNarrow (map of_map (steps_under under.now))) }
    ensures first { IfErr result (IsWide (map of_map (steps_under under.now))) }
    ensures over { IfErr result (λ f. f ≢ fault.Memory) }
{
    if under.is_empty() {
        return Ok(None);
    }
    let whole = outwards(&under[0], &under[1..])?;
    Ok(Some(whole))
}

/// A map in front of those that it stands under.
pub fn prepend_map(alloc: Global, own: &Map, under: &[Map]) -> Result<List<Map>, Memory>
    ensures { IfOk result (λ inner. inner ≡ own.now ∷ under.now) }
{
    let mut inner = List::new(alloc);
    inner.push(copy_map(own))?;
    for outer in under {
        inner.push(copy_map(outer))?;
    }
    Ok(inner)
}

/// Tries each composed map of a tree, in the order of the text.
pub(crate) fn maps_fit(alloc: Global, under: &[Map], tree: &Tree) -> Result<(), NormalFault>
    requires { StandsUnder under.now (view tree.now) }
    ensures narrow { OnOk result
        (AreNarrow (map of_map (composed_maps under.now (view tree.now)))) }
    ensures first { IfErr result (IsWide (map of_map (composed_maps under.now (view tree.now)))) }
{
    match tree {
        Tree::Ref { map, .. } => {
            outwards(map, under)?;
            Ok(())
        }
        Tree::Const(_) | Tree::Pick { .. } => Ok(()),
        Tree::Binary { left, right, .. } => {
            maps_fit(alloc, under, left)?;
            maps_fit(alloc, under, right)
        }
        Tree::Choose {
            left,
            right,
            yes,
            no,
            ..
        } => {
            maps_fit(alloc, under, left)?;
            maps_fit(alloc, under, right)?;
            maps_fit(alloc, under, yes)?;
            maps_fit(alloc, under, no)
        }
        Tree::Restrict { body, .. } => {
            together(under)?;
            maps_fit(alloc, under, body)
        }
        Tree::Case { branches } => {
            for branch in branches.as_slice() {
                maps_fit(alloc, under, branch)?;
            }
            Ok(())
        }
        Tree::Depend { map, body } => {
            let inner = prepend_map(alloc, map, under)?;
            maps_fit(alloc, inner.as_slice(), body)
        }
        Tree::Reduce { body, .. } => maps_fit(alloc, &[], body),
    }
}
