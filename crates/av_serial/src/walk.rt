//! All reductions, each against the causes for a fault, and how many chains they become, where what 128 bits do not hold
//! counts as the greatest number that they do.

ghost use Rattle.std.specs.Prelude.{IfOk, IfErr, OnOk, map};
ghost use Rattle.std.specs.List.{AllByRecursion, flat_map};
ghost use Rattle.av_flat.specs.Trees.{view, view_piece, view_variable};
ghost use Rattle.av_serial.specs.SerialFaults.{reductions_in, HasNodes, HaveNodes, HasNodesIn};
ghost use Rattle.av_serial.specs.inner.Counted.{IsCapped};
ghost use Rattle.av_serial.specs.inner.Tries.{IsClean, IsFaultOfFirst, CanTry, CanTryPieces, CanTryAll};

use crate::SerialFault;
use crate::tries::reduction_domain;
use av_base::Name;
use av_flat::{Piece, Tree, Var};
use std::alloc::Global;

// Tries each reduction in a tree, outer ones before inner ones, and counts those that become chains.
fn tree_nodes(alloc: Global, name: &Name, tree: &Tree) -> Result<u128, SerialFault>
    requires { CanTry (view tree.now) }
    ensures clean { OnOk result (AllByRecursion IsClean (reductions_in name.now (view tree.now))) }
    ensures nodes { IfOk result (IsCapped (HasNodes (view tree.now))) }
    ensures bad { IfErr result (IsFaultOfFirst (reductions_in name.now (view tree.now))) }
{
    match tree {
        Tree::Binary { left, right, .. } => {
            let left = tree_nodes(alloc, name, left)?;
            let right = tree_nodes(alloc, name, right)?;
            Ok(left.saturating_add(right))
        }
        Tree::Choose {
            left,
            right,
            yes,
            no,
            ..
        } => {
            let left = tree_nodes(alloc, name, left)?;
            let right = tree_nodes(alloc, name, right)?;
            let yes = tree_nodes(alloc, name, yes)?;
            let no = tree_nodes(alloc, name, no)?;
            let branches = yes.saturating_add(no);
            let others = right.saturating_add(branches);
            Ok(left.saturating_add(others))
        }
        Tree::Reduce { map, body, set, .. } => {
            let domain = reduction_domain(alloc, name, map, set)?;
            let inside = tree_nodes(alloc, name, body)?;
            match domain {
                Some(_domain) => Ok(inside.saturating_add(1)),
                None => Ok(0),
            }
        }
        _ => Ok(0),
    }
}

// Tries each reduction in the pieces of an equation.
fn pieces_nodes(alloc: Global, name: &Name, pieces: &[Piece]) -> Result<u128, SerialFault>
    requires { CanTryPieces (map view_piece pieces.now) }
    ensures clean { OnOk result (AllByRecursion IsClean
        (flat_map (λ p. reductions_in name.now p.tree) (map view_piece pieces.now))) }
    ensures nodes { IfOk result
        (IsCapped (HaveNodes (λ p. HasNodes p.tree) (map view_piece pieces.now))) }
    ensures bad { IfErr result (IsFaultOfFirst
        (flat_map (λ p. reductions_in name.now p.tree) (map view_piece pieces.now))) }
{
    let mut count: u128 = 0;
    for piece in pieces {
        let more = tree_nodes(alloc, name, &piece.tree)?;
        count = count.saturating_add(more);
    }
    Ok(count)
}

/// Tries each reduction of a system.
pub(crate) fn all_nodes(alloc: Global, vars: &[Var]) -> Result<u128, SerialFault>
    requires { CanTryAll (map view_variable vars.now) }
    ensures clean { OnOk result (AllByRecursion IsClean (flat_map
        (λ v. flat_map (λ p. reductions_in v.name p.tree) v.pieces) (map view_variable vars.now))) }
    ensures nodes { IfOk result (IsCapped (HaveNodes HasNodesIn (map view_variable vars.now))) }
    ensures bad { IfErr result (IsFaultOfFirst (flat_map
        (λ v. flat_map (λ p. reductions_in v.name p.tree) v.pieces) (map view_variable vars.now))) }
{
    let mut count: u128 = 0;
    for var in vars {
        let more = pieces_nodes(alloc, &var.name, var.pieces.as_slice())?;
        count = count.saturating_add(more);
    }
    Ok(count)
}
