//! How many pieces trees and equations have, where what 128 bits do not hold counts as the greatest that they do.

ghost use Rattle.std.specs.Prelude.{◌≡◌, ◌-◌, ◌^◌, IfSome, IfNone, IfErr, OnOk, min, map};
ghost use Rattle.av_flat.specs.Trees.{view, view_piece, view_variable, trees_of};
ghost use Rattle.av_flat.specs.Quantities.{piece_count, piece_count_of_all};
ghost use Rattle.av_normal.specs.inner.Counted.{pieces_counted, HasMany, IsOfFew, HasFew, IsOfMany};

use crate::NormalFault;
use av_base::limits::MOST_PIECES;
use av_flat::{Piece, Tree, Var};

/// How many pieces a tree has.
#[cycle(count)]
pub(crate) fn piece_count(tree: &Tree) -> u128
    ensures { result ≡ min (piece_count (view tree.now)) (2 ^ 128 - 1) }
{
    match tree {
        Tree::Ref { .. } | Tree::Const(_) | Tree::Reduce { .. } | Tree::Pick { .. } => 1,
        Tree::Binary { left, right, .. } => piece_count(left).saturating_mul(piece_count(right)),
        Tree::Choose {
            left,
            right,
            yes,
            no,
            ..
        } => {
            let compared = piece_count(left).saturating_mul(piece_count(right));
            let first = compared.saturating_mul(piece_count(yes));
            first.saturating_mul(piece_count(no))
        }
        Tree::Restrict { body, .. } | Tree::Depend { body, .. } => piece_count(body),
        Tree::Case { branches } => piece_count_of_all(branches.as_slice()),
    }
}

#[cycle(count)]
fn piece_count_of_all(trees: &[Tree]) -> u128
    ensures { result ≡ min (piece_count_of_all (trees_of (map view trees.now))) (2 ^ 128 - 1) }
{
    let mut count: u128 = 0;
    for tree in trees {
        count = count.saturating_add(piece_count(tree));
    }
    count
}

// How many pieces the equation has whose right side these pieces are.
fn equation_count(pieces: &[Piece]) -> u128
    ensures { result ≡ min (pieces_counted (map view_piece pieces.now)) (2 ^ 128 - 1) }
{
    let mut count: u128 = 0;
    for piece in pieces {
        count = count.saturating_add(piece_count(&piece.tree));
    }
    count
}

// How many pieces a variable's equation has, where it has one with too many.
fn many_pieces(var: &Var) -> Option<u128>
    ensures some { IfSome result (HasMany (view_variable var.now)) }
    ensures none { IfNone result (IsOfFew (view_variable var.now)) }
{
    let count = equation_count(var.pieces.as_slice());
    if var.kind.is_computed() && count > MOST_PIECES {
        Some(count)
    } else {
        None
    }
}

/// Tries the number of pieces of each equation.
pub(crate) fn few_pieces(vars: &[Var]) -> Result<(), NormalFault>
    ensures few { OnOk result (HasFew (map view_variable vars.now)) }
    ensures many { IfErr result (IsOfMany (map view_variable vars.now)) }
{
    for var in vars {
        if let Some(count) = many_pieces(var) {
            return Err(NormalFault::Pieces(count));
        }
    }
    Ok(())
}
