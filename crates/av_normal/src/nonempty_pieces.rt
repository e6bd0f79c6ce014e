//! The variables with their kept pieces alone.

ghost use Rattle.std.specs.Prelude.{◌≡◌, [], ◌∷◌, ◌++◌, IfOk, OnOk, cond, map};
ghost use Rattle.std.specs.List.{AllByRecursion};
ghost use Rattle.av_affine.specs.Numbers.{AtMost};
ghost use Rattle.av_flat.specs.Trees.{view_piece, view_variable};
ghost use Rattle.av_normal.specs.Pairwise.{Pairwise};
ghost use Rattle.av_normal.specs.inner.NonemptyPieces.{AreHeld, AreNonemptyPieces, HasNonemptyPieces, IsInside, IsHeld};

use crate::keep::has_point;
use av_base::{List, Memory};
use av_flat::{Piece, Var};
use av_poly::Bounds;
use std::alloc::Global;

// Appends a piece where it stays, and drops it else.
fn push_where(stays: bool, kept: &mut List<Piece>, piece: Piece) -> Result<(), Memory>
    ensures { OnOk result (kept.new ≡ cond stays (kept.old ++ piece ∷ []) kept.old) }
{
    if stays { kept.push(piece) } else { Ok(()) }
}

// The pieces that have a point, where none has one outside a box.
fn pieces_within(alloc: Global, pieces: List<Piece>, within: &Bounds) -> Result<List<Piece>, Memory>
    requires low { AtMost 4095 within.now.low }
    requires high { AtMost 4095 within.now.high }
    requires inside { AllByRecursion (IsInside within.now) (map view_piece pieces) }
    ensures { IfOk result (λ made.
        AreNonemptyPieces (map view_piece pieces) (map view_piece made)) }
{
    let mut kept = List::new(alloc);
    for piece in pieces.into_vec() {
        let stays = has_point(alloc, &piece.domain, within)?;
        push_where(stays, &mut kept, piece)?;
    }
    Ok(kept)
}

// The pieces of a variable that have a point; where its domain has no box, none has one.
fn kept_pieces(
    alloc: Global,
    pieces: List<Piece>,
    extent: &Option<Bounds>,
) -> Result<List<Piece>, Memory>
    requires { AreHeld (map view_piece pieces) extent.now }
    ensures { IfOk result (λ made.
        AreNonemptyPieces (map view_piece pieces) (map view_piece made)) }
{
    match extent {
        Some(within) => pieces_within(alloc, pieces, within),
        None => Ok(List::new(alloc)),
    }
}

// A variable with its kept pieces.
fn kept_variable(alloc: Global, var: Var, extent: &Option<Bounds>) -> Result<Var, Memory>
    requires { IsHeld (view_variable var) extent.now }
    ensures { IfOk result (λ made. HasNonemptyPieces (view_variable var) (view_variable made)) }
{
    let pieces = kept_pieces(alloc, var.pieces, extent)?;
    Ok(Var { pieces, ..var })
}

/// The variables with their kept pieces.
pub(crate) fn kept_variables(
    alloc: Global,
    vars: List<Var>,
    extents: &[Option<Bounds>],
) -> Result<List<Var>, Memory>
    requires { Pairwise IsHeld (map view_variable vars) extents.now }
    ensures { IfOk result (λ made.
        Pairwise HasNonemptyPieces (map view_variable vars) (map view_variable made)) }
{
    let mut kept = List::new(alloc);
    for (var, extent) in vars.into_vec().into_iter().zip(extents) {
        kept.push(kept_variable(alloc, var, extent)?)?;
    }
    Ok(kept)
}
