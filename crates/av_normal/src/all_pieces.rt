//! The pieces of each variable before any is dropped, measured.

ghost use Rattle.std.specs.Prelude.{List as Items, ℕ, ℤ, false, IsTrue, ◌≡◌, ◌<◌, ◌≤◌, [], ◌∷◌, ◌++◌, All, IfOk, IfErr, OnOk, map};
ghost use Rattle.av_affine.specs.Forms.{IsWithinLimits};
ghost use Rattle.av_poly.specs.Points.{Has};
ghost use Rattle.av_flat.specs.Trees.{view, view_piece, view_variable, view_system};
ghost use Rattle.av_flat.specs.Signatures.{signatures};
ghost use Rattle.av_flat.specs.WellFormed.{IsWellFormed, IsWellFormedVariable};
ghost use Rattle.av_flat.specs.Pieces.{Part, parts, with_rows, filled};
ghost use Rattle.av_flat.specs.Quantities.{of_set, measured, body_sets, piece_count};
ghost use Rattle.av_normal.specs.inner.Counted.{HasFew, IsOfFew};
ghost use Rattle.av_normal.specs.NormalForm.{set_of};
ghost use Rattle.av_normal.specs.NormalFaults.{HasNarrowSets};
ghost use Rattle.av_normal.specs.inner.Numbered.{part_at, signatures_of};
ghost use Rattle.av_normal.specs.Searches.{IsNarrow, AreNarrow, IsWide};
ghost use Rattle.av_normal.specs.inner.UnderMaps.{IsReadable, StandsUnder};
ghost use Rattle.av_normal.specs.inner.ReductionSets.{has_reduction};
ghost use Rattle.av_normal.specs.inner.Sketches.{sketches};
ghost use Rattle.av_normal.specs.inner.Making.{maps_measured, parts_measured, bodies_measured, held, held_parts, filled_part, StandsIn, IsMade, AreMade, AreAdded, IsParted, IsHolder};
ghost use Rattle.av_normal.specs.inner.AllPieces.{IsPieceOfPart, ArePiecesOfParts, HasAllPieces, HaveAllPieces, IsWideIn};

use crate::NormalFault;
use crate::compose::maps_fit;
use crate::count::piece_count;
use crate::measure::{narrowed, rows_fit};
use crate::opposed::are_contrary;
use crate::outline::outline_at;
use crate::piece::tree_at;
use crate::reduction_sets::{filled, has_reduction};
use crate::sketch::sketch_tree;
use av_base::{List, Memory, Word};
use av_flat::{Flat, Piece, Tree, Var};
use av_poly::{Poly, copy_set, normalised_copy};
use std::alloc::Global;

// Tries the rows of a declared domain.
fn domain_fits(alloc: Global, domain: &Poly) -> Result<(), NormalFault>
    ensures narrow { OnOk result (IsNarrow (of_set domain.now)) }
    ensures wide { IfErr result (IsWide (of_set domain.now ∷ [])) }
{
    let copy = normalised_copy(alloc, domain)?;
    rows_fit(copy.rows.as_slice())?;
    Ok(())
}

// Tries the composed maps of an equation.
fn equation_fits(alloc: Global, equation: &[Piece]) -> Result<(), NormalFault>
    requires { All (λ e. StandsUnder [] e.tree) (map view_piece equation.now) }
    ensures narrow { OnOk result (AreNarrow (maps_measured (map view_piece equation.now))) }
    ensures wide { IfErr result (IsWide (maps_measured (map view_piece equation.now))) }
{
    for piece in equation {
        maps_fit(alloc, &[], &piece.tree)?;
    }
    Ok(())
}

// Whether a piece has no point and no reduction: two of its rows cannot hold at once.
fn is_idle(domain: &Poly, folds: bool) -> bool
    ensures none { IsTrue result → (z : Items ℤ) → Has domain.now z → ⊥ }
    ensures plain { IsTrue result → folds ≡ false }
{
    if folds {
        false
    } else {
        are_contrary(domain.rows.as_slice())
    }
}

// The tree of the piece with this number; where the piece is dropped and no reduction is in the tree, a constant stands in its place.
fn needed_tree(
    alloc: Global,
    vars: &[Var],
    domain: &Poly,
    folds: bool,
    tree: &Tree,
    number: u128,
) -> Result<Tree, Memory>
    requires readable { IsReadable (signatures_of vars.now) [] (view tree.now) }
    requires number { number < piece_count (view tree.now) }
    requires few { piece_count (view tree.now) ≤ 256 }
    requires folds { folds ≡ has_reduction
        (part_at (parts (signatures_of vars.now) [] (view tree.now)) number).tree }
    ensures { IfOk result (λ t. StandsIn domain.now
        (part_at (parts (signatures_of vars.now) [] (view tree.now)) number).tree (view t)) }
{
    if is_idle(domain, folds) {
        Ok(Tree::Const(Word { bits: 0 }))
    } else {
        tree_at(alloc, vars, tree, number)
    }
}

// The piece of a tree with this number, with normalised rows; those of the domain are among them.
fn made_piece(
    alloc: Global,
    vars: &[Var],
    domain: &Poly,
    tree: &Tree,
    sketch: &Tree,
    number: u128,
) -> Result<Piece, NormalFault>
    requires readable { IsReadable (signatures_of vars.now) [] (view tree.now) }
    requires sketch { IsReadable [] [] (view sketch.now) }
    requires same { sketches [] [] (view sketch.now)
        ≡ sketches (signatures_of vars.now) [] (view tree.now) }
    requires domain { All IsWithinLimits domain.now.rows }
    requires number { number < piece_count (view tree.now) }
    requires few { piece_count (view tree.now) ≤ 256 }
    ensures made { IfOk result (λ q. IsMade domain.now.dim (held domain.now.rows
        (part_at (parts (signatures_of vars.now) [] (view tree.now)) number)) (view_piece q)) }
    ensures narrow { OnOk result (IsNarrow (of_set (set_of domain.now.dim (held domain.now.rows
        (part_at (parts (signatures_of vars.now) [] (view tree.now)) number))))) }
    ensures wide { IfErr result (IsWide (of_set (set_of domain.now.dim (held domain.now.rows
        (part_at (parts (signatures_of vars.now) [] (view tree.now)) number))) ∷ [])) }
{
    let outline = outline_at(alloc, domain, sketch, number)?;
    let domain = narrowed(outline.domain)?;
    let tree = needed_tree(alloc, vars, &domain, outline.folds, tree, number)?;
    Ok(Piece { domain, tree })
}

// Appends all pieces of a tree, by the sketch of the tree.
fn append_by_sketch(
    alloc: Global,
    vars: &[Var],
    domain: &Poly,
    tree: &Tree,
    sketch: &Tree,
    pieces: &mut List<Piece>,
) -> Result<(), NormalFault>
    requires readable { IsReadable (signatures_of vars.now) [] (view tree.now) }
    requires sketch { IsReadable [] [] (view sketch.now) }
    requires same { sketches [] [] (view sketch.now)
        ≡ sketches (signatures_of vars.now) [] (view tree.now) }
    requires domain { All IsWithinLimits domain.now.rows }
    requires few { piece_count (view tree.now) ≤ 256 }
    ensures added { OnOk result (AreAdded domain.now.dim
        (with_rows domain.now.rows (parts (signatures_of vars.now) [] (view tree.now)))
        (map view_piece pieces.old) (map view_piece pieces.new)) }
    ensures narrow { OnOk result (AreNarrow (parts_measured domain.now.dim
        (with_rows domain.now.rows (parts (signatures_of vars.now) [] (view tree.now))))) }
    ensures wide { IfErr result (IsWide (parts_measured domain.now.dim
        (with_rows domain.now.rows (parts (signatures_of vars.now) [] (view tree.now))))) }
{
    let count = piece_count(tree);
    for number in 0..count {
        pieces.push(made_piece(alloc, vars, domain, tree, sketch, number)?)?;
    }
    Ok(())
}

// Appends all pieces of a tree.
fn append_pieces(
    alloc: Global,
    vars: &[Var],
    domain: &Poly,
    tree: &Tree,
    pieces: &mut List<Piece>,
) -> Result<(), NormalFault>
    requires readable { IsReadable (signatures_of vars.now) [] (view tree.now) }
    requires domain { All IsWithinLimits domain.now.rows }
    requires few { piece_count (view tree.now) ≤ 256 }
    ensures added { OnOk result (AreAdded domain.now.dim
        (with_rows domain.now.rows (parts (signatures_of vars.now) [] (view tree.now)))
        (map view_piece pieces.old) (map view_piece pieces.new)) }
    ensures narrow { OnOk result (AreNarrow (parts_measured domain.now.dim
        (with_rows domain.now.rows (parts (signatures_of vars.now) [] (view tree.now))))) }
    ensures wide { IfErr result (IsWide (parts_measured domain.now.dim
        (with_rows domain.now.rows (parts (signatures_of vars.now) [] (view tree.now))))) }
{
    let sketch = sketch_tree(alloc, vars, domain.dim, tree)?;
    append_by_sketch(alloc, vars, domain, tree, &sketch, pieces)
}

// All pieces of an equation; the sets of their reductions are as in the equation.
fn pieces_made(
    alloc: Global,
    vars: &[Var],
    domain: &Poly,
    equation: &[Piece],
) -> Result<List<Piece>, NormalFault>
    requires parted { All (IsParted (signatures_of vars.now) domain.now.dim)
        (map view_piece equation.now) }
    requires domain { All IsWithinLimits domain.now.rows }
    ensures made { IfOk result (λ made. AreMade domain.now.dim (held_parts (signatures_of vars.now)
        domain.now.rows (map view_piece equation.now)) (map view_piece made)) }
    ensures narrow { OnOk result (AreNarrow (parts_measured domain.now.dim
        (held_parts (signatures_of vars.now) domain.now.rows (map view_piece equation.now)))) }
    ensures wide { IfErr result (IsWide (parts_measured domain.now.dim
        (held_parts (signatures_of vars.now) domain.now.rows (map view_piece equation.now)))) }
{
    let mut pieces = List::new(alloc);
    for piece in equation {
        let both = domain.meet_nontrivial(alloc, &piece.domain)?;
        append_pieces(alloc, vars, &both, &piece.tree, &mut pieces)?;
    }
    Ok(pieces)
}

// A piece with its rows in the sets of its reductions; where it has none, its tree stays as it is. The rows are copied, since the list in
// which they were gathered has room for many more.
fn filled_piece(alloc: Global, piece: Piece) -> Result<Piece, NormalFault>
    requires { IsHolder (view_piece piece) }
    ensures pieces { IfOk result (λ q. (dim : ℕ) (p : Part)
        → IsMade dim p (view_piece piece) → IsPieceOfPart dim (filled_part p) (view_piece q)) }
    ensures narrow { OnOk result ((dim : ℕ) (p : Part) → IsMade dim p (view_piece piece)
        → AreNarrow (map of_set (body_sets (filled p.rows p.tree)))) }
    ensures wide { IfErr result (λ fault. (dim : ℕ) (p : Part) → IsMade dim p (view_piece piece)
        → IsWide (map of_set (body_sets (filled p.rows p.tree))) fault) }
{
    let domain = copy_set(alloc, &piece.domain)?;
    if !has_reduction(&piece.tree) {
        return Ok(Piece {
            domain,
            tree: piece.tree,
        });
    }
    let tree = filled(alloc, &piece.domain, &piece.tree)?;
    Ok(Piece { domain, tree })
}

// The pieces with their rows in the sets of their reductions.
fn trees_filled(alloc: Global, pieces: List<Piece>) -> Result<List<Piece>, NormalFault>
    requires { All IsHolder (map view_piece pieces) }
    ensures pieces { IfOk result (λ all_pieces. (dim : ℕ) (ps : Items Part)
        → AreMade dim ps (map view_piece pieces)
        → ArePiecesOfParts dim (map filled_part ps) (map view_piece all_pieces)) }
    ensures narrow { OnOk result ((dim : ℕ) (ps : Items Part)
        → AreMade dim ps (map view_piece pieces) → AreNarrow (bodies_measured ps)) }
    ensures wide { IfErr result (λ fault. (dim : ℕ) (ps : Items Part)
        → AreMade dim ps (map view_piece pieces) → IsWide (bodies_measured ps) fault) }
{
    let mut all_pieces = List::new(alloc);
    for piece in pieces.into_vec() {
        all_pieces.push(filled_piece(alloc, piece)?)?;
    }
    Ok(all_pieces)
}

// A variable with all its pieces.
fn with_all_pieces(alloc: Global, flat: &Flat, var: &Var) -> Result<Var, NormalFault>
    requires system { IsWellFormed (view_system flat.now) }
    requires variable { IsWellFormedVariable (view_system flat.now) (view_variable var.now) }
    requires few { IsOfFew (view_variable var.now) }
    ensures pieces { IfOk result (λ to. HasAllPieces
        (signatures (view_system flat.now)) (view_variable var.now) (view_variable to)) }
    ensures narrow { OnOk result
        (AreNarrow (measured (signatures (view_system flat.now)) (view_variable var.now))) }
    ensures wide { IfErr result
        (IsWide (measured (signatures (view_system flat.now)) (view_variable var.now))) }
{
    let equation = var.pieces.as_slice();
    domain_fits(alloc, &var.domain)?;
    equation_fits(alloc, equation)?;
    let made = pieces_made(alloc, flat.vars.as_slice(), &var.domain, equation)?;
    let pieces = trees_filled(alloc, made)?;
    Ok(var.with_pieces(alloc, pieces)?)
}

/// The variables with all their pieces, whose rows are normalised: domain, composed maps, pieces and bodies are tried.
pub(crate) fn all_pieces(alloc: Global, flat: &Flat) -> Result<List<Var>, NormalFault>
    requires well_formed { IsWellFormed (view_system flat.now) }
    requires few { HasFew (view_system flat.now).variables }
    ensures pieces { IfOk result (λ made. HaveAllPieces (signatures (view_system flat.now))
        (view_system flat.now).variables (map view_variable made)) }
    ensures narrow { OnOk result (HasNarrowSets (view_system flat.now)) }
    ensures wide { IfErr result (IsWideIn (view_system flat.now)) }
{
    let mut made = List::new(alloc);
    for var in flat.vars.as_slice() {
        made.push(with_all_pieces(alloc, flat, var)?)?;
    }
    Ok(made)
}
