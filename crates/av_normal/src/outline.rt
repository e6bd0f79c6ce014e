//! Where a piece of a tree is, by its number, before the tree of the piece is made.

ghost use Rattle.std.specs.Prelude.{◌≡◌, ◌<◌, ◌≤◌, ◌++◌, ◌||◌, [], All, IfOk, OnOk, map};
ghost use Rattle.av_affine.specs.Forms.{IsWithinLimits};
ghost use Rattle.av_poly.specs.Points.{IsSmall};
ghost use Rattle.av_flat.specs.Trees.{view, cases, trees_of};
ghost use Rattle.av_flat.specs.Pieces.{parts};
ghost use Rattle.av_flat.specs.Quantities.{piece_count};
ghost use Rattle.av_normal.specs.inner.Numbered.{part_at, signatures_of};
ghost use Rattle.av_normal.specs.inner.UnderMaps.{IsReadable, AreReadable};
ghost use Rattle.av_normal.specs.inner.ReductionSets.{has_reduction};
ghost use Rattle.av_normal.specs.inner.PieceByNumber.{HasPart, AreRowsAt};
ghost use Rattle.av_normal.specs.inner.Sketches.{sketches};

use crate::compose::prepend_map;
use crate::count::piece_count;
use crate::distribute::{append_under, composed_map};
use crate::piece::{append_read, four_numbers, two_numbers};
use av_affine::{Form, Map};
use av_base::{List, Memory};
use av_flat::{Tree, Var, VariablePlace};
use av_poly::{Poly, copy_rows};
use std::alloc::Global;

/// What is known of a piece before its tree is made: its domain, with the rows as they come, and whether a reduction is in its tree.
#[derive(Drop)]
pub(crate) struct Outline {
    pub domain: Poly,
    pub folds: bool,
}

/// The outline of the piece of a variable's right side with this number, by the sketch of the right side.
pub(crate) fn outline_at(
    alloc: Global,
    domain: &Poly,
    sketch: &Tree,
    number: u128,
) -> Result<Outline, Memory>
    requires sketch { IsReadable [] [] (view sketch.now) }
    requires domain { All IsWithinLimits domain.now.rows }
    requires number { number < piece_count (view sketch.now) }
    requires few { piece_count (view sketch.now) ≤ 256 }
    ensures dim { IfOk result (λ o. o.domain.dim ≡ domain.now.dim) }
    ensures rows { IfOk result (λ o. o.domain.rows ≡ domain.now.rows
        ++ (part_at (parts [] [] (view sketch.now)) number).rows) }
    ensures folds { IfOk result (λ o. o.folds
        ≡ has_reduction (part_at (parts [] [] (view sketch.now)) number).tree) }
{
    let mut rows = copy_rows(alloc, domain.rows.as_slice())?;
    let folds = rows_of_part(alloc, &[], &[], sketch, number, &mut rows)?;
    let domain = Poly {
        dim: domain.dim,
        rows,
    };
    Ok(Outline { domain, folds })
}

fn either(first: bool, second: bool) -> bool
    ensures { result ≡ (first || second) }
{
    first || second
}

// Appends the rows of the part with this number, and tells whether a reduction is in its tree.
#[cycle(rows_of_part)]
fn rows_of_part(
    alloc: Global,
    vars: &[Var],
    under: &[Map],
    tree: &Tree,
    number: u128,
    rows: &mut List<Form>,
) -> Result<bool, Memory>
    requires readable { IsReadable (signatures_of vars.now) under.now (view tree.now) }
    requires number { HasPart (view tree.now) number }
    ensures part { IfOk result (λ folds. AreRowsAt
        (signatures_of vars.now) under.now (view tree.now) number rows.old rows.new folds) }
    ensures small { OnOk result (All IsSmall rows.old → All IsSmall rows.new) }
{
    match tree {
        Tree::Ref { var, map } => {
            let map = composed_map(map, under);
            append_read(alloc, vars, VariablePlace(*var), &map, rows)?;
            Ok(false)
        }
        Tree::Const(_) => Ok(false),
        Tree::Binary { left, right, .. } => {
            let (first, second) = two_numbers(number, right);
            let left = rows_of_part(alloc, vars, under, left, first, rows)?;
            let right = rows_of_part(alloc, vars, under, right, second, rows)?;
            Ok(either(left, right))
        }
        Tree::Choose {
            left,
            right,
            yes,
            no,
            ..
        } => {
            let (first, second, third, fourth) = four_numbers(number, right, yes, no);
            let left = rows_of_part(alloc, vars, under, left, first, rows)?;
            let right = rows_of_part(alloc, vars, under, right, second, rows)?;
            let yes = rows_of_part(alloc, vars, under, yes, third, rows)?;
            let no = rows_of_part(alloc, vars, under, no, fourth, rows)?;
            Ok(either(left, either(right, either(yes, no))))
        }
        Tree::Restrict { domain, body } => {
            append_under(alloc, under, domain, rows)?;
            rows_of_part(alloc, vars, under, body, number, rows)
        }
        Tree::Case { branches } => {
            rows_of_case(alloc, vars, under, branches.as_slice(), number, rows)
        }
        Tree::Depend { map, body } => {
            let inner = prepend_map(alloc, map, under)?;
            rows_of_part(alloc, vars, inner.as_slice(), body, number, rows)
        }
        Tree::Reduce { .. } => Ok(true),
        Tree::Pick { .. } => Ok(false),
    }
}

// The same for the part of a case with this number, which a branch has.
#[cycle(rows_of_part)]
fn rows_of_case(
    alloc: Global,
    vars: &[Var],
    under: &[Map],
    branches: &[Tree],
    number: u128,
    rows: &mut List<Form>,
) -> Result<bool, Memory>
    requires readable { AreReadable (signatures_of vars.now) under.now
        (trees_of (map view branches.now)) }
    requires number { HasPart (cases (trees_of (map view branches.now))) number }
    ensures part { IfOk result (λ folds. AreRowsAt (signatures_of vars.now) under.now
        (cases (trees_of (map view branches.now))) number rows.old rows.new folds) }
    ensures small { OnOk result (All IsSmall rows.old → All IsSmall rows.new) }
{
    let mut left = number;
    for branch in branches {
        let count = piece_count(branch);
        if left < count {
            return rows_of_part(alloc, vars, under, branch, left, rows);
        }
        left -= count;
    }
    unreachable!()
}
