//! One piece of a tree, by its number: the first operand is slowest, the branches of a case stand in order.

ghost use Rattle.std.specs.Prelude.{◌≡◌, ◌<◌, ◌≤◌, ◌/◌, ◌%◌, ◌++◌, [], All, IfOk, OnOk, Some, length, map, slice_get};
ghost use Rattle.av_affine.specs.Forms.{IsWithinLimits};
ghost use Rattle.av_poly.specs.Points.{IsSmall};
ghost use Rattle.av_poly.specs.Preimages.{rows_before};
ghost use Rattle.av_flat.specs.Trees as flat;
ghost use Rattle.av_flat.specs.Trees.{view, cases, trees_of};
ghost use Rattle.av_flat.specs.WellFormed.{dimension_of};
ghost use Rattle.av_flat.specs.Pieces.{parts, rows_of};
ghost use Rattle.av_flat.specs.Quantities.{piece_count};
ghost use Rattle.av_normal.specs.inner.Numbered.{part_at, signatures_of};
ghost use Rattle.av_normal.specs.inner.UnderMaps.{IsReadable, AreReadable};
ghost use Rattle.av_normal.specs.inner.PieceByNumber.{HasPart, IsPartAt, AreFourNumbers};

use crate::compose::prepend_map;
use crate::count::piece_count;
use crate::distribute::{append_before, append_under, composed_map};
use av_affine::{Form, Map};
use av_base::{List, Memory, Op};
use av_flat::{Tree, Var, VariablePlace, copy_map, copy_tree};
use av_poly::{Poly, copy_rows};
use std::alloc::Global;

/// The tree of the piece of a variable's right side with this number, before its bodies' sets are filled in.
pub(crate) fn tree_at(
    alloc: Global,
    vars: &[Var],
    tree: &Tree,
    number: u128,
) -> Result<Tree, Memory>
    requires readable { IsReadable (signatures_of vars.now) [] (view tree.now) }
    requires number { number < piece_count (view tree.now) }
    requires few { piece_count (view tree.now) ≤ 256 }
    ensures { IfOk result (λ t.
        view t ≡ (part_at (parts (signatures_of vars.now) [] (view tree.now)) number).tree) }
{
    let mut rows = List::new(alloc);
    let tree = part_of(alloc, vars, &[], tree, number, &mut rows)?;
    Ok(tree)
}

// A number among pairs as that of the first and that of the second, of which there are this many.
fn split(number: u128, count: u128) -> (u128, u128)
    ensures slow { 0 < count → result.0 ≡ number / count }
    ensures fast { 0 < count → result.1 ≡ number % count }
{
    let some = count.max(1);
    (number / some, number % some)
}

/// The numbers of two operands of a tree; the first is slowest.
pub(crate) fn two_numbers(number: u128, right: &Tree) -> (u128, u128)
    ensures { 0 < piece_count (view right.now)
        → piece_count (view right.now) ≤ 256 → (result.0 ≡ number / piece_count (view right.now))
        × (result.1 ≡ number % piece_count (view right.now)) }
{
    split(number, piece_count(right))
}

/// The numbers of four operands of a tree; the first is slowest.
pub(crate) fn four_numbers(
    number: u128,
    right: &Tree,
    yes: &Tree,
    no: &Tree,
) -> (u128, u128, u128, u128)
    ensures { AreFourNumbers number (piece_count (view right.now)) (piece_count (view yes.now))
        (piece_count (view no.now)) result.0 result.1 result.2 result.3 }
{
    let fourth_count = piece_count(no);
    let third_count = piece_count(yes).saturating_mul(fourth_count);
    let second_count = piece_count(right).saturating_mul(third_count);
    let (first, others) = split(number, second_count);
    let (second, others) = split(others, third_count);
    let (third, fourth) = split(others, fourth_count);
    (first, second, third, fourth)
}

/// Appends the rows of a variable's domain, taken at the image under a map.
pub(crate) fn append_read(
    alloc: Global,
    vars: &[Var],
    place: VariablePlace,
    map: &Map,
    rows: &mut List<Form>,
) -> Result<(), Memory>
    requires fits { dimension_of (slice_get (signatures_of vars.now) place.0)
        ≡ Some (length map.now.rows) }
    requires rows { All IsWithinLimits (rows_of (slice_get (signatures_of vars.now) place.0)) }
    requires map { All IsWithinLimits map.now.rows }
    ensures rows { OnOk result (rows.new
        ≡ rows.old ++ rows_before map.now (rows_of (slice_get (signatures_of vars.now) place.0))) }
    ensures small { OnOk result (All IsSmall rows.old → All IsSmall rows.new) }
{
    let read = &vars[place.0 as usize];
    append_before(alloc, &read.domain, map, rows)
}

// The fold of a body along a map over the points of these rows.
fn reduction(op: Op, map: &Map, body: Box<Tree>, rows: List<Form>) -> Tree
    requires small { All IsSmall rows }
    ensures { view result ≡ flat.reduction op map.now
        (view body.value) (record { dim = map.now.from; rows = rows }) }
{
    let set = Poly {
        dim: map.from,
        rows,
    };
    Tree::reduction(op, copy_map(map), body, set)
}

// The tree of the part with this number; its rows are appended.
#[cycle(part_of)]
fn part_of(
    alloc: Global,
    vars: &[Var],
    under: &[Map],
    tree: &Tree,
    number: u128,
    rows: &mut List<Form>,
) -> Result<Tree, Memory>
    requires readable { IsReadable (signatures_of vars.now) under.now (view tree.now) }
    requires number { HasPart (view tree.now) number }
    ensures part { IfOk result (λ t. IsPartAt
        (signatures_of vars.now) under.now (view tree.now) number rows.old rows.new (view t)) }
    ensures small { OnOk result (All IsSmall rows.old → All IsSmall rows.new) }
{
    match tree {
        Tree::Ref { var, map } => {
            let map = composed_map(map, under);
            append_read(alloc, vars, VariablePlace(*var), &map, rows)?;
            Ok(Tree::Ref { var: *var, map })
        }
        Tree::Const(word) => Ok(Tree::Const(*word)),
        Tree::Binary { sign, left, right } => {
            let (first, second) = two_numbers(number, right);
            let left = boxed_part(alloc, vars, under, left, first, rows)?;
            let right = boxed_part(alloc, vars, under, right, second, rows)?;
            Ok(Tree::binary(*sign, left, right))
        }
        Tree::Choose {
            left,
            compare,
            right,
            yes,
            no,
        } => {
            let (first, second, third, fourth) = four_numbers(number, right, yes, no);
            let left = boxed_part(alloc, vars, under, left, first, rows)?;
            let right = boxed_part(alloc, vars, under, right, second, rows)?;
            let yes = boxed_part(alloc, vars, under, yes, third, rows)?;
            let no = boxed_part(alloc, vars, under, no, fourth, rows)?;
            Ok(Tree::choice(left, *compare, right, yes, no))
        }
        Tree::Restrict { domain, body } => {
            append_under(alloc, under, domain, rows)?;
            part_of(alloc, vars, under, body, number, rows)
        }
        Tree::Case { branches } => {
            part_of_case(alloc, vars, under, branches.as_slice(), number, rows)
        }
        Tree::Depend { map, body } => {
            let inner = prepend_map(alloc, map, under)?;
            part_of(alloc, vars, inner.as_slice(), body, number, rows)
        }
        Tree::Reduce { op, map, body, set } => {
            let mut inner = copy_rows(alloc, set.rows.as_slice())?;
            let body = boxed_part(alloc, vars, &[], body, 0, &mut inner)?;
            Ok(reduction(*op, map, body, inner))
        }
        Tree::Pick { .. } => copy_tree(alloc, tree),
    }
}

// The tree of the part of a case with this number, which a branch has; its rows are appended.
#[cycle(part_of)]
fn part_of_case(
    alloc: Global,
    vars: &[Var],
    under: &[Map],
    branches: &[Tree],
    number: u128,
    rows: &mut List<Form>,
) -> Result<Tree, Memory>
    requires readable { AreReadable (signatures_of vars.now) under.now
        (trees_of (map view branches.now)) }
    requires number { HasPart (cases (trees_of (map view branches.now))) number }
    ensures part { IfOk result (λ t. IsPartAt (signatures_of vars.now) under.now
        (cases (trees_of (map view branches.now))) number rows.old rows.new (view t)) }
    ensures small { OnOk result (All IsSmall rows.old → All IsSmall rows.new) }
{
    let mut left = number;
    for branch in branches {
        let count = piece_count(branch);
        if left < count {
            return part_of(alloc, vars, under, branch, left, rows);
        }
        left -= count;
    }
    unreachable!()
}

#[cycle(part_of)]
fn boxed_part(
    alloc: Global,
    vars: &[Var],
    under: &[Map],
    tree: &Tree,
    number: u128,
    rows: &mut List<Form>,
) -> Result<Box<Tree>, Memory>
    requires readable { IsReadable (signatures_of vars.now) under.now (view tree.now) }
    requires number { HasPart (view tree.now) number }
    ensures part { IfOk result (λ t. IsPartAt (signatures_of vars.now) under.now
        (view tree.now) number rows.old rows.new (view t.value)) }
    ensures small { OnOk result (All IsSmall rows.old → All IsSmall rows.new) }
{
    let part = part_of(alloc, vars, under, tree, number, rows)?;
    Ok(Box::new(alloc, part)?)
}
