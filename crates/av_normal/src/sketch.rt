//! The sketch of a tree: a tree whose parts have the same rows, and a reduction where those of the tree have one. What has one part
//! without a reduction is one restriction there, so that the rows of each of many parts are found in few steps.

ghost use Rattle.std.specs.Prelude.{◌≡◌, true, false, [], ◌∷◌, All, IfOk, map};
ghost use Rattle.av_poly.specs.Points.{IsSmall};
ghost use Rattle.av_flat.specs.Trees.{view, trees_of};
ghost use Rattle.av_flat.specs.Pieces.{parts_of_all};
ghost use Rattle.av_normal.specs.inner.Numbered.{signatures_of};
ghost use Rattle.av_normal.specs.inner.UnderMaps.{IsReadable, AreReadable};
ghost use Rattle.av_normal.specs.inner.Sketches.{sketched, sketches, sketches_of, side_by_side, IsSketch};

use crate::compose::prepend_map;
use crate::distribute::{append_under, composed_map};
use crate::piece::append_read;
use av_affine::{Form, Map};
use av_base::{List, Memory, Op, Word};
use av_flat::{Tree, Var, VariablePlace, copy_map};
use av_poly::{Poly, append_rows};
use av_tree::Sign;
use std::alloc::Global;

// What is known of the parts of a tree.
#[derive(Drop)]
enum Sketch {
    /// There is one, with these rows and without a reduction.
    One(List<Form>),
    /// They are as those of this tree.
    Many(Tree),
}

// The sketch as a tree over so many indices.
fn tree_of(alloc: Global, dim: u8, sketch: Sketch) -> Result<Tree, Memory>
    requires { IsSketch sketch }
    ensures readable { IfOk result (λ t. IsReadable [] [] (view t)) }
    ensures same { IfOk result (λ t. sketches [] [] (view t) ≡ sketches_of sketch) }
{
    match sketch {
        Sketch::One(rows) => {
            let body = Box::new(alloc, Tree::Const(Word { bits: 0 }))?;
            Ok(Tree::restriction(Poly { dim, rows }, body))
        }
        Sketch::Many(tree) => Ok(tree),
    }
}

// Two trees side by side.
fn paired(alloc: Global, first: Tree, second: Tree) -> Result<Sketch, Memory>
    requires first { IsReadable [] [] (view first) }
    requires second { IsReadable [] [] (view second) }
    ensures sketch { IfOk result IsSketch }
    ensures same { IfOk result (λ s.
        sketches_of s ≡ side_by_side (sketches [] [] (view first)) (sketches [] [] (view second))) }
{
    let left = Box::new(alloc, first)?;
    let right = Box::new(alloc, second)?;
    Ok(Sketch::Many(Tree::binary(Sign::Add, left, right)))
}

// One part with these rows, and another tree beside it.
fn joined_rows(alloc: Global, dim: u8, rows: List<Form>, second: Sketch) -> Result<Sketch, Memory>
    requires rows { All IsSmall rows }
    requires second { IsSketch second }
    ensures sketch { IfOk result IsSketch }
    ensures same { IfOk result (λ s.
        sketches_of s ≡ side_by_side ((rows, false) ∷ []) (sketches_of second)) }
{
    match second {
        Sketch::One(more) => {
            let mut whole = rows;
            append_rows(&mut whole, more.as_slice())?;
            Ok(Sketch::One(whole))
        }
        Sketch::Many(tree) => {
            let restriction = tree_of(alloc, dim, Sketch::One(rows))?;
            paired(alloc, restriction, tree)
        }
    }
}

// Two trees side by side, by their sketches.
fn joined(alloc: Global, dim: u8, first: Sketch, second: Sketch) -> Result<Sketch, Memory>
    requires first { IsSketch first }
    requires second { IsSketch second }
    ensures sketch { IfOk result IsSketch }
    ensures same { IfOk result (λ s.
        sketches_of s ≡ side_by_side (sketches_of first) (sketches_of second)) }
{
    match first {
        Sketch::One(rows) => joined_rows(alloc, dim, rows, second),
        Sketch::Many(tree) => {
            let other = tree_of(alloc, dim, second)?;
            paired(alloc, tree, other)
        }
    }
}

// The sketch of a reduction along a map.
fn folded(alloc: Global, op: Op, map: &Map) -> Result<Sketch, Memory>
    ensures sketch { IfOk result IsSketch }
    ensures same { IfOk result (λ s. sketches_of s ≡ ([], true) ∷ []) }
{
    let body = Box::new(alloc, Tree::Const(Word { bits: 0 }))?;
    let set = Poly {
        dim: map.from,
        rows: List::new(alloc),
    };
    Ok(Sketch::Many(Tree::reduction(op, copy_map(map), body, set)))
}

// The sketch of a tree under maps, of which the innermost comes first.
#[cycle(sketch_of)]
fn sketch_of(
    alloc: Global,
    vars: &[Var],
    dim: u8,
    under: &[Map],
    tree: &Tree,
) -> Result<Sketch, Memory>
    requires { IsReadable (signatures_of vars.now) under.now (view tree.now) }
    ensures sketch { IfOk result IsSketch }
    ensures same { IfOk result (λ s.
        sketches_of s ≡ sketches (signatures_of vars.now) under.now (view tree.now)) }
{
    match tree {
        Tree::Ref { var, map } => {
            let map = composed_map(map, under);
            let mut rows = List::new(alloc);
            append_read(alloc, vars, VariablePlace(*var), &map, &mut rows)?;
            Ok(Sketch::One(rows))
        }
        Tree::Const(_) => Ok(Sketch::One(List::new(alloc))),
        Tree::Binary { left, right, .. } => {
            let left = sketch_of(alloc, vars, dim, under, left)?;
            let right = sketch_of(alloc, vars, dim, under, right)?;
            joined(alloc, dim, left, right)
        }
        Tree::Choose {
            left,
            right,
            yes,
            no,
            ..
        } => {
            let yes = sketch_of(alloc, vars, dim, under, yes)?;
            let no = sketch_of(alloc, vars, dim, under, no)?;
            let last = joined(alloc, dim, yes, no)?;
            let right = sketch_of(alloc, vars, dim, under, right)?;
            let others = joined(alloc, dim, right, last)?;
            let left = sketch_of(alloc, vars, dim, under, left)?;
            joined(alloc, dim, left, others)
        }
        Tree::Restrict { domain, body } => {
            let mut rows = List::new(alloc);
            append_under(alloc, under, domain, &mut rows)?;
            let body = sketch_of(alloc, vars, dim, under, body)?;
            joined_rows(alloc, dim, rows, body)
        }
        Tree::Case { branches } => {
            let branches = sketch_all(alloc, vars, dim, under, branches.as_slice())?;
            Ok(Sketch::Many(Tree::Case { branches }))
        }
        Tree::Depend { map, body } => {
            let inner = prepend_map(alloc, map, under)?;
            sketch_of(alloc, vars, dim, inner.as_slice(), body)
        }
        Tree::Reduce { op, map, .. } => folded(alloc, *op, map),
        Tree::Pick { .. } => Ok(Sketch::One(List::new(alloc))),
    }
}

// The sketches of branches, as trees.
#[cycle(sketch_of)]
fn sketch_all(
    alloc: Global,
    vars: &[Var],
    dim: u8,
    under: &[Map],
    branches: &[Tree],
) -> Result<List<Tree>, Memory>
    requires { AreReadable (signatures_of vars.now) under.now (trees_of (map view branches.now)) }
    ensures readable { IfOk result (λ ts. AreReadable [] [] (trees_of (map view ts))) }
    ensures same { IfOk result (λ ts.
        map sketched (parts_of_all [] [] (trees_of (map view ts))) ≡ map sketched
        (parts_of_all (signatures_of vars.now) under.now (trees_of (map view branches.now)))) }
{
    let mut trees = List::new(alloc);
    for branch in branches {
        let sketch = sketch_of(alloc, vars, dim, under, branch)?;
        trees.push(tree_of(alloc, dim, sketch)?)?;
    }
    Ok(trees)
}

/// A tree without references whose parts have the same rows as those of a tree, and a reduction where those have one. What it
/// restricts it restricts to sets of so many indices.
pub(crate) fn sketch_tree(alloc: Global, vars: &[Var], dim: u8, tree: &Tree) -> Result<Tree, Memory>
    requires { IsReadable (signatures_of vars.now) [] (view tree.now) }
    ensures readable { IfOk result (λ t. IsReadable [] [] (view t)) }
    ensures same { IfOk result (λ t.
        sketches [] [] (view t) ≡ sketches (signatures_of vars.now) [] (view tree.now)) }
{
    let sketch = sketch_of(alloc, vars, dim, &[], tree)?;
    tree_of(alloc, dim, sketch)
}
