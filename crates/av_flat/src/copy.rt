//! Systems and their parts once more, in memory of their own.

ghost use Rattle.std.specs.Prelude.{◌≡◌, IfOk, map};
ghost use Rattle.av_flat.specs.Trees.{view, pick, view_piece, view_variable, view_system};

use crate::{Choice, Flat, Piece, Tree, Var, VariablePlace};
use av_affine::{Map, Rows};
use av_base::{List, Memory, Word};
use av_poly::copy_set;
use std::alloc::Global;

/// The same system.
pub fn copy_flat(alloc: Global, flat: &Flat) -> Result<Flat, Memory>
    ensures { IfOk result (λ to. view_system to ≡ view_system flat.now) }
{
    let vars = copy_variables(alloc, flat.vars.as_slice())?;
    Ok(Flat {
        width: flat.width,
        vars,
    })
}

/// The same tree.
#[cycle(copy)]
pub fn copy_tree(alloc: Global, tree: &Tree) -> Result<Tree, Memory>
    ensures { IfOk result (λ to. view to ≡ view tree.now) }
{
    match tree {
        Tree::Ref { var, map } => Ok(Tree::Ref {
            var: *var,
            map: copy_map(map),
        }),
        Tree::Const(word) => Ok(Tree::Const(*word)),
        Tree::Binary { sign, left, right } => {
            let (left, right) = (boxed(alloc, left)?, boxed(alloc, right)?);
            Ok(Tree::binary(*sign, left, right))
        }
        Tree::Choose {
            left,
            compare,
            right,
            yes,
            no,
        } => {
            let (left, right) = (boxed(alloc, left)?, boxed(alloc, right)?);
            let (yes, no) = (boxed(alloc, yes)?, boxed(alloc, no)?);
            Ok(Tree::choice(left, *compare, right, yes, no))
        }
        Tree::Restrict { domain, body } => {
            let domain = copy_set(alloc, domain)?;
            Ok(Tree::restriction(domain, boxed(alloc, body)?))
        }
        Tree::Case { branches } => Ok(Tree::Case {
            branches: copy_trees(alloc, branches.as_slice())?,
        }),
        Tree::Depend { map, body } => Ok(Tree::dependence(copy_map(map), boxed(alloc, body)?)),
        Tree::Reduce { op, map, body, set } => {
            let set = copy_set(alloc, set)?;
            Ok(Tree::reduction(*op, copy_map(map), boxed(alloc, body)?, set))
        }
        Tree::Pick {
            var,
            choices,
            otherwise,
        } => copy_pick(alloc, VariablePlace(*var), choices.as_slice(), *otherwise),
    }
}

/// The same pick.
fn copy_pick(
    alloc: Global,
    place: VariablePlace,
    choices: &[Choice],
    otherwise: Word,
) -> Result<Tree, Memory>
    ensures { IfOk result (λ to. view to ≡ pick place.0 choices.now otherwise.bits) }
{
    let choices = copy_choices(alloc, choices)?;
    Ok(Tree::Pick {
        var: place.0,
        choices,
        otherwise,
    })
}

#[cycle(copy)]
fn boxed(alloc: Global, tree: &Tree) -> Result<Box<Tree>, Memory>
    ensures { IfOk result (λ to. view to.value ≡ view tree.now) }
{
    let to = copy_tree(alloc, tree)?;
    Ok(Box::new(alloc, to)?)
}

#[cycle(copy)]
fn copy_trees(alloc: Global, trees: &[Tree]) -> Result<List<Tree>, Memory>
    ensures { IfOk result (λ to. map view to ≡ map view trees.now) }
{
    let mut to = List::new(alloc);
    for tree in trees {
        to.push(copy_tree(alloc, tree)?)?;
    }
    Ok(to)
}

fn copy_choices(alloc: Global, choices: &[Choice]) -> Result<List<Choice>, Memory>
    ensures { IfOk result (λ to. to ≡ choices.now) }
{
    let mut to = List::new(alloc);
    for choice in choices {
        to.push(Choice {
            set: copy_set(alloc, &choice.set)?,
            map: copy_map(&choice.map),
        })?;
    }
    Ok(to)
}

fn copy_variables(alloc: Global, vars: &[Var]) -> Result<List<Var>, Memory>
    ensures { IfOk result (λ to. map view_variable to ≡ map view_variable vars.now) }
{
    let mut to = List::new(alloc);
    for var in vars {
        to.push(copy_variable(alloc, var)?)?;
    }
    Ok(to)
}

fn copy_variable(alloc: Global, var: &Var) -> Result<Var, Memory>
    ensures { IfOk result (λ to. view_variable to ≡ view_variable var.now) }
{
    let pieces = copy_pieces(alloc, var.pieces.as_slice())?;
    var.with_pieces(alloc, pieces)
}

/// The same pieces.
pub fn copy_pieces(alloc: Global, pieces: &[Piece]) -> Result<List<Piece>, Memory>
    ensures { IfOk result (λ to. map view_piece to ≡ map view_piece pieces.now) }
{
    let mut to = List::new(alloc);
    for piece in pieces {
        to.push(Piece {
            domain: copy_set(alloc, &piece.domain)?,
            tree: copy_tree(alloc, &piece.tree)?,
        })?;
    }
    Ok(to)
}

/// The same map.
pub fn copy_map(map: &Map) -> Map
    ensures { result ≡ map.now }
{
    Map {
        from: map.from,
        rows: Rows::from_slice(map.rows.as_slice()),
    }
}
