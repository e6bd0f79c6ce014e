//! The chain of a reduction.

ghost use Rattle.std.specs.Prelude.{◌≡◌, ◌≤◌, ◌<◌, ◌-◌, ◌+◌, ◌^◌, [], ◌∷◌, ◌++◌, All, IfOk, codes};
ghost use Rattle.std.specs.Fmt.{decimal};
ghost use Rattle.av_affine.specs.Forms.{IsWithinLimits};
ghost use Rattle.av_flat.specs.Trees.{view, view_variable, binary, pick};
ghost use Rattle.av_flat.specs.WellFormed.{IsProjection};
ghost use Rattle.av_serial.specs.Lines.{choice_before};
ghost use Rattle.av_serial.specs.SerialForm.{sign_of, chain_name};
ghost use Rattle.av_serial.specs.inner.Building.{folded_piece, folded_tree};
ghost use Rattle.av_flat.specs.declared.flat.Kind.TheVariants as kind;

use crate::choices::choice_before;
use av_affine::Map;
use av_base::{List, Memory, Name, Op, Width, Word};
use av_flat::{Kind, Piece, Tree, Var, VariablePlace};
use av_poly::{Poly, copy_set};
use av_tree::Sign;
use itoa::Buffer;
use std::alloc::Global;

fn sign_of(op: Op) -> Sign
    ensures { result ≡ sign_of op }
{
    match op {
        Op::Add => Sign::Add,
        Op::Mul => Sign::Mul,
        Op::Min => Sign::Min,
        Op::Max => Sign::Max,
    }
}

// The name of a chain by the equation's name and its number.
fn chain_name(alloc: Global, name: &Name, number: u32) -> Result<Name, Memory>
    ensures { IfOk result (λ made. made ≡ name.now ++ codes "#" ++ decimal number) }
{
    let mut text = String::from_str(alloc, name.as_str())?;
    text.push_str("#")?;
    let mut digits = Buffer::new();
    text.push_str(digits.format(number))?;
    Name::new(alloc, text.as_str())
}

// The read of the point before, or the word that a fold starts from.
fn own_read(
    alloc: Global,
    map: &Map,
    domain: &Poly,
    place: VariablePlace,
    otherwise: Word,
) -> Result<Tree, Memory>
    requires projection { IsProjection map.now }
    requires from { map.now.from ≤ 4 }
    requires dimension { domain.now.dim ≡ map.now.from }
    requires rows { All IsWithinLimits domain.now.rows }
    ensures { IfOk result (λ tree.
        view tree ≡ pick place.0 (choice_before map.now domain.now ∷ []) otherwise.bits) }
{
    let mut choices = List::new(alloc);
    choices.push(choice_before(alloc, map, domain)?)?;
    Ok(Tree::Pick {
        var: place.0,
        choices,
        otherwise,
    })
}

// What was folded before, joined with the body's word.
fn joined(alloc: Global, op: Op, before: Tree, body: Tree) -> Result<Tree, Memory>
    ensures { IfOk result (λ tree. view tree ≡ binary (sign_of op) (view before) (view body)) }
{
    let left = Box::new(alloc, before)?;
    let right = Box::new(alloc, body)?;
    Ok(Tree::binary(sign_of(op), left, right))
}

// The body's word, joined with what was folded before.
fn folded(
    alloc: Global,
    width: Width,
    op: Op,
    map: &Map,
    domain: &Poly,
    place: VariablePlace,
    body: Tree,
) -> Result<Tree, Memory>
    requires projection { IsProjection map.now }
    requires from { map.now.from ≤ 4 }
    requires dimension { domain.now.dim ≡ map.now.from }
    requires rows { All IsWithinLimits domain.now.rows }
    ensures { IfOk result (λ tree.
        view tree ≡ folded_tree width.bits place.0 op map.now domain.now (view body)) }
{
    let before = own_read(alloc, map, domain, place, Word::identity(op, width))?;
    joined(alloc, op, before, body)
}

// The list of one piece.
fn one_piece(alloc: Global, piece: Piece) -> Result<List<Piece>, Memory>
    ensures { IfOk result (λ pieces. pieces ≡ piece ∷ []) }
{
    let mut pieces = List::new(alloc);
    pieces.push(piece)?;
    Ok(pieces)
}

// The list of one piece, which is that of a whole domain.
fn whole_piece(alloc: Global, domain: &Poly, tree: Tree) -> Result<List<Piece>, Memory>
    ensures { IfOk result (λ pieces. pieces ≡ record { domain = domain.now; tree = tree } ∷ []) }
{
    let own = copy_set(alloc, domain)?;
    one_piece(alloc, Piece { domain: own, tree })
}

/// The chain at a place, where the first one of the equation has the place `first`.
pub(crate) fn chain(
    alloc: Global,
    name: Name,
    width: Width,
    op: Op,
    map: &Map,
    domain: Poly,
    place: VariablePlace,
    body: Tree,
) -> Result<Var, Memory>
    requires projection { IsProjection map.now }
    requires from { map.now.from ≤ 4 }
    requires dimension { domain.dim ≡ map.now.from }
    requires rows { All IsWithinLimits domain.rows }
    ensures { IfOk result (λ made. view_variable made ≡
        record {
          name = name;
          kind = kind.Partial;
          width = width.bits;
          domain = domain;
          pieces = folded_piece width.bits place.0 op map.now domain (view body) ∷ [];
        }) }
{
    let tree = folded(alloc, width, op, map, &domain, place, body)?;
    let pieces = whole_piece(alloc, &domain, tree)?;
    Ok(Var {
        name,
        kind: Kind::Partial,
        width,
        domain,
        pieces,
    })
}

/// The name of the chain at a place, where the first one of the equation has the place `first`.
pub(crate) fn name_at(
    alloc: Global,
    name: &Name,
    first: VariablePlace,
    place: VariablePlace,
) -> Result<Name, Memory>
    requires order { first.0 ≤ place.0 }
    requires small { place.0 < 2 ^ 32 - 1 }
    ensures { IfOk result (λ made. made ≡ chain_name name.now first.0 place.0) }
{
    chain_name(alloc, name, place.0 - first.0 + 1)
}

/// What stands in the place of a chain until its body is made.
pub(crate) fn placeholder(alloc: Global, width: Width) -> Result<Var, Memory> {
    let name = Name::new(alloc, "")?;
    let domain = Poly {
        dim: 0,
        rows: List::new(alloc),
    };
    Ok(Var {
        name,
        kind: Kind::Partial,
        width,
        domain,
        pieces: List::new(alloc),
    })
}
