ghost use Rattle.std.specs.Prelude.{◌≡◌, ◌≤◌, ◌+◌, IfOk, OnOk, length};
ghost use Rattle.av_flat.specs.Trees.{view};
ghost use Rattle.av_kinds.specs.Programs.{site_count};
ghost use Rattle.av_kinds.specs.inner.Trees.{comparison, joined, tree_built};
ghost use Rattle.av_kinds.specs.inner.Cells.{operand_at};
ghost use Rattle.av_kinds.specs.inner.Numbered.{wire_in};
ghost use Rattle.av_kinds.specs.inner.Added.{Adds, AddsBuilt, AddsOperand};

use crate::gates::{LaneGate, chosen, named};
use crate::naming::WireNames;
use av_base::{Memory, Width};
use av_flat::Tree;
use av_net::{Operand, Operation, Symbol};
use av_tree::{Relation, Sign};
use std::alloc::Global;

// Words compared as signed numbers.
fn compared(compare: Relation, left: Operand, right: Operand) -> Operation
    ensures { result ≡ comparison compare left right }
{
    match compare {
        Relation::Less => signed(left, Symbol::Less, right),
        Relation::LessEqual => signed(left, Symbol::LessEqual, right),
        Relation::Greater => signed(left, Symbol::Greater, right),
        Relation::GreaterEqual => signed(left, Symbol::GreaterEqual, right),
        Relation::Equal => binary(left, Symbol::Equal, right),
        Relation::Unequal => binary(left, Symbol::Unequal, right),
    }
}

fn signed(left: Operand, symbol: Symbol, right: Operand) -> Operation
    ensures { result ≡ Operation.Signed left symbol right }
{
    Operation::Signed {
        left,
        symbol,
        right,
    }
}

fn binary(left: Operand, symbol: Symbol, right: Operand) -> Operation
    ensures { result ≡ Operation.Binary left symbol right }
{
    Operation::Binary {
        left,
        symbol,
        right,
    }
}

// Whether the first is less, as signed numbers.
fn less(alloc: Global, left: &Operand, right: &Operand) -> Result<Operation, Memory>
    ensures { IfOk result (λ test. test ≡ Operation.Signed left.now Symbol.Less right.now) }
{
    let left = left.copied(alloc)?;
    let right = right.copied(alloc)?;
    Ok(signed(left, Symbol::Less, right))
}

// An operator on two operands.
fn operator(
    alloc: Global,
    names: WireNames,
    gates: &mut Vec<LaneGate>,
    sign: Sign,
    left: Operand,
    right: Operand,
) -> Result<Operation, Memory>
    ensures { IfOk result
        (Adds gates.new.items (joined (wire_in names) 0 sign gates.old.items left right)) }
{
    match sign {
        Sign::Add => Ok(binary(left, Symbol::Add, right)),
        Sign::Sub => Ok(binary(left, Symbol::Sub, right)),
        Sign::Mul => Ok(binary(left, Symbol::Mul, right)),
        Sign::Min => {
            let test = less(alloc, &right, &left)?;
            chosen(alloc, names, gates, test, right, left)
        }
        Sign::Max => {
            let test = less(alloc, &left, &right)?;
            chosen(alloc, names, gates, test, right, left)
        }
    }
}

/// The wires of a tree, and its root. `site` counts the places that read.
#[cycle(build)]
pub(crate) fn tree(
    alloc: Global,
    names: WireNames,
    width: Width,
    taps: &[Operand],
    gates: &mut Vec<LaneGate>,
    site: &mut usize,
    tree: &Tree,
) -> Result<Operation, Memory>
    requires { site.old + site_count (view tree.now) ≤ length taps.now }
    ensures root { IfOk result
        (AddsBuilt gates.old.items gates.new.items (tree_built (wire_in names) width
        (operand_at width taps.now) (length gates.old.items) site.old (view tree.now))) }
    ensures sites { OnOk result (site.new ≡ site.old + site_count (view tree.now)) }
{
    match tree {
        Tree::Ref { .. } | Tree::Pick { .. } => {
            let at = *site;
            *site = at + 1;
            Ok(Operation::Plain(taps[at].copied(alloc)?))
        }
        Tree::Const(word) => Ok(Operation::Plain(Operand::Literal {
            width,
            value: word.bits,
        })),
        Tree::Binary { sign, left, right } => {
            let left = operand(alloc, names, width, taps, gates, site, left)?;
            let right = operand(alloc, names, width, taps, gates, site, right)?;
            operator(alloc, names, gates, *sign, left, right)
        }
        Tree::Choose {
            left,
            compare,
            right,
            yes,
            no,
        } => {
            let left = operand(alloc, names, width, taps, gates, site, left)?;
            let right = operand(alloc, names, width, taps, gates, site, right)?;
            let first = operand(alloc, names, width, taps, gates, site, yes)?;
            let second = operand(alloc, names, width, taps, gates, site, no)?;
            let test = compared(*compare, left, right);
            chosen(alloc, names, gates, test, first, second)
        }
        _ => Ok(Operation::Plain(Operand::Literal { width, value: 0 })),
    }
}

// The wires of a tree, and the operand that has its word.
#[cycle(build)]
fn operand(
    alloc: Global,
    names: WireNames,
    width: Width,
    taps: &[Operand],
    gates: &mut Vec<LaneGate>,
    site: &mut usize,
    of: &Tree,
) -> Result<Operand, Memory>
    requires { site.old + site_count (view of.now) ≤ length taps.now }
    ensures operand { IfOk result (AddsOperand
        (wire_in names) width gates.old.items gates.new.items (tree_built (wire_in names) width
        (operand_at width taps.now) (length gates.old.items) site.old (view of.now))) }
    ensures sites { OnOk result (site.new ≡ site.old + site_count (view of.now)) }
{
    let root = tree(alloc, names, width, taps, gates, site, of)?;
    named(alloc, names, gates, width, root)
}
