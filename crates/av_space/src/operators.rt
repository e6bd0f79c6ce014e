//! The operators of an array: the sizes of the trees of all pieces on all cells. The nodes of a tree are gathered in a list, which has
//! fewer than 2^32 items, so each size has 32 bits and no sum of them wraps.

ghost use Rattle.std.specs.Prelude.{◌≡◌, ◌↔◌, ◌+◌, ◌^◌, ◌<◌, ◌≤◌, All, Any, IfOk, OnOk, IsTrue, length, map};
ghost use Rattle.av_flat.specs.Nodes.{nodes};
ghost use Rattle.av_flat.specs.Points.{has};
ghost use Rattle.av_flat.specs.Trees.{view, view_system, view_variable};
ghost use Rattle.av_depend.specs.SetPoints.{IsPointOf};
ghost use Rattle.av_space.specs.Quantities.{size, IsOperatorCount};
ghost use Rattle.av_space.specs.inner.Apart.{AreOfNode};
ghost use Rattle.av_space.specs.inner.Counting.{piece_sizes, IsCountOf, IsOnCell};
ghost use Rattle.av_space.specs.inner.Scheduled.{system_of, placings_of, cells_of};

use crate::apart::are_apart;
use crate::layout::Slot;
use crate::numbers::CellNumber;
use crate::scheduled::ScheduledSystem;
use crate::timed_nodes::TimedNodes;
use av_base::{List, Memory};
use av_flat::{Node, Piece, Tree, Var};
use std::alloc::Global;

// Puts the references, constants, operators, choices and picks of a tree into a list.
fn add_nodes<'a>(tree: &'a Tree, nodes: &mut List<&'a Tree>) -> Result<(), Memory>
    ensures { OnOk result (length nodes.new ≡ length nodes.old + size (view tree.now)) }
{
    match tree {
        Tree::Ref { .. } | Tree::Const(_) | Tree::Pick { .. } => nodes.push(tree),
        Tree::Binary { left, right, .. } => {
            add_nodes(left, nodes)?;
            add_nodes(right, nodes)?;
            nodes.push(tree)
        }
        Tree::Choose {
            left,
            right,
            yes,
            no,
            ..
        } => {
            add_nodes(left, nodes)?;
            add_nodes(right, nodes)?;
            add_nodes(yes, nodes)?;
            add_nodes(no, nodes)?;
            nodes.push(tree)
        }
        Tree::Restrict { .. } | Tree::Case { .. } | Tree::Depend { .. } | Tree::Reduce { .. } => {
            Ok(())
        }
    }
}

// How many they are.
fn size(alloc: Global, tree: &Tree) -> Result<u32, Memory>
    ensures { IfOk result (λ n. n ≡ size (view tree.now)) }
{
    let mut nodes = List::new(alloc);
    add_nodes(tree, &mut nodes)?;
    Ok(nodes.len() as u32)
}

// The sizes of the trees of a variable's pieces.
fn sizes_of(alloc: Global, var: &Var) -> Result<List<u32>, Memory>
    ensures { IfOk result (λ sizes. sizes ≡ piece_sizes (view_variable var.now)) }
{
    let mut sizes = List::new(alloc);
    for piece in var.pieces.as_slice() {
        sizes.push(size(alloc, &piece.tree)?)?;
    }
    Ok(sizes)
}

// Those of all nodes.
fn all_sizes(alloc: Global, timed: &TimedNodes<'_>) -> Result<List<List<u32>>, Memory>
    ensures { IfOk result (λ sizes. sizes ≡ map piece_sizes (nodes (view_system timed.now.flat))) }
{
    let mut sizes = List::new(alloc);
    for node in 0..timed.len() {
        let var = timed.variable(Node(node));
        sizes.push(sizes_of(alloc, var)?)?;
    }
    Ok(sizes)
}

// Whether the piece has the point of a computation, as each of them tells.
fn has_any(slots: &[Slot], piece: &Piece) -> bool
    requires { All (λ t. IsPointOf piece.now.domain t.point) slots.now }
    ensures { IsTrue result ↔ Any (λ t. IsTrue (has piece.now.domain t.point)) slots.now }
{
    for slot in slots {
        if piece.domain.contains(&slot.point) {
            return true;
        }
    }
    false
}

// Whether the piece has the point of a computation on a cell.
fn is_used(slots: &[Slot], piece: &Piece) -> bool
    requires { AreOfNode piece.now.domain slots.now }
    ensures { IsTrue result ↔ Any (λ t. IsTrue (has piece.now.domain t.point)) slots.now }
{
    if are_apart(slots, &piece.domain) {
        false
    } else {
        has_any(slots, piece)
    }
}

// Those of the pieces on a cell.
fn cell_operators(scheduled: &ScheduledSystem<'_>, sizes: &[List<u32>], cell: CellNumber) -> u128
    requires sizes { sizes.now ≡ map piece_sizes (nodes (system_of scheduled.now)) }
    requires cell { cell.0 < length (cells_of scheduled.now) }
    ensures count { IsCountOf (system_of scheduled.now)
        (placings_of scheduled.now) (cells_of scheduled.now) (IsOnCell cell.0) result }
    ensures most { result ≤ 2 ^ 96 }
{
    let node = Node(scheduled.cells()[cell.0 as usize].node as usize);
    let var = scheduled.variable(node);
    let slots = scheduled.slots()[cell.0 as usize].as_slice();
    let own = sizes[node.0].as_slice();
    let mut sum: u128 = 0;
    for (number, piece) in var.pieces.as_slice().iter().enumerate() {
        if is_used(slots, piece) {
            sum += own[number] as u128;
        }
    }
    sum
}

/// The sizes of the trees of all pieces with a computation on a cell, cell by cell.
pub(crate) fn operators(alloc: Global, scheduled: &ScheduledSystem<'_>) -> Result<u128, Memory>
    ensures { IfOk result (IsOperatorCount
        (system_of scheduled.now) (placings_of scheduled.now) (cells_of scheduled.now)) }
{
    let sizes = all_sizes(alloc, scheduled.timed())?;
    let mut sum: u128 = 0;
    for cell in 0..scheduled.cells().len() {
        sum += cell_operators(scheduled, sizes.as_slice(), CellNumber(cell as u32));
    }
    Ok(sum)
}
