//! Layouts: the cells of all nodes with the computations on each.

ghost use Rattle.std.specs.Prelude.{◌≡◌, [], ◌<◌, ◌≤◌, ◌^◌, ◌+◌, List as Items, length, map, Some, slice_get, IfOk, IfErr, OnOk};
ghost use Rattle.av_flat.specs.Legal.{IsLegal};
ghost use Rattle.av_flat.specs.Trees.{view_system};
ghost use Rattle.av_space.specs.Coordinates.{Placing, IsPlacing, ArePlacings};
ghost use Rattle.av_space.specs.SpaceFaults.{IsCycles, IsSpaceFault};
ghost use Rattle.av_flat.specs.Nodes.{nodes};
ghost use Rattle.av_space.specs.Layouts.{IsLayout};
ghost use Rattle.av_space.specs.inner.Laying.{HasFewCycles, HasCellCount, AreCellsIn, AreFilled};

use crate::cells::Cell;
use crate::cycles::cycle_count;
use crate::fault::SpaceFault;
use crate::layout::{Layout, Slot};
use crate::placement::Placement;
use crate::placing::placements;
use crate::ranked::{Ranked, node_ranked, run_end};
use crate::timed_nodes::TimedNodes;
use av_base::limits::{MOST_CELLS, MOST_CYCLES};
use av_base::{List, Memory};
use av_flat::{Node, Timed};
use std::alloc::Global;

// The number of cells of a node.
fn node_cells(
    alloc: Global,
    timed: &TimedNodes<'_>,
    node: Node,
    placement: &Placement,
) -> Result<usize, Memory>
    requires within { node.0 < length (nodes (view_system timed.now.flat)) }
    requires placing { IsPlacing placement.now }
    requires time { slice_get timed.now.times node.0 ≡ Some placement.now.time }
    requires ends { HasFewCycles timed.now }
    ensures number { IfOk result (λ count. (placings : Items Placing)
        → slice_get placings node.0 ≡ Some placement.now
        → HasCellCount (view_system timed.now.flat) placings node.0 (node.0 + 1) count) }
    ensures some { IfOk result (λ count. 0 < count) }
{
    let all = node_ranked(alloc, timed, node, placement)?;
    let ranked = all.as_slice();
    let mut count: usize = 0;
    let mut start: usize = 0;
    while start < ranked.len() {
        start = run_end(ranked, start);
        count += 1;
    }
    Ok(count)
}

// The placement of a node.
fn placement_at<'p>(
    timed: &TimedNodes<'_>,
    placements: &'p List<Placement>,
    node: Node,
) -> &'p Placement
    requires placings { ArePlacings timed.now.times placements.now }
    requires within { node.0 < length (nodes (view_system timed.now.flat)) }
    ensures is { slice_get placements.now node.0 ≡ Some result.now }
    ensures placing { IsPlacing result.now }
    ensures time { slice_get timed.now.times node.0 ≡ Some result.now.time }
{
    let count = timed.len();
    prove!(node.0 < count);
    &placements.as_slice()[node.0]
}

// The number of cells of all nodes, which is no less than that of the nodes.
fn cell_count(
    alloc: Global,
    timed: &TimedNodes<'_>,
    placements: &List<Placement>,
) -> Result<u128, Memory>
    requires placings { ArePlacings timed.now.times placements.now }
    requires ends { HasFewCycles timed.now }
    ensures number { IfOk result
        (HasCellCount (view_system timed.now.flat) placements.now 0
        (length (nodes (view_system timed.now.flat)))) }
    ensures nodes { IfOk result (λ count. length (nodes (view_system timed.now.flat)) ≤ count) }
{
    let mut count: u128 = 0;
    for node in 0..timed.len() {
        let placement = placement_at(timed, placements, Node(node));
        let cells = node_cells(alloc, timed, Node(node), placement)?;
        count += cells as u128;
    }
    Ok(count)
}

// The computations alone.
fn slots_of(alloc: Global, ranked: &[Ranked]) -> Result<List<Slot>, Memory>
    ensures { IfOk result (λ slots. slots ≡ map (λ r. r.slot) ranked.now) }
{
    let mut slots = List::new(alloc);
    for computation in ranked {
        slots.push(computation.slot.copied())?;
    }
    Ok(slots)
}

// Appends the cells of a node to those of the nodes before, with the computations on each.
fn add_node(
    alloc: Global,
    timed: &TimedNodes<'_>,
    node: Node,
    placement: &Placement,
    cells: &mut List<Cell>,
    slots: &mut List<List<Slot>>,
) -> Result<(), Memory>
    requires within { node.0 < length (nodes (view_system timed.now.flat)) }
    requires placing { IsPlacing placement.now }
    requires time { slice_get timed.now.times node.0 ≡ Some placement.now.time }
    requires ends { HasFewCycles timed.now }
    requires few { node.0 < 2 ^ 32 }
    ensures cells { OnOk result ((placings : Items Placing) → slice_get placings node.0
        ≡ Some placement.now → AreCellsIn (view_system timed.now.flat) placings 0 node.0 cells.old
        → AreCellsIn (view_system timed.now.flat) placings 0 (node.0 + 1) cells.new) }
    ensures slots { OnOk result ((placings : Items Placing) → slice_get placings node.0
        ≡ Some placement.now → AreFilled (view_system timed.now.flat) placings cells.old slots.old
        → AreFilled (view_system timed.now.flat) placings cells.new slots.new) }
{
    let all = node_ranked(alloc, timed, node, placement)?;
    let ranked = all.as_slice();
    let mut start: usize = 0;
    while start < ranked.len() {
        let end = run_end(ranked, start);
        let own = slots_of(alloc, &ranked[start..end])?;
        cells.push(Cell {
            node: node.0 as u32,
            at: placement.coordinates(&ranked[start].slot.point),
        })?;
        slots.push(own)?;
        start = end;
    }
    Ok(())
}

// Puts the cells of all nodes into the lists, with the computations on each.
fn add_nodes(
    alloc: Global,
    timed: &TimedNodes<'_>,
    placements: &List<Placement>,
    cells: &mut List<Cell>,
    slots: &mut List<List<Slot>>,
) -> Result<(), Memory>
    requires placings { ArePlacings timed.now.times placements.now }
    requires ends { HasFewCycles timed.now }
    requires cells { cells.old ≡ [] }
    requires slots { slots.old ≡ [] }
    ensures cells { OnOk result
        (AreCellsIn (view_system timed.now.flat) placements.now 0
        (length (nodes (view_system timed.now.flat))) cells.new) }
    ensures slots { OnOk result
        (AreFilled (view_system timed.now.flat) placements.now cells.new slots.new) }
{
    for node in 0..timed.len() {
        let placement = placement_at(timed, placements, Node(node));
        add_node(alloc, timed, Node(node), placement, cells, slots)?;
    }
    Ok(())
}

// The cells of all nodes, with the computations on each.
#[derive(Drop)]
struct Filled {
    cells: List<Cell>,
    slots: List<List<Slot>>,
}

// The cells of all nodes of a system with few cycles.
fn cells_filled(
    alloc: Global,
    timed: &TimedNodes<'_>,
    placements: &List<Placement>,
) -> Result<Filled, Memory>
    requires placings { ArePlacings timed.now.times placements.now }
    requires ends { HasFewCycles timed.now }
    ensures cells { IfOk result (λ f.
        AreCellsIn (view_system timed.now.flat) placements.now 0
        (length (nodes (view_system timed.now.flat))) f.cells) }
    ensures slots { IfOk result (λ f.
        AreFilled (view_system timed.now.flat) placements.now f.cells f.slots) }
{
    let mut cells = List::new(alloc);
    let mut slots = List::new(alloc);
    add_nodes(alloc, timed, placements, &mut cells, &mut slots)?;
    Ok(Filled { cells, slots })
}

// The number of cycles, if it is within its limit.
fn limited_cycles(alloc: Global, timed: &TimedNodes<'_>) -> Result<u32, SpaceFault>
    ensures cycles { IfOk result (IsCycles timed.now) }
    ensures limit { IfOk result (λ cycles. cycles ≤ 4096) }
    ensures refused { IfErr result (IsSpaceFault timed.now) }
{
    let cycles = cycle_count(alloc, timed)?;
    if cycles > MOST_CYCLES {
        return Err(SpaceFault::Cycles(cycles));
    }
    Ok(cycles as u32)
}

// Refuses a system with more nodes than it may have cells. Its cells are counted and not made.
fn limit_nodes(
    alloc: Global,
    timed: &TimedNodes<'_>,
    placements: &List<Placement>,
    cycles: u32,
) -> Result<(), SpaceFault>
    requires placings { ArePlacings timed.now.times placements.now }
    requires cycles { IsCycles timed.now cycles }
    requires limit { cycles ≤ 4096 }
    ensures few { OnOk result (length (nodes (view_system timed.now.flat)) ≤ 2048) }
    ensures refused { IfErr result (IsSpaceFault timed.now) }
{
    let nodes = timed.len() as u128;
    if nodes > MOST_CELLS {
        let count = cell_count(alloc, timed, placements)?;
        return Err(SpaceFault::Cells(count));
    }
    Ok(())
}

// The layout of a system, or the first of the cycles and the cells that are above their limit.
fn layout_of(alloc: Global, timed: &TimedNodes<'_>) -> Result<Layout, SpaceFault>
    ensures whole { IfOk result (IsLayout timed.now) }
    ensures refused { IfErr result (IsSpaceFault timed.now) }
{
    let cycles = limited_cycles(alloc, timed)?;
    let placements = placements(alloc, timed)?;
    limit_nodes(alloc, timed, &placements, cycles)?;
    let filled = cells_filled(alloc, timed, &placements)?;
    let count = filled.cells.len() as u128;
    if count > MOST_CELLS {
        return Err(SpaceFault::Cells(count));
    }
    Ok(Layout {
        placements,
        cells: filled.cells,
        slots: filled.slots,
        cycles,
    })
}

/// The layout of a legal timed system, or the first of the cycles and the cells that are above their limit. The cells are counted once
/// they stand, so that each node's points are ordered once.
pub fn lay_out(alloc: Global, timed: &Timed) -> Result<Layout, SpaceFault>
    requires { IsLegal timed.now }
    ensures whole { IfOk result (IsLayout timed.now) }
    ensures refused { IfErr result (IsSpaceFault timed.now) }
{
    let nodes = TimedNodes::new(alloc, timed)?;
    layout_of(alloc, &nodes)
}
