//! Cells of outputs, and where each computed point is shown: node by node, and point by point.

ghost use Rattle.std.specs.Prelude.{◌≡◌, ◌+◌, ◌<◌, ◌≤◌, AllPairs, IfOk, OnOk, length};
ghost use Rattle.av_flat.specs.declared.flat.Kind.TheVariants.{Output};
ghost use Rattle.av_flat.specs.Nodes.{IsComputation};
ghost use Rattle.av_flat.specs.Signatures.{is_kind, is_shown};
ghost use Rattle.av_space.specs.Listings.{IsWireOf, IsAtLine, AreAtLines};
ghost use Rattle.av_space.specs.Ports.{output_cells};
ghost use Rattle.av_space.specs.inner.Scheduled.{system_of, placings_of, cells_of};
ghost use Rattle.av_space.specs.inner.Showing.{AreWires, IsShownNode, AreLinesBelow};

use crate::locate::locate;
use crate::numbers::CellNumber;
use crate::points::node_points;
use crate::scheduled::ScheduledSystem;
use av_base::{List, Memory, Name, Point};
use av_flat::{Kind, Node, Var};
use av_net::Entry;
use std::alloc::Global;

// A node whose points are shown, and the numbers of the cells of outputs.
#[derive(Drop)]
struct ShownNode<'s, 'a> {
    scheduled: &'s ScheduledSystem<'a>,
    outputs: &'s [u32],
    /// Of each cell.
    wires: &'s [Name],
    node: Node,
    var: &'a Var,
}

// Whether a variable of this kind is an output.
fn is_output(kind: Kind) -> bool
    ensures { result ≡ is_kind kind Output }
{
    match kind {
        Kind::Output => true,
        Kind::Input | Kind::Local | Kind::Partial => false,
    }
}

// Whether the points of a variable of this kind are shown.
fn is_shown(kind: Kind) -> bool
    ensures { result ≡ is_shown kind }
{
    match kind {
        Kind::Input | Kind::Output | Kind::Local => true,
        Kind::Partial => false,
    }
}

/// The numbers of the cells of outputs, in order.
pub(crate) fn output_cells(
    alloc: Global,
    scheduled: &ScheduledSystem<'_>,
) -> Result<List<u32>, Memory>
    ensures { IfOk result (λ outputs.
        outputs ≡ output_cells (system_of scheduled.now) (cells_of scheduled.now)) }
{
    let mut outputs = List::new(alloc);
    for (number, cell) in scheduled.cells().iter().enumerate() {
        let var = scheduled.variable(Node(cell.node as usize));
        if is_output(var.kind) {
            outputs.push(number as u32)?;
        }
    }
    Ok(outputs)
}

// The output port of a cell, or else its value wire.
fn wire_of(alloc: Global, outputs: &[u32], cell: CellNumber) -> Result<Name, Memory>
    requires order { AllPairs (λ a b. a < b) outputs.now }
    ensures { IfOk result (IsWireOf outputs.now cell.0) }
{
    let cell = cell.0;
    let wire = match outputs.binary_search(&cell) {
        Ok(port) => format!(in alloc; "o{port}")?,
        Err(_) => format!(in alloc; "c{cell}")?,
    };
    Name::new(alloc, wire.as_str())
}

// The wires of so many cells.
fn wires_of(alloc: Global, outputs: &[u32], count: usize) -> Result<List<Name>, Memory>
    requires order { AllPairs (λ a b. a < b) outputs.now }
    requires few { count ≤ 2048 }
    ensures { IfOk result (AreWires outputs.now count) }
{
    let mut wires = List::new(alloc);
    for cell in 0..count {
        wires.push(wire_of(alloc, outputs, CellNumber(cell as u32))?)?;
    }
    Ok(wires)
}

impl ShownNode<'_, '_> {
    // The wire of a cell.
    fn wire(&self, alloc: Global, cell: CellNumber) -> Result<Name, Memory>
        requires node { IsShownNode self.now }
        requires cell { cell.0 < length (cells_of self.now.scheduled.now) }
        ensures { IfOk result (IsWireOf self.now.outputs.now cell.0) }
    {
        let wires = self.wires;
        Name::new(alloc, wires[cell.0 as usize].as_str())
    }

    // The line of a point of the node.
    fn line(&self, alloc: Global, z: &Point) -> Result<Entry, Memory>
        requires node { IsShownNode self.now }
        requires computation { IsComputation
            (system_of self.now.scheduled.now) self.now.node.0 z.now }
        ensures { IfOk result (λ line. (line.point ≡ z.now) × IsAtLine
            (system_of self.now.scheduled.now) (placings_of self.now.scheduled.now)
            (cells_of self.now.scheduled.now) self.now.outputs.now
            (record { node = self.now.node.0; entry = line })) }
    {
        let located = locate(self.scheduled, self.node, z);
        Ok(Entry {
            variable: Name::new(alloc, self.var.name.as_str())?,
            point: Point::from_slice(z.as_slice()),
            wire: self.wire(alloc, located.cell)?,
            cycle: located.cycle,
        })
    }
}

// Appends the lines of a node to those of earlier nodes.
fn add_lines(alloc: Global, shown: &ShownNode, lines: &mut List<Entry>) -> Result<(), Memory>
    requires node { IsShownNode shown.now }
    requires old { AreLinesBelow
        shown.now.scheduled.now shown.now.outputs.now shown.now.node.0 lines.old }
    ensures { OnOk result (AreLinesBelow
        shown.now.scheduled.now shown.now.outputs.now (shown.now.node.0 + 1) lines.new) }
{
    let points = node_points(alloc, shown.scheduled.timed(), shown.node)?;
    for z in points.as_slice() {
        lines.push(shown.line(alloc, z)?)?;
    }
    Ok(())
}

/// Where the points of outputs and locals are shown, by node and point.
pub(crate) fn at_lines(
    alloc: Global,
    scheduled: &ScheduledSystem<'_>,
    outputs: &[u32],
) -> Result<List<Entry>, Memory>
    requires { outputs.now
        ≡ output_cells (system_of scheduled.now) (cells_of scheduled.now) }
    ensures { IfOk result (AreAtLines (system_of scheduled.now)
        (placings_of scheduled.now) (cells_of scheduled.now) outputs.now) }
{
    let cells = scheduled.cells();
    let names = wires_of(alloc, outputs, cells.len())?;
    let wires = names.as_slice();
    let mut lines = List::new(alloc);
    for node in 0..scheduled.node_count() {
        let var = scheduled.variable(Node(node));
        if !is_shown(var.kind) {
            continue;
        }
        let shown = ShownNode {
            scheduled,
            outputs,
            wires,
            node: Node(node),
            var,
        };
        add_lines(alloc, &shown, &mut lines)?;
    }
    Ok(lines)
}
