//! Input ports, and the lines of the reads at them: node by node, piece by piece, reference by reference and cell by cell, and the
//! lines of one port by cycle.

ghost use Rattle.std.specs.Prelude.{ℕ, ◌≡◌, ◌<◌, ◌≤◌, ◌+◌, ◌++◌, ◌^◌, List as Items, All, AllPairs, IfOk, OnOk, Some, slice_get, length, filter};
ghost use Rattle.av_flat.specs.Broadcasts.{references};
ghost use Rattle.av_flat.specs.Nodes.{nodes};
ghost use Rattle.av_flat.specs.Points.{has};
ghost use Rattle.av_flat.specs.Trees.{reference, view};
ghost use Rattle.av_depend.specs.SetPoints.{IsPointOf};
ghost use Rattle.av_space.specs.declared.layout.Slot.{Slot as SlotSeen};
ghost use Rattle.av_space.specs.Listings.{input_name, AreInLines};
ghost use Rattle.av_space.specs.Ports.{ArePorts};
ghost use Rattle.av_space.specs.Occupancy.{IsCellBefore};
ghost use Rattle.av_space.specs.inner.Feeding.{is_entered, lines_at, with_port, IsReadable, IsFirstOf};
ghost use Rattle.av_space.specs.inner.NodePieces.{AreCellsOf, AreOfPiece, AreOwnSlots, IsNodePiece, IsPart, IsInputSite, ArePortsAt, ArePortsOf};
ghost use Rattle.av_space.specs.inner.Scheduled.{system_of, helpers_of, placings_of, cells_of};

use crate::apart::slots_in;
use crate::cells::{Cell, InPort};
use crate::input_site::{InputSite, direction_of};
use crate::layout::Slot;
use crate::linking::piece_at;
use crate::numbers::CellNumber;
use crate::scheduled::ScheduledSystem;
use crate::tapping::ReferenceAt;
use av_base::{List, Memory, Name};
use av_flat::{Node, Piece, Reference, SiteNumber, tree_references};
use av_net::Entry;
use std::alloc::Global;

/// The input ports of an array, and the lines of the reads at them.
#[derive(Debug, Drop)]
pub(crate) struct Ports {
    pub(crate) inputs: List<InPort>,
    pub(crate) ins: List<Entry>,
}

// A node, and its cells: those from `first` on and before `last`.
#[derive(Clone, Copy)]
struct NodeCells {
    node: Node,
    first: usize,
    last: usize,
}

// A piece of a node, and the cells of the node.
#[derive(Drop)]
struct NodePiece<'s, 'a> {
    scheduled: &'s ScheduledSystem<'a>,
    node: Node,
    piece: &'a Piece,
    number: u32,
    first: usize,
    last: usize,
    /// Of each of the cells the computations that are points of the piece.
    own: List<List<Slot>>,
}

// The wire of the input port with this number.
fn input_wire(alloc: Global, port: usize) -> Result<Name, Memory>
    ensures { IfOk result (λ wire. wire ≡ input_name port) }
{
    let wire = format!(in alloc; "i{port}")?;
    Name::new(alloc, wire.as_str())
}

// Appends the lines of the reads at the port with this wire.
fn add_lines(
    alloc: Global,
    site: &InputSite,
    wire: &Name,
    slots: &[Slot],
    ins: &mut List<Entry>,
) -> Result<(), Memory>
    requires readable { IsReadable site.now.domain.now site.now.direction site.now.map.now }
    requires points { All (λ t. IsPointOf site.now.domain.now t.point) slots.now }
    ensures { OnOk result (ins.new
        ≡ ins.old ++ lines_at wire.now site.now.input.now.name site.now.map.now
        (filter (λ t. is_entered site.now.domain.now site.now.direction t.point) slots.now)) }
{
    for slot in slots {
        if site.is_entered(&slot.point) {
            ins.push(site.line(alloc, wire, slot)?)?;
        }
    }
    Ok(())
}

// Appends the port of a reference on a cell, with its lines, if it has a read there.
fn add_port(
    alloc: Global,
    site: &InputSite,
    port: InPort,
    slots: &[Slot],
    ports: &mut Ports,
) -> Result<(), Memory>
    requires readable { IsReadable site.now.domain.now site.now.direction site.now.map.now }
    requires points { All (λ t. IsPointOf site.now.domain.now t.point) slots.now }
    requires few { length ports.old.inputs ≤ 2 ^ 64 }
    ensures ports { OnOk result (ports.new
        ≡ with_port port site.now.input.now.name site.now.map.now ports.old
        (filter (λ t. is_entered site.now.domain.now site.now.direction t.point) slots.now)) }
    ensures few { OnOk result (length ports.new.inputs ≤ 2 ^ 64) }
{
    if slots.is_empty() {
        return Ok(());
    }
    let number = ports.inputs.as_slice().len();
    let before = ports.ins.as_slice().len();
    let wire = input_wire(alloc, number)?;
    add_lines(alloc, site, &wire, slots, &mut ports.ins)?;
    let after = ports.ins.as_slice().len();
    if after == before {
        return Ok(());
    }
    ports.inputs.push(port)
}

// The computations on a cell of the node that are points of the piece.
fn own_slots<'s>(at: &'s NodePiece, cell: CellNumber) -> &'s [Slot]
    requires at { IsNodePiece at.now }
    requires low { at.now.first ≤ cell.0 }
    requires high { cell.0 < at.now.last }
    ensures { (slots : Items SlotSeen)
        → slice_get at.now.scheduled.now.layout.slots cell.0 ≡ Some slots → result.now
        ≡ filter (λ t. has at.now.piece.now.domain t.point) slots }
{
    let own = at.own.as_slice();
    let place = cell.0 as usize - at.first;
    own[place].as_slice()
}

// The ports of a reference to an input, cell by cell.
fn add_site(
    alloc: Global,
    at: &NodePiece,
    number: SiteNumber,
    site: &InputSite,
    ports: &mut Ports,
) -> Result<(), Memory>
    requires at { IsNodePiece at.now }
    requires site { IsInputSite at.now number.0 site.now }
    requires old { ArePortsAt at.now number.0 at.now.first ports.old }
    ensures { OnOk result (ArePortsAt at.now number.0 at.now.last ports.new) }
{
    for cell in at.first..at.last {
        let port = InPort {
            cell: cell as u32,
            piece: at.number,
            site: number.0,
        };
        let slots = own_slots(at, CellNumber(cell as u32));
        add_port(alloc, site, port, slots, ports)?;
    }
    Ok(())
}

// The ports of a reference, if it reads an input.
fn add_reference(
    alloc: Global,
    at: &NodePiece,
    number: SiteNumber,
    read: &Reference<'_>,
    ports: &mut Ports,
) -> Result<(), Memory>
    requires at { IsNodePiece at.now }
    requires part { IsPart at.now number.0 (reference read.now.place read.now.map) }
    requires old { ArePortsAt at.now number.0 at.now.first ports.old }
    ensures { OnOk result (ArePortsAt at.now (number.0 + 1) at.now.first ports.new) }
{
    let nodes = at.scheduled.timed();
    let timed = nodes.system();
    let input = &timed.flat.vars.as_slice()[read.var.0 as usize];
    if input.kind.is_computed() {
        return Ok(());
    }
    let place = nodes.place(at.node);
    let own = ReferenceAt {
        place,
        piece: at.number as usize,
        site: number,
    };
    let helpers = timed.helpers.as_slice();
    let site = InputSite {
        domain: &at.piece.domain,
        direction: direction_of(helpers, own),
        input,
        map: read.map,
    };
    add_site(alloc, at, number, &site, ports)
}

// The ports of the references in the piece.
fn add_piece(alloc: Global, at: &NodePiece, ports: &mut Ports) -> Result<(), Memory>
    requires at { IsNodePiece at.now }
    requires old { ArePortsAt at.now 0 at.now.first ports.old }
    ensures { OnOk result (ArePortsAt at.now
        (length (references (view at.now.piece.now.tree))) at.now.first ports.new) }
{
    let piece = at.piece;
    let found = tree_references(alloc, &piece.tree)?;
    for number in 0..found.len() {
        let read = &found.as_slice()[number];
        add_reference(alloc, at, SiteNumber(number as u32), read, ports)?;
    }
    Ok(())
}

// Of each of these cells of a node the computations that are points of a piece of the node.
fn slots_of_piece(
    alloc: Global,
    rows: &[List<Slot>],
    piece: &Piece,
    cells: NodeCells,
) -> Result<List<List<Slot>>, Memory>
    requires slots { AreOfPiece rows.now piece.now.domain cells.first cells.last }
    requires ordered { cells.first ≤ cells.last }
    requires within { cells.last ≤ length rows.now }
    ensures { IfOk result (AreOwnSlots rows.now piece.now.domain cells.first cells.last) }
{
    let mut own = List::new(alloc);
    for cell in cells.first..cells.last {
        let slots = rows[cell].as_slice();
        let part = slots_in(alloc, slots, &piece.domain)?;
        own.push(part)?;
    }
    Ok(own)
}

// The ports of a node with these cells.
fn add_node(
    alloc: Global,
    scheduled: &ScheduledSystem<'_>,
    cells: NodeCells,
    ports: &mut Ports,
) -> Result<(), Memory>
    requires node { cells.node.0 < length (nodes (system_of scheduled.now)) }
    requires cells { AreCellsOf (cells_of scheduled.now) cells }
    requires old { ArePortsOf scheduled.now cells.node.0 0 cells.first ports.old }
    ensures { OnOk result (ArePortsOf scheduled.now (cells.node.0 + 1) 0 cells.last ports.new) }
{
    let var = scheduled.variable(cells.node);
    for number in 0..var.pieces.len() {
        let piece = piece_at(var, number);
        let own = slots_of_piece(alloc, scheduled.slots(), piece, cells)?;
        let at = NodePiece {
            scheduled,
            node: cells.node,
            piece,
            number: number as u32,
            first: cells.first,
            last: cells.last,
            own,
        };
        add_piece(alloc, &at, ports)?;
    }
    Ok(())
}

// The number of the first cell behind those of a node, which begin here.
fn end_of(cells: &[Cell], node: Node, first: usize) -> usize
    requires order { AllPairs IsCellBefore cells.now }
    requires first { IsFirstOf cells.now node.0 first }
    requires within { first ≤ length cells.now }
    ensures ordered { first ≤ result }
    ensures last { IsFirstOf cells.now (node.0 + 1) result }
    ensures within { result ≤ length cells.now }
{
    for number in first..cells.len() {
        if cells[number].node as usize != node.0 {
            return number;
        }
    }
    cells.len()
}

// Puts the ports of all nodes into the lists.
fn add_nodes(
    alloc: Global,
    scheduled: &ScheduledSystem<'_>,
    ports: &mut Ports,
) -> Result<(), Memory>
    requires { ArePortsOf scheduled.now 0 0 0 ports.old }
    ensures ports { OnOk result (ArePorts (system_of scheduled.now) (helpers_of scheduled.now)
        (placings_of scheduled.now) (cells_of scheduled.now) ports.new.inputs) }
    ensures lines { OnOk result (AreInLines (system_of scheduled.now) (helpers_of scheduled.now)
        (placings_of scheduled.now) (cells_of scheduled.now) ports.new.inputs ports.new.ins) }
    ensures few { OnOk result (length ports.new.inputs ≤ 2 ^ 64) }
{
    let cells = scheduled.cells();
    let mut first = 0;
    for node in 0..scheduled.node_count() {
        let last = end_of(cells, Node(node), first);
        let own = NodeCells {
            node: Node(node),
            first,
            last,
        };
        add_node(alloc, scheduled, own, ports)?;
        first = last;
    }
    Ok(())
}

/// The input ports of the array of a legal system, in order, and the lines of the reads at them.
pub(crate) fn input_ports(alloc: Global, scheduled: &ScheduledSystem<'_>) -> Result<Ports, Memory>
    ensures ports { IfOk result (λ p. ArePorts (system_of scheduled.now)
        (helpers_of scheduled.now) (placings_of scheduled.now) (cells_of scheduled.now) p.inputs) }
    ensures lines { IfOk result (λ p. AreInLines
        (system_of scheduled.now) (helpers_of scheduled.now) (placings_of scheduled.now)
        (cells_of scheduled.now) p.inputs p.ins) }
    ensures few { IfOk result (λ p. length p.inputs ≤ 2 ^ 64) }
{
    let mut ports = Ports {
        inputs: List::new(alloc),
        ins: List::new(alloc),
    };
    add_nodes(alloc, scheduled, &mut ports)?;
    Ok(ports)
}
