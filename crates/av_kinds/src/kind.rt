//! The kinds of cells.

ghost use Rattle.std.specs.Prelude.{◌≡◌, ◌<◌, [], ◌∷◌, ◌++◌, length, map, IfOk, OnOk};
ghost use Rattle.std.specs.List.{AllByRecursion};
ghost use Rattle.av_net.specs.declared.operation.Operand.TheVariants as operand;
ghost use Rattle.av_kinds.specs.Names.{kind_counter};
ghost use Rattle.av_kinds.specs.Tops.{port};
ghost use Rattle.av_kinds.specs.inner.Gates.{ports_from, drives_from};
ghost use Rattle.av_kinds.specs.inner.Kinds.{kind_by};
ghost use Rattle.av_kinds.specs.inner.Modules.{IsSmallKind};
ghost use Rattle.av_kinds.specs.inner.Shapes.{lane_shape_of, IsKindShape};
ghost use Rattle.av_kinds.specs.inner.Numbered.{wire_in};
ghost use Rattle.av_kinds.specs.inner.Numbers as interfaces;
ghost use Rattle.av_kinds.specs.inner.Added.{HasTaps};
ghost use Rattle.av_kinds.specs.inner.Lanes.{HasNoParts, AddsLane, AddsLaneOf, IsOutputOf, counted};

use crate::choice::LaneDatapaths;
use crate::datapath::modes;
use crate::gates::LaneGate;
use crate::interface::Interface;
use crate::naming::{WireNames, numbered};
use crate::shape::{LaneShape, counts};
use av_base::{List, Memory, Name, Width};
use av_net::{CellKind, Drive, Operand, Operation, Port};
use std::alloc::Global;

/// What the lanes of a kind bring into it, but for its input ports.
#[derive(Drop)]
pub(crate) struct KindParts {
    pub(crate) outputs: List<Port>,
    pub(crate) wires: List<Port>,
    pub(crate) drives: List<Drive>,
}

// A wire of a lane: its drive and its declaration.
fn add_gate(
    alloc: Global,
    names: WireNames,
    number: usize,
    gate: LaneGate,
    wires: &mut List<Port>,
    drives: &mut List<Drive>,
) -> Result<(), Memory>
    ensures wires { OnOk result (wires.new
        ≡ wires.old ++ port gate.width (wire_in names number) ∷ []) }
    ensures drives { OnOk result (drives.new
        ≡ drives.old ++ record { target = wire_in names number; operation = gate.operation } ∷ []) }
{
    let LaneGate { width, operation } = gate;
    let target = names.wire(alloc, number)?;
    drives.push(Drive { target, operation })?;
    let name = names.wire(alloc, number)?;
    wires.push(Port { name, width })
}

// The wires of a lane but for its output: declarations and drives.
fn add_gates(
    alloc: Global,
    names: WireNames,
    gates: Vec<LaneGate>,
    wires: &mut List<Port>,
    drives: &mut List<Drive>,
) -> Result<(), Memory>
    ensures wires { OnOk result (wires.new
        ≡ wires.old ++ ports_from (wire_in names) 0 gates.items) }
    ensures drives { OnOk result (drives.new
        ≡ drives.old ++ drives_from (wire_in names) 0 gates.items) }
{
    for (number, gate) in gates.into_iter().enumerate() {
        add_gate(alloc, names, number, gate, wires, drives)?;
    }
    Ok(())
}

// The output of a lane, and its drive.
fn add_output(
    alloc: Global,
    name: Name,
    width: Width,
    root: Operation,
    outputs: &mut List<Port>,
    drives: &mut List<Drive>,
) -> Result<(), Memory>
    ensures outputs { OnOk result (outputs.new ≡ outputs.old ++ port width name ∷ []) }
    ensures drives { OnOk result (drives.new
        ≡ drives.old ++ record { target = name; operation = root } ∷ []) }
{
    let target = Name::new(alloc, name.as_str())?;
    drives.push(Drive {
        target,
        operation: root,
    })?;
    outputs.push(Port { name, width })
}

// A lane of a kind, whose output has this name.
fn add_lane(
    alloc: Global,
    counter: &Operand,
    name: Name,
    width: Width,
    lane: &LaneDatapaths<'_>,
    parts: &mut KindParts,
) -> Result<(), Memory>
    requires modes { AllByRecursion (λ t. HasTaps t.datapath) lane.now.modes }
    requires otherwise { HasTaps lane.now.otherwise }
    ensures { OnOk result (AddsLane counter.now name width lane.now parts.old parts.new) }
{
    let names = WireNames {
        first: parts.wires.len(),
    };
    let mut gates = Vec::new(alloc);
    let root = modes(alloc, counter, width, names, &mut gates, lane)?;
    add_gates(alloc, names, gates, &mut parts.wires, &mut parts.drives)?;
    add_output(
        alloc,
        name,
        width,
        root,
        &mut parts.outputs,
        &mut parts.drives,
    )
}

// The name of the output of a lane of so many: the last one has the value.
fn lane_output(alloc: Global, lane: usize, count: usize) -> Result<Name, Memory>
    requires { lane < count }
    ensures { IfOk result (IsOutputOf lane count) }
{
    if lane == count - 1 {
        Name::new(alloc, "v")
    } else {
        numbered(alloc, "p", lane as u128)
    }
}

// The lane of a shape with this number, and its ports.
fn add_lane_of(
    alloc: Global,
    counter: &Operand,
    shape: &[LaneShape<'_>],
    number: usize,
    interface: &mut Interface,
    parts: &mut KindParts,
) -> Result<(), Memory>
    requires there { number < length shape.now }
    requires shape { IsKindShape (map lane_shape_of shape.now) }
    requires few { interfaces.AreFew interface.old }
    ensures { OnOk result (AddsLaneOf counter.now
        (map lane_shape_of shape.now) number interface.old interface.new parts.old parts.new) }
{
    let lane = &shape[number];
    let own = interface.add_lane(alloc, lane)?;
    let name = lane_output(alloc, number, shape.len())?;
    add_lane(alloc, counter, name, lane.width, &own, parts)
}

// The interface of a shape without its lanes: the port of the counter, where it tests it.
fn opened(alloc: Global, shape: &[LaneShape<'_>]) -> Result<Interface, Memory>
    ensures { IfOk result (interfaces.IsOpened (counted (map lane_shape_of shape.now))) }
{
    if counts(shape) {
        Interface::new(alloc, Some(Name::new(alloc, "cyc")?))
    } else {
        Interface::new(alloc, None)
    }
}

// The operand with the number of the counter.
fn counter_operand(alloc: Global) -> Result<Operand, Memory>
    ensures { IfOk result (λ counter. counter ≡ operand.Name kind_counter) }
{
    Ok(Operand::Name(Name::new(alloc, "cyc")?))
}

// No outputs, wires and drives yet.
fn no_parts(alloc: Global) -> KindParts
    ensures { HasNoParts result }
{
    KindParts {
        outputs: List::new(alloc),
        wires: List::new(alloc),
        drives: List::new(alloc),
    }
}

/// The kind of this shape.
pub(crate) fn kind(
    alloc: Global,
    number: usize,
    shape: &[LaneShape<'_>],
) -> Result<CellKind, Memory>
    requires { IsKindShape (map lane_shape_of shape.now) }
    ensures is { IfOk result (λ kind. kind ≡ kind_by number (map lane_shape_of shape.now)) }
    ensures small { IfOk result IsSmallKind }
{
    let counter = counter_operand(alloc)?;
    let mut interface = opened(alloc, shape)?;
    let mut parts = no_parts(alloc);
    for lane in 0..shape.len() {
        add_lane_of(alloc, &counter, shape, lane, &mut interface, &mut parts)?;
    }
    prove!(interface.ports.len() <= 1 << 30);
    prove!(parts.outputs.len() <= 1 << 30);
    prove!(parts.wires.len() <= 1 << 30);
    Ok(CellKind {
        name: numbered(alloc, "k", number as u128)?,
        inputs: interface.ports,
        outputs: parts.outputs,
        wires: parts.wires,
        drives: parts.drives,
    })
}
