//! The top module: a wire and a delay line for each lane, and the counter, where a kind has one.

ghost use Rattle.std.specs.Prelude.{◌≡◌, ◌<◌, ◌∷◌, ◌++◌, [], length, IfOk, OnOk};
ghost use Rattle.std.specs.List.{AllByRecursion};
ghost use Rattle.av_kinds.specs.Written.{program_of};
ghost use Rattle.av_kinds.specs.Names.{labels, numbered, output_name};
ghost use Rattle.av_kinds.specs.Counters.{IsCounter};
ghost use Rattle.av_kinds.specs.Tops.{port, numbered_ports, output_widths, output_drives};
ghost use Rattle.av_kinds.specs.inner.Numbered.{value_in};
ghost use Rattle.av_kinds.specs.inner.Modules.{top_by};
ghost use Rattle.av_kinds.specs.inner.TopParts.{AddsLaneAt, AddsCounter, ArePartsOf, AreAllParts};

use crate::counter::{Counter, counter_width};
use crate::delay_line::{add_registers, add_steps};
use crate::naming::{LaneNames, lane_names, numbered};
use crate::program::Program;
use av_base::{List, Memory, Name, Width};
use av_net::{Drive, Module, Operand, Operation, Port, Step};
use std::alloc::Global;

/// What lanes and the counter bring into the top module.
#[derive(Drop)]
pub(crate) struct TopParts {
    pub(crate) wires: List<Port>,
    pub(crate) registers: List<Port>,
    pub(crate) drives: List<Drive>,
    pub(crate) steps: List<Step>,
}

// Ports with a letter and a number, as wide as these.
fn ports(alloc: Global, letter: &str, widths: &[Width]) -> Result<List<Port>, Memory>
    ensures { IfOk result (λ ports. ports ≡ numbered_ports (numbered letter.now) 0 widths.now) }
{
    let mut ports = List::new(alloc);
    for (number, width) in widths.iter().enumerate() {
        ports.push(Port {
            name: numbered(alloc, letter, number as u128)?,
            width: *width,
        })?;
    }
    Ok(ports)
}

// The widths of the output ports.
fn output_widths(alloc: Global, program: &Program<'_>) -> Result<List<Width>, Memory>
    requires { AllByRecursion (λ q. q < length program.now.lanes) program.now.outputs }
    ensures { IfOk result (λ widths. widths ≡ output_widths (program_of program.now)) }
{
    let lanes = program.lanes.as_slice();
    let mut widths = List::new(alloc);
    for number in program.outputs.as_slice() {
        let lane = &lanes[*number];
        widths.push(lane.width)?;
    }
    Ok(widths)
}

// The output ports, each as wide as its lane.
fn output_ports(alloc: Global, program: &Program<'_>) -> Result<List<Port>, Memory>
    requires { AllByRecursion (λ q. q < length program.now.lanes) program.now.outputs }
    ensures { IfOk result (λ ports.
        ports ≡ numbered_ports output_name 0 (output_widths (program_of program.now))) }
{
    let widths = output_widths(alloc, program)?;
    ports(alloc, "o", widths.as_slice())
}

// The wire with the word of a lane.
fn add_wire(
    alloc: Global,
    names: LaneNames,
    width: Width,
    wires: &mut List<Port>,
) -> Result<(), Memory>
    ensures { OnOk result (wires.new ≡ wires.old ++ port width (value_in names) ∷ []) }
{
    let name = names.value(alloc)?;
    wires.push(Port { name, width })
}

// The wire of a lane, and its delay line.
fn add_lane(
    alloc: Global,
    program: &Program<'_>,
    number: usize,
    parts: &mut TopParts,
) -> Result<(), Memory>
    requires { number < length program.now.lanes }
    ensures { OnOk result (AddsLaneAt (program_of program.now) number parts.old parts.new) }
{
    let lane = &program.lanes.as_slice()[number];
    let names = lane_names(program, number);
    add_wire(alloc, names, lane.width, &mut parts.wires)?;
    add_registers(alloc, lane.width, names, lane.length, &mut parts.registers)?;
    add_steps(alloc, names, lane.length, &mut parts.steps)
}

// What all lanes bring.
fn parts_of(alloc: Global, program: &Program<'_>) -> Result<TopParts, Memory>
    ensures { IfOk result (ArePartsOf (program_of program.now)) }
{
    let mut parts = TopParts {
        wires: List::new(alloc),
        registers: List::new(alloc),
        drives: List::new(alloc),
        steps: List::new(alloc),
    };
    for number in 0..program.lanes.len() {
        add_lane(alloc, program, number, &mut parts)?;
    }
    Ok(parts)
}

// Each output port has the word of its lane.
fn add_outputs(alloc: Global, program: &Program<'_>, drives: &mut List<Drive>) -> Result<(), Memory>
    requires { AllByRecursion (λ q. q < length program.now.lanes) program.now.outputs }
    ensures { OnOk result (drives.new
        ≡ drives.old ++ output_drives (labels (program_of program.now)) 0 program.now.outputs) }
{
    for (number, lane) in program.outputs.as_slice().iter().enumerate() {
        let name = lane_names(program, *lane).value(alloc)?;
        drives.push(Drive {
            target: numbered(alloc, "o", number as u128)?,
            operation: Operation::Plain(Operand::Name(name)),
        })?;
    }
    Ok(())
}

// The counter, where it is tested.
fn add_counter(
    alloc: Global,
    counter: Counter,
    counts: bool,
    parts: &mut TopParts,
) -> Result<(), Memory>
    requires { IsCounter counter }
    ensures { OnOk result (AddsCounter counter counts parts.old parts.new) }
{
    if !counts {
        return Ok(());
    }
    counter.add_parts(alloc, &mut parts.wires, &mut parts.drives)?;
    parts.registers.push(Port {
        name: counter.name(alloc)?,
        width: counter_width(),
    })?;
    parts.steps.push(counter.step(alloc)?)
}

// What the lanes, the outputs and the counter bring.
fn all_parts(
    alloc: Global,
    counter: Counter,
    program: &Program<'_>,
    counts: bool,
) -> Result<TopParts, Memory>
    requires counter { IsCounter counter }
    requires outputs { AllByRecursion (λ q. q < length program.now.lanes) program.now.outputs }
    ensures { IfOk result (AreAllParts counter counts (program_of program.now)) }
{
    let mut parts = parts_of(alloc, program)?;
    add_outputs(alloc, program, &mut parts.drives)?;
    add_counter(alloc, counter, counts, &mut parts)?;
    Ok(parts)
}

/// The top module of a program, which counts where `counts` says so.
pub(crate) fn top(
    alloc: Global,
    counter: Counter,
    program: &Program<'_>,
    counts: bool,
) -> Result<Module, Memory>
    requires counter { IsCounter counter }
    requires outputs { AllByRecursion (λ q. q < length program.now.lanes) program.now.outputs }
    ensures { IfOk result (λ top. top ≡ top_by counter counts (program_of program.now)) }
{
    let inputs = ports(alloc, "i", program.inputs.as_slice())?;
    let outputs = output_ports(alloc, program)?;
    let name = Name::new(alloc, "array")?;
    let parts = all_parts(alloc, counter, program, counts)?;
    Ok(Module {
        name,
        inputs,
        outputs,
        wires: parts.wires,
        registers: parts.registers,
        drives: parts.drives,
        steps: parts.steps,
    })
}
