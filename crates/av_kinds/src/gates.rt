ghost use Rattle.std.specs.Prelude.{◌≡◌, ◌++◌, ◌∷◌, [], length, IfOk, OnOk};
ghost use Rattle.av_kinds.specs.inner.Gates.{named_by};
ghost use Rattle.av_kinds.specs.Tops.{one_bit};
ghost use Rattle.av_kinds.specs.inner.Trees.{chosen_by};
ghost use Rattle.av_kinds.specs.inner.Numbered.{wire_in};
ghost use Rattle.av_kinds.specs.inner.Added.{Adds, AddsNamed};

use crate::naming::WireNames;
use av_base::{Memory, Width};
use av_net::{Operand, Operation};
use std::alloc::Global;

/// A wire of a lane, whose name is given by its place among the lane's wires.
#[derive(Drop)]
pub(crate) struct LaneGate {
    pub(crate) width: Width,
    pub(crate) operation: Operation,
}

// A wire for the operation.
fn on_wire(
    alloc: Global,
    names: WireNames,
    gates: &mut Vec<LaneGate>,
    width: Width,
    operation: Operation,
) -> Result<Operand, Memory>
    ensures gates { OnOk result (gates.new.items
        ≡ gates.old.items ++ record { width = width; operation = operation } ∷ []) }
    ensures operand { IfOk result (λ operand.
        operand ≡ Operand.Name (wire_in names (length gates.old.items))) }
{
    let number = gates.len();
    gates.push(LaneGate { width, operation })?;
    Ok(Operand::Name(names.wire(alloc, number)?))
}

/// A wire for the operation, but for an operand.
pub(crate) fn named(
    alloc: Global,
    names: WireNames,
    gates: &mut Vec<LaneGate>,
    width: Width,
    root: Operation,
) -> Result<Operand, Memory>
    ensures { IfOk result
        (AddsNamed gates.new.items (named_by (wire_in names) 0 width gates.old.items root)) }
{
    match root {
        Operation::Plain(operand) => Ok(operand),
        operation => on_wire(alloc, names, gates, width, operation),
    }
}

/// The width of a test.
pub(crate) fn bit() -> Width
    ensures { result ≡ one_bit }
{
    Width { bits: 1 }
}

/// A test on a wire of its own, and the choice by it.
pub(crate) fn chosen(
    alloc: Global,
    names: WireNames,
    gates: &mut Vec<LaneGate>,
    test: Operation,
    first: Operand,
    second: Operand,
) -> Result<Operation, Memory>
    ensures { IfOk result
        (Adds gates.new.items (chosen_by (wire_in names) 0 gates.old.items test first second)) }
{
    let condition = on_wire(alloc, names, gates, bit(), test)?;
    Ok(Operation::Choose {
        condition,
        yes: first,
        no: second,
    })
}
