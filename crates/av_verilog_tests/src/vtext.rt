//! The text of a design, and sinks that fail.

use crate::designs::{assert_text, design};
use av_base::{HonestSink, List, MemSink, Memory, Name, Point, Width, WriteFault};
use av_net::{Design, Drive, Entry, Module, Operand, Operation, Port, Step, Symbol};
use av_testing::port;
use av_testing::texts::INCREMENT_DESIGN;
use av_vtext::write_design;
use std::alloc::Global;
use std::process::Abort;
use std::test::Fail;

const EVERYTHING: &str = "// alphav 1
// in X (0) i0 0
// in X (1) i0 1
// in X (2) i0 2
// at Y (0) o0 0
// at Y (1) o0 1
// at Y (2) o0 2
// at Z_1 (-4095,0,7,9223372036854775807) w 4294967295
// at Z () w 0
module array(input clk, input rst, input [7:0] i0, input [63:0] i1, output [7:0] o0);
  wire [7:0] c0;
  wire [0:0] w;
  reg [7:0] r0;
  reg [62:0] r0;
  assign c0 = i0 + 8'd1;
  assign o0 = c0;
  assign w = i0 + i1;
  assign w = i0 - i1;
  assign w = i0 * i1;
  assign w = i0 & i1;
  assign w = i0 | i1;
  assign w = i0 == i1;
  assign w = i0 != i1;
  assign w = i0 < i1;
  assign w = i0 <= i1;
  assign w = i0 > i1;
  assign w = i0 >= i1;
  assign w = $signed(i0) < $signed(64'd18446744073709551615);
  assign w = $signed(i0) <= $signed(64'd18446744073709551615);
  assign w = $signed(i0) > $signed(64'd18446744073709551615);
  assign w = $signed(i0) >= $signed(64'd18446744073709551615);
  assign c0 = w ? i1 : 1'd0;
  always @(posedge clk) if (rst) r0 <= 8'd255; else r0 <= i1;
  always @(posedge clk) if (rst) r1_0 <= 1'd9; else r1_0 <= r0;
endmodule
";

const ORDERS: &[Symbol] = &[
    Symbol::Less,
    Symbol::LessEqual,
    Symbol::Greater,
    Symbol::GreaterEqual,
];

const SYMBOLS: &[Symbol] = &[
    Symbol::Add,
    Symbol::Sub,
    Symbol::Mul,
    Symbol::And,
    Symbol::Or,
    Symbol::Equal,
    Symbol::Unequal,
    Symbol::Less,
    Symbol::LessEqual,
    Symbol::Greater,
    Symbol::GreaterEqual,
];

// ---- a design by hand

fn named(alloc: Global, name: &str) -> Result<Operand, Memory> {
    Ok(Operand::Name(Name::new(alloc, name)?))
}

fn literal(bits: u32, value: u64) -> Result<Operand, Fail> {
    let width = Width::new(bits).ok_or("a width")?;
    Ok(Operand::Literal { width, value })
}

fn entry(
    alloc: Global,
    variable: &str,
    point: Point,
    wire: &str,
    cycle: u32,
) -> Result<Entry, Memory> {
    Ok(Entry {
        variable: Name::new(alloc, variable)?,
        point,
        wire: Name::new(alloc, wire)?,
        cycle,
    })
}

fn drive(alloc: Global, target: &str, operation: Operation) -> Result<Drive, Memory> {
    Ok(Drive {
        target: Name::new(alloc, target)?,
        operation,
    })
}

fn binary(alloc: Global, symbol: Symbol) -> Result<Operation, Memory> {
    let left = named(alloc, "i0")?;
    let right = named(alloc, "i1")?;
    Ok(Operation::Binary {
        left,
        symbol,
        right,
    })
}

fn signed(alloc: Global, symbol: Symbol) -> Result<Operation, Fail> {
    let right = literal(64, u64::MAX)?;
    let left = named(alloc, "i0")?;
    Ok(Operation::Signed {
        left,
        symbol,
        right,
    })
}

fn choice(alloc: Global) -> Result<Operation, Fail> {
    let no = literal(1, 0)?;
    let condition = named(alloc, "w")?;
    let yes = named(alloc, "i1")?;
    Ok(Operation::Choose { condition, yes, no })
}

fn step(alloc: Global, register: &str, reset: u64, next: &str) -> Result<Step, Memory> {
    let register = Name::new(alloc, register)?;
    let next = named(alloc, next)?;
    Ok(Step {
        register,
        reset,
        next,
    })
}

fn add_entries(alloc: Global, ats: &mut List<Entry>) -> Result<(), Memory> {
    let far = Point::from_slice(&[-4095, 0, 7, i64::MAX]);
    ats.push(entry(alloc, "Z_1", far, "w", u32::MAX)?)?;
    ats.push(entry(alloc, "Z", Point::from_slice(&[]), "w", 0)?)?;
    Ok(())
}

fn add_ports(alloc: Global, module: &mut Module) -> Result<(), Fail> {
    module.inputs.push(port(alloc, "i1", 64)?)?;
    module.wires.push(port(alloc, "w", 1)?)?;
    module.registers.push(port(alloc, "r0", 8)?)?;
    module.registers.push(port(alloc, "r0", 63)?)?;
    Ok(())
}

fn add_drives(alloc: Global, drives: &mut List<Drive>) -> Result<(), Fail> {
    for symbol in SYMBOLS {
        drives.push(drive(alloc, "w", binary(alloc, *symbol)?)?)?;
    }
    for symbol in ORDERS {
        drives.push(drive(alloc, "w", signed(alloc, *symbol)?)?)?;
    }
    drives.push(drive(alloc, "c0", choice(alloc)?)?)?;
    Ok(())
}

fn add_steps(alloc: Global, steps: &mut List<Step>) -> Result<(), Memory> {
    steps.push(step(alloc, "r0", 255, "i1")?)?;
    steps.push(step(alloc, "r1_0", 9, "r0")?)?;
    Ok(())
}

fn add_all(alloc: Global, design: &mut Design) -> Result<(), Fail> {
    add_entries(alloc, &mut design.listing.ats)?;
    add_ports(alloc, &mut design.module)?;
    add_drives(alloc, &mut design.module.drives)?;
    add_steps(alloc, &mut design.module.steps)?;
    Ok(())
}

// Each operation, symbol and kind of line. It is no sound design: `w` is driven more than once, `r0` is
// declared twice and `r1_0` not at all.
fn everything(alloc: Global) -> Result<Design, Fail> {
    let mut design = design(alloc, INCREMENT_DESIGN)?;
    add_all(alloc, &mut design)?;
    Ok(design)
}

// ---- what is written

#[test]
fn the_text_of_a_design(rt: HostRuntime) -> Result<(), Fail> {
    let design = design(rt.alloc(), INCREMENT_DESIGN)?;
    assert_text(&rt, rt.alloc(), &design, INCREMENT_DESIGN)
}

#[test]
fn an_honest_sink_takes_a_design(rt: HostRuntime) -> Result<(), Fail> {
    let design = design(rt.alloc(), INCREMENT_DESIGN)?;
    write_design(&design, &mut HonestSink::new())?;
    Ok(())
}

#[test]
fn each_operation_and_kind_of_line(rt: HostRuntime) -> Result<(), Fail> {
    let alloc = rt.alloc();
    let design = everything(alloc)?;
    assert_text(&rt, alloc, &design, EVERYTHING)
}

// A sink that takes one byte at a time and fails at this call.
fn failing(alloc: Global, call: u64) -> Result<MemSink, Memory> {
    let mut calls = List::new(alloc);
    calls.push(call)?;
    MemSink::new(alloc, 4096, 1, calls)
}

// A sink with room for so many bytes.
fn full(alloc: Global, room: usize) -> Result<MemSink, Memory> {
    MemSink::new(alloc, room, 7, List::new(alloc))
}

// The sink fails, and holds what was written before.
fn assert_fault(rt: &impl Abort, design: &Design, sink: &mut MemSink, held: &[u8]) {
    assert_eq!(rt; write_design(design, sink), Err(WriteFault));
    assert_eq!(rt; sink.held(), held);
}

// The same at this call of a sink, and at this byte of another.
fn assert_faults(rt: &impl Abort, alloc: Global, design: &Design, at: usize) -> Result<(), Fail> {
    let held = INCREMENT_DESIGN.as_bytes().get(..at).ok_or("a byte")?;
    assert_fault(rt, design, &mut failing(alloc, at as u64)?, held);
    assert_fault(rt, design, &mut full(alloc, at)?, held);
    Ok(())
}

fn assert_all_faults(rt: &impl Abort, alloc: Global, design: &Design) -> Result<(), Fail> {
    for at in 0..INCREMENT_DESIGN.len() {
        assert_faults(rt, alloc, design, at)?;
    }
    Ok(())
}

#[test]
fn a_sink_may_fail_at_each_call_and_be_full_at_each_byte(rt: HostRuntime) -> Result<(), Fail> {
    let design = design(rt.alloc(), INCREMENT_DESIGN)?;
    assert_all_faults(&rt, rt.alloc(), &design)
}
