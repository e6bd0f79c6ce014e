//! The plans of compiled texts: their text, and the design that is read of it.

ghost use Rattle.std.specs.Prelude.{IfOk};
ghost use Rattle.av_net.specs.Designs.{IsSoundPlan};

use crate::asserts::{assert_held, same};
use av_base::{List, MemSink, Width};
use av_compile::{Compiled, compile};
use av_flat::Reach;
use av_net::{Design, Plan};
use av_testing::texts::INCREMENT_PLAN;
use av_vread::read_design;
use av_vtext::{write_design, write_plan};
use std::alloc::Global;
use std::process::Abort;
use std::test::Fail;

// What a text compiles to, in words of 8 bits.
fn compiled(alloc: Global, text: &str) -> Result<Compiled, Fail>
    ensures { IfOk result (λ found. IsSoundPlan found.plan) }
{
    let width = Width::new(8).ok_or("a width")?;
    let reach = Reach::new(4).ok_or("a box")?;
    if text.len() > 100_000 {
        return Err(Fail::new("long"));
    }
    match compile(alloc, text.as_bytes(), &[], width, reach) {
        Ok(found) => Ok(found),
        Err(_) => Err(Fail::new("a plan")),
    }
}

/// A sink that has the text of the design.
fn design_text(alloc: Global, design: &Design) -> Result<MemSink, Fail> {
    let mut sink = MemSink::new(alloc, 8192, 8192, List::new(alloc))?;
    write_design(design, &mut sink)?;
    Ok(sink)
}

/// Both designs have one text.
fn assert_same_text(
    rt: &impl Abort,
    alloc: Global,
    read: &Design,
    design: &Design,
) -> Result<(), Fail> {
    let again = design_text(alloc, read)?;
    let flat = design_text(alloc, design)?;
    assert_held(rt, &again, flat.held());
    Ok(())
}

/// The design that is read of these bytes is this one: both have one text of the first version.
pub(crate) fn assert_read_back(
    rt: &impl Abort,
    alloc: Global,
    bytes: &[u8],
    design: &Design,
) -> Result<(), Fail> {
    if bytes.len() >= 4_294_967_295 {
        return Err(Fail::new("long"));
    }
    match read_design(alloc, bytes) {
        Ok(read) => assert_same_text(rt, alloc, &read, design),
        Err(_) => Err(Fail::new("a design")),
    }
}

/// A sink that has the text of the plan.
fn plan_text(alloc: Global, plan: &Plan) -> Result<MemSink, Fail>
    requires { IsSoundPlan plan.now }
{
    let mut sink = MemSink::new(alloc, 8192, 8192, List::new(alloc))?;
    write_plan(plan, &mut sink)?;
    Ok(sink)
}

/// A sink that has the text of the plan that a text compiles to.
pub(crate) fn compiled_text(alloc: Global, text: &str) -> Result<MemSink, Fail> {
    let found = compiled(alloc, text)?;
    plan_text(alloc, &found.plan)
}

/// The text of the plan is this one, and it is read back as this design.
fn assert_written(
    rt: &impl Abort,
    alloc: Global,
    plan: &Plan,
    design: &Design,
    wanted: &str,
) -> Result<(), Fail>
    requires { IsSoundPlan plan.now }
{
    let sink = plan_text(alloc, plan)?;
    same(rt, str::from_utf8(sink.held()).unwrap_or(""), wanted);
    assert_read_back(rt, alloc, sink.held(), design)
}

/// The text of the plan is this one, and it is read back as the plan's flat design.
fn assert_compiled(rt: &impl Abort, alloc: Global, text: &str, wanted: &str) -> Result<(), Fail> {
    let found = compiled(alloc, text)?;
    assert_written(rt, alloc, &found.plan, &found.design, wanted)
}

const INCREMENT: &str =
    "system inc (X : {i | 0<=i<=2} of integer) returns (Y : {i | 0<=i<=2} of integer); let Y[i] = X[i] + 1; tel;";

#[test]
fn the_increment_is_one_sum(rt: HostRuntime) -> Result<(), Fail> {
    assert_compiled(&rt, rt.alloc(), INCREMENT, INCREMENT_PLAN)
}

/// A cell with two lanes: the scalar is handed on from cycle to cycle, and added to the sum before.
const SUMS: &str = "system t (S : {|} of integer) returns (Y : {i | 0<=i<=3} of integer);
let Y[i] = case {| i=0} : 7; {| 1<=i} : Y[i-1] + S[]; esac; tel;";

/// The scalar comes in in cycle 1, and is then held in a register with an odd number; those of the value have even ones.
const SUMS_TEXT: &str = "// alphav 2
// in S () i0 1
// at Y (0) o0 0
// at Y (1) o0 1
// at Y (2) o0 2
// at Y (3) o0 3
module k0(input [11:0] cyc, input [7:0] i0, input [11:0] b0, input [11:0] b1, input [7:0] t0, input [11:0] b2, input [11:0] b3, input [7:0] t1, output [7:0] p0, output [7:0] v);
  wire [0:0] w0;
  wire [0:0] w1;
  wire [0:0] w2;
  wire [7:0] w3;
  wire [0:0] w4;
  wire [0:0] w5;
  wire [0:0] w6;
  assign w0 = cyc >= b0;
  assign w1 = cyc <= b1;
  assign w2 = w0 & w1;
  assign p0 = w2 ? i0 : t0;
  assign w3 = t1 + p0;
  assign w4 = cyc >= b2;
  assign w5 = cyc <= b3;
  assign w6 = w4 & w5;
  assign v = w6 ? 8'd7 : w3;
endmodule
module array(input clk, input rst, input [7:0] i0, output [7:0] o0);
  wire [7:0] c0_1;
  wire [7:0] c0;
  wire [11:0] cyc_next;
  reg [7:0] r0_1;
  reg [7:0] r0_0;
  reg [11:0] cyc;
  k0 u0 (.cyc(cyc), .i0(i0), .b0(12'd1), .b1(12'd1), .t0(r0_1), .b2(12'd0), .b3(12'd0), .t1(r0_0), .p0(c0_1), .v(c0));
  assign o0 = c0;
  assign cyc_next = cyc + 12'd1;
  always @(posedge clk) if (rst) r0_1 <= 8'd0; else r0_1 <= c0_1;
  always @(posedge clk) if (rst) r0_0 <= 8'd0; else r0_0 <= c0;
  always @(posedge clk) if (rst) cyc <= 12'd0; else cyc <= cyc_next;
endmodule
";

#[test]
fn lanes_of_a_cell_share_its_numbers(rt: HostRuntime) -> Result<(), Fail> {
    assert_compiled(&rt, rt.alloc(), SUMS, SUMS_TEXT)
}

/// The same with a scalar of 4 bits.
const NARROW: &str = "system t (S : {|} of word[4]) returns (Y : {i | 0<=i<=3} of integer);
let Y[i] = case {| i=0} : 7; {| 1<=i} : Y[i-1] + S[]; esac; tel;";

/// It is widened once, where it comes in; the registers of its lane have the width of the sums.
const NARROW_TEXT: &str = "// alphav 2
// in S () i0 1
// at Y (0) o0 0
// at Y (1) o0 1
// at Y (2) o0 2
// at Y (3) o0 3
module k0(input [11:0] cyc, input [3:0] i0, input [11:0] b0, input [11:0] b1, input [7:0] t0, input [11:0] b2, input [11:0] b3, input [7:0] t1, output [7:0] p0, output [7:0] v);
  wire [7:0] w0;
  wire [0:0] w1;
  wire [0:0] w2;
  wire [0:0] w3;
  wire [7:0] w4;
  wire [0:0] w5;
  wire [0:0] w6;
  wire [0:0] w7;
  assign w0 = {{4{i0[3:3]}}, i0};
  assign w1 = cyc >= b0;
  assign w2 = cyc <= b1;
  assign w3 = w1 & w2;
  assign p0 = w3 ? w0 : t0;
  assign w4 = t1 + p0;
  assign w5 = cyc >= b2;
  assign w6 = cyc <= b3;
  assign w7 = w5 & w6;
  assign v = w7 ? 8'd7 : w4;
endmodule
module array(input clk, input rst, input [3:0] i0, output [7:0] o0);
  wire [7:0] c0_1;
  wire [7:0] c0;
  wire [11:0] cyc_next;
  reg [7:0] r0_1;
  reg [7:0] r0_0;
  reg [11:0] cyc;
  k0 u0 (.cyc(cyc), .i0(i0), .b0(12'd1), .b1(12'd1), .t0(r0_1), .b2(12'd0), .b3(12'd0), .t1(r0_0), .p0(c0_1), .v(c0));
  assign o0 = c0;
  assign cyc_next = cyc + 12'd1;
  always @(posedge clk) if (rst) r0_1 <= 8'd0; else r0_1 <= c0_1;
  always @(posedge clk) if (rst) r0_0 <= 8'd0; else r0_0 <= c0;
  always @(posedge clk) if (rst) cyc <= 12'd0; else cyc <= cyc_next;
endmodule
";

#[test]
fn a_lane_takes_a_narrow_word_widened(rt: HostRuntime) -> Result<(), Fail> {
    assert_compiled(&rt, rt.alloc(), NARROW, NARROW_TEXT)
}
