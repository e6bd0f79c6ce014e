//! Eight lanes beside clocks, on modules that are made of random drives.

ghost use Rattle.std.specs.Prelude.{◌<◌, ◌≤◌};
ghost use Rattle.av_net.specs.Sound.{IsSound};

use crate::designs::design;
use av_net::Module;
use av_testing::lanes_follow_clocks;
use std::alloc::Global;
use std::fmt::Write;
use std::process::Abort;
use std::test::Fail;

// The cycles of a run. Only some of them change a port.
const CYCLES: u32 = 64;

// The words that a module of random drives computes, each with a test of its own, and its registers.
const DRIVES: u32 = 24;

const REGISTERS: u32 = 6;

// Numbers that look random.
#[derive(Drop)]
struct Random {
    state: u64,
}

impl Random {
    // The next one, below a bound.
    fn below(&mut self, bound: u32) -> u32
        requires { 0 < bound }
        ensures { result < bound }
    {
        self.state = self
            .state
            .wrapping_mul(6_364_136_223_846_793_005)
            .wrapping_add(1_442_695_040_888_963_407);
        (self.state >> 33) as u32 % bound
    }
}

// The name of a port, of a register, or of what one of the first drives gives.
fn push_name(text: &mut String, random: &mut Random, drives: u32) -> Result<(), Fail> {
    if drives > 0 && random.below(3) > 0 {
        let drive = random.below(drives);
        write!(text, "w{drive}")?;
    } else if random.below(2) == 0 {
        let port = random.below(2);
        write!(text, "i{port}")?;
    } else {
        let register = random.below(REGISTERS);
        write!(text, "r{register}")?;
    }
    Ok(())
}

fn binary_of(kind: u32) -> &'static str {
    match kind {
        0 => " + ",
        1 => " - ",
        2 => " * ",
        3 => " & ",
        _ => " | ",
    }
}

fn comparison_of(kind: u32) -> &'static str {
    match kind {
        0 => " == ",
        1 => " != ",
        2 => " < ",
        3 => " <= ",
        4 => " > ",
        _ => " >= ",
    }
}

fn order_of(kind: u32) -> &'static str {
    match kind {
        0 => ") < $signed(",
        1 => ") <= $signed(",
        2 => ") > $signed(",
        _ => ") >= $signed(",
    }
}

// A comparison of two words, signed or not.
fn push_test(text: &mut String, random: &mut Random, drive: u32) -> Result<(), Fail> {
    write!(text, "  assign b{drive} = ")?;
    if random.below(2) == 0 {
        push_name(text, random, drive)?;
        text.push_str(comparison_of(random.below(6)))?;
        push_name(text, random, drive)?;
        text.push_str(";\n")?;
    } else {
        text.push_str("$signed(")?;
        push_name(text, random, drive)?;
        text.push_str(order_of(random.below(4)))?;
        push_name(text, random, drive)?;
        text.push_str(");\n")?;
    }
    Ok(())
}

// A part of a word, and the part widened to the width of words.
fn push_part(
    declarations: &mut String,
    items: &mut String,
    random: &mut Random,
    drive: u32,
    width: u32,
) -> Result<(), Fail>
    requires { (1 < width) × (width ≤ 64) }
{
    let low = random.below(width - 1);
    let more = random.below(width - 1 - low);
    let by = width - 1 - more;
    let high = low + more;
    write!(declarations, "  wire [{more}:0] p{drive};\n")?;
    write!(items, "  assign p{drive} = ")?;
    push_name(items, random, drive)?;
    write!(items, "[{high}:{low}];\n")?;
    write!(
        items,
        "  assign w{drive} = {{{{{by}{{p{drive}[{more}:{more}]}}}}, p{drive}}};\n"
    )?;
    Ok(())
}

// What an operator gives of two words, or a selection by the drive's own test.
fn push_operation(text: &mut String, random: &mut Random, drive: u32) -> Result<(), Fail> {
    let kind = random.below(7);
    write!(text, "  assign w{drive} = ")?;
    if kind > 4 {
        write!(text, "b{drive} ? ")?;
    }
    push_name(text, random, drive)?;
    text.push_str(if kind > 4 { " : " } else { binary_of(kind) })?;
    push_name(text, random, drive)?;
    text.push_str(";\n")?;
    Ok(())
}

// A register that takes some name, from 0 or 1.
fn push_register(
    declarations: &mut String,
    items: &mut String,
    random: &mut Random,
    register: u32,
    width: u32,
) -> Result<(), Fail>
    requires { 0 < width }
{
    let high = width - 1;
    let reset = random.below(2);
    write!(declarations, "  reg [{high}:0] r{register};\n")?;
    write!(
        items,
        "  always @(posedge clk) if (rst) r{register} <= {width}'d{reset}; else r{register} <= "
    )?;
    push_name(items, random, DRIVES)?;
    items.push_str(";\n")?;
    Ok(())
}

// The text of a module: its ports and declarations, and its items.
#[derive(Drop)]
struct Halves {
    declarations: String,
    items: String,
}

impl Halves {
    fn new(alloc: Global) -> Halves {
        Halves {
            declarations: String::new(alloc),
            items: String::new(alloc),
        }
    }

    // The wire of a drive, with a test of its own.
    fn push_drive(&mut self, random: &mut Random, drive: u32, width: u32) -> Result<(), Fail>
        requires { (0 < width) × (width ≤ 64) }
    {
        let high = width - 1;
        write!(
            self.declarations,
            "  wire [{high}:0] w{drive};\n  wire [0:0] b{drive};\n"
        )?;
        push_test(&mut self.items, random, drive)?;
        if width > 1 && random.below(6) == 0 {
            push_part(
                &mut self.declarations,
                &mut self.items,
                random,
                drive,
                width,
            )
        } else {
            push_operation(&mut self.items, random, drive)
        }
    }

    fn push_all(&mut self, random: &mut Random, width: u32) -> Result<(), Fail>
        requires { (0 < width) × (width ≤ 64) }
    {
        let high = width - 1;
        write!(
            self.declarations,
            "module t(input clk, input rst, input [{high}:0] i0, input [{high}:0] i1, output [{high}:0] o);\n"
        )?;
        for drive in 0..DRIVES {
            self.push_drive(random, drive, width)?;
        }
        for register in 0..REGISTERS {
            push_register(
                &mut self.declarations,
                &mut self.items,
                random,
                register,
                width,
            )?;
        }
        write!(self.items, "  assign o = w{};\nendmodule\n", DRIVES - 1)?;
        self.declarations.push_str(self.items.as_str())?;
        Ok(())
    }
}

// The text of a module of random drives on words of a width.
fn random_text(alloc: Global, random: &mut Random, width: u32) -> Result<String, Fail>
    requires { (0 < width) × (width ≤ 64) }
{
    let mut text = Halves::new(alloc);
    text.push_all(random, width)?;
    Ok(text.declarations)
}

fn assert_beside(rt: &impl Abort, alloc: Global, of: &Module) -> Result<(), Fail>
    requires { IsSound of.now }
{
    assert!(rt; lanes_follow_clocks(alloc, of, CYCLES)?);
    Ok(())
}

fn assert_text_beside(rt: &impl Abort, alloc: Global, text: &str) -> Result<(), Fail> {
    let design = design(alloc, text)?;
    assert_beside(rt, alloc, &design.module)
}

#[test]
fn lanes_of_random_modules_follow_clocks(rt: HostRuntime) -> Result<(), Fail> {
    let mut random = Random { state: 1 };
    for width in [1, 2, 8, 31, 32, 33, 63, 64] {
        for _ in 0..3 {
            let text = random_text(rt.alloc(), &mut random, width)?;
            assert_text_beside(&rt, rt.alloc(), text.as_str())?;
        }
    }
    Ok(())
}

// A counter moves four registers of a chain of twelve at most, so that the lanes are clocked by marks.
const CHAIN: &str =
    "module chain(input clk, input rst, input [7:0] i0, output [7:0] o0, output [7:0] o1);
  wire [7:0] more;
  wire [0:0] now;
  wire [7:0] taken;
  reg [7:0] count;
  reg [7:0] a;
  reg [7:0] b;
  reg [7:0] c;
  reg [7:0] d;
  reg [7:0] e;
  reg [7:0] f;
  reg [7:0] g;
  reg [7:0] h;
  assign more = count + 8'd1;
  assign now = count == 8'd20;
  assign taken = now ? i0 : a;
  assign o0 = a + h;
  assign o1 = d * i0;
  always @(posedge clk) if (rst) count <= 8'd0; else count <= more;
  always @(posedge clk) if (rst) a <= 8'd7; else a <= taken;
  always @(posedge clk) if (rst) b <= 8'd0; else b <= a;
  always @(posedge clk) if (rst) c <= 8'd0; else c <= b;
  always @(posedge clk) if (rst) d <= 8'd0; else d <= c;
  always @(posedge clk) if (rst) e <= 8'd0; else e <= d;
  always @(posedge clk) if (rst) f <= 8'd0; else f <= e;
  always @(posedge clk) if (rst) g <= 8'd0; else g <= f;
  always @(posedge clk) if (rst) h <= 8'd0; else h <= g;
endmodule
";

#[test]
fn lanes_that_are_mostly_idle_follow_clocks(rt: HostRuntime) -> Result<(), Fail> {
    assert_text_beside(&rt, rt.alloc(), CHAIN)
}
