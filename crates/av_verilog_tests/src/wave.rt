//! Dumps of waves, written and read.

ghost use Rattle.std.specs.Prelude.{◌≡◌, []};
ghost use Rattle.av_net.specs.Sound.{IsSound};
ghost use Rattle.av_net.specs.Designs.{HasSpelling};

use crate::asserts::assert_held;
use crate::designs::design;
use av_base::{List, MemSink, Memory, WriteFault};
use av_data::Stimulus;
use av_net::Module;
use av_wave::{
    RunFault, Wave, WaveFault, capture, dumps_are_unique, dumps_have_one_fault, read_wave,
    write_run, write_wave,
};
use std::alloc::Global;
use std::fmt::Write;
use std::process::Abort;
use std::test::Fail;

const NO_PORT: &str =
    "$timescale 1ns $end\n$scope module m $end\n$upscope $end\n$enddefinitions $end\n#0\n";

// A port has the name of the module.
const WIDE: &str = "$timescale 1ns $end
$scope module m $end
$var wire 1 ! a $end
$var wire 64 \" m $end
$upscope $end
$enddefinitions $end
#0
0!
b1111111111111111111111111111111111111111111111111111111111111111 \"
#1
1!
#2
#3
0!
b0 \"
#4
";

// Lines before the first cycle, and the first faulty line.
const HEADS: &[(&str, u32)] = &[
    ("", 1),
    ("$timescale 1ns $end\r\n", 1),
    ("$timescale 1ns $end", 1),
    ("$timescale 1ns $end\n", 2),
    ("$timescale 1ns $end\n$scope module wire $end\n", 2),
    (
        "$timescale 1ns $end\n$scope module m $end\n$var wire 08 ! a $end\n",
        3,
    ),
    (
        "$timescale 1ns $end\n$scope module m $end\n$var wire 65 ! a $end\n",
        3,
    ),
    (
        "$timescale 1ns $end\n$scope module m $end\n$var wire 8 \" a $end\n",
        3,
    ),
    (
        "$timescale 1ns $end\n$scope module m $end\n$var wire 8 ! a $end\n$var wire 8 \" a $end\n",
        4,
    ),
    (
        "$timescale 1ns $end\n$scope module m $end\n$upscope $end\n$enddefinitions $end\n",
        5,
    ),
    (
        "$timescale 1ns $end\n$scope module m $end\n$upscope $end\n$enddefinitions $end\n#1\n",
        5,
    ),
    (
        "$timescale 1ns $end\n$scope module m $end\n$upscope $end\n$enddefinitions $end\n#0\n#2\n",
        6,
    ),
    (
        "$timescale 1ns $end\n$scope module m $end\n$upscope $end\n$enddefinitions $end\n#0\n#1",
        6,
    ),
];

// The bits of a port, lines behind the head that declares it, and the first faulty line, or 0 where they are those of a dump.
const CYCLES: &[(&str, &str, u32)] = &[
    ("2", "#0\nb1 !\n#1\n#2\n", 0),
    ("2", "#0\n", 0),
    ("2", "#0\n#1\n", 7),
    ("2", "#0\nb00 !\n#1\n", 7),
    ("2", "#0\nb100 !\n#1\n", 7),
    ("2", "#0\n1!\n#1\n", 7),
    ("2", "#0\nB1 !\n#1\n", 7),
    ("2", "#0\nb1  !\n#1\n", 7),
    ("2", "#0\nb1 !!\n#1\n", 7),
    ("2", "#0\nb1 \"\n#1\n", 7),
    ("2", "#0\nb1 !\n", 8),
    ("2", "#0\nb1 !\nb10 !\n#1\n", 8),
    ("2", "#0\nb1 !\n#1\r\n", 8),
    ("2", "#0\nb1 !\n#01\n", 8),
    ("2", "#0\nb1 !\n#1\nb1 !\n#2\n", 9),
    ("2", "#0\nb1 !\n#1\nb10 !\n", 10),
    ("1", "#0\n1!\n#1\n0!\n#2\n", 0),
    ("1", "#0\nb1 !\n#1\n", 7),
    ("1", "#0\n1 !\n#1\n", 7),
    ("1", "#0\n2!\n#1\n", 7),
    ("1", "#0\nx!\n#1\n", 7),
    ("1", "#0\n01!\n#1\n", 7),
    ("1", "#0\n1\n#1\n", 7),
    ("1", "#0\n1!\n#1\n1!\n#2\n", 9),
    (
        "63",
        "#0\nb1000000000000000000000000000000000000000000000000000000000000000 !\n#1\n",
        7,
    ),
    (
        "64",
        "#0\nb1000000000000000000000000000000000000000000000000000000000000000 !\n#1\n",
        0,
    ),
    (
        "64",
        "#0\nb10000000000000000000000000000000000000000000000000000000000000000 !\n#1\n",
        7,
    ),
];

// `o0` counts, and `o1` tells whether it is below two.
const COUNTER: &str =
    "module array(input clk, input rst, input [7:0] i0, output [7:0] o0, output [0:0] o1);
  wire [7:0] more;
  reg [7:0] count;
  assign o0 = count;
  assign o1 = count < 8'd2;
  assign more = count + 8'd1;
  always @(posedge clk) if (rst) count <= 8'd0; else count <= more;
endmodule
";

const COUNTED: &str = "$timescale 1ns $end
$scope module array $end
$var wire 8 ! i0 $end
$var wire 8 \" o0 $end
$var wire 1 # o1 $end
$upscope $end
$enddefinitions $end
#0
b0 !
b0 \"
1#
#1
b1 \"
#2
b10 \"
0#
#3
b11 \"
#4
";

fn empty_sink(alloc: Global) -> Result<MemSink, Memory> {
    MemSink::new(alloc, 4096, 100, List::new(alloc))
}

// The wave of a text that is no longer than the reader asks.
fn read(alloc: Global, bytes: &[u8]) -> Result<Wave, WaveFault> {
    if bytes.len() >= 4_294_967_295 {
        return Err(WaveFault::Memory);
    }
    read_wave(alloc, bytes)
}

fn assert_written(rt: &impl Abort, alloc: Global, wave: &Wave, wanted: &str) -> Result<(), Fail> {
    let mut sink = empty_sink(alloc)?;
    write_wave(wave, &mut sink)?;
    assert_held(rt, &sink, wanted.as_bytes());
    Ok(())
}

fn assert_back(rt: &impl Abort, alloc: Global, text: &str) -> Result<(), Fail> {
    match read(alloc, text.as_bytes()) {
        Ok(wave) => assert_written(rt, alloc, &wave, text),
        Err(_) => Err(Fail::new("a dump")),
    }
}

#[test]
fn a_dump_is_read_and_written(rt: HostRuntime) -> Result<(), Fail> {
    let alloc = rt.alloc();
    assert_back(&rt, alloc, NO_PORT)?;
    assert_back(&rt, alloc, WIDE)?;
    assert_back(&rt, alloc, COUNTED)
}

// The line of the fault, or 0 where there is none.
fn fault(alloc: Global, text: &str) -> Result<u32, Fail> {
    match read(alloc, text.as_bytes()) {
        Ok(_) => Ok(0),
        Err(WaveFault::WaveSyntax(line)) => Ok(line),
        Err(WaveFault::Memory) => Err(Fail::new("memory")),
    }
}

fn assert_fault(rt: &impl Abort, alloc: Global, text: &str, line: u32) -> Result<(), Fail> {
    let found = fault(alloc, text)?;
    assert_eq!(rt; found, line);
    Ok(())
}

// The lines before the first cycle where a module has one port.
fn head(alloc: Global, width: &str) -> Result<String, Fail> {
    let mut text = String::from_str(alloc, "$timescale 1ns $end\n$scope module m $end\n")?;
    write!(text, "$var wire {width} ! a $end\n")?;
    text.push_str("$upscope $end\n$enddefinitions $end\n")?;
    Ok(text)
}

fn assert_fault_behind(
    rt: &impl Abort,
    alloc: Global,
    width: &str,
    lines: &str,
    line: u32,
) -> Result<(), Fail> {
    let mut text = head(alloc, width)?;
    text.push_str(lines)?;
    assert_fault(rt, alloc, text.as_str(), line)
}

#[test]
fn the_first_faulty_line_is_told(rt: HostRuntime) -> Result<(), Fail> {
    for (text, line) in HEADS {
        assert_fault(&rt, rt.alloc(), text, *line)?;
    }
    for (width, lines, line) in CYCLES {
        assert_fault_behind(&rt, rt.alloc(), width, lines, *line)?;
    }
    Ok(())
}

// What stands behind the line `#4096`, and the first faulty line, or 0.
const ENDS: &[(&str, u32)] = &[("", 0), ("#4097\n", 4104), ("b10 !\n", 4104)];

// A dump of 4,096 cycles, of a port that is 1 in all of them, and what stands behind it.
fn longest(alloc: Global, end: &str) -> Result<String, Fail> {
    let mut text = head(alloc, "2")?;
    text.push_str("#0\nb1 !\n")?;
    for cycle in 1..=4096 {
        write!(text, "#{cycle}\n")?;
    }
    text.push_str(end)?;
    Ok(text)
}

#[test]
fn a_dump_has_4096_cycles_at_most(rt: HostRuntime) -> Result<(), Fail> {
    for (end, line) in ENDS {
        let text = longest(rt.alloc(), end)?;
        assert_fault(&rt, rt.alloc(), text.as_str(), *line)?;
    }
    Ok(())
}

// What stands behind the lines of 94 ports, and the first faulty line.
const LATE_PORTS: &[(&str, u32)] = &[
    ("$var wire 1 \"! q $end\n", 97),
    ("$var wire 1 ! q $end\n", 97),
    ("$var wire 1 !! q $end\n", 97),
    ("$var wire 1 !\"! q $end\n", 97),
    ("$var wire 1 !\" q $end\n$var wire 1 #\" r $end\n", 98),
    ("$var wire 1 !\" q $end\n$upscope $end\n", 99),
];

// The lines of 94 ports, whose codes have one digit.
fn early_ports(alloc: Global) -> Result<String, Fail> {
    let mut text = String::from_str(alloc, "$timescale 1ns $end\n$scope module m $end\n")?;
    for digit in b'!'..=b'~' {
        let code = char::from(digit);
        write!(text, "$var wire 1 {code} p{digit} $end\n")?;
    }
    Ok(text)
}

// A dump of 96 ports.
fn many_ports(alloc: Global) -> Result<String, Fail> {
    let mut text = early_ports(alloc)?;
    text.push_str("$var wire 1 !\" q $end\n$var wire 64 \"\" r $end\n")?;
    text.push_str("$upscope $end\n$enddefinitions $end\n#0\n")?;
    for digit in b'!'..=b'~' {
        let code = char::from(digit);
        write!(text, "0{code}\n")?;
    }
    text.push_str("1!\"\nb101 \"\"\n#1\n0!\"\n#2\nb0 \"\"\n#3\n")?;
    Ok(text)
}

fn assert_late_port(rt: &impl Abort, alloc: Global, lines: &str, line: u32) -> Result<(), Fail> {
    let mut text = early_ports(alloc)?;
    text.push_str(lines)?;
    assert_fault(rt, alloc, text.as_str(), line)
}

#[test]
fn codes_have_their_lowest_digit_first(rt: HostRuntime) -> Result<(), Fail> {
    let text = many_ports(rt.alloc())?;
    assert_back(&rt, rt.alloc(), text.as_str())?;
    for (lines, line) in LATE_PORTS {
        assert_late_port(&rt, rt.alloc(), lines, *line)?;
    }
    Ok(())
}

#[test]
fn laws() {
    dumps_are_unique();
    dumps_have_one_fault();
}

// Nothing is given to a port.
fn four_cycles(alloc: Global) -> Stimulus
    ensures cycles { result.cycles ≡ 4 }
    ensures values { result.values ≡ [] }
{
    Stimulus {
        cycles: 4,
        values: List::new(alloc),
    }
}

fn assert_captured(rt: &impl Abort, alloc: Global, of: &Module) -> Result<(), Fail>
    requires sound { IsSound of.now }
    requires spelled { HasSpelling of.now }
{
    let wave = capture(alloc, of, &four_cycles(alloc))?;
    assert_written(rt, alloc, &wave, COUNTED)
}

// Whether the dump of the run is written whole, and not cut off by a fault of the sink.
fn is_written(alloc: Global, of: &Module, sink: &mut MemSink) -> Result<bool, Fail>
    requires sound { IsSound of.now }
    requires spelled { HasSpelling of.now }
{
    match write_run(alloc, of, &four_cycles(alloc), sink) {
        Ok(()) => Ok(true),
        Err(RunFault::Write) => Ok(false),
        Err(RunFault::Memory) => Err(Fail::new("memory")),
    }
}

fn assert_run_written(rt: &impl Abort, alloc: Global, of: &Module) -> Result<(), Fail>
    requires sound { IsSound of.now }
    requires spelled { HasSpelling of.now }
{
    let mut sink = empty_sink(alloc)?;
    assert!(rt; is_written(alloc, of, &mut sink)?);
    assert_held(rt, &sink, COUNTED.as_bytes());
    Ok(())
}

// A sink that takes five bytes in a call, and fails at the third.
fn failing_sink(alloc: Global) -> Result<MemSink, Memory> {
    let mut failing = List::new(alloc);
    failing.push(2)?;
    MemSink::new(alloc, 4096, 5, failing)
}

fn assert_run_cut(rt: &impl Abort, alloc: Global, of: &Module) -> Result<(), Fail>
    requires sound { IsSound of.now }
    requires spelled { HasSpelling of.now }
{
    let mut sink = failing_sink(alloc)?;
    assert!(rt; !is_written(alloc, of, &mut sink)?);
    assert_held(rt, &sink, b"$timescale");
    Ok(())
}

#[test]
fn a_run_is_captured(rt: HostRuntime) -> Result<(), Fail> {
    let design = design(rt.alloc(), COUNTER)?;
    assert_captured(&rt, rt.alloc(), &design.module)?;
    assert_run_written(&rt, rt.alloc(), &design.module)?;
    assert_run_cut(&rt, rt.alloc(), &design.module)
}

fn assert_wave_cut(rt: &impl Abort, alloc: Global, wave: &Wave) -> Result<(), Fail> {
    let mut sink = failing_sink(alloc)?;
    assert_eq!(rt; write_wave(wave, &mut sink), Err(WriteFault));
    assert_held(rt, &sink, b"$timescale");
    Ok(())
}

#[test]
fn a_sink_may_fail_at_a_wave(rt: HostRuntime) -> Result<(), Fail> {
    match read(rt.alloc(), WIDE.as_bytes()) {
        Ok(wave) => assert_wave_cut(&rt, rt.alloc(), &wave),
        Err(_) => Err(Fail::new("a dump")),
    }
}
