//! Designs that are clocked.

ghost use Rattle.std.specs.Prelude.{◌≡◌, ◌<◌, length, slice_get, IsTrue};
ghost use Rattle.std.specs.Option.{ForSome};
ghost use Rattle.av_net.specs.Sound.{IsSound};

use crate::designs::design;
use av_clock::Clock;
use av_net::Module;
use std::alloc::Global;
use std::process::Abort;
use std::test::Fail;

// `o0` and `o1` show two registers that take each other, `o2` the increment, and `o3` a selection by a counter.
const SAMPLE: &str =
    "module sample(input clk, input rst, input [7:0] i0, output [3:0] o0, output [3:0] o1, output [7:0] o2, output [7:0] o3);
  wire [7:0] more;
  wire [0:0] few;
  reg [3:0] a;
  reg [3:0] b;
  reg [7:0] count;
  assign o0 = a;
  assign o1 = b;
  assign o2 = i0 + 8'd1;
  assign more = count + 8'd1;
  assign few = count < 8'd2;
  assign o3 = few ? i0 : count;
  always @(posedge clk) if (rst) a <= 4'd1; else a <= b;
  always @(posedge clk) if (rst) b <= 4'd2; else b <= a;
  always @(posedge clk) if (rst) count <= 8'd0; else count <= more;
endmodule
";

// One register that takes itself, and `o0`, which shows it.
const STILL: &str = "module still(input clk, input rst, output [3:0] o0);
  reg [3:0] a;
  assign o0 = a;
  always @(posedge clk) if (rst) a <= 4'd3; else a <= a;
endmodule
";

// Whether the module has the input and the drives of the sample.
fn is_sample(of: &Module) -> bool
    ensures inputs { IsTrue result → length of.now.inputs ≡ 1 }
    ensures drives { IsTrue result → length of.now.drives ≡ 6 }
    ensures width { IsTrue result → ForSome (slice_get of.now.inputs 0) (λ p. p.width.bits ≡ 8) }
{
    let inputs = of.inputs.as_slice();
    inputs.len() == 1 && inputs[0].width.bits == 8 && of.drives.as_slice().len() == 6
}

// The words of `o0`, `o1`, `o2` and `o3` in one cycle with this word at the port.
fn cycle(clock: &mut Clock<'_>, input: u64) -> [u64; 4]
    requires input { input < 256 }
    requires inputs { length clock.old.of.inputs ≡ 1 }
    requires drives { length clock.old.of.drives ≡ 6 }
    requires width { ForSome (slice_get clock.old.of.inputs 0) (λ p. p.width.bits ≡ 8) }
    ensures { clock.new.of ≡ clock.old.of }
{
    clock.set(0, input);
    clock.settle();
    let shown = [
        clock.value(0),
        clock.value(1),
        clock.value(2),
        clock.value(5),
    ];
    clock.tick();
    shown
}

fn assert_cycle(rt: &impl Abort, clock: &mut Clock<'_>, input: u64, wanted: [u64; 4])
    requires input { input < 256 }
    requires inputs { length clock.old.of.inputs ≡ 1 }
    requires drives { length clock.old.of.drives ≡ 6 }
    requires width { ForSome (slice_get clock.old.of.inputs 0) (λ p. p.width.bits ≡ 8) }
    ensures { clock.new.of ≡ clock.old.of }
{
    assert_eq!(rt; cycle(clock, input), wanted);
}

// Four cycles from a reset.
fn assert_cycles(rt: &impl Abort, clock: &mut Clock<'_>)
    requires inputs { length clock.old.of.inputs ≡ 1 }
    requires drives { length clock.old.of.drives ≡ 6 }
    requires width { ForSome (slice_get clock.old.of.inputs 0) (λ p. p.width.bits ≡ 8) }
    ensures { clock.new.of ≡ clock.old.of }
{
    clock.reset();
    assert_cycle(rt, clock, 255, [1, 2, 0, 255]);
    assert_cycle(rt, clock, 7, [2, 1, 8, 7]);
    assert_cycle(rt, clock, 9, [1, 2, 10, 2]);
    assert_cycle(rt, clock, 0, [2, 1, 1, 3]);
}

// The cycles of the sample, and one more from a reset.
fn assert_sample(rt: &impl Abort, alloc: Global, of: &Module) -> Result<(), Fail>
    requires { IsSound of.now }
{
    if !is_sample(of) {
        return Err(Fail::new("the sample"));
    }
    let mut clock = Clock::new(alloc, of)?;
    assert_cycles(rt, &mut clock);
    clock.reset();
    assert_cycle(rt, &mut clock, 4, [1, 2, 5, 4]);
    Ok(())
}

#[test]
fn a_sample_is_clocked(rt: HostRuntime) -> Result<(), Fail> {
    let design = design(rt.alloc(), SAMPLE)?;
    assert_sample(&rt, rt.alloc(), &design.module)
}

// The drives that are computed in a cycle.
fn work_of_cycle(clock: &mut Clock<'_>) -> u64
    requires { IsTrue clock.old.settled }
    ensures of { clock.new.of ≡ clock.old.of }
    ensures settled { IsTrue clock.new.settled }
{
    let before = clock.work();
    clock.tick();
    clock.settle();
    clock.work().wrapping_sub(before)
}

// From power up and from a reset: the first drives that are computed, those of the cycle after the reset, and the first word.
fn works(clock: &mut Clock<'_>) -> [u64; 3]
    requires { 0 < length clock.old.of.drives }
{
    clock.settle();
    let first = clock.work();
    clock.reset();
    clock.settle();
    let later = work_of_cycle(clock);
    [first, later, clock.value(0)]
}

fn assert_works(rt: &impl Abort, alloc: Global, of: &Module) -> Result<(), Fail>
    requires { IsSound of.now }
{
    if of.drives.as_slice().is_empty() {
        return Err(Fail::new("drives"));
    }
    let mut clock = Clock::new(alloc, of)?;
    assert_eq!(rt; works(&mut clock), [1, 0, 3]);
    Ok(())
}

#[test]
fn a_register_that_takes_itself_is_no_work(rt: HostRuntime) -> Result<(), Fail> {
    let design = design(rt.alloc(), STILL)?;
    assert_works(&rt, rt.alloc(), &design.module)
}

// The word of this drive in one cycle.
fn word_of_cycle(clock: &mut Clock<'_>, drive: u32) -> u64
    requires { drive < length clock.old.of.drives }
    ensures { clock.new.of ≡ clock.old.of }
{
    clock.settle();
    let word = clock.value(drive);
    clock.tick();
    word
}

// The words of this drive in three cycles from a reset.
fn words(alloc: Global, of: &Module, drive: u32) -> Result<[u64; 3], Fail>
    requires { IsSound of.now }
{
    if drive as usize >= of.drives.as_slice().len() {
        return Err(Fail::new("a drive"));
    }
    let mut clock = Clock::new(alloc, of)?;
    clock.reset();
    Ok([
        word_of_cycle(&mut clock, drive),
        word_of_cycle(&mut clock, drive),
        word_of_cycle(&mut clock, drive),
    ])
}

fn words_of_text(alloc: Global, text: &str, drive: u32) -> Result<[u64; 3], Fail> {
    let read = design(alloc, text)?;
    words(alloc, &read.module, drive)
}

/// This drive of a text has these words in three cycles from a reset.
pub(crate) fn assert_words(
    rt: &impl Abort,
    alloc: Global,
    text: &str,
    drive: u32,
    wanted: [u64; 3],
) -> Result<(), Fail> {
    let words = words_of_text(alloc, text, drive)?;
    assert_eq!(rt; words, wanted);
    Ok(())
}
