//! What designs show.

ghost use Rattle.std.specs.Prelude.{◌≡◌, ◌≢◌, IsTrue, All};
ghost use Rattle.av_base.specs.Words.{IsWord};
ghost use Rattle.av_net.specs.Presented.{AreApart, HasFittingWord, HaveFittingWords};
ghost use Rattle.av_data.specs.Inputs.{words_of};

use crate::texts::INCREMENT;
use av_base::{Memory, Width, Word};
use av_commands::shown;
use av_compile::checked;
use av_data::{Inputs, read_data};
use av_net::{Design, Entry, Port};
use av_testing::texts::INCREMENT_DESIGN;
use av_vread::read_design;
use std::alloc::Global;
use std::test::Fail;

// The same with 2 in the place of 1: no design of the increment's equations.
const OF_TWO_MORE: &str = "// alphav 1
// in X (0) i0 0
// in X (1) i0 1
// in X (2) i0 2
// at Y (0) o0 0
// at Y (1) o0 1
// at Y (2) o0 2
module array(input clk, input rst, input [7:0] i0, output [7:0] o0);
  wire [7:0] c0;
  assign c0 = i0 + 8'd2;
  assign o0 = c0;
endmodule
";

// A register keeps each sum for a cycle; what it has at first and what stands in idle cycles is shown, too.
const OF_SUMS: &str = "// alphav 1
// in X (2) i0 1
// at Y (0) a 0
// at Y (1) s 1
// at Z () o0 3
// at Y (2) a 2
module sums(input clk, input rst, input [7:0] i0, output [7:0] o0);
  wire [7:0] a;
  wire [7:0] s;
  reg [7:0] r;
  assign a = r;
  assign s = a + i0;
  assign o0 = s;
  always @(posedge clk) if (rst) r <= 8'd7; else r <= s;
endmodule
";

const DATA: &str = "X (0) = 0\nX (1) = 254\nX (2) = 255\n";

// A design text, and the words that it shows of the data.
const ROWS: &[(&str, &[u64])] = &[
    (INCREMENT_DESIGN, &[1, 255, 0]),
    (OF_TWO_MORE, &[2, 0, 1]),
    (OF_SUMS, &[7, 6, 6, 6]),
];

#[test]
fn designs_show_their_own_words(rt: HostRuntime) -> Result<(), Fail> {
    for (text, words) in ROWS {
        assert!(rt; shows(rt.alloc(), text, words)?, "{text}");
    }
    Ok(())
}

// Whether the design of a text shows these words of the data of the increment.
fn shows(alloc: Global, text: &str, words: &[u64]) -> Result<bool, Memory> {
    let Some(width) = Width::new(8) else {
        return Ok(false);
    };
    if text.len() >= 4_294_967_295 {
        return Ok(false);
    }
    let Ok(flat) = checked(alloc, INCREMENT.as_bytes(), &[], width) else {
        return Ok(false);
    };
    let Ok(inputs) = read_data(alloc, DATA.as_bytes(), 1, &flat) else {
        return Ok(false);
    };
    let Ok(design) = read_design(alloc, text.as_bytes()) else {
        return Ok(false);
    };
    if !are_apart(design.listing.ins.as_slice()) || !have_words(&design, &inputs) {
        return Ok(false);
    }
    let found = shown(alloc, &design, &inputs)?;
    Ok(are_these(found.as_slice(), words))
}

fn are_these(found: &[Word], words: &[u64]) -> bool {
    found.len() == words.len()
        && found
            .iter()
            .zip(words)
            .all(|(word, bits)| word.bits == *bits)
}

// No two lines share port and cycle.
fn are_apart(lines: &[Entry]) -> bool
    ensures { IsTrue result → AreApart lines.now }
{
    for i in 0..lines.len() {
        if !is_apart(&lines[i], &lines[i + 1..]) {
            return false;
        }
    }
    true
}

fn is_apart(line: &Entry, later: &[Entry]) -> bool
    ensures { IsTrue result
        → All (λ other. line.now.wire ≡ other.wire → line.now.cycle ≢ other.cycle) later.now }
{
    for other in later {
        if other.cycle == line.cycle && other.wire.as_str() == line.wire.as_str() {
            return false;
        }
    }
    true
}

// Each line's point has a word that fits its port.
fn have_words(design: &Design, inputs: &Inputs) -> bool
    ensures { IsTrue result → HaveFittingWords design.now (words_of inputs.now) }
{
    for line in design.listing.ins.as_slice() {
        if !has_word(design.module.inputs.as_slice(), line, inputs) {
            return false;
        }
    }
    true
}

fn has_word(ports: &[Port], line: &Entry, inputs: &Inputs) -> bool
    ensures { IsTrue result → HasFittingWord ports.now (words_of inputs.now) line.now }
{
    match inputs.word(&line.variable, &line.point) {
        Some(word) => fits_all(ports, line, word),
        None => false,
    }
}

fn fits_all(ports: &[Port], line: &Entry, word: Word) -> bool
    ensures { IsTrue result
        → All (λ port. line.now.wire ≡ port.name → IsWord port.width.bits word.bits) ports.now }
{
    for port in ports {
        let own = Word::of(word.bits, port.width).bits;
        if port.name.as_str() == line.wire.as_str() && own != word.bits {
            return false;
        }
    }
    true
}
