//! Eight lanes beside clocks.

ghost use Rattle.std.specs.Prelude.{◌≡◌, ◌<◌, length, All, IsTrue};
ghost use Rattle.av_base.specs.Words.{IsWord};
ghost use Rattle.av_net.specs.Sound.{IsSound};

use av_base::{Memory, Width, Word};
use av_clock::Clock;
use av_lanes::Lanes;
use av_net::Module;
use std::alloc::Global;

// Some number for an input port in a cycle and a lane. No port changes in the cycles 8 to 39.
fn number(port: u32, cycle: u32, lane: u32) -> u64 {
    let cycle = if cycle > 8 && cycle < 40 { 8 } else { cycle };
    let seed = u64::from(port)
        .wrapping_mul(0x9E37_79B9_7F4A_7C15)
        .wrapping_add(u64::from(cycle).wrapping_mul(0xBF58_476D_1CE4_E5B9))
        .wrapping_add(u64::from(lane).wrapping_mul(0x94D0_49BB_1331_11EB));
    let mixed = (seed ^ (seed >> 30)).wrapping_mul(0xBF58_476D_1CE4_E5B9);
    mixed ^ (mixed >> 27)
}

// It, cut to a width.
fn word(port: u32, cycle: u32, lane: u32, width: Width) -> u64
    ensures { IsWord width.bits result }
{
    Word::of(number(port, cycle, lane), width).bits
}

// Those of all lanes.
fn words(port: u32, cycle: u32, width: Width) -> [u64; 8]
    ensures { All (IsWord width.bits) result }
{
    [
        word(port, cycle, 0, width),
        word(port, cycle, 1, width),
        word(port, cycle, 2, width),
        word(port, cycle, 3, width),
        word(port, cycle, 4, width),
        word(port, cycle, 5, width),
        word(port, cycle, 6, width),
        word(port, cycle, 7, width),
    ]
}

fn present_in_lanes(lanes: &mut Lanes<'_>, of: &Module, cycle: u32)
    requires { lanes.old.of ≡ of.now }
    ensures { lanes.new.of ≡ of.now }
{
    let ports = of.inputs.as_slice();
    for port in 0..of.inputs.len() as u32 {
        lanes.set(port, words(port, cycle, ports[port as usize].width));
    }
}

fn present(clock: &mut Clock<'_>, of: &Module, cycle: u32, lane: u32)
    requires { clock.old.of ≡ of.now }
    ensures { clock.new.of ≡ of.now }
{
    let ports = of.inputs.as_slice();
    for port in 0..of.inputs.len() as u32 {
        clock.set(port, word(port, cycle, lane, ports[port as usize].width));
    }
}

// Whether each wire and output has in the lane the word that it has in the clock.
fn have_same_words(lanes: &Lanes<'_>, clock: &Clock<'_>, of: &Module, lane: u32) -> bool
    requires lane { lane < 8 }
    requires lanes { lanes.now.of ≡ of.now }
    requires clock { clock.now.of ≡ of.now }
    requires settled { IsTrue lanes.now.settled }
    requires settled_clock { IsTrue clock.now.settled }
{
    for wire in 0..of.drives.len() as u32 {
        if lanes.value(wire)[lane as usize] != clock.value(wire) {
            return false;
        }
    }
    true
}

// Whether a lane has the words of a clock in each cycle from a reset.
fn follows_a_clock(alloc: Global, of: &Module, cycles: u32, lane: u32) -> Result<bool, Memory>
    requires sound { IsSound of.now }
    requires lane { lane < 8 }
{
    let mut lanes = Lanes::new(alloc, of)?;
    let mut clock = Clock::new(alloc, of)?;
    lanes.reset();
    clock.reset();
    for cycle in 0..cycles {
        present_in_lanes(&mut lanes, of, cycle);
        present(&mut clock, of, cycle, lane);
        lanes.settle();
        clock.settle();
        if !have_same_words(&lanes, &clock, of, lane) {
            return Ok(false);
        }
        lanes.tick();
        clock.tick();
    }
    Ok(true)
}

/// Whether each of eight lanes has the words of a clock that takes the lane's words, in each cycle of a run from a reset.
pub fn lanes_follow_clocks(alloc: Global, of: &Module, cycles: u32) -> Result<bool, Memory>
    requires { IsSound of.now }
{
    for lane in 0..8 {
        if !follows_a_clock(alloc, of, cycles, lane)? {
            return Ok(false);
        }
    }
    Ok(true)
}
