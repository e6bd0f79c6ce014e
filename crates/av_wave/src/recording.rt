//! The wave of a run.

ghost use Rattle.std.specs.Prelude.{◌≡◌, length, IfOk, OnOk};
ghost use Rattle.av_net.specs.Sound.{IsSound};
ghost use Rattle.av_net.specs.Designs.{HasSpelling};
ghost use Rattle.av_wave.specs.Simulated.{header_ports};
ghost use Rattle.av_wave.specs.Recorded.{IsFor, IsCaptured};
ghost use Rattle.av_wave.specs.Clocking.{AreWires};
ghost use Rattle.av_wave.specs.inner.Capturing.{IsCapturing, IsWhole};
ghost use Rattle.av_wave.specs.inner.Parts.{at_first, IsPart};

use crate::feed::{header_ports, present, show, wires, zeros};
use crate::recorder::Recorder;
use crate::wave::Wave;
use av_base::{List, Memory, Name};
use av_clock::Clock;
use av_data::Stimulus;
use av_net::Module;
use std::alloc::Global;

// The recorder of the ports of a module, before anything is told.
fn recorder_of(alloc: Global, of: &Module) -> Result<Recorder, Memory>
    requires sound { IsSound of.now }
    requires spelled { HasSpelling of.now }
    ensures first { IfOk result (λ recorder.
        recorder ≡ at_first of.now.name (header_ports of.now)) }
    ensures part { IfOk result IsPart }
{
    let name = Name::new(alloc, of.name.as_str())?;
    let ports = header_ports(alloc, of)?;
    Recorder::new(alloc, name, ports)
}

// Clocks a module that was reset, and records its ports in each cycle.
fn record_cycles(
    clock: &mut Clock<'_>,
    of: &Module,
    stimulus: &Stimulus,
    wires: &[u32],
    words: &mut List<u64>,
    recorder: &mut Recorder,
) -> Result<(), Memory>
    requires sound { IsSound of.now }
    requires stimulus { IsFor of.now.inputs stimulus.now }
    requires wires { AreWires of.now (length of.now.outputs) wires.now }
    requires part { IsPart recorder.old }
    requires begun { IsCapturing of.now stimulus.now 0 clock.old words.old recorder.old 0 }
    ensures { OnOk result (IsWhole of.now stimulus.now recorder.new) }
{
    let inputs = of.inputs.len() as u32;
    let given = stimulus.values.as_slice();
    let mut next = 0;
    for cycle in 0..stimulus.cycles {
        next = present(clock, inputs, given, next, cycle, words);
        clock.settle();
        show(clock, inputs, wires, words);
        recorder.record_cycle(words.as_slice())?;
        clock.tick();
    }
    Ok(())
}

// Runs a module whose registers are 0 before the reset edge, and records its ports in each cycle.
fn run_recorded(
    alloc: Global,
    of: &Module,
    stimulus: &Stimulus,
    recorder: &mut Recorder,
) -> Result<(), Memory>
    requires sound { IsSound of.now }
    requires stimulus { IsFor of.now.inputs stimulus.now }
    requires first { recorder.old ≡ at_first of.now.name (header_ports of.now) }
    requires part { IsPart recorder.old }
    ensures { OnOk result (IsWhole of.now stimulus.now recorder.new) }
{
    let mut words = zeros(alloc, recorder.ports().len())?;
    let wires = wires(alloc, of)?;
    let mut clock = Clock::new(alloc, of)?;
    clock.reset();
    record_cycles(
        &mut clock,
        of,
        stimulus,
        wires.as_slice(),
        &mut words,
        recorder,
    )
}

/// The wave of the run of a module under a stimulus: the words of its ports, the inputs before the outputs. The registers are 0 before
/// the reset edge.
pub fn capture(alloc: Global, of: &Module, stimulus: &Stimulus) -> Result<Wave, Memory>
    requires sound { IsSound of.now }
    requires spelled { HasSpelling of.now }
    requires stimulus { IsFor of.now.inputs stimulus.now }
    ensures { IfOk result (IsCaptured of.now stimulus.now) }
{
    let mut recorder = recorder_of(alloc, of)?;
    run_recorded(alloc, of, stimulus, &mut recorder)?;
    Ok(recorder.wave())
}
