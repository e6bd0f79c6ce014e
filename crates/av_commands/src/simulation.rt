//! A module that is clocked under a stimulus.

ghost use Rattle.std.specs.Prelude.{◌≤◌, IfOk, OnOk, OnErr, IsErr};
ghost use Rattle.av_base.specs.Outside.{Adds, AddsPrefix, HasRisen};
ghost use Rattle.av_net.specs.Sound.{IsSound};
ghost use Rattle.av_net.specs.declared.netlist.Module.{Module as Netlist};
ghost use Rattle.av_wave.specs.Clocking.{AreLeft};
ghost use Rattle.av_commands.specs.inner.Clocking.{IsPrepared, OfEachRun};

use av_base::{List, Memory, Sink, WriteFault};
use av_clock::Clock;
use av_data::{Stimulus, write_cycle};
use av_net::{Module, Port};
use av_wave::{header_ports, present, show, wires, zeros};
use std::alloc::Global;

/// A clocked module, and all that is needed to write its cycles: its ports in the order of the header, the
/// places of the drives of its outputs, room for the words of the ports, and the number of input ports.
#[derive(Drop)]
pub(crate) struct Prepared<'a> {
    clock: Clock<'a>,
    ports: List<Port>,
    wires: List<u32>,
    words: List<u64>,
    inputs: u32,
}

/// Takes all the memory that clocking the module takes.
pub(crate) fn make_ready<'a>(alloc: Global, of: &'a Module) -> Result<Prepared<'a>, Memory>
    requires { IsSound of.now }
    ensures { IfOk result (λ parts. IsPrepared of.now parts) }
{
    let ports = header_ports(alloc, of)?;
    let words = zeros(alloc, ports.as_slice().len())?;
    let wires = wires(alloc, of)?;
    Ok(Prepared {
        clock: Clock::new(alloc, of)?,
        ports,
        wires,
        words,
        inputs: of.inputs.len() as u32,
    })
}

/// Clocks the module from reset under a stimulus, and writes the line of each cycle. It takes no memory.
pub(crate) fn run<K: Sink>(
    parts: &mut Prepared<'_>,
    stimulus: &Stimulus,
    sink: &mut K,
) -> Result<(), WriteFault>
    requires prepared { IsPrepared parts.old.clock.of parts.old }
    requires left { AreLeft parts.old.clock.of.inputs stimulus.now.values 0 0 stimulus.now.values }
    ensures added { OnOk result (OfEachRun parts.old.clock.of stimulus.now
        (λ lines. Adds (K.state sink.old).held (K.state sink.new).held lines)) }
    ensures fault { IsErr result → HasRisen (K.state sink.old).faults (K.state sink.new).faults }
    ensures front { OnErr result (OfEachRun parts.old.clock.of stimulus.now
        (λ lines. AddsPrefix (K.state sink.old).held (K.state sink.new).held lines)) }
    ensures later { (K.state sink.old).faults ≤ (K.state sink.new).faults }
{
    let given = stimulus.values.as_slice();
    let mut next = 0;
    parts.clock.reset();
    for cycle in 0..stimulus.cycles {
        next = present(
            &mut parts.clock,
            parts.inputs,
            given,
            next,
            cycle,
            &mut parts.words,
        );
        parts.clock.settle();
        show(
            &parts.clock,
            parts.inputs,
            parts.wires.as_slice(),
            &mut parts.words,
        );
        write_cycle(cycle, parts.ports.as_slice(), parts.words.as_slice(), sink)?;
        parts.clock.tick();
    }
    Ok(())
}
