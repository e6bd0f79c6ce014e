//! The dump of a run, written while the module is clocked.

ghost use Rattle.std.specs.Prelude.{◌≡◌, ◌≤◌, replicate, length, Err, IsErr, IfOk, OnOk, OnErr};
ghost use Rattle.av_base.specs.Outside.{HasRisen};
ghost use Rattle.av_net.specs.Sound.{IsSound};
ghost use Rattle.av_net.specs.Designs.{HasSpelling};
ghost use Rattle.av_wave.specs.Recorded.{IsFor, AddsDump, AddsDumpPrefix};
ghost use Rattle.av_wave.specs.Simulated.{header_ports};
ghost use Rattle.av_wave.specs.inner.Running.{IsPrepared, PutsDump};
ghost use Rattle.av_wave.specs.declared.fault.RunFault.TheVariants as run_fault;

use crate::fault::RunFault;
use crate::feed::{header_ports, present, show, wires, zeros};
use crate::writer::{put_cycle, put_head, put_time};
use av_base::{List, Memory, Sink, WriteFault};
use av_clock::Clock;
use av_data::Stimulus;
use av_net::{Module, Port};
use av_page::Page;
use std::alloc::Global;
use std::mem;

// A clocked module, and all that is needed to write its run: its ports in the order of the header, the places of the drives of its
// outputs, the words of the ports in this cycle and in the one before, and the number of input ports.
#[derive(Drop)]
struct PreparedRun<'a> {
    clock: Clock<'a>,
    ports: List<Port>,
    wires: List<u32>,
    words: List<u64>,
    before: List<u64>,
    inputs: u32,
}

/// Clocks a module under a stimulus, and writes the dump of the run while it goes on: the text of the wave that
/// `capture` makes of it. The registers are 0 before the reset edge. All memory is taken before the first byte is written.
pub fn write_run<K: Sink>(
    alloc: Global,
    of: &Module,
    stimulus: &Stimulus,
    sink: &mut K,
) -> Result<(), RunFault>
    requires sound { IsSound of.now }
    requires spelled { HasSpelling of.now }
    requires stimulus { IsFor of.now.inputs stimulus.now }
    ensures added { OnOk result
        (AddsDump of.now stimulus.now (K.state sink.old).held (K.state sink.new).held) }
    ensures memory { result ≡ Err run_fault.Memory
        → (K.state sink.new).held ≡ (K.state sink.old).held }
    ensures fault { result ≡ Err run_fault.Write
        → HasRisen (K.state sink.old).faults (K.state sink.new).faults }
    ensures front { result ≡ Err run_fault.Write
        → AddsDumpPrefix of.now stimulus.now (K.state sink.old).held (K.state sink.new).held }
    ensures later { (K.state sink.old).faults ≤ (K.state sink.new).faults }
{
    match make_ready(alloc, of) {
        Err(Memory) => Err(RunFault::Memory),
        Ok(parts) => match write_dump(of, stimulus, parts, sink) {
            Err(WriteFault) => Err(RunFault::Write),
            Ok(()) => Ok(()),
        },
    }
}

// Takes all the memory that clocking the module and telling its words takes.
fn make_ready<'a>(alloc: Global, of: &'a Module) -> Result<PreparedRun<'a>, Memory>
    requires { IsSound of.now }
    ensures parts { IfOk result (λ parts. IsPrepared of.now parts) }
    ensures before { IfOk result (λ parts.
        parts.before ≡ replicate (length (header_ports of.now)) 0) }
{
    let ports = header_ports(alloc, of)?;
    let words = zeros(alloc, ports.len())?;
    let before = zeros(alloc, ports.len())?;
    let wires = wires(alloc, of)?;
    Ok(PreparedRun {
        clock: Clock::new(alloc, of)?,
        ports,
        wires,
        words,
        before,
        inputs: of.inputs.len() as u32,
    })
}

// Clocks the module from reset, and writes the dump. It takes no memory.
fn write_dump<K: Sink>(
    of: &Module,
    stimulus: &Stimulus,
    mut parts: PreparedRun<'_>,
    sink: &mut K,
) -> Result<(), WriteFault>
    requires spelled { HasSpelling of.now }
    requires stimulus { IsFor of.now.inputs stimulus.now }
    requires parts { IsPrepared of.now parts }
    requires before { parts.before ≡ replicate (length (header_ports of.now)) 0 }
    ensures added { OnOk result
        (AddsDump of.now stimulus.now (K.state sink.old).held (K.state sink.new).held) }
    ensures fault { IsErr result → HasRisen (K.state sink.old).faults (K.state sink.new).faults }
    ensures front { OnErr result
        (AddsDumpPrefix of.now stimulus.now (K.state sink.old).held (K.state sink.new).held) }
    ensures later { (K.state sink.old).faults ≤ (K.state sink.new).faults }
{
    let mut page = Page::new();
    put_run(&mut page, sink, of, stimulus, &mut parts);
    page.finish(sink)
}

// Clocks the module from reset, and puts the dump on a page. Where the sink fails, the page drops the rest.
fn put_run<K: Sink>(
    page: &mut Page,
    sink: &mut K,
    of: &Module,
    stimulus: &Stimulus,
    parts: &mut PreparedRun<'_>,
)
    requires spelled { HasSpelling of.now }
    requires stimulus { IsFor of.now.inputs stimulus.now }
    requires parts { IsPrepared of.now parts.old }
    requires before { parts.old.before ≡ replicate (length (header_ports of.now)) 0 }
    ensures { PutsDump of.now stimulus.now (K.state sink.old) (K.state sink.new) page.old page.new }
{
    put_head(page, sink, &of.name, &parts.ports);
    put_time(page, sink, 0);
    let given = stimulus.values.as_slice();
    let mut next = 0;
    parts.clock.reset();
    for cycle in 0..stimulus.cycles {
        next = present(
            &mut parts.clock,
            parts.inputs,
            given,
            next,
            cycle,
            &mut parts.words,
        );
        parts.clock.settle();
        show(
            &parts.clock,
            parts.inputs,
            parts.wires.as_slice(),
            &mut parts.words,
        );
        put_cycle(
            page,
            sink,
            &parts.ports,
            cycle,
            parts.before.as_slice(),
            parts.words.as_slice(),
        );
        put_time(page, sink, cycle + 1);
        mem::swap(&mut parts.before, &mut parts.words);
        parts.clock.tick();
    }
}
