//! The command `sim`.

ghost use Rattle.std.specs.Prelude.{◌<◌, ◌≤◌, ◌+◌, length};
ghost use Rattle.av_net.specs.Sound.{IsSound};
ghost use Rattle.av_net.specs.declared.netlist.Module.{Module as Netlist};
ghost use Rattle.av_wave.specs.Clocking.{AreLeft};
ghost use Rattle.av_commands.specs.Sims.{RefusesSim, GivesSim};
ghost use Rattle.av_commands.specs.inner.WithModule.{RefusesStimulus, GivesRun};
ghost use Rattle.av_commands.specs.Written.{IsAnswered};
ghost use Rattle.av_commands.specs.inner.Clocking.{IsClocked};

use crate::puts::{put, put_data_refusal, put_verilog_refusal};
use crate::simulation::{make_ready, run};
use crate::status::Status;
use av_base::{Memory, Sink};
use av_data::{Stimulus, divide, read_stimulus};
use av_net::Module;
use av_vread::read_design;
use std::alloc::Global;

const NO_MARK: &str = "refused: no mark\n";

// Takes all memory, and then writes the lines of the run.
fn clock_module<K: Sink>(alloc: Global, of: &Module, stimulus: &Stimulus, sink: &mut K) -> Status
    requires sound { IsSound of.now }
    requires left { AreLeft of.now.inputs stimulus.now.values 0 0 stimulus.now.values }
    ensures { IsClocked of.now stimulus.now (K.state sink.old) (K.state sink.new) result }
{
    match make_ready(alloc, of) {
        Err(Memory) => Status::Memory,
        Ok(mut parts) => match run(&mut parts, stimulus, sink) {
            Ok(()) => Status::Done,
            Err(_) => Status::WriteFault,
        },
    }
}

// Reads the stimulus for the module, and clocks it.
fn sim_module<K: Sink>(
    alloc: Global,
    of: &Module,
    bytes: &[u8],
    first_line: u32,
    sink: &mut K,
) -> Status
    requires sound { IsSound of.now }
    requires lines { first_line + length bytes.now < 4294967295 }
    ensures { IsAnswered (RefusesStimulus of.now bytes.now first_line)
        (GivesRun of.now bytes.now) (K.state sink.old) (K.state sink.new) result }
{
    match read_stimulus(alloc, bytes, first_line, of) {
        Err(fault) => put_data_refusal(sink, &fault),
        Ok(stimulus) => clock_module(alloc, of, &stimulus, sink),
    }
}

/// Answers a design text, a line `%%` and a stimulus.
pub fn sim<K: Sink>(alloc: Global, bytes: &[u8], sink: &mut K) -> Status
    requires { length bytes.now ≤ 1048576 }
    ensures { IsAnswered (RefusesSim bytes.now)
        (GivesSim bytes.now) (K.state sink.old) (K.state sink.new) result }
{
    let Some(parts) = divide(bytes) else {
        return put(sink, NO_MARK, Status::Refused);
    };
    match read_design(alloc, parts.text) {
        Err(fault) => put_verilog_refusal(sink, &fault),
        Ok(design) => sim_module(alloc, &design.module, parts.rest, parts.first_line, sink),
    }
}
