//! The command `unwave`.

ghost use Rattle.std.specs.Prelude.{◌≡◌, ◌<◌, ◌≤◌, replicate, length, take, IsErr, OnOk, OnErr, All};
ghost use Rattle.av_base.specs.Outside.{Adds, AddsPrefix, HasRisen};
ghost use Rattle.av_commands.specs.Waves.{RefusesUnwave, GivesUnwave, wave_lines};
ghost use Rattle.av_commands.specs.inner.Changing.{values_of, AreMade};
ghost use Rattle.av_commands.specs.Written.{PutsOneOf, IsAnswered};

use crate::puts::put_wave_refusal;
use crate::status::Status;
use av_base::{List, Memory, Sink, WriteFault};
use av_data::write_cycle;
use av_wave::{Change, Wave, read_wave, zeros};
use std::alloc::Global;

/// Answers a value change dump.
pub fn unwave<K: Sink>(alloc: Global, bytes: &[u8], sink: &mut K) -> Status
    requires { length bytes.now ≤ 1048576 }
    ensures { IsAnswered (RefusesUnwave bytes.now)
        (GivesUnwave bytes.now) (K.state sink.old) (K.state sink.new) result }
{
    match read_wave(alloc, bytes) {
        Err(fault) => put_wave_refusal(sink, &fault),
        Ok(wave) => put_cycles(alloc, &wave, sink),
    }
}

// Adds the line of each cycle.
fn put_cycles<K: Sink>(alloc: Global, wave: &Wave, sink: &mut K) -> Status
    ensures { PutsOneOf (λ out. out ≡ wave_lines wave.now wave.now.cycles)
        (K.state sink.old) (K.state sink.new) result }
{
    match zeros(alloc, wave.ports.len()) {
        Err(Memory) => Status::Memory,
        Ok(mut words) => match write_cycles(wave, &mut words, sink) {
            Ok(()) => Status::Done,
            Err(_) => Status::WriteFault,
        },
    }
}

// Writes the line of each cycle. The words are those of the ports before the first one. It takes no memory.
fn write_cycles<K: Sink>(wave: &Wave, words: &mut List<u64>, sink: &mut K) -> Result<(), WriteFault>
    requires { words.old ≡ replicate (length wave.now.ports) 0 }
    ensures added { OnOk result (Adds
        (K.state sink.old).held (K.state sink.new).held (wave_lines wave.now wave.now.cycles)) }
    ensures fault { IsErr result → HasRisen (K.state sink.old).faults (K.state sink.new).faults }
    ensures front { OnErr result (AddsPrefix
        (K.state sink.old).held (K.state sink.new).held (wave_lines wave.now wave.now.cycles)) }
{
    let ports = wave.ports.as_slice();
    let changes = wave.changes.as_slice();
    let cycles = wave.cycles;
    let mut next = 0;
    for cycle in 0..cycles {
        next = make_changes(words, changes, next, cycle);
        write_cycle(cycle, ports, words.as_slice(), sink)?;
    }
    Ok(())
}

// Makes the changes of a cycle, which begin at `first`. Where those of the next one begin is the answer.
fn make_changes(words: &mut List<u64>, changes: &[Change], first: usize, cycle: u32) -> usize
    requires first { first ≤ length changes.now }
    requires ports { All (λ g. g.port < length words.old) changes.now }
    requires words { words.old ≡ values_of (length words.old) (take first changes.now) }
    ensures within { result ≤ length changes.now }
    ensures words { words.new ≡ values_of (length words.old) (take result changes.now) }
    ensures made { AreMade changes.now first cycle result }
{
    let mut next = first;
    while next < changes.len() {
        let change = changes[next];
        if change.cycle != cycle {
            return next;
        }
        words.set(change.port as usize, change.value);
        next += 1;
    }
    next
}
