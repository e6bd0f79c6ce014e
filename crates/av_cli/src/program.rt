ghost use Rattle.std.specs.Prelude.{◌≡◌, ◌≤◌, length};
ghost use Rattle.av_base.specs.Outside.{HasRisen};
ghost use Rattle.av_cli.specs.Commands.{TakeInput};
ghost use Rattle.av_cli.specs.Program.{AddsWhole, AddsFront, IsComplete};
ghost use Rattle.av_commands.specs.Written.{IsAnswered};
ghost use Rattle.av_cli.specs.inner.Asked.{Refuses, Gives};
ghost use Rattle.av_cli.specs.inner.CommandsSeen.{Are};

use crate::words::{Command, read_words};
use av_base::limits::MOST_BYTES;
use av_base::{Name, ReadAll, Sink, Source, read_all};
use av_commands::{
    Report, Status, answer_run, best, check, demo, emit, put, run8, schedule, sim, stream, table,
    unwave,
};
use std::alloc::Global;

const USAGE: &str =
    "usage: alphav check|schedule|table|emit|run|trace|best|stream|wave|run8 [--width W] [--box C] [NAME=VALUE ...] | sim | unwave | demo K\n";

const TOO_LONG: &str = "refused: too long\n";

/// All that the program does: it reads the words, then the source to its end, computes all that is to
/// be written, and then writes it. `demo` reads no source.
pub fn alphav<S: Source, K: Sink>(
    alloc: Global,
    words: &[Name],
    source: &mut S,
    sink: &mut K,
) -> Status
    ensures words { result ≡ Status.Words → AddsWhole Status.Words words.now
        (S.left source.old) (S.left source.new) (K.state sink.old).held (K.state sink.new).held }
    ensures untouched { (TakeInput words.now → ⊥) → source.new ≡ source.old }
    ensures refused { result ≡ Status.Refused → AddsWhole Status.Refused words.now
        (S.left source.old) (S.left source.new) (K.state sink.old).held (K.state sink.new).held }
    ensures done { result ≡ Status.Done → AddsWhole Status.Done words.now
        (S.left source.old) (S.left source.new) (K.state sink.old).held (K.state sink.new).held }

    ensures read_fault { result ≡ Status.ReadFault
        → HasRisen (S.faults source.old) (S.faults source.new)
        × ((K.state sink.new).held ≡ (K.state sink.old).held) }
    ensures write_fault { result ≡ Status.WriteFault
        → HasRisen (K.state sink.old).faults (K.state sink.new).faults × AddsFront words.now
        (S.left source.old) (S.left source.new) (K.state sink.old).held (K.state sink.new).held }
    ensures memory { result ≡ Status.Memory → (K.state sink.new).held ≡ (K.state sink.old).held }

    // With no fault the words and the source's bytes fix the status, unless memory runs out.
    ensures complete { (HasRisen (S.faults source.old) (S.faults source.new) → ⊥)
        → (HasRisen (K.state sink.old).faults (K.state sink.new).faults → ⊥)
        → IsComplete words.now (S.left source.old) result }
{
    let Some(command) = read_words(words) else {
        return put(sink, USAGE, Status::Words);
    };
    if !command.takes_input() {
        return answer(alloc, words, command, &[], sink);
    }
    match read_all(alloc, source, MOST_BYTES) {
        Err(ReadAll::ReadFault) => Status::ReadFault,
        Err(ReadAll::Memory) => Status::Memory,
        Err(ReadAll::TooLong) => put(sink, TOO_LONG, Status::Refused),
        Ok(bytes) => answer(alloc, words, command, bytes.as_slice(), sink),
    }
}

// Answers the bytes of an input. The words are those that the command was read from.
fn answer<K: Sink>(
    alloc: Global,
    words: &[Name],
    command: Command,
    bytes: &[u8],
    sink: &mut K,
) -> Status
    requires read { Are command words.now }
    requires within { length bytes.now ≤ 1048576 }
    ensures { IsAnswered (Refuses command words.now bytes.now)
        (Gives command words.now bytes.now) (K.state sink.old) (K.state sink.new) result }
{
    match command {
        Command::Check { width } => check(alloc, words, bytes, width, sink),
        Command::Schedule { width, reach } => { schedule(alloc, words, bytes, width, reach, sink) }
        Command::Table { width, reach } => table(alloc, words, bytes, width, reach, sink),
        Command::Emit { width, reach } => emit(alloc, words, bytes, width, reach, sink),
        Command::Run { width, reach } => {
            answer_run(alloc, words, bytes, width, reach, Report::Results, sink)
        }
        Command::Trace { width, reach } => {
            answer_run(alloc, words, bytes, width, reach, Report::Trace, sink)
        }
        Command::Best { width, reach } => best(alloc, words, bytes, width, reach, sink),
        Command::Stream { width, reach } => stream(alloc, words, bytes, width, reach, sink),
        Command::Wave { width, reach } => {
            answer_run(alloc, words, bytes, width, reach, Report::Wave, sink)
        }
        Command::Run8 { width, reach } => run8(alloc, words, bytes, width, reach, sink),
        Command::Sim => sim(alloc, bytes, sink),
        Command::Unwave => unwave(alloc, bytes, sink),
        Command::Demo { width, reach, size } => demo(alloc, size, width, reach, sink),
    }
}
