//! The command `best`.

ghost use Rattle.std.specs.Prelude.{◌≡◌, ◌≢◌, ◌++◌, ◌≤◌, ◌<◌, length, Err, IfOk, IfErr, IsErr, OnOk, OnErr};
ghost use Rattle.av_base.specs.Outside.{Adds, AddsPrefix, HasRisen};
ghost use Rattle.av_flat.specs.Trees.{view_system};
ghost use Rattle.av_flat.specs.Chained.{IsChained};
ghost use Rattle.av_flat.specs.Proper.{IsProper};
ghost use Rattle.av_flat.specs.Legal.{IsLegal};
ghost use Rattle.av_names.specs.Texts.{AreSmall};
ghost use Rattle.av_best.specs.BestFaults.{IsFault};
ghost use Rattle.av_best.specs.Lengths.{IsLength};
ghost use Rattle.av_best.specs.Least.{IsLeastSchedule};
ghost use Rattle.av_data.specs.Schedules.{schedule_text};
ghost use Rattle.av_compile.specs.Scheduled.{Serialises};
ghost use Rattle.av_compile.specs.declared.refusal.Refusal.{Refusal as Refused};
ghost use Rattle.av_compile.specs.declared.refusal.Refusal.TheVariants as refusal;
ghost use Rattle.av_commands.specs.Bests.{IsUnchained, HasNoFault, cycles_line};
ghost use Rattle.av_commands.specs.WithWords.{RefusesBestWith, GivesBestWith};
ghost use Rattle.av_commands.specs.Written.{IsAnswered};

use crate::puts::{put_alpha_refusal, put_best_refusal, put_least_schedule};
use crate::sizes::sizes;
use crate::status::Status;
use av_base::{Memory, Name, Sink, Width, WriteFault};
use av_best::{BestFault, least, length_of};
use av_compile::{Refusal, checked};
use av_data::write_schedule;
use av_depend::edges;
use av_flat::{Flat, Reach, Timed};
use av_names::Size;
use av_page::Page;
use av_serial::serial_form;
use std::alloc::Global;

// The normal form of what a text spells, with its reductions as chains.
fn chained(alloc: Global, bytes: &[u8], sizes: &[Size], width: Width) -> Result<Flat, Refusal>
    requires short { length bytes.now < 4294967295 }
    requires small { AreSmall sizes.now }
    ensures found { IfOk result (λ to. Serialises bytes.now sizes.now width.bits (view_system to)) }
    ensures refused { (f : Refused) → result ≡ Err f
        → f ≢ refusal.Memory → IsUnchained bytes.now sizes.now width.bits f }
{
    let normal = checked(alloc, bytes, sizes, width)?;
    Ok(serial_form(alloc, normal)?)
}

// The least schedule of a system, and its length.
fn measured(alloc: Global, flat: &Flat, reach: Reach) -> Result<(Timed, u64), BestFault>
    requires chained { IsChained (view_system flat.now) }
    requires proper { IsProper (view_system flat.now) }
    ensures same { IfOk result (λ x. view_system x.0.flat ≡ view_system flat.now) }
    ensures least { IfOk result (λ x. IsLeastSchedule (view_system flat.now) reach.size x.0.times) }
    ensures no_cause { IfOk result (λ x. HasNoFault (view_system flat.now) reach.size) }
    ensures legal { IfOk result (λ x. IsLegal x.0) }
    ensures cycles { IfOk result (λ x. IsLength (view_system flat.now) x.0.times x.1) }
    ensures fault { IfErr result (IsFault (view_system flat.now) reach.size) }
{
    let edges = edges(alloc, flat)?;
    let timed = least(alloc, flat, edges.as_slice(), reach)?;
    let cycles = length_of(alloc, &timed)?;
    Ok((timed, cycles))
}

/// Answers an Alpha text with the sizes among the words.
pub fn best<K: Sink>(
    alloc: Global,
    words: &[Name],
    bytes: &[u8],
    width: Width,
    reach: Reach,
    sink: &mut K,
) -> Status
    requires { length bytes.now ≤ 1048576 }
    ensures { IsAnswered (RefusesBestWith words.now width.bits reach.size bytes.now) (GivesBestWith
        words.now width.bits reach.size bytes.now) (K.state sink.old) (K.state sink.new) result }
{
    let sizes = match sizes(alloc, words) {
        Err(Memory) => return Status::Memory,
        Ok(sizes) => sizes,
    };
    match chained(alloc, bytes, sizes.as_slice(), width) {
        Err(refusal) => put_alpha_refusal(sink, refusal),
        Ok(flat) => match measured(alloc, &flat, reach) {
            Err(fault) => put_best_refusal(sink, &fault),
            Ok((timed, cycles)) => put_least_schedule(sink, &timed, cycles),
        },
    }
}

// Writes the line of the length.
fn write_cycles<K: Sink>(cycles: u64, sink: &mut K) -> Result<(), WriteFault>
    ensures added { OnOk result
        (Adds (K.state sink.old).held (K.state sink.new).held (cycles_line cycles)) }
    ensures fault { IsErr result → HasRisen (K.state sink.old).faults (K.state sink.new).faults }
    ensures front { OnErr result
        (AddsPrefix (K.state sink.old).held (K.state sink.new).held (cycles_line cycles)) }
{
    let mut page = Page::new();
    page.put(sink, "cycles ");
    page.put_number(sink, cycles);
    page.put(sink, "\n");
    page.finish(sink)
}

/// Writes the lines of a schedule, and its length. It takes no memory.
pub(crate) fn write_least_schedule<K: Sink>(
    timed: &Timed,
    cycles: u64,
    sink: &mut K,
) -> Result<(), WriteFault>
    requires { IsLegal timed.now }
    ensures added { OnOk result (Adds (K.state sink.old).held
        (K.state sink.new).held (schedule_text timed.now ++ cycles_line cycles)) }
    ensures fault { IsErr result → HasRisen (K.state sink.old).faults (K.state sink.new).faults }
    ensures front { OnErr result (AddsPrefix (K.state sink.old).held
        (K.state sink.new).held (schedule_text timed.now ++ cycles_line cycles)) }
{
    write_schedule(timed, sink)?;
    write_cycles(cycles, sink)
}
