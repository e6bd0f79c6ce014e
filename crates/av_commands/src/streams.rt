//! The command `stream`.

ghost use Rattle.std.specs.Prelude.{◌≡◌, ◌≢◌, ℕ, ◌<◌, ◌≤◌, ◌+◌, ◌*◌, ◌++◌, codes, length, map, All, IfOk, IfErr, OnOk, OnErr, IsErr};
ghost use Rattle.av_base.specs.Outside.{Adds, AddsPrefix, HasRisen};
ghost use Rattle.av_flat.specs.Chained.{IsChained};
ghost use Rattle.av_flat.specs.Legal.{IsLegal};
ghost use Rattle.av_flat.specs.Trees.{view_system};
ghost use Rattle.av_flat.specs.OneSolution.{AreInputs};
ghost use Rattle.av_net.specs.Designs.{IsSoundPlan};
ghost use Rattle.av_net.specs.Flat.{flat_module, flat_of};
ghost use Rattle.av_net.specs.Presented.{HaveFittingWords};
ghost use Rattle.av_space.specs.declared.fault.SpaceFault.{SpaceFault as Fault};
ghost use Rattle.av_space.specs.declared.fault.SpaceFault.TheVariants as fault;
ghost use Rattle.av_space.specs.SpaceFaults.{IsSpaceFault};
ghost use Rattle.av_space.specs.Whole.{IsWhole};
ghost use Rattle.av_data.specs.declared.fault.DataFault.TheVariants as data_fault;
ghost use Rattle.av_data.specs.Inputs.{words_of};
ghost use Rattle.av_stream.specs.Periods.{HasPeriod};
ghost use Rattle.av_stream.specs.Streams.{AreApartEach};
ghost use Rattle.av_stream.specs.StreamTexts.{stream_text};
ghost use Rattle.av_wave.specs.Clocking.{AreLeft};
ghost use Rattle.av_commands.specs.Refusals.{refusal_line};
ghost use Rattle.av_commands.specs.Streams.{stream_cycles, cycles_reason, IsFirstBadSet, AreSpelled};
ghost use Rattle.av_commands.specs.inner.Clocking.{IsPrepared, OfEachRun};
ghost use Rattle.av_commands.specs.WithWords.{RefusesStreamWith, GivesStreamWith};
ghost use Rattle.av_commands.specs.inner.Streaming.{RefusesSets, GivesSets, IsStreamed, IsStreamOn};
ghost use Rattle.av_commands.specs.Written.{PutsOneOf, IsAnswered, IsPut};

use crate::puts::{put, put_alpha_refusal, put_data_refusal};
use crate::showing::feed_each;
use crate::simulation::{Prepared, make_ready, run};
use crate::sizes::sizes;
use crate::status::Status;
use av_base::limits::MOST_CYCLES;
use av_base::{List, Memory, Name, Sink, Width, WriteFault, write_all};
use av_compile::{MappedSystem, mapped};
use av_data::{DataFault, DataSet, Inputs, Stimulus, data_sets, divide, read_data};
use av_flat::{Flat, Reach};
use av_net::{Design, flatten};
use av_page::Page;
use av_stream::{Streamed, build_stream, period, write_stream};
use std::alloc::Global;

const NO_MARK: &str = "refused: no mark\n";

const MARK: &str = "%%\n";

/// Answers an Alpha text, a line `%%` and data sets with a line `%%` between two, with the sizes among the words.
pub fn stream<K: Sink>(
    alloc: Global,
    words: &[Name],
    bytes: &[u8],
    width: Width,
    reach: Reach,
    sink: &mut K,
) -> Status
    requires { length bytes.now ≤ 1048576 }
    ensures { IsAnswered (RefusesStreamWith words.now width.bits reach.size bytes.now)
        (GivesStreamWith words.now width.bits reach.size bytes.now)
        (K.state sink.old) (K.state sink.new) result }
{
    let sizes = match sizes(alloc, words) {
        Err(Memory) => return Status::Memory,
        Ok(sizes) => sizes,
    };
    let Some(parts) = divide(bytes) else {
        return put(sink, NO_MARK, Status::Refused);
    };
    match mapped(alloc, parts.text, sizes.as_slice(), width, reach) {
        Err(refusal) => put_alpha_refusal(sink, refusal),
        Ok(array) => stream_on(alloc, &array, parts.rest, parts.first_line, sink),
    }
}

// Divides the data, and tells the run on all sets where it is not too long.
fn stream_on<K: Sink>(
    alloc: Global,
    array: &MappedSystem,
    bytes: &[u8],
    first_line: u32,
    sink: &mut K,
) -> Status
    requires legal { IsLegal array.now.timed }
    requires whole { IsWhole array.now.timed array.now.cells }
    requires within { (f : Fault) → IsSpaceFault array.now.timed f → f ≡ fault.Memory }
    requires lines { first_line + length bytes.now < 4294967294 }
    ensures { IsAnswered (RefusesSets array.now first_line bytes.now)
        (GivesSets array.now first_line bytes.now) (K.state sink.old) (K.state sink.new) result }
{
    let sets = match data_sets(alloc, bytes, first_line) {
        Err(Memory) => return Status::Memory,
        Ok(sets) => sets,
    };
    let period = period(&array.timed, &array.cells);
    let cycles = stream_cycles(array.cells.cycles, period, sets.as_slice().len());
    if cycles > MOST_CYCLES {
        return put_cycles_refusal(sink, cycles);
    }
    match read_sets(alloc, &array.timed.flat, sets.as_slice()) {
        Err(fault) => put_data_refusal(sink, &fault),
        Ok(inputs) => put_stream(alloc, array, inputs.as_slice(), cycles as u32, sink),
    }
}

// The cycles of one problem, and a period for each further one.
fn stream_cycles(cycles: u32, period: u32, count: usize) -> u128
    requires { 0 < count }
    ensures { result ≡ stream_cycles cycles period count }
{
    u128::from(cycles) + u128::from(period) * (count as u128 - 1)
}

// Writes the line of the refusal of too many cycles.
fn write_cycles_refusal<K: Sink>(cycles: u128, sink: &mut K) -> Result<(), WriteFault>
    ensures added { OnOk result (Adds
        (K.state sink.old).held (K.state sink.new).held (refusal_line (cycles_reason cycles))) }
    ensures fault { IsErr result → HasRisen (K.state sink.old).faults (K.state sink.new).faults }
    ensures front { OnErr result (AddsPrefix
        (K.state sink.old).held (K.state sink.new).held (refusal_line (cycles_reason cycles))) }
{
    let mut page = Page::new();
    page.put(sink, "refused: stream cycles ");
    page.put_number(sink, cycles);
    page.put(sink, "\n");
    page.finish(sink)
}

// Adds the line of the refusal of too many cycles.
fn put_cycles_refusal<K: Sink>(sink: &mut K, cycles: u128) -> Status
    ensures { IsPut (K.state sink.old)
        (K.state sink.new) (refusal_line (cycles_reason cycles)) Status.Refused result }
{
    match write_cycles_refusal(cycles, sink) {
        Ok(()) => Status::Refused,
        Err(_) => Status::WriteFault,
    }
}

/// The words of each set, or the fault of the first set that has one.
pub(crate) fn read_sets(
    alloc: Global,
    flat: &Flat,
    sets: &[DataSet<'_>],
) -> Result<List<Inputs>, DataFault>
    requires chained { IsChained (view_system flat.now) }
    requires lines { All (λ set. set.first_line + length set.bytes.now < 4294967295) sets.now }
    ensures spelled { IfOk result (λ inputs.
        AreSpelled (view_system flat.now) sets.now (map words_of inputs)) }
    ensures words { IfOk result (All (λ x. AreInputs (view_system flat.now) (words_of x))) }
    ensures fault { IfErr result (λ f. f ≢ data_fault.Memory
        → IsFirstBadSet (view_system flat.now) sets.now f) }
{
    let mut inputs = List::new(alloc);
    for set in sets {
        inputs.push(read_data(alloc, set.bytes, set.first_line, flat)?)?;
    }
    Ok(inputs)
}

// Builds the plan of the array, and adds its text, a line `%%`, and a line for each cycle of its run on all sets.
fn put_stream<K: Sink>(
    alloc: Global,
    array: &MappedSystem,
    inputs: &[Inputs],
    cycles: u32,
    sink: &mut K,
) -> Status
    requires legal { IsLegal array.now.timed }
    requires whole { IsWhole array.now.timed array.now.cells }
    requires within { (f : Fault) → IsSpaceFault array.now.timed f → f ≡ fault.Memory }
    requires words { All (λ x. AreInputs (view_system array.now.timed.flat) (words_of x))
        inputs.now }
    requires short { (period : ℕ) → HasPeriod array.now.timed array.now.cells period
        → cycles ≡ stream_cycles array.now.cells.cycles period (length inputs.now) }
    requires few { (0 < length inputs.now) × (cycles ≤ 4096) }
    ensures { PutsOneOf (IsStreamOn array.now cycles (map words_of inputs.now))
        (K.state sink.old) (K.state sink.new) result }
{
    match build_stream(alloc, &array.timed, &array.cells) {
        Err(Memory) => Status::Memory,
        Ok(streamed) => clock_plan(alloc, &streamed, inputs, cycles, sink),
    }
}

// Makes the flat design of the plan, and clocks it on all sets.
fn clock_plan<K: Sink>(
    alloc: Global,
    streamed: &Streamed,
    inputs: &[Inputs],
    cycles: u32,
    sink: &mut K,
) -> Status
    requires plan { IsSoundPlan streamed.now.plan }
    requires apart { AreApartEach (flat_of streamed.now.plan).listing.ins streamed.now.period }
    requires words { All (λ x. HaveFittingWords (flat_of streamed.now.plan) (words_of x))
        inputs.now }
    requires few { length inputs.now * streamed.now.period ≤ 8192 }
    ensures { PutsOneOf (IsStreamed cycles streamed.now (map words_of inputs.now))
        (K.state sink.old) (K.state sink.new) result }
{
    match flatten(alloc, &streamed.plan) {
        Err(Memory) => Status::Memory,
        Ok(design) => clock_stream(alloc, streamed, &design, inputs, cycles, sink),
    }
}

// Clocks the flat design of the plan on all sets.
fn clock_stream<K: Sink>(
    alloc: Global,
    streamed: &Streamed,
    design: &Design,
    inputs: &[Inputs],
    cycles: u32,
    sink: &mut K,
) -> Status
    requires plan { IsSoundPlan streamed.now.plan }
    requires design { design.now ≡ flat_of streamed.now.plan }
    requires apart { AreApartEach design.now.listing.ins streamed.now.period }
    requires words { All (λ x. HaveFittingWords design.now (words_of x)) inputs.now }
    requires few { length inputs.now * streamed.now.period ≤ 8192 }
    ensures { PutsOneOf (IsStreamed cycles streamed.now (map words_of inputs.now))
        (K.state sink.old) (K.state sink.new) result }
{
    let stimulus = match feed_each(alloc, design, inputs, streamed.period, cycles) {
        Err(Memory) => return Status::Memory,
        Ok(stimulus) => stimulus,
    };
    match make_ready(alloc, &design.module) {
        Err(Memory) => Status::Memory,
        Ok(mut parts) => match write_run(streamed, &mut parts, &stimulus, sink) {
            Ok(()) => Status::Done,
            Err(_) => Status::WriteFault,
        },
    }
}

// Writes the text, a line `%%`, and the lines of the run under a stimulus. It takes no memory.
fn write_run<K: Sink>(
    streamed: &Streamed,
    parts: &mut Prepared<'_>,
    stimulus: &Stimulus,
    sink: &mut K,
) -> Result<(), WriteFault>
    requires plan { IsSoundPlan streamed.now.plan }
    requires prepared { IsPrepared (flat_module streamed.now.plan) parts.old }
    requires left { AreLeft (flat_module streamed.now.plan).inputs
        stimulus.now.values 0 0 stimulus.now.values }
    ensures added { OnOk result (OfEachRun
        (flat_module streamed.now.plan) stimulus.now (λ lines. Adds (K.state sink.old).held
        (K.state sink.new).held (stream_text streamed.now ++ codes "%%\n" ++ lines))) }
    ensures fault { IsErr result → HasRisen (K.state sink.old).faults (K.state sink.new).faults }
    ensures front { OnErr result (OfEachRun
        (flat_module streamed.now.plan) stimulus.now (λ lines. AddsPrefix (K.state sink.old).held
        (K.state sink.new).held (stream_text streamed.now ++ codes "%%\n" ++ lines))) }
{
    write_stream(streamed, sink)?;
    write_all(sink, MARK.as_bytes())?;
    run(parts, stimulus, sink)
}
