//! The commands `run`, `trace` and `wave`.

ghost use Rattle.std.specs.Prelude.{◌≡◌, ◌<◌, ◌≤◌, ◌+◌, ◌++◌, codes, length, IsErr, OnOk, OnErr};
ghost use Rattle.av_base.specs.Outside.{Adds, AddsPrefix, HasRisen};
ghost use Rattle.av_flat.specs.Trees.{view_system, view_variable};
ghost use Rattle.av_net.specs.Designs.{IsSoundPlan};
ghost use Rattle.av_net.specs.PlanTexts.{text2};
ghost use Rattle.av_data.specs.Inputs.{words_of};
ghost use Rattle.av_flat.specs.OneSolution.{AreInputs};
ghost use Rattle.av_wave.specs.Clocking.{AreLeft};
ghost use Rattle.av_commands.specs.inner.Clocking.{IsPrepared, OfEachRun};
ghost use Rattle.av_commands.specs.Runs.{results};
ghost use Rattle.av_commands.specs.Written.{IsAnswered, PutsOneOf};
ghost use Rattle.av_commands.specs.WithWords.{RefusesRunWith, GivesReportWith};
ghost use Rattle.av_commands.specs.inner.Reported.{IsClockable, is_output_named, names_output, RefusesLines, IsReport, GivesReported};
ghost use Rattle.av_commands.specs.inner.Watching.{bits_of};
ghost use Rattle.av_commands.specs.declared.runs.Report.TheVariants as report;

use crate::puts::{put, put_alpha_refusal, put_data_refusal};
use crate::showing::{feed, shown};
use crate::simulation::{Prepared, make_ready, run};
use crate::sizes::sizes;
use crate::status::Status;
use av_base::{Memory, Name, Sink, Width, Word, WriteFault, write_all};
use av_compile::{Compiled, compile};
use av_data::{Inputs, Stimulus, divide, read_data, write_result};
use av_flat::{Flat, Kind, Reach, Var};
use av_net::Entry;
use av_vtext::write_plan;
use av_wave::{RunFault, write_run};
use std::alloc::Global;

const NO_MARK: &str = "refused: no mark\n";

const MARK: &str = "%%\n";

/// What is reported of a run: the words of the outputs, the plan and each cycle, or the dump.
#[derive(Clone, Copy, Debug)]
pub enum Report {
    Results,
    Trace,
    Wave,
}

/// Answers an Alpha text, a line `%%` and data, with the sizes among the words.
pub fn answer_run<K: Sink>(
    alloc: Global,
    words: &[Name],
    bytes: &[u8],
    width: Width,
    reach: Reach,
    report: Report,
    sink: &mut K,
) -> Status
    requires { length bytes.now ≤ 1048576 }
    ensures { IsAnswered (RefusesRunWith words.now width.bits reach.size bytes.now)
        (GivesReportWith report words.now width.bits reach.size bytes.now)
        (K.state sink.old) (K.state sink.new) result }
{
    let sizes = match sizes(alloc, words) {
        Err(Memory) => return Status::Memory,
        Ok(sizes) => sizes,
    };
    let Some(parts) = divide(bytes) else {
        return put(sink, NO_MARK, Status::Refused);
    };
    match compile(alloc, parts.text, sizes.as_slice(), width, reach) {
        Err(refusal) => put_alpha_refusal(sink, refusal),
        Ok(compiled) => { report_on(alloc, compiled, parts.rest, parts.first_line, report, sink) }
    }
}

// Reads the data for a compiled text, and tells the run on it.
fn report_on<K: Sink>(
    alloc: Global,
    compiled: Compiled,
    bytes: &[u8],
    first_line: u32,
    report: Report,
    sink: &mut K,
) -> Status
    requires plan { IsSoundPlan compiled.plan }
    requires clockable { IsClockable compiled.timed compiled.design }
    requires cycles { compiled.cells.cycles ≤ 4096 }
    requires lines { first_line + length bytes.now < 4294967295 }
    ensures { IsAnswered (RefusesLines compiled.timed first_line bytes.now)
        (GivesReported report compiled.timed compiled.cells compiled.plan compiled.design bytes.now)
        (K.state sink.old) (K.state sink.new) result }
{
    let status = report_compiled(alloc, &compiled, bytes, first_line, report, sink);
    let_go(compiled);
    status
}

// The same, of a text that stays.
fn report_compiled<K: Sink>(
    alloc: Global,
    compiled: &Compiled,
    bytes: &[u8],
    first_line: u32,
    report: Report,
    sink: &mut K,
) -> Status
    requires plan { IsSoundPlan compiled.now.plan }
    requires clockable { IsClockable compiled.now.timed compiled.now.design }
    requires cycles { compiled.now.cells.cycles ≤ 4096 }
    requires lines { first_line + length bytes.now < 4294967295 }
    ensures { IsAnswered (RefusesLines compiled.now.timed first_line bytes.now)
        (GivesReported report compiled.now.timed compiled.now.cells compiled.now.plan
        compiled.now.design bytes.now) (K.state sink.old) (K.state sink.new) result }
{
    match read_data(alloc, bytes, first_line, &compiled.timed.flat) {
        Err(fault) => put_data_refusal(sink, &fault),
        Ok(inputs) => match report {
            Report::Results => put_results(alloc, compiled, &inputs, sink),
            Report::Trace => put_trace(alloc, compiled, &inputs, sink),
            Report::Wave => put_wave(alloc, compiled, &inputs, sink),
        },
    }
}

// Adds a line for each point of an output.
fn put_results<K: Sink>(alloc: Global, compiled: &Compiled, inputs: &Inputs, sink: &mut K) -> Status
    requires clockable { IsClockable compiled.now.timed compiled.now.design }
    requires inputs { AreInputs (view_system compiled.now.timed.flat) (words_of inputs.now) }
    ensures { PutsOneOf (IsReport report.Results compiled.now.timed
        compiled.now.cells compiled.now.plan compiled.now.design (words_of inputs.now))
        (K.state sink.old) (K.state sink.new) result }
{
    match shown(alloc, &compiled.design, inputs) {
        Err(Memory) => Status::Memory,
        Ok(words) => {
            let lines = compiled.design.listing.ats.as_slice();
            match write_results(&compiled.timed.flat, lines, words.as_slice(), sink) {
                Ok(()) => Status::Done,
                Err(_) => Status::WriteFault,
            }
        }
    }
}

// Whether the variable is an output with this name.
fn is_output_named(var: &Var, name: &Name) -> bool
    ensures { result ≡ is_output_named name.now (view_variable var.now) }
{
    match var.kind {
        Kind::Output => var.name.as_str() == name.as_str(),
        Kind::Input | Kind::Local | Kind::Partial => false,
    }
}

fn names_output(flat: &Flat, name: &Name) -> bool
    ensures { result ≡ names_output (view_system flat.now) name.now }
{
    for var in flat.vars.as_slice() {
        if is_output_named(var, name) {
            return true;
        }
    }
    false
}

/// Writes the words of the lines that list points of outputs.
pub(crate) fn write_results<K: Sink>(
    flat: &Flat,
    lines: &[Entry],
    words: &[Word],
    sink: &mut K,
) -> Result<(), WriteFault>
    requires { length words.now ≡ length lines.now }
    ensures added { OnOk result (Adds (K.state sink.old).held (K.state sink.new).held
        (results (λ line. names_output (view_system flat.now) line.variable) lines.now
        (bits_of words.now))) }
    ensures fault { IsErr result → HasRisen (K.state sink.old).faults (K.state sink.new).faults }
    ensures front { OnErr result (AddsPrefix (K.state sink.old).held (K.state sink.new).held
        (results (λ line. names_output (view_system flat.now) line.variable) lines.now
        (bits_of words.now))) }
    ensures later { (K.state sink.old).faults ≤ (K.state sink.new).faults }
{
    for (k, line) in lines.iter().enumerate() {
        if names_output(flat, &line.variable) {
            write_result(line.variable.as_str(), &line.point, words[k], sink)?;
        }
    }
    Ok(())
}

// Adds the text of the plan, a line `%%`, and a line for each cycle of the run of its flat design.
fn put_trace<K: Sink>(alloc: Global, compiled: &Compiled, inputs: &Inputs, sink: &mut K) -> Status
    requires plan { IsSoundPlan compiled.now.plan }
    requires clockable { IsClockable compiled.now.timed compiled.now.design }
    requires inputs { AreInputs (view_system compiled.now.timed.flat) (words_of inputs.now) }
    ensures { PutsOneOf (IsReport report.Trace compiled.now.timed
        compiled.now.cells compiled.now.plan compiled.now.design (words_of inputs.now))
        (K.state sink.old) (K.state sink.new) result }
{
    let design = &compiled.design;
    match feed(alloc, design, inputs, compiled.cells.cycles) {
        Err(Memory) => Status::Memory,
        Ok(stimulus) => match make_ready(alloc, &design.module) {
            Err(Memory) => Status::Memory,
            Ok(mut parts) => match write_trace(compiled, &mut parts, &stimulus, sink) {
                Ok(()) => Status::Done,
                Err(_) => Status::WriteFault,
            },
        },
    }
}

// Adds the dump of the run of the plan's flat design.
fn put_wave<K: Sink>(alloc: Global, compiled: &Compiled, inputs: &Inputs, sink: &mut K) -> Status
    requires clockable { IsClockable compiled.now.timed compiled.now.design }
    requires cycles { compiled.now.cells.cycles ≤ 4096 }
    requires inputs { AreInputs (view_system compiled.now.timed.flat) (words_of inputs.now) }
    ensures { PutsOneOf (IsReport report.Wave compiled.now.timed
        compiled.now.cells compiled.now.plan compiled.now.design (words_of inputs.now))
        (K.state sink.old) (K.state sink.new) result }
{
    match feed(alloc, &compiled.design, inputs, compiled.cells.cycles) {
        Err(Memory) => Status::Memory,
        Ok(stimulus) => match write_run(alloc, &compiled.design.module, &stimulus, sink) {
            Ok(()) => Status::Done,
            Err(RunFault::Memory) => Status::Memory,
            Err(RunFault::Write) => Status::WriteFault,
        },
    }
}

// Writes the text of the plan, a line `%%`, and the lines of the run of its flat design under a stimulus. It takes no memory.
fn write_trace<K: Sink>(
    compiled: &Compiled,
    parts: &mut Prepared<'_>,
    stimulus: &Stimulus,
    sink: &mut K,
) -> Result<(), WriteFault>
    requires plan { IsSoundPlan compiled.now.plan }
    requires prepared { IsPrepared compiled.now.design.module parts.old }
    requires left { AreLeft compiled.now.design.module.inputs
        stimulus.now.values 0 0 stimulus.now.values }
    ensures added { OnOk result
        (OfEachRun compiled.now.design.module stimulus.now (λ lines. Adds (K.state sink.old).held
        (K.state sink.new).held (text2 compiled.now.plan ++ codes "%%\n" ++ lines))) }
    ensures fault { IsErr result → HasRisen (K.state sink.old).faults (K.state sink.new).faults }
    ensures front { OnErr result (OfEachRun compiled.now.design.module stimulus.now
        (λ lines. AddsPrefix (K.state sink.old).held
        (K.state sink.new).held (text2 compiled.now.plan ++ codes "%%\n" ++ lines))) }
{
    write_plan(&compiled.plan, sink)?;
    write_all(sink, MARK.as_bytes())?;
    run(parts, stimulus, sink)
}

/// Lets go of a compiled text. A function that drops one is dear to prove, so this is the only one.
pub(crate) fn let_go(compiled: Compiled) {}
