//! The command `run8`.

ghost use Rattle.std.specs.Prelude.{◌≡◌, ◌<◌, ◌≤◌, ◌+◌, ℕ, List as Items, length, map, All, Some, slice_get, IsErr, OnOk, OnErr};
ghost use Rattle.av_base.specs.Outside.{Adds, AddsPrefix, HasRisen};
ghost use Rattle.av_flat.specs.Trees.{view_system};
ghost use Rattle.av_data.specs.Inputs.{words_of};
ghost use Rattle.av_flat.specs.OneSolution.{AreInputs};
ghost use Rattle.av_commands.specs.Eights.{sets_reason, set_line, set_lines};
ghost use Rattle.av_commands.specs.Refusals.{refusal_line};
ghost use Rattle.av_commands.specs.Runs.{results};
ghost use Rattle.av_commands.specs.WithWords.{RefusesEightWith, GivesEightWith};
ghost use Rattle.av_commands.specs.inner.Eighting.{RefusesBadSet, GivesEightOf, AreResultsOfSets, result_texts};
ghost use Rattle.av_commands.specs.Written.{PutsOneOf, IsAnswered, IsPut};
ghost use Rattle.av_commands.specs.inner.Reported.{IsClockable, names_output};
ghost use Rattle.av_commands.specs.inner.Watching.{bits_of};

use crate::lane_showing::shown_in_lanes;
use crate::puts::{put, put_alpha_refusal, put_data_refusal};
use crate::runs::{let_go, write_results};
use crate::sizes::sizes;
use crate::status::Status;
use crate::streams::read_sets;
use av_base::{List, Memory, Name, Sink, Width, Word, WriteFault};
use av_compile::{Compiled, compile};
use av_data::{DataSet, Inputs, data_sets, divide};
use av_flat::{Flat, Reach};
use av_net::Entry;
use av_page::Page;
use std::alloc::Global;

const NO_MARK: &str = "refused: no mark\n";

// As many sets as there are lanes.
const MOST_SETS: usize = 8;

/// Answers an Alpha text, a line `%%` and eight data sets at most with a line `%%` between two, with the sizes among the words.
pub fn run8<K: Sink>(
    alloc: Global,
    words: &[Name],
    bytes: &[u8],
    width: Width,
    reach: Reach,
    sink: &mut K,
) -> Status
    requires { length bytes.now ≤ 1048576 }
    ensures { IsAnswered (RefusesEightWith words.now width.bits reach.size bytes.now)
        (GivesEightWith words.now width.bits reach.size bytes.now)
        (K.state sink.old) (K.state sink.new) result }
{
    let sizes = match sizes(alloc, words) {
        Err(Memory) => return Status::Memory,
        Ok(sizes) => sizes,
    };
    let Some(parts) = divide(bytes) else {
        return put(sink, NO_MARK, Status::Refused);
    };
    let sets = match data_sets(alloc, parts.rest, parts.first_line) {
        Err(Memory) => return Status::Memory,
        Ok(sets) => sets,
    };
    if sets.len() > MOST_SETS {
        return put_sets_refusal(sink, sets.len());
    }
    match compile(alloc, parts.text, sizes.as_slice(), width, reach) {
        Err(refusal) => put_alpha_refusal(sink, refusal),
        Ok(compiled) => answer_sets(alloc, compiled, sets.as_slice(), sink),
    }
}

// Writes the line of the refusal of too many sets.
fn write_sets_refusal<K: Sink>(count: usize, sink: &mut K) -> Result<(), WriteFault>
    ensures added { OnOk result
        (Adds (K.state sink.old).held (K.state sink.new).held (refusal_line (sets_reason count))) }
    ensures fault { IsErr result → HasRisen (K.state sink.old).faults (K.state sink.new).faults }
    ensures front { OnErr result (AddsPrefix
        (K.state sink.old).held (K.state sink.new).held (refusal_line (sets_reason count))) }
{
    let mut page = Page::new();
    page.put(sink, "refused: sets ");
    page.put_number(sink, count as u128);
    page.put(sink, "\n");
    page.finish(sink)
}

// Adds the line of the refusal of too many sets.
fn put_sets_refusal<K: Sink>(sink: &mut K, count: usize) -> Status
    ensures { IsPut (K.state sink.old)
        (K.state sink.new) (refusal_line (sets_reason count)) Status.Refused result }
{
    match write_sets_refusal(count, sink) {
        Ok(()) => Status::Refused,
        Err(_) => Status::WriteFault,
    }
}

// Reads the sets for a compiled text, and tells the run on each.
fn answer_sets<K: Sink>(
    alloc: Global,
    compiled: Compiled,
    sets: &[DataSet<'_>],
    sink: &mut K,
) -> Status
    requires clockable { IsClockable compiled.timed compiled.design }
    requires few { length sets.now ≤ 8 }
    requires lines { All (λ set. set.first_line + length set.bytes.now < 4294967295) sets.now }
    ensures { IsAnswered (RefusesBadSet compiled.timed sets.now) (GivesEightOf
        compiled.timed compiled.design sets.now) (K.state sink.old) (K.state sink.new) result }
{
    let status = answer_each_set(alloc, &compiled, sets, sink);
    let_go(compiled);
    status
}

// The same, of a text that stays.
fn answer_each_set<K: Sink>(
    alloc: Global,
    compiled: &Compiled,
    sets: &[DataSet<'_>],
    sink: &mut K,
) -> Status
    requires clockable { IsClockable compiled.now.timed compiled.now.design }
    requires few { length sets.now ≤ 8 }
    requires lines { All (λ set. set.first_line + length set.bytes.now < 4294967295) sets.now }
    ensures { IsAnswered (RefusesBadSet compiled.now.timed sets.now)
        (GivesEightOf compiled.now.timed compiled.now.design sets.now)
        (K.state sink.old) (K.state sink.new) result }
{
    match read_sets(alloc, &compiled.timed.flat, sets) {
        Err(fault) => put_data_refusal(sink, &fault),
        Ok(inputs) => put_sets(alloc, compiled, inputs.as_slice(), sink),
    }
}

// Clocks the design on all sets, each in a lane, and adds for each set its line and those of its results.
fn put_sets<K: Sink>(alloc: Global, compiled: &Compiled, inputs: &[Inputs], sink: &mut K) -> Status
    requires clockable { IsClockable compiled.now.timed compiled.now.design }
    requires few { length inputs.now ≤ 8 }
    requires inputs { All (λ x. AreInputs (view_system compiled.now.timed.flat) (words_of x))
        inputs.now }
    ensures { PutsOneOf (AreResultsOfSets compiled.now.timed compiled.now.design
        (map words_of inputs.now)) (K.state sink.old) (K.state sink.new) result }
{
    match shown_in_lanes(alloc, &compiled.design, inputs) {
        Err(Memory) => Status::Memory,
        Ok(columns) => {
            let lines = compiled.design.listing.ats.as_slice();
            match write_sets(&compiled.timed.flat, lines, columns.as_slice(), sink) {
                Ok(()) => Status::Done,
                Err(_) => Status::WriteFault,
            }
        }
    }
}

// Writes for each set its line, and the words of the lines that list points of outputs.
fn write_sets<K: Sink>(
    flat: &Flat,
    lines: &[Entry],
    columns: &[List<Word>],
    sink: &mut K,
) -> Result<(), WriteFault>
    requires { All (λ words. length words ≡ length lines.now) columns.now }
    ensures added { OnOk result (Adds (K.state sink.old).held (K.state sink.new).held
        (set_lines 1 (result_texts (view_system flat.now) lines.now columns.now))) }
    ensures fault { IsErr result → HasRisen (K.state sink.old).faults (K.state sink.new).faults }
    ensures front { OnErr result (AddsPrefix (K.state sink.old).held (K.state sink.new).held
        (set_lines 1 (result_texts (view_system flat.now) lines.now columns.now))) }
{
    for (k, words) in columns.iter().enumerate() {
        write_set_line(k as u128 + 1, sink)?;
        write_results(flat, lines, words.as_slice(), sink)?;
    }
    Ok(())
}

// Writes the line of a set.
fn write_set_line<K: Sink>(number: u128, sink: &mut K) -> Result<(), WriteFault>
    ensures added { OnOk result
        (Adds (K.state sink.old).held (K.state sink.new).held (set_line number)) }
    ensures fault { IsErr result → HasRisen (K.state sink.old).faults (K.state sink.new).faults }
    ensures front { OnErr result
        (AddsPrefix (K.state sink.old).held (K.state sink.new).held (set_line number)) }
    ensures later { (K.state sink.old).faults ≤ (K.state sink.new).faults }
{
    let mut page = Page::new();
    page.put(sink, "set ");
    page.put_number(sink, number);
    page.put(sink, "\n");
    page.finish(sink)
}
