//! What a design shows of several sets of words, each of which is clocked in a lane of its own.

ghost use Rattle.std.specs.Prelude.{◌≡◌, ◌<◌, ◌≤◌, ◌+◌, ℕ, length, drop, replicate, slice_get, slice_index, Some, IsTrue, All, Contains, IfOk};
ghost use Rattle.av_net.specs.Designs.{IsSoundDesign};
ghost use Rattle.av_net.specs.Names.{names_of, wire_names};
ghost use Rattle.av_net.specs.Presented.{AreApart, HaveFittingWords};
ghost use Rattle.av_net.specs.Settled.{Agree};
ghost use Rattle.av_net.specs.Sound.{IsSound};
ghost use Rattle.av_lanes.specs.Seen.{lane, carried};
ghost use Rattle.av_wave.specs.Clocking.{word_next, rest_next, AreLeft};
ghost use Rattle.av_commands.specs.Shown.{AreShown};
ghost use Rattle.av_commands.specs.inner.Feeding.{AreOfLines};
ghost use Rattle.av_commands.specs.inner.LaneClocking.{AreInLanes, AreLeftInLanes, ArePresentedInLanes};
ghost use Rattle.av_commands.specs.inner.Watching.{bits_of, AreTaps, noted};

use crate::showing::{Data, cycles_of, feed, taps};
use av_base::{List, Memory, Word};
use av_data::Stimulus;
use av_lanes::Lanes;
use av_net::{Design, Entry, Module};
use av_wave::word_next;
use std::alloc::Global;

/// Clocks a design on the data of eight sets at most, each in a lane: for each set the word of each `at` line, in the order of the
/// listing, which its wire has in its cycle. The ports and the registers have the words that `shown` gives them for the set.
pub(crate) fn shown_in_lanes<D: Data>(
    alloc: Global,
    design: &Design,
    sets: &[D],
) -> Result<List<List<Word>>, Memory>
    requires sound { IsSoundDesign design.now }
    requires apart { AreApart design.now.listing.ins }
    requires words { All (λ x. HaveFittingWords design.now (D.words x)) sets.now }
    requires few { length sets.now ≤ 8 }
    ensures count { IfOk result (λ columns. length columns ≡ length sets.now) }
    ensures shown { IfOk result (λ columns. (k : ℕ) (x : _) (words : _)
        → slice_get sets.now k ≡ Some x
        → slice_get columns k ≡ Some words → AreShown design.now (D.words x) (bits_of words)) }
{
    let lines = design.listing.ats.as_slice();
    let cycles = cycles_of(lines);
    let stimuli = feed_sets(alloc, design, sets, cycles)?;
    let rows = watch_lanes(alloc, &design.module, stimuli.as_slice(), cycles, lines)?;
    columns(alloc, rows.as_slice(), sets.len())
}

// What the `in` lines of a design present of each set, in so many cycles.
fn feed_sets<D: Data>(
    alloc: Global,
    design: &Design,
    sets: &[D],
    cycles: u32,
) -> Result<List<Stimulus>, Memory>
    requires sound { IsSoundDesign design.now }
    requires apart { AreApart design.now.listing.ins }
    requires words { All (λ x. HaveFittingWords design.now (D.words x)) sets.now }
    ensures count { IfOk result (λ stimuli. length stimuli ≡ length sets.now) }
    ensures cycles { IfOk result (All (λ s. s.cycles ≡ cycles)) }
    ensures values { IfOk result (λ stimuli. (k : ℕ) (x : _) (s : _)
        → slice_get sets.now k ≡ Some x → slice_get stimuli k ≡ Some s
        → AreOfLines design.now (D.words x) (length design.now.listing.ins) s.values) }
{
    let mut stimuli = List::new(alloc);
    for set in sets {
        stimuli.push(feed(alloc, design, set, cycles)?)?;
    }
    Ok(stimuli)
}

// Clocks the module from reset, with each stimulus in a lane: for each line the words on its wire in the lanes, in its cycle.
fn watch_lanes(
    alloc: Global,
    of: &Module,
    stimuli: &[Stimulus],
    cycles: u32,
    lines: &[Entry],
) -> Result<List<[u64; 8]>, Memory>
    requires sound { IsSound of.now }
    requires few { length stimuli.now ≤ 8 }
    requires cycles { All (λ s. s.cycles ≡ cycles) stimuli.now }
    requires left { All (λ s. AreLeft of.now.inputs s.values 0 0 s.values) stimuli.now }
    requires wires { All (λ line. Contains (wire_names of.now) line.wire) lines.now }
    ensures { IfOk result (AreInLanes of.now stimuli.now lines.now) }
{
    let inputs = of.inputs.len() as u32;
    let taps = taps(alloc, of, lines)?;
    let mut rows = zero_rows(alloc, lines.len())?;
    let mut lanes = Lanes::new(alloc, of)?;
    clock_lanes_and_note(
        &mut lanes,
        inputs,
        stimuli,
        cycles,
        lines,
        taps.as_slice(),
        &mut rows,
    );
    Ok(rows)
}

fn zero_rows(alloc: Global, count: usize) -> Result<List<[u64; 8]>, Memory>
    ensures { IfOk result (λ rows. rows ≡ replicate count (replicate 8 0)) }
{
    let mut rows = List::new(alloc);
    for _ in 0..count {
        rows.push([0; 8])?;
    }
    Ok(rows)
}

// The cycles from reset.
fn clock_lanes_and_note(
    lanes: &mut Lanes<'_>,
    inputs: u32,
    stimuli: &[Stimulus],
    cycles: u32,
    lines: &[Entry],
    taps: &[u32],
    rows: &mut List<[u64; 8]>,
)
    requires sound { IsSound lanes.old.of }
    requires few { length stimuli.now ≤ 8 }
    requires count { inputs ≡ length lanes.old.of.inputs }
    requires cycles { All (λ s. s.cycles ≡ cycles) stimuli.now }
    requires left { All (λ s. AreLeft lanes.old.of.inputs s.values 0 0 s.values) stimuli.now }
    requires taps { AreTaps lanes.old.of lines.now (length lines.now) taps.now }
    requires zeros { rows.old ≡ replicate (length lines.now) (replicate 8 0) }
    ensures { AreInLanes lanes.old.of stimuli.now lines.now rows.new }
{
    let mut next = [0; 8];
    lanes.reset();
    for cycle in 0..cycles {
        present_in_lanes(lanes, inputs, stimuli, &mut next, cycle);
        lanes.settle();
        note_lanes(lanes, cycle, lines, taps, rows);
        lanes.tick();
    }
}

// What the next of each stimulus's values give to a port in a cycle, or 0, and where the values after them begin. A lane without a
// stimulus takes 0.
fn words_next(stimuli: &[Stimulus], next: &mut [usize; 8], cycle: u32, port: u32) -> [u64; 8]
    requires few { length stimuli.now ≤ 8 }
    requires within { (k : ℕ) (s : _)
        → slice_get stimuli.now k ≡ Some s → slice_index next.old k ≤ length s.values }
    ensures words { (k : ℕ) (s : _) → slice_get stimuli.now k ≡ Some s
        → slice_index result k ≡ word_next (drop (slice_index next.old k) s.values) cycle port }
    ensures rest { (k : ℕ) (s : _)
        → slice_get stimuli.now k ≡ Some s → drop (slice_index next.new k) s.values
        ≡ rest_next (drop (slice_index next.old k) s.values) cycle port }
    ensures within { (k : ℕ) (s : _)
        → slice_get stimuli.now k ≡ Some s → slice_index next.new k ≤ length s.values }
    ensures others { (k : ℕ) → length stimuli.now ≤ k → slice_index result k ≡ 0 }
{
    let mut words = [0; 8];
    for (k, stimulus) in stimuli.iter().enumerate() {
        let (word, rest) = word_next(stimulus.values.as_slice(), next[k], cycle, port);
        words[k] = word;
        next[k] = rest;
    }
    words
}

// Presents at all input ports what is given to them in a cycle, each stimulus in its lane. The values for it begin at `next`, and then
// those for the cycle after it.
fn present_in_lanes(
    lanes: &mut Lanes<'_>,
    inputs: u32,
    stimuli: &[Stimulus],
    next: &mut [usize; 8],
    cycle: u32,
)
    requires sound { IsSound lanes.old.of }
    requires count { inputs ≡ length lanes.old.of.inputs }
    requires few { length stimuli.now ≤ 8 }
    requires left { AreLeftInLanes lanes.old.of.inputs stimuli.now cycle 0 next.old }
    ensures of { lanes.new.of ≡ lanes.old.of }
    ensures ports { ArePresentedInLanes lanes.new.of stimuli.now cycle inputs lanes.new }
    ensures registers { (k : ℕ) → k < 8
        → Agree (names_of lanes.new.of.registers) (carried k lanes.old) (carried k lanes.new) }
    ensures left { AreLeftInLanes lanes.new.of.inputs stimuli.now (cycle + 1) 0 next.new }
{
    for port in 0..inputs {
        let words = words_next(stimuli, next, cycle, port);
        lanes.set(port, words);
    }
}

// Notes the words on the wires of the lines of a cycle.
fn note_lanes(
    lanes: &Lanes<'_>,
    cycle: u32,
    lines: &[Entry],
    taps: &[u32],
    rows: &mut List<[u64; 8]>,
)
    requires settled { IsTrue lanes.now.settled }
    requires taps { AreTaps lanes.now.of lines.now (length lines.now) taps.now }
    requires room { length rows.old ≡ length lines.now }
    ensures { (k : ℕ) → k < 8
        → lane k rows.new ≡ noted (carried k lanes.now) cycle lines.now (lane k rows.old) }
{
    for (i, line) in lines.iter().enumerate() {
        if line.cycle == cycle {
            rows.set(i, lanes.value(taps[i]));
        }
    }
}

// The words of each of the first lanes, so many.
fn columns(alloc: Global, rows: &[[u64; 8]], count: usize) -> Result<List<List<Word>>, Memory>
    requires { count ≤ 8 }
    ensures count { IfOk result (λ columns. length columns ≡ count) }
    ensures words { IfOk result (λ columns. (k : ℕ) (words : _)
        → slice_get columns k ≡ Some words → bits_of words ≡ lane k rows.now) }
{
    let mut columns = List::new(alloc);
    for k in 0..count {
        columns.push(column(alloc, rows, k)?)?;
    }
    Ok(columns)
}

// The words of one lane.
fn column(alloc: Global, rows: &[[u64; 8]], k: usize) -> Result<List<Word>, Memory>
    requires { k < 8 }
    ensures { IfOk result (λ words. bits_of words ≡ lane k rows.now) }
{
    let mut words = List::new(alloc);
    for row in rows {
        words.push(Word { bits: row[k] })?;
    }
    Ok(words)
}
