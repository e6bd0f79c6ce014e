ghost use Rattle.std.specs.Prelude.{◌≡◌, ◌≢◌, ◌<◌, ◌≤◌, ◌+◌, ℕ, List as Items, length, true, false, replicate, IfOk, IfSome, IsTrue, slice_get, slice_set, slice_index, slice_index_or, Some};
ghost use Rattle.std.specs.Option.{ForSome};
ghost use Rattle.av_base.specs.Words.{IsWord};
ghost use Rattle.av_net.specs.Names.{all_names, given_names, names_of, width_of};
ghost use Rattle.av_net.specs.Settled.{Settled, Agree, Holds};
ghost use Rattle.av_net.specs.Clocked.{Edge};
ghost use Rattle.av_clock.specs.Marked.{IsClear, touched};
ghost use Rattle.av_clock.specs.Seen.{carried};
ghost use Rattle.av_clock.specs.inner.Engine.{IsWhole};
ghost use Rattle.av_clock.specs.Merged.{merged as merged_module, IsMerging};

use crate::merged::Merged;
use crate::state::State;
use av_base::Memory;
use av_net::Module;
use std::alloc::Global;
use std::marker::Model;

// The ticks between two at which changed registers are counted.
const UNCOUNTED_TICKS: u32 = 15;

/// A module that is clocked as it stands: each of its drives is computed, but those of the constant 0.
#[derive(Drop)]
pub(crate) struct Engine<'a> {
    state: State<'a>,
    // All drives are marked, whatever the state's marks say, and each settle computes them.
    dense: bool,
    // The last settle by marks computed more than a third of what a settle of all drives takes.
    busy: bool,
    // The ticks to come before changed registers are counted again.
    uncounted: u32,
    settled: bool,
    // The drives computed so far.
    work: u64,
}

impl<'a> Model for Engine<'a> {
    ghost use Rattle.av_clock.specs.Seen.{Seen};

    ghost Value = { Seen };

    ghost use Rattle.av_clock.specs.inner.Engine.{seen, IsKept};

    ghost view = { seen };

    ghost invariant = { IsKept };
}

impl<'a> Engine<'a> {
    /// A clock of a sound module's merged drives and steps, with all words 0, not settled, and with every drive marked.
    pub(crate) fn new(alloc: Global, of: &'a Module, merged: Merged) -> Result<Engine<'a>, Memory>
        requires { IsMerging of.now merged }
        ensures of { IfOk result (λ engine. engine.of ≡ merged_module of.now merged.sources.items) }
        ensures words { IfOk result (λ engine.
            engine.words ≡ replicate (length (all_names of.now)) 0) }
        ensures flag { IfOk result (λ engine. engine.settled ≡ false) }
        ensures work { IfOk result (λ engine. engine.work ≡ 0) }
        ensures marked { IfOk result (λ engine. engine.marked
            ≡ replicate (length (merged_module of.now merged.sources.items).drives) true) }
    {
        let state = State::new(alloc, of, merged)?;
        Ok(Engine {
            state,
            dense: true,
            busy: true,
            uncounted: 0,
            settled: false,
            work: 0,
        })
    }

    /// Makes every wire and output the value of its `assign`. Marked drives alone are computed, and those that are marked on, of
    /// which an operand has another word: none where none is marked, and none before the first that is.
    pub(crate) fn settle(&mut self)
        ensures of { self.new.of ≡ self.old.of }
        ensures settled { Settled self.new.of (carried self.new) }
        ensures given { Agree (given_names self.new.of) (carried self.old) (carried self.new) }
        ensures flag { IsTrue self.new.settled }
        ensures work { self.old.work ≤ self.new.work }
        ensures first { self.old.work ≡ 0 → self.new.work ≡ length self.new.of.drives }
        ensures most { self.new.work ≤ self.old.work + length self.new.of.drives }
        ensures alone { (k : ℕ) → k ≤ length self.old.of.drives
            → ((j : ℕ) → j < k → IsClear self.old.marked j)
            → self.new.work + k ≤ self.old.work + length self.old.of.drives }
        ensures touched { self.new.work ≤ self.old.work
            + touched (carried self.old) (carried self.new) self.old.of.drives self.old.marked }
    {
        if self.dense {
            self.settle_all();
            return;
        }
        let computed = self.state.settle_marked();
        self.busy = computed > self.state.circuit.dense_work() / 3;
        self.work = self.work.saturating_add(computed as u64);
        self.settled = true;
    }

    // Settles a clock of which all drives are marked.
    fn settle_all(&mut self)
        requires { self.old.marked ≡ replicate (length self.old.of.drives) true }
        ensures of { self.new.of ≡ self.old.of }
        ensures settled { Settled self.new.of (carried self.new) }
        ensures given { Agree (given_names self.new.of) (carried self.old) (carried self.new) }
        ensures flag { IsTrue self.new.settled }
        ensures work { self.old.work ≤ self.new.work }
        ensures first { self.old.work ≡ 0 → self.new.work ≡ length self.new.of.drives }
        ensures most { self.new.work ≤ self.old.work + length self.new.of.drives }
        ensures alone { (k : ℕ) → k ≤ length self.old.of.drives
            → ((j : ℕ) → j < k → IsClear self.old.marked j)
            → self.new.work + k ≤ self.old.work + length self.old.of.drives }
        ensures touched { self.new.work ≤ self.old.work
            + touched (carried self.old) (carried self.new) self.old.of.drives self.old.marked }
    {
        self.state.settle();
        self.dense = true;
        self.work = self.work.saturating_add(self.state.circuit.drives() as u64);
        self.settled = true;
    }

    /// A law on clocks: each drive that is not marked holds.
    pub(crate) fn unmarked_drives_hold(&self)
        ensures { (k : ℕ) (d : _)
            → k < length self.now.of.drives → IsClear self.now.marked k → Holds
            (width_of self.now.of) (carried self.now) (slice_index_or self.now.of.drives k d) }
    {
        let _dense = self.dense;
    }

    /// A law on clocks: there is a word for each name, and a mark for each drive.
    pub(crate) fn is_whole(&self)
        ensures { IsWhole self.now }
    {
        let _dense = self.dense;
    }

    /// The number of drives that were computed since the clock was made. At the greatest number it stays.
    pub(crate) fn work(&self) -> u64
        ensures { result ≡ self.now.work }
    {
        self.work
    }

    /// The place of what a drive drives.
    pub(crate) fn target(&self, drive: usize) -> usize
        requires { drive < length self.now.of.drives }
        ensures { (d : _) → slice_get (all_names self.now.of) result
            ≡ Some (slice_index_or self.now.of.drives drive d).target }
    {
        self.state.circuit.target(drive)
    }

    /// The word at a place.
    pub(crate) fn word(&self, place: usize) -> u64
        requires { place < length (all_names self.now.of) }
        ensures word { result ≡ slice_index self.now.words place }
        ensures fits { (name : Items ℕ) → slice_get (all_names self.now.of) place ≡ Some name
            → IsWord (width_of self.now.of name) result }
        ensures settled { IsTrue self.now.settled → Settled self.now.of (carried self.now) }
    {
        self.state.words[place]
    }

    /// Presents a value at an input port, by its place in the module's `inputs`.
    pub(crate) fn set(&mut self, port: u32, value: u64)
        requires port { port < length self.old.of.inputs }
        requires fits { ForSome (slice_get self.old.of.inputs port) (λ p.
            IsWord p.width.bits value) }
        ensures words { self.new ≡ record self.old {
          words = slice_set self.old.words port value;
          settled = false;
          marked = self.new.marked;
        } }
        ensures port { IfSome (slice_get self.old.of.inputs port) (λ p.
            carried self.new p.name ≡ value) }
        ensures others { IfSome (slice_get self.old.of.inputs port) (λ p. (name : Items ℕ)
            → name ≢ p.name → carried self.new name ≡ carried self.old name) }
    {
        self.state.present(self.dense, port as usize, value);
        self.settled = false;
    }

    /// One edge with `rst` 0: all registers take the words of their operands together.
    pub(crate) fn tick(&mut self)
        requires { IsTrue self.old.settled }
        ensures of { self.new.of ≡ self.old.of }
        ensures edge { Edge self.new.of false (carried self.old) (carried self.new) }
        ensures ports { Agree (names_of self.new.of.inputs) (carried self.old) (carried self.new) }
        ensures flag { self.new.settled ≡ false }
        ensures work { self.new.work ≡ self.old.work }
    {
        if self.is_dense_tick() {
            self.tick_all();
        } else {
            self.tick_marked();
        }
    }

    // Whether the next tick is one of all steps. A marked drive or step takes three or four times as long as one in a pass over all, so
    // that marks serve where few registers change. Counting those that do costs as much as a pass, so that it is done now and then.
    fn is_dense_tick(&mut self) -> bool
        ensures kept { self.new ≡ self.old }
    {
        if self.uncounted > 0 {
            self.uncounted -= 1;
            return self.dense;
        }
        if !self.dense && !self.busy {
            return false;
        }
        self.uncounted = UNCOUNTED_TICKS;
        self.state.changed() > self.state.circuit.steps() / 4
    }

    // The same by the marked steps alone.
    fn tick_marked(&mut self)
        requires { IsTrue self.old.settled }
        ensures of { self.new.of ≡ self.old.of }
        ensures edge { Edge self.new.of false (carried self.old) (carried self.new) }
        ensures ports { Agree (names_of self.new.of.inputs) (carried self.old) (carried self.new) }
        ensures flag { self.new.settled ≡ false }
        ensures work { self.new.work ≡ self.old.work }
    {
        self.state.tick_marked(self.dense);
        self.dense = false;
        self.settled = false;
    }

    // The same by all steps, and all drives count as marked.
    fn tick_all(&mut self)
        requires { IsTrue self.old.settled }
        ensures of { self.new.of ≡ self.old.of }
        ensures edge { Edge self.new.of false (carried self.old) (carried self.new) }
        ensures ports { Agree (names_of self.new.of.inputs) (carried self.old) (carried self.new) }
        ensures flag { self.new.settled ≡ false }
        ensures work { self.new.work ≡ self.old.work }
    {
        self.state.tick_all();
        self.dense = true;
        self.settled = false;
    }

    /// One edge with `rst` 1: all registers take their literals.
    pub(crate) fn reset(&mut self)
        ensures of { self.new.of ≡ self.old.of }
        ensures edge { Edge self.new.of true (carried self.old) (carried self.new) }
        ensures ports { Agree (names_of self.new.of.inputs) (carried self.old) (carried self.new) }
        ensures flag { self.new.settled ≡ false }
        ensures work { self.new.work ≡ self.old.work }
    {
        self.state.reset();
        self.settled = false;
    }
}
