ghost use Rattle.std.specs.Prelude.{◌≡◌, ◌≢◌, ◌<◌, ◌≤◌, ◌+◌, ℕ, List as Items, length, true, false, replicate, IfOk, IfSome, IsTrue, slice_get, slice_set, slice_index_or};
ghost use Rattle.std.specs.Option.{ForSome};
ghost use Rattle.av_base.specs.Words.{IsWord};
ghost use Rattle.av_net.specs.Names.{all_names, given_names, names_of, width_of};
ghost use Rattle.av_net.specs.Settled.{Settled, Agree, Holds};
ghost use Rattle.av_net.specs.Clocked.{Edge};
ghost use Rattle.av_net.specs.Sound.{IsSound};
ghost use Rattle.av_clock.specs.Marked.{IsClear, touched};
ghost use Rattle.av_clock.specs.Seen.{carried};

use crate::engine::Engine;
use crate::merged::Merged;
use av_base::Memory;
use av_net::Module;
use std::alloc::Global;
use std::marker::Model;

/// A clock of a module in which what gives the same word is computed once: each word is read at its source.
#[derive(Drop)]
pub(crate) struct SourcedClock<'a> {
    of: &'a Module,
    // The source of each place, where its word stands.
    sources: Vec<usize>,
    // Clocks the merged module.
    engine: Engine<'a>,
}

impl<'a> Model for SourcedClock<'a> {
    ghost use Rattle.av_clock.specs.Seen.{Seen};

    ghost Value = { Seen };

    ghost use Rattle.av_clock.specs.inner.Sourced.{seen, IsKept};

    ghost view = { seen };

    ghost invariant = { IsKept };
}

impl<'a> SourcedClock<'a> {
    /// A clock of a sound module, with all words 0, not settled, and with every drive marked.
    pub(crate) fn new(alloc: Global, of: &'a Module) -> Result<SourcedClock<'a>, Memory>
        requires { IsSound of.now }
        ensures of { IfOk result (λ clock. clock.of ≡ of.now) }
        ensures words { IfOk result (λ clock.
            clock.words ≡ replicate (length (all_names of.now)) 0) }
        ensures flag { IfOk result (λ clock. clock.settled ≡ false) }
        ensures work { IfOk result (λ clock. clock.work ≡ 0) }
        ensures marked { IfOk result (λ clock.
            clock.marked ≡ replicate (length of.now.drives) true) }
    {
        let merged = Merged::new(alloc, of)?;
        let sources = merged.sources.clone()?;
        let engine = Engine::new(alloc, of, merged)?;
        engine.is_whole();
        Ok(SourcedClock {
            of,
            sources,
            engine,
        })
    }

    /// Makes every wire and output the value of its `assign`. Marked drives alone are computed, and those that are marked on, of
    /// which an operand has another word: none where none is marked, and none before the first that is.
    pub(crate) fn settle(&mut self)
        ensures of { self.new.of ≡ self.old.of }
        ensures settled { Settled self.new.of (carried self.new) }
        ensures given { Agree (given_names self.new.of) (carried self.old) (carried self.new) }
        ensures flag { IsTrue self.new.settled }
        ensures work { self.old.work ≤ self.new.work }
        ensures first { self.old.work ≡ 0 → self.new.work ≡ length self.new.of.drives }
        ensures most { self.new.work ≤ self.old.work + length self.new.of.drives }
        ensures alone { (k : ℕ) → k ≤ length self.old.of.drives
            → ((j : ℕ) → j < k → IsClear self.old.marked j)
            → self.new.work + k ≤ self.old.work + length self.old.of.drives }
        ensures touched { self.new.work ≤ self.old.work
            + touched (carried self.old) (carried self.new) self.old.of.drives self.old.marked }
    {
        self.engine.settle();
        self.engine.is_whole();
    }

    /// A law on clocks: each drive that is not marked holds.
    pub(crate) fn unmarked_drives_hold(&self)
        ensures { (k : ℕ) (d : _)
            → k < length self.now.of.drives → IsClear self.now.marked k → Holds
            (width_of self.now.of) (carried self.now) (slice_index_or self.now.of.drives k d) }
    {
        self.engine.unmarked_drives_hold();
    }

    /// The number of drives that were computed since the clock was made. At the greatest number it stays.
    pub(crate) fn work(&self) -> u64
        ensures { result ≡ self.now.work }
    {
        self.engine.work()
    }

    /// The word of a wire or output, by its place in the module's `drives`.
    pub(crate) fn value(&self, wire: u32) -> u64
        requires place { wire < length self.now.of.drives }
        requires settled { IsTrue self.now.settled }
        ensures word { (d : _)
            → result ≡ carried self.now (slice_index_or self.now.of.drives wire d).target }
        ensures fits { (d : _) → IsWord (width_of self.now.of
            (slice_index_or self.now.of.drives wire d).target) result }
        ensures settled { Settled self.now.of (carried self.now) }
    {
        let place = self.engine.target(wire as usize);
        self.engine.word(self.sources[place])
    }

    /// Presents a value at an input port, by its place in the module's `inputs`.
    pub(crate) fn set(&mut self, port: u32, value: u64)
        requires port { port < length self.old.of.inputs }
        requires fits { ForSome (slice_get self.old.of.inputs port) (λ p.
            IsWord p.width.bits value) }
        ensures words { self.new ≡ record self.old {
          words = slice_set self.old.words port value;
          settled = false;
          marked = self.new.marked;
        } }
        ensures port { IfSome (slice_get self.old.of.inputs port) (λ p.
            carried self.new p.name ≡ value) }
        ensures others { IfSome (slice_get self.old.of.inputs port) (λ p. (name : Items ℕ)
            → name ≢ p.name → carried self.new name ≡ carried self.old name) }
    {
        self.engine.set(port, value);
        self.engine.is_whole();
    }

    /// One edge with `rst` 0: all registers take the words of their operands together.
    pub(crate) fn tick(&mut self)
        requires { IsTrue self.old.settled }
        ensures of { self.new.of ≡ self.old.of }
        ensures edge { Edge self.new.of false (carried self.old) (carried self.new) }
        ensures ports { Agree (names_of self.new.of.inputs) (carried self.old) (carried self.new) }
        ensures flag { self.new.settled ≡ false }
        ensures work { self.new.work ≡ self.old.work }
    {
        self.engine.tick();
        self.engine.is_whole();
    }

    /// One edge with `rst` 1: all registers take their literals.
    pub(crate) fn reset(&mut self)
        ensures of { self.new.of ≡ self.old.of }
        ensures edge { Edge self.new.of true (carried self.old) (carried self.new) }
        ensures ports { Agree (names_of self.new.of.inputs) (carried self.old) (carried self.new) }
        ensures flag { self.new.settled ≡ false }
        ensures work { self.new.work ≡ self.old.work }
    {
        self.engine.reset();
        self.engine.is_whole();
    }
}
