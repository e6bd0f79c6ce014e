ghost use Rattle.std.specs.Prelude.{◌≡◌, ◌≢◌, ◌<◌, ℕ, List as Items, length, true, false, replicate, IfOk, IfSome, IsTrue, All, slice_get, slice_set, slice_index, slice_index_or};
ghost use Rattle.std.specs.Option.{ForSome};
ghost use Rattle.av_base.specs.Words.{IsWord};
ghost use Rattle.av_net.specs.Names.{all_names, given_names, names_of, width_of};
ghost use Rattle.av_net.specs.Settled.{Settled, Agree};
ghost use Rattle.av_net.specs.Clocked.{Edge};
ghost use Rattle.av_net.specs.Sound.{IsSound};
ghost use Rattle.av_lanes.specs.Seen.{lane, carried};

use crate::forms::{Formed, all_formed};
use crate::order::Moves;
use crate::passes;
use av_base::Memory;
use av_clock::{Circuit, Marks, Merged, mark_anew};
use av_net::Module;
use std::alloc::Global;
use std::marker::Model;
use std::simd::prelude::*;

// The ticks between two at which changed registers are counted.
const UNCOUNTED_TICKS: u32 = 7;

/// Eight lanes of a module in which what gives the same word is computed once: each word is read at its source.
#[derive(Drop)]
pub(crate) struct LaneEngine<'a> {
    of: &'a Module,
    // The source of each place, where its word stands.
    sources: Vec<usize>,
    // The merged module.
    circuit: Circuit<'a>,
    // What a settle of all drives computes.
    drives: Vec<Formed>,
    // The words of all names, in the order of declarations.
    words: Vec<u64x8>,
    // Room for the registers' next words, and for the steps that are taken.
    next: Vec<u64x8>,
    taken: Vec<usize>,
    // The flip-flops in an order in which each may take its word at once, where there is one.
    moves: Moves,
    // The drives and the steps of which an operand changed in some lane.
    stale: Marks,
    due: Marks,
    // All drives are computed at each settle, whatever the marks say.
    dense: bool,
    // The last settle by marks computed more than a sixth of what a settle of all drives takes.
    busy: bool,
    // The ticks to come before changed registers are counted again.
    uncounted: u32,
    settled: bool,
}

impl<'a> Model for LaneEngine<'a> {
    ghost use Rattle.av_lanes.specs.Seen.{Seen};

    ghost Value = { Seen };

    ghost use Rattle.av_lanes.specs.inner.Engine.{seen, IsKept};

    ghost view = { seen };

    ghost invariant = { IsKept };
}

impl<'a> LaneEngine<'a> {
    /// Eight lanes of a sound module, not settled. All words are 0 in each lane.
    pub(crate) fn new(alloc: Global, of: &'a Module) -> Result<LaneEngine<'a>, Memory>
        requires { IsSound of.now }
        ensures of { IfOk result (λ lanes. lanes.of ≡ of.now) }
        ensures words { IfOk result (λ lanes. (k : ℕ)
            → k < 8 → lane k lanes.words ≡ replicate (length (all_names of.now)) 0) }
        ensures flag { IfOk result (λ lanes. lanes.settled ≡ false) }
    {
        let merged = Merged::new(alloc, of)?;
        let sources = merged.sources.clone()?;
        let circuit = Circuit::new(alloc, of, merged)?;
        let drives = all_formed(alloc, &circuit)?;
        let words = vec![in alloc; u64x8::splat(0); circuit.size()]?;
        let next = vec![in alloc; u64x8::splat(0); circuit.steps()]?;
        let taken = vec![in alloc; 0usize; circuit.steps()]?;
        let moves = Moves::new(alloc, &circuit)?;
        let stale = Marks::new(alloc, circuit.drives())?;
        let due = Marks::new(alloc, circuit.steps())?;
        Ok(LaneEngine {
            of,
            sources,
            circuit,
            drives,
            words,
            next,
            taken,
            moves,
            stale,
            due,
            dense: true,
            busy: true,
            uncounted: 0,
            settled: false,
        })
    }

    /// Presents a value in each lane at an input port, by its place in the module's `inputs`.
    pub(crate) fn set(&mut self, port: u32, values: u64x8)
        requires port { port < length self.old.of.inputs }
        requires fits { ForSome (slice_get self.old.of.inputs port) (λ p.
            All (IsWord p.width.bits) values) }
        ensures of { self.new.of ≡ self.old.of }
        ensures words { (k : ℕ) → k < 8 → lane k self.new.words
            ≡ slice_set (lane k self.old.words) port (slice_index values k) }
        ensures flag { self.new.settled ≡ false }
        ensures port { IfSome (slice_get self.old.of.inputs port) (λ p. (k : ℕ)
            → k < 8 → carried k self.new p.name ≡ slice_index values k) }
        ensures others { IfSome (slice_get self.old.of.inputs port) (λ p. (k : ℕ)
            → k < 8 → (name : Items ℕ)
            → name ≢ p.name → carried k self.new name ≡ carried k self.old name) }
    {
        passes::present(
            &self.circuit,
            self.dense,
            port as usize,
            values,
            &mut self.words,
            &mut self.stale,
            &mut self.due,
        );
        self.settled = false;
    }

    /// Makes every wire and output in each lane the value of its `assign`. Where the lanes are not dense, marked drives alone are computed.
    pub(crate) fn settle(&mut self)
        ensures of { self.new.of ≡ self.old.of }
        ensures settled { (k : ℕ) → k < 8 → Settled self.new.of (carried k self.new) }
        ensures given { (k : ℕ) → k < 8
            → Agree (given_names self.new.of) (carried k self.old) (carried k self.new) }
        ensures flag { IsTrue self.new.settled }
    {
        if self.dense {
            self.settle_all();
            return;
        }
        let computed = passes::settle_marked(
            &self.circuit,
            &mut self.words,
            &mut self.stale,
            &mut self.due,
        );
        self.busy = computed > self.drives.len() / 6;
        self.settled = true;
    }

    // The same by all drives, whatever is marked.
    fn settle_all(&mut self)
        ensures of { self.new.of ≡ self.old.of }
        ensures settled { (k : ℕ) → k < 8 → Settled self.new.of (carried k self.new) }
        ensures given { (k : ℕ) → k < 8
            → Agree (given_names self.new.of) (carried k self.old) (carried k self.new) }
        ensures flag { IsTrue self.new.settled }
    {
        passes::settle(&self.circuit, &self.drives, &mut self.words);
        self.dense = true;
        self.settled = true;
    }

    /// The words of a wire or output in the lanes, by its place in the module's `drives`.
    pub(crate) fn value(&self, wire: u32) -> [u64; 8]
        requires place { wire < length self.now.of.drives }
        requires settled { IsTrue self.now.settled }
        ensures word { (k : ℕ) → k < 8 → (d : _) → slice_index result k
            ≡ carried k self.now (slice_index_or self.now.of.drives wire d).target }
        ensures fits { (k : ℕ) → k < 8 → (d : _) → IsWord (width_of self.now.of
            (slice_index_or self.now.of.drives wire d).target) (slice_index result k) }
        ensures settled { (k : ℕ) → k < 8 → Settled self.now.of (carried k self.now) }
    {
        let place = self.circuit.target(wire as usize);
        self.words[self.sources[place]].to_array()
    }

    /// One edge with `rst` 0 in each lane: all registers take the words of their operands together.
    pub(crate) fn tick(&mut self)
        requires { IsTrue self.old.settled }
        ensures of { self.new.of ≡ self.old.of }
        ensures edge { (k : ℕ) → k < 8
            → Edge self.new.of false (carried k self.old) (carried k self.new) }
        ensures ports { (k : ℕ) → k < 8
            → Agree (names_of self.new.of.inputs) (carried k self.old) (carried k self.new) }
        ensures flag { self.new.settled ≡ false }
    {
        if self.is_dense_tick() {
            self.tick_all();
        } else {
            self.tick_marked();
        }
    }

    // Whether the next tick is one of all steps. Beside a pass over all, marks cost lanes more than they cost a clock, so that they serve
    // where fewer registers change.
    fn is_dense_tick(&mut self) -> bool
        ensures kept { self.new ≡ self.old }
    {
        if self.uncounted > 0 {
            self.uncounted -= 1;
            return self.dense;
        }
        if !self.dense && !self.busy {
            return false;
        }
        self.uncounted = UNCOUNTED_TICKS;
        passes::changing(&self.circuit, &self.words) > self.circuit.steps() / 8
    }

    // The same by the marked steps alone.
    fn tick_marked(&mut self)
        requires { IsTrue self.old.settled }
        ensures of { self.new.of ≡ self.old.of }
        ensures edge { (k : ℕ) → k < 8
            → Edge self.new.of false (carried k self.old) (carried k self.new) }
        ensures ports { (k : ℕ) → k < 8
            → Agree (names_of self.new.of.inputs) (carried k self.old) (carried k self.new) }
        ensures flag { self.new.settled ≡ false }
    {
        mark_anew(self.dense, &mut self.stale, &mut self.due);
        self.dense = false;
        passes::tick_marked(
            &self.circuit,
            &mut self.words,
            &mut self.next,
            &mut self.taken,
            &mut self.stale,
            &mut self.due,
        );
        self.settled = false;
    }

    // The same by all steps, and the lanes are dense.
    fn tick_all(&mut self)
        requires { IsTrue self.old.settled }
        ensures of { self.new.of ≡ self.old.of }
        ensures edge { (k : ℕ) → k < 8
            → Edge self.new.of false (carried k self.old) (carried k self.new) }
        ensures ports { (k : ℕ) → k < 8
            → Agree (names_of self.new.of.inputs) (carried k self.old) (carried k self.new) }
        ensures flag { self.new.settled ≡ false }
    {
        passes::tick(&self.circuit, &self.moves, &mut self.words, &mut self.next);
        self.dense = true;
        self.settled = false;
    }

    /// One edge with `rst` 1 in each lane: all registers take their literals.
    pub(crate) fn reset(&mut self)
        ensures of { self.new.of ≡ self.old.of }
        ensures edge { (k : ℕ) → k < 8
            → Edge self.new.of true (carried k self.old) (carried k self.new) }
        ensures ports { (k : ℕ) → k < 8
            → Agree (names_of self.new.of.inputs) (carried k self.old) (carried k self.new) }
        ensures flag { self.new.settled ≡ false }
    {
        passes::reset(
            &self.circuit,
            &mut self.words,
            &mut self.next,
            &mut self.taken,
            &mut self.stale,
            &mut self.due,
        );
        self.settled = false;
    }
}
