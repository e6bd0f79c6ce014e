ghost use Rattle.std.specs.Prelude.{◌≡◌, ◌≢◌, ◌<◌, ℕ, List as Items, length, true, false, replicate, IfOk, IfSome, IsTrue, All, slice_get, slice_set, slice_index, slice_index_or};
ghost use Rattle.std.specs.Option.{ForSome};
ghost use Rattle.av_base.specs.Words.{IsWord};
ghost use Rattle.av_net.specs.Names.{all_names, given_names, names_of, width_of};
ghost use Rattle.av_net.specs.Settled.{Settled, Agree};
ghost use Rattle.av_net.specs.Clocked.{Edge};
ghost use Rattle.av_net.specs.Sound.{IsSound};
ghost use Rattle.av_lanes.specs.Seen.{lane, carried};

use crate::engine::LaneEngine;
use av_base::Memory;
use av_net::Module;
use std::alloc::Global;
use std::marker::Model;
use std::simd::u64x8;

/// A module that is clocked eight times at once, each time in a lane of its own.
#[derive(Drop)]
pub struct Lanes<'a> {
    engine: LaneEngine<'a>,
}

impl<'a> Model for Lanes<'a> {
    ghost use Rattle.av_lanes.specs.Seen.{Seen};

    ghost Value = { Seen };

    ghost view = { λ c. c.engine };
}

impl<'a> Lanes<'a> {
    /// Eight lanes of a sound module, not settled. All words are 0 in each lane, as those of a new clock are.
    pub fn new(alloc: Global, of: &'a Module) -> Result<Lanes<'a>, Memory>
        requires { IsSound of.now }
        ensures of { IfOk result (λ lanes. lanes.of ≡ of.now) }
        ensures words { IfOk result (λ lanes. (k : ℕ)
            → k < 8 → lane k lanes.words ≡ replicate (length (all_names of.now)) 0) }
        ensures flag { IfOk result (λ lanes. lanes.settled ≡ false) }
    {
        let engine = LaneEngine::new(alloc, of)?;
        Ok(Lanes { engine })
    }

    /// Presents a value in each lane at an input port, by its place in the module's `inputs`.
    pub fn set(&mut self, port: u32, values: [u64; 8])
        requires port { port < length self.old.of.inputs }
        requires fits { ForSome (slice_get self.old.of.inputs port) (λ p.
            All (IsWord p.width.bits) values) }
        ensures of { self.new.of ≡ self.old.of }
        ensures words { (k : ℕ) → k < 8 → lane k self.new.words
            ≡ slice_set (lane k self.old.words) port (slice_index values k) }
        ensures flag { self.new.settled ≡ false }
        ensures port { IfSome (slice_get self.old.of.inputs port) (λ p. (k : ℕ)
            → k < 8 → carried k self.new p.name ≡ slice_index values k) }
        ensures others { IfSome (slice_get self.old.of.inputs port) (λ p. (k : ℕ)
            → k < 8 → (name : Items ℕ)
            → name ≢ p.name → carried k self.new name ≡ carried k self.old name) }
    {
        self.engine.set(port, u64x8::from_array(values));
    }

    /// Makes every wire and output in each lane the value of its `assign`. What no operand of changed in any lane is not computed again,
    /// where little changes.
    pub fn settle(&mut self)
        ensures of { self.new.of ≡ self.old.of }
        ensures settled { (k : ℕ) → k < 8 → Settled self.new.of (carried k self.new) }
        ensures given { (k : ℕ) → k < 8
            → Agree (given_names self.new.of) (carried k self.old) (carried k self.new) }
        ensures flag { IsTrue self.new.settled }
    {
        self.engine.settle();
    }

    /// The words of a wire or output in the lanes, by its place in the module's `drives`.
    pub fn value(&self, wire: u32) -> [u64; 8]
        requires place { wire < length self.now.of.drives }
        requires settled { IsTrue self.now.settled }
        ensures word { (k : ℕ) → k < 8 → (d : _) → slice_index result k
            ≡ carried k self.now (slice_index_or self.now.of.drives wire d).target }
        ensures fits { (k : ℕ) → k < 8 → (d : _) → IsWord (width_of self.now.of
            (slice_index_or self.now.of.drives wire d).target) (slice_index result k) }
        ensures settled { (k : ℕ) → k < 8 → Settled self.now.of (carried k self.now) }
    {
        self.engine.value(wire)
    }

    /// One edge with `rst` 0 in each lane: all registers take the words of their operands together.
    pub fn tick(&mut self)
        requires { IsTrue self.old.settled }
        ensures of { self.new.of ≡ self.old.of }
        ensures edge { (k : ℕ) → k < 8
            → Edge self.new.of false (carried k self.old) (carried k self.new) }
        ensures ports { (k : ℕ) → k < 8
            → Agree (names_of self.new.of.inputs) (carried k self.old) (carried k self.new) }
        ensures flag { self.new.settled ≡ false }
    {
        self.engine.tick();
    }

    /// One edge with `rst` 1 in each lane: all registers take their literals.
    pub fn reset(&mut self)
        ensures of { self.new.of ≡ self.old.of }
        ensures edge { (k : ℕ) → k < 8
            → Edge self.new.of true (carried k self.old) (carried k self.new) }
        ensures ports { (k : ℕ) → k < 8
            → Agree (names_of self.new.of.inputs) (carried k self.old) (carried k self.new) }
        ensures flag { self.new.settled ≡ false }
    {
        self.engine.reset();
    }
}
