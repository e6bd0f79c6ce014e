//! A wave in the making.

ghost use Rattle.std.specs.Prelude.{◌≡◌, ◌<◌, ◌≤◌, ◌+◌, ◌↔◌, ℕ, slice_index, IsTrue, IfOk, OnOk, All, length, replicate};
ghost use Rattle.av_net.specs.Lexemes.{IsName};
ghost use Rattle.av_net.specs.Names.{names_of, AreDistinct};
ghost use Rattle.av_wave.specs.inner.Parts.{at_first, told_of, next_cycle, wave_of, IsPart, IsNext, FitsPort, MayEnd, IsTold, Records};

use crate::feed::zeros;
use crate::wave::{Change, Wave};
use av_base::limits::MOST_CYCLES;
use av_base::{List, Memory, Name};
use av_net::Port;
use std::alloc::Global;
use std::marker::Model;

// The greatest number of cycles.
const LIMIT: u32 = MOST_CYCLES as u32;

/// What is told of a run so far, cycle by cycle and in a cycle port by port.
#[derive(Drop)]
pub(crate) struct Recorder {
    name: Name,
    ports: List<Port>,
    // The cycle that is told of.
    cycle: u32,
    // The ports below this one have been told of in the cycle.
    told: u32,
    changes: List<Change>,
    // The value that each port has by now.
    words: List<u64>,
}

impl Model for Recorder {
    ghost use Rattle.av_wave.specs.inner.Parts.{Part};

    ghost Value = { Part };

    ghost use Rattle.av_wave.specs.inner.Recorders.{part_of, IsKept};

    ghost view = { part_of };

    ghost invariant = { IsKept };
}

impl Recorder {
    /// Of these ports, before anything is told.
    pub(crate) fn new(alloc: Global, name: Name, ports: List<Port>) -> Result<Recorder, Memory>
        requires named { IsName name }
        requires ports_named { All IsName (names_of ports) }
        requires apart { AreDistinct (names_of ports) }
        ensures first { IfOk result (λ recorder. recorder ≡ at_first name ports) }
        ensures part { IfOk result IsPart }
    {
        let words = zeros(alloc, ports.len())?;
        Ok(Recorder {
            name,
            ports,
            cycle: 0,
            told: 0,
            changes: List::new(alloc),
            words,
        })
    }

    /// The ports.
    pub(crate) fn ports(&self) -> &[Port]
        ensures ports { result.now ≡ self.now.ports }
        ensures few { length self.now.ports ≤ 1073741824 }
    {
        let _most = self.ports.len();
        self.ports.as_slice()
    }

    /// The cycle that is told of.
    pub(crate) fn cycle(&self) -> u32
        ensures cycle { result ≡ self.now.cycle }
        ensures most { result ≤ 4096 }
    {
        self.cycle
    }

    /// Whether nothing is told of the cycle.
    pub(crate) fn is_open(&self) -> bool
        ensures { IsTrue result ↔ (self.now.told ≡ 0) }
    {
        self.told == 0
    }

    /// Whether another cycle may come.
    pub(crate) fn may_end(&self) -> bool
        ensures yes { IsTrue result → MayEnd self.now }
        ensures no { MayEnd self.now → IsTrue result }
    {
        self.cycle < LIMIT && (self.cycle > 0 || self.told as usize == self.ports.len())
    }

    /// Goes on to the next cycle.
    pub(crate) fn end_cycle(&mut self)
        requires { MayEnd self.old }
        ensures next { self.new ≡ next_cycle self.old }
        ensures part { IsPart self.new }
    {
        self.cycle += 1;
        self.told = 0;
    }

    /// Whether the port may change to this value next: in the first cycle the ports are told of one after another,
    /// and later those that change.
    pub(crate) fn may_change(&self, port: u32, value: u64) -> bool
        requires { port < length self.now.ports }
        ensures yes { IsTrue result → IsNext self.now port value }
        ensures no { IsNext self.now port value → IsTrue result }
    {
        if self.cycle == 0 {
            return port == self.told;
        }
        self.cycle < LIMIT && self.told <= port && self.words.as_slice()[port as usize] != value
    }

    /// The port changes to this value.
    pub(crate) fn change(&mut self, port: u32, value: u64) -> Result<(), Memory>
        requires next { IsNext self.old port value }
        requires fits { FitsPort self.old.ports port value }
        ensures { OnOk result (self.new
            ≡ told_of self.old (record { cycle = self.old.cycle; port = port; value = value })) }
    {
        let _most = self.ports.len();
        self.changes.push(Change {
            cycle: self.cycle,
            port,
            value,
        })?;
        self.words.set(port as usize, value);
        self.told = port + 1;
        Ok(())
    }

    // The port has this value in the cycle, which is a change in the first cycle, and later where it had another one.
    fn tell(&mut self, port: u32, value: u64) -> Result<(), Memory>
        requires cycle { self.old.cycle < 4096 }
        requires fits { FitsPort self.old.ports port value }
        requires order { self.old.told ≤ port }
        requires first { self.old.cycle ≡ 0 → self.old.told ≡ port }
        ensures { OnOk result (IsTold self.old port value self.new) }
    {
        if self.may_change(port, value) {
            self.change(port, value)
        } else {
            Ok(())
        }
    }

    /// Tells the value of each port in the cycle, and goes on to the next one.
    pub(crate) fn record_cycle(&mut self, words: &[u64]) -> Result<(), Memory>
        requires cycle { self.old.cycle < 4096 }
        requires open { self.old.told ≡ 0 }
        requires count { length words.now ≡ length self.old.ports }
        requires fits { (k : ℕ) → k < length words.now
            → FitsPort self.old.ports k (slice_index words.now k) }
        ensures records { OnOk result (Records self.old words.now self.new) }
        ensures part { OnOk result (IsPart self.new) }
    {
        let _most = self.ports.len();
        for (port, word) in words.iter().enumerate() {
            self.tell(port as u32, *word)?;
        }
        self.end_cycle();
        Ok(())
    }

    /// The wave of the cycles before the one that is told of.
    pub(crate) fn wave(self) -> Wave
        requires { self.told ≡ 0 }
        ensures { result ≡ wave_of self }
    {
        Wave {
            name: self.name,
            ports: self.ports,
            cycles: self.cycle,
            changes: self.changes,
        }
    }
}
