ghost use Rattle.std.specs.Prelude.{◌≡◌, ◌<◌, ◌≤◌, ◌+◌, ◌++◌, ◌↔◌, ◌⊎◌, [], ℕ, List as Items, Some, None, length, take, drop, min, Contains, IfOk, OnOk, OnErr, IsErr};
ghost use Rattle.av_base.specs.Outside.{Takes, Adds, IsAtEnd, HasRisen};
ghost use Rattle.av_base.specs.Streams.{Feed, Store, next_count};

use crate::copy::put;
use crate::{Failed, List, Memory, Sink, Source};
use std::alloc::Global;
use std::marker::Model;

/// A source in memory: it gives at most `per_call` bytes in a call, and fails at the listed calls,
/// counted from 0.
#[derive(Drop)]
pub struct MemSource {
    bytes: List<u8>,
    taken: usize,
    per_call: usize,
    failing: List<u64>,
    calls: u64,
    faults: u64,
}

impl Model for MemSource {
    ghost use Rattle.std.specs.Prelude.{◌<◌, ◌≤◌, length, drop};
    ghost use Rattle.av_base.specs.Streams.{Feed};

    ghost Value = { Feed };

    ghost view = { λ s. record {
      left = drop s.taken s.bytes;
      per_call = s.per_call;
      failing = s.failing;
      calls = s.calls;
      faults = s.faults;
    } };

    ghost invariant = { λ s. (s.taken ≤ length s.bytes) × (0 < s.per_call) };
}

impl MemSource {
    /// The source of these bytes.
    pub fn new(bytes: List<u8>, per_call: usize, failing: List<u64>) -> MemSource
        requires { 0 < per_call }
        ensures { result ≡ record {
          left = bytes;
          per_call = per_call;
          failing = failing;
          calls = 0;
          faults = 0;
        } }
    {
        MemSource {
            bytes,
            taken: 0,
            per_call,
            failing,
            calls: 0,
            faults: 0,
        }
    }
}

impl Source for MemSource {
    ghost left = { λ s. Some s.left };

    ghost faults = { λ s. s.faults };

    fn read(&mut self, into: &mut [u8]) -> Result<usize, Failed>
        requires { 0 < length into.old }
        ensures most { IfOk result (λ n. n ≤ length into.old) }
        ensures taken { IfOk result (λ n.
            Takes (Some self.old.left) (Some self.new.left) (take n into.new)) }
        ensures end { IfOk result (λ n. n ≡ 0 → IsAtEnd (Some self.new.left)) }
        ensures failed { OnErr result (Some self.new.left ≡ Some self.old.left) }
        ensures cause { OnErr result (HasRisen self.old.faults self.new.faults) }
        ensures later { self.old.faults ≤ self.new.faults }
        ensures listed { IsErr result ↔ Contains self.old.failing self.old.calls }
        ensures amount { IfOk result (λ n.
            n ≡ min (min (length self.old.left) self.old.per_call) (length into.old)) }
        ensures counted { self.new.calls ≡ next_count self.old.calls }
        ensures kept { (self.new.per_call ≡ self.old.per_call)
            × (self.new.failing ≡ self.old.failing) }
        ensures fine { OnOk result (self.new.faults ≡ self.old.faults) }
        ensures fault { OnErr result (self.new.faults ≡ next_count self.old.faults) }
    {
        let call = self.calls;
        self.calls = next_count(call);
        if self.failing.as_slice().contains(&call) {
            self.faults = next_count(self.faults);
            return Err(Failed);
        }
        let rest = &self.bytes.as_slice()[self.taken..];
        let n = rest.len().min(self.per_call).min(into.len());
        put(into, 0, &rest[..n]);
        self.taken += n;
        Ok(n)
    }
}

/// One more, or the last count: a count that rises stands still at its type's end.
pub fn next_count(count: u64) -> u64
    ensures { result ≡ next_count count }
{
    count.saturating_add(1)
}

/// A sink in memory: it takes at most `per_call` bytes in a call, and fails at the listed calls,
/// counted from 0, and where its room is used up.
#[derive(Drop)]
pub struct MemSink {
    room: Vec<u8>,
    used: usize,
    per_call: usize,
    failing: List<u64>,
    calls: u64,
    faults: u64,
}

impl Model for MemSink {
    ghost use Rattle.std.specs.Prelude.{◌<◌, ◌≤◌, ◌-◌, length, take};
    ghost use Rattle.av_base.specs.Streams.{Store};

    ghost Value = { Store };

    ghost view = { λ s. record {
      held = take s.used s.room.items;
      room = length s.room.items - s.used;
      per_call = s.per_call;
      failing = s.failing;
      calls = s.calls;
      faults = s.faults;
    } };

    ghost invariant = { λ s. (s.used ≤ length s.room.items) × (0 < s.per_call) };
}

impl MemSink {
    /// The empty sink with room for this many bytes, which it takes here.
    pub fn new(
        alloc: Global,
        room: usize,
        per_call: usize,
        failing: List<u64>,
    ) -> Result<MemSink, Memory>
        requires { 0 < per_call }
        ensures { IfOk result (λ sink. sink ≡ record {
          held = [];
          room = room;
          per_call = per_call;
          failing = failing;
          calls = 0;
          faults = 0;
        }) }
    {
        Ok(MemSink {
            room: vec![in alloc; 0u8; room]?,
            used: 0,
            per_call,
            failing,
            calls: 0,
            faults: 0,
        })
    }

    /// The bytes that were added, in order.
    pub fn held(&self) -> &[u8]
        ensures { result.now ≡ self.now.held }
    {
        &self.room[..self.used]
    }
}

impl Sink for MemSink {
    ghost state = { λ s. record { held = Some s.held; faults = s.faults } };

    fn write(&mut self, piece: &[u8]) -> Result<usize, Failed>
        requires { 0 < length piece.now }
        ensures least { IfOk result (λ n. 0 < n) }
        ensures most { IfOk result (λ n. n ≤ length piece.now) }
        ensures added { IfOk result (λ n.
            Adds (Some self.old.held) (Some self.new.held) (take n piece.now)) }
        ensures failed { OnErr result (Some self.new.held ≡ Some self.old.held) }
        ensures cause { OnErr result (HasRisen self.old.faults self.new.faults) }
        ensures later { self.old.faults ≤ self.new.faults }
        ensures listed { IsErr result
            ↔ ((self.old.room ≡ 0) ⊎ Contains self.old.failing self.old.calls) }
        ensures amount { IfOk result (λ n.
            n ≡ min (min self.old.room self.old.per_call) (length piece.now)) }
        ensures counted { self.new.calls ≡ next_count self.old.calls }
        ensures kept { (self.new.per_call ≡ self.old.per_call)
            × (self.new.failing ≡ self.old.failing) }
        ensures fine { OnOk result (self.new.faults ≡ self.old.faults) }
        ensures fault { OnErr result (self.new.faults ≡ next_count self.old.faults) }
        ensures room { IfOk result (λ n. self.new.room + n ≡ self.old.room) }
        ensures closed { OnErr result (self.new.room ≡ self.old.room) }
    {
        let call = self.calls;
        self.calls = next_count(call);
        let free = self.room.len() - self.used;
        if free == 0 || self.failing.as_slice().contains(&call) {
            self.faults = next_count(self.faults);
            return Err(Failed);
        }
        let n = free.min(self.per_call).min(piece.len());
        put(&mut self.room, self.used, &piece[..n]);
        self.used += n;
        Ok(n)
    }
}
