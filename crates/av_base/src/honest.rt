ghost use Rattle.std.specs.Prelude.{◌≡◌, ◌<◌, Some, None, Ok, length};

use crate::copy::put;
use crate::{Failed, List, Sink, Source};
use std::marker::Model;

/// A source in memory that never fails. It gives as many bytes in a call as are asked for.
/// Contracts see the list of the bytes left.
#[derive(Drop)]
pub struct HonestSource {
    bytes: List<u8>,
    taken: usize,
}

impl Model for HonestSource {
    ghost use Rattle.std.specs.Prelude.{ℕ, List as Items, ◌≤◌, length, drop};

    ghost Value = { Items ℕ };

    ghost view = { λ s. drop s.taken s.bytes };

    ghost invariant = { λ s. s.taken ≤ length s.bytes };
}

impl HonestSource {
    /// The source of these bytes.
    pub fn new(bytes: List<u8>) -> HonestSource
        ensures { result ≡ bytes }
    {
        HonestSource { bytes, taken: 0 }
    }
}

impl Source for HonestSource {
    ghost left = { λ s. Some s };

    ghost faults = { λ s. 0 };

    fn read(&mut self, into: &mut [u8]) -> Result<usize, Failed> {
        let rest = &self.bytes.as_slice()[self.taken..];
        let n = rest.len().min(into.len());
        put(into, 0, &rest[..n]);
        self.taken += n;
        Ok(n)
    }
}

/// A sink that takes and drops all bytes, tells nothing of them and never fails.
#[derive(Drop)]
pub struct HonestSink;

impl HonestSink {
    /// The sink. There is but one, so there is nothing to say of it.
    pub fn new() -> HonestSink {
        HonestSink
    }
}

impl Sink for HonestSink {
    ghost state = { λ s. record { held = None; faults = 0 } };

    fn write(&mut self, piece: &[u8]) -> Result<usize, Failed>
        requires { 0 < length piece.now }
        ensures { result ≡ Ok (length piece.now) }
    {
        Ok(piece.len())
    }
}
