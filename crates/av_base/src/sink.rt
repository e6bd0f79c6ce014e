ghost use Rattle.std.specs.Prelude.{◌≡◌, ◌<◌, ◌≤◌, length, take, IfOk, OnOk, OnErr, IsErr};
ghost use Rattle.av_base.specs.Outside.{SinkState, Adds, AddsPrefix, HasRisen};

use crate::Failed;
use thiserror::Error;

/// Where bytes go.
pub trait Sink {
    /// The bytes that it holds, where it tells them, and how often it has failed.
    ghost state: { Self → SinkState };

    /// Adds the first bytes of the piece, at least one, and says how many.
    fn write(&mut self, piece: &[u8]) -> Result<usize, Failed>
        requires { 0 < length piece.now }
        ensures least { IfOk result (λ n. 0 < n) }
        ensures most { IfOk result (λ n. n ≤ length piece.now) }
        ensures added { IfOk result (λ n.
            Adds (state self.old).held (state self.new).held (take n piece.now)) }
        ensures failed { OnErr result ((state self.new).held ≡ (state self.old).held) }
        ensures cause { OnErr result (HasRisen (state self.old).faults (state self.new).faults) }
        ensures later { (state self.old).faults ≤ (state self.new).faults };
}

/// A sink failed before all bytes were added. A prefix of them was.
#[derive(Clone, Copy, Debug, PartialEq, Eq, Error)]
#[error("the sink failed")]
pub struct WriteFault;

/// Adds all the bytes, in as many calls as the sink wants.
pub fn write_all<K: Sink>(sink: &mut K, bytes: &[u8]) -> Result<(), WriteFault>
    ensures added { OnOk result (Adds (K.state sink.old).held (K.state sink.new).held bytes.now) }
    ensures fault { IsErr result → HasRisen (K.state sink.old).faults (K.state sink.new).faults }
    ensures front { OnErr result
        (AddsPrefix (K.state sink.old).held (K.state sink.new).held bytes.now) }
    ensures later { (K.state sink.old).faults ≤ (K.state sink.new).faults }
{
    let mut done = 0;
    while done < bytes.len() {
        match sink.write(&bytes[done..]) {
            Err(Failed) => return Err(WriteFault),
            Ok(n) => done += n,
        }
    }
    Ok(())
}
