ghost use Rattle.std.specs.Prelude.{◌≡◌, ◌<◌, ◌≤◌, None, length, IfSome};

use av_base::{Failed, Sink, Source, next_count};
use std::io::{Error, ErrorKind, Read, Write};

// How often an interrupted call is made again. If it is interrupted then too, that is a fault.
const REPEATS: u32 = 1000;

/// A reader as a source that tells nothing of its bytes, as standard input.
#[derive(Drop)]
pub struct StdSource<R: Read> {
    reader: R,
    faults: u64,
}

impl<R: Read> StdSource<R> {
    /// The source of what the reader gives from here on.
    pub fn new(reader: R) -> StdSource<R>
        ensures { result.faults ≡ 0 }
    {
        StdSource { reader, faults: 0 }
    }
}

impl<R: Read> Source for StdSource<R> {
    ghost left = { λ s. None };

    ghost faults = { λ s. s.faults };

    fn read(&mut self, into: &mut [u8]) -> Result<usize, Failed> {
        match read_some(&mut self.reader, into) {
            Some(n) => Ok(n),
            None => {
                self.faults = next_count(self.faults);
                Err(Failed)
            }
        }
    }
}

/// A writer as a sink that tells nothing of its bytes, as standard output. It is flushed after each
/// write, and a flush that fails is a fault, as is a write that takes nothing.
#[derive(Drop)]
pub struct StdSink<W: Write> {
    writer: W,
    faults: u64,
}

impl<W: Write> StdSink<W> {
    /// The sink that adds to what the writer has.
    pub fn new(writer: W) -> StdSink<W>
        ensures { result.faults ≡ 0 }
    {
        StdSink { writer, faults: 0 }
    }
}

impl<W: Write> Sink for StdSink<W> {
    ghost state = { λ s. record { held = None; faults = s.faults } };

    fn write(&mut self, piece: &[u8]) -> Result<usize, Failed> {
        match write_some(&mut self.writer, piece) {
            Some(n) if n > 0 && is_flushed(&mut self.writer) => Ok(n),
            _ => {
                self.faults = next_count(self.faults);
                Err(Failed)
            }
        }
    }
}

fn read_some<R: Read>(reader: &mut R, into: &mut [u8]) -> Option<usize>
    ensures { IfSome result (λ n. n ≤ length into.old) }
{
    for _ in 0..=REPEATS {
        match reader.read(into) {
            Ok(n) => return Some(n),
            Err(error) if is_interrupted(&error) => {}
            Err(_) => return None,
        }
    }
    None
}

fn write_some<W: Write>(writer: &mut W, piece: &[u8]) -> Option<usize>
    ensures { IfSome result (λ n. n ≤ length piece.now) }
{
    for _ in 0..=REPEATS {
        match writer.write(piece) {
            Ok(n) => return Some(n),
            Err(error) if is_interrupted(&error) => {}
            Err(_) => return None,
        }
    }
    None
}

// Flushes the writer, and says whether that succeeded.
fn is_flushed<W: Write>(writer: &mut W) -> bool {
    for _ in 0..=REPEATS {
        match writer.flush() {
            Ok(()) => return true,
            Err(error) if is_interrupted(&error) => {}
            Err(_) => return false,
        }
    }
    false
}

fn is_interrupted(error: &Error) -> bool {
    error.kind() == ErrorKind::Interrupted
}
