ghost use Rattle.std.specs.Prelude.{◌≡◌, ◌+◌, ◌≤◌, [], ◌++◌, length, true, false, IsErr, OnOk};
ghost use Rattle.av_page.specs.Pages.{Puts};

use av_base::{Sink, WriteFault, write_all};
use itoa::{Buffer, Integer};
use std::marker::Model;

// As many bytes are gathered before a sink is called.
const SIZE: usize = 4096;

/// A page of fixed size on which the pieces of a text are gathered, so that a sink is not called for each
/// of them. Once the sink has failed, what is put on the page is dropped. A page is used with one sink.
#[derive(Drop)]
pub struct Page {
    room: [u8; SIZE],
    used: usize,
    failed: bool,
}

impl Model for Page {
    ghost use Rattle.std.specs.Prelude.{◌≤◌, take};
    ghost use Rattle.av_page.specs.Pages.{Draft};

    ghost Value = { Draft };

    ghost view = { λ p. record { waiting = take p.used p.room; failed = p.failed } };

    ghost invariant = { λ p. p.used ≤ 4096 };
}

impl Page {
    /// The empty page.
    pub fn new() -> Page
        ensures { result ≡ record { waiting = []; failed = false } }
    {
        Page {
            room: [0; SIZE],
            used: 0,
            failed: false,
        }
    }

    /// Puts a piece on the page.
    pub fn put<K: Sink>(&mut self, sink: &mut K, piece: &str)
        ensures { Puts (K.state sink.old) (K.state sink.new) self.old self.new piece.now }
    {
        if piece.len() <= SIZE - self.used {
            self.keep(piece.as_bytes());
        } else {
            self.send(sink);
            self.pass(sink, piece.as_bytes());
        }
    }

    /// Puts a number on the page, in decimal.
    pub fn put_number<K: Sink, I: Integer>(&mut self, sink: &mut K, number: I)
        ensures { Puts (K.state sink.old) (K.state sink.new) self.old self.new (I.text number) }
    {
        self.put(sink, Buffer::new().format(number));
    }

    /// Sends what waits. It is an error where the sink failed, now or before.
    pub fn finish<K: Sink>(&mut self, sink: &mut K) -> Result<(), WriteFault>
        ensures put { Puts (K.state sink.old) (K.state sink.new) self.old self.new [] }
        ensures sent { OnOk result (self.new ≡ record { waiting = []; failed = false }) }
        ensures failed { IsErr result → self.new.failed ≡ true }
    {
        self.send(sink);
        if self.failed { Err(WriteFault) } else { Ok(()) }
    }

    // Sends what waits.
    fn send<K: Sink>(&mut self, sink: &mut K)
        ensures put { Puts (K.state sink.old) (K.state sink.new) self.old self.new [] }
        ensures empty { self.new.waiting ≡ [] }
    {
        self.failed = offer(sink, &self.room[..self.used], self.failed);
        self.used = 0;
    }

    // Sends a piece, while nothing waits.
    fn pass<K: Sink>(&mut self, sink: &mut K, piece: &[u8])
        requires { self.old.waiting ≡ [] }
        ensures { Puts (K.state sink.old) (K.state sink.new) self.old self.new piece.now }
    {
        self.failed = offer(sink, piece, self.failed);
    }

    // Has a piece wait, for which there is room.
    fn keep(&mut self, piece: &[u8])
        requires { length self.old.waiting + length piece.now ≤ 4096 }
        ensures { self.new
            ≡ record { waiting = self.old.waiting ++ piece.now; failed = self.old.failed } }
    {
        let end = self.used + piece.len();
        self.room[self.used..end].copy_from_slice(piece);
        self.used = end;
    }
}

// Writes the bytes, unless the sink has failed, and says whether it has by now.
fn offer<K: Sink>(sink: &mut K, bytes: &[u8], failed: bool) -> bool
    ensures { Puts (K.state sink.old) (K.state sink.new) (record { waiting = []; failed = failed })
        (record { waiting = []; failed = result }) bytes.now }
{
    if failed {
        return true;
    }
    match write_all(sink, bytes) {
        Ok(()) => false,
        Err(WriteFault) => true,
    }
}
