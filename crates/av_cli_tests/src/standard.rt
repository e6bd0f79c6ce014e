//! Readers and writers that are interrupted, as sources and sinks.

ghost use Rattle.std.specs.Prelude.{◌≤◌, IfOk};

use av_base::{Failed, Sink, Source};
use av_cli::{StdSink, StdSource};
use std::io;
use std::io::{ErrorKind, Read, Write};

// It is interrupted some times, and then answers as it is told.
#[derive(Drop)]
struct Fitful {
    interrupts: u32,
    answers: Option<usize>,
    flushes: bool,
}

impl Fitful {
    fn answer(&mut self, most: usize) -> io::Result<usize>
        ensures { IfOk result (λ n. n ≤ most) }
    {
        if self.interrupts > 0 {
            self.interrupts -= 1;
            return Err(io::Error::from(ErrorKind::Interrupted));
        }
        match self.answers {
            Some(n) => Ok(n.min(most)),
            None => Err(io::Error::from(ErrorKind::BrokenPipe)),
        }
    }
}

impl Read for Fitful {
    fn read(&mut self, buf: &mut [u8]) -> io::Result<usize> {
        self.answer(buf.len())
    }
}

impl Write for Fitful {
    fn write(&mut self, buf: &[u8]) -> io::Result<usize> {
        self.answer(buf.len())
    }

    fn flush(&mut self) -> io::Result<()> {
        if self.flushes {
            Ok(())
        } else {
            Err(io::Error::from(ErrorKind::BrokenPipe))
        }
    }
}

// Interrupts, what is answered after them, whether a flush succeeds, what is read, and what is written.
const CALLS: &[(u32, Option<usize>, bool, Option<usize>, Option<usize>)] = &[
    (0, Some(3), true, Some(3), Some(3)),
    (1000, Some(3), true, Some(3), Some(3)),
    (1001, Some(3), true, None, None),
    (0, Some(3), false, Some(3), None),
    (0, Some(0), true, Some(0), None),
    (7, None, true, None, None),
];

#[test]
fn an_interrupted_call_is_repeated_and_a_failed_one_is_not(rt: HostRuntime) {
    for (interrupts, answers, flushes, read, written) in CALLS {
        let fitful = || Fitful {
            interrupts: *interrupts,
            answers: *answers,
            flushes: *flushes,
        };
        let mut into = [0u8; 4];
        assert_eq!(rt;
            StdSource::new(fitful()).read(&mut into),
            (*read).ok_or(Failed)
        );
        assert_eq!(rt;
            StdSink::new(fitful()).write(b"abcd"),
            (*written).ok_or(Failed)
        );
    }
}
