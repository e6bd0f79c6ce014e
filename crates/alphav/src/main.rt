//! The program `alphav`: it reads a text of equations from standard input, and writes a systolic array that computes it
//! to standard output, or what else its words ask for.
#![tactic(auto)]

use av_base::{List, Memory, Name};
use av_cli::{Status, StdSink, StdSource, alphav};
use std::env;
use std::io::ErrorKind;
use std::process::ExitCode;

fn main(rt: HostRuntime) -> ExitCode {
    let status = match given_words(&rt) {
        Ok(words) => {
            let mut source = StdSource::new(rt.stdin());
            let mut sink = StdSink::new(rt.stdout());
            alphav(rt.alloc(), words.as_slice(), &mut source, &mut sink)
        }
        Err(Memory) => Status::Memory,
    };
    ExitCode::from(status as u8)
}

// The words after the program's name. Where one of them is no text, there are none, since no command
// is read from such words.
fn given_words(rt: &HostRuntime) -> Result<List<Name>, Memory> {
    let mut words = List::new(rt.alloc());
    match env::args(rt) {
        Ok(args) => {
            for word in args.skip(1) {
                words.push(Name::new(rt.alloc(), word.as_str())?)?;
            }
            Ok(words)
        }
        Err(error) if error.kind() == ErrorKind::OutOfMemory => Err(Memory),
        Err(_) => Ok(words),
    }
}
