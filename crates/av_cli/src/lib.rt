//! The command line: what the program `alphav` answers to its words, its input and its output.
#![tactic(auto)]

mod options;
mod program;
mod standard;
mod words;

pub use av_commands::Status;
pub use program::alphav;
pub use standard::{StdSink, StdSource};
