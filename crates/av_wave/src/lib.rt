//! Waves: the values of a module's ports in a run, kept by their changes, and their text as a value change dump.
#![tactic(auto)]

mod binary;
mod code;
mod fault;
mod feed;
mod forms;
mod laws;
mod numbers;
mod pieces;
mod reader;
mod recorder;
mod recording;
mod run;
mod stage;
mod wave;
mod writer;

pub use fault::{RunFault, WaveFault};
pub use feed::{
    are_numbered, header_ports, place_of, present, show, targets, wires, word_next, zeros,
};
pub use laws::{dumps_are_unique, dumps_have_one_fault};
pub use reader::read_wave;
pub use recording::capture;
pub use run::write_run;
pub use wave::{Change, Wave};
pub use writer::write_wave;
