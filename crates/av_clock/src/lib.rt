//! The clock: a sound module that is settled and clocked cycle by cycle. Names are resolved to places
//! once, so that a cycle is one pass over arrays and takes no memory.
#![tactic(auto)]

mod circuit;
mod clock;
mod engine;
mod gate;
mod key;
mod marks;
mod merged;
mod readers;
mod resolver;
mod sourced;
mod state;

pub use circuit::Circuit;
pub use clock::Clock;
pub use gate::{Assignment, FlipFlop, Gate, Reading};
pub use marks::{Marks, mark_anew};
pub use merged::Merged;
