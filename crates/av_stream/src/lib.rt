//! Problem after problem on one array: how many cycles later the next one may begin, the plan of an array that counts so, and its
//! text.
#![tactic(auto)]

mod building;
mod spans;
mod standing;
mod writer;

pub use building::{Streamed, build_stream};
pub use spans::period;
pub use writer::write_stream;
