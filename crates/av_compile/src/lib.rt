//! From the bytes of a program text to the plan that computes it, and its flat design.
#![tactic(auto)]

mod compiler;
mod front;
mod laws;
mod mapping;
mod planning;
mod refusal;
mod schedule;

pub use compiler::{Compiled, compile};
pub use front::checked;
pub use laws::texts_have_one_fault;
pub use mapping::{MappedSystem, mapped};
pub use planning::planned;
pub use refusal::Refusal;
pub use schedule::scheduled;
