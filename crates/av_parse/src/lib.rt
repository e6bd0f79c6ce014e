//! From the tokens of a program text to its tree.
#![tactic(auto)]

mod copy;
mod cursor;
mod domain;
mod expression;
mod fault;
mod index;
mod laws;
mod parsing;
mod postfix;
mod program;
mod text;

pub use fault::ParseFault;
pub use laws::{beginnings, one_program, program_or_fault};
pub use parsing::parse;
