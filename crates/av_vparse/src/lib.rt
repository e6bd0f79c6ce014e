//! From the bytes of a design text to what it says, or to the place of its first fault.
#![tactic(auto)]

mod cells;
mod cursor;
mod declarations;
mod fault;
mod instances;
mod items;
mod laws;
mod lexer;
mod literal;
mod operations;
mod parsed;
mod parsing;
mod reader;
mod scan;
mod symbols;
mod token;

pub use fault::TextFault;
pub use laws::{at_most_one_text, text_or_fault};
pub use literal::are_digits;
pub use parsed::{Instantiation, Item, ModuleText, Parsed, PortLink, SignalDeclaration, Text};
pub use parsing::parse;
