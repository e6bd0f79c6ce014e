//! The names of a design text: what each module declares and drives, the kinds with their ports, and the first name that stands twice.
#![tactic(auto)]

mod kind;
mod kinds;
mod names;
pub mod scope;
pub mod twice;
mod widths;

pub use kind::IndexedKind;
pub use kinds::Kinds;
pub use names::set_of;
pub use widths::Widths;
