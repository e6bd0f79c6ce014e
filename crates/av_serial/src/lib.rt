//! Reductions as chains: every reduction of a kept system becomes a partial variable that is folded point by point, and
//! its read becomes a pick of the last one.
#![tactic(auto)]

mod build;
mod chain;
mod choices;
mod fault;
mod laws;
mod line;
mod serial;
mod tries;
mod walk;
mod with_chains;

pub use fault::SerialFault;
pub use laws::{
    chains_read_the_point_before, holders_read_the_last_point, one_solution_of_serial_forms,
    serial_forms_are_chained, serial_forms_are_given, serial_forms_are_proper,
    serial_forms_are_unique, serial_forms_keep_dependences, serial_forms_show_the_same,
};
pub use serial::{Serial, serial_form};
