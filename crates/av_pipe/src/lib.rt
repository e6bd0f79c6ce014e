//! Pipelines: a reference that reads one value at several points in a line is read once, and its word is handed on from
//! point to point.
#![tactic(auto)]

mod helpers;
mod laws;
mod pipe;
mod site;

pub use helpers::with_helpers;
pub use laws::{
    helped_systems_show_the_same, helpers_read_earlier, pipelines_are_all, pipelines_are_given,
    pipelines_move, words_come_in_order,
};
pub use pipe::Pipe;
