//! What the lanes of an array have in each cycle of a history: from each start at which the counter begins anew, the words of the
//! solution for the inputs that are presented from there on.
#![tactic(auto)]

mod laws;

pub use laws::{arrays_have_solutions, each_problem_has_its_solution};
