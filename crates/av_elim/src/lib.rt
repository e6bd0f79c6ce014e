//! The rational bounds of each index of a polyhedron, by Fourier-Motzkin elimination.
#![tactic(auto)]

mod bounding;
mod eliminate;
mod extent;
mod laws;
mod merge;
mod shadow;
mod span;

pub use bounding::{Elim, bounds};
pub use extent::box_of;
pub use laws::{one_answer, rays};
