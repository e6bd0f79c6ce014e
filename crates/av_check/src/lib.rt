//! Each declared point exactly once: the first variable and its least point at which an equation has no word, or two.
#![tactic(auto)]

mod checking;
mod fault;
mod images;
mod judge;
mod least;
mod order;
mod outside;
mod overlap;
mod sets;
mod verdict;

pub use checking::{check, check_normal};
pub use fault::CheckFault;
