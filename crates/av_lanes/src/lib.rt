//! Eight lanes: a sound module that is clocked eight times at once. Each call takes each lane to what the clock's call of the same name
//! takes a clock to with the lane's values.
#![tactic(auto)]

mod engine;
mod forms;
mod gates;
mod kernel;
mod lanes;
mod laws;
mod order;
mod passes;

pub use lanes::Lanes;
pub use laws::lanes_follow;
