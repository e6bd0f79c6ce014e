//! What several crates of tests share: systems made of short texts, sinks, lanes beside clocks, and the words in which a test writes what it finds. What
//! may end the process stands in the crates of tests.
#![tactic(auto)]

mod beside;
mod sinks;
mod systems;
pub mod texts;
mod words;

pub use beside::lanes_follow_clocks;
pub use sinks::{port, sink_of};
pub use systems::{size_list, system, system_at, system_with};
pub use words::{
    push_both, push_limit, push_named, push_number, push_place, push_point, push_words,
    relation_text,
};
