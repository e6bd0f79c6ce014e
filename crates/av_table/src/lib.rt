//! Tables of names: names, and values, found by a name's bytes.
#![tactic(auto)]

mod name_map;
mod name_set;

pub use name_map::NameMap;
pub use name_set::NameSet;
