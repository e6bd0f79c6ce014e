//! Polyhedra of whole points: sets that rows `a.z + c >= 0` describe, of at most four indices.
#![tactic(auto)]

mod before;
mod copy;
mod entries;
mod interval;
mod laws;
mod normal;
mod parts;
mod poly;
mod row;
mod search;
mod trivial;

pub use copy::{copy_rows, copy_set, normalised_copy};
pub use entries::{extended, first_entries, with_first};
pub use laws::normalised_rows_are_unique;
pub use poly::{Bounds, Poly};
pub use row::append_rows;
