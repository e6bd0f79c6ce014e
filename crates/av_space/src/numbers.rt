//! The number of a cell, with a type of its own.

/// The number of a cell: how many cells stand before it in the order of the array.
#[derive(Clone, Copy, Debug, PartialEq, Eq, PartialOrd, Ord)]
pub struct CellNumber(pub u32);
