//! The numbers by which the parts of a system are named, each with a type of its own.

/// The number of a node: how many nodes stand before it in the order of the variables.
#[derive(Clone, Copy, Debug, PartialEq, Eq)]
pub struct Node(pub usize);

/// The place of a variable among all variables of a system, inputs and outputs included, as references and helpers name it.
#[derive(Clone, Copy, Debug, PartialEq, Eq)]
pub struct VariablePlace(pub u32);

/// The number of a reading site in its piece: how many references stand before it in the text.
#[derive(Clone, Copy, Debug, PartialEq, Eq)]
pub struct SiteNumber(pub u32);
