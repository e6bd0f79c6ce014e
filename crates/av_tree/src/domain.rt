use crate::{Relation, Terms};
use av_base::{List, Name, Place};

/// A whole number, or the multiple of an index or a size. Its place is that of its name, or of its
/// number where it has no name.
#[derive(Debug, Drop)]
pub struct Term {
    /// The number, with the sign that stands before the term; 1 or -1 where no number is written.
    pub factor: i128,
    pub name: Option<Name>,
    pub place: Place,
}

/// A sum of terms, at least one, in the order of the text. Its place is that of its first token.
#[derive(Debug, Drop)]
pub struct IndexExpr {
    pub terms: Terms,
    pub place: Place,
}

/// A comparison of two index expressions. The relation is not `Unequal`.
#[derive(Debug, Drop)]
pub struct Constraint {
    pub left: IndexExpr,
    pub relation: Relation,
    pub right: IndexExpr,
}

/// A domain as it is written: its index names, and its comparisons one by one, chains and lists taken
/// apart from left to right. Its place is that of the `{`.
#[derive(Debug, Drop)]
pub struct DomainText {
    pub names: List<Name>,
    pub constraints: List<Constraint>,
    pub place: Place,
}

/// A map from named indices to index expressions, as `(i,j -> i,j-1)`. Its place is that of the `(`.
#[derive(Debug, Drop)]
pub struct MapText {
    pub names: List<Name>,
    pub results: List<IndexExpr>,
    pub place: Place,
}
