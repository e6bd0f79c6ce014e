//! Names, places and points as tests write them.

use av_base::{Name, Place, Point};
use av_flat::Quantity;
use av_tree::Relation;
use std::fmt::Write;
use std::test::Fail;

/// Adds words.
pub fn push_words(out: &mut String, words: &str) -> Result<(), Fail> {
    out.push_str(words)?;
    Ok(())
}

/// Adds a number behind what is said of it.
pub fn push_number(out: &mut String, kind: &str, number: u128) -> Result<(), Fail> {
    write!(out, "{kind} {number}")?;
    Ok(())
}

/// Adds a name behind what is said of it.
pub fn push_named(out: &mut String, kind: &str, name: &Name) -> Result<(), Fail> {
    write!(out, "{kind} {}", name.as_str())?;
    Ok(())
}

/// Adds a place behind what stands there.
pub fn push_place(out: &mut String, kind: &str, place: Place) -> Result<(), Fail> {
    write!(out, "{kind} {}:{}", place.line, place.column)?;
    Ok(())
}

/// Adds a name and its place.
pub fn push_both(out: &mut String, kind: &str, name: &Name, place: Place) -> Result<(), Fail> {
    push_named(out, kind, name)?;
    push_place(out, "", place)
}

/// Adds a point of a variable.
pub fn push_point(out: &mut String, kind: &str, name: &Name, point: &Point) -> Result<(), Fail> {
    push_named(out, kind, name)?;
    let mut before = " (";
    for entry in point.as_slice() {
        write!(out, "{before}{entry}")?;
        before = ",";
    }
    push_words(out, ")")
}

fn kind_of(quantity: Quantity) -> &'static str {
    match quantity {
        Quantity::Variables => "variables",
        Quantity::Indices => "indices",
        Quantity::Nodes => "nodes",
        Quantity::Coefficient => "coefficient",
        Quantity::Constant => "constant",
        Quantity::Constraints => "constraints",
        Quantity::Coordinate => "coordinate",
        Quantity::BoxSize => "box",
        Quantity::Reductions => "reductions",
    }
}

/// Adds a quantity that is above its limit.
pub fn push_limit(out: &mut String, quantity: Quantity, number: u128) -> Result<(), Fail> {
    push_words(out, "limit ")?;
    push_number(out, kind_of(quantity), number)
}

/// A relation between blanks.
pub fn relation_text(relation: Relation) -> &'static str {
    match relation {
        Relation::Less => " < ",
        Relation::LessEqual => " <= ",
        Relation::Greater => " > ",
        Relation::GreaterEqual => " >= ",
        Relation::Equal => " = ",
        Relation::Unequal => " <> ",
    }
}
