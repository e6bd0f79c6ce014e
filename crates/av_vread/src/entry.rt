//! The entry of a line of the listing.

ghost use Rattle.std.specs.Prelude.{◌≡◌, ◌≤◌, ◌+◌, ◌++◌, [], length, option_map, IfOk, IfSome};
ghost use Rattle.av_net.specs.Rows.{is_in};
ghost use Rattle.av_vread.specs.inner.Entries.{numeral_of, below_zero, index_of, indices_of, inside_of, point_of, is_wire, parts_view, parts_of, entry_of, entry_at};

use crate::line::cut;
use arrayvec::ArrayVec;
use av_base::limits::{MOST_COORDINATE, MOST_INDICES};
use av_base::{Memory, Name, Point, are_word_bytes, decimal_value, is_name};
use av_net::Entry;
use av_table::NameSet;
use av_vparse::are_digits;
use std::alloc::Global;

// The greatest number of an index and of a cycle.
const MOST_NUMERAL: u64 = MOST_COORDINATE as u64;

const MOST_ENTRIES: u32 = MOST_INDICES as u32;

// ---- numbers

// The value of digits, where no zero stands before others and the value is at most 4095.
fn numeral_of(text: &[u8]) -> Option<u32>
    ensures is { result ≡ numeral_of text.now }
    ensures most { IfSome result (λ value. value ≤ 4095) }
{
    if !are_digits(text) || (text.len() != 1 && text[0] == b'0') {
        return None;
    }
    match decimal_value(text) {
        Some(value) if value <= MOST_NUMERAL => Some(value as u32),
        _ => None,
    }
}

// The index that a sign and digits spell.
fn index_below(digits: &[u8]) -> Option<i64>
    ensures { result ≡ below_zero (numeral_of digits.now) }
{
    match numeral_of(digits) {
        Some(value) if value != 0 => Some(-i64::from(value)),
        _ => None,
    }
}

// An index, with a sign before it exactly where it is below 0.
fn index_of(text: &[u8]) -> Option<i64>
    ensures { result ≡ index_of text.now }
{
    match text {
        [sign, digits @ ..] if *sign == b'-' => index_below(digits),
        _ => Some(i64::from(numeral_of(text)?)),
    }
}

// ---- points

// Puts the indices between commas at the end of others, where there are at most so many.
fn push_indices(entries: &mut ArrayVec<i64, 4>, text: &[u8], room: u32) -> Option<()>
    requires { length entries.old.items + room ≤ 4 }
    ensures { option_map (λ _. entries.new.items) result
        ≡ option_map (λ is. entries.old.items ++ is) (indices_of room text.now) }
{
    if room == 0 {
        return None;
    }
    match cut(text, b',') {
        None => {
            entries.push(index_of(text)?);
            Some(())
        }
        Some((first, later)) => {
            entries.push(index_of(first)?);
            push_indices(entries, later, room - 1)
        }
    }
}

// What stands between the brackets of a point.
fn inside_of(text: &[u8]) -> Option<Point>
    ensures { result ≡ inside_of text.now }
{
    let mut entries = ArrayVec::new();
    if !text.is_empty() {
        push_indices(&mut entries, text, MOST_ENTRIES)?;
    }
    Some(Point::from_slice(entries.as_slice()))
}

// A point, as `(1,-2)` or `()`.
fn point_of(text: &[u8]) -> Option<Point>
    ensures { result ≡ point_of text.now }
{
    match text {
        [open, rest @ ..] if *open == b'(' => match cut(rest, b')') {
            Some((inside, after)) if after.is_empty() => inside_of(inside),
            _ => None,
        },
        _ => None,
    }
}

// ---- names

// Whether the text is one of these names.
fn is_wire(wires: &NameSet, text: &[u8]) -> bool
    ensures { result ≡ is_wire (is_in wires.now) text.now }
{
    are_word_bytes(text) && wires.contains(text)
}

// ---- lines

/// The parts of a line, with a blank between them.
#[derive(Clone, Copy)]
struct Parts<'a> {
    variable: &'a [u8],
    point: &'a [u8],
    wire: &'a [u8],
    cycle: &'a [u8],
}

fn parts_of(text: &[u8]) -> Option<Parts<'_>>
    ensures { option_map parts_view result ≡ parts_of text.now }
{
    let (variable, rest) = cut(text, b' ')?;
    let (point, rest) = cut(rest, b' ')?;
    let (wire, cycle) = cut(rest, b' ')?;
    Some(Parts {
        variable,
        point,
        wire,
        cycle,
    })
}

fn entry_of(alloc: Global, wires: &NameSet, parts: Parts) -> Result<Option<Entry>, Memory>
    ensures { IfOk result (λ entry. entry ≡ entry_of (is_in wires.now) (parts_view parts.entry)) }
{
    if !is_name(parts.variable) || !is_wire(wires, parts.wire) {
        return Ok(None);
    }
    match (point_of(parts.point), numeral_of(parts.cycle)) {
        (Some(point), Some(cycle)) => Ok(Some(Entry {
            variable: Name::from_ascii(alloc, parts.variable)?,
            point,
            wire: Name::from_ascii(alloc, parts.wire)?,
            cycle,
        })),
        _ => Ok(None),
    }
}

/// The entry that a line of the listing has behind its first word, at one of these wires.
pub(crate) fn entry_at(alloc: Global, wires: &NameSet, text: &[u8]) -> Result<Option<Entry>, Memory>
    ensures { IfOk result (λ entry. entry ≡ entry_at (is_in wires.now) text.now) }
{
    match parts_of(text) {
        Some(parts) => entry_of(alloc, wires, parts),
        None => Ok(None),
    }
}
