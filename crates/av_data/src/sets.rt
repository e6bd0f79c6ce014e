//! Data sets behind a text, one after another.

ghost use Rattle.std.specs.Prelude.{◌≤◌, ◌<◌, ◌+◌, length, All, IfOk};
ghost use Rattle.av_data.specs.Sets.{AreSets};

use crate::division::divide;
use av_base::{List, Memory};
use std::alloc::Global;

/// The lines of a data set. The lines of an input are counted from its start, and the first line of the set has the number `first_line`.
#[derive(Clone, Copy, Debug)]
pub struct DataSet<'a> {
    pub bytes: &'a [u8],
    pub first_line: u32,
}

/// The data sets that lines `%%` divide, of which there is one more than there are such lines. The first line of the bytes has this number.
pub fn data_sets(alloc: Global, bytes: &[u8], first_line: u32) -> Result<List<DataSet<'_>>, Memory>
    requires { first_line + length bytes.now < 4294967294 }
    ensures sets { IfOk result (AreSets bytes.now first_line) }
    ensures within { IfOk result (All (λ set. set.first_line + length set.bytes.now < 4294967295)) }
{
    let mut sets = List::new(alloc);
    let mut rest = bytes;
    let mut line = first_line;
    while let Some(parts) = divide(rest) {
        sets.push(DataSet {
            bytes: parts.text,
            first_line: line,
        })?;
        rest = parts.rest;
        line += parts.first_line - 1;
    }
    sets.push(DataSet {
        bytes: rest,
        first_line: line,
    })?;
    Ok(sets)
}
