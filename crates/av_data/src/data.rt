//! From the bytes of data to the words of inputs.

ghost use Rattle.std.specs.Prelude.{◌≡◌, ◌+◌, ◌<◌, ◌⊎◌, length, IfOk, Err};
ghost use Rattle.av_tree.specs.Values.{Assignment};
ghost use Rattle.av_flat.specs.Kept.{IsKept};
ghost use Rattle.av_flat.specs.Chained.{IsChained};
ghost use Rattle.av_flat.specs.OneSolution.{AreInputs};
ghost use Rattle.av_flat.specs.Trees.{view_system};
ghost use Rattle.av_data.specs.declared.fault.DataFault.{DataFault as Fault};
ghost use Rattle.av_data.specs.declared.fault.DataFault.TheVariants.{Memory as OutOfMemory};
ghost use Rattle.av_data.specs.Inputs.{words_of};
ghost use Rattle.av_data.specs.Data.{SpellsInputs, IsInputFault, GivesInputs, RefusesInputs};
ghost use Rattle.av_data.specs.inner.ReadData.{IsReadable, IsOutcome, TellsMissing, names_in};

use crate::data_lines::{take_lines, variable_at};
use crate::missing::first_missing;
use crate::word_map::WordMap;
use crate::{DataFault, Inputs};
use av_base::{List, Memory, Name, Point};
use av_flat::{Flat, VariablePlace};
use av_table::NameSet;
use std::alloc::Global;

// The names of all variables, in order.
fn all_names(alloc: Global, flat: &Flat) -> Result<NameSet<'_>, Memory>
    requires { IsReadable (view_system flat.now) }
    ensures { IfOk result (λ names. names ≡ names_in (view_system flat.now)) }
{
    let vars = flat.vars.as_slice();
    let mut names = NameSet::new(alloc);
    for var in vars {
        names.insert(var.name.as_str().as_bytes())?;
    }
    Ok(names)
}

// The same in memory of their own.
fn kept_names(alloc: Global, flat: &Flat) -> Result<List<Name>, Memory>
    requires { IsReadable (view_system flat.now) }
    ensures { IfOk result (λ names. names ≡ names_in (view_system flat.now)) }
{
    let vars = flat.vars.as_slice();
    let mut names = List::new(alloc);
    for var in vars {
        names.push(Name::new(alloc, var.name.as_str())?)?;
    }
    Ok(names)
}

// A point of the variable there has no line.
fn missing(alloc: Global, flat: &Flat, place: VariablePlace, point: Point) -> DataFault
    requires { place.0 < length flat.now.vars }
    ensures { TellsMissing (view_system flat.now) place.0 point result }
{
    let var = variable_at(flat.vars.as_slice(), place);
    match Name::new(alloc, var.name.as_str()) {
        Ok(name) => DataFault::DataMissing(name, point),
        Err(fault) => DataFault::from(fault),
    }
}

// Reads the lines, and then looks for a point that none of them tells.
fn read(alloc: Global, bytes: &[u8], first: u32, flat: &Flat) -> Result<Inputs, DataFault>
    requires lines { first + length bytes.now < 4294967295 }
    requires readable { IsReadable (view_system flat.now) }
    ensures { IsOutcome (view_system flat.now) first bytes.now result }
{
    let mut words = WordMap::new(alloc);
    take_lines(flat, &all_names(alloc, flat)?, &mut words, first, bytes)?;
    match first_missing(alloc, flat, &words)? {
        Some((place, point)) => Err(missing(alloc, flat, place, point)),
        None => Ok(Inputs {
            names: kept_names(alloc, flat)?,
            words,
        }),
    }
}

/// Reads the words of a system's inputs from lines of which the first has this number.
///
/// Each line that is neither empty nor a comment is `NAME(INTEGER,INTEGER) = VALUE`, in any order. The first faulty line decides, and
/// on one line the first of `DataSyntax`, `DataUnknown`, `DataOutside` and `DataTwice`. Where no line is faulty, `DataMissing` tells
/// the first input with a point that no line gives a word, and its least such point.
pub fn read_data(
    alloc: Global,
    bytes: &[u8],
    first_line: u32,
    flat: &Flat,
) -> Result<Inputs, DataFault>
    requires lines { first_line + length bytes.now < 4294967295 }
    requires flat { IsKept (view_system flat.now) ⊎ IsChained (view_system flat.now) }

    // What is read is spelled so, and what is spelled so is read, unless memory runs out.
    ensures found { IfOk result (λ inputs.
        SpellsInputs (view_system flat.now) bytes.now (words_of inputs)) }
    ensures only { (x : Assignment)
        → SpellsInputs (view_system flat.now) bytes.now x → GivesInputs result x }
    ensures inputs { IfOk result (λ inputs. AreInputs (view_system flat.now) (words_of inputs)) }

    // Each fault is that of the lines, and where the lines have a fault it is answered.
    ensures fault { (f : Fault) → result ≡ Err f
        → (f ≡ OutOfMemory) ⊎ IsInputFault (view_system flat.now) first_line bytes.now f }
    ensures refused { (f : Fault) → IsInputFault (view_system flat.now) first_line bytes.now f
        → RefusesInputs result f }
{
    read(alloc, bytes, first_line, flat)
}
