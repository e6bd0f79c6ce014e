//! From the bytes of a stimulus to what it gives.

ghost use Rattle.std.specs.Prelude.{◌≡◌, ◌<◌, ◌+◌, ◌≤◌, length, drop, Ok, Err, Some, [], OnOk, IfErr, IfOk};
ghost use Rattle.av_net.specs.Names.{AreDistinct, names_of};
ghost use Rattle.av_data.specs.Reading.{cycles_digits, cycles_at, cycles_by, value_at, given_at, place_of, stimulus_of, FaultIs, Answers};
ghost use Rattle.av_data.specs.inner.Settings.{view_setting};

use crate::DataFault;
use crate::forms::{Setting, cycles_digits, setting_in};
use crate::input_ports::InputPorts;
use crate::lines::{first_line, from, is_empty, uncommented};
use crate::spelling::{number_below, word_of};
use crate::stimulus::{Given, Stimulus};
use crate::timeline::Timeline;
use av_base::limits::MOST_CYCLES;
use av_net::Port;
use std::alloc::Global;

// The greatest number of cycles.
const LIMIT: u32 = MOST_CYCLES as u32;

fn cycles_said(line: u32, text: &[u8]) -> Result<Option<u32>, DataFault>
    ensures { Answers result (cycles_by line (cycles_digits text.now)) }
{
    let Some(digits) = cycles_digits(text) else {
        return Err(DataFault::DataSyntax(line));
    };
    match number_below(digits, LIMIT + 1) {
        Some(cycles) => Ok(Some(cycles)),
        None => Err(DataFault::DataSyntax(line)),
    }
}

/// How many cycles a line says, before which none said so. `None` is said by an empty line.
#[tactic(auto, unfolding(crate::specs::Reading::cycles_at))]
fn cycles_at(line: u32, text: &[u8]) -> Result<Option<u32>, DataFault>
    ensures { Answers result (cycles_at line text.now) }
{
    let text = uncommented(text);
    if is_empty(text) {
        return Ok(None);
    }
    cycles_said(line, text)
}

// Puts the value in its place, if the line says one for an input port that has none in that cycle.
fn give(
    inputs: &InputPorts,
    cycles: u32,
    values: &mut Timeline,
    line: u32,
    setting: &Setting,
) -> Result<(), DataFault>
    ensures ok { OnOk result (given_at inputs.now cycles line values.old
        (view_setting setting.now) (place_of inputs.now setting.now.port.now) ≡ Ok values.new) }
    ensures err { IfErr result (λ fault. FaultIs fault (given_at inputs.now cycles line values.old
        (view_setting setting.now) (place_of inputs.now setting.now.port.now))) }
{
    let Some(port) = inputs.place(setting.port) else {
        return Err(DataFault::DataUnknown(line));
    };
    let Some(cycle) = number_below(setting.cycle, cycles) else {
        return Err(DataFault::DataOutside(line));
    };
    let Some(value) = word_of(setting.value, inputs.width(port)) else {
        return Err(DataFault::DataOutside(line));
    };
    if values.give(Given { cycle, port, value })? {
        Ok(())
    } else {
        Err(DataFault::DataTwice(line))
    }
}

// Takes a line that stands behind the one that says how many cycles there are.
#[tactic(auto, unfolding(crate::specs::Reading::value_at))]
fn value_at(
    inputs: &InputPorts,
    cycles: u32,
    values: &mut Timeline,
    line: u32,
    text: &[u8],
) -> Result<(), DataFault>
    ensures ok { OnOk result (value_at inputs.now cycles line values.old text.now ≡ Ok values.new) }
    ensures err { IfErr result (λ fault.
        FaultIs fault (value_at inputs.now cycles line values.old text.now)) }
{
    let text = uncommented(text);
    if is_empty(text) {
        return Ok(());
    }
    match setting_in(text) {
        Some(setting) => give(inputs, cycles, values, line, &setting),
        None => Err(DataFault::DataSyntax(line)),
    }
}

// Reads a stimulus for these input ports line by line, whose first line has this number.
fn read_lines(
    alloc: Global,
    bytes: &[u8],
    first: u32,
    inputs: &InputPorts,
) -> Result<Stimulus, DataFault>
    requires { first + length bytes.now < 4294967295 }
    ensures { Answers result (stimulus_of inputs.now first bytes.now) }
{
    let mut values = Timeline::new(alloc);
    let mut cycles = None;
    let mut line = first;
    let mut at = 0;
    while at < bytes.len() {
        let (text, size) = first_line(from(bytes, at));
        match cycles {
            None => cycles = cycles_at(line, text)?,
            Some(cycles) => value_at(inputs, cycles, &mut values, line, text)?,
        }
        at += size;
        line += 1;
    }
    match cycles {
        None => Err(DataFault::DataSyntax(line)),
        Some(cycles) => Ok(Stimulus {
            cycles,
            values: values.list(alloc)?,
        }),
    }
}

/// Reads a stimulus line by line, whose first line has this number.
pub(crate) fn read(
    alloc: Global,
    bytes: &[u8],
    first: u32,
    ports: &[Port],
) -> Result<Stimulus, DataFault>
    requires lines { first + length bytes.now < 4294967295 }
    requires names { AreDistinct (names_of ports.now) }
    requires few { length ports.now ≤ 1073741824 }
    ensures { Answers result (stimulus_of ports.now first bytes.now) }
{
    let inputs = InputPorts::new(alloc, ports)?;
    read_lines(alloc, bytes, first, &inputs)
}
