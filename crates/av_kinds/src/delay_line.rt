//! The delay line of a lane: registers that hand its word on, one a cycle.

ghost use Rattle.std.specs.Prelude.{◌≡◌, ◌++◌, map, OnOk};
ghost use Rattle.std.specs.List.{range_with_len};
ghost use Rattle.av_kinds.specs.Tops.{port};
ghost use Rattle.av_kinds.specs.inner.Numbered.{register_in, step_in};

use crate::naming::LaneNames;
use av_base::{List, Memory, Width};
use av_net::{Operand, Port, Step};
use std::alloc::Global;

/// The registers of a lane whose word is read so many cycles later.
pub(crate) fn add_registers(
    alloc: Global,
    width: Width,
    names: LaneNames,
    length: u32,
    registers: &mut List<Port>,
) -> Result<(), Memory>
    ensures { OnOk result (registers.new
        ≡ registers.old ++ map (λ d. port width (register_in names d)) (range_with_len 0 length)) }
{
    for delay in 0..length {
        registers.push(Port {
            name: names.register(alloc, delay)?,
            width,
        })?;
    }
    Ok(())
}

/// And their steps: each takes on what has the word of one cycle less.
pub(crate) fn add_steps(
    alloc: Global,
    names: LaneNames,
    length: u32,
    steps: &mut List<Step>,
) -> Result<(), Memory>
    ensures { OnOk result (steps.new ≡ steps.old ++ map (step_in names) (range_with_len 0 length)) }
{
    for delay in 0..length {
        steps.push(Step {
            register: names.register(alloc, delay)?,
            reset: 0,
            next: Operand::Name(names.line(alloc, delay)?),
        })?;
    }
    Ok(())
}
