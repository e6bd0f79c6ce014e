//! How many cycles later the next problem may begin on the cells of an array.

ghost use Rattle.std.specs.Prelude.{◌≡◌, ◌≤◌};
ghost use Rattle.av_flat.specs.Legal.{IsLegal};
ghost use Rattle.av_flat.specs.Trees.{view_system};
ghost use Rattle.av_space.specs.Quantities.{IsCycleCount};
ghost use Rattle.av_space.specs.SpaceFaults.{IsSpaceFault};
ghost use Rattle.av_space.specs.Whole.{IsWhole};
ghost use Rattle.av_space.specs.declared.fault.SpaceFault.{SpaceFault as Fault};
ghost use Rattle.av_space.specs.declared.fault.SpaceFault.TheVariants as fault;
ghost use Rattle.av_stream.specs.Periods.{HasPeriod};
ghost use Rattle.av_stream.specs.inner.Standing.{IsUsedIn, HasSpan};

use crate::standing::{matrix_of, stands};
use av_flat::{Node, Timed, variable_of};
use av_space::{Cell, Cells};

// The number of cycles from the first computation of a cell to the last one, both included.
fn span(timed: &Timed, cycles: u32, cell: &Cell) -> u32
    requires legal { IsLegal timed.now }
    requires used { IsUsedIn timed.now cell.now }
    requires cycles { IsCycleCount (view_system timed.now.flat) timed.now.times cycles }
    requires few { cycles ≤ 4096 }
    ensures { HasSpan timed.now cell.now result }
{
    let node = Node(cell.node as usize);
    let var = variable_of(&timed.flat, node);
    let time = &timed.times.as_slice()[node.0];
    let matrix = matrix_of(time);
    let mut first = 0;
    'from_start: while !stands(var, time, &matrix, &cell.at, first) {
        first += 1;
    }
    let mut last = cycles - 1;
    'from_end: while !stands(var, time, &matrix, &cell.at, last) {
        last -= 1;
    }
    last - first + 1
}

/// How many cycles later the next problem may begin: the greatest number of cycles from the first computation of a cell to the last one,
/// both included, or 1 without a cell. It takes no memory.
pub fn period(timed: &Timed, cells: &Cells) -> u32
    requires legal { IsLegal timed.now }

    // The cells are those that the mapping gives for the system.
    requires whole { IsWhole timed.now cells.now }
    requires within { (f : Fault) → IsSpaceFault timed.now f → f ≡ fault.Memory }
    ensures { HasPeriod timed.now cells.now result }
{
    let mut period = 1;
    for cell in cells.cells.as_slice() {
        period = period.max(span(timed, cells.cycles, cell));
    }
    period
}
