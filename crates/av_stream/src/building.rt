//! The plan of an array that takes problem after problem.

ghost use Rattle.std.specs.Prelude.{◌≡◌, IfOk};
ghost use Rattle.av_flat.specs.Legal.{IsLegal};
ghost use Rattle.av_space.specs.SpaceFaults.{IsSpaceFault};
ghost use Rattle.av_space.specs.Whole.{IsWhole};
ghost use Rattle.av_space.specs.declared.fault.SpaceFault.{SpaceFault as Fault};
ghost use Rattle.av_space.specs.declared.fault.SpaceFault.TheVariants as fault;
ghost use Rattle.av_stream.specs.StreamPlans.{IsStreamOf};

use crate::spans::period;
use av_base::Memory;
use av_build::{Counter, build_counting};
use av_flat::Timed;
use av_net::Plan;
use av_space::Cells;
use std::alloc::Global;

/// A plan whose cells choose by the phase: the number of the cycle modulo the period.
#[derive(Debug, Drop)]
pub struct Streamed {
    pub plan: Plan,
    pub period: u32,
}

/// The plan of an array that takes each problem a period later than the one before it.
///
/// The listing tells of the first problem; the others have the same ports and wires some periods later. The counter is never too small, since it
/// begins anew with each period.
pub fn build_stream(alloc: Global, timed: &Timed, cells: &Cells) -> Result<Streamed, Memory>
    requires legal { IsLegal timed.now }

    // The cells are those that the mapping gives for the system.
    requires whole { IsWhole timed.now cells.now }
    requires within { (f : Fault) → IsSpaceFault timed.now f → f ≡ fault.Memory }
    ensures { IfOk result (IsStreamOf timed.now cells.now) }
{
    let period = period(timed, cells);
    let plan = build_counting(alloc, timed, cells, Counter::Phases { period })?;
    Ok(Streamed { plan, period })
}
