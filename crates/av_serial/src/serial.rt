//! The pass from a kept system to its serial form.

ghost use Rattle.std.specs.Prelude.{IfOk, IfErr};
ghost use Rattle.av_flat.specs.Trees.{view_system};
ghost use Rattle.av_flat.specs.Kept.{IsKept};
ghost use Rattle.av_serial.specs.SerialFaults.{IsGiven, IsFault};

use crate::SerialFault;
use crate::walk::all_nodes;
use crate::with_chains::with_chains;
use av_base::limits::MOST_REDUCTIONS;
use av_flat::{Feeds, Flat, Pass, Quantity, copy_flat};
use av_normal::Normal;
use std::alloc::Global;

/// The system with its reductions as chains, or the first cause that holds against it, as `Serial` answers of a copy: each piece of
/// the given system is dropped as soon as its new one is made.
pub fn serial_form(alloc: Global, flat: Flat) -> Result<Flat, SerialFault>
    requires { IsKept (view_system flat) }
    ensures given { IfOk result (λ to. IsGiven (view_system flat) (view_system to)) }
    ensures fault { IfErr result (IsFault (view_system flat)) }
{
    let nodes = all_nodes(alloc, flat.vars.as_slice())?;
    if nodes > MOST_REDUCTIONS {
        return Err(SerialFault::Limit(Quantity::Reductions, nodes));
    }
    let vars = with_chains(alloc, flat.vars)?;
    Ok(Flat { vars, ..flat })
}

/// Makes every reduction a chain: a partial variable that is folded from point to point along the index that the
/// reduction drops, and in the reduction's place a read of the last point of the chain.
///
/// It tries each reduction in the order of nodes, an outer one before those in its body, and refuses the first of which
/// one of these holds, for the first that does: a normalised row of its set with another coefficient at the dropped
/// index than -1, 0 and 1; an unbounded set; a coordinate above 4,095 or a box of more than 65,536 points. At the
/// end it refuses more than 16 reductions with a point.
///
/// The chains stand behind the variables given, equation by equation and there in the order of the text, an outer one before
/// those in its body. The name of each is that of the equation's variable, `#` and a number from 1. A reduction without a point
/// becomes its operator's identity. All other parts stay.
///
/// Out of memory is answered where a list or a name finds no room, and nowhere else.
#[derive(Clone, Copy, Debug, Drop)]
pub struct Serial;

impl Pass for Serial {
    ghost use Rattle.av_flat.specs.Trees.{view_system};
    ghost use Rattle.av_flat.specs.Kept.{IsKept};
    ghost use Rattle.av_serial.specs.SerialFaults.{IsGiven, IsFault};

    type In = Flat;

    type Out = Flat;

    type Fault = SerialFault;

    ghost takes = { λ from. IsKept (view_system from) };

    ghost gives = { λ from to. IsGiven (view_system from) (view_system to) };

    ghost refuses = { λ from fault. IsFault (view_system from) fault };

    fn run(&self, alloc: Global, from: &Flat) -> Result<Flat, SerialFault> {
        let own = copy_flat(alloc, from)?;
        serial_form(alloc, own)
    }

    ghost same = { λ from to takes gives. gives.same };
}

impl Feeds<Serial> for Normal {
    ghost fits = { λ from to takes gives. gives.kept };
}
