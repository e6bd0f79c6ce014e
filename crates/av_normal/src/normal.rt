//! The pass from a flat system to its normal form.

ghost use Rattle.std.specs.Prelude.{IfOk, IfErr};
ghost use Rattle.av_flat.specs.Trees.{view_system};
ghost use Rattle.av_flat.specs.WellFormed.{IsWellFormed};
ghost use Rattle.av_normal.specs.NormalFaults.{IsGiven, IsFault};

use crate::NormalFault;
use crate::all_pieces::all_pieces;
use crate::bounded::{boxes_fit, extents};
use crate::count::few_pieces;
use crate::nonempty_pieces::kept_variables;
use av_flat::{Feeds, Flat, Pass};
use std::alloc::Global;

// The system with the kept pieces of its variables, or the first cause that holds against it.
fn normal_form(alloc: Global, flat: &Flat) -> Result<Flat, NormalFault>
    requires { IsWellFormed (view_system flat.now) }
    ensures given { IfOk result (λ to. IsGiven (view_system flat.now) (view_system to)) }
    ensures fault { IfErr result (IsFault (view_system flat.now)) }
{
    few_pieces(flat.vars.as_slice())?;
    let all_pieces = all_pieces(alloc, flat)?;
    let extents = extents(alloc, flat.vars.as_slice())?;
    boxes_fit(extents.as_slice())?;
    let vars = kept_variables(alloc, all_pieces, extents.as_slice())?;
    Ok(Flat {
        width: flat.width,
        vars,
    })
}

/// Brings every variable to its kept pieces: those of its pieces that have a point, in their order (Mauras 1989;
/// Wilde's reports on Alpha). Operators are distributed over cases and restrictions, the first operand slowest,
/// dependences are composed away, and a piece has the rows of its references, of its restrictions at the image and
/// of the declared domain.
///
/// What it refuses it refuses for the first of these that holds: more than 256 pieces in an equation, counted before
/// any is dropped; a set or a composed map above a limit, variable by variable, and in each its domain, its maps,
/// its pieces and their bodies; an unbounded declared domain; a declared domain with a coordinate above 4,095 or
/// a box of more than 65,536 points.
#[derive(Clone, Copy, Debug, Drop)]
pub struct Normal;

impl Pass for Normal {
    ghost use Rattle.av_flat.specs.Trees.{view_system};
    ghost use Rattle.av_flat.specs.WellFormed.{IsWellFormed};
    ghost use Rattle.av_normal.specs.NormalFaults.{IsGiven, IsFault};

    type In = Flat;

    type Out = Flat;

    type Fault = NormalFault;

    ghost takes = { λ from. IsWellFormed (view_system from) };

    ghost gives = { λ from to. IsGiven (view_system from) (view_system to) };

    ghost refuses = { λ from fault. IsFault (view_system from) fault };

    fn run(&self, alloc: Global, from: &Flat) -> Result<Flat, NormalFault> {
        normal_form(alloc, from)
    }

    ghost same = { λ from to takes gives. gives.same };
}

impl Feeds<Normal> for Normal {
    ghost fits = { λ from to takes gives. gives.kept.well_formed };
}
