//! The pass that gives a scheduled system its helpers.

use crate::helpers::piped;
use av_base::Memory;
use av_flat::{Pass, Timed};
use std::alloc::Global;

/// Gives a helper to each reference of a piece that the schedule moves, with the first direction that moves it: the
/// word of the reference is handed on from point to point in that direction (Quinton 1984).
#[derive(Clone, Copy, Debug, Drop)]
pub struct Pipe;

impl Pass for Pipe {
    ghost use Rattle.std.specs.Prelude.{◌≡◌, ⊤, []};
    ghost use Rattle.av_flat.specs.Legal.{IsLegal};
    ghost use Rattle.av_pipe.specs.Piped.{IsPiped};

    type In = Timed;

    type Out = Timed;

    type Fault = Memory;

    ghost takes = { λ from. IsLegal from × (from.helpers ≡ []) };

    ghost gives = { λ from to. IsPiped from to };

    ghost refuses = { λ from fault. ⊤ };

    fn run(&self, alloc: Global, from: &Timed) -> Result<Timed, Memory> {
        piped(alloc, from)
    }

    ghost same = { λ from to takes gives. gives.same };
}
