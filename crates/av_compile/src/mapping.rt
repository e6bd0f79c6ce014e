ghost use Rattle.std.specs.Prelude.{◌≡◌, ◌≢◌, ◌<◌, ◌⊎◌, length, IfOk, IfErr, OnOk, Err};
ghost use Rattle.av_flat.specs.declared.timed.Timed.{Timed as System};
ghost use Rattle.av_names.specs.Texts.{AreSmall};
ghost use Rattle.av_space.specs.Layouts.{IsLayout};
ghost use Rattle.av_compile.specs.Scheduled.{HasOneSolutionEach};
ghost use Rattle.av_compile.specs.Mapped.{IsPipelined, HasArray, IsMapped, IsUnmapped};
ghost use Rattle.av_compile.specs.declared.refusal.Refusal.{Refusal as Refused};
ghost use Rattle.av_compile.specs.declared.refusal.Refusal.TheVariants as refusal;

use crate::Refusal;
use crate::schedule::scheduled;
use av_base::Width;
use av_flat::{Reach, Timed};
use av_names::Size;
use av_pipe::with_helpers;
use av_space::{Cells, Layout, lay_out, map_layout};
use std::alloc::Global;

/// A scheduled system with its pipelines, and its array.
#[derive(Debug, Drop)]
pub struct MappedSystem {
    pub timed: Timed,
    pub cells: Cells,
}

// The same with the layout that the cells were mapped from.
#[derive(Drop)]
pub(crate) struct LaidOut {
    pub(crate) timed: Timed,
    pub(crate) cells: Cells,
    pub(crate) layout: Layout,
}

/// What `mapped` gives, with the layout for those who build from the array.
pub(crate) fn mapped_with_layout(
    alloc: Global,
    bytes: &[u8],
    sizes: &[Size],
    width: Width,
    reach: Reach,
) -> Result<LaidOut, Refusal>
    requires short { length bytes.now < 4294967295 }
    requires small { AreSmall sizes.now }
    ensures found { IfOk result (λ to.
        IsMapped bytes.now sizes.now width.bits reach.size to.timed to.cells) }
    ensures layout { IfOk result (λ to. IsLayout to.timed to.layout) }
    ensures one_solution { OnOk result (HasOneSolutionEach bytes.now sizes.now width.bits) }
    ensures refused { (f : Refused) → result ≡ Err f
        → f ≢ refusal.Memory → IsUnmapped bytes.now sizes.now width.bits reach.size f }
    ensures complete { (t : System) → IsPipelined bytes.now sizes.now width.bits reach.size t
        → HasArray t → IfErr result (λ f. f ≡ refusal.Memory) }
{
    let found = scheduled(alloc, bytes, sizes, width, reach)?;
    let timed = with_helpers(alloc, found)?;
    let layout = lay_out(alloc, &timed)?;
    let cells = map_layout(alloc, &timed, &layout)?;
    Ok(LaidOut {
        timed,
        cells,
        layout,
    })
}

/// The array of the system that a text spells, with its sizes, in words of this width: by its first schedule in the box.
///
/// The answer is the system as `scheduled` gives it, with a helper for each reference that the schedule moves, and its cells,
/// links, ports and listing. Else the first fault is answered: those of `scheduled`, then the first quantity of the array
/// that is above its limit, in the order cycles, cells, registers of delay lines, links, operators.
pub fn mapped(
    alloc: Global,
    bytes: &[u8],
    sizes: &[Size],
    width: Width,
    reach: Reach,
) -> Result<MappedSystem, Refusal>
    requires short { length bytes.now < 4294967295 }
    requires small { AreSmall sizes.now }

    // What is answered is the array of what the bytes spell, with its whole listing.
    ensures found { IfOk result (λ to.
        IsMapped bytes.now sizes.now width.bits reach.size to.timed to.cells) }

    // With an array the equations have just one solution, whatever the inputs.
    ensures one_solution { OnOk result (HasOneSolutionEach bytes.now sizes.now width.bits) }

    // A text is refused for its first fault, unless memory runs out.
    ensures refused { (f : Refused) → result ≡ Err f
        → f ≢ refusal.Memory → IsUnmapped bytes.now sizes.now width.bits reach.size f }

    // Where a text has a first fault, it is refused for that one, unless memory runs out.
    ensures cause { (f : Refused) → IsUnmapped bytes.now sizes.now width.bits reach.size f
        → f ≢ refusal.Memory → (result ≡ Err f) ⊎ (result ≡ Err refusal.Memory) }

    // A system with a first schedule, whose array is within the limits, is not refused.
    ensures complete { (t : System) → IsPipelined bytes.now sizes.now width.bits reach.size t
        → HasArray t → IfErr result (λ f. f ≡ refusal.Memory) }
{
    let found = mapped_with_layout(alloc, bytes, sizes, width, reach)?;
    Ok(MappedSystem {
        timed: found.timed,
        cells: found.cells,
    })
}
