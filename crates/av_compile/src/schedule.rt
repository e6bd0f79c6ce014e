ghost use Rattle.std.specs.Prelude.{◌≡◌, ◌≢◌, ◌<◌, ◌⊎◌, length, IfOk, IfErr, OnOk, Err};
ghost use Rattle.av_flat.specs.Trees.{FlatSystem, view_system};
ghost use Rattle.av_flat.specs.WellFormed.{IsWellFormed};
ghost use Rattle.av_names.specs.Texts.{AreSmall};
ghost use Rattle.av_compile.specs.Scheduled.{Serialises, HasFirstSchedule, IsScheduled, HasOneSolutionEach, IsUnscheduled};
ghost use Rattle.av_compile.specs.inner.Chaining.{IsChained, IsUnchained};
ghost use Rattle.av_compile.specs.declared.refusal.Refusal.{Refusal as Refused};
ghost use Rattle.av_compile.specs.declared.refusal.Refusal.TheVariants as refusal;

use crate::Refusal;
use crate::front::flattened;
use av_base::{List, Width};
use av_check::check_normal;
use av_depend::edges;
use av_flat::{Flat, Pass, Reach, Timed};
use av_names::Size;
use av_normal::Normal;
use av_sched::first_times;
use av_serial::serial_form;
use std::alloc::Global;

// The flat system with its pieces kept and its reductions as chains. Faults of points come before those of reductions.
fn chained(alloc: Global, flat: &Flat) -> Result<Flat, Refusal>
    requires { IsWellFormed (view_system flat.now) }
    ensures found { IfOk result (λ to. IsChained (view_system flat.now) (view_system to)) }
    ensures refused { (f : Refused) → result ≡ Err f
        → f ≢ refusal.Memory → IsUnchained (view_system flat.now) f }
    ensures complete { (s : FlatSystem)
        → IsChained (view_system flat.now) s → IfErr result (λ f. f ≡ refusal.Memory) }
{
    let normal = Normal.run(alloc, flat)?;
    check_normal(alloc, flat, &normal)?;
    let serial = serial_form(alloc, normal)?;
    Ok(serial)
}

/// The first schedule, in the box, of the system that a text spells, with its sizes, in words of this width.
///
/// The answer is the system with its kept pieces and with its reductions as chains, a time for each node, and no helper. Else
/// the first fault is answered: those of `checked`, then those of the reductions, outer before inner, then a component
/// with too many choices of linear parts, and last the first component that has no schedule.
pub fn scheduled(
    alloc: Global,
    bytes: &[u8],
    sizes: &[Size],
    width: Width,
    reach: Reach,
) -> Result<Timed, Refusal>
    requires short { length bytes.now < 4294967295 }
    requires small { AreSmall sizes.now }

    // What is answered has the first schedule of what the bytes spell.
    ensures found { IfOk result (IsScheduled bytes.now sizes.now width.bits reach.size) }

    // With a schedule the equations have just one solution, whatever the inputs.
    ensures one_solution { OnOk result (HasOneSolutionEach bytes.now sizes.now width.bits) }

    // A text is refused for its first fault, unless memory runs out.
    ensures refused { (f : Refused) → result ≡ Err f
        → f ≢ refusal.Memory → IsUnscheduled bytes.now sizes.now width.bits reach.size f }

    // Where a text has a first fault, it is refused for that one, unless memory runs out.
    ensures cause { (f : Refused) → IsUnscheduled bytes.now sizes.now width.bits reach.size f
        → f ≢ refusal.Memory → (result ≡ Err f) ⊎ (result ≡ Err refusal.Memory) }

    // A proper system whose reductions become chains, and that has a first schedule, is not refused.
    ensures complete { (s : FlatSystem) → Serialises bytes.now sizes.now width.bits s
        → HasFirstSchedule s reach.size → IfErr result (λ f. f ≡ refusal.Memory) }
{
    let flat = flattened(alloc, bytes, sizes, width)?;
    let serial = chained(alloc, &flat)?;
    let edges = edges(alloc, &serial)?;
    let times = first_times(alloc, &serial, edges.as_slice(), reach)?;
    Ok(Timed {
        flat: serial,
        times,
        helpers: List::new(alloc),
    })
}
