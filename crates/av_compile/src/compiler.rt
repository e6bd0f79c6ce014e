ghost use Rattle.std.specs.Prelude.{◌≡◌, ◌≢◌, ◌<◌, ◌⊎◌, length, IfOk, IfErr, Err};
ghost use Rattle.av_flat.specs.Trees.{view_system};
ghost use Rattle.av_flat.specs.Legal.{IsLegal};
ghost use Rattle.av_flat.specs.declared.timed.Timed.{Timed as System};
ghost use Rattle.av_names.specs.Texts.{AreSmall};
ghost use Rattle.av_net.specs.Flat.{flat_of};
ghost use Rattle.av_space.specs.declared.fault.SpaceFault.{SpaceFault as Fault};
ghost use Rattle.av_space.specs.declared.fault.SpaceFault.TheVariants as fault;
ghost use Rattle.av_space.specs.SpaceFaults.{IsSpaceFault};
ghost use Rattle.av_space.specs.Whole.{IsWhole};
ghost use Rattle.av_build.specs.ArrayPlans.{IsPlanOf};
ghost use Rattle.av_compile.specs.Scheduled.{Serialises};
ghost use Rattle.av_compile.specs.Mapped.{HasArray, IsPipelined, IsMapped, IsUnmapped};
ghost use Rattle.av_compile.specs.Headline.{Headline};
ghost use Rattle.av_compile.specs.declared.refusal.Refusal.{Refusal as Refused};
ghost use Rattle.av_compile.specs.declared.refusal.Refusal.TheVariants as refusal;

use crate::Refusal;
use crate::mapping::{MappedSystem, mapped};
use av_base::{Memory, Width};
use av_build::build;
use av_flat::{Flat, Reach, Timed, copy_flat};
use av_names::Size;
use av_net::{Design, Plan, flatten};
use av_space::Cells;
use std::alloc::Global;

/// What is made of a text: its chained system, the same with its first schedule and pipelines, its array, the plan of that,
/// and the plan's flat design.
#[derive(Debug, Drop)]
pub struct Compiled {
    pub flat: Flat,
    pub timed: Timed,
    pub cells: Cells,
    pub plan: Plan,
    pub design: Design,
}

// The plan of an array, and its flat design.
#[derive(Drop)]
struct Designed {
    plan: Plan,
    design: Design,
}

fn plan_and_design(alloc: Global, timed: &Timed, cells: &Cells) -> Result<Designed, Memory>
    requires legal { IsLegal timed.now }
    requires whole { IsWhole timed.now cells.now }
    requires within { (f : Fault) → IsSpaceFault timed.now f → f ≡ fault.Memory }
    ensures plan { IfOk result (λ made. IsPlanOf timed.now cells.now made.plan) }
    ensures design { IfOk result (λ made. made.design ≡ flat_of made.plan) }
{
    let plan = build(alloc, timed, cells)?;
    let design = flatten(alloc, &plan)?;
    Ok(Designed { plan, design })
}

/// Compiles a text with its sizes, in words of this width, by its first schedule in the box, to a systolic array in Verilog.
///
/// The listing has the points of inputs at the input ports, by port and cycle, and those of outputs and locals at their wires, by
/// variable and point. The top module is named `array`; each cell is an instance of its kind.
///
/// Else the first fault is answered: those of `mapped`. `Memory` comes where memory runs out, whatever else holds.
pub fn compile(
    alloc: Global,
    bytes: &[u8],
    sizes: &[Size],
    width: Width,
    reach: Reach,
) -> Result<Compiled, Refusal>
    requires short { length bytes.now < 4294967295 }
    requires small { AreSmall sizes.now }

    // The equations have one solution for every input, and the plan's flat design shows it, whatever stands on idle ports.
    ensures headline { IfOk result (λ to.
        Headline bytes.now sizes.now width.bits reach.size to.timed to.cells to.plan) }

    // That design is the last field.
    ensures design { IfOk result (λ to. to.design ≡ flat_of to.plan) }

    // The system and the array are those that `mapped` gives: no step finds a fault.
    ensures mapped { IfOk result (λ to.
        IsMapped bytes.now sizes.now width.bits reach.size to.timed to.cells) }

    // The first field is the system that the schedule is for.
    ensures flat { IfOk result (λ to.
        Serialises bytes.now sizes.now width.bits (view_system to.flat)) }

    // A text is refused for its first fault, unless memory runs out.
    ensures refused { (f : Refused) → result ≡ Err f
        → f ≢ refusal.Memory → IsUnmapped bytes.now sizes.now width.bits reach.size f }

    // Where a text has a first fault, it is refused for that one, unless memory runs out.
    ensures cause { (f : Refused) → IsUnmapped bytes.now sizes.now width.bits reach.size f
        → f ≢ refusal.Memory → (result ≡ Err f) ⊎ (result ≡ Err refusal.Memory) }

    // A system with a first schedule, whose array is within the limits, is not refused.
    ensures complete { (t : System) → IsPipelined bytes.now sizes.now width.bits reach.size t
        → HasArray t → IfErr result (λ f. f ≡ refusal.Memory) }
{
    let MappedSystem { timed, cells } = mapped(alloc, bytes, sizes, width, reach)?;
    let flat = copy_flat(alloc, &timed.flat)?;
    let Designed { plan, design } = plan_and_design(alloc, &timed, &cells)?;
    Ok(Compiled {
        flat,
        timed,
        cells,
        plan,
        design,
    })
}
