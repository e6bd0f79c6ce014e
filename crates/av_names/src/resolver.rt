ghost use Rattle.std.specs.Prelude.{◌≡◌, ◌⊎◌, IfOk, Err};
ghost use Rattle.av_flat.specs.Trees as flat;
ghost use Rattle.av_flat.specs.WellFormed.{IsWellFormed};
ghost use Rattle.av_tree.specs.Trees.{view_system};
ghost use Rattle.av_names.specs.Sizes.{instance_of};
ghost use Rattle.av_names.specs.Flattened as flattened;
ghost use Rattle.av_names.specs.Refusals.{refusal, IsAccepted, IsRefusal};
ghost use Rattle.av_names.specs.Same.{SaysTheSame};
ghost use Rattle.av_names.specs.Texts.{IsOfText, AreSmall};
ghost use Rattle.av_names.specs.declared.fault.NameFault.{NameFault as Fault};
ghost use Rattle.av_names.specs.declared.fault.NameFault.TheVariants as fault;

use crate::flat_system::flat_of;
use crate::index::all_parts;
use crate::refused::refused;
use crate::tables::all_variables;
use crate::{NameFault, Size};
use av_base::{Memory, Width};
use av_flat::Flat;
use av_tree::System;
use std::alloc::Global;

/// Why the system is refused with these sizes, or nothing.
fn first_fault(alloc: Global, system: &System, sizes: &[Size]) -> Result<Option<NameFault>, Memory>
    requires text { IsOfText (view_system system.now) }
    requires small { AreSmall sizes.now }
    ensures { IfOk result (λ fault. fault ≡ refusal (view_system system.now) sizes.now) }
{
    let variables = all_variables(alloc, system)?;
    let parts = all_parts(alloc, system, variables.as_slice())?;
    refused(alloc, system, sizes, variables.as_slice(), parts.as_slice())
}

/// The flat system of a system with its sizes, in words of this width, or the first rule that they break.
///
/// The variables stand in the order inputs, outputs, locals. Each output and local has one piece over its declared
/// domain, which is its equation's right side, node by node.
pub fn resolve(
    alloc: Global,
    system: &System,
    sizes: &[Size],
    width: Width,
) -> Result<Flat, NameFault>
    // The system is the tree of a text, and no value of a size is above 1048576.
    requires text { IsOfText (view_system system.now) }
    requires small { AreSmall sizes.now }

    // It is refused for the first rule that holds, unless memory runs out.
    ensures refused { (f : Fault) → result ≡ Err f
        → (f ≡ fault.Memory) ⊎ IsRefusal (view_system system.now) sizes.now f }
    ensures complete { (f : Fault) → IsRefusal (view_system system.now) sizes.now f
        → (result ≡ Err f) ⊎ (result ≡ Err fault.Memory) }
    ensures accepted { IfOk result (λ to. IsAccepted (view_system system.now) sizes.now) }

    // The flat system is that of the tree; it is well formed, and says what the tree says.
    ensures found { IfOk result (λ to. flat.view_system to
        ≡ flattened.flat_of (instance_of (view_system system.now) sizes.now width.bits)) }
    ensures well_formed { IfOk result (λ to. IsWellFormed (flat.view_system to)) }
    ensures same { IfOk result (λ to. SaysTheSame
        (instance_of (view_system system.now) sizes.now width.bits) (flat.view_system to)) }
{
    let fault = first_fault(alloc, system, sizes)?;
    match fault {
        Some(fault) => Err(fault),
        None => Ok(flat_of(alloc, system, sizes, width)?),
    }
}
