//! The variables and the parts of a system, each in one list.

ghost use Rattle.std.specs.Prelude.{◌≡◌, ◌++◌, [], map, IfOk, OnOk};
ghost use Rattle.av_tree.specs.Domains.{variables};
ghost use Rattle.av_tree.specs.Trees.{view_system};

use av_base::Memory;
use av_tree::{Declaration, System};
use std::alloc::Global;

/// All variables: inputs, outputs, locals.
pub(crate) fn all_variables<'a>(
    alloc: Global,
    system: &'a System,
) -> Result<Vec<&'a Declaration>, Memory>
    ensures { IfOk result (λ all. map (λ d. d.now) all.items ≡ variables (view_system system.now)) }
{
    let mut all = Vec::new(alloc);
    append(&mut all, system.inputs.as_slice())?;
    append(&mut all, system.outputs.as_slice())?;
    append(&mut all, system.locals.as_slice())?;
    Ok(all)
}

/// Outputs and locals.
pub(crate) fn computed_variables<'a>(
    alloc: Global,
    system: &'a System,
) -> Result<Vec<&'a Declaration>, Memory>
    ensures { IfOk result (λ all.
        map (λ d. d.now) all.items ≡ system.now.outputs ++ system.now.locals) }
{
    let mut all = Vec::new(alloc);
    append(&mut all, system.outputs.as_slice())?;
    append(&mut all, system.locals.as_slice())?;
    Ok(all)
}

fn append<'a>(all: &mut Vec<&'a Declaration>, declarations: &'a [Declaration]) -> Result<(), Memory>
    ensures { OnOk result (map (λ d. d.now) all.new.items
        ≡ map (λ d. d.now) all.old.items ++ declarations.now) }
{
    for declaration in declarations {
        all.push(declaration)?;
    }
    Ok(())
}
