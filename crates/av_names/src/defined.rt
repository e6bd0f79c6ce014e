//! Which variable has an equation.

ghost use Rattle.std.specs.Prelude.{◌≡◌, ◌++◌, [], not, find, IfOk, option_map};
ghost use Rattle.av_tree.specs.Rows.{is_index};
ghost use Rattle.av_tree.specs.Trees.{view_equation, view_system};
ghost use Rattle.av_names.specs.Equations as rules;
ghost use Rattle.av_names.specs.inner.Seen.{found, equations_seen};

use crate::found::Found;
use crate::name_sets::{first_again, first_among, first_outside, names_of};
use crate::tables::computed_variables;
use av_base::Memory;
use av_table::NameSet;
use av_tree::{Declaration, Equation, System};
use std::alloc::Global;

/// The name and the place of the equation.
fn equation_found(equation: Option<&Equation>) -> Option<Found<'_>>
    ensures { option_map found result
        ≡ option_map (λ e. rules.equation_found (view_equation e.now)) equation.entry }
{
    match equation {
        Some(equation) => Some(Found {
            name: &equation.name,
            place: equation.place,
        }),
        None => None,
    }
}

/// The name and the place of the variable's declaration.
pub(crate) fn declaration_found<'a>(variable: Option<&&'a Declaration>) -> Option<Found<'a>>
    ensures { option_map found result
        ≡ option_map (λ d. rules.declaration_found d.now.now) variable.entry }
{
    match variable {
        Some(variable) => Some(Found {
            name: &variable.name,
            place: variable.place,
        }),
        None => None,
    }
}

/// The first equation of an input.
pub(crate) fn defines_input<'a>(
    alloc: Global,
    system: &'a System,
) -> Result<Option<Found<'a>>, Memory>
    ensures { IfOk result (λ first.
        option_map found first ≡ rules.defines_input (view_system system.now)) }
{
    let inputs = names_of(alloc, system.inputs.as_slice())?;
    let first = first_among(&inputs, system.equations.as_slice());
    Ok(equation_found(first))
}

/// The first output or local without an equation.
pub(crate) fn no_equation<'a>(
    alloc: Global,
    system: &'a System,
) -> Result<Option<Found<'a>>, Memory>
    ensures { IfOk result (λ first.
        option_map found first ≡ rules.no_equation (view_system system.now)) }
{
    let names = names_of(alloc, system.equations.as_slice())?;
    computed_without(alloc, &names, system)
}

/// The first output or local whose name is not in the set.
fn computed_without<'a>(
    alloc: Global,
    names: &NameSet<'_>,
    system: &'a System,
) -> Result<Option<Found<'a>>, Memory>
    ensures { IfOk result (λ first. option_map found first ≡ option_map rules.declaration_found
        (find (λ d. not (is_index names.now d.name)) (system.now.outputs ++ system.now.locals))) }
{
    let computed = computed_variables(alloc, system)?;
    let first = first_outside(names, computed.as_slice());
    Ok(declaration_found(first))
}

/// The first equation whose variable has one already.
pub(crate) fn second_equation<'a>(
    alloc: Global,
    equations: &'a [Equation],
) -> Result<Option<Found<'a>>, Memory>
    ensures { IfOk result (λ first.
        option_map found first ≡ rules.second_equation [] (equations_seen equations.now)) }
{
    let mut before = NameSet::new(alloc);
    let twice = first_again(&mut before, equations)?;
    Ok(equation_found(twice))
}
