//! Variables by name, and all parts of a system.

ghost use Rattle.std.specs.Prelude.{◌≡◌, find, map, bytes_eq, IfOk, option_map};
ghost use Rattle.std.specs.Map.{lookup};
ghost use Rattle.av_tree.specs.Trees.{Text, view_system};
ghost use Rattle.av_tree.specs.Domains as domains;
ghost use Rattle.av_names.specs.Parts as list;
ghost use Rattle.av_names.specs.inner.Seen.{part, names_at};

use crate::part::{Context, Part, gather};
use av_base::{Memory, Name};
use av_table::NameMap;
use av_tree::{Declaration, Equation, System};
use std::alloc::Global;

/// The first variable of each name.
pub(crate) fn by_name<'a>(
    alloc: Global,
    variables: &[&'a Declaration],
) -> Result<NameMap<'a, &'a Declaration>, Memory>
    ensures { IfOk result (λ table. (name : Text)
        → option_map (λ d. d.now) (lookup (bytes_eq name) table)
        ≡ find (λ d. bytes_eq d.name name) (map (λ d. d.now) variables.now)) }
{
    let mut table = NameMap::new(alloc);
    for variable in variables {
        table.insert(variable.name.as_str().as_bytes(), *variable)?;
    }
    Ok(table)
}

/// The index names of the variable of this name.
pub(crate) fn names_of<'a>(table: &NameMap<'a, &'a Declaration>, name: &Name) -> &'a [Name]
    ensures { result.now ≡ names_at
        (option_map (λ d. d.now) (lookup (bytes_eq name.now) table.now)) }
{
    match table.get(name.as_str().as_bytes()) {
        Some(variable) => variable.domain.names.as_slice(),
        None => &[],
    }
}

/// The index names over which an equation's right side stands.
pub(crate) fn context<'a>(
    table: &NameMap<'a, &'a Declaration>,
    equation: &'a Equation,
) -> &'a [Name]
    ensures { result.now ≡ domains.given_or (names_at (option_map
        (λ d. d.now) (lookup (bytes_eq equation.now.name) table.now))) equation.now.indices }
{
    match &equation.indices {
        Some(names) => names.as_slice(),
        None => names_of(table, &equation.name),
    }
}

/// The parts of all equations, in their order, with the variables in this table.
fn parts_over<'a>(
    alloc: Global,
    system: &'a System,
    table: &NameMap<'a, &'a Declaration>,
) -> Result<Vec<Part<'a>>, Memory>
    requires { (name : Text) → option_map (λ d. d.now) (lookup (bytes_eq name) table.now)
        ≡ find (λ d. bytes_eq d.name name) (domains.variables (view_system system.now)) }
    ensures { IfOk result (λ parts. map part parts.items ≡ list.parts (view_system system.now)) }
{
    let mut parts = Vec::new(alloc);
    for equation in system.equations.as_slice() {
        let names = context(table, equation);
        gather(&mut parts, Context::over(names), false, &equation.right)?;
    }
    Ok(parts)
}

/// The parts of all equations, in their order.
pub(crate) fn all_parts<'a>(
    alloc: Global,
    system: &'a System,
    variables: &[&'a Declaration],
) -> Result<Vec<Part<'a>>, Memory>
    requires { map (λ d. d.now) variables.now ≡ domains.variables (view_system system.now) }
    ensures { IfOk result (λ parts. map part parts.items ≡ list.parts (view_system system.now)) }
{
    let table = by_name(alloc, variables)?;
    parts_over(alloc, system, &table)
}
