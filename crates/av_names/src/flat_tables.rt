//! The names of a system's variables and equations, for the building of its flat system.

ghost use Rattle.std.specs.Prelude.{◌≡◌, ◌≤◌, map, length, option_map, bytes_eq, IfOk};
ghost use Rattle.std.specs.Map.{lookup};
ghost use Rattle.av_tree.specs.Trees.{Text, view_equation, view_equations};
ghost use Rattle.av_names.specs.inner.Building.{place_or};
ghost use Rattle.av_names.specs.Flattened.{equation_of, place_of};

use av_base::Memory;
use av_table::NameMap;
use av_tree::{Declaration, Equation};
use std::alloc::Global;

/// The place of each variable, that of the first one of its name.
pub(crate) fn place_table<'a>(
    alloc: Global,
    variables: &[&'a Declaration],
) -> Result<NameMap<'a, u32>, Memory>
    requires { length variables.now ≤ 32 }
    ensures { IfOk result (λ table. (name : Text) → place_or (length variables.now) table name
        ≡ place_of (map (λ d. d.now) variables.now) name) }
{
    let mut table = NameMap::new(alloc);
    let mut place = 0;
    for variable in variables {
        table.insert(variable.name.as_str().as_bytes(), place)?;
        place += 1;
    }
    Ok(table)
}

/// The first equation of each name.
pub(crate) fn equation_table<'a>(
    alloc: Global,
    equations: &'a [Equation],
) -> Result<NameMap<'a, &'a Equation>, Memory>
    ensures { IfOk result (λ table. (name : Text)
        → option_map (λ e. view_equation e.now) (lookup (bytes_eq name) table)
        ≡ equation_of (view_equations equations.now) name) }
{
    let mut table = NameMap::new(alloc);
    for equation in equations {
        table.insert(equation.name.as_str().as_bytes(), equation)?;
    }
    Ok(table)
}
