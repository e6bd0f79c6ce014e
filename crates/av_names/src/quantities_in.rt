//! Quantities of the text against their limits.

ghost use Rattle.std.specs.Prelude.{◌≡◌, Some, map, length, bytes_eq, option_map, IfOk};
ghost use Rattle.std.specs.List.{flat_map};
ghost use Rattle.std.specs.Map.{lookup};
ghost use Rattle.av_tree.specs.Domains as domains;
ghost use Rattle.av_tree.specs.Trees.{view_equation, view_system};
ghost use Rattle.av_names.specs.Found as finds;
ghost use Rattle.av_names.specs.inner.AtOption.{at_option};
ghost use Rattle.av_names.specs.Parts as list;
ghost use Rattle.av_names.specs.Quantities as rules;
ghost use Rattle.av_names.specs.inner.Seen.{part, parts_by};
ghost use Rattle.av_names.specs.inner.Sums.{counted};

use crate::found::sooner;
use crate::index::{by_name, context};
use crate::measure::{Counted, number_of};
use crate::part::{Context, Part, gather};
use crate::rule::{Rule, TryRule, first_of, try_first_of};
use av_base::limits::{MOST_INDICES, MOST_NODES, MOST_VARIABLES};
use av_base::{Memory, Place};
use av_table::NameMap;
use av_tree::{Access, Declaration, Equation, Expr, MapText, System};
use std::alloc::Global;

/// The number of variables, where it is above the limit of 32.
pub(crate) fn too_many_variables(variables: &[&Declaration]) -> Option<u128>
    ensures { result ≡ rules.above 32 (length variables.now) }
{
    let count = variables.len();
    if count > MOST_VARIABLES {
        Some(count as u128)
    } else {
        None
    }
}

/// A length at a place, where it is above the limit.
fn exceeds(limit: usize, length: usize, place: Place) -> Option<Counted>
    ensures { option_map counted result
        ≡ rules.exceeds limit (record { number = length; place = place }) }
{
    if length > limit {
        Some(Counted {
            number: length as u128,
            place,
        })
    } else {
        None
    }
}

/// The names of a map before its results.
fn indices_of_map(map: &MapText) -> Option<Counted>
    ensures { option_map counted result
        ≡ finds.first_of (λ c. c.place) (rules.exceeds 4) (rules.of_map (Some map.now)) }
{
    let names = exceeds(MOST_INDICES, map.names.as_slice().len(), map.place);
    let results = exceeds(MOST_INDICES, map.results.as_slice().len(), map.place);
    sooner(names, results)
}

/// No list of index expressions or index names is longer than the limit of 4.
#[derive(Clone, Copy)]
struct IndexCountRule;

impl Rule<'_, &Declaration, Counted> for IndexCountRule {
    ghost gives = { λ _ variable fault. option_map counted fault
        ≡ rules.exceeds 4 (rules.of_declaration variable.now) };

    fn fault(&self, variable: &&Declaration) -> Option<Counted> {
        let domain = &variable.domain;
        exceeds(MOST_INDICES, domain.names.as_slice().len(), domain.place)
    }
}

impl Rule<'_, Equation, Counted> for IndexCountRule {
    ghost gives = { λ _ equation fault. option_map counted fault
        ≡ at_option (rules.exceeds 4) (rules.of_equation (view_equation equation)) };

    fn fault(&self, equation: &Equation) -> Option<Counted> {
        match &equation.indices {
            None => None,
            Some(names) => exceeds(MOST_INDICES, names.as_slice().len(), equation.place),
        }
    }
}

impl Rule<'_, Part<'_>, Counted> for IndexCountRule {
    ghost gives = { λ _ at fault. option_map counted fault
        ≡ finds.first_of (λ c. c.place) (rules.exceeds 4) (rules.of_part (part at)) };

    fn fault(&self, at: &Part<'_>) -> Option<Counted> {
        match at.expr {
            Expr::Restrict { domain, .. } => {
                exceeds(MOST_INDICES, domain.names.as_slice().len(), domain.place)
            }
            Expr::Ref {
                at: Access::Mapped(map),
                ..
            }
            | Expr::Const {
                at: Access::Mapped(map),
                ..
            }
            | Expr::Depend { map, .. }
            | Expr::Reduce { map, .. } => indices_of_map(map),
            _ => None,
        }
    }
}

/// The first number of indices that is above the limit of 4.
pub(crate) fn too_many_indices(
    system: &System,
    variables: &[&Declaration],
    parts: &[Part<'_>],
) -> Option<u128>
    requires variables { map (λ d. d.now) variables.now
        ≡ domains.variables (view_system system.now) }
    requires parts { map part parts.now ≡ list.parts (view_system system.now) }
    ensures { result ≡ rules.too_many_indices (view_system system.now) }
{
    let domain = first_of(&IndexCountRule, variables);
    let equation = first_of(&IndexCountRule, system.equations.as_slice());
    let part = first_of(&IndexCountRule, parts);
    number_of(sooner(sooner(domain, equation), part))
}

/// The right side of an equation has no more nodes, which are its parts, than the limit of 4096.
#[derive(Clone, Copy)]
struct NodeCountRule<'r, 'a> {
    alloc: Global,
    table: &'r NameMap<'a, &'a Declaration>,
}

impl TryRule<'_, Equation, Counted> for NodeCountRule<'_, '_> {
    ghost gives = { λ rule equation fault. option_map counted fault
        ≡ rules.exceeds 4096 (record {
          number = length (parts_by (lookup (bytes_eq equation.name) rule.table.now) equation);
          place = equation.place;
        }) };

    fn try_fault(&self, equation: &Equation) -> Result<Option<Counted>, Memory> {
        let mut parts = Vec::new(self.alloc);
        let names = context(self.table, equation);
        gather(&mut parts, Context::over(names), false, &equation.right)?;
        Ok(exceeds(MOST_NODES, parts.len(), equation.place))
    }
}

/// The first number of nodes of an equation that is above the limit of 4096.
pub(crate) fn too_many_nodes(
    alloc: Global,
    system: &System,
    variables: &[&Declaration],
) -> Result<Option<u128>, Memory>
    requires { map (λ d. d.now) variables.now ≡ domains.variables (view_system system.now) }
    ensures { IfOk result (λ number. number ≡ rules.too_many_nodes (view_system system.now)) }
{
    let table = by_name(alloc, variables)?;
    let rule = NodeCountRule {
        alloc,
        table: &table,
    };
    let first = try_first_of(&rule, system.equations.as_slice())?;
    Ok(number_of(first))
}
