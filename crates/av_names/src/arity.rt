//! Where another number of indices stands than must stand there.

ghost use Rattle.std.specs.Prelude.{◌≡◌, map, length, bytes_eq, IfOk, option_map};
ghost use Rattle.std.specs.Map.{lookup};
ghost use Rattle.av_tree.specs.Domains as domains;
ghost use Rattle.av_tree.specs.Trees.{view_system};
ghost use Rattle.av_names.specs.Arities as rules;
ghost use Rattle.av_names.specs.Parts as list;
ghost use Rattle.av_names.specs.Found as finds;
ghost use Rattle.av_names.specs.inner.Seen.{context as seen, part, names_at};

use crate::found::sooner;
use crate::index::{by_name, names_of};
use crate::part::{Context, Part};
use crate::rule::{Rule, first_of};
use av_base::{Memory, Name, Place};
use av_table::NameMap;
use av_tree::{Access, Declaration, Equation, Expr, System};
use std::alloc::Global;

fn place_where(test: bool, place: Place) -> Option<Place>
    ensures { result ≡ finds.place_where test place }
{
    if test { Some(place) } else { None }
}

fn reference_arity(context: Context<'_>, indices: usize, at: &Access, place: Place) -> Option<Place>
    ensures { result ≡ rules.reference_arity (seen context.entry) indices at.now place }
{
    match at {
        Access::Here => place_where(context.indices != indices, place),
        Access::Indices(entries) => place_where(entries.as_slice().len() != indices, place),
        Access::Mapped(map) => {
            let names = map.names.as_slice().len();
            let results = map.results.as_slice().len();
            place_where(names != context.indices || results != indices, map.place)
        }
    }
}

fn constant_arity(context: Context<'_>, at: &Access) -> Option<Place>
    ensures { result ≡ rules.constant_arity (seen context.entry) at.now }
{
    match at {
        Access::Mapped(map) => {
            let names = map.names.as_slice().len();
            place_where(names != context.indices, map.place)
        }
        _ => None,
    }
}

fn restriction_arity(context: Context<'_>, names: &[Name], place: Place) -> Option<Place>
    ensures { result ≡ rules.restriction_arity (seen context.entry) names.now place }
{
    if names.is_empty() {
        None
    } else {
        place_where(names.len() != context.indices, place)
    }
}

/// As many indices stand at an equation or a part as must stand there.
#[derive(Clone, Copy)]
struct ArityRule<'r, 'a> {
    table: &'r NameMap<'a, &'a Declaration>,
}

impl Rule<'_, Part<'_>, Place> for ArityRule<'_, '_> {
    ghost gives = { λ rule at fault. fault ≡ rules.expression_arity (λ name. length
        (names_at (option_map (λ d. d.now) (lookup (bytes_eq name) rule.table.now))))
        (part at).context (part at).expression };

    fn fault(&self, at: &Part<'_>) -> Option<Place> {
        let context = at.context;
        match at.expr {
            Expr::Ref { name, at, place } => {
                reference_arity(context, names_of(self.table, name).len(), at, *place)
            }
            Expr::Const { at, .. } => constant_arity(context, at),
            Expr::Restrict { domain, .. } => {
                restriction_arity(context, domain.names.as_slice(), domain.place)
            }
            Expr::Depend { map, .. } => {
                let names = map.names.as_slice().len();
                place_where(names != context.indices, map.place)
            }
            Expr::Reduce { map, .. } => {
                let results = map.results.as_slice().len();
                place_where(results != context.indices, map.place)
            }
            _ => None,
        }
    }
}

impl Rule<'_, Equation, Place> for ArityRule<'_, '_> {
    ghost gives = { λ rule equation fault. fault ≡ rules.listed_arity equation.place (length
        (names_at (option_map (λ d. d.now) (lookup (bytes_eq equation.name) rule.table.now))))
        equation.indices };

    fn fault(&self, equation: &Equation) -> Option<Place> {
        match &equation.indices {
            None => None,
            Some(names) => {
                let indices = names_of(self.table, &equation.name).len();
                place_where(names.as_slice().len() != indices, equation.place)
            }
        }
    }
}

/// The first place at which another number of indices stands than must stand there.
pub(crate) fn arity<'a>(
    alloc: Global,
    system: &'a System,
    variables: &[&'a Declaration],
    parts: &[Part<'a>],
) -> Result<Option<Place>, Memory>
    requires variables { map (λ d. d.now) variables.now
        ≡ domains.variables (view_system system.now) }
    requires parts { map part parts.now ≡ list.parts (view_system system.now) }
    ensures { IfOk result (λ first. first ≡ rules.arity (view_system system.now)) }
{
    let table = by_name(alloc, variables)?;
    let rule = ArityRule { table: &table };
    let equation = first_of(&rule, system.equations.as_slice());
    let part = first_of(&rule, parts);
    Ok(sooner(equation, part))
}
