//! Names that nothing declares.

ghost use Rattle.std.specs.Prelude.{◌≡◌, [], map, not, bytes_eq, option_map, IfOk};
ghost use Rattle.std.specs.Map.{lookup};
ghost use Rattle.av_tree.specs.Domains as domains;
ghost use Rattle.av_tree.specs.Rows.{is_index};
ghost use Rattle.av_tree.specs.Trees.{view, view_system};
ghost use Rattle.av_names.specs.Found as finds;
ghost use Rattle.av_names.specs.Found.{first_found};
ghost use Rattle.av_names.specs.Parts as list;
ghost use Rattle.av_names.specs.inner.Seen.{found, part, parts_by, SameNames};
ghost use Rattle.av_names.specs.Unknowns as rules;
ghost use Rattle.av_names.specs.Written.{written_at, all_written};

use crate::found::{Found, sooner};
use crate::in_reach::{found_where, unknown_in_constraints, unknown_in_domain, unknown_inside};
use crate::index::{by_name, context};
use crate::name_sets::{is_among, names_of, set_of};
use crate::part::Part;
use crate::rule::{Rule, TryRule, first_of, try_first_of};
use av_base::Memory;
use av_table::{NameMap, NameSet};
use av_tree::{Declaration, DomainText, Equation, Expr, System};
use std::alloc::Global;

/// An equation or a reference has the name of a variable.
#[derive(Clone, Copy)]
struct VariableRule<'r, 'a> {
    variables: &'r NameSet<'a>,
}

impl<'a> Rule<'a, Equation, Found<'a>> for VariableRule<'_, '_> {
    ghost gives = { λ rule equation fault. option_map found fault ≡ finds.found_where
        (not (is_index rule.variables.now equation.name)) equation.name equation.place };

    fn fault(&self, equation: &'a Equation) -> Option<Found<'a>> {
        let unknown = !is_among(self.variables, &equation.name);
        found_where(unknown, &equation.name, equation.place)
    }
}

impl<'a> Rule<'_, Part<'a>, Found<'a>> for VariableRule<'_, '_> {
    ghost gives = { λ rule at fault. option_map found fault
        ≡ rules.unknown_variable rule.variables.now (part at).expression };

    fn fault(&self, at: &Part<'a>) -> Option<Found<'a>> {
        match at.expr {
            Expr::Ref { name, place, .. } => {
                found_where(!is_among(self.variables, name), name, *place)
            }
            _ => None,
        }
    }
}

/// The index expressions of a declared domain name nothing but its indices and sizes.
#[derive(Clone, Copy)]
struct DomainRule<'r, 'a> {
    alloc: Global,
    sizes: &'r NameSet<'a>,
}

impl<'a> TryRule<'_, &'a Declaration, Found<'a>> for DomainRule<'_, '_> {
    ghost gives = { λ rule variable fault. option_map found fault ≡ first_found
        (rules.unknown_side rule.sizes.now variable.now.domain.names)
        variable.now.domain.constraints };

    fn try_fault(&self, variable: &&'a Declaration) -> Result<Option<Found<'a>>, Memory> {
        unknown_in_domain(self.alloc, self.sizes, &variable.domain)
    }
}

/// The index expressions of an equation's right side name nothing but indices in reach and sizes.
#[derive(Clone, Copy)]
struct RightSideRule<'r, 'a> {
    alloc: Global,
    sizes: &'r NameSet<'a>,
    table: &'r NameMap<'a, &'a Declaration>,
}

impl<'a> TryRule<'a, Equation, Found<'a>> for RightSideRule<'_, '_> {
    ghost gives = { λ rule equation fault. option_map found fault
        ≡ first_found (λ p. rules.unknown_written rule.sizes.now (written_at p))
        (parts_by (lookup (bytes_eq equation.name) rule.table.now) equation) };

    fn try_fault(&self, equation: &'a Equation) -> Result<Option<Found<'a>>, Memory> {
        let names = set_of(self.alloc, context(self.table, equation))?;
        unknown_inside(self.alloc, self.sizes, &names, &equation.right)
    }
}

/// In the constraints of the parameter domain, where no index is in reach.
fn unknown_in_sizes<'a>(
    alloc: Global,
    sizes: &NameSet<'_>,
    domain: &'a DomainText,
) -> Option<Found<'a>>
    ensures { option_map found result
        ≡ first_found (rules.unknown_side sizes.now []) domain.now.constraints }
{
    let nothing = NameSet::new(alloc);
    unknown_in_constraints(sizes, &nothing, domain.constraints.as_slice())
}

/// In all parts of the right sides.
fn unknown_in_parts<'a>(
    alloc: Global,
    sizes: &NameSet<'_>,
    system: &'a System,
    variables: &[&'a Declaration],
) -> Result<Option<Found<'a>>, Memory>
    requires { map (λ d. d.now) variables.now ≡ domains.variables (view_system system.now) }
    ensures { IfOk result (λ first. option_map found first ≡ first_found
        (rules.unknown_written sizes.now) (map written_at (list.parts (view_system system.now)))) }
{
    let table = by_name(alloc, variables)?;
    let rule = RightSideRule {
        alloc,
        sizes,
        table: &table,
    };
    try_first_of(&rule, system.equations.as_slice())
}

/// The first name in index expressions that is neither an index in reach nor among these sizes.
fn unknown_index_among<'a>(
    alloc: Global,
    sizes: &NameSet<'_>,
    system: &'a System,
    variables: &[&'a Declaration],
) -> Result<Option<Found<'a>>, Memory>
    requires sizes { SameNames sizes.now system.now.sizes.names }
    requires variables { map (λ d. d.now) variables.now
        ≡ domains.variables (view_system system.now) }
    ensures { IfOk result (λ first. option_map found first ≡ first_found
        (rules.unknown_written system.now.sizes.names) (all_written (view_system system.now))) }
{
    let outer = unknown_in_sizes(alloc, sizes, &system.sizes);
    let domain = try_first_of(&DomainRule { alloc, sizes }, variables)?;
    let right = unknown_in_parts(alloc, sizes, system, variables)?;
    Ok(sooner(outer, sooner(domain, right)))
}

/// The first name in index expressions that is neither an index in reach nor a size.
fn unknown_index<'a>(
    alloc: Global,
    system: &'a System,
    variables: &[&'a Declaration],
) -> Result<Option<Found<'a>>, Memory>
    requires { map (λ d. d.now) variables.now ≡ domains.variables (view_system system.now) }
    ensures { IfOk result (λ first. option_map found first ≡ first_found
        (rules.unknown_written system.now.sizes.names) (all_written (view_system system.now))) }
{
    let sizes = set_of(alloc, system.sizes.names.as_slice())?;
    unknown_index_among(alloc, &sizes, system, variables)
}

/// The first name that nothing declares.
pub(crate) fn unknown<'a>(
    alloc: Global,
    system: &'a System,
    variables: &[&'a Declaration],
    parts: &[Part<'a>],
) -> Result<Option<Found<'a>>, Memory>
    requires variables { map (λ d. d.now) variables.now
        ≡ domains.variables (view_system system.now) }
    requires parts { map part parts.now ≡ list.parts (view_system system.now) }
    ensures { IfOk result (λ first.
        option_map found first ≡ rules.unknown (view_system system.now)) }
{
    let known = names_of(alloc, variables)?;
    let rule = VariableRule { variables: &known };
    let equation = first_of(&rule, system.equations.as_slice());
    let reference = first_of(&rule, parts);
    let index = unknown_index(alloc, system, variables)?;
    Ok(sooner(equation, sooner(reference, index)))
}
