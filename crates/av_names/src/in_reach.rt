//! Index names that are neither in reach nor sizes.

ghost use Rattle.std.specs.Prelude.{◌≡◌, Bool, [], drop, option_map, IfOk};
ghost use Rattle.av_tree.specs.Trees.{view, view_all};
ghost use Rattle.av_names.specs.Forms.{Context, names_or};
ghost use Rattle.av_names.specs.Found as finds;
ghost use Rattle.av_names.specs.Found.{first_found};
ghost use Rattle.av_names.specs.Parts as list;
ghost use Rattle.av_names.specs.inner.Seen.{found, SameNames};
ghost use Rattle.av_names.specs.Unknowns as rules;
ghost use Rattle.av_names.specs.Written.{behind, written_at};

use crate::found::{Found, sooner};
use crate::name_sets::{is_among, set_of};
use crate::rule::{Rule, first_of};
use av_base::{Memory, Name, Place};
use av_table::NameSet;
use av_tree::{Access, Constraint, DomainText, Expr, IndexExpr, MapText, Term};
use std::alloc::Global;

/// The name at the place, where the test holds.
pub(crate) fn found_where(test: bool, name: &Name, place: Place) -> Option<Found<'_>>
    ensures { option_map found result ≡ finds.found_where test name.now place }
{
    if test {
        Some(Found { name, place })
    } else {
        None
    }
}

/// An index expression names nothing but indices in reach and sizes.
#[derive(Clone, Copy)]
struct ReachRule<'a> {
    sizes: &'a NameSet<'a>,
    names: &'a NameSet<'a>,
}

impl<'a> Rule<'a, Term, Found<'a>> for ReachRule<'_> {
    ghost gives = { λ rule term fault.
        option_map found fault ≡ rules.unknown_term rule.sizes.now rule.names.now term };

    fn fault(&self, term: &'a Term) -> Option<Found<'a>> {
        match &term.name {
            None => None,
            Some(name) => {
                let unknown = !is_among(self.names, name) && !is_among(self.sizes, name);
                found_where(unknown, name, term.place)
            }
        }
    }
}

impl<'a> Rule<'a, IndexExpr, Found<'a>> for ReachRule<'_> {
    ghost gives = { λ rule entry fault.
        option_map found fault ≡ rules.unknown_index rule.sizes.now rule.names.now entry };

    fn fault(&self, entry: &'a IndexExpr) -> Option<Found<'a>> {
        first_of(self, entry.terms.as_slice())
    }
}

impl<'a> Rule<'a, Constraint, Found<'a>> for ReachRule<'_> {
    ghost gives = { λ rule constraint fault.
        option_map found fault ≡ rules.unknown_side rule.sizes.now rule.names.now constraint };

    fn fault(&self, constraint: &'a Constraint) -> Option<Found<'a>> {
        sooner(self.fault(&constraint.left), self.fault(&constraint.right))
    }
}

/// The first name in the index expressions that is in neither set.
fn unknown_in_indices<'a>(
    sizes: &NameSet<'_>,
    names: &NameSet<'_>,
    entries: &'a [IndexExpr],
) -> Option<Found<'a>>
    ensures { option_map found result
        ≡ first_found (rules.unknown_index sizes.now names.now) entries.now }
{
    first_of(&ReachRule { sizes, names }, entries)
}

/// The first name in the comparisons that is in neither set.
pub(crate) fn unknown_in_constraints<'a>(
    sizes: &NameSet<'_>,
    names: &NameSet<'_>,
    constraints: &'a [Constraint],
) -> Option<Found<'a>>
    ensures { option_map found result
        ≡ first_found (rules.unknown_side sizes.now names.now) constraints.now }
{
    first_of(&ReachRule { sizes, names }, constraints)
}

/// In the results of a map its own names are in reach.
fn unknown_in_map<'a>(
    alloc: Global,
    sizes: &NameSet<'_>,
    map: &'a MapText,
) -> Result<Option<Found<'a>>, Memory>
    ensures { IfOk result (λ first. option_map found first
        ≡ first_found (rules.unknown_index sizes.now map.now.names) map.now.results) }
{
    let names = set_of(alloc, map.names.as_slice())?;
    Ok(unknown_in_indices(sizes, &names, map.results.as_slice()))
}

/// In a domain its own names are in reach.
pub(crate) fn unknown_in_domain<'a>(
    alloc: Global,
    sizes: &NameSet<'_>,
    domain: &'a DomainText,
) -> Result<Option<Found<'a>>, Memory>
    ensures { IfOk result (λ first. option_map found first
        ≡ first_found (rules.unknown_side sizes.now domain.now.names) domain.now.constraints) }
{
    let names = set_of(alloc, domain.names.as_slice())?;
    let constraints = domain.constraints.as_slice();
    Ok(unknown_in_constraints(sizes, &names, constraints))
}

/// In a restriction its own names are in reach, or those of the context where it has none.
fn unknown_in_restriction<'a>(
    alloc: Global,
    sizes: &NameSet<'_>,
    context: &NameSet<'_>,
    domain: &'a DomainText,
) -> Result<Option<Found<'a>>, Memory>
    ensures { IfOk result (λ first. option_map found first ≡ first_found (rules.unknown_side
        sizes.now (names_or context.now domain.now.names)) domain.now.constraints) }
{
    if domain.names.as_slice().is_empty() {
        let constraints = domain.constraints.as_slice();
        Ok(unknown_in_constraints(sizes, context, constraints))
    } else {
        unknown_in_domain(alloc, sizes, domain)
    }
}

/// In what is written behind a reference or a number.
fn unknown_in_access<'a>(
    alloc: Global,
    sizes: &NameSet<'_>,
    context: &NameSet<'_>,
    at: &'a Access,
) -> Result<Option<Found<'a>>, Memory>
    ensures { IfOk result (λ first. (c : Context) → SameNames context.now c.names
        → option_map found first ≡ rules.unknown_written sizes.now (behind c at.now)) }
{
    match at {
        Access::Here => Ok(None),
        Access::Indices(entries) => Ok(unknown_in_indices(sizes, context, entries.as_slice())),
        Access::Mapped(map) => unknown_in_map(alloc, sizes, map),
    }
}

/// In what is written at the head of an expression.
fn unknown_at_head<'a>(
    alloc: Global,
    sizes: &NameSet<'_>,
    context: &NameSet<'_>,
    expr: &'a Expr,
) -> Result<Option<Found<'a>>, Memory>
    ensures { IfOk result (λ first. (c : Context) (reduced : Bool) → SameNames context.now c.names
        → option_map found first ≡ rules.unknown_written sizes.now (written_at
        (record { context = c; reduced = reduced; expression = view expr.now }))) }
{
    match expr {
        Expr::Ref { at, .. } | Expr::Const { at, .. } => {
            unknown_in_access(alloc, sizes, context, at)
        }
        Expr::Restrict { domain, .. } => unknown_in_restriction(alloc, sizes, context, domain),
        Expr::Depend { map, .. } | Expr::Reduce { map, .. } => unknown_in_map(alloc, sizes, map),
        _ => Ok(None),
    }
}

/// In an expression and all that stands in it. Each context's set of names is made once.
#[cycle(inside)]
pub(crate) fn unknown_inside<'a>(
    alloc: Global,
    sizes: &NameSet<'_>,
    context: &NameSet<'_>,
    expr: &'a Expr,
) -> Result<Option<Found<'a>>, Memory>
    ensures { IfOk result (λ first. (c : Context) (reduced : Bool)
        → SameNames context.now c.names → option_map found first ≡ first_found (λ p.
        rules.unknown_written sizes.now (written_at p)) (list.parts_of reduced c (view expr.now))) }
{
    let head = unknown_at_head(alloc, sizes, context, expr)?;
    let below = unknown_below(alloc, sizes, context, expr)?;
    Ok(sooner(head, below))
}

/// In what stands in an expression, behind its head.
#[cycle(inside)]
fn unknown_below<'a>(
    alloc: Global,
    sizes: &NameSet<'_>,
    context: &NameSet<'_>,
    expr: &'a Expr,
) -> Result<Option<Found<'a>>, Memory>
    ensures { IfOk result (λ first. (c : Context) (reduced : Bool) → SameNames context.now c.names
        → option_map found first ≡ first_found (λ p. rules.unknown_written sizes.now
        (written_at p)) (drop 1 (list.parts_of reduced c (view expr.now)))) }
{
    match expr {
        Expr::Ref { .. } => Ok(None),
        Expr::Const { .. } => Ok(None),
        Expr::Binary { left, right, .. } => {
            let left = unknown_inside(alloc, sizes, context, left)?;
            let right = unknown_inside(alloc, sizes, context, right)?;
            Ok(sooner(left, right))
        }
        Expr::Choose {
            left,
            right,
            yes,
            no,
            ..
        } => {
            let left = unknown_inside(alloc, sizes, context, left)?;
            let right = unknown_inside(alloc, sizes, context, right)?;
            let yes = unknown_inside(alloc, sizes, context, yes)?;
            let no = unknown_inside(alloc, sizes, context, no)?;
            let choices = sooner(yes, no);
            Ok(sooner(left, sooner(right, choices)))
        }
        Expr::Restrict { body, .. } => unknown_inside(alloc, sizes, context, body),
        Expr::Case { branches, .. } => {
            unknown_inside_all(alloc, sizes, context, branches.as_slice())
        }
        Expr::Depend { body, .. } => unknown_over(alloc, sizes, &[], body),
        Expr::Reduce { map, body, .. } => unknown_over(alloc, sizes, map.names.as_slice(), body),
    }
}

/// In an expression that stands over these names.
#[cycle(inside)]
fn unknown_over<'a>(
    alloc: Global,
    sizes: &NameSet<'_>,
    names: &[Name],
    expr: &'a Expr,
) -> Result<Option<Found<'a>>, Memory>
    ensures { IfOk result (λ first. (c : Context) (reduced : Bool)
        → SameNames names.now c.names → option_map found first ≡ first_found (λ p.
        rules.unknown_written sizes.now (written_at p)) (list.parts_of reduced c (view expr.now))) }
{
    let context = set_of(alloc, names)?;
    unknown_inside(alloc, sizes, &context, expr)
}

#[cycle(inside)]
fn unknown_inside_all<'a>(
    alloc: Global,
    sizes: &NameSet<'_>,
    context: &NameSet<'_>,
    branches: &'a [Expr],
) -> Result<Option<Found<'a>>, Memory>
    ensures { IfOk result (λ first. (c : Context) (reduced : Bool) → SameNames context.now c.names
        → option_map found first ≡ first_found (λ p. rules.unknown_written sizes.now
        (written_at p)) (list.parts_of_all reduced c (view_all branches.now))) }
{
    let mut first = None;
    for branch in branches {
        let next = unknown_inside(alloc, sizes, context, branch)?;
        first = sooner(first, next);
    }
    Ok(first)
}
