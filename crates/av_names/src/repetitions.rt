//! Names that are declared a second time.

ghost use Rattle.std.specs.Prelude.{◌≡◌, ◌||◌, [], ◌∷◌, map, IfOk, OnOk, option_map};
ghost use Rattle.av_tree.specs.Domains as domains;
ghost use Rattle.av_tree.specs.Rows.{is_index};
ghost use Rattle.av_tree.specs.Trees.{view_equation, view_system};
ghost use Rattle.av_names.specs.inner.AtOption.{at_option};
ghost use Rattle.av_names.specs.Parts as list;
ghost use Rattle.av_names.specs.Repetitions as repeats;
ghost use Rattle.av_names.specs.inner.Repeating.{repeated_in_lists};
ghost use Rattle.av_names.specs.inner.Seen.{found, part, SameNames};

use crate::defined::declaration_found;
use crate::found::{Found, sooner};
use crate::name_sets::{first_again, is_among, put_name, set_of};
use crate::part::Part;
use crate::rule::{TryRule, try_first_of};
use av_base::{Memory, Name, Place};
use av_table::NameSet;
use av_tree::{Access, Declaration, DomainText, Equation, Expr, System};
use std::alloc::Global;

/// The first name that an earlier one of the list repeats.
pub(crate) fn second<'a>(alloc: Global, names: &'a [Name]) -> Result<Option<&'a Name>, Memory>
    ensures { IfOk result (λ name. option_map (λ n. n.now) name ≡ repeats.second [] names.now) }
{
    let mut before = NameSet::new(alloc);
    first_again(&mut before, names)
}

/// Puts a name into the set, and tells whether it was there or is a size.
fn is_repeated<'a>(
    behind: &mut NameSet<'a>,
    sizes: &NameSet<'_>,
    name: &'a Name,
) -> Result<bool, Memory>
    ensures repeated { IfOk result (λ yes.
        yes ≡ (is_index behind.old name.now || is_index sizes.now name.now)) }
    ensures names { OnOk result (SameNames behind.new (name.now ∷ behind.old)) }
{
    let added = put_name(behind, name)?;
    Ok(!added || is_among(sizes, name))
}

/// The first name that stands once more behind it, or is a size.
pub(crate) fn again<'a>(
    alloc: Global,
    sizes: &NameSet<'_>,
    names: &'a [Name],
) -> Result<Option<&'a Name>, Memory>
    ensures { IfOk result (λ name.
        option_map (λ n. n.now) name ≡ repeats.again sizes.now names.now) }
{
    let mut behind = NameSet::new(alloc);
    let mut first = None;
    let mut rest = names.len();
    while rest > 0 {
        rest -= 1;
        let name = &names[rest];
        if is_repeated(&mut behind, sizes, name)? {
            first = Some(name);
        }
    }
    Ok(first)
}

/// An index name that stands twice in its list, or is a size.
fn repeated_index<'a>(
    alloc: Global,
    sizes: &NameSet<'_>,
    names: &'a [Name],
    place: Place,
) -> Result<Option<Found<'a>>, Memory>
    ensures { IfOk result (λ first. option_map found first
        ≡ repeats.repeated_index sizes.now (record { names = names.now; place = place })) }
{
    match again(alloc, sizes, names)? {
        None => Ok(None),
        Some(name) => Ok(Some(Found { name, place })),
    }
}

/// A variable whose name is a size or that of an earlier variable.
pub(crate) fn repeated_variable<'a>(
    alloc: Global,
    sizes: &'a [Name],
    variables: &[&'a Declaration],
) -> Result<Option<Found<'a>>, Memory>
    ensures { IfOk result (λ first. option_map found first
        ≡ repeats.repeated_variable sizes.now (map (λ d. d.now) variables.now)) }
{
    let mut before = set_of(alloc, sizes)?;
    let twice = first_again(&mut before, variables)?;
    Ok(declaration_found(twice))
}

/// An index name stands once in its list, and is no size.
#[derive(Clone, Copy)]
struct RepetitionRule<'r, 'a> {
    alloc: Global,
    sizes: &'r NameSet<'a>,
}

impl<'a> TryRule<'_, &'a Declaration, Found<'a>> for RepetitionRule<'_, '_> {
    ghost gives = { λ rule variable fault. option_map found fault
        ≡ repeats.repeated_index rule.sizes.now (repeats.of_declaration variable.now) };

    fn try_fault(&self, variable: &&'a Declaration) -> Result<Option<Found<'a>>, Memory> {
        let domain = &variable.domain;
        let names = domain.names.as_slice();
        repeated_index(self.alloc, self.sizes, names, domain.place)
    }
}

impl<'a> TryRule<'a, Equation, Found<'a>> for RepetitionRule<'_, '_> {
    ghost gives = { λ rule equation fault. option_map found fault ≡ at_option
        (repeats.repeated_index rule.sizes.now) (repeats.of_equation (view_equation equation)) };

    fn try_fault(&self, equation: &'a Equation) -> Result<Option<Found<'a>>, Memory> {
        match &equation.indices {
            None => Ok(None),
            Some(names) => {
                repeated_index(self.alloc, self.sizes, names.as_slice(), equation.place)
            }
        }
    }
}

impl<'a> TryRule<'_, Part<'a>, Found<'a>> for RepetitionRule<'_, '_> {
    ghost gives = { λ rule at fault. option_map found fault
        ≡ at_option (repeats.repeated_index rule.sizes.now) (repeats.of_part (part at)) };

    fn try_fault(&self, at: &Part<'a>) -> Result<Option<Found<'a>>, Memory> {
        match at.expr {
            Expr::Restrict { domain, .. } => {
                let names = domain.names.as_slice();
                repeated_index(self.alloc, self.sizes, names, domain.place)
            }
            Expr::Ref {
                at: Access::Mapped(map),
                ..
            }
            | Expr::Const {
                at: Access::Mapped(map),
                ..
            }
            | Expr::Depend { map, .. }
            | Expr::Reduce { map, .. } => {
                repeated_index(self.alloc, self.sizes, map.names.as_slice(), map.place)
            }
            _ => Ok(None),
        }
    }
}

/// An index name of any list.
fn in_lists<'a>(
    alloc: Global,
    sizes: &NameSet<'_>,
    equations: &'a [Equation],
    variables: &[&'a Declaration],
    parts: &[Part<'a>],
) -> Result<Option<Found<'a>>, Memory>
    ensures { IfOk result (λ first. option_map found first
        ≡ repeated_in_lists sizes.now variables.now equations.now parts.now) }
{
    let rule = RepetitionRule { alloc, sizes };
    let domain = try_first_of(&rule, variables)?;
    let equation = try_first_of(&rule, equations)?;
    let part = try_first_of(&rule, parts)?;
    Ok(sooner(sooner(domain, equation), part))
}

/// A size that was declared before.
fn repeated_size<'a>(alloc: Global, sizes: &'a DomainText) -> Result<Option<Found<'a>>, Memory>
    ensures { IfOk result (λ first. option_map found first ≡ repeats.repeated_size sizes.now) }
{
    match second(alloc, sizes.names.as_slice())? {
        None => Ok(None),
        Some(name) => Ok(Some(Found {
            name,
            place: sizes.place,
        })),
    }
}

/// The first name that is declared a second time, where these are the sizes.
fn repeated_among<'a>(
    alloc: Global,
    sizes: &NameSet<'_>,
    system: &'a System,
    variables: &[&'a Declaration],
    parts: &[Part<'a>],
) -> Result<Option<Found<'a>>, Memory>
    requires sizes { SameNames sizes.now system.now.sizes.names }
    requires variables { map (λ d. d.now) variables.now
        ≡ domains.variables (view_system system.now) }
    requires parts { map part parts.now ≡ list.parts (view_system system.now) }
    ensures { IfOk result (λ first.
        option_map found first ≡ repeats.repeated (view_system system.now)) }
{
    let names = system.sizes.names.as_slice();
    let size = repeated_size(alloc, &system.sizes)?;
    let variable = repeated_variable(alloc, names, variables)?;
    let index = in_lists(alloc, sizes, system.equations.as_slice(), variables, parts)?;
    Ok(sooner(size, sooner(variable, index)))
}

/// The first name that is declared a second time.
pub(crate) fn repeated<'a>(
    alloc: Global,
    system: &'a System,
    variables: &[&'a Declaration],
    parts: &[Part<'a>],
) -> Result<Option<Found<'a>>, Memory>
    requires variables { map (λ d. d.now) variables.now
        ≡ domains.variables (view_system system.now) }
    requires parts { map part parts.now ≡ list.parts (view_system system.now) }
    ensures { IfOk result (λ first.
        option_map found first ≡ repeats.repeated (view_system system.now)) }
{
    let sizes = set_of(alloc, system.sizes.names.as_slice())?;
    repeated_among(alloc, &sizes, system, variables, parts)
}
