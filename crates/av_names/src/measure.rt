//! The greatest coefficients and constants of the text, against their limits.

ghost use Rattle.std.specs.Prelude.{◌≡◌, ◌-ℤ◌, map, option_map, All, IfOk};
ghost use Rattle.av_tree.specs.Domains as domains;
ghost use Rattle.av_tree.specs.Rows as rows;
ghost use Rattle.av_tree.specs.Points.{Sizes};
ghost use Rattle.av_tree.specs.Trees.{System as Spelled, view_system};
ghost use Rattle.av_names.specs.Found as finds;
ghost use Rattle.av_names.specs.Parts as list;
ghost use Rattle.av_names.specs.Quantities as rules;
ghost use Rattle.av_names.specs.inner.Seen.{part};
ghost use Rattle.av_names.specs.Sizes.{sizes_of};
ghost use Rattle.av_names.specs.inner.Sums as seen;
ghost use Rattle.av_names.specs.inner.Sums.{sizes_in, HasSmallValues, limit_of};
ghost use Rattle.av_names.specs.Texts.{AreSmall, IsOfText};
ghost use Rattle.av_names.specs.inner.ShortSums.{AreShort, HasShortTerms, HasShortSides, IsShortWritten};
ghost use Rattle.av_names.specs.Written.{all_written};

use crate::Size;
use crate::found::{HasPlace, sooner};
use crate::part::Part;
use crate::rule::{Rule, first_of};
use crate::size_table::size_table;
use crate::sums::{coefficient, coefficient_between, constant, constant_between};
use crate::written::{Written, written_all};
use av_base::limits::{MOST_COEFFICIENT, MOST_CONSTANT};
use av_base::{Memory, Name, Place};
use av_table::NameMap;
use av_tree::{Constraint, Declaration, IndexExpr, Relation, System, Term};
use std::alloc::Global;

/// Which numbers of rows and results of maps are measured.
#[derive(Clone, Copy)]
pub(crate) enum Measure {
    Coefficient,
    Constant,
}

/// A number with the place of what has it.
#[derive(Clone, Copy)]
pub(crate) struct Counted {
    pub(crate) number: u128,
    pub(crate) place: Place,
}

impl HasPlace for Counted {
    ghost use Rattle.av_names.specs.Quantities.{Counted as CountedSeen};

    ghost Value = { CountedSeen };

    ghost value = { seen.counted };

    ghost place_of = { λ c. c.place };

    fn place(&self) -> Place {
        self.place
    }
}

fn limit(measure: Measure) -> u128
    ensures { result ≡ limit_of measure }
{
    match measure {
        Measure::Coefficient => MOST_COEFFICIENT as u128,
        Measure::Constant => MOST_CONSTANT as u128,
    }
}

fn exceeding(measure: Measure, number: u128, place: Place) -> Option<Counted>
    ensures { option_map seen.counted result
        ≡ rules.exceeds (limit_of measure) (record { number = number; place = place }) }
{
    if number > limit(measure) {
        Some(Counted { number, place })
    } else {
        None
    }
}

fn greatest_of_terms(names: &[Name], terms: &[Term]) -> u128
    requires { AreShort terms.now }
    ensures { result ≡ rules.greatest (map (rows.coefficient terms.now) names.now) }
{
    let mut most: u128 = 0;
    for name in names {
        let size = coefficient(terms, name).unsigned_abs();
        most = most.max(size);
    }
    most
}

fn greatest_of_differences(names: &[Name], left: &[Term], right: &[Term]) -> u128
    requires left { AreShort left.now }
    requires right { AreShort right.now }
    ensures { result ≡ rules.greatest (map
        (λ name. rows.coefficient left.now name -ℤ rows.coefficient right.now name) names.now) }
{
    let mut most: u128 = 0;
    for name in names {
        let size = coefficient_between(left, right, name).unsigned_abs();
        most = most.max(size);
    }
    most
}

/// The greatest coefficient of the rows of a comparison.
fn row_coefficient(names: &[Name], constraint: &Constraint) -> u128
    requires { HasShortSides constraint.now }
    ensures { (sizes : Sizes)
        → result ≡ (rules.row_coefficient sizes names.now constraint.now).number }
{
    match constraint.relation {
        Relation::Unequal => 0,
        _ => greatest_of_differences(
            names,
            constraint.left.terms.as_slice(),
            constraint.right.terms.as_slice(),
        ),
    }
}

/// The greatest constant of the rows of a comparison.
fn row_constant(sizes: &NameMap<'_, i64>, names: &[Name], constraint: &Constraint) -> u128
    requires short { HasShortSides constraint.now }
    requires sizes { HasSmallValues (sizes_in sizes.now) }
    ensures { result ≡ (rules.row_constant (sizes_in sizes.now) names.now constraint.now).number }
{
    let left = constraint.left.terms.as_slice();
    let right = constraint.right.terms.as_slice();
    match constraint.relation {
        Relation::Less => constant_between(sizes, names, right, left, 1).unsigned_abs(),
        Relation::Greater => constant_between(sizes, names, left, right, 1).unsigned_abs(),
        Relation::LessEqual | Relation::GreaterEqual | Relation::Equal => {
            constant_between(sizes, names, left, right, 0).unsigned_abs()
        }
        Relation::Unequal => 0,
    }
}

fn index_number(
    measure: Measure,
    sizes: &NameMap<'_, i64>,
    names: &[Name],
    entry: &IndexExpr,
) -> u128
    requires short { HasShortTerms entry.now }
    requires sizes { HasSmallValues (sizes_in sizes.now) }
    ensures { result ≡ (seen.of_index measure (sizes_in sizes.now) names.now entry.now).number }
{
    let terms = entry.terms.as_slice();
    match measure {
        Measure::Coefficient => greatest_of_terms(names, terms),
        Measure::Constant => constant(sizes, names, terms).unsigned_abs(),
    }
}

fn row_number(
    measure: Measure,
    sizes: &NameMap<'_, i64>,
    names: &[Name],
    constraint: &Constraint,
) -> u128
    requires short { HasShortSides constraint.now }
    requires sizes { HasSmallValues (sizes_in sizes.now) }
    ensures { result ≡ (seen.of_row measure (sizes_in sizes.now) names.now constraint.now).number }
{
    match measure {
        Measure::Coefficient => row_coefficient(names, constraint),
        Measure::Constant => row_constant(sizes, names, constraint),
    }
}

/// No number of an index expression or a comparison over these names is above the limit.
#[derive(Clone, Copy)]
struct OverNamesRule<'a> {
    measure: Measure,
    sizes: &'a NameMap<'a, i64>,
    names: &'a [Name],
}

impl Rule<'_, IndexExpr, Counted> for OverNamesRule<'_> {
    ghost takes = { λ rule entry. HasShortTerms entry × HasSmallValues (sizes_in rule.sizes.now) };

    ghost gives = { λ rule entry fault. option_map seen.counted fault
        ≡ rules.exceeds (limit_of rule.measure)
        (seen.of_index rule.measure (sizes_in rule.sizes.now) rule.names.now entry) };

    fn fault(&self, entry: &IndexExpr) -> Option<Counted> {
        let number = index_number(self.measure, self.sizes, self.names, entry);
        exceeding(self.measure, number, entry.place)
    }
}

impl Rule<'_, Constraint, Counted> for OverNamesRule<'_> {
    ghost takes = { λ rule constraint.
        HasShortSides constraint × HasSmallValues (sizes_in rule.sizes.now) };

    ghost gives = { λ rule constraint fault. option_map seen.counted fault
        ≡ rules.exceeds (limit_of rule.measure)
        (seen.of_row rule.measure (sizes_in rule.sizes.now) rule.names.now constraint) };

    fn fault(&self, constraint: &Constraint) -> Option<Counted> {
        let number = row_number(self.measure, self.sizes, self.names, constraint);
        exceeding(self.measure, number, constraint.left.place)
    }
}

/// No number of what is written at a place of the text is above the limit.
#[derive(Clone, Copy)]
struct NumberRule<'a> {
    measure: Measure,
    sizes: &'a NameMap<'a, i64>,
}

impl Rule<'_, Written<'_>, Counted> for NumberRule<'_> {
    ghost takes = { λ rule written.
        IsShortWritten (seen.written written) × HasSmallValues (sizes_in rule.sizes.now) };

    ghost gives = { λ rule written fault. option_map seen.counted fault
        ≡ finds.first_of (λ c. c.place) (rules.exceeds (limit_of rule.measure))
        (seen.numbers_of rule.measure (sizes_in rule.sizes.now) (seen.written written)) };

    fn fault(&self, written: &Written<'_>) -> Option<Counted> {
        let rule = OverNamesRule {
            measure: self.measure,
            sizes: self.sizes,
            names: written.names,
        };
        let index = first_of(&rule, written.indices);
        let row = first_of(&rule, written.constraints);
        sooner(index, row)
    }
}

/// The greatest number of the first object of the text that is above the limit.
fn great(measure: Measure, sizes: &NameMap<'_, i64>, all: &[Written<'_>]) -> Option<u128>
    requires short { All (λ w. IsShortWritten (seen.written w)) all.now }
    requires sizes { HasSmallValues (sizes_in sizes.now) }
    ensures { (s : Spelled) → map seen.written all.now ≡ all_written s
        → result ≡ seen.great measure s (sizes_in sizes.now) }
{
    number_of(first_of(&NumberRule { measure, sizes }, all))
}

/// The number alone.
pub(crate) fn number_of(counted: Option<Counted>) -> Option<u128>
    ensures { result ≡ option_map (λ c. c.number) (option_map seen.counted counted) }
{
    match counted {
        Some(counted) => Some(counted.number),
        None => None,
    }
}

fn great_number<'a>(
    alloc: Global,
    measure: Measure,
    system: &'a System,
    sizes: &[Size],
    variables: &[&'a Declaration],
    parts: &[Part<'a>],
) -> Result<Option<u128>, Memory>
    requires text { IsOfText (view_system system.now) }
    requires small { AreSmall sizes.now }
    requires variables { map (λ d. d.now) variables.now
        ≡ domains.variables (view_system system.now) }
    requires parts { map part parts.now ≡ list.parts (view_system system.now) }
    ensures { IfOk result (λ n.
        n ≡ seen.great measure (view_system system.now) (sizes_of sizes.now)) }
{
    let table = size_table(alloc, sizes)?;
    let all = written_all(alloc, system, variables, parts)?;
    Ok(great(measure, &table, all.as_slice()))
}

/// The greatest coefficient of the first row or result in the text with one above 1,024.
pub(crate) fn great_coefficient<'a>(
    alloc: Global,
    system: &'a System,
    sizes: &[Size],
    variables: &[&'a Declaration],
    parts: &[Part<'a>],
) -> Result<Option<u128>, Memory>
    requires text { IsOfText (view_system system.now) }
    requires small { AreSmall sizes.now }
    requires variables { map (λ d. d.now) variables.now
        ≡ domains.variables (view_system system.now) }
    requires parts { map part parts.now ≡ list.parts (view_system system.now) }
    ensures { IfOk result (λ n.
        n ≡ rules.great_coefficient (view_system system.now) (sizes_of sizes.now)) }
{
    great_number(alloc, Measure::Coefficient, system, sizes, variables, parts)
}

/// The greatest constant of the first row or result in the text with one above 1,048,576.
pub(crate) fn great_constant<'a>(
    alloc: Global,
    system: &'a System,
    sizes: &[Size],
    variables: &[&'a Declaration],
    parts: &[Part<'a>],
) -> Result<Option<u128>, Memory>
    requires text { IsOfText (view_system system.now) }
    requires small { AreSmall sizes.now }
    requires variables { map (λ d. d.now) variables.now
        ≡ domains.variables (view_system system.now) }
    requires parts { map part parts.now ≡ list.parts (view_system system.now) }
    ensures { IfOk result (λ n.
        n ≡ rules.great_constant (view_system system.now) (sizes_of sizes.now)) }
{
    great_number(alloc, Measure::Constant, system, sizes, variables, parts)
}
