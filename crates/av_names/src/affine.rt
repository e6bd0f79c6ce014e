//! Forms, sets and maps of what is written, with the sizes put in.

ghost use Rattle.std.specs.Prelude.{◌≡◌, ◌≤◌, ◌<◌, ◌^◌, ◌++◌, ◌-ℤ◌, pos, unsigned_abs, map, take, length, slice_index_or, if◌then◌else◌, All, IfOk, OnOk};
ghost use Rattle.av_affine.specs.Forms.{IsWithinLimits};
ghost use Rattle.av_affine.specs.Numbers.{AtMost};
ghost use Rattle.av_tree.specs.Rows as rows;
ghost use Rattle.av_names.specs.inner.Fitting.{FitsForm, FitsRows, FitsMap, FitsAccess};
ghost use Rattle.av_names.specs.Forms as forms;
ghost use Rattle.av_names.specs.Forms.{form_of, form_of_row, rows_over};
ghost use Rattle.av_names.specs.inner.Seen.{context as seen};
ghost use Rattle.av_names.specs.inner.Sums.{sizes_in, HasSmallValues};
ghost use Rattle.av_names.specs.inner.ShortSums.{AreShort, HasShortTerms};

use crate::part::Context;
use crate::sums::{coefficient, coefficient_between, constant, constant_between};
use av_affine::{Form, Map, Rows, four};
use av_base::{List, Memory, Name};
use av_poly::Poly;
use av_table::NameMap;
use av_tree::{Access, Constraint, IndexExpr, MapText, Relation, Term};
use std::alloc::Global;

/// A number within the limits, in fewer bits.
fn small(number: i128) -> i64
    requires { unsigned_abs number ≤ 2 ^ 20 }
    ensures { result ≡ number }
{
    number as i64
}

/// The coefficient of the index at this place, and 0 past the last one.
fn entry(names: &[Name], terms: &[Term], place: usize) -> i128
    requires { AreShort terms.now }
    ensures { result ≡ slice_index_or (map (rows.coefficient terms.now) names.now) place (pos 0) }
{
    if place < names.len() {
        coefficient(terms, &names[place])
    } else {
        0
    }
}

/// The coefficient of one side without the other.
fn entry_between(names: &[Name], left: &[Term], right: &[Term], place: usize) -> i128
    requires left { AreShort left.now }
    requires right { AreShort right.now }
    ensures { result ≡ slice_index_or
        (map (λ name. rows.coefficient left.now name -ℤ rows.coefficient right.now name) names.now)
        place (pos 0) }
{
    if place < names.len() {
        coefficient_between(left, right, &names[place])
    } else {
        0
    }
}

/// The form of an index expression over these names.
fn form(sizes: &NameMap<'_, i64>, names: &[Name], index: &IndexExpr) -> Form
    requires fits { FitsForm (sizes_in sizes.now) names.now index.now }
    requires sizes { HasSmallValues (sizes_in sizes.now) }
    ensures { result ≡ form_of (sizes_in sizes.now) names.now index.now }
{
    let terms = index.terms.as_slice();
    Form {
        coef: four!(index => small(entry(names, terms, index))),
        constant: small(constant(sizes, names, terms)),
    }
}

/// The coefficients of one side without the other.
fn coefficients_between(names: &[Name], left: &[Term], right: &[Term]) -> [i64; 4]
    requires left { AreShort left.now }
    requires right { AreShort right.now }
    requires fits { AtMost 1024 (forms.filled (map
        (λ name. rows.coefficient left.now name -ℤ rows.coefficient right.now name) names.now)) }
    ensures { result ≡ forms.filled (map
        (λ name. rows.coefficient left.now name -ℤ rows.coefficient right.now name) names.now) }
{
    four!(index => small(entry_between(names, left, right, index)))
}

/// The constant of one side without the other and the gap.
fn small_between(
    sizes: &NameMap<'_, i64>,
    names: &[Name],
    left: &[Term],
    right: &[Term],
    gap: i128,
) -> i64
    requires left { AreShort left.now }
    requires right { AreShort right.now }
    requires gap { unsigned_abs gap ≤ 1 }
    requires sizes { HasSmallValues (sizes_in sizes.now) }
    requires fits { unsigned_abs (rows.constant (sizes_in sizes.now) names.now
        left.now -ℤ rows.constant (sizes_in sizes.now) names.now right.now -ℤ gap) ≤ 2 ^ 20 }
    ensures { result ≡ rows.constant (sizes_in sizes.now) names.now left.now -ℤ rows.constant
        (sizes_in sizes.now) names.now right.now -ℤ gap }
{
    small(constant_between(sizes, names, left, right, gap))
}

/// The row which says that the left side is at least the right one and the gap.
fn row(
    sizes: &NameMap<'_, i64>,
    names: &[Name],
    left: &IndexExpr,
    right: &IndexExpr,
    gap: i128,
) -> Form
    requires left { HasShortTerms left.now }
    requires right { HasShortTerms right.now }
    requires gap { unsigned_abs gap ≤ 1 }
    requires fits { IsWithinLimits
        (form_of_row (rows.at_least (sizes_in sizes.now) names.now left.now right.now gap)) }
    requires sizes { HasSmallValues (sizes_in sizes.now) }
    ensures { result ≡ form_of_row
        (rows.at_least (sizes_in sizes.now) names.now left.now right.now gap) }
{
    let greater = left.terms.as_slice();
    let lesser = right.terms.as_slice();
    Form {
        coef: coefficients_between(names, greater, lesser),
        constant: small_between(sizes, names, greater, lesser, gap),
    }
}

/// The row which says that the left side is greater than the right one.
fn strict_row(sizes: &NameMap<'_, i64>, names: &[Name], left: &IndexExpr, right: &IndexExpr) -> Form
    requires left { HasShortTerms left.now }
    requires right { HasShortTerms right.now }
    requires fits { IsWithinLimits
        (form_of_row (rows.at_least (sizes_in sizes.now) names.now left.now right.now (pos 1))) }
    requires sizes { HasSmallValues (sizes_in sizes.now) }
    ensures { result ≡ form_of_row
        (rows.at_least (sizes_in sizes.now) names.now left.now right.now (pos 1)) }
{
    row(sizes, names, left, right, 1)
}

/// Appends the rows of a comparison.
fn push_rows(
    to: &mut List<Form>,
    sizes: &NameMap<'_, i64>,
    names: &[Name],
    constraint: &Constraint,
) -> Result<(), Memory>
    requires fits { FitsRows (sizes_in sizes.now) names.now constraint.now }
    requires sizes { HasSmallValues (sizes_in sizes.now) }
    ensures { OnOk result (to.new ≡ to.old ++ map form_of_row (rows.compared (sizes_in sizes.now)
        names.now constraint.now.left constraint.now.relation constraint.now.right)) }
{
    let left = &constraint.left;
    let right = &constraint.right;
    match constraint.relation {
        Relation::Less => to.push(strict_row(sizes, names, right, left)),
        Relation::LessEqual => to.push(row(sizes, names, right, left, 0)),
        Relation::Greater => to.push(strict_row(sizes, names, left, right)),
        Relation::GreaterEqual => to.push(row(sizes, names, left, right, 0)),
        Relation::Equal => {
            to.push(row(sizes, names, left, right, 0))?;
            to.push(row(sizes, names, right, left, 0))
        }
        Relation::Unequal => Ok(()),
    }
}

/// The points, over this many indices, at which the comparisons hold.
pub(crate) fn set(
    alloc: Global,
    sizes: &NameMap<'_, i64>,
    indices: u8,
    names: &[Name],
    constraints: &[Constraint],
) -> Result<Poly, Memory>
    requires fits { All (FitsRows (sizes_in sizes.now) names.now) constraints.now }
    requires sizes { HasSmallValues (sizes_in sizes.now) }
    ensures { IfOk result (λ set. set ≡ record {
      dim = indices;
      rows = rows_over (sizes_in sizes.now) names.now constraints.now;
    }) }
{
    let mut rows = List::new(alloc);
    for constraint in constraints {
        push_rows(&mut rows, sizes, names, constraint)?;
    }
    Ok(Poly { dim: indices, rows })
}

/// The forms of the index expressions, in order.
fn forms_over(
    alloc: Global,
    sizes: &NameMap<'_, i64>,
    names: &[Name],
    entries: &[IndexExpr],
) -> Result<Rows, Memory>
    requires few { length entries.now ≤ 4 }
    requires fits { All (FitsForm (sizes_in sizes.now) names.now) entries.now }
    requires sizes { HasSmallValues (sizes_in sizes.now) }
    ensures { IfOk result (λ rows.
        rows ≡ map (form_of (sizes_in sizes.now) names.now) entries.now) }
{
    let mut all = Vec::new(alloc);
    for index in entries {
        all.push(form(sizes, names, index))?;
    }
    Ok(Rows::from_slice(all.as_slice()))
}

/// The map as forms over its own names.
pub(crate) fn affine_map(
    alloc: Global,
    sizes: &NameMap<'_, i64>,
    map: &MapText,
) -> Result<Map, Memory>
    requires fits { FitsMap (sizes_in sizes.now) map.now }
    requires sizes { HasSmallValues (sizes_in sizes.now) }
    ensures { IfOk result (λ to. to ≡ forms.map_of (sizes_in sizes.now) map.now) }
{
    let names = map.names.as_slice();
    let rows = forms_over(alloc, sizes, names, map.results.as_slice())?;
    Ok(Map {
        from: names.len() as u8,
        rows,
    })
}

fn unit(test: bool) -> i64
    ensures { result ≡ (if test then pos 1 else pos 0) }
{
    if test { 1 } else { 0 }
}

/// The index at this place.
fn index_form(place: usize) -> Form
    ensures { result ≡ forms.index_form place }
{
    Form {
        coef: [
            unit(place == 0),
            unit(place == 1),
            unit(place == 2),
            unit(place == 3),
        ],
        constant: 0,
    }
}

/// The first forms.
fn first_forms(all: &[Form], count: usize) -> Rows
    requires there { count ≤ length all.now }
    requires few { count ≤ 4 }
    ensures { result ≡ take count all.now }
{
    Rows::from_slice(&all[..count])
}

/// The map that keeps each point.
fn identity(indices: usize) -> Map
    requires { indices ≤ 4 }
    ensures { result ≡ forms.identity indices }
{
    let all = [index_form(0), index_form(1), index_form(2), index_form(3)];
    Map {
        from: indices as u8,
        rows: first_forms(&all, indices),
    }
}

/// The map by which a reference reads.
pub(crate) fn read_map(
    alloc: Global,
    sizes: &NameMap<'_, i64>,
    context: Context<'_>,
    at: &Access,
) -> Result<Map, Memory>
    requires few { context.indices ≤ 4 }
    requires fits { FitsAccess (sizes_in sizes.now) (seen context) at.now }
    requires sizes { HasSmallValues (sizes_in sizes.now) }
    ensures { IfOk result (λ to.
        to ≡ forms.read_of (sizes_in sizes.now) (seen context.entry) at.now) }
{
    match at {
        Access::Here => Ok(identity(context.indices)),
        Access::Indices(entries) => {
            let rows = forms_over(alloc, sizes, context.names, entries.as_slice())?;
            Ok(Map {
                from: context.indices as u8,
                rows,
            })
        }
        Access::Mapped(map) => affine_map(alloc, sizes, map),
    }
}
