//! Whether the sizes keep the constraints of the parameter domain.

ghost use Rattle.std.specs.Prelude.{◌≡◌, ◌≤◌, ◌<◌, ◌^◌, not, unsigned_abs, All, IfOk, IfSome};
ghost use Rattle.av_tree.specs.Domains as domains;
ghost use Rattle.av_tree.specs.Points as points;
ghost use Rattle.av_tree.specs.Trees.{view_system};
ghost use Rattle.av_names.specs.SizeWords as words;
ghost use Rattle.av_names.specs.inner.Sums.{sizes_in, HasSmallValues};
ghost use Rattle.av_names.specs.Texts.{AreSmall, IsOfText};
ghost use Rattle.av_names.specs.inner.ShortSums.{AreShort, HasShortSides};

use crate::Size;
use crate::size_table::{size_at, size_table};
use crate::sums::product;
use av_base::{Memory, Name};
use av_table::NameMap;
use av_tree::{Constraint, Relation, System, Term};
use std::alloc::Global;

fn small_size(sizes: &NameMap<'_, i64>, name: &Name) -> Option<i64>
    requires { HasSmallValues (sizes_in sizes.now) }
    ensures value { result ≡ sizes_in sizes.now name.now }
    ensures small { IfSome result (λ k. unsigned_abs k ≤ 1048576) }
{
    size_at(sizes, name)
}

fn times(factor: i128, value: Option<i64>) -> Option<i128>
    requires factor { unsigned_abs factor < 2 ^ 64 }
    requires value { IfSome value (λ k. unsigned_abs k ≤ 1048576) }
    ensures value { result ≡ points.times factor value }
    ensures small { IfSome result (λ k. unsigned_abs k ≤ 2 ^ 84) }
{
    match value {
        None => None,
        Some(value) => Some(product(factor, value)),
    }
}

/// The number of a term, or none where its name is no size.
fn term_at(sizes: &NameMap<'_, i64>, term: &Term) -> Option<i128>
    requires factor { unsigned_abs term.now.factor < 2 ^ 64 }
    requires sizes { HasSmallValues (sizes_in sizes.now) }
    ensures value { result ≡ points.times term.now.factor
        (points.unit_at (sizes_in sizes.now) term.now.name) }
    ensures small { IfSome result (λ k. unsigned_abs k ≤ 2 ^ 84) }
{
    match &term.name {
        None => Some(product(term.factor, 1)),
        Some(name) => times(term.factor, small_size(sizes, name)),
    }
}

/// The sum of the terms, or none where a name is no size.
fn sum_at(sizes: &NameMap<'_, i64>, terms: &[Term]) -> Option<i128>
    requires terms { AreShort terms.now }
    requires sizes { HasSmallValues (sizes_in sizes.now) }
    ensures { result ≡ points.sum_at (sizes_in sizes.now) terms.now }
{
    let mut sum: i128 = 0;
    for term in terms {
        match term_at(sizes, term) {
            None => return None,
            Some(part) => sum += part,
        }
    }
    Some(sum)
}

fn compares(relation: Relation, left: i128, right: i128) -> bool
    ensures { result ≡ domains.compares relation left right }
{
    match relation {
        Relation::Less => left < right,
        Relation::LessEqual => left <= right,
        Relation::Greater => right < left,
        Relation::GreaterEqual => right <= left,
        Relation::Equal => left <= right && right <= left,
        Relation::Unequal => !(left <= right && right <= left),
    }
}

fn holds(sizes: &NameMap<'_, i64>, constraint: &Constraint) -> bool
    requires short { HasShortSides constraint.now }
    requires sizes { HasSmallValues (sizes_in sizes.now) }
    ensures { result ≡ domains.both_compare constraint.now.relation
        (points.index_at (sizes_in sizes.now) constraint.now.left)
        (points.index_at (sizes_in sizes.now) constraint.now.right) }
{
    let left = sum_at(sizes, constraint.left.terms.as_slice());
    let right = sum_at(sizes, constraint.right.terms.as_slice());
    match (left, right) {
        (Some(left), Some(right)) => compares(constraint.relation, left, right),
        _ => false,
    }
}

fn all_hold(sizes: &NameMap<'_, i64>, constraints: &[Constraint]) -> bool
    requires short { All HasShortSides constraints.now }
    requires sizes { HasSmallValues (sizes_in sizes.now) }
    ensures { result ≡ domains.all_hold (sizes_in sizes.now) constraints.now }
{
    for constraint in constraints {
        if !holds(sizes, constraint) {
            return false;
        }
    }
    true
}

/// Whether the sizes break a constraint of the parameter domain.
pub(crate) fn is_outside(alloc: Global, system: &System, sizes: &[Size]) -> Result<bool, Memory>
    requires text { IsOfText (view_system system.now) }
    requires small { AreSmall sizes.now }
    ensures { IfOk result (λ yes. yes ≡ words.is_outside (view_system system.now) sizes.now) }
{
    let table = size_table(alloc, sizes)?;
    Ok(!all_hold(&table, system.sizes.constraints.as_slice()))
}
