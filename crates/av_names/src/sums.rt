//! Index expressions with like terms added and the sizes put in, as exact numbers.
//!
//! A text has fewer than 2^32 terms, each with a factor below 2^64, and a size is at most 2^20: a sum stays below
//! 2^116 in absolute value.

ghost use Rattle.std.specs.Prelude.{◌≡◌, ◌≤◌, ◌<◌, ◌^◌, ◌*ℤ◌, ◌-ℤ◌, pos, unsigned_abs, if◌then◌else◌};
ghost use Rattle.av_tree.specs.Points as points;
ghost use Rattle.av_tree.specs.Rows as rows;
ghost use Rattle.av_names.specs.inner.Sums.{sizes_in, HasSmallValues};
ghost use Rattle.av_names.specs.inner.ShortSums.{AreShort};

use crate::size_table::value_of;
use av_base::Name;
use av_table::NameMap;
use av_tree::Term;

fn is_named(name: &Name, other: &Option<Name>) -> bool
    ensures { result ≡ points.is_named name.now other.now }
{
    match other {
        None => false,
        Some(other) => other.as_str() == name.as_str(),
    }
}

/// The factor of the term, if it is of this name, else 0.
fn factor_of(term: &Term, name: &Name) -> i128
    ensures { result ≡ (if points.is_named name.now term.now.name then term.now.factor else pos 0) }
{
    if is_named(name, &term.name) {
        term.factor
    } else {
        0
    }
}

/// The factors of one name together.
pub(crate) fn coefficient(terms: &[Term], name: &Name) -> i128
    requires { AreShort terms.now }
    ensures value { result ≡ rows.coefficient terms.now name.now }
    ensures small { unsigned_abs result ≤ 2 ^ 96 }
{
    let mut sum: i128 = 0;
    for term in terms {
        let factor = factor_of(term, name);
        sum += factor;
    }
    sum
}

/// Whether the name is one of these.
fn is_among(names: &[Name], name: &Name) -> bool
    ensures { result ≡ rows.is_index names.now name.now }
{
    for index in names {
        if index.as_str() == name.as_str() {
            return true;
        }
    }
    false
}

/// The product of a coefficient and a value.
pub(crate) fn product(factor: i128, value: i64) -> i128
    requires factor { unsigned_abs factor < 2 ^ 64 }
    requires value { unsigned_abs value ≤ 1048576 }
    ensures value { result ≡ factor *ℤ value }
    ensures small { unsigned_abs result ≤ 2 ^ 84 }
{
    factor * value as i128
}

/// What the term adds to the constant.
fn fixed(sizes: &NameMap<'_, i64>, names: &[Name], term: &Term) -> i128
    requires factor { unsigned_abs term.now.factor < 2 ^ 64 }
    requires sizes { HasSmallValues (sizes_in sizes.now) }
    ensures value { result ≡ rows.fixed
        (sizes_in sizes.now) names.now term.now.factor term.now.name }
    ensures small { unsigned_abs result ≤ 2 ^ 84 }
{
    match &term.name {
        None => term.factor,
        Some(name) => {
            if is_among(names, name) {
                0
            } else {
                product(term.factor, value_of(sizes, name))
            }
        }
    }
}

/// What the terms without an index come to.
pub(crate) fn constant(sizes: &NameMap<'_, i64>, names: &[Name], terms: &[Term]) -> i128
    requires terms { AreShort terms.now }
    requires sizes { HasSmallValues (sizes_in sizes.now) }
    ensures value { result ≡ rows.constant (sizes_in sizes.now) names.now terms.now }
    ensures small { unsigned_abs result ≤ 2 ^ 116 }
{
    let mut sum: i128 = 0;
    for term in terms {
        let part = fixed(sizes, names, term);
        sum += part;
    }
    sum
}

/// The coefficient of a name in one side without the other.
pub(crate) fn coefficient_between(left: &[Term], right: &[Term], name: &Name) -> i128
    requires left { AreShort left.now }
    requires right { AreShort right.now }
    ensures value { result
        ≡ rows.coefficient left.now name.now -ℤ rows.coefficient right.now name.now }
    ensures small { unsigned_abs result ≤ 2 ^ 97 }
{
    coefficient(left, name) - coefficient(right, name)
}

/// The constant of one side without the other, and without the gap that is to be between them.
pub(crate) fn constant_between(
    sizes: &NameMap<'_, i64>,
    names: &[Name],
    left: &[Term],
    right: &[Term],
    gap: i128,
) -> i128
    requires left { AreShort left.now }
    requires right { AreShort right.now }
    requires gap { unsigned_abs gap ≤ 1 }
    requires sizes { HasSmallValues (sizes_in sizes.now) }
    ensures value { result ≡ rows.constant (sizes_in sizes.now) names.now left.now -ℤ rows.constant
        (sizes_in sizes.now) names.now right.now -ℤ gap }
    ensures small { unsigned_abs result ≤ 2 ^ 118 }
{
    constant(sizes, names, left) - constant(sizes, names, right) - gap
}
