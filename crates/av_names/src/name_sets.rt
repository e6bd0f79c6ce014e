//! Sets of the names of a tree, and the first of what is named so.

ghost use Rattle.std.specs.Prelude.{◌≡◌, ◌∷◌, map, find, not, option_map, IfOk, OnOk};
ghost use Rattle.av_tree.specs.Rows.{is_index};
ghost use Rattle.av_tree.specs.Trees.{Text};
ghost use Rattle.av_names.specs.inner.FirstAgain.{first_again};
ghost use Rattle.av_names.specs.inner.Seen.{SameNames};

use crate::Size;
use av_base::{Memory, Name};
use av_table::NameSet;
use av_tree::{Declaration, Equation};
use std::alloc::Global;

/// Something with a name.
pub(crate) trait HasName {
    ghost name_of: { Self → Text };

    fn name(&self) -> &Name
        ensures { result.now ≡ name_of self.now };
}

impl HasName for Name {
    ghost name_of = { λ name. name };

    fn name(&self) -> &Name {
        self
    }
}

impl HasName for Size {
    ghost name_of = { λ size. size.name };

    fn name(&self) -> &Name {
        &self.name
    }
}

impl HasName for Declaration {
    ghost name_of = { λ variable. variable.name };

    fn name(&self) -> &Name {
        &self.name
    }
}

impl HasName for &Declaration {
    ghost name_of = { λ variable. variable.now.name };

    fn name(&self) -> &Name {
        &self.name
    }
}

impl HasName for Equation {
    ghost name_of = { λ equation. equation.name };

    fn name(&self) -> &Name {
        &self.name
    }
}

/// The names of the items.
pub(crate) fn names_of<'a, T: HasName>(alloc: Global, items: &'a [T]) -> Result<NameSet<'a>, Memory>
    ensures { IfOk result (λ set. SameNames set (map T.name_of items.now)) }
{
    let mut set = NameSet::new(alloc);
    for item in items {
        put_name(&mut set, item.name())?;
    }
    Ok(set)
}

/// The set of these names.
pub(crate) fn set_of<'a>(alloc: Global, names: &'a [Name]) -> Result<NameSet<'a>, Memory>
    ensures { IfOk result (λ set. SameNames set names.now) }
{
    names_of(alloc, names)
}

/// The first item whose name is in the set.
pub(crate) fn first_among<'a, T: HasName>(set: &NameSet<'_>, items: &'a [T]) -> Option<&'a T>
    ensures { option_map (λ x. x.now) result
        ≡ find (λ x. is_index set.now (T.name_of x)) items.now }
{
    for item in items {
        if is_among(set, item.name()) {
            return Some(item);
        }
    }
    None
}

/// The first item whose name is not in the set.
pub(crate) fn first_outside<'a, T: HasName>(set: &NameSet<'_>, items: &'a [T]) -> Option<&'a T>
    ensures { option_map (λ x. x.now) result
        ≡ find (λ x. not (is_index set.now (T.name_of x))) items.now }
{
    for item in items {
        if !is_among(set, item.name()) {
            return Some(item);
        }
    }
    None
}

/// The first item whose name is in the set, or that of an earlier item.
pub(crate) fn first_again<'a, T: HasName>(
    before: &mut NameSet<'a>,
    items: &'a [T],
) -> Result<Option<&'a T>, Memory>
    ensures { IfOk result (λ item.
        option_map (λ x. x.now) item ≡ first_again T.name_of before.old items.now) }
{
    for item in items {
        if !put_name(before, item.name())? {
            return Ok(Some(item));
        }
    }
    Ok(None)
}

/// Whether the name is in the set.
pub(crate) fn is_among(set: &NameSet<'_>, name: &Name) -> bool
    ensures { result ≡ is_index set.now name.now }
{
    set.contains(name.as_str().as_bytes())
}

/// Puts a name into the set, and tells whether it was not there.
pub(crate) fn put_name<'a>(set: &mut NameSet<'a>, name: &'a Name) -> Result<bool, Memory>
    ensures added { IfOk result (λ added. added ≡ not (is_index set.old name.now)) }
    ensures names { OnOk result (SameNames set.new (name.now ∷ set.old)) }
{
    set.insert(name.as_str().as_bytes())
}
