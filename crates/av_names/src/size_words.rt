//! The sizes that are given, against those that the system names.

ghost use Rattle.std.specs.Prelude.{◌≡◌, IfOk, option_map};
ghost use Rattle.av_tree.specs.Trees.{view_system};
ghost use Rattle.av_names.specs.SizeWords as words;

use crate::Size;
use crate::name_sets::{first_again, first_outside, names_of, set_of};
use av_base::{Memory, Name};
use av_table::NameSet;
use av_tree::System;
use std::alloc::Global;

/// The first size whose name an earlier one has.
pub(crate) fn size_twice<'a>(alloc: Global, sizes: &'a [Size]) -> Result<Option<&'a Size>, Memory>
    ensures { IfOk result (λ size.
        option_map (λ s. s.now.name) size ≡ words.size_twice sizes.now) }
{
    let mut before = NameSet::new(alloc);
    first_again(&mut before, sizes)
}

/// The first size that the system does not name.
pub(crate) fn size_unknown<'a>(
    alloc: Global,
    system: &System,
    sizes: &'a [Size],
) -> Result<Option<&'a Size>, Memory>
    ensures { IfOk result (λ size. option_map (λ s. s.now.name) size
        ≡ words.size_unknown (view_system system.now) sizes.now) }
{
    let named = set_of(alloc, system.sizes.names.as_slice())?;
    Ok(first_outside(&named, sizes))
}

/// The first size of the system that is not given.
pub(crate) fn size_missing<'a>(
    alloc: Global,
    system: &'a System,
    sizes: &[Size],
) -> Result<Option<&'a Name>, Memory>
    ensures { IfOk result (λ name. option_map (λ n. n.now) name
        ≡ words.size_missing (view_system system.now) sizes.now) }
{
    let given = names_of(alloc, sizes)?;
    Ok(first_outside(&given, system.sizes.names.as_slice()))
}
