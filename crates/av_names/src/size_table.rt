//! The values of sizes, by their names.

ghost use Rattle.std.specs.Prelude.{◌≡◌, IfOk};
ghost use Rattle.av_tree.specs.Rows.{or_zero};
ghost use Rattle.av_tree.specs.Trees.{Text};
ghost use Rattle.av_names.specs.Sizes.{sizes_of};
ghost use Rattle.av_names.specs.inner.Sums.{sizes_in};

use crate::Size;
use av_base::{Memory, Name};
use av_table::NameMap;
use std::alloc::Global;

/// The value of each size that is given, the first one of each name.
pub(crate) fn size_table<'a>(alloc: Global, sizes: &'a [Size]) -> Result<NameMap<'a, i64>, Memory>
    ensures { IfOk result (λ table. (name : Text) → sizes_in table name ≡ sizes_of sizes.now name) }
{
    let mut table = NameMap::new(alloc);
    for size in sizes {
        table.insert(size.name.as_str().as_bytes(), size.value)?;
    }
    Ok(table)
}

/// The value of the size of this name.
pub(crate) fn size_at(table: &NameMap<'_, i64>, name: &Name) -> Option<i64>
    ensures { result ≡ sizes_in table.now name.now }
{
    table.get(name.as_str().as_bytes())
}

/// The value of the size of this name, and 0 where there is none.
pub(crate) fn value_of(table: &NameMap<'_, i64>, name: &Name) -> i64
    ensures { result ≡ or_zero (sizes_in table.now name.now) }
{
    match size_at(table, name) {
        Some(value) => value,
        None => 0,
    }
}
