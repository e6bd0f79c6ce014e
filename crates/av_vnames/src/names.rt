//! Sets of names.

ghost use Rattle.std.specs.Prelude.{◌≡◌, IfOk};
ghost use Rattle.av_net.specs.Rows.{is_in};
ghost use Rattle.av_vnames.specs.Scoped.{texts, Bytes};

use av_base::Memory;
use av_table::NameSet;
use std::alloc::Global;

/// These names.
pub fn set_of<'a>(alloc: Global, names: &[&'a str]) -> Result<NameSet<'a>, Memory>
    ensures { IfOk result (λ set. (q : Bytes) → is_in set q ≡ is_in (texts names.now) q) }
{
    let mut set = NameSet::new(alloc);
    for name in names {
        set.insert(name.as_bytes())?;
    }
    Ok(set)
}
