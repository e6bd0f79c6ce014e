//! Copies of listings.

ghost use Rattle.std.specs.Prelude.{◌≡◌, IfOk};

use av_base::{List, Memory, Name, Point};
use av_net::{Entry, Listing};
use std::alloc::Global;

// A line once more.
fn copied_entry(alloc: Global, entry: &Entry) -> Result<Entry, Memory>
    ensures { IfOk result (λ own. own ≡ entry.now) }
{
    Ok(Entry {
        variable: Name::new(alloc, entry.variable.as_str())?,
        point: Point::from_slice(entry.point.as_slice()),
        wire: Name::new(alloc, entry.wire.as_str())?,
        cycle: entry.cycle,
    })
}

// Lines once more.
fn copied_entries(alloc: Global, entries: &[Entry]) -> Result<List<Entry>, Memory>
    ensures { IfOk result (λ own. own ≡ entries.now) }
{
    let mut own = List::new(alloc);
    for entry in entries {
        own.push(copied_entry(alloc, entry)?)?;
    }
    Ok(own)
}

/// A listing once more.
pub(crate) fn copied_listing(alloc: Global, listing: &Listing) -> Result<Listing, Memory>
    ensures { IfOk result (λ own. own ≡ listing.now) }
{
    Ok(Listing {
        ins: copied_entries(alloc, listing.ins.as_slice())?,
        ats: copied_entries(alloc, listing.ats.as_slice())?,
    })
}
