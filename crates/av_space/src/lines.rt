//! The delay lines of the array.

ghost use Rattle.std.specs.Prelude.{◌≡◌, ◌<◌, length, IfOk};
ghost use Rattle.av_space.specs.Links.{IsStretch};
ghost use Rattle.av_space.specs.Lengths.{AreLengths};
ghost use Rattle.av_space.specs.inner.Sites.{AreNodeTaps};
ghost use Rattle.av_space.specs.inner.Lengths.{line_of};
ghost use Rattle.av_space.specs.inner.Quantified.{LinksOf, delays_of};
ghost use Rattle.av_space.specs.inner.Scheduled.{system_of, helpers_of, placings_of, cells_of};

use crate::cells::Link;
use crate::lengths::{DelayLine, lengthened};
use crate::linking::{node_taps, site_at, taps_of_node};
use crate::numbers::CellNumber;
use crate::scheduled::ScheduledSystem;
use crate::tap::TapSite;
use av_base::{List, Memory};
use av_flat::Node;
use std::alloc::Global;
use std::collections::BTreeMap;

// The line that a link reads.
fn line_of(scheduled: &ScheduledSystem<'_>, sites: &[List<TapSite<'_>>], link: &Link) -> DelayLine
    requires sites { AreNodeTaps (system_of scheduled.now) (helpers_of scheduled.now) sites.now }
    requires link { IsStretch (system_of scheduled.now)
        (helpers_of scheduled.now) (placings_of scheduled.now) (cells_of scheduled.now) link.now }
    ensures { result ≡ line_of
        (system_of scheduled.now) (helpers_of scheduled.now) (cells_of scheduled.now) link.now }
{
    let cell = &scheduled.cells()[link.consumer as usize];
    let own = taps_of_node(sites, Node(cell.node as usize));
    DelayLine {
        cell: CellNumber(link.producer),
        helper: site_at(own.as_slice(), link.site as usize).helper(),
    }
}

/// The length of each delay line that these links read, all in one pass over them.
pub(crate) fn line_lengths(
    alloc: Global,
    scheduled: &ScheduledSystem<'_>,
    links: &[Link],
) -> Result<BTreeMap<DelayLine, u32>, Memory>
    requires { LinksOf scheduled.now links.now }
    ensures { IfOk result (AreLengths
        (system_of scheduled.now) (helpers_of scheduled.now) (cells_of scheduled.now) links.now) }
{
    let sites = node_taps(alloc, scheduled.timed())?;
    let mut lengths = BTreeMap::new(alloc);
    for link in links {
        let line = line_of(scheduled, sites.as_slice(), link);
        lengthened(&mut lengths, line, link.delay)?;
    }
    Ok(lengths)
}

/// The registers of all delay lines together: of each line the greatest delay at which it is read.
pub(crate) fn delay_count(
    alloc: Global,
    scheduled: &ScheduledSystem<'_>,
    links: &[Link],
) -> Result<u128, Memory>
    requires { LinksOf scheduled.now links.now }
    ensures { IfOk result (λ count. count ≡ delays_of scheduled.now links.now) }
{
    let sites = node_taps(alloc, scheduled.timed())?;
    let mut lengths = BTreeMap::new(alloc);
    let mut count: u128 = 0;
    for link in links {
        let line = line_of(scheduled, sites.as_slice(), link);
        count += u128::from(lengthened(&mut lengths, line, link.delay)?);
    }
    Ok(count)
}
