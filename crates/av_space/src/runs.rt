//! Runs of tap sites: sites of one piece that follow each other.

ghost use Rattle.std.specs.Prelude.{◌<◌, length, map, IfOk};
ghost use Rattle.av_space.specs.inner.Runs.{IsSiteRun, AreRuns, AreNodeRuns};
ghost use Rattle.av_space.specs.inner.Sites.{tap_of};

use crate::tap::TapSite;
use av_base::{List, Memory};
use std::alloc::Global;

/// A run of tap sites: the number of the first, and the number behind the last.
#[derive(Clone, Copy)]
pub(crate) struct SiteRun {
    pub(crate) first: u32,
    pub(crate) end: u32,
}

// The number behind the run that begins with the site `first`.
fn run_end(sites: &[TapSite<'_>], first: usize) -> usize
    requires { first < length sites.now }
    ensures { IsSiteRun (map tap_of sites.now) first result }
{
    let piece = sites[first].piece();
    for number in first + 1..sites.len() {
        if sites[number].piece() != piece {
            return number;
        }
    }
    sites.len()
}

// The runs of the tap sites of a node, in order.
fn runs_of(alloc: Global, sites: &List<TapSite<'_>>) -> Result<List<SiteRun>, Memory>
    ensures { IfOk result (AreRuns (map tap_of sites.now)) }
{
    let mut runs = List::new(alloc);
    let mut first: usize = 0;
    while first < sites.len() {
        let end = run_end(sites.as_slice(), first);
        runs.push(SiteRun {
            first: first as u32,
            end: end as u32,
        })?;
        first = end;
    }
    Ok(runs)
}

/// The runs of the tap sites of each node.
pub(crate) fn node_runs(
    alloc: Global,
    sites: &[List<TapSite<'_>>],
) -> Result<List<List<SiteRun>>, Memory>
    ensures { IfOk result (AreNodeRuns sites.now) }
{
    let mut runs = List::new(alloc);
    for own in sites {
        let some = runs_of(alloc, own)?;
        runs.push(some)?;
    }
    Ok(runs)
}
