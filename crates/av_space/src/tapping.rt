//! The tap sites of a node.

ghost use Rattle.std.specs.Prelude.{◌≡◌, ◌+◌, ◌<◌, ◌++◌, ◌&&◌, nat_eq, map, IfOk, OnOk};
ghost use Rattle.av_flat.specs.Trees.{view, view_system, view_variable};
ghost use Rattle.av_flat.specs.Sites.{place_of};
ghost use Rattle.av_space.specs.Taps.{helper_at, taps_by, taps_at, is_own, taps};
ghost use Rattle.av_space.specs.inner.Sites.{tap_of, taps_where};

use crate::tap::{Pipeline, TapSite, Way};
use av_base::{List, Memory, Point};
use av_depend::is_computed_at;
use av_flat::{Helper, ReadingPlace, SiteNumber, Timed, Tree, Var, VariablePlace, piece_places};
use std::alloc::Global;

/// A reference of a system: its variable, by the place among all variables, its piece, and its number in the piece.
#[derive(Clone, Copy)]
pub(crate) struct ReferenceAt {
    pub(crate) place: VariablePlace,
    pub(crate) piece: usize,
    pub(crate) site: SiteNumber,
}

// Whether the helper is of this reference.
fn is_of(helper: &Helper, at: ReferenceAt) -> bool
    ensures { result ≡ nat_eq helper.now.var at.place.0
        && nat_eq helper.now.piece at.piece && nat_eq helper.now.site at.site.0 }
{
    helper.var == at.place.0 && helper.piece as usize == at.piece && helper.site == at.site.0
}

/// The first helper of a reference.
pub(crate) fn helper_at(helpers: &[Helper], at: ReferenceAt) -> Option<Pipeline>
    ensures { result ≡ helper_at helpers.now at.place.0 at.piece at.site.0 }
{
    for (number, helper) in helpers.iter().enumerate() {
        if is_of(helper, at) {
            return Some(Pipeline {
                number,
                direction: Point::from_slice(helper.direction.as_slice()),
            });
        }
    }
    None
}

/// The same place.
pub(crate) fn same<'a>(place: &ReadingPlace<'a>) -> ReadingPlace<'a>
    ensures { result ≡ place.now }
{
    ReadingPlace {
        piece: place.piece,
        site: place.site,
        tree: place.tree,
    }
}

// Appends the tap sites of a place: of a pipelined one the entry reads before the pipeline's own.
fn add_taps_by<'a>(
    computed: bool,
    pipeline: Option<Pipeline>,
    place: &ReadingPlace<'a>,
    sites: &mut List<TapSite<'a>>,
) -> Result<(), Memory>
    ensures { OnOk result (map tap_of sites.new
        ≡ map tap_of sites.old ++ taps_by computed pipeline (place_of place.now)) }
{
    let Some(pipeline) = pipeline else {
        if computed {
            sites.push(TapSite {
                place: same(place),
                way: Way::Each,
            })?;
        }
        return Ok(());
    };
    if computed {
        sites.push(TapSite {
            place: same(place),
            way: Way::Entries(Point::from_slice(pipeline.direction.as_slice())),
        })?;
    }
    sites.push(TapSite {
        place: same(place),
        way: Way::Handed(pipeline.number, pipeline.direction),
    })
}

// Appends the tap sites of a place of the variable at the place `own`.
fn add_taps<'a>(
    timed: &Timed,
    own: VariablePlace,
    place: &ReadingPlace<'a>,
    sites: &mut List<TapSite<'a>>,
) -> Result<(), Memory>
    ensures { OnOk result (map tap_of sites.new ≡ map tap_of sites.old ++ taps_at (view_system
        timed.now.flat) timed.now.helpers own.0 (view place.now.tree) (place_of place.now)) }
{
    match place.tree {
        Tree::Ref { var, .. } => {
            let helpers = timed.helpers.as_slice();
            let at = ReferenceAt {
                place: own,
                piece: place.piece,
                site: place.site,
            };
            let pipeline = helper_at(helpers, at);
            add_taps_by(
                is_computed_at(&timed.flat, VariablePlace(*var)),
                pipeline,
                place,
                sites,
            )
        }
        Tree::Pick { var, .. } => {
            add_taps_by(
                is_computed_at(&timed.flat, VariablePlace(*var)),
                None,
                place,
                sites,
            )
        }
        _ => Ok(()),
    }
}

// Whether the place is a pick of the variable at the place `own`.
fn is_own(own: VariablePlace, place: &ReadingPlace<'_>) -> bool
    ensures { result ≡ is_own own.0 (view place.now.tree) }
{
    match place.tree {
        Tree::Pick { var, .. } => *var == own.0,
        _ => false,
    }
}

// Appends the tap sites of those places that are picks of the variable itself, or of those that are not.
fn add_taps_of<'a>(
    timed: &Timed,
    own: VariablePlace,
    picks: bool,
    places: &[ReadingPlace<'a>],
    sites: &mut List<TapSite<'a>>,
) -> Result<(), Memory>
    ensures { OnOk result (map tap_of sites.new ≡ map tap_of sites.old ++ taps_where
        (view_system timed.now.flat) timed.now.helpers own.0 picks (map place_of places.now)) }
{
    for place in places {
        if is_own(own, place) == picks {
            add_taps(timed, own, place, sites)?;
        }
    }
    Ok(())
}

/// The tap sites of the variable at a place: a reduction's read of its predecessor comes last.
pub(crate) fn taps_of<'a>(
    alloc: Global,
    timed: &'a Timed,
    own: VariablePlace,
    var: &'a Var,
) -> Result<List<TapSite<'a>>, Memory>
    ensures { IfOk result (λ sites. map tap_of sites
        ≡ taps (view_system timed.now.flat) timed.now.helpers own.0 (view_variable var.now)) }
{
    let places = piece_places(alloc, var.pieces.as_slice())?;
    let mut sites = List::new(alloc);
    add_taps_of(timed, own, false, places.as_slice(), &mut sites)?;
    add_taps_of(timed, own, true, places.as_slice(), &mut sites)?;
    Ok(sites)
}
