//! Links of the array, of all tap sites of all cells.

ghost use Rattle.std.specs.Prelude.{ℕ, ◌≡◌, ◌↔◌, ◌<◌, ◌+◌, List as Items, length, IsTrue, Contains, Some, slice_get, slice_index_or, [], map, IfOk, IfSome, OnOk};
ghost use Rattle.av_flat.specs.Trees.{Piece as PieceSeen, view_piece, view_system, view_variable};
ghost use Rattle.av_space.specs.declared.layout.Slot.{Slot as SlotSeen};
ghost use Rattle.av_space.specs.Taps.{Tap, IsTapped};
ghost use Rattle.av_space.specs.inner.Alike.{AreAlike};
ghost use Rattle.av_space.specs.inner.Apart.{AreOfNode};
ghost use Rattle.av_space.specs.inner.Sites.{tap_of, AreNodeTaps};
ghost use Rattle.av_space.specs.inner.Readings.{IsSite, HasSite, IsReadingAt, IsReadingOf, AreReadings, IsReader, AreOwn, AreReadAt, AreReadBy, taps_of_reader};
ghost use Rattle.av_space.specs.inner.Quantified.{LinksOf};
ghost use Rattle.av_space.specs.inner.Runs.{IsSiteRun, AreRuns};
ghost use Rattle.av_space.specs.inner.Scheduled.{system_of, helpers_of, placings_of, cells_of};
ghost use Rattle.av_space.specs.inner.Stretches.{HasLinks, IsOn, IsBetween, tap_reading};

use crate::alike::are_alike;
use crate::apart::slots_in;
use crate::cells::Link;
use crate::layout::Slot;
use crate::locate::locate;
use crate::numbers::CellNumber;
use crate::reading::{is_in, read_at};
use crate::runs::{SiteRun, node_runs};
use crate::scheduled::ScheduledSystem;
use crate::stretch::{TapAt, TapReading, site_links};
use crate::tap::TapSite;
use crate::tapping::taps_of;
use crate::timed_nodes::TimedNodes;
use av_base::{List, Memory};
use av_flat::{Node, Piece, Var};
use std::alloc::Global;

/// A cell that reads: its number, its node with the variable, and its computations.
#[derive(Drop)]
struct Consumer<'a> {
    number: CellNumber,
    node: Node,
    var: &'a Var,
    slots: &'a [Slot],
}

/// What a tap site reads at a computation of its cell.
pub(crate) fn reading_at(
    scheduled: &ScheduledSystem<'_>,
    node: Node,
    site: &TapSite<'_>,
    piece: &Piece,
    slot: &Slot,
) -> Option<TapReading>
    requires { (slots : Items SlotSeen) × Contains slots slot.now
        × IsSite (system_of scheduled.now) (helpers_of scheduled.now) (placings_of scheduled.now)
        (cells_of scheduled.now) node.0 (tap_of site.now) (view_piece piece.now) slots }
    ensures cycle { IfSome result (λ r. r.cycle ≡ slot.now.cycle) }
    ensures reading { (q d : ℕ) → IsReadingAt
        (system_of scheduled.now) (placings_of scheduled.now) (cells_of scheduled.now) node.0
        (tap_of site.now) (view_piece piece.now) slot.now.point slot.now.cycle q d
        ↔ (result ≡ Some (tap_reading slot.now.cycle q d)) }
{
    let timed = scheduled.timed();
    if !is_in(&piece.domain, &slot.point) {
        return None;
    }
    let read = read_at(timed, node, site, piece, &slot.point)?;
    let located = locate(scheduled, read.node, &read.point);
    Some(TapReading {
        cycle: slot.cycle,
        producer: located.cell,
        delay: slot.cycle - located.cycle,
    })
}

// What a tap site reads at those computations on its cell that are points of its piece, by cycle.
fn readings(
    alloc: Global,
    scheduled: &ScheduledSystem<'_>,
    node: Node,
    site: &TapSite<'_>,
    piece: &Piece,
    slots: &[Slot],
) -> Result<List<TapReading>, Memory>
    requires { HasSite (system_of scheduled.now) (helpers_of scheduled.now)
        (placings_of scheduled.now) (cells_of scheduled.now) node.0 (tap_of site.now)
        (view_piece piece.now) slots.now }
    ensures { IfOk result (AreReadings (IsReadingOf
        (system_of scheduled.now) (placings_of scheduled.now) (cells_of scheduled.now) node.0
        (tap_of site.now) (view_piece piece.now) slots.now)) }
{
    let mut readings = List::new(alloc);
    for slot in slots {
        if let Some(reading) = reading_at(scheduled, node, site, piece, slot) {
            readings.push(reading)?;
        }
    }
    Ok(readings)
}

/// The piece with this number.
pub(crate) fn piece_at(var: &Var, number: usize) -> &Piece
    requires { number < length var.now.pieces }
    ensures { slice_get (view_variable var.now).pieces number ≡ Some (view_piece result.now) }
{
    &var.pieces.as_slice()[number]
}

// The computations that are points of the piece with this number.
fn slots_at(own: &[List<Slot>], piece: usize) -> &[Slot]
    requires { piece < length own.now }
    ensures { slice_get own.now piece ≡ Some result.now }
{
    own[piece].as_slice()
}

// The readings of a tap site of a cell, by cycle.
fn tap_readings(
    alloc: Global,
    scheduled: &ScheduledSystem<'_>,
    consumer: &Consumer<'_>,
    site: &TapSite<'_>,
    own: &[List<Slot>],
) -> Result<List<TapReading>, Memory>
    requires consumer { IsReader scheduled.now consumer.now }
    requires site { (j : ℕ) × (slice_get (taps_of_reader scheduled.now consumer.now) j
        ≡ Some (tap_of site.now)) }
    requires own { AreOwn (view_variable consumer.now.var.now) consumer.now.slots.now own.now }
    ensures { IfOk result (AreReadBy scheduled.now consumer.now (tap_of site.now)) }
{
    let place = site.piece();
    let piece = piece_at(consumer.var, place);
    let slots = slots_at(own, place);
    readings(alloc, scheduled, consumer.node, site, piece, slots)
}

// Whether the tap site with this number is like the one before it.
fn is_like_the_last(sites: &[TapSite<'_>], number: usize) -> bool
    requires { number < length sites.now }
    ensures { IsTrue result → (j : ℕ) × (j + 1 ≡ number)
        × ((t u : Tap) → slice_get (map tap_of sites.now) j ≡ Some t
        → slice_get (map tap_of sites.now) number ≡ Some u → AreAlike t u) }
{
    if number == 0 {
        return false;
    }
    are_alike(site_at(sites, number - 1), site_at(sites, number))
}

// The readings of the tap site with this number of a cell, after those of the site before. They are the same where the two are alike, as
// they are where a text reads one point many times.
fn next_readings(
    alloc: Global,
    scheduled: &ScheduledSystem<'_>,
    consumer: &Consumer<'_>,
    sites: &[TapSite<'_>],
    own: &[List<Slot>],
    number: usize,
    last: Option<List<TapReading>>,
) -> Result<List<TapReading>, Memory>
    requires consumer { IsReader scheduled.now consumer.now }
    requires sites { map tap_of sites.now ≡ taps_of_reader scheduled.now consumer.now }
    requires own { AreOwn (view_variable consumer.now.var.now) consumer.now.slots.now own.now }
    requires number { number < length sites.now }
    requires last { IfSome last
        (λ readings. (j : ℕ) → j + 1 ≡ number → AreReadAt scheduled.now consumer.now j readings) }
    ensures { IfOk result (AreReadAt scheduled.now consumer.now number) }
{
    if let Some(readings) = last {
        if is_like_the_last(sites, number) {
            return Ok(readings);
        }
    }
    tap_readings(alloc, scheduled, consumer, site_at(sites, number), own)
}

// Appends the links of the tap sites of a run.
fn run_links(
    alloc: Global,
    scheduled: &ScheduledSystem<'_>,
    consumer: &Consumer<'_>,
    sites: &[TapSite<'_>],
    run: SiteRun,
    own: &[List<Slot>],
    links: &mut List<Link>,
) -> Result<(), Memory>
    requires consumer { IsReader scheduled.now consumer.now }
    requires sites { map tap_of sites.now ≡ taps_of_reader scheduled.now consumer.now }
    requires run { IsSiteRun (taps_of_reader scheduled.now consumer.now) run.first run.end }
    requires own { AreOwn (view_variable consumer.now.var.now) consumer.now.slots.now own.now }
    ensures { OnOk result (HasLinks (IsTapped (system_of scheduled.now)
        (helpers_of scheduled.now) (placings_of scheduled.now) (cells_of scheduled.now))
        (IsBetween consumer.now.number.0 run.first run.end) links.old links.new) }
{
    let mut last = None;
    for number in run.first..run.end {
        let readings = next_readings(
            alloc,
            scheduled,
            consumer,
            sites,
            own,
            number as usize,
            last,
        )?;
        let at = TapAt {
            consumer: consumer.number,
            site: number,
        };
        site_links(at, readings.as_slice(), links)?;
        last = Some(readings);
    }
    Ok(())
}

// Appends the links of all tap sites of a cell. A run has none where its piece has no computation on the cell.
fn cell_links(
    alloc: Global,
    scheduled: &ScheduledSystem<'_>,
    consumer: &Consumer<'_>,
    sites: &[TapSite<'_>],
    runs: &[SiteRun],
    own: &[List<Slot>],
    links: &mut List<Link>,
) -> Result<(), Memory>
    requires consumer { IsReader scheduled.now consumer.now }
    requires sites { map tap_of sites.now ≡ taps_of_reader scheduled.now consumer.now }
    requires runs { AreRuns (taps_of_reader scheduled.now consumer.now) runs.now }
    requires own { AreOwn (view_variable consumer.now.var.now) consumer.now.slots.now own.now }
    ensures { OnOk result (HasLinks (IsTapped (system_of scheduled.now)
        (helpers_of scheduled.now) (placings_of scheduled.now) (cells_of scheduled.now))
        (IsOn consumer.now.number.0) links.old links.new) }
{
    for run in runs {
        let site = site_at(sites, run.first as usize);
        if !slots_at(own, site.piece()).is_empty() {
            run_links(alloc, scheduled, consumer, sites, *run, own, links)?;
        }
    }
    Ok(())
}

/// The tap sites of each node.
pub(crate) fn node_taps<'a>(
    alloc: Global,
    timed: &TimedNodes<'a>,
) -> Result<List<List<TapSite<'a>>>, Memory>
    ensures { IfOk result (AreNodeTaps (view_system timed.now.flat) timed.now.helpers) }
{
    let mut sites = List::new(alloc);
    for node in 0..timed.len() {
        let var = timed.variable(Node(node));
        let taps = taps_of(alloc, timed.system(), timed.place(Node(node)), var)?;
        sites.push(taps)?;
    }
    Ok(sites)
}

// The cell with this number, as one that reads.
fn consumer_at<'a>(scheduled: &ScheduledSystem<'a>, number: CellNumber) -> Consumer<'a>
    requires { number.0 < length (cells_of scheduled.now) }
    ensures number { result.number.0 ≡ number.0 }
    ensures consumer { IsReader scheduled.now result }
{
    let node = Node(scheduled.cells()[number.0 as usize].node as usize);
    Consumer {
        number,
        node,
        var: scheduled.variable(node),
        slots: scheduled.slots()[number.0 as usize].as_slice(),
    }
}

// Of each piece of the variable of a cell the computations on the cell that are points of it.
fn slots_of_pieces(alloc: Global, consumer: &Consumer<'_>) -> Result<List<List<Slot>>, Memory>
    requires { (k : ℕ) (piece : PieceSeen)
        → slice_get (view_variable consumer.now.var.now).pieces k ≡ Some piece
        → AreOfNode piece.domain consumer.now.slots.now }
    ensures { IfOk result (AreOwn (view_variable consumer.now.var.now) consumer.now.slots.now) }
{
    let mut own = List::new(alloc);
    for piece in consumer.var.pieces.as_slice() {
        let part = slots_in(alloc, consumer.slots, &piece.domain)?;
        own.push(part)?;
    }
    Ok(own)
}

/// The tap sites of a node.
pub(crate) fn taps_of_node<'s, 'a>(
    sites: &'s [List<TapSite<'a>>],
    node: Node,
) -> &'s List<TapSite<'a>>
    requires { node.0 < length sites.now }
    ensures { result.now ≡ slice_index_or sites.now node.0 [] }
{
    &sites[node.0]
}

// The runs of the tap sites of a node.
fn runs_of_node(runs: &[List<SiteRun>], node: Node) -> &[SiteRun]
    requires { node.0 < length runs.now }
    ensures { slice_get runs.now node.0 ≡ Some result.now }
{
    runs[node.0].as_slice()
}

/// The tap site with this number.
pub(crate) fn site_at<'s, 'a>(sites: &'s [TapSite<'a>], number: usize) -> &'s TapSite<'a>
    requires { number < length sites.now }
    ensures { slice_get sites.now number ≡ Some result.now }
{
    &sites[number]
}

/// The links of the array: those of all tap sites of all cells.
pub(crate) fn links(alloc: Global, scheduled: &ScheduledSystem<'_>) -> Result<List<Link>, Memory>
    ensures { IfOk result (LinksOf scheduled.now) }
{
    let sites = node_taps(alloc, scheduled.timed())?;
    let runs = node_runs(alloc, sites.as_slice())?;
    let mut links = List::new(alloc);
    for number in 0..scheduled.cells().len() {
        let consumer = consumer_at(scheduled, CellNumber(number as u32));
        let own = taps_of_node(sites.as_slice(), consumer.node);
        let own_runs = runs_of_node(runs.as_slice(), consumer.node);
        let slots = slots_of_pieces(alloc, &consumer)?;
        cell_links(
            alloc,
            scheduled,
            &consumer,
            own.as_slice(),
            own_runs,
            slots.as_slice(),
            &mut links,
        )?;
    }
    Ok(links)
}
