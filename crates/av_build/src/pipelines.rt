//! The lanes of helpers.

ghost use Rattle.std.specs.Prelude.{◌≡◌, ◌<◌, ◌∷◌, [], Some, None, length, map, IfOk};
ghost use Rattle.av_flat.specs.Trees.{view, view_system};
ghost use Rattle.av_space.specs.Spots.{helpers_of};
ghost use Rattle.av_kinds.specs.Written.{work_of, mode_of, lane_of};
ghost use Rattle.av_history.specs.Widths.{read_width};
ghost use Rattle.av_build.specs.inner.Blueprints.{IsBlueprint, IsCounted};
ghost use Rattle.av_build.specs.inner.PipelineModes.{IsEntryMode, own_mode_by, ArePipelineModes};
ghost use Rattle.av_build.specs.inner.Windows.{windows_by};
ghost use Rattle.av_build.specs.inner.Lanes.{HasVariable, HasPlan, IsHelperOn, AreHelperModes, IsBuiltBy};
ghost use Rattle.av_build.specs.inner.Moments.{site_by};
ghost use Rattle.av_build.specs.inner.Programmed.{inlet_by, one_site};

use crate::blueprint::{Blueprint, HelperPlan};
use crate::moments::{Moment, PipelineMoments, site};
use crate::order::in_order;
use crate::ports::{inlet_of, width_read};
use crate::spots::planned_spot;
use crate::windows::{CounterMark, windows};
use av_base::{List, Memory, Width};
use av_flat::{Flat, Tree};
use av_kinds::{Counter, Inlet, Lane, Mode, ProgramSite, Work};
use av_space::{CellNumber, Spot};
use std::alloc::Global;

// The list of one site.
fn one_site(alloc: Global, own: ProgramSite) -> Result<List<ProgramSite>, Memory>
    ensures { IfOk result (λ sites. sites ≡ own ∷ []) }
{
    let mut sites = List::new(alloc);
    sites.push(own)?;
    Ok(sites)
}

// In the windows of the marks that hold, the reference over these sources.
fn pipeline_mode<'a>(
    alloc: Global,
    marks: &[CounterMark],
    tree: &'a Tree,
    source: ProgramSite,
) -> Result<Mode<'a>, Memory>
    ensures windows { IfOk result (λ mode. mode.windows ≡ windows_by marks.now) }
    ensures work { IfOk result (λ mode. work_of mode.work ≡ one_site source (view tree.now)) }
{
    Ok(Mode {
        windows: windows(alloc, marks)?,
        work: Work {
            sites: one_site(alloc, source)?,
            tree,
        },
    })
}

// Where a helper reads its reference.
fn entry_site(
    alloc: Global,
    flat: &Flat,
    own: Width,
    tree: &Tree,
    moments: &[Moment],
) -> Result<ProgramSite, Memory>
    requires { HasVariable (view_system flat.now) (view tree.now) }
    ensures { IfOk result (λ site. (site ≡ site_by
        (inlet_by (view_system flat.now) (λ j. j) None (view tree.now)) site.width moments.now)
        × (site.width.bits ≡ read_width (view_system flat.now) own.bits None (view tree.now))) }
{
    site(
        alloc,
        inlet_of(flat, tree),
        width_read(flat, own, tree),
        moments,
    )
}

// The mode of the entry points, where a helper reads its reference.
fn entry_mode<'a>(
    alloc: Global,
    flat: &Flat,
    own: Width,
    tree: &'a Tree,
    found: &PipelineMoments,
) -> Result<Mode<'a>, Memory>
    requires { HasVariable (view_system flat.now) (view tree.now) }
    ensures { IfOk result (λ mode.
        IsEntryMode (view_system flat.now) own.bits (view tree.now) found.now (mode_of mode)) }
{
    let entries = entry_site(alloc, flat, own, tree, found.entries.as_slice())?;
    pipeline_mode(alloc, found.entry_marks.as_slice(), tree, entries)
}

// The mode of the other points, where it reads its own word at the point before.
fn own_mode<'a>(
    alloc: Global,
    own: Width,
    tree: &'a Tree,
    found: &PipelineMoments,
) -> Result<Mode<'a>, Memory>
    ensures { IfOk result (λ mode. mode_of mode ≡ own_mode_by own (view tree.now) found.now) }
{
    let word = site(alloc, Inlet::Taps, own, found.own.as_slice())?;
    pipeline_mode(alloc, found.own_marks.as_slice(), tree, word)
}

// The list of two modes.
fn two_modes<'a>(alloc: Global, first: Mode<'a>, second: Mode<'a>) -> Result<List<Mode<'a>>, Memory>
    ensures { IfOk result (λ modes. modes ≡ first.entry ∷ second.entry ∷ []) }
{
    let mut modes = List::new(alloc);
    modes.push(first)?;
    modes.push(second)?;
    Ok(modes)
}

// The modes of a helper's lane.
fn helper_modes<'a>(
    alloc: Global,
    flat: &Flat,
    own: Width,
    tree: &'a Tree,
    found: &PipelineMoments,
) -> Result<List<Mode<'a>>, Memory>
    requires { HasVariable (view_system flat.now) (view tree.now) }
    ensures { IfOk result (λ modes.
        ArePipelineModes (view_system flat.now) own (view tree.now) found.now (map mode_of modes)) }
{
    let entries = entry_mode(alloc, flat, own, tree, found)?;
    let others = own_mode(alloc, own, tree, found)?;
    two_modes(alloc, entries, others)
}

impl<'a> Blueprint<'a> {
    // What a helper's lane works on: at entry points the reference, and else the helper's word at the point before.
    fn pipeline_modes(
        &self,
        alloc: Global,
        counter: Counter,
        spot: &Spot<'a>,
        helper: HelperPlan,
    ) -> Result<List<Mode<'a>>, Memory>
        requires blueprint { IsBlueprint self.now }
        requires counter { IsCounted self.now.array counter }
        requires helper { IsHelperOn self.now spot.now helper }
        ensures { IfOk result (λ modes.
            AreHelperModes self.now counter spot.now helper (map mode_of modes)) }
    {
        let pieces = &self.cells.as_slice()[spot.cell.0 as usize].pieces;
        let place = &pieces.sites.as_slice()[helper.piece].as_slice()[helper.site];
        let Some(pipeline) = &place.pipeline else {
            unreachable!();
        };
        let order = in_order(alloc, spot.slots.as_slice(), counter)?;
        let found = self.pipeline_moments(alloc, counter, order.as_slice(), spot, place, pipeline)?;
        let read = &place.place;
        let timed = self.array.system();
        helper_modes(alloc, &timed.flat, spot.var.width, read.tree, &found)
    }

    /// The lane of the word of a helper on a cell.
    pub(crate) fn pipeline(
        &self,
        alloc: Global,
        counter: Counter,
        cell: CellNumber,
        helper: HelperPlan,
    ) -> Result<Lane<'a>, Memory>
        requires blueprint { IsBlueprint self.now }
        requires counter { IsCounted self.now.array counter }
        requires helper { HasPlan self.now cell.0 helper }
        requires ranks { length (helpers_of self.now.array) < 18446744073709551615 }
        ensures { IfOk result (λ lane.
            IsBuiltBy self.now counter cell.0 (Some helper) (lane_of lane)) }
    {
        let plan = &self.cells.as_slice()[cell.0 as usize]
            .pieces
            .spots
            .as_slice()[helper.piece];
        let spot = planned_spot(alloc, &self.array, plan)?;
        Ok(Lane {
            home: cell.0,
            rank: helper.number + 1,
            width: spot.var.width,
            modes: self.pipeline_modes(alloc, counter, &spot, helper)?,
            length: self.array.line_length(cell, Some(helper.number)),
        })
    }
}
