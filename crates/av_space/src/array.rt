//! The array of a timed system, for those who build from it: where its computations stand, and what its pieces read.

ghost use Rattle.std.specs.Prelude.{◌≡◌, ◌<◌, length, IfOk};
ghost use Rattle.av_flat.specs.Legal.{IsLegal};
ghost use Rattle.av_space.specs.Links.{line_length};
ghost use Rattle.av_space.specs.SpaceFaults.{IsSpaceFault};
ghost use Rattle.av_space.specs.Whole.{IsWhole};
ghost use Rattle.av_space.specs.Layouts.{IsLayout, AreSlots};
ghost use Rattle.av_space.specs.declared.fault.SpaceFault.{SpaceFault as Fault};
ghost use Rattle.av_space.specs.declared.fault.SpaceFault.TheVariants as fault;

use crate::cells::Cells;
use crate::fault::SpaceFault;
use crate::laying::lay_out;
use crate::layout::{Layout, Slot};
use crate::lengths::DelayLine;
use crate::lines::line_lengths;
use crate::numbers::CellNumber;
use crate::scheduled::ScheduledSystem;
use crate::timed_nodes::TimedNodes;
use av_base::Memory;
use av_flat::Timed;
use std::alloc::Global;
use std::collections::BTreeMap;

/// The array of a legal timed system, with the computations on each of its cells.
#[derive(Drop)]
pub struct Array<'a> {
    pub(crate) timed: &'a Timed,
    pub(crate) nodes: TimedNodes<'a>,
    pub(crate) cells: &'a Cells,
    pub(crate) layout: Layout,
    /// Of the delay lines that are read.
    pub(crate) lengths: BTreeMap<DelayLine, u32>,
}

// The layout of a system that has no quantity above its limit.
fn small_layout(alloc: Global, timed: &Timed) -> Result<Layout, Memory>
    requires legal { IsLegal timed.now }
    requires small { (f : Fault) → IsSpaceFault timed.now f → f ≡ fault.Memory }
    ensures { IfOk result (IsLayout timed.now) }
{
    match lay_out(alloc, timed) {
        Ok(layout) => Ok(layout),
        Err(SpaceFault::Memory) => Err(Memory),
        Err(_) => unreachable!(),
    }
}

impl<'a> Array<'a> {
    ghost use Rattle.av_space.specs.Spots.{system_of, helpers_of, placings_of, cells_of, IsArray};

    /// The array of a legal timed system from what `map` gives for it.
    pub fn new(alloc: Global, timed: &'a Timed, cells: &'a Cells) -> Result<Array<'a>, Memory>
        requires legal { IsLegal timed.now }
        requires whole { IsWhole timed.now cells.now }
        requires small { (f : Fault) → IsSpaceFault timed.now f → f ≡ fault.Memory }
        ensures timed { IfOk result (λ a. a.timed.now ≡ timed.now) }
        ensures cells { IfOk result (λ a. a.cells.now ≡ cells.now) }
        ensures array { IfOk result IsArray }
    {
        let layout = small_layout(alloc, timed)?;
        Array::with_layout(alloc, timed, cells, layout)
    }

    /// The same array from a layout that is at hand.
    pub fn with_layout(
        alloc: Global,
        timed: &'a Timed,
        cells: &'a Cells,
        layout: Layout,
    ) -> Result<Array<'a>, Memory>
        requires legal { IsLegal timed.now }
        requires whole { IsWhole timed.now cells.now }
        requires layout { IsLayout timed.now layout }
        ensures timed { IfOk result (λ a. a.timed.now ≡ timed.now) }
        ensures cells { IfOk result (λ a. a.cells.now ≡ cells.now) }
        ensures array { IfOk result IsArray }
    {
        let nodes = TimedNodes::new(alloc, timed)?;
        let scheduled = ScheduledSystem::new(&nodes, &layout);
        let lengths = line_lengths(alloc, &scheduled, cells.links.as_slice())?;
        Ok(Array {
            timed,
            nodes,
            cells,
            layout,
            lengths,
        })
    }

    /// The system.
    pub fn system(&self) -> &'a Timed
        ensures { result.now ≡ self.now.timed.now }
    {
        self.timed
    }

    /// The computations on a cell, by cycle.
    pub fn slots(&self, cell: CellNumber) -> &[Slot]
        requires array { IsArray self.now }
        requires cell { cell.0 < length (cells_of self.now) }
        ensures { AreSlots (system_of self.now)
            (placings_of self.now) (cells_of self.now) cell.0 result.now }
    {
        self.layout.slots.as_slice()[cell.0 as usize].as_slice()
    }

    /// The length of the delay line of a cell's value, or of the word of a helper on it.
    pub fn line_length(&self, cell: CellNumber, helper: Option<usize>) -> u32
        requires array { IsArray self.now }
        requires cell { cell.0 < length (cells_of self.now) }
        ensures { result ≡ line_length (system_of self.now)
            (helpers_of self.now) (cells_of self.now) self.now.cells.now.links cell.0 helper }
    {
        let line = DelayLine { cell, helper };
        match self.lengths.get(&line) {
            Some(length) => *length,
            None => 0,
        }
    }
}
