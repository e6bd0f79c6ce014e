//! The lanes of an array before they are built: what stands on each cell, and what each lane is for.

ghost use Rattle.std.specs.Prelude.{◌≡◌, ◌<◌, ◌+◌, ◌++◌, [], length, IfOk, OnOk};
ghost use Rattle.av_space.specs.Spots.{IsArray, cells_of};
ghost use Rattle.av_build.specs.inner.Blueprints.{is_of_helper, ArePieces, AddsHelpers, helpers_on, own_lanes, AreCellPlans, IsBlueprint};

use crate::spots::{SpotPlan, spot_plans};
use av_base::{List, Memory};
use av_kinds::CellLanes;
use av_space::{Array, CellNumber, Site};
use std::alloc::Global;

/// A helper on a cell: its number, and the piece on the cell and the place of the piece whose reference it moves.
#[derive(Clone, Copy, Debug)]
pub(crate) struct HelperPlan {
    pub(crate) number: usize,
    pub(crate) piece: usize,
    pub(crate) site: usize,
}

/// A helper on a cell, by its number.
#[derive(Clone, Copy)]
pub(crate) struct HelperOn {
    pub(crate) cell: CellNumber,
    pub(crate) helper: usize,
}

/// A lane of a cell: that of its value, or of the word of a helper.
#[derive(Clone, Copy, Debug)]
pub(crate) struct LanePlan {
    pub(crate) cell: CellNumber,
    pub(crate) helper: Option<HelperPlan>,
}

/// The pieces on a cell, and the places of each that read.
#[derive(Drop)]
pub(crate) struct Pieces<'a> {
    pub(crate) spots: List<SpotPlan<'a>>,
    pub(crate) sites: List<List<Site<'a>>>,
}

/// What stands on a cell, and its lanes by their numbers: those of helpers from the first on, and then that of its value.
#[derive(Drop)]
pub(crate) struct CellPlan<'a> {
    pub(crate) pieces: Pieces<'a>,
    pub(crate) lanes: CellLanes,
}

/// An array with the lanes of its program.
#[derive(Drop)]
pub(crate) struct Blueprint<'a> {
    pub(crate) array: Array<'a>,
    pub(crate) cells: List<CellPlan<'a>>,
    pub(crate) lanes: List<LanePlan>,
}

// Whether the lane is of the helper with this number.
fn is_helper(lane: &LanePlan, helper: usize) -> bool
    ensures { result ≡ is_of_helper lane.now helper }
{
    match lane.helper {
        Some(plan) => plan.number == helper,
        None => false,
    }
}

impl Blueprint<'_> {
    ghost use Rattle.av_build.specs.inner.Blueprints.{lanes_of, HasHelper};

    /// The lane of a cell's value.
    pub(crate) fn value_lane(&self, cell: CellNumber) -> usize
        requires { cell.0 < length self.now.cells }
        ensures { result ≡ (lanes_of self.now.cells).of_value cell.0 }
    {
        self.cells.as_slice()[cell.0 as usize].lanes.value
    }

    /// The lane of a helper's word on a cell.
    pub(crate) fn helper_lane(&self, on: HelperOn) -> usize
        requires blueprint { IsBlueprint self.now }
        requires helper { HasHelper self.now on.cell.0 on.helper }
        ensures { result ≡ (lanes_of self.now.cells).of_helper on.helper on.cell.0 }
    {
        let own = self.cells.as_slice()[on.cell.0 as usize].lanes;
        let lanes = self.lanes.as_slice();
        for number in own.first..own.value {
            if is_helper(&lanes[number], on.helper) {
                return number;
            }
        }
        unreachable!()
    }
}

// The pieces on a cell.
fn pieces_on<'a>(alloc: Global, array: &Array<'a>, cell: CellNumber) -> Result<Pieces<'a>, Memory>
    requires array { IsArray array.now }
    requires cell { cell.0 < length (cells_of array.now) }
    ensures { IfOk result (ArePieces array.now cell.0) }
{
    let spots = array.spots(alloc, cell)?;
    let mut sites = List::new(alloc);
    for spot in spots.as_slice() {
        sites.push(array.sites(alloc, spot)?)?;
    }
    let plans = spot_plans(alloc, spots.as_slice())?;
    Ok(Pieces {
        spots: plans,
        sites,
    })
}

// Appends the helpers of a piece's places.
fn add_helpers(
    pieces: &Pieces<'_>,
    piece: usize,
    helpers: &mut List<HelperPlan>,
) -> Result<(), Memory>
    requires { piece < length pieces.now.sites }
    ensures { OnOk result (AddsHelpers pieces.now piece helpers.old helpers.new) }
{
    let sites = pieces.sites.as_slice()[piece].as_slice();
    for site in 0..sites.len() {
        let Some(pipeline) = &sites[site].pipeline else {
            continue;
        };
        helpers.push(HelperPlan {
            number: pipeline.number,
            piece,
            site,
        })?;
    }
    Ok(())
}

// The helpers on a cell.
fn helpers(alloc: Global, pieces: &Pieces<'_>) -> Result<List<HelperPlan>, Memory>
    ensures { IfOk result (λ helpers. helpers ≡ helpers_on pieces.now) }
{
    let mut helpers = List::new(alloc);
    for piece in 0..pieces.sites.as_slice().len() {
        add_helpers(pieces, piece, &mut helpers)?;
    }
    Ok(helpers)
}

// Appends the lanes of a cell to those of earlier cells.
fn add_cell<'a>(
    alloc: Global,
    array: &Array<'a>,
    cell: CellNumber,
    lanes: &mut List<LanePlan>,
) -> Result<CellPlan<'a>, Memory>
    requires array { IsArray array.now }
    requires cell { cell.0 < length (cells_of array.now) }
    ensures pieces { IfOk result (λ plan. ArePieces array.now cell.0 plan.pieces) }
    ensures first { IfOk result (λ plan. plan.lanes.first ≡ length lanes.old) }
    ensures value { IfOk result (λ plan.
        plan.lanes.value ≡ length lanes.old + length (helpers_on plan.pieces)) }
    ensures lanes { IfOk result (λ plan. lanes.new ≡ lanes.old ++ own_lanes cell.0 plan.pieces) }
{
    let pieces = pieces_on(alloc, array, cell)?;
    let helpers = helpers(alloc, &pieces)?;
    let first = lanes.as_slice().len();
    for helper in helpers.as_slice() {
        lanes.push(LanePlan {
            cell,
            helper: Some(*helper),
        })?;
    }
    let value = lanes.as_slice().len();
    lanes.push(LanePlan { cell, helper: None })?;
    Ok(CellPlan {
        pieces,
        lanes: CellLanes { first, value },
    })
}

// What stands on so many cells, whose lanes are put into the list.
fn cell_plans<'a>(
    alloc: Global,
    array: &Array<'a>,
    count: usize,
    lanes: &mut List<LanePlan>,
) -> Result<List<CellPlan<'a>>, Memory>
    requires array { IsArray array.now }
    requires count { count ≡ length (cells_of array.now) }
    requires none { lanes.old ≡ [] }
    ensures { IfOk result (λ cells. AreCellPlans array.now count cells lanes.new) }
{
    let mut cells = List::new(alloc);
    for cell in 0..count {
        cells.push(add_cell(alloc, array, CellNumber(cell as u32), lanes)?)?;
    }
    Ok(cells)
}

/// The lanes of the array of so many cells.
pub(crate) fn plan_lanes<'a>(
    alloc: Global,
    array: Array<'a>,
    count: usize,
) -> Result<Blueprint<'a>, Memory>
    requires array { IsArray array }
    requires count { count ≡ length (cells_of array) }
    ensures array { IfOk result (λ b. b.array ≡ array.entry) }
    ensures blueprint { IfOk result IsBlueprint }
{
    let mut lanes = List::new(alloc);
    let cells = cell_plans(alloc, &array, count, &mut lanes)?;
    Ok(Blueprint {
        array,
        cells,
        lanes,
    })
}
