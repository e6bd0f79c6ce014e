//! The pieces on the cells of an array, and their places that read.

ghost use Rattle.std.specs.Prelude.{◌≡◌, ◌<◌, length, map, AllPairs, IfOk};
ghost use Rattle.av_flat.specs.Trees.{view};
ghost use Rattle.av_flat.specs.Sites.{place_of};
ghost use Rattle.av_space.specs.Spots.{AreEnds, pipeline_by};

use crate::apart::slots_in;
use crate::array::Array;
use crate::layout::Slot;
use crate::linking::piece_at;
use crate::numbers::CellNumber;
use crate::tap::Pipeline;
use crate::tapping::{ReferenceAt, helper_at, same};
use av_base::{List, Memory};
use av_flat::{Helper, Node, Piece, ReadingPlace, Tree, Var, VariablePlace, tree_places};
use std::alloc::Global;

/// A piece of the variable of a cell's node, by its number, with its computations on the cell by cycle.
#[derive(Drop)]
pub struct Spot<'a> {
    pub cell: CellNumber,
    pub node: Node,
    pub place: VariablePlace,
    pub var: &'a Var,
    pub number: usize,
    pub piece: &'a Piece,
    pub slots: List<Slot>,
}

/// The first and the last cycle of computations.
#[derive(Clone, Copy, Debug, PartialEq, Eq)]
pub struct Ends {
    pub first: u32,
    pub last: u32,
}

/// A place of a piece that reads, with the helper of its reference.
#[derive(Drop)]
pub struct Site<'a> {
    pub place: ReadingPlace<'a>,
    pub pipeline: Option<Pipeline>,
}

/// The first and the last cycle of computations by cycle.
pub fn ends_of(slots: &[Slot]) -> Ends
    requires some { 0 < length slots.now }
    requires order { AllPairs (λ t u. t.cycle < u.cycle) slots.now }
    ensures { AreEnds slots.now result }
{
    Ends {
        first: slots[0].cycle,
        last: slots[slots.len() - 1].cycle,
    }
}

// A piece on a cell, by its number.
#[derive(Clone, Copy)]
struct PieceOn {
    cell: CellNumber,
    number: usize,
}

// The helper of a place that is a reference, of the variable at the place `own`.
fn pipeline(helpers: &[Helper], own: VariablePlace, place: &ReadingPlace<'_>) -> Option<Pipeline>
    ensures { result ≡ pipeline_by helpers.now own.0 (place_of place.now) (view place.now.tree) }
{
    match place.tree {
        Tree::Ref { .. } => helper_at(
            helpers,
            ReferenceAt {
                place: own,
                piece: place.piece,
                site: place.site,
            },
        ),
        _ => None,
    }
}

impl<'a> Array<'a> {
    ghost use Rattle.av_flat.specs.Trees.{view_variable};
    ghost use Rattle.av_space.specs.Spots.{cells_of, IsArray, IsSpot, AreSpots, AreSites};
    ghost use Rattle.av_space.specs.inner.SpotTaps.{IsVariableOn, HasPiece};

    // The variable of the node of a cell.
    fn variable(&self, cell: CellNumber) -> &'a Var
        requires array { IsArray self.now }
        requires cell { cell.0 < length (cells_of self.now) }
        ensures { IsVariableOn self.now cell.0 (view_variable result.now) }
    {
        let node = self.layout.cells.as_slice()[cell.0 as usize].node as usize;
        self.nodes.variable(Node(node))
    }

    // The piece with this number on a cell.
    fn spot(&self, alloc: Global, on: PieceOn) -> Result<Spot<'a>, Memory>
        requires array { IsArray self.now }
        requires cell { on.cell.0 < length (cells_of self.now) }
        requires piece { HasPiece self.now on.cell.0 on.number }
        ensures { IfOk result (λ at.
            (at.cell.0 ≡ on.cell.0) × (at.number ≡ on.number) × IsSpot self.now at) }
    {
        let node = Node(self.layout.cells.as_slice()[on.cell.0 as usize].node as usize);
        let place = self.nodes.place(node);
        let var = self.variable(on.cell);
        let piece = piece_at(var, on.number);
        let slots = slots_in(alloc, self.slots(on.cell), &piece.domain)?;
        Ok(Spot {
            cell: on.cell,
            node,
            place,
            var,
            number: on.number,
            piece,
            slots,
        })
    }

    /// The pieces with a computation on a cell, by their numbers.
    pub fn spots(&self, alloc: Global, cell: CellNumber) -> Result<List<Spot<'a>>, Memory>
        requires array { IsArray self.now }
        requires cell { cell.0 < length (cells_of self.now) }
        ensures { IfOk result (AreSpots self.now cell.0) }
    {
        let mut spots = List::new(alloc);
        for number in 0..self.variable(cell).pieces.as_slice().len() {
            let spot = self.spot(alloc, PieceOn { cell, number })?;
            if !spot.slots.as_slice().is_empty() {
                spots.push(spot)?;
            }
        }
        Ok(spots)
    }

    /// The places of a piece that read, in the order of the text.
    pub fn sites(&self, alloc: Global, spot: &Spot<'a>) -> Result<List<Site<'a>>, Memory>
        ensures { IfOk result (AreSites self.now spot.now) }
    {
        let helpers = self.timed.helpers.as_slice();
        let piece = spot.piece;
        let places = tree_places(alloc, spot.number, &piece.tree)?;
        let mut sites = List::new(alloc);
        for place in places.as_slice() {
            sites.push(Site {
                place: same(place),
                pipeline: pipeline(helpers, spot.place, place),
            })?;
        }
        Ok(sites)
    }
}
