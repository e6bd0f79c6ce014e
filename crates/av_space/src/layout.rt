ghost use Rattle.std.specs.Prelude.{◌≡◌};

use crate::cells::Cell;
use crate::numbers::CellNumber;
use crate::placement::Placement;
use av_base::{List, Point};

/// A computation on a cell: its cycle and its point.
#[derive(Debug, Drop)]
pub struct Slot {
    pub cycle: u32,
    pub point: Point,
}

impl Slot {
    /// The same slot once more.
    pub(crate) fn copied(&self) -> Slot
        ensures { result ≡ self.now }
    {
        Slot {
            cycle: self.cycle,
            point: Point::from_slice(self.point.as_slice()),
        }
    }
}

/// Where and when the computations of a scheduled system stand.
#[derive(Debug, Drop)]
pub struct Layout {
    /// By node.
    pub(crate) placements: List<Placement>,
    pub(crate) cells: List<Cell>,
    /// Of each cell its computations by cycle.
    pub(crate) slots: List<List<Slot>>,
    /// The greatest cycle of a computation, plus 1.
    pub(crate) cycles: u32,
}

/// The cell and the cycle of a computation.
#[derive(Clone, Copy, Debug, PartialEq, Eq)]
pub(crate) struct Located {
    pub(crate) cell: CellNumber,
    pub(crate) cycle: u32,
}
