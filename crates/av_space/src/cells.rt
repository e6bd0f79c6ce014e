ghost use Rattle.std.specs.Prelude.{◌≡◌};

use av_base::{List, Point};
use av_net::Listing;

/// A processing element: a node with one list of coordinates at which it has a computation.
#[derive(Clone, Debug, PartialEq, Eq, Drop)]
pub struct Cell {
    pub node: u32,
    pub at: Point,
}

impl Cell {
    /// The same cell once more.
    pub(crate) fn copied(&self) -> Cell
        ensures { result ≡ self.now }
    {
        Cell {
            node: self.node,
            at: Point::from_slice(self.at.as_slice()),
        }
    }
}

/// A stretch of cycles in which one tap site of a cell reads one cell with one delay, in cycles. The tap sites of a node
/// have the numbers from 0, by piece and then by place in the text: of a pipelined reference the entry reads come before
/// the pipeline's own, and a reduction's read of its predecessor comes last.
#[derive(Clone, Copy, Debug, PartialEq, Eq)]
pub struct Link {
    pub consumer: u32,
    pub producer: u32,
    pub site: u32,
    pub delay: u32,
    pub first: u32,
    pub last: u32,
}

/// The input port of a reference on a cell, by its piece and its number in that piece.
#[derive(Clone, Copy, Debug, PartialEq, Eq)]
pub struct InPort {
    pub cell: u32,
    pub piece: u32,
    pub site: u32,
}

/// The array of a scheduled system (Rao, Kailath 1988): its cells by node and then by coordinates, its links by
/// consumer, tap site and first cycle, and its ports in the order of their numbers.
#[derive(Debug, Drop)]
pub struct Cells {
    pub cells: List<Cell>,
    pub links: List<Link>,
    pub inputs: List<InPort>,
    /// The number of the cell of each output port.
    pub outputs: List<u32>,
    pub listing: Listing,
    /// The greatest cycle of a computation, plus 1.
    pub cycles: u32,
    /// The registers of all delay lines together.
    pub delays: u32,
}
