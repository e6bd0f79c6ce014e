//! Where and when a computation stands.

ghost use Rattle.std.specs.Prelude.{◌≡◌, ◌<◌, ◌↔◌, IsTrue, Some, length, slice_get, AllPairs, Contains};
ghost use Rattle.av_flat.specs.Nodes.{IsComputation};
ghost use Rattle.av_flat.specs.Order.{IsBefore};
ghost use Rattle.av_space.specs.Occupancy.{IsCellBefore, Computes};
ghost use Rattle.av_space.specs.inner.Scheduled.{system_of, placings_of, cells_of};

use crate::cells::Cell;
use crate::layout::Located;
use crate::numbers::CellNumber;
use crate::scheduled::ScheduledSystem;
use av_base::Point;
use av_flat::Node;

// Whether the first entries come before the second.
fn is_before(a: &[i64], b: &[i64]) -> bool
    ensures { IsTrue result ↔ IsBefore a.now b.now }
{
    for k in 0..a.len() {
        if k == b.len() {
            return false;
        }
        if a[k] != b[k] {
            return a[k] < b[k];
        }
    }
    a.len() < b.len()
}

// Whether the cell comes before that of the node at these coordinates.
fn is_cell_before(cell: &Cell, node: Node, at: &Point) -> bool
    ensures { IsTrue result ↔ IsCellBefore cell.now (record { node = node.0; at = at.now }) }
{
    let own = cell.node as usize;
    if own != node.0 {
        return own < node.0;
    }
    is_before(cell.at.as_slice(), at.as_slice())
}

// The place in the list of the cell of the node at these coordinates.
fn cell_at(cells: &[Cell], node: Node, at: &Point) -> usize
    requires order { AllPairs IsCellBefore cells.now }
    requires there { Contains cells.now (record { node = node.0; at = at.now }) }
    ensures { slice_get cells.now result ≡ Some (record { node = node.0; at = at.now }) }
{
    let mut low: usize = 0;
    let mut high = cells.len();
    while low < high {
        let middle = low + (high - low) / 2;
        if is_cell_before(&cells[middle], node, at) {
            low = middle + 1;
        } else {
            high = middle;
        }
    }
    low
}

/// The cell that computes a point of a node, and the cycle in which it does.
pub(crate) fn locate(scheduled: &ScheduledSystem<'_>, node: Node, z: &Point) -> Located
    requires { IsComputation (system_of scheduled.now) node.0 z.now }
    ensures { Computes (system_of scheduled.now) (placings_of scheduled.now)
        (cells_of scheduled.now) result.cell.0 result.cycle node.0 z.now }
{
    let placements = scheduled.placements();
    let placement = &placements[node.0];
    let at = placement.coordinates(z);
    let cell = cell_at(scheduled.cells(), node, &at);
    Located {
        cell: CellNumber(cell as u32),
        cycle: placement.cycle(z) as u32,
    }
}
