//! Cells sorted by what stands on them.

ghost use Rattle.std.specs.Prelude.{◌↔◌, ◌<◌, IsTrue, All, length, IfOk, MatchOption};
ghost use Rattle.av_build.specs.inner.Lanes.{HaveSamePieces, HasNoKind, IsKind, AreKindsOf};

use crate::blueprint::CellPlan;
use crate::spots::SpotPlan;
use av_base::{List, Memory};
use std::alloc::Global;

// Whether the pieces on two cells are the same ones of one node.
fn same_pieces(a: &[SpotPlan<'_>], b: &[SpotPlan<'_>]) -> bool
    ensures { IsTrue result ↔ HaveSamePieces a.now b.now }
{
    if a.len() != b.len() {
        return false;
    }
    for k in 0..a.len() {
        if a[k].node.0 != b[k].node.0 || a[k].number != b[k].number {
            return false;
        }
    }
    true
}

// The number of the kind that the cell is of, where one of the first cells of kinds is of it.
fn known(cells: &[CellPlan<'_>], firsts: &[usize], cell: &CellPlan<'_>) -> Option<usize>
    requires { All (λ first. first < length cells.now) firsts.now }
    ensures { MatchOption result
        (HasNoKind cells.now firsts.now cell.now) (IsKind cells.now firsts.now cell.now) }
{
    for (kind, first) in firsts.iter().enumerate() {
        let other = &cells[*first];
        if same_pieces(other.pieces.spots.as_slice(), cell.pieces.spots.as_slice()) {
            return Some(kind);
        }
    }
    None
}

/// Of each cell the number of its kind: cells of one kind have the same pieces of one node. Kinds are numbered by their first
/// cells.
pub(crate) fn kinds_of(alloc: Global, cells: &[CellPlan<'_>]) -> Result<List<usize>, Memory>
    ensures { IfOk result (AreKindsOf cells.now) }
{
    let mut firsts: List<usize> = List::new(alloc);
    let mut kinds = List::new(alloc);
    for (number, cell) in cells.iter().enumerate() {
        let kind = match known(cells, firsts.as_slice(), cell) {
            Some(kind) => kind,
            None => {
                let kind = firsts.as_slice().len();
                firsts.push(number)?;
                kind
            }
        };
        kinds.push(kind)?;
    }
    Ok(kinds)
}
