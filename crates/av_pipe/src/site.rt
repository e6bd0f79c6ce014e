//! The helpers of the references of a piece.

ghost use Rattle.std.specs.Prelude.{◌≡◌, ◌≤◌, ◌++◌, OnOk, length, map};
ghost use Rattle.std.specs.List.{AllByRecursion};
ghost use Rattle.av_affine.specs.Numbers.{AtMost};
ghost use Rattle.av_flat.specs.Trees.{view, view_piece};
ghost use Rattle.av_flat.specs.Broadcasts.{references, first_moving};
ghost use Rattle.av_pipe.specs.Pipelines.{helper_of, of_references, of_pieces};
ghost use Rattle.av_pipe.specs.inner.Helping.{IsFineMap, HasFineMaps};

use av_affine::Map;
use av_base::{List, Memory, Point};
use av_flat::{
    Helper, Piece, Reference, SiteNumber, Tree, VariablePlace, first_moving, tree_references,
};
use std::alloc::Global;

// A piece whose references are gone through: the place of its variable, its number, the linear part of its node, and the points
// among which directions are sought.
#[derive(Drop)]
struct MovedPiece<'a> {
    place: VariablePlace,
    number: u32,
    linear: &'a Point,
    points: &'a [Point],
}

// Appends the helper of the reference with this number and this map, where it is moved.
fn reference_helper(
    piece: &MovedPiece<'_>,
    site: SiteNumber,
    map: &Map,
    helpers: &mut List<Helper>,
) -> Result<(), Memory>
    requires linear { AtMost 4 piece.now.linear.now }
    requires fine { IsFineMap piece.now.points.now map.now }
    ensures { OnOk result (helpers.new ≡ helpers.old ++ helper_of
        piece.now.place.0 piece.now.number site.0 (first_moving piece.now.linear.now map.now)) }
{
    if let Some(direction) = first_moving(piece.linear, map, piece.points) {
        helpers.push(Helper {
            var: piece.place.0,
            piece: piece.number,
            site: site.0,
            direction,
        })?;
    }
    Ok(())
}

// Appends the helpers of references.
fn reference_helpers(
    piece: &MovedPiece<'_>,
    found: &[Reference<'_>],
    helpers: &mut List<Helper>,
) -> Result<(), Memory>
    requires linear { AtMost 4 piece.now.linear.now }
    requires few { length found.now ≤ 1073741824 }
    requires fine { AllByRecursion (λ r. IsFineMap piece.now.points.now r.map) found.now }
    ensures { OnOk result (helpers.new ≡ helpers.old
        ++ of_references piece.now.place.0 piece.now.number piece.now.linear.now 0 found.now) }
{
    for (site, reference) in found.iter().enumerate() {
        let site = SiteNumber(site as u32);
        reference_helper(piece, site, reference.map, helpers)?;
    }
    Ok(())
}

// Appends the helpers of the references in a tree.
fn tree_helpers(
    alloc: Global,
    piece: &MovedPiece<'_>,
    tree: &Tree,
    helpers: &mut List<Helper>,
) -> Result<(), Memory>
    requires linear { AtMost 4 piece.now.linear.now }
    requires maps { HasFineMaps piece.now.points.now (view tree.now) }
    ensures { OnOk result (helpers.new ≡ helpers.old ++ of_references
        piece.now.place.0 piece.now.number piece.now.linear.now 0 (references (view tree.now))) }
{
    let found = tree_references(alloc, tree)?;
    // So few that 32 bits number them.
    let _most = found.len();
    reference_helpers(piece, found.as_slice(), helpers)
}

/// Appends the helpers of the references of a variable's pieces.
pub(crate) fn piece_helpers(
    alloc: Global,
    place: VariablePlace,
    linear: &Point,
    points: &[Point],
    pieces: &[Piece],
    helpers: &mut List<Helper>,
) -> Result<(), Memory>
    requires linear { AtMost 4 linear.now }
    requires few { length pieces.now ≤ 1073741824 }
    requires maps { AllByRecursion
        (λ p. HasFineMaps points.now p.tree) (map view_piece pieces.now) }
    ensures { OnOk result (helpers.new
        ≡ helpers.old ++ of_pieces place.0 linear.now 0 (map view_piece pieces.now)) }
{
    for (number, piece) in pieces.iter().enumerate() {
        let moved = MovedPiece {
            place,
            number: number as u32,
            linear,
            points,
        };
        tree_helpers(alloc, &moved, &piece.tree, helpers)?;
    }
    Ok(())
}
