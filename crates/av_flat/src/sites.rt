//! The places of pieces that read: references and picks, in the order of the text.

ghost use Rattle.std.specs.Prelude.{◌≡◌, ◌+◌, ◌<◌, ◌≤◌, ◌++◌, length, map, IfOk, OnOk};
ghost use Rattle.av_flat.specs.Trees.{view, view_piece};
ghost use Rattle.av_flat.specs.Broadcasts.{references};
ghost use Rattle.av_flat.specs.Sites.{place_of, places_in, places_from};
ghost use Rattle.av_flat.specs.inner.Walked.{HasPlaces, reference_at};

use crate::flat::Piece;
use crate::numbers::{SiteNumber, VariablePlace};
use crate::tree::Tree;
use av_affine::Map;
use av_base::{List, Memory};
use std::alloc::Global;
use std::marker::Model;

/// A place of a piece that reads: a reference or a pick, with the number of the piece. The references of a piece are numbered
/// from 0; a pick has the number of the next one.
#[derive(Debug, Drop)]
pub struct ReadingPlace<'a> {
    pub piece: usize,
    pub site: SiteNumber,
    pub tree: &'a Tree,
}

impl<'a> Model for ReadingPlace<'a> {
    ghost use Rattle.std.specs.Coded.{codes};
    ghost use Rattle.av_flat.specs.contracts.tree.Tree as made;
    ghost use Rattle.av_flat.specs.Sites.{PlaceMade};

    ghost Value = { PlaceMade };

    ghost coded = { Prim.hlevel (codes, made.the_row.coded) };

    ghost view = { λ p. record { piece = p.piece; site = p.site.0; tree = p.tree.now } };
}

/// A reference: the place of its variable, and its map.
#[derive(Debug, Drop)]
pub struct Reference<'a> {
    pub var: VariablePlace,
    pub map: &'a Map,
}

impl<'a> Model for Reference<'a> {
    ghost use Rattle.std.specs.Coded.{codes};
    ghost use Rattle.av_affine.specs.contracts.map.Map as made;
    ghost use Rattle.av_flat.specs.Broadcasts.{Reference as ReferenceSeen};

    ghost Value = { ReferenceSeen };

    ghost coded = { Prim.hlevel (codes, made.the_row.coded) };

    ghost view = { λ r. record { place = r.var.0; map = r.map.now } };
}

// The number after that of a reference, which is one of so many places.
fn next_site(site: SiteNumber, count: usize) -> SiteNumber
    requires within { site.0 < count }
    requires few { count ≤ 1073741824 }
    ensures { result.0 ≡ site.0 + 1 }
{
    SiteNumber(site.0 + 1)
}

// Appends the places of a tree; the number of the next reference.
fn add_places<'a>(
    piece: usize,
    site: SiteNumber,
    tree: &'a Tree,
    places: &mut List<ReadingPlace<'a>>,
) -> Result<SiteNumber, Memory>
    requires { site.0 ≤ length places.old }
    ensures { IfOk result (λ next.
        HasPlaces piece site.0 tree.now places.old places.new next.0) }
{
    match tree {
        Tree::Ref { .. } => {
            places.push(ReadingPlace { piece, site, tree })?;
            Ok(next_site(site, places.len()))
        }
        Tree::Pick { .. } => {
            places.push(ReadingPlace { piece, site, tree })?;
            Ok(site)
        }
        Tree::Binary { left, right, .. } => {
            let site = add_places(piece, site, left, places)?;
            add_places(piece, site, right, places)
        }
        Tree::Choose {
            left,
            right,
            yes,
            no,
            ..
        } => {
            let site = add_places(piece, site, left, places)?;
            let site = add_places(piece, site, right, places)?;
            let site = add_places(piece, site, yes, places)?;
            add_places(piece, site, no, places)
        }
        _ => Ok(site),
    }
}

/// The places of a tree that read, in the order of the text; it is the tree of the piece with this number.
pub fn tree_places<'a>(
    alloc: Global,
    piece: usize,
    tree: &'a Tree,
) -> Result<List<ReadingPlace<'a>>, Memory>
    ensures { IfOk result (λ places. map place_of places ≡ places_in piece 0 (view tree.now)) }
{
    let mut places = List::new(alloc);
    add_places(piece, SiteNumber(0), tree, &mut places)?;
    Ok(places)
}

/// The places of pieces that read, piece by piece.
pub fn piece_places<'a>(
    alloc: Global,
    pieces: &'a [Piece],
) -> Result<List<ReadingPlace<'a>>, Memory>
    ensures { IfOk result (λ places.
        map place_of places ≡ places_from 0 (map view_piece pieces.now)) }
{
    let mut places = List::new(alloc);
    for (number, piece) in pieces.iter().enumerate() {
        add_places(number, SiteNumber(0), &piece.tree, &mut places)?;
    }
    Ok(places)
}

// Puts a place behind the references, if it is one.
fn add_reference<'a>(
    place: &ReadingPlace<'a>,
    found: &mut List<Reference<'a>>,
) -> Result<(), Memory>
    ensures { OnOk result (found.new ≡ found.old ++ reference_at (view place.now.tree)) }
{
    let tree = place.tree;
    match tree {
        Tree::Ref { var, map } => found.push(Reference {
            var: VariablePlace(*var),
            map,
        }),
        _ => Ok(()),
    }
}

/// The references in a tree, in the order of the text; picks are left out.
pub fn tree_references<'a>(alloc: Global, tree: &'a Tree) -> Result<List<Reference<'a>>, Memory>
    ensures { IfOk result (λ to. to ≡ references (view tree.now)) }
{
    let places = tree_places(alloc, 0, tree)?;
    let mut found = List::new(alloc);
    for place in places.as_slice() {
        add_reference(place, &mut found)?;
    }
    Ok(found)
}
