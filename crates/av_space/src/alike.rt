//! Tap sites that read the same.

ghost use Rattle.std.specs.Prelude.{◌↔◌, IsTrue};
ghost use Rattle.av_flat.specs.Trees.{view};
ghost use Rattle.av_space.specs.inner.Alike.{AreAlike, AreOneReference, AreOneWay};
ghost use Rattle.av_space.specs.inner.Sites.{tap_of, way_of};

use crate::tap::{TapSite, Way};
use av_flat::Tree;

// Whether both are references to one variable by one map.
fn are_one_reference(a: &Tree, b: &Tree) -> bool
    ensures { IsTrue result ↔ AreOneReference (view a.now) (view b.now) }
{
    match a {
        Tree::Ref { var, map } => match b {
            Tree::Ref {
                var: other,
                map: image,
            } => var == other && map == image,
            _ => false,
        },
        _ => false,
    }
}

// Whether both read in one way, in one direction where they have one.
fn are_one_way(a: &Way, b: &Way) -> bool
    ensures { IsTrue result ↔ AreOneWay (way_of a.now) (way_of b.now) }
{
    match a {
        Way::Each => match b {
            Way::Each => true,
            _ => false,
        },
        Way::Entries(direction) => match b {
            Way::Entries(other) => direction == other,
            _ => false,
        },
        Way::Handed(_, direction) => match b {
            Way::Handed(_, other) => direction == other,
            _ => false,
        },
    }
}

/// Whether two tap sites are of one piece and read it in one way at equal references, and so read the same at each of its points.
pub(crate) fn are_alike(a: &TapSite<'_>, b: &TapSite<'_>) -> bool
    ensures { IsTrue result ↔ AreAlike (tap_of a.now) (tap_of b.now) }
{
    a.piece() == b.piece()
        && are_one_way(&a.way, &b.way)
        && are_one_reference(a.place.tree, b.place.tree)
}
