ghost use Rattle.std.specs.Prelude.{◌≡◌, ◌≤◌, ◌<◌, ◌⊎◌, IfSome, IfNone};

use crate::flat::Flat;
use crate::pass::Meant;
use av_base::limits::MOST_BOX;
use av_base::{List, Point};

/// When the points of a node are computed: at its linear part times the point, and the offset.
#[derive(Clone, Debug, PartialEq, Eq, Drop)]
pub struct Time {
    pub linear: Point,
    pub offset: i64,
}

/// A value that is handed from point to point in a direction, for one reference of a piece.
#[derive(Clone, Debug, PartialEq, Eq, Drop)]
pub struct Helper {
    pub var: u32,
    pub piece: u32,
    /// The number of the reference in the piece, from 0, by its place in the text.
    pub site: u32,
    pub direction: Point,
}

/// A system with a time for each node, in order, and its helpers.
#[derive(Debug, Drop)]
pub struct Timed {
    pub flat: Flat,
    pub times: List<Time>,
    pub helpers: List<Helper>,
}

impl Meant for Timed {
    ghost use Rattle.av_flat.specs.Trees.{view_system};
    ghost use Rattle.av_flat.specs.Solutions.{declares_of};
    ghost use Rattle.av_flat.specs.Helped.{helped_shows_of};

    ghost shows = { λ timed. helped_shows_of (view_system timed.flat) timed.helpers };

    ghost declares = { λ timed. declares_of (view_system timed.flat) };
}

/// How far the entries of linear parts go from 0: 1 to 4.
#[derive(Clone, Copy, Debug, PartialEq, Eq)]
pub struct Reach {
    pub size: u32,
    pub ghost least: { 1 ≤ size },
    pub ghost most: { size ≤ 4 },
}

impl Reach {
    /// The box of this size, or `None` at 0 and above 4.
    pub fn new(size: u32) -> Option<Reach>
        ensures some { IfSome result (λ reach. reach.size ≡ size) }
        ensures none { IfNone result ((size ≡ 0) ⊎ (4 < size)) }
    {
        if size == 0 || size > MOST_BOX {
            None
        } else {
            Some(Reach { size })
        }
    }
}
