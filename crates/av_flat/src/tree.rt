ghost use Rattle.std.specs.Prelude.{◌≡◌};
ghost use Rattle.av_flat.specs.Trees as flat;
ghost use Rattle.av_flat.specs.Trees.{view};

use av_affine::Map;
use av_base::{List, Op, Word};
use av_poly::Poly;
use av_tree::{Relation, Sign};

/// One of the reads of a `Pick`: where the set holds the point, it reads the image under the map.
#[derive(Debug, Drop)]
pub struct Choice {
    pub set: Poly,
    pub map: Map,
}

/// The right side of a piece, or a part of it, over the indices of its context (Mauras 1989; Wilde's reports
/// on Alpha). A variable is identified by its place in `Flat::vars`.
#[derive(Debug, Drop)]
pub enum Tree {
    /// A variable at the image of the point.
    Ref {
        var: u32,
        map: Map,
    },
    /// A word, below 2 to the width of the equation.
    Const(Word),
    /// Two parts under an operator.
    Binary {
        sign: Sign,
        left: Box<Tree>,
        right: Box<Tree>,
    },
    /// `yes` where the words of `left` and `right` compare so, as signed numbers, else `no`.
    Choose {
        left: Box<Tree>,
        compare: Relation,
        right: Box<Tree>,
        yes: Box<Tree>,
        no: Box<Tree>,
    },
    /// The body, inside the domain alone.
    Restrict {
        domain: Poly,
        body: Box<Tree>,
    },
    /// The one branch that has a word at the point.
    Case {
        branches: List<Tree>,
    },
    /// The body at the image of the point.
    Depend {
        map: Map,
        body: Box<Tree>,
    },
    /// The fold of the body's words over the points that the map sends to this point, by the index that the map
    /// drops, ascending. Only points of `set`, which is a set over the body's indices, are taken.
    Reduce {
        op: Op,
        map: Map,
        body: Box<Tree>,
        set: Poly,
    },
    /// The variable at the image under the first choice whose set holds the point, and the word `otherwise`
    /// where no set does.
    Pick {
        var: u32,
        choices: List<Choice>,
        otherwise: Word,
    },
}

impl Tree {
    /// Two parts under an operator.
    pub fn binary(sign: Sign, left: Box<Tree>, right: Box<Tree>) -> Tree
        ensures { view result ≡ flat.binary sign (view left.value) (view right.value) }
    {
        Tree::Binary { sign, left, right }
    }

    /// One of two parts, as the words of two others compare.
    pub fn choice(
        left: Box<Tree>,
        compare: Relation,
        right: Box<Tree>,
        yes: Box<Tree>,
        no: Box<Tree>,
    ) -> Tree
        ensures { view result ≡ flat.choice
            (view left.value) compare (view right.value) (view yes.value) (view no.value) }
    {
        Tree::Choose {
            left,
            compare,
            right,
            yes,
            no,
        }
    }

    /// A body inside a domain alone.
    pub fn restriction(domain: Poly, body: Box<Tree>) -> Tree
        ensures { view result ≡ flat.restriction domain (view body.value) }
    {
        Tree::Restrict { domain, body }
    }

    /// A body at the image of the point.
    pub fn dependence(map: Map, body: Box<Tree>) -> Tree
        ensures { view result ≡ flat.dependence map (view body.value) }
    {
        Tree::Depend { map, body }
    }

    /// The fold of a body over the points of a set that a map sends to the point.
    pub fn reduction(op: Op, map: Map, body: Box<Tree>, set: Poly) -> Tree
        ensures { view result ≡ flat.reduction op map (view body.value) set }
    {
        Tree::Reduce { op, map, body, set }
    }
}
