use crate::{DomainText, IndexExpr, MapText, Relation, Sign};
use av_base::{List, Name, Op, Place};

/// Where a reference reads, or what is written behind a constant.
#[derive(Debug, Drop)]
pub enum Access {
    /// Nothing is written: the point itself.
    Here,
    /// Index expressions in brackets, over the indices in reach.
    Indices(List<IndexExpr>),
    /// A map behind a point, with index names of its own.
    Mapped(MapText),
}

/// The right side of an equation, or a part of it (Mauras 1989; Wilde's reports on Alpha).
#[derive(Debug, Drop)]
pub enum Expr {
    /// A variable at a point. The place is that of the name.
    Ref {
        name: Name,
        at: Access,
        place: Place,
    },
    /// A number. The place is its own, or that of the `-` for the 0 of a unary minus.
    Const {
        value: u64,
        at: Access,
        place: Place,
    },
    /// Two parts under an operator. The place is that of the operator's token.
    Binary {
        sign: Sign,
        left: Box<Expr>,
        right: Box<Expr>,
        place: Place,
    },
    /// `if left compare right then yes else no`, at the place of the `if`.
    Choose {
        left: Box<Expr>,
        compare: Relation,
        right: Box<Expr>,
        yes: Box<Expr>,
        no: Box<Expr>,
        place: Place,
    },
    /// `domain : body`, at the place of the domain.
    Restrict {
        domain: DomainText,
        body: Box<Expr>,
        place: Place,
    },
    /// Branches, at least one, at the place of the `case`.
    Case {
        branches: List<Expr>,
        place: Place,
    },
    /// `body.map`, at the place of the map.
    Depend {
        map: MapText,
        body: Box<Expr>,
        place: Place,
    },
    /// `reduce(op, map, body)`, at the place of the `reduce`.
    Reduce {
        op: Op,
        map: MapText,
        body: Box<Expr>,
        place: Place,
    },
}
