//! What the lanes of a kind choose from, by the operands of its ports.

use av_base::{List, Width};
use av_flat::Tree;
use av_net::Operand;
use std::marker::Model;

/// Numbers of the counter, by operands: up to the last one, or from the first one on up to the last one.
#[derive(Drop)]
pub(crate) enum Guard {
    UpTo(Operand),
    Within { first: Operand, last: Operand },
}

/// In a guard, this operand.
#[derive(Drop)]
pub(crate) struct Arm {
    pub(crate) guard: Guard,
    pub(crate) operand: Operand,
}

/// What brings a word: the operand of the first arm whose guard has the number, or the last one.
#[derive(Drop)]
pub(crate) struct Tap {
    /// Of its words.
    pub(crate) width: Width,
    pub(crate) arms: List<Arm>,
    pub(crate) otherwise: Operand,
}

/// A tree, and what brings the word of each place of it that reads.
#[derive(Drop)]
pub(crate) struct Datapath<'a> {
    pub(crate) taps: List<Tap>,
    pub(crate) tree: &'a Tree,
}

impl<'a> Model for Datapath<'a> {
    ghost use Rattle.std.specs.Coded.{codes};
    ghost use Rattle.av_flat.specs.contracts.tree.Tree as made;
    ghost use Rattle.av_kinds.specs.inner.Added.{DatapathMade};

    ghost Value = { DatapathMade };

    ghost coded = { Prim.hlevel (codes, made.the_row.coded) };

    ghost view = { λ p. record { taps = p.taps; tree = p.tree.now } };
}

/// In one of these guards, this datapath.
#[derive(Drop)]
pub(crate) struct GuardedDatapath<'a> {
    pub(crate) guards: List<Guard>,
    pub(crate) datapath: Datapath<'a>,
}

impl<'a> Model for GuardedDatapath<'a> {
    ghost use Rattle.std.specs.Coded.{codes};
    ghost use Rattle.av_flat.specs.contracts.tree.Tree as made;
    ghost use Rattle.av_kinds.specs.inner.Added.{GuardedDatapathMade};

    ghost Value = { GuardedDatapathMade };

    ghost coded = { Prim.hlevel (codes, made.the_row.coded) };

    ghost view = { λ t. record { guards = t.guards; datapath = t.datapath } };
}

/// The datapaths of a lane: the first that has a guard with the number, or the last one.
#[derive(Drop)]
pub(crate) struct LaneDatapaths<'a> {
    pub(crate) modes: List<GuardedDatapath<'a>>,
    pub(crate) otherwise: Datapath<'a>,
}

impl<'a> Model for LaneDatapaths<'a> {
    ghost use Rattle.std.specs.Coded.{codes};
    ghost use Rattle.av_flat.specs.contracts.tree.Tree as made;
    ghost use Rattle.av_kinds.specs.inner.Added.{LaneDatapathsMade};

    ghost Value = { LaneDatapathsMade };

    ghost coded = { Prim.hlevel (codes, made.the_row.coded) };

    ghost view = { λ l. record { modes = l.modes; otherwise = l.otherwise } };
}
