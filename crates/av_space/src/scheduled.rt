//! Scheduled systems.

ghost use Rattle.std.specs.Prelude.{◌≡◌, ◌<◌, length, Some, slice_get};
ghost use Rattle.av_flat.specs.Legal.{IsLegal};
ghost use Rattle.av_flat.specs.Nodes.{nodes};
ghost use Rattle.av_flat.specs.Trees.{view_variable};
ghost use Rattle.av_space.specs.Layouts.{IsLayout};
ghost use Rattle.av_space.specs.inner.Scheduled.{IsScheduled, system_of, placings_of, cells_of};

use crate::cells::Cell;
use crate::layout::{Layout, Slot};
use crate::placement::Placement;
use crate::timed_nodes::TimedNodes;
use av_base::List;
use av_flat::{Node, Var};
use std::marker::Model;

/// A legal timed system with its nodes, and where and when its computations stand. Contracts see the system and its layout.
#[derive(Drop)]
pub(crate) struct ScheduledSystem<'a> {
    timed: &'a TimedNodes<'a>,
    layout: &'a Layout,
}

impl<'a> Model for ScheduledSystem<'a> {
    ghost use Rattle.std.specs.Coded.{codes};
    ghost use Rattle.av_flat.specs.contracts.timed.Timed as timed_made;
    ghost use Rattle.av_space.specs.contracts.layout.Layout as layout_made;
    ghost use Rattle.av_space.specs.inner.Scheduled.{Scheduled, IsScheduled};

    ghost Value = { Scheduled };

    ghost coded = { Prim.hlevel (codes, timed_made.the_row.coded, layout_made.the_row.coded) };

    ghost view = { λ s. record { timed = s.timed.now; layout = s.layout.now } };

    ghost invariant = { λ s. IsScheduled (record { timed = s.timed.now; layout = s.layout.now }) };
}

impl<'a> ScheduledSystem<'a> {
    /// A system with its layout.
    pub(crate) fn new(timed: &'a TimedNodes<'a>, layout: &'a Layout) -> ScheduledSystem<'a>
        requires legal { IsLegal timed.now }
        requires layout { IsLayout timed.now layout.now }
        ensures { result ≡ record { timed = timed.now; layout = layout.now } }
    {
        ScheduledSystem { timed, layout }
    }

    /// The system.
    pub(crate) fn timed(&self) -> &'a TimedNodes<'a>
        ensures is { result.now ≡ self.now.timed }
        ensures scheduled { IsScheduled self.now }
    {
        self.timed
    }

    /// The placement of each node.
    pub(crate) fn placements(&self) -> &'a [Placement]
        ensures is { result.now ≡ placings_of self.now }
        ensures scheduled { IsScheduled self.now }
    {
        self.layout.placements.as_slice()
    }

    /// The cells, in order.
    pub(crate) fn cells(&self) -> &'a [Cell]
        ensures is { result.now ≡ cells_of self.now }
        ensures scheduled { IsScheduled self.now }
    {
        self.layout.cells.as_slice()
    }

    /// Of each cell its computations by cycle.
    pub(crate) fn slots(&self) -> &'a [List<Slot>]
        ensures is { result.now ≡ self.now.layout.slots }
        ensures scheduled { IsScheduled self.now }
    {
        self.layout.slots.as_slice()
    }

    /// The greatest cycle of a computation, plus 1.
    pub(crate) fn cycles(&self) -> u32
        ensures { result ≡ self.now.layout.cycles }
    {
        self.layout.cycles
    }

    /// How many nodes there are.
    pub(crate) fn node_count(&self) -> usize
        ensures { result ≡ length (nodes (system_of self.now)) }
    {
        self.timed.len()
    }

    /// The variable of a node.
    pub(crate) fn variable(&self, node: Node) -> &'a Var
        requires { node.0 < length (nodes (system_of self.now)) }
        ensures { slice_get (nodes (system_of self.now)) node.0 ≡ Some (view_variable result.now) }
    {
        self.timed.variable(node)
    }
}
