//! Timed systems with their nodes.

ghost use Rattle.std.specs.Prelude.{◌≡◌, ◌<◌, ◌≤◌, length, Some, slice_get, IfOk};
ghost use Rattle.av_flat.specs.Legal.{IsLegal};
ghost use Rattle.av_flat.specs.Nodes.{nodes, node_place, number_at};
ghost use Rattle.av_flat.specs.Trees.{view_system, view_variable};

use av_base::Memory;
use av_flat::{Node, Nodes, Time, Timed, Var, VariablePlace};
use std::alloc::Global;
use std::marker::Model;

/// A legal timed system with its nodes, found once. Contracts see the system.
#[derive(Drop)]
pub(crate) struct TimedNodes<'a> {
    timed: &'a Timed,
    nodes: Nodes<'a>,
}

impl<'a> Model for TimedNodes<'a> {
    ghost use Rattle.std.specs.Prelude.{◌≡◌};
    ghost use Rattle.std.specs.Coded.{codes};
    ghost use Rattle.av_flat.specs.contracts.timed.Timed as made;
    ghost use Rattle.av_flat.specs.declared.timed.Timed.{Timed as TimedSeen};
    ghost use Rattle.av_flat.specs.Legal.{IsLegal};

    ghost Value = { TimedSeen };

    ghost coded = { Prim.hlevel (codes, made.the_row.coded) };

    ghost view = { λ it. it.timed.now };

    ghost invariant = { λ it. (it.nodes ≡ it.timed.now.flat) × IsLegal it.timed.now };
}

impl<'a> TimedNodes<'a> {
    /// Those of a system.
    pub(crate) fn new(alloc: Global, timed: &'a Timed) -> Result<TimedNodes<'a>, Memory>
        requires { IsLegal timed.now }
        ensures { IfOk result (λ found. found ≡ timed.now) }
    {
        let nodes = Nodes::new(alloc, &timed.flat)?;
        Ok(TimedNodes { timed, nodes })
    }

    /// The system.
    pub(crate) fn system(&self) -> &'a Timed
        ensures { result.now ≡ self.now }
    {
        self.timed
    }

    /// The time of each node.
    pub(crate) fn times(&self) -> &'a [Time]
        ensures is { result.now ≡ self.now.times }
        ensures legal { IsLegal self.now }
    {
        self.timed.times.as_slice()
    }

    /// The time of a node.
    pub(crate) fn time(&self, node: Node) -> &'a Time
        requires { node.0 < length (nodes (view_system self.now.flat)) }
        ensures is { slice_get self.now.times node.0 ≡ Some result.now }
        ensures legal { IsLegal self.now }
    {
        &self.timed.times.as_slice()[node.0]
    }

    /// How many nodes there are.
    pub(crate) fn len(&self) -> usize
        ensures count { result ≡ length (nodes (view_system self.now.flat)) }
        ensures most { result ≤ 1073741824 }
        ensures legal { IsLegal self.now }
    {
        self.nodes.len()
    }

    /// The number of the node at a place of the variables.
    pub(crate) fn number(&self, place: VariablePlace) -> Node
        requires { place.0 < length self.now.flat.vars }
        ensures { result.0 ≡ number_at (view_system self.now.flat) place.0 }
    {
        self.nodes.number(place)
    }

    /// The place of a node among the variables.
    pub(crate) fn place(&self, node: Node) -> VariablePlace
        requires { node.0 < length (nodes (view_system self.now.flat)) }
        ensures { result.0 ≡ node_place (view_system self.now.flat) node.0 }
    {
        self.nodes.place(node)
    }

    /// The variable of a node.
    pub(crate) fn variable(&self, node: Node) -> &'a Var
        requires { node.0 < length (nodes (view_system self.now.flat)) }
        ensures is { slice_get (nodes (view_system self.now.flat)) node.0
            ≡ Some (view_variable result.now) }
        ensures legal { IsLegal self.now }
    {
        self.nodes.variable(node)
    }
}
