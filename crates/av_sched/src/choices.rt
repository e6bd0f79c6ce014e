//! The choices of linear parts for a component, and tests of them.

ghost use Rattle.std.specs.Prelude.{◌≡◌, ◌≤◌, ◌<◌, ◌↔◌, length, All, AllPairs, IfOk, IsTrue};
ghost use Rattle.av_flat.specs.Trees.{view_system};
ghost use Rattle.av_flat.specs.Nodes.{nodes};
ghost use Rattle.av_flat.specs.Chained.{IsChained};
ghost use Rattle.av_flat.specs.Proper.{IsProper};
ghost use Rattle.av_depend.specs.Edges.{AreEdgesOf};
ghost use Rattle.av_sched.specs.Witnesses.{IsWitness};
ghost use Rattle.av_sched.specs.inner.Walks.{choices_in, node_at, IsChoice, IsFeasibleChoice, IsForbiddenChoice, IsFloorFrom, IsInSystem, ArePartsAt, ArePricesOf};

use crate::arc::{least, settles};
use crate::leaf::{arcs_inside, no_offsets};
use crate::plan::{SearchPlan, plan_of};
use crate::pool::{Scratch, learn, witness_arcs};
use crate::price::Price;
use crate::witness::Witness;
use av_base::{Memory, Point};
use av_depend::Edge;
use av_flat::{Flat, Node, Reach};
use std::alloc::Global;
use std::marker::Model;

/// The choices of linear parts for the nodes of a component, in a box.
#[derive(Drop)]
pub(crate) struct Choices<'a> {
    flat: &'a Flat,
    edges: &'a [Edge],
    reach: Reach,
    component: &'a [u32],
    plan: SearchPlan,
}

impl<'a> Model for Choices<'a> {
    ghost use Rattle.std.specs.Coded.{codes};
    ghost use Rattle.av_flat.specs.contracts.flat.Flat as flat_made;
    ghost use Rattle.av_depend.specs.contracts.edge.Edge as edge_made;
    ghost use Rattle.av_sched.specs.inner.Walks.{Choices as ChoicesSeen};

    ghost Value = { ChoicesSeen };

    ghost coded = { Prim.hlevel (codes, flat_made.the_row.coded, edge_made.the_row.coded) };

    ghost use Rattle.av_sched.specs.inner.ChoicesInside.{choices_of, AreKnown};

    ghost view = { choices_of };

    ghost invariant = { AreKnown };
}

impl<'a> Choices<'a> {
    /// Those of a component of a proper system's nodes.
    pub(crate) fn new(
        alloc: Global,
        flat: &'a Flat,
        edges: &'a [Edge],
        reach: Reach,
        component: &'a [u32],
    ) -> Result<Choices<'a>, Memory>
        requires chained { IsChained (view_system flat.now) }
        requires proper { IsProper (view_system flat.now) }
        requires edges { AreEdgesOf (view_system flat.now) edges.now }
        requires within { All (λ n. n < length (nodes (view_system flat.now))) component.now }
        requires apart { AllPairs (λ m n. m < n) component.now }
        ensures choices { IfOk result (λ choices. choices ≡
            choices_in flat.now edges.now reach.size component.now) }
        ensures fits { IfOk result IsInSystem }
    {
        let plan = plan_of(alloc, flat, reach, component)?;
        Ok(Choices {
            flat,
            edges,
            reach,
            component,
            plan,
        })
    }

    /// The nodes of the component.
    pub(crate) fn component(&self) -> &[u32]
        ensures { result.now ≡ self.now.component }
    {
        self.component
    }

    /// The node at a level.
    pub(crate) fn node(&self, level: usize) -> Node
        requires { level < length self.now.component }
        ensures { result.0 ≡ node_at self.now level }
    {
        let component = self.component;
        Node(component[level] as usize)
    }

    /// The linear parts that the node at a level can have, and what each of them costs.
    pub(crate) fn candidates(&self, level: usize) -> (&[Point], &[Price])
        requires { level < length self.now.component }
        ensures parts { ArePartsAt self.now level result.0.now }
        ensures prices { ArePricesOf self.now level result.0.now result.1.now }
    {
        let parts = self.plan.lists.as_slice()[level].as_slice();
        let prices = self.plan.prices.as_slice()[level].as_slice();
        (parts, prices)
    }

    /// The least that the nodes from a level on can cost.
    pub(crate) fn floor(&self, level: usize) -> Price
        requires { level ≤ length self.now.component }
        ensures { IsFloorFrom self.now level result }
    {
        let remaining = self.component.len() - level;
        self.plan.floors[remaining]
    }

    /// Whether the choice is feasible, by all listed points of the edges inside the component.
    pub(crate) fn is_feasible(&self, alloc: Global, linear: &[Point]) -> Result<bool, Memory>
        requires { IsChoice self.now linear.now }
        ensures { IfOk result (λ b. IsTrue b ↔ IsFeasibleChoice self.now linear.now) }
    {
        let arcs = arcs_inside(alloc, self.edges, self.component, linear)?;
        let low = no_offsets(alloc, linear.len())?;
        match least(alloc, &arcs, &low)? {
            Some(_) => Ok(true),
            None => Ok(false),
        }
    }

    /// Whether the witnesses forbid the parts of the first nodes.
    pub(crate) fn is_forbidden(
        &self,
        level: usize,
        linear: &[Point],
        pool: &[Witness],
        scratch: &mut Scratch,
    ) -> Result<bool, Memory>
        requires linear { IsChoice self.now linear.now }
        requires pool { All (IsWitness self.now.edges self.now.component) pool.now }
        ensures { IfOk result (λ b. IsTrue b → IsForbiddenChoice self.now level linear.now) }
    {
        witness_arcs(self.component, level, linear, pool, &mut scratch.arcs)?;
        let settled = settles(&scratch.arcs, &mut scratch.off, &mut scratch.old, level)?;
        Ok(!settled)
    }

    /// Adds witnesses by which a choice that is not feasible is seen not to be.
    pub(crate) fn learn(
        &self,
        alloc: Global,
        linear: &[Point],
        pool: &mut Vec<Witness>,
    ) -> Result<(), Memory>
        requires linear { IsChoice self.now linear.now }
        requires pool { All (IsWitness self.now.edges self.now.component) pool.old.items }
        ensures { All (IsWitness self.now.edges self.now.component) pool.new.items }
    {
        learn(alloc, self.edges, self.component, linear, pool)
    }
}
