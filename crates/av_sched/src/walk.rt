//! The walk through the choices of a component: depth first, one node after another. What is left out is known to have no
//! feasible choice, or none that comes before the best one so far.

ghost use Rattle.std.specs.Prelude.{◌≡◌, ◌≤◌, ◌<◌, ◌↔◌, length, map, All, IfOk, IfSome, IfNone, OnOk, IsTrue, Some, None};
ghost use Rattle.std.specs.List.{flat_map};
ghost use Rattle.av_affine.specs.Numbers.{AtMost};
ghost use Rattle.av_sched.specs.Offsets.{part};
ghost use Rattle.av_sched.specs.Order.{entry_rank, IsLess};
ghost use Rattle.av_sched.specs.inner.Walk.{IsLike};
ghost use Rattle.av_sched.specs.inner.Walks.{walk_at, part_at, with_part, IsInSystem, IsChoice, HasSpent, IsBetter, IsPartAt, HasCovered};

use crate::choices::Choices;
use crate::cost::ranks_of;
use crate::part::is_less;
use crate::pool::Scratch;
use crate::price::{Price, PricedChoice, is_dear, with_more};
use crate::witness::Witness;
use av_base::{Memory, Point};
use av_depend::copy_point;
use std::alloc::Global;
use std::marker::Model;

/// The same points.
pub fn copy_points(alloc: Global, points: &[Point]) -> Result<Vec<Point>, Memory>
    ensures { IfOk result (λ to. to.items ≡ points.now) }
{
    let mut to = Vec::new(alloc);
    for point in points {
        to.push(copy_point(point))?;
    }
    Ok(to)
}

/// Whether the entries of the component's linear parts come before those of the others.
pub fn is_earlier(
    alloc: Global,
    component: &[u32],
    linear: &[Point],
    parts: &[Point],
) -> Result<bool, Memory>
    requires within { All (λ n. n < length linear.now) component.now }
    requires small { All (AtMost 4) linear.now }
    requires others { All (λ n. n < length parts.now) component.now }
    requires others_small { All (AtMost 4) parts.now }
    ensures { IfOk result (λ b. IsTrue b ↔ IsLess
        (map entry_rank (flat_map (part linear.now) component.now))
        (map entry_rank (flat_map (part parts.now) component.now))) }
{
    let own = ranks_of(alloc, component, linear)?;
    let least = ranks_of(alloc, component, parts)?;
    Ok(is_less(&own, &least))
}

/// A walk through choices: the linear parts at which it stands, and what was found so far.
#[derive(Drop)]
pub(crate) struct Walk<'a> {
    choices: &'a Choices<'a>,
    // Of all nodes of the system.
    linear: Vec<Point>,
    // Witnesses by which most choices are seen not to be feasible.
    pool: Vec<Witness>,
    scratch: Scratch,
    best: Option<PricedChoice>,
}

impl<'a> Model for Walk<'a> {
    ghost use Rattle.std.specs.Coded.{codes};
    ghost use Rattle.av_flat.specs.contracts.flat.Flat as flat_made;
    ghost use Rattle.av_depend.specs.contracts.edge.Edge as edge_made;
    ghost use Rattle.av_sched.specs.inner.Walks.{Walk as WalkSeen};

    ghost Value = { WalkSeen };

    ghost coded = { Prim.hlevel (codes, flat_made.the_row.coded, edge_made.the_row.coded) };

    ghost use Rattle.av_sched.specs.inner.WalkInside.{walk_of, IsKept};

    ghost view = { walk_of };

    ghost invariant = { IsKept };
}

impl<'a> Walk<'a> {
    /// From these linear parts on.
    pub(crate) fn new(alloc: Global, choices: &'a Choices<'a>, linear: Vec<Point>) -> Walk<'a>
        requires fits { IsInSystem choices.now }
        requires linear { IsChoice choices.now linear.items }
        ensures { result ≡ walk_at choices.now linear.items None }
    {
        Walk {
            choices,
            linear,
            pool: Vec::new(alloc),
            scratch: Scratch {
                arcs: Vec::new(alloc),
                off: Vec::new(alloc),
                old: Vec::new(alloc),
            },
            best: None,
        }
    }

    /// The best choice. It differs from the linear parts at which the walk stands in the component's nodes alone.
    pub(crate) fn into_best(self) -> Option<Vec<Point>>
        ensures some { IfSome result (λ best. self.entry.best ≡ Some best.items) }
        ensures none { IfNone result (self.entry.best ≡ None) }
        ensures like { IsLike self.entry.choices.component self.entry.linear self.entry.best }
    {
        let Walk { best, .. } = self;
        match best {
            None => None,
            Some(found) => Some(found.parts),
        }
    }

    // The linear part of the node at the level.
    fn part_at(&self, level: usize) -> Point
        requires { level < length self.now.choices.component }
        ensures { result ≡ part_at self.now level }
    {
        let node = self.choices.node(level);
        copy_point(&self.linear[node.0])
    }

    // Gives the node at the level a linear part.
    fn put(&mut self, level: usize, part: &Point)
        requires level { level < length self.old.choices.component }
        requires part { IsPartAt self.old.choices level part.now }
        ensures { self.new ≡ with_part self.old level part.now }
    {
        let node = self.choices.node(level);
        self.linear[node.0] = copy_point(part);
    }

    // Whether the choices with the same parts for the first nodes can be left out.
    fn is_barred(&mut self, level: usize, spent: Price) -> Result<bool, Memory>
        requires level { level ≤ length self.old.choices.component }
        requires spent { HasSpent self.old level spent }
        ensures same { OnOk result (self.new ≡ self.old) }
        ensures barred { IfOk result (λ b. IsTrue b → HasCovered self.old level self.old) }
    {
        if is_dear(spent, self.choices.floor(level), &self.best) {
            return Ok(true);
        }
        self.choices
            .is_forbidden(level, &self.linear, &self.pool, &mut self.scratch)
    }

    // Whether the choice comes before the best one so far.
    fn is_better(&self, alloc: Global, spent: Price) -> Result<bool, Memory>
        requires { HasSpent self.now (length self.now.choices.component) spent }
        ensures { IfOk result (λ b. IsTrue b ↔ IsBetter self.now) }
    {
        match &self.best {
            None => Ok(true),
            Some(found) => {
                if spent.left != found.price.left {
                    return Ok(spent.left < found.price.left);
                }
                if spent.size != found.price.size {
                    return Ok(spent.size < found.price.size);
                }
                let component = self.choices.component();
                is_earlier(alloc, component, &self.linear, &found.parts)
            }
        }
    }

    // Takes the choice as the best one where it is feasible and comes before that.
    fn leaf(&mut self, alloc: Global, spent: Price) -> Result<(), Memory>
        requires { HasSpent self.old (length self.old.choices.component) spent }
        ensures { OnOk result (HasCovered self.old (length self.old.choices.component) self.new) }
    {
        let choices = self.choices;
        if !self.is_better(alloc, spent)? {
            return Ok(());
        }
        let linear = self.linear.as_slice();
        if choices.is_feasible(alloc, linear)? {
            let parts = copy_points(alloc, linear)?;
            self.best = Some(PricedChoice {
                parts,
                price: spent,
            });
            return Ok(());
        }
        choices.learn(alloc, linear, &mut self.pool)
    }

    /// Goes through all choices with the same parts for the first nodes, where these may not be left out.
    pub(crate) fn cover(&mut self, alloc: Global, level: usize, spent: Price) -> Result<(), Memory>
        requires level { level ≤ length self.old.choices.component }
        requires spent { HasSpent self.old level spent }
        ensures { OnOk result (HasCovered self.old level self.new) }
    {
        if self.is_barred(level, spent)? {
            return Ok(());
        }
        let choices = self.choices;
        let levels = choices.component().len();
        if level == levels {
            return self.leaf(alloc, spent);
        }
        let next = level + 1;
        let before = self.part_at(level);
        let (parts, prices) = choices.candidates(level);
        for k in 0..parts.len() {
            self.put(level, &parts[k]);
            let own = with_more(spent, prices[k]);
            self.cover(alloc, next, own)?;
        }
        self.put(level, &before);
        Ok(())
    }
}
