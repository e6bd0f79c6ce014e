//! The first feasible choice of each component in turn.

ghost use Rattle.std.specs.Prelude.{◌<◌, length, All, AllPairs, IfOk, IfSome, IfNone};
ghost use Rattle.av_flat.specs.Trees.{view_system};
ghost use Rattle.av_flat.specs.Nodes.{nodes};
ghost use Rattle.av_flat.specs.Chained.{IsChained};
ghost use Rattle.av_flat.specs.Proper.{IsProper};
ghost use Rattle.av_depend.specs.Edges.{AreEdgesOf};
ghost use Rattle.av_sched.specs.Choices.{AreLinearParts};
ghost use Rattle.av_sched.specs.inner.FirstChoices.{IsBestChoice, IsSearchOutcome, HasNone, AreComponentsOf};

use crate::choices::Choices;
use crate::price::Price;
use crate::walk::Walk;
use av_base::{List, Memory, Point};
use av_depend::Edge;
use av_flat::{Flat, Reach};
use std::alloc::Global;

// What the search over all components comes to.
#[derive(Debug, Drop)]
pub(crate) enum SearchOutcome {
    // linear parts that are the first choice for each
    Found(Vec<Point>),
    // the number of the first component without a feasible choice
    Infeasible(usize),
}

// The first feasible choice of a component, where it has one.
fn choose_one(
    alloc: Global,
    flat: &Flat,
    edges: &[Edge],
    reach: Reach,
    component: &[u32],
    linear: Vec<Point>,
) -> Result<Option<Vec<Point>>, Memory>
    requires chained { IsChained (view_system flat.now) }
    requires proper { IsProper (view_system flat.now) }
    requires edges { AreEdgesOf (view_system flat.now) edges.now }
    requires within { All (λ n. n < length (nodes (view_system flat.now))) component.now }
    requires apart { AllPairs (λ m n. m < n) component.now }
    requires linear { AreLinearParts (view_system flat.now) reach.size linear.items }
    ensures some { IfOk result (λ o. IfSome o (λ best.
        IsBestChoice (view_system flat.now) reach.size component.now linear.items best.items)) }
    ensures none { IfOk result (λ o. IfNone o
        (HasNone (view_system flat.now) reach.size component.now)) }
{
    let choices = Choices::new(alloc, flat, edges, reach, component)?;
    let mut walk = Walk::new(alloc, &choices, linear);
    walk.cover(alloc, 0, Price { left: 0, size: 0 })?;
    Ok(walk.into_best())
}

/// The first feasible choices of all components, from any linear parts on.
pub(crate) fn choose_all(
    alloc: Global,
    flat: &Flat,
    edges: &[Edge],
    reach: Reach,
    components: &[List<u32>],
    start: Vec<Point>,
) -> Result<SearchOutcome, Memory>
    requires chained { IsChained (view_system flat.now) }
    requires proper { IsProper (view_system flat.now) }
    requires edges { AreEdgesOf (view_system flat.now) edges.now }
    requires components { AreComponentsOf (view_system flat.now) components.now }
    requires start { AreLinearParts (view_system flat.now) reach.size start.items }
    ensures { IfOk result (IsSearchOutcome (view_system flat.now) reach.size components.now) }
{
    let mut linear = start;
    for k in 0..components.len() {
        match choose_one(alloc, flat, edges, reach, components[k].as_slice(), linear)? {
            None => return Ok(SearchOutcome::Infeasible(k)),
            Some(best) => {
                linear = best;
            }
        }
    }
    Ok(SearchOutcome::Found(linear))
}
