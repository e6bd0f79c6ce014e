//! What is known of a component before the walk through its choices.

ghost use Rattle.std.specs.Prelude.{◌<◌, length, All, IfOk};
ghost use Rattle.av_flat.specs.Trees.{view_system};
ghost use Rattle.av_flat.specs.Nodes.{nodes};
ghost use Rattle.av_flat.specs.Chained.{IsChained};
ghost use Rattle.av_sched.specs.Parts.{AreAllParts};
ghost use Rattle.av_sched.specs.Prices.{ArePricesTo, AreFloorsTo};

use crate::cost::{floors_of, prices_of};
use crate::node::lists_of;
use crate::price::Price;
use av_base::{List, Memory, Point};
use av_flat::{Flat, Reach};
use std::alloc::Global;

/// What is known of a component before the walk: the linear parts that each node can have and what each costs, and the least
/// that the last nodes can cost, for each number of them.
#[derive(Debug, Drop)]
pub struct SearchPlan {
    pub lists: List<List<Point>>,
    pub prices: List<List<Price>>,
    pub floors: Vec<Price>,
}

/// What the walk through the choices of a component needs to know before.
pub fn plan_of(
    alloc: Global,
    flat: &Flat,
    reach: Reach,
    component: &[u32],
) -> Result<SearchPlan, Memory>
    requires chained { IsChained (view_system flat.now) }
    requires within { All (λ n. n < length (nodes (view_system flat.now))) component.now }
    ensures lists { IfOk result (λ plan.
        AreAllParts (view_system flat.now) reach.size component.now plan.lists) }
    ensures prices { IfOk result (λ plan.
        ArePricesTo (view_system flat.now) component.now (length component.now)
        plan.lists plan.prices) }
    ensures floors { IfOk result (λ plan.
        AreFloorsTo (view_system flat.now) reach.size component.now (length component.now)
        plan.floors.items) }
{
    let lists = lists_of(alloc, flat, reach, component)?;
    let prices = prices_of(alloc, flat, component, lists.as_slice())?;
    let floors = floors_of(alloc, prices.as_slice())?;
    Ok(SearchPlan {
        lists,
        prices,
        floors,
    })
}
