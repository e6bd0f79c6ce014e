//! The dimensions of the nodes.

ghost use Rattle.std.specs.Prelude.{◌≡◌, ◌<◌, length, map, All, IfOk};
ghost use Rattle.av_flat.specs.Trees.{view_system};
ghost use Rattle.av_flat.specs.Nodes.{nodes};
ghost use Rattle.av_flat.specs.Chained.{IsChained};
ghost use Rattle.av_sched.specs.Parts.{AreAllParts};

use crate::vector::vectors;
use av_base::{List, Memory, Point};
use av_flat::{Flat, Reach};
use std::alloc::Global;

/// How many indices each node has.
pub fn dimensions(alloc: Global, flat: &Flat) -> Result<Vec<u8>, Memory>
    ensures { IfOk result (λ dims. dims.items ≡
        map (λ v. v.domain.dim) (nodes (view_system flat.now))) }
{
    let mut dims = Vec::new(alloc);
    for var in flat.vars.as_slice() {
        if var.is_node() {
            dims.push(var.domain.dim)?;
        }
    }
    Ok(dims)
}

/// The linear parts that each node of the component can have.
pub(crate) fn lists_of(
    alloc: Global,
    flat: &Flat,
    reach: Reach,
    component: &[u32],
) -> Result<List<List<Point>>, Memory>
    requires chained { IsChained (view_system flat.now) }
    requires within { All (λ n. n < length (nodes (view_system flat.now))) component.now }
    ensures { IfOk result (AreAllParts (view_system flat.now) reach.size component.now) }
{
    let dims = dimensions(alloc, flat)?;
    let mut lists = List::new(alloc);
    for k in 0..component.len() {
        let node = component[k] as usize;
        let list = vectors(alloc, dims[node], reach)?;
        lists.push(list)?;
    }
    Ok(lists)
}
