//! All nodes together, and how many candidates they have.

ghost use Rattle.std.specs.Prelude.{◌≡◌, ◌≤◌, ◌-◌, ◌^◌, min, length, IfOk};
ghost use Rattle.av_flat.specs.Trees.{view_system};
ghost use Rattle.av_best.specs.Least.{all_nodes as every_node};
ghost use Rattle.av_best.specs.BestFaults.{joint_candidates};

use av_base::Memory;
use av_flat::{Flat, Nodes, Reach};
use av_sched::{candidates_of, dimensions};
use std::alloc::Global;

/// The numbers of all nodes.
pub(crate) fn all_nodes(alloc: Global, flat: &Flat) -> Result<Vec<u32>, Memory>
    ensures are { IfOk result (λ nodes. nodes.items ≡ every_node (view_system flat.now)) }
    ensures few { IfOk result (λ nodes. length nodes.items ≤ 1073741824) }
{
    let found = Nodes::new(alloc, flat)?;
    let mut nodes: Vec<u32> = Vec::new(alloc);
    for node in 0..found.len() {
        nodes.push(node as u32)?;
    }
    Ok(nodes)
}

/// How many candidates all nodes have together, and at most the greatest number.
pub(crate) fn joint_number(
    alloc: Global,
    flat: &Flat,
    reach: Reach,
    nodes: &[u32],
) -> Result<u128, Memory>
    requires { nodes.now ≡ every_node (view_system flat.now) }
    ensures { IfOk result (λ n.
        n ≡ min (joint_candidates (view_system flat.now) reach.size) (2 ^ 128 - 1)) }
{
    let dims = dimensions(alloc, flat)?;
    Ok(candidates_of(nodes, &dims, 2 * reach.size as u128 + 1))
}
