//! Least offsets of given linear parts.

ghost use Rattle.std.specs.Prelude.{◌≡◌, ◌<◌, ℕ, length, map, slice_index_or, IsTrue, IfOk};
ghost use Rattle.av_affine.specs.Numbers.{AtMost};
ghost use Rattle.av_flat.specs.Trees.{view_system};
ghost use Rattle.av_flat.specs.Nodes.{nodes};
ghost use Rattle.av_sched.specs.Offsets.{part};

use super::chained;
use av_base::{Memory, Point};
use av_depend::edges;
use av_flat::Flat;
use av_sched::offsets;
use av_testing::texts::RUNNING_SUMS;
use std::alloc::Global;
use std::test::Fail;

// How many indices each node has.
fn dimensions(alloc: Global, flat: &Flat) -> Result<Vec<u8>, Memory>
    ensures { IfOk result (λ dims.
        dims.items ≡ map (λ v. v.domain.dim) (nodes (view_system flat.now))) }
{
    let mut dims = Vec::new(alloc);
    for var in flat.vars.as_slice() {
        if var.is_node() {
            dims.push(var.domain.dim)?;
        }
    }
    Ok(dims)
}

fn is_vector(dim: u8, point: &Point) -> bool
    ensures size { IsTrue result → length point.now ≡ dim }
    ensures entries { IsTrue result → AtMost 4 point.now }
{
    let entries = point.as_slice();
    entries.len() == dim as usize && entries.iter().all(|x| x.unsigned_abs() <= 4)
}

// Whether they are vectors of these dimensions with small entries.
fn are_vectors(dims: &[u8], linear: &[Point]) -> bool
    ensures one_each { IsTrue result → length linear.now ≡ length dims.now }
    ensures sizes { IsTrue result → (k : ℕ)
        → k < length dims.now → length (part linear.now k) ≡ slice_index_or dims.now k 0 }
    ensures entries { IsTrue result → (k : ℕ) → k < length dims.now → AtMost 4 (part linear.now k) }
{
    if linear.len() != dims.len() {
        return false;
    }
    for k in 0..dims.len() {
        if !is_vector(dims[k], &linear[k]) {
            return false;
        }
    }
    true
}

#[test]
fn offsets_of_running_sums(rt: HostRuntime) -> Result<(), Fail> {
    let alloc = rt.alloc();
    let flat = chained(alloc, RUNNING_SUMS, 0)?;
    let edges = edges(alloc, &flat)?;
    let linear = [Point::from_slice(&[1])];
    let dims = dimensions(alloc, &flat)?;
    assert!(rt; are_vectors(&dims, &linear));
    let found = offsets(alloc, &flat, edges.as_slice(), &linear)?.ok_or("none")?;
    assert_eq!(rt; found.as_slice(), [0].as_slice());
    Ok(())
}
