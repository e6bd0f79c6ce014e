//! Linear parts to begin with, how many candidates a component has, and the order of costs.

ghost use Rattle.std.specs.Prelude.{ℕ, ◌≡◌, ◌≤◌, ◌<◌, ◌-◌, ◌^◌, min, length, All, IfOk, IsTrue, ◌↔◌};
ghost use Rattle.av_flat.specs.Trees.{view_system};
ghost use Rattle.av_flat.specs.Schedules.{IsLinearPart};
ghost use Rattle.av_flat.specs.Chained.{IsChained};
ghost use Rattle.av_sched.specs.Choices.{AreLinearParts};
ghost use Rattle.av_sched.specs.Order.{IsLess};
ghost use Rattle.av_sched.specs.Parts.{indices_of};

use crate::node::dimensions;
use av_base::{Memory, Point};
use av_flat::Flat;
use std::alloc::Global;

// The first unit vector.
fn unit(dim: u8) -> Point
    requires { dim ≤ 4 }
    ensures { (c : ℕ) → 1 ≤ c → IsLinearPart c dim result }
{
    if dim == 0 {
        Point::from_slice(&[])
    } else if dim == 1 {
        Point::from_slice(&[1])
    } else if dim == 2 {
        Point::from_slice(&[1, 0])
    } else if dim == 3 {
        Point::from_slice(&[1, 0, 0])
    } else {
        Point::from_slice(&[1, 0, 0, 0])
    }
}

/// A linear part for each node.
pub fn first_parts(alloc: Global, flat: &Flat) -> Result<Vec<Point>, Memory>
    requires { IsChained (view_system flat.now) }
    ensures { IfOk result (λ parts. (box : ℕ) → 1 ≤ box
        → AreLinearParts (view_system flat.now) box parts.items) }
{
    let dims = dimensions(alloc, flat)?;
    let mut parts = Vec::new(alloc);
    for k in 0..dims.len() {
        parts.push(unit(dims[k]))?;
    }
    Ok(parts)
}

/// Whether the first number in which they differ is less in the first.
pub(crate) fn is_less(a: &[u64], b: &[u64]) -> bool
    ensures { IsTrue result ↔ IsLess a.now b.now }
{
    if a.is_empty() {
        return false;
    }
    if b.is_empty() {
        return false;
    }
    if a[0] < b[0] {
        return true;
    }
    if a[0] > b[0] {
        return false;
    }
    is_less(&a[1..], &b[1..])
}

/// How many candidates the component has, and at most the greatest number.
pub fn candidates_of(component: &[u32], dims: &[u8], base: u128) -> u128
    requires within { All (λ n. n < length dims.now) component.now }
    requires base { 1 ≤ base }
    ensures { result ≡ min (base ^ indices_of dims.now component.now) (2 ^ 128 - 1) }
{
    let mut number: u128 = 1;
    for k in 0..component.len() {
        for _index in 0..dims[component[k] as usize] {
            number = number.saturating_mul(base);
        }
    }
    number
}
