//! The vectors that can be linear parts.

ghost use Rattle.std.specs.Prelude.{◌≡◌, ◌≢◌, ◌≤◌, ◌<◌, ◌+◌, pos, length, All, Any, IfOk, IsTrue, unsigned_abs};
ghost use Rattle.std.proofs.Math.IntN.{neg_ℤ};
ghost use Rattle.av_sched.specs.inner.Vectors.{ArePrepended, AreVectorsOf, AreLinearPartsOf};

use av_base::{List, Memory, Point};
use av_flat::{Reach, prepend_all};
use std::alloc::Global;

// The next number.
fn entry_after(size: u32) -> i64
    requires { size ≤ 4 }
    ensures { result ≡ pos (size + 1) }
{
    size as i64 + 1
}

// The number with its sign turned.
fn turned(entry: i64) -> i64
    requires { unsigned_abs entry ≤ 5 }
    ensures { result ≡ neg_ℤ entry }
{
    -entry
}

// All that have one of the entries in the box before one of the points.
fn longer(alloc: Global, shorter: &[Point], reach: Reach) -> Result<Vec<Point>, Memory>
    requires { All (λ y. length y < 4) shorter.now }
    ensures { IfOk result (λ to. ArePrepended shorter.now reach.size to.items) }
{
    let mut to = Vec::new(alloc);
    prepend_all(&mut to, 0, shorter)?;
    for size in 0..reach.size {
        let entry = entry_after(size);
        prepend_all(&mut to, entry, shorter)?;
        let other = turned(entry);
        prepend_all(&mut to, other, shorter)?;
    }
    Ok(to)
}

// All vectors in the box.
fn box_vectors(alloc: Global, dim: u8, reach: Reach) -> Result<Vec<Point>, Memory>
    requires { dim ≤ 4 }
    ensures { IfOk result (λ to. AreVectorsOf reach.size dim to.items) }
{
    let mut all = Vec::new(alloc);
    all.push(Point::from_slice(&[]))?;
    for _k in 0..dim {
        all = longer(alloc, &all, reach)?;
    }
    Ok(all)
}

// Whether some entry is not 0.
fn has_entry(point: &Point) -> bool
    ensures yes { IsTrue result → Any (λ x. x ≢ pos 0) point.now }
    ensures no { Any (λ x. x ≢ pos 0) point.now → IsTrue result }
{
    for entry in point.as_slice() {
        if *entry != 0 {
            return true;
        }
    }
    false
}

/// All linear parts of a node with so many indices.
pub(crate) fn vectors(alloc: Global, dim: u8, reach: Reach) -> Result<List<Point>, Memory>
    requires { dim ≤ 4 }
    ensures { IfOk result (AreLinearPartsOf reach.size dim) }
{
    let all = box_vectors(alloc, dim, reach)?;
    let mut list = List::new(alloc);
    for point in &all {
        if dim > 0 && !has_entry(point) {
            continue;
        }
        list.push(Point::from_slice(point.as_slice()))?;
    }
    Ok(list)
}
