//! The computations of a cell that are points of a set, and sets that have none of them. The computations of a cell stand on a line,
//! in turn, so that a row which holds at neither the first nor the last of them holds at none.

ghost use Rattle.std.specs.Prelude.{ℤ, List as Items, ◌≡◌, false, All, IfOk, IsTrue, filter};
ghost use Rattle.av_affine.specs.Forms.{IsWithinLimits};
ghost use Rattle.av_affine.specs.Numbers.{AtMost};
ghost use Rattle.av_depend.specs.SetPoints.{IsPointOf};
ghost use Rattle.av_flat.specs.Points.{has};
ghost use Rattle.av_poly.specs.Points.{Holds, HoldsAt};
ghost use Rattle.av_space.specs.inner.Apart.{StandsBetween, AreOfNode};

use crate::layout::Slot;
use crate::reading::is_in;
use av_affine::Form;
use av_base::{List, Memory, Point};
use av_poly::Poly;
use std::alloc::Global;

// Whether the row is below 0 at the point.
fn is_below(row: &Form, z: &Point) -> bool
    requires row { IsWithinLimits row.now }
    requires point { AtMost 4095 z.now }
    ensures { IsTrue result → HoldsAt row.now z.now → ⊥ }
{
    row.at(z) < 0
}

// Whether the row is below 0 at both ends.
fn is_below_both(row: &Form, first: &Point, last: &Point) -> bool
    requires row { IsWithinLimits row.now }
    requires first { AtMost 4095 first.now }
    requires last { AtMost 4095 last.now }
    ensures { IsTrue result → (z : Items ℤ)
        → StandsBetween first.now last.now z → HoldsAt row.now z → ⊥ }
{
    if is_below(row, first) {
        is_below(row, last)
    } else {
        false
    }
}

// Whether one of the rows is below 0 at both ends.
fn one_is_below_both(rows: &[Form], first: &Point, last: &Point) -> bool
    requires rows { All IsWithinLimits rows.now }
    requires first { AtMost 4095 first.now }
    requires last { AtMost 4095 last.now }
    ensures { IsTrue result → (z : Items ℤ)
        → StandsBetween first.now last.now z → Holds rows.now z → ⊥ }
{
    for row in rows {
        if is_below_both(row, first, last) {
            return true;
        }
    }
    false
}

/// Whether one row of the set is below 0 at the first and at the last of the computations on a cell, so that none of them is a point
/// of the set. Where there are two at most, the answer is no: to ask them is as quick.
pub(crate) fn are_apart(slots: &[Slot], set: &Poly) -> bool
    requires { AreOfNode set.now slots.now }
    ensures { IsTrue result → All (λ t. has set.now t.point ≡ false) slots.now }
{
    if slots.len() <= 2 {
        return false;
    }
    one_is_below_both(
        set.rows.as_slice(),
        &slots[0].point,
        &slots[slots.len() - 1].point,
    )
}

// Those of the computations that are points of the set, as each of them tells.
fn slots_among(alloc: Global, slots: &[Slot], set: &Poly) -> Result<List<Slot>, Memory>
    requires { All (λ t. IsPointOf set.now t.point) slots.now }
    ensures { IfOk result (λ own. own ≡ filter (λ t. has set.now t.point) slots.now) }
{
    let mut own = List::new(alloc);
    for slot in slots {
        if is_in(set, &slot.point) {
            own.push(slot.copied())?;
        }
    }
    Ok(own)
}

/// Those of the computations on a cell that are points of the set.
pub(crate) fn slots_in(alloc: Global, slots: &[Slot], set: &Poly) -> Result<List<Slot>, Memory>
    requires { AreOfNode set.now slots.now }
    ensures { IfOk result (λ own. own ≡ filter (λ t. has set.now t.point) slots.now) }
{
    if are_apart(slots, set) {
        Ok(List::new(alloc))
    } else {
        slots_among(alloc, slots, set)
    }
}
