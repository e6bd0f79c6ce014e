//! The pieces on cells, without their computations and with them.

ghost use Rattle.std.specs.Prelude.{◌≡◌, All, filter, map, IfOk};
ghost use Rattle.av_flat.specs.Points.{has};
ghost use Rattle.av_depend.specs.SetPoints.{IsPointOf};
ghost use Rattle.av_space.specs.Spots.{IsArray, IsSpot};
ghost use Rattle.av_build.specs.inner.SpotPlans.{plan_of, spot_by};

use av_base::{List, Memory, Point};
use av_flat::{Node, Piece, Var, VariablePlace};
use av_poly::Poly;
use av_space::{Array, CellNumber, Slot, Spot};
use std::alloc::Global;

/// A piece on a cell, as a spot has it, without its computations: those of all cells together are as large as the layout.
#[derive(Drop)]
pub(crate) struct SpotPlan<'a> {
    pub(crate) cell: CellNumber,
    pub(crate) node: Node,
    pub(crate) place: VariablePlace,
    pub(crate) var: &'a Var,
    pub(crate) number: usize,
    pub(crate) piece: &'a Piece,
}

/// The pieces without their computations.
pub(crate) fn spot_plans<'a>(
    alloc: Global,
    spots: &[Spot<'a>],
) -> Result<List<SpotPlan<'a>>, Memory>
    ensures { IfOk result (λ plans. plans ≡ map plan_of spots.now) }
{
    let mut plans = List::new(alloc);
    for spot in spots {
        plans.push(SpotPlan {
            cell: spot.cell,
            node: spot.node,
            place: spot.place,
            var: spot.var,
            number: spot.number,
            piece: spot.piece,
        })?;
    }
    Ok(plans)
}

// Whether the point is in the set.
fn is_in(set: &Poly, point: &Point) -> bool
    requires { IsPointOf set.now point.now }
    ensures { result ≡ has set.now point.now }
{
    set.contains(point)
}

// Those of the computations that are points of the set.
fn slots_in(alloc: Global, slots: &[Slot], set: &Poly) -> Result<List<Slot>, Memory>
    requires { All (λ t. IsPointOf set.now t.point) slots.now }
    ensures { IfOk result (λ own. own ≡ filter (λ t. has set.now t.point) slots.now) }
{
    let mut own = List::new(alloc);
    for slot in slots {
        if is_in(set, &slot.point) {
            own.push(Slot {
                cycle: slot.cycle,
                point: Point::from_slice(slot.point.as_slice()),
            })?;
        }
    }
    Ok(own)
}

/// The piece with its computations on the cell, by cycle.
pub(crate) fn planned_spot<'a>(
    alloc: Global,
    array: &Array<'a>,
    plan: &SpotPlan<'a>,
) -> Result<Spot<'a>, Memory>
    requires array { IsArray array.now }
    requires spot { IsSpot array.now (spot_by array.now plan.now) }
    ensures { IfOk result (λ spot. spot ≡ spot_by array.now plan.now) }
{
    let slots = slots_in(alloc, array.slots(plan.cell), &plan.piece.domain)?;
    Ok(Spot {
        cell: plan.cell,
        node: plan.node,
        place: plan.place,
        var: plan.var,
        number: plan.number,
        piece: plan.piece,
        slots,
    })
}
