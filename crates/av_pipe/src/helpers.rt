//! The helpers of a scheduled system.

ghost use Rattle.std.specs.Prelude.{◌≡◌, ◌++◌, All, IfOk, OnOk, map, slice_get, []};
ghost use Rattle.std.specs.List.{AllByRecursion};
ghost use Rattle.av_affine.specs.Numbers.{AtMost};
ghost use Rattle.av_flat.specs.Trees.{view_variable, view_system};
ghost use Rattle.av_flat.specs.Legal.{IsLegal};
ghost use Rattle.av_pipe.specs.Pipelines.{of_variable, pipelines};
ghost use Rattle.av_pipe.specs.Piped.{IsPiped};
ghost use Rattle.av_pipe.specs.inner.Helping.{HasFinePieces};

use crate::site::piece_helpers;
use av_base::{List, Memory, Point};
use av_flat::{
    Flat, Helper, Node, Nodes, Time, Timed, Var, VariablePlace, copy_flat, sign_vectors,
};
use std::alloc::Global;

// Appends the helpers of a variable, where there is a time for the node.
fn variable_helpers(
    alloc: Global,
    place: VariablePlace,
    times: &[Time],
    node: Node,
    var: &Var,
    helpers: &mut List<Helper>,
) -> Result<(), Memory>
    requires linear { All (λ t. AtMost 4 t.linear) times.now }
    requires maps { HasFinePieces (view_variable var.now) }
    ensures { OnOk result (helpers.new
        ≡ helpers.old ++ of_variable place.0 (slice_get times.now node.0) (view_variable var.now)) }
{
    match times.get(node.0) {
        Some(time) => {
            let points = sign_vectors(alloc, var.domain.dim)?;
            // So few pieces that 32 bits number them.
            let _most = var.pieces.len();
            let pieces = var.pieces.as_slice();
            piece_helpers(alloc, place, &time.linear, &points, pieces, helpers)
        }
        None => Ok(()),
    }
}

// The helpers of all variables, in order.
fn all_helpers(alloc: Global, flat: &Flat, times: &[Time]) -> Result<List<Helper>, Memory>
    requires linear { All (λ t. AtMost 4 t.linear) times.now }
    requires maps { AllByRecursion HasFinePieces (map view_variable flat.now.vars) }
    ensures { IfOk result (λ helpers. helpers ≡ pipelines (view_system flat.now) times.now) }
{
    // So few variables that 32 bits number them.
    let _most = flat.vars.len();
    let nodes = Nodes::new(alloc, flat)?;
    let vars = flat.vars.as_slice();
    let mut helpers = List::new(alloc);
    for (place, var) in vars.iter().enumerate() {
        let place = VariablePlace(place as u32);
        let node = nodes.number(place);
        variable_helpers(alloc, place, times, node, var, &mut helpers)?;
    }
    Ok(helpers)
}

fn copy_times(alloc: Global, times: &[Time]) -> Result<List<Time>, Memory>
    ensures { IfOk result (λ to. to ≡ times.now) }
{
    let mut to = List::new(alloc);
    for time in times {
        to.push(Time {
            linear: Point::from_slice(time.linear.as_slice()),
            offset: time.offset,
        })?;
    }
    Ok(to)
}

/// What `Pipe` gives of a system that the caller owns: the system is moved into the answer and not copied.
pub fn with_helpers(alloc: Global, from: Timed) -> Result<Timed, Memory>
    requires legal { IsLegal from }
    requires none { from.helpers ≡ [] }
    ensures { IfOk result (λ to. IsPiped from to) }
{
    let helpers = all_helpers(alloc, &from.flat, from.times.as_slice())?;
    Ok(Timed { helpers, ..from })
}

/// The system with its times and a helper for each moved reference.
pub(crate) fn piped(alloc: Global, from: &Timed) -> Result<Timed, Memory>
    requires legal { IsLegal from.now }
    requires none { from.now.helpers ≡ [] }
    ensures { IfOk result (λ to. IsPiped from.now to) }
{
    let helpers = all_helpers(alloc, &from.flat, from.times.as_slice())?;
    let flat = copy_flat(alloc, &from.flat)?;
    let times = copy_times(alloc, from.times.as_slice())?;
    Ok(Timed {
        flat,
        times,
        helpers,
    })
}
