//! The datapaths of a lane of a kind, each in its mode.

ghost use Rattle.std.specs.Prelude.{length, map, IfOk};
ghost use Rattle.std.specs.List.{AllByRecursion};
ghost use Rattle.av_kinds.specs.inner.Choices.{options_built};
ghost use Rattle.av_kinds.specs.inner.Cells.{datapath_built, options_of, modes_built};
ghost use Rattle.av_kinds.specs.inner.Numbered.{wire_in};
ghost use Rattle.av_kinds.specs.inner.Added.{AddsBuilt, as_datapath, as_guarded, HasTaps};

use crate::choice::{Datapath, GuardedDatapath, LaneDatapaths};
use crate::gates::{LaneGate, named};
use crate::naming::WireNames;
use crate::selection::{fitted, in_guard, selections};
use crate::tree::tree;
use av_base::{Memory, Width};
use av_flat::Tree;
use av_net::{Operand, Operation};
use std::alloc::Global;

// The tree of a datapath over what its taps bring. A tree that is one place ends in its selection.
fn piece(
    alloc: Global,
    counter: &Operand,
    width: Width,
    names: WireNames,
    gates: &mut Vec<LaneGate>,
    datapath: &Datapath<'_>,
) -> Result<Operation, Memory>
    requires { HasTaps datapath.now }
    ensures { IfOk result (AddsBuilt gates.old.items gates.new.items (datapath_built
        (wire_in names) width counter.now (length gates.old.items) (as_datapath datapath.now))) }
{
    let taps = datapath.taps.as_slice();
    match datapath.tree {
        Tree::Ref { .. } | Tree::Pick { .. } => {
            fitted(alloc, counter, width, names, gates, &taps[0])
        }
        whole => {
            let operands = selections(alloc, counter, width, names, gates, taps)?;
            let mut site = 0;
            tree(
                alloc,
                names,
                width,
                operands.as_slice(),
                gates,
                &mut site,
                whole,
            )
        }
    }
}

// The first operand in one of the guards of a mode, else the second: tests from the last guard to the first.
fn in_mode(
    alloc: Global,
    counter: &Operand,
    width: Width,
    names: WireNames,
    gates: &mut Vec<LaneGate>,
    mode: &GuardedDatapath<'_>,
    first: Operand,
    second: Operand,
) -> Result<Operation, Memory>
    ensures { IfOk result (AddsBuilt gates.old.items gates.new.items (options_built (wire_in names)
        width counter.now (length gates.old.items) second (options_of first mode.now.guards))) }
{
    let guards = mode.guards.as_slice();
    let mut root = Operation::Plain(second);
    for k in (0..guards.len()).rev() {
        root = in_guard(
            alloc, counter, width, names, gates, &guards[k], &first, root,
        )?;
    }
    Ok(root)
}

/// The wires of a lane, and what gives its word: tests from the last mode to the first.
pub(crate) fn modes(
    alloc: Global,
    counter: &Operand,
    width: Width,
    names: WireNames,
    gates: &mut Vec<LaneGate>,
    lane: &LaneDatapaths<'_>,
) -> Result<Operation, Memory>
    requires modes { AllByRecursion (λ t. HasTaps t.datapath) lane.now.modes }
    requires otherwise { HasTaps lane.now.otherwise }
    ensures { IfOk result (AddsBuilt gates.old.items gates.new.items
        (modes_built (wire_in names) width counter.now (length gates.old.items)
        (as_datapath lane.now.otherwise) (map as_guarded lane.now.modes))) }
{
    let modes = lane.modes.as_slice();
    let mut root = piece(alloc, counter, width, names, gates, &lane.otherwise)?;
    for k in (0..modes.len()).rev() {
        let mode = &modes[k];
        let second = named(alloc, names, gates, width, root)?;
        let own = piece(alloc, counter, width, names, gates, &mode.datapath)?;
        let first = named(alloc, names, gates, width, own)?;
        root = in_mode(alloc, counter, width, names, gates, mode, first, second)?;
    }
    Ok(root)
}
