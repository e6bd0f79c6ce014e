//! Selections in a kind: which of several words is taken, by tests of the counter.

ghost use Rattle.std.specs.Prelude.{◌≡◌, length, IfOk};
ghost use Rattle.av_kinds.specs.inner.Choices.{guard_built, tap_built, fitting, fit_built};
ghost use Rattle.av_kinds.specs.inner.Cells.{taps_built};
ghost use Rattle.av_kinds.specs.inner.Numbered.{wire_in};
ghost use Rattle.av_kinds.specs.inner.Added.{AddsBuilt, AddsTaken, AddsGuarded, choice_built};

use crate::choice::{Arm, Guard, Tap};
use crate::gates::{LaneGate, bit, named};
use crate::naming::WireNames;
use av_base::{List, Memory, Width};
use av_net::{Operand, Operation, Symbol};
use std::alloc::Global;

// The counter compared with a bound.
fn counted(
    alloc: Global,
    counter: &Operand,
    symbol: Symbol,
    bound: &Operand,
) -> Result<Operation, Memory>
    ensures { IfOk result (λ test. test ≡ Operation.Binary counter.now symbol bound.now) }
{
    Ok(Operation::Binary {
        left: counter.copied(alloc)?,
        symbol,
        right: bound.copied(alloc)?,
    })
}

// The test of a guard.
fn guard_test(
    alloc: Global,
    counter: &Operand,
    names: WireNames,
    gates: &mut Vec<LaneGate>,
    guard: &Guard,
) -> Result<Operation, Memory>
    ensures { IfOk result (AddsBuilt gates.old.items gates.new.items
        (guard_built (wire_in names) (length gates.old.items) counter.now guard.now)) }
{
    match guard {
        Guard::UpTo(last) => counted(alloc, counter, Symbol::LessEqual, last),
        Guard::Within { first, last } => {
            let begun = counted(alloc, counter, Symbol::GreaterEqual, first)?;
            let left = named(alloc, names, gates, bit(), begun)?;
            let not_over = counted(alloc, counter, Symbol::LessEqual, last)?;
            let right = named(alloc, names, gates, bit(), not_over)?;
            Ok(Operation::Binary {
                left,
                symbol: Symbol::And,
                right,
            })
        }
    }
}

// The first operand where the guard has the number, else the second.
fn either(
    alloc: Global,
    counter: &Operand,
    names: WireNames,
    gates: &mut Vec<LaneGate>,
    guard: &Guard,
    first: Operand,
    second: Operand,
) -> Result<Operation, Memory>
    ensures { IfOk result (AddsBuilt gates.old.items gates.new.items (choice_built
        (wire_in names) (length gates.old.items) counter.now guard.now first second)) }
{
    let test = guard_test(alloc, counter, names, gates, guard)?;
    let condition = named(alloc, names, gates, bit(), test)?;
    Ok(Operation::Choose {
        condition,
        yes: first,
        no: second,
    })
}

/// The operand where the guard has the number, else what the root gives, on a wire of this width.
pub(crate) fn in_guard(
    alloc: Global,
    counter: &Operand,
    width: Width,
    names: WireNames,
    gates: &mut Vec<LaneGate>,
    guard: &Guard,
    operand: &Operand,
    root: Operation,
) -> Result<Operation, Memory>
    ensures { IfOk result (AddsGuarded (wire_in names)
        width counter.now guard.now operand.now gates.old.items root gates.new.items) }
{
    let second = named(alloc, names, gates, width, root)?;
    let first = operand.copied(alloc)?;
    either(alloc, counter, names, gates, guard, first, second)
}

// The choice of a tap: tests from the last arm to the first.
fn selection(
    alloc: Global,
    counter: &Operand,
    names: WireNames,
    gates: &mut Vec<LaneGate>,
    tap: &Tap,
) -> Result<Operation, Memory>
    ensures { IfOk result (AddsBuilt gates.old.items gates.new.items
        (tap_built (wire_in names) counter.now (length gates.old.items) tap.now)) }
{
    let arms = tap.arms.as_slice();
    let mut root = Operation::Plain(tap.otherwise.copied(alloc)?);
    for k in (0..arms.len()).rev() {
        let arm: &Arm = &arms[k];
        root = in_guard(
            alloc,
            counter,
            tap.width,
            names,
            gates,
            &arm.guard,
            &arm.operand,
            root,
        )?;
    }
    Ok(root)
}

// The operation that gives a word of one width as a word of another.
fn fitting(from: Width, to: Width, of: Operand) -> Operation
    ensures { result ≡ fitting from.bits to.bits of }
{
    match of {
        Operand::Name(name) => {
            if from.bits < to.bits {
                Operation::Widen {
                    name,
                    by: (to.bits - from.bits) as u8,
                }
            } else {
                Operation::Part {
                    name,
                    high: (to.bits - 1) as u8,
                    low: 0,
                }
            }
        }
        literal => Operation::Plain(literal),
    }
}

/// What a tap brings, as a word of this width.
pub(crate) fn fitted(
    alloc: Global,
    counter: &Operand,
    width: Width,
    names: WireNames,
    gates: &mut Vec<LaneGate>,
    tap: &Tap,
) -> Result<Operation, Memory>
    ensures { IfOk result (AddsBuilt gates.old.items gates.new.items
        (fit_built (wire_in names) width counter.now (length gates.old.items) tap.now)) }
{
    let root = selection(alloc, counter, names, gates, tap)?;
    if tap.width.bits == width.bits {
        return Ok(root);
    }
    let operand = named(alloc, names, gates, tap.width, root)?;
    Ok(fitting(tap.width, width, operand))
}

/// What taps bring, as words of this width: of each the operand that has its word.
pub(crate) fn selections(
    alloc: Global,
    counter: &Operand,
    width: Width,
    names: WireNames,
    gates: &mut Vec<LaneGate>,
    taps: &[Tap],
) -> Result<List<Operand>, Memory>
    ensures { IfOk result (AddsTaken gates.old.items gates.new.items
        (taps_built (wire_in names) width counter.now (length gates.old.items) taps.now)) }
{
    let mut operands = List::new(alloc);
    for tap in taps {
        let root = fitted(alloc, counter, width, names, gates, tap)?;
        operands.push(named(alloc, names, gates, width, root)?)?;
    }
    Ok(operands)
}
