//! Computations in the order of the counter's numbers.

ghost use Rattle.std.specs.Prelude.{AllPairs, IfOk, ◌<◌};
ghost use Rattle.av_kinds.specs.Counters.{IsCounter, count_in, number_count};
ghost use Rattle.av_build.specs.inner.Orders.{AreWithin, IsStart, IsInOrder};

use av_base::{List, Memory};
use av_kinds::Counter;
use av_space::Slot;
use std::alloc::Global;

// How many of the computations, which stand by cycle, come before the counter begins anew.
fn before_start(slots: &[Slot], counter: Counter) -> usize
    requires { IsCounter counter }
    ensures { IsStart (count_in counter) slots.now result }
{
    if slots.is_empty() {
        return 0;
    }
    let least = counter.number(slots[0].cycle);
    for k in 0..slots.len() {
        if counter.number(slots[k].cycle) < least {
            return k;
        }
    }
    slots.len()
}

/// The places of the computations, which stand by cycle, by the counter's numbers.
pub(crate) fn in_order(
    alloc: Global,
    slots: &[Slot],
    counter: Counter,
) -> Result<List<usize>, Memory>
    requires counter { IsCounter counter }
    requires ascend { AllPairs (λ t u. t.cycle < u.cycle) slots.now }
    requires within { AreWithin (number_count counter) slots.now }
    ensures { IfOk result (IsInOrder (count_in counter) slots.now) }
{
    let start = before_start(slots, counter);
    let mut order = List::new(alloc);
    for late in start..slots.len() {
        order.push(late)?;
    }
    for early in 0..start {
        order.push(early)?;
    }
    Ok(order)
}
