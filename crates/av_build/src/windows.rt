//! The windows of the counter's numbers at which something holds.

ghost use Rattle.std.specs.Prelude.{ℕ, ◌≡◌, ◌<◌, ◌++◌, [], IsTrue, All, Some, length, slice_get, IfOk, OnOk};
ghost use Rattle.av_flat.specs.Points.{has};
ghost use Rattle.av_depend.specs.SetPoints.{IsPointOf};
ghost use Rattle.av_kinds.specs.Counters.{IsCounter, count_in};
ghost use Rattle.av_build.specs.inner.Windows.{extended, closed, windows_by};
ghost use Rattle.av_build.specs.inner.Orders.{AreMarks};

use av_base::{List, Memory};
use av_kinds::{Counter, Window};
use av_poly::Poly;
use av_space::Slot;
use std::alloc::Global;

/// A number of the counter, and whether what is told of it holds there.
#[derive(Clone, Copy, Debug)]
pub(crate) struct CounterMark {
    pub(crate) number: u32,
    pub(crate) holds: bool,
}

// The begun window, or a new one, as it goes on to a number.
fn extended(begun: Option<Window>, number: u32) -> Window
    ensures { result ≡ extended begun number }
{
    match begun {
        Some(window) => Window {
            first: window.first,
            last: number,
        },
        None => Window {
            first: number,
            last: number,
        },
    }
}

// Appends the begun window, if there is one.
fn add_closed(begun: Option<Window>, windows: &mut List<Window>) -> Result<(), Memory>
    ensures { OnOk result (windows.new ≡ windows.old ++ closed begun []) }
{
    match begun {
        Some(window) => windows.push(window),
        None => Ok(()),
    }
}

/// The windows from marks by number: one for each run of marks that hold.
pub(crate) fn windows(alloc: Global, marks: &[CounterMark]) -> Result<List<Window>, Memory>
    ensures { IfOk result (λ windows. windows ≡ windows_by marks.now) }
{
    let mut windows = List::new(alloc);
    let mut begun: Option<Window> = None;
    for mark in marks {
        if mark.holds {
            begun = Some(extended(begun, mark.number));
        } else {
            add_closed(begun, &mut windows)?;
            begun = None;
        }
    }
    add_closed(begun, &mut windows)?;
    Ok(windows)
}

/// Of all computations of a cell, in the order of the counter's numbers, whether each is a point of the set.
pub(crate) fn marks(
    alloc: Global,
    counter: Counter,
    order: &[usize],
    slots: &[Slot],
    set: &Poly,
) -> Result<List<CounterMark>, Memory>
    requires counter { IsCounter counter }
    requires order { (i k : ℕ) → slice_get order.now i ≡ Some k → k < length slots.now }
    requires points { All (λ t. IsPointOf set.now t.point) slots.now }
    ensures { IfOk result (AreMarks (count_in counter) slots.now order.now
        (λ slot. IsTrue (has set.now slot.point)) (length order.now)) }
{
    let mut marks = List::new(alloc);
    for k in order {
        let slot = &slots[*k];
        marks.push(CounterMark {
            number: counter.number(slot.cycle),
            holds: set.contains(&slot.point),
        })?;
    }
    Ok(marks)
}
