//! What a settle of all drives computes, the commonest gates in forms of their own: each is told apart once, and its mask stands with it.

ghost use Rattle.std.specs.Prelude.{◌≡◌, ◌<◌, ℕ, All, IfOk, slice_index};
ghost use Rattle.av_net.specs.declared.operation.Symbol.TheVariants.{Mul};
ghost use Rattle.av_clock.specs.declared.gate.Gate.TheVariants.{Operator, Multiplexer};
ghost use Rattle.av_clock.specs.Gates.{gate_word, CanTake};
ghost use Rattle.av_lanes.specs.Seen.{lane};
ghost use Rattle.av_lanes.specs.inner.Forms.{gate_of, assignment_of, IsMasked, AreFormed};

use crate::gates::{word_given, word_read};
use crate::kernel::{chosen, constant, differ, greatest, masked_product, masked_sum};
use av_base::{Memory, Width};
use av_clock::{Assignment, Circuit, Gate, Reading};
use av_net::Symbol;
use std::alloc::Global;
use std::simd::prelude::*;

/// The form of a gate.
#[derive(Clone, Copy)]
pub(crate) enum GateForm {
    /// A sum of two words of the width, whose bits the mask has.
    Sum {
        left: Reading,
        right: Reading,
        width: Width,
        mask: u64,
    },
    /// A product of two words of the width, of 32 bits at most, whose bits the mask has.
    Product {
        left: Reading,
        right: Reading,
        width: Width,
        mask: u64,
    },
    /// The first word where the condition is 1, else the second.
    Choice {
        condition: Reading,
        first: Reading,
        second: Reading,
    },
    /// Any gate.
    Any(Gate),
}

/// An assignment with its gate in its form.
#[derive(Clone, Copy)]
pub(crate) struct Formed {
    pub(crate) target: usize,
    pub(crate) width: Width,
    pub(crate) form: GateForm,
}

impl GateForm {
    /// The form of a gate.
    fn of(gate: &Gate) -> GateForm
        ensures gate { gate_of result ≡ gate.now }
        ensures masked { IsMasked result }
    {
        match gate {
            Gate::Operator {
                left,
                symbol,
                right,
                width,
            } => operator_form(*left, *symbol, *right, *width),
            Gate::Multiplexer {
                condition,
                first,
                second,
            } => GateForm::Choice {
                condition: *condition,
                first: *first,
                second: *second,
            },
            _ => GateForm::Any(*gate),
        }
    }
}

// That of an operator.
fn operator_form(left: Reading, symbol: Symbol, right: Reading, width: Width) -> GateForm
    ensures gate { gate_of result ≡ Operator left symbol right width }
    ensures masked { IsMasked result }
{
    match symbol {
        Symbol::Add => GateForm::Sum {
            left,
            right,
            width,
            mask: greatest(width),
        },
        Symbol::Mul => product_form(left, right, width),
        _ => GateForm::Any(Gate::Operator {
            left,
            symbol,
            right,
            width,
        }),
    }
}

// That of a product.
fn product_form(left: Reading, right: Reading, width: Width) -> GateForm
    ensures gate { gate_of result ≡ Operator left Mul right width }
    ensures masked { IsMasked result }
{
    if width.bits <= 32 {
        GateForm::Product {
            left,
            right,
            width,
            mask: greatest(width),
        }
    } else {
        GateForm::Any(Gate::Operator {
            left,
            symbol: Symbol::Mul,
            right,
            width,
        })
    }
}

/// What a gate in its form gives where the words of the module are these.
#[inline(always)]
pub(crate) fn word_formed(form: &GateForm, words: &[u64x8]) -> u64x8
    requires takes { (k : ℕ) → k < 8 → CanTake (lane k words.now) (gate_of form.now) }
    requires masked { IsMasked form.now }
    ensures { (k : ℕ) → k < 8
        → slice_index result k ≡ gate_word (lane k words.now) (gate_of form.now) }
{
    match form {
        GateForm::Sum {
            left,
            right,
            mask,
            ..
        } => masked_sum(word_read(*left, words), word_read(*right, words), *mask),
        GateForm::Product {
            left,
            right,
            mask,
            ..
        } => masked_product(word_read(*left, words), word_read(*right, words), *mask),
        GateForm::Choice {
            condition,
            first,
            second,
        } => word_chosen(*condition, *first, *second, words),
        GateForm::Any(gate) => word_given(gate, words),
    }
}

// The first word where the condition is 1, else the second. The first is not read where the condition is 0 in all lanes.
#[inline(always)]
fn word_chosen(condition: Reading, first: Reading, second: Reading, words: &[u64x8]) -> u64x8
    requires { (k : ℕ) → k < 8 → CanTake (lane k words.now) (Multiplexer condition first second) }
    ensures { (k : ℕ) → k < 8
        → slice_index result k ≡ gate_word (lane k words.now) (Multiplexer condition first second) }
{
    let bits = word_read(condition, words);
    if differ(bits, constant(0)) {
        chosen(bits, word_read(first, words), word_read(second, words))
    } else {
        word_read(second, words)
    }
}

// An assignment with its gate in its form.
fn in_form(assignment: &Assignment) -> Formed
    ensures assignment { assignment_of result ≡ assignment.now }
    ensures masked { IsMasked result.form }
{
    Formed {
        target: assignment.target,
        width: assignment.width,
        form: GateForm::of(&assignment.gate),
    }
}

/// The assignments that a settle of all drives computes, in order.
pub(crate) fn all_formed(alloc: Global, circuit: &Circuit<'_>) -> Result<Vec<Formed>, Memory>
    ensures { IfOk result (λ drives. AreFormed circuit.now drives.items) }
{
    let mut drives = Vec::new(alloc);
    for assignment in circuit.computed() {
        drives.push(in_form(assignment))?;
    }
    Ok(drives)
}
