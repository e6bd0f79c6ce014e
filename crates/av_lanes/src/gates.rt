//! What a gate gives, for eight lanes at once.

ghost use Rattle.std.specs.Prelude.{◌≡◌, ◌<◌, ℕ, length, slice_index};
ghost use Rattle.av_clock.specs.Gates.{reading_word, gate_word, IsWithin, CanTake};
ghost use Rattle.av_lanes.specs.Seen.{lane};

use crate::kernel::{chosen, compared, constant, extended, operated, sliced};
use av_clock::{Gate, Reading};
use std::simd::prelude::*;

/// The word at a place.
#[inline(always)]
pub(crate) fn word_at(words: &[u64x8], place: usize) -> u64x8
    requires { place < length words.now }
    ensures { (k : ℕ) → k < 8 → slice_index result k ≡ slice_index (lane k words.now) place }
{
    words[place]
}

/// What a reading brings where the words of the module are these.
#[inline(always)]
pub(crate) fn word_read(reading: Reading, words: &[u64x8]) -> u64x8
    requires { IsWithin (length words.now) reading }
    ensures { (k : ℕ) → k < 8 → slice_index result k ≡ reading_word (lane k words.now) reading }
{
    match reading {
        Reading::At(place) => word_at(words, place),
        Reading::Constant(word) => constant(word),
    }
}

/// What a gate gives where the words of the module are these.
#[inline(always)]
pub(crate) fn word_given(gate: &Gate, words: &[u64x8]) -> u64x8
    requires { (k : ℕ) → k < 8 → CanTake (lane k words.now) gate.now }
    ensures { (k : ℕ) → k < 8 → slice_index result k ≡ gate_word (lane k words.now) gate.now }
{
    match gate {
        Gate::Buffer(input) => word_read(*input, words),
        Gate::Operator {
            left,
            symbol,
            right,
            width,
        } => operated(
            *symbol,
            word_read(*left, words),
            word_read(*right, words),
            *width,
        ),
        Gate::Comparator {
            left,
            symbol,
            right,
            width,
        } => compared(
            *symbol,
            word_read(*left, words),
            word_read(*right, words),
            *width,
        ),
        Gate::Multiplexer {
            condition,
            first,
            second,
        } => chosen(
            word_read(*condition, words),
            word_read(*first, words),
            word_read(*second, words),
        ),
        Gate::Slice { input, from, width } => sliced(word_read(*input, words), *from, *width),
        Gate::Extender { input, width, by } => extended(word_read(*input, words), *width, *by),
    }
}
