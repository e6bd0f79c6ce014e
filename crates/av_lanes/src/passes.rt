//! Passes over the drives and the steps of a circuit, for eight lanes at once. What a pass does to the words in each lane is what the
//! clock's pass of the same name does to its words.

ghost use Rattle.std.specs.Prelude.{◌≡◌, ◌<◌, ◌≤◌, ◌+◌, ℕ, List as Items, length, true, false, slice_get, slice_set, slice_index, slice_index_or, Some, Contains, IsTrue};
ghost use Rattle.av_base.specs.Words.{IsWord};
ghost use Rattle.av_net.specs.Meaning.{Words, word_of};
ghost use Rattle.av_net.specs.Names.{all_names, given_names, names_of, registers_of, width_of};
ghost use Rattle.av_net.specs.Settled.{Settled, Agree};
ghost use Rattle.av_net.specs.Clocked.{Edge};
ghost use Rattle.av_net.specs.Sound.{IsSound};
ghost use Rattle.av_clock.specs.Gates.{AreTaken, FitRegisters};
ghost use Rattle.av_clock.specs.Kept.{AreZero};
ghost use Rattle.av_clock.specs.Marked.{IsClear, AreHeld};
ghost use Rattle.av_clock.specs.Marking.{IsSet, ReadTheSame, AreAhead, AreDue};
ghost use Rattle.av_clock.specs.Named.{named, AllFit};
ghost use Rattle.av_lanes.specs.Seen.{lane};
ghost use Rattle.av_lanes.specs.inner.Forms.{AreFormed};
ghost use Rattle.av_lanes.specs.inner.Order.{AreMoves, AreTransfers, AreOrdered, HaveMoved};
ghost use Rattle.av_lanes.specs.inner.Taking.{HaveWords, HaveTaken};

use crate::forms::{Formed, word_formed};
use crate::gates::{word_at, word_given, word_read};
use crate::kernel::{constant, differ};
use crate::order::{Moves, Transfer};
use av_clock::{Circuit, FlipFlop, Marks};
use std::simd::prelude::*;

/// All drives in order, but those of the constant 0.
pub(crate) fn settle(circuit: &Circuit<'_>, drives: &[Formed], words: &mut [u64x8])
    requires sound { IsSound circuit.now }
    requires size { length words.old ≡ length (all_names circuit.now) }
    requires fit { (k : ℕ) → k < 8 → AllFit circuit.now (lane k words.old) }
    requires zeros { (k : ℕ) → k < 8 → AreZero circuit.now (lane k words.old) }
    requires formed { AreFormed circuit.now drives.now }
    ensures settled { (k : ℕ) → k < 8 → Settled circuit.now (named circuit.now (lane k words.new)) }
    ensures given { (k : ℕ) → k < 8 → Agree (given_names circuit.now) (named circuit.now
        (lane k words.old)) (named circuit.now (lane k words.new)) }
    ensures fit { (k : ℕ) → k < 8 → AllFit circuit.now (lane k words.new) }
{
    for drive in drives {
        words[drive.target] = word_formed(&drive.form, words);
    }
}

// One marked drive.
fn compute(
    circuit: &Circuit<'_>,
    drive: usize,
    words: &mut [u64x8],
    stale: &mut Marks,
    due: &mut Marks,
)
    requires sound { IsSound circuit.now }
    requires marked { IsSet stale.old drive }
    requires size { length words.old ≡ length (all_names circuit.now) }
    requires stale { length stale.old ≡ length circuit.now.drives }
    requires due { length due.old ≡ length circuit.now.steps }
    requires fit { (k : ℕ) → k < 8 → AllFit circuit.now (lane k words.old) }
    requires held { (k : ℕ) → k < 8 → AreHeld circuit.now (lane k words.old) stale.old due.old }
    ensures stale { length stale.new ≡ length stale.old }
    ensures due { length due.new ≡ length due.old }
    ensures fit { (k : ℕ) → k < 8 → AllFit circuit.now (lane k words.new) }
    ensures held { (k : ℕ) → k < 8 → AreHeld circuit.now (lane k words.new) stale.new due.new }
    ensures given { (k : ℕ) → k < 8 → Agree (given_names circuit.now) (named circuit.now
        (lane k words.old)) (named circuit.now (lane k words.new)) }
    ensures clear { ((i : ℕ) → i < drive → IsClear stale.old i)
        → (i : ℕ) → i < drive + 1 → IsClear stale.new i }
{
    let assignment = &circuit.assignments()[drive];
    let word = word_given(&assignment.gate, words);
    stale.clear(drive);
    write(circuit, assignment.target, word, words, stale, due);
}

/// The marked drives alone, in order, and their number.
pub(crate) fn settle_marked(
    circuit: &Circuit<'_>,
    words: &mut [u64x8],
    stale: &mut Marks,
    due: &mut Marks,
) -> usize
    requires sound { IsSound circuit.now }
    requires size { length words.old ≡ length (all_names circuit.now) }
    requires stale { length stale.old ≡ length circuit.now.drives }
    requires due { length due.old ≡ length circuit.now.steps }
    requires fit { (k : ℕ) → k < 8 → AllFit circuit.now (lane k words.old) }
    requires held { (k : ℕ) → k < 8 → AreHeld circuit.now (lane k words.old) stale.old due.old }
    ensures stale { length stale.new ≡ length stale.old }
    ensures due { length due.new ≡ length due.old }
    ensures settled { (k : ℕ) → k < 8 → Settled circuit.now (named circuit.now (lane k words.new)) }
    ensures given { (k : ℕ) → k < 8 → Agree (given_names circuit.now) (named circuit.now
        (lane k words.old)) (named circuit.now (lane k words.new)) }
    ensures fit { (k : ℕ) → k < 8 → AllFit circuit.now (lane k words.new) }
    ensures held { (k : ℕ) → k < 8 → AreHeld circuit.now (lane k words.new) stale.new due.new }
{
    let mut computed = 0;
    let mut drive = stale.next(0);
    while drive < circuit.drives() {
        compute(circuit, drive, words, stale, due);
        computed += 1;
        drive = stale.next(drive + 1);
    }
    computed
}

// Gives a place a word, and marks what reads it where the word is another in some lane.
fn write(
    circuit: &Circuit<'_>,
    place: usize,
    word: u64x8,
    words: &mut [u64x8],
    stale: &mut Marks,
    due: &mut Marks,
)
    requires sound { IsSound circuit.now }
    requires size { length words.old ≡ length (all_names circuit.now) }
    requires place { place < length words.old }
    requires stale { length stale.old ≡ length circuit.now.drives }
    requires due { length due.old ≡ length circuit.now.steps }
    ensures words { (k : ℕ) → k < 8
        → lane k words.new ≡ slice_set (lane k words.old) place (slice_index word k) }
    ensures stale { length stale.new ≡ length stale.old }
    ensures due { length due.new ≡ length due.old }
    ensures same { (k : ℕ) → k < 8 → ReadTheSame circuit.now
        (lane k words.old) (lane k words.new) stale.old stale.new due.old due.new }
    ensures ahead { (name : Items ℕ) → slice_get (all_names circuit.now) place ≡ Some name
        → AreAhead circuit.now name stale.old stale.new }
{
    if differ(words[place], word) {
        words[place] = word;
        circuit.mark_readers(place, stale, due);
    }
}

/// Gives a place a word, and marks what reads it unless the lanes are dense.
pub(crate) fn present(
    circuit: &Circuit<'_>,
    dense: bool,
    place: usize,
    word: u64x8,
    words: &mut [u64x8],
    stale: &mut Marks,
    due: &mut Marks,
)
    requires sound { IsSound circuit.now }
    requires size { length words.old ≡ length (all_names circuit.now) }
    requires place { place < length words.old }
    requires stale { length stale.old ≡ length circuit.now.drives }
    requires due { length due.old ≡ length circuit.now.steps }
    ensures words { (k : ℕ) → k < 8
        → lane k words.new ≡ slice_set (lane k words.old) place (slice_index word k) }
    ensures stale { length stale.new ≡ length stale.old }
    ensures due { length due.new ≡ length due.old }
    ensures same { dense ≡ false → (k : ℕ) → k < 8 → ReadTheSame circuit.now
        (lane k words.old) (lane k words.new) stale.old stale.new due.old due.new }
{
    if dense {
        words[place] = word;
    } else {
        write(circuit, place, word, words, stale, due);
    }
}

// The marked steps, the words that their registers take at an edge without reset, and their number.
fn take_due(
    circuit: &Circuit<'_>,
    words: &[u64x8],
    due: &mut Marks,
    taken: &mut [usize],
    next: &mut [u64x8],
) -> usize
    requires sound { IsSound circuit.now }
    requires size { length words.now ≡ length (all_names circuit.now) }
    requires due { length due.old ≡ length circuit.now.steps }
    requires taken { length taken.old ≡ length circuit.now.steps }
    requires next { length next.old ≡ length circuit.now.steps }
    requires held { (k : ℕ) → k < 8 → HaveTaken circuit.now (lane k words.now) due.old }
    ensures count { result ≤ length circuit.now.steps }
    ensures due { length due.new ≡ length due.old }
    ensures within { (j : ℕ) → j < result → slice_index taken.new j < length circuit.now.steps }
    ensures taken { (k : ℕ) → k < 8 → (d : _) → AreDue circuit.now (named circuit.now
        (lane k words.now)) (λ i. word_of (named circuit.now (lane k words.now))
        (slice_index_or circuit.now.steps i d).next) taken.new (lane k next.new) result }
{
    let flip_flops = circuit.flip_flops();
    let mut count = 0;
    let mut step = due.next(0);
    while step < flip_flops.len() {
        due.clear(step);
        taken[count] = step;
        next[count] = word_read(flip_flops[step].next, words);
        count += 1;
        step = due.next(step + 1);
    }
    count
}

// Gives the registers of the first of these steps, as many as are counted, the words beside them.
fn store_taken(
    circuit: &Circuit<'_>,
    taken: &[usize],
    next: &[u64x8],
    count: usize,
    words: &mut [u64x8],
    stale: &mut Marks,
    due: &mut Marks,
)
    requires sound { IsSound circuit.now }
    requires size { length words.old ≡ length (all_names circuit.now) }
    requires stale { length stale.old ≡ length circuit.now.drives }
    requires due { length due.old ≡ length circuit.now.steps }
    requires taken { count ≤ length taken.now }
    requires next { count ≤ length next.now }
    requires within { (j : ℕ) → j < count → slice_index taken.now j < length circuit.now.steps }
    requires fitting { (k : ℕ) → k < 8 → (j : ℕ) (d : _)
        → j < count → IsWord (width_of circuit.now (slice_index_or circuit.now.steps
        (slice_index taken.now j) d).register) (slice_index (lane k next.now) j) }
    requires fit { (k : ℕ) → k < 8 → AllFit circuit.now (lane k words.old) }
    ensures stale { length stale.new ≡ length stale.old }
    ensures due { length due.new ≡ length due.old }
    ensures fit { (k : ℕ) → k < 8 → AllFit circuit.now (lane k words.new) }
    ensures same { (k : ℕ) → k < 8 → ReadTheSame circuit.now
        (lane k words.old) (lane k words.new) stale.old stale.new due.old due.new }
    ensures registers { (k : ℕ) → k < 8 → (word : ℕ → ℕ) → AreDue circuit.now (named circuit.now
        (lane k words.old)) word taken.now (lane k next.now) count
        → HaveWords circuit.now (lane k words.new) word }
    ensures others { (k : ℕ) → k < 8
        → (name : Items ℕ) → (Contains (registers_of circuit.now.steps) name → ⊥)
        → named circuit.now (lane k words.new) name ≡ named circuit.now (lane k words.old) name }
{
    let flip_flops = circuit.flip_flops();
    for i in 0..count {
        let register = flip_flops[taken[i]].register;
        write(circuit, register, next[i], words, stale, due);
    }
}

/// One edge without reset: the registers of the marked steps take the words of their operands together.
pub(crate) fn tick_marked(
    circuit: &Circuit<'_>,
    words: &mut [u64x8],
    next: &mut [u64x8],
    taken: &mut [usize],
    stale: &mut Marks,
    due: &mut Marks,
)
    requires sound { IsSound circuit.now }
    requires size { length words.old ≡ length (all_names circuit.now) }
    requires next { length next.old ≡ length circuit.now.steps }
    requires taken { length taken.old ≡ length circuit.now.steps }
    requires stale { length stale.old ≡ length circuit.now.drives }
    requires due { length due.old ≡ length circuit.now.steps }
    requires fit { (k : ℕ) → k < 8 → AllFit circuit.now (lane k words.old) }
    requires held { (k : ℕ) → k < 8 → AreHeld circuit.now (lane k words.old) stale.old due.old }
    ensures stale { length stale.new ≡ length stale.old }
    ensures due { length due.new ≡ length due.old }
    ensures fit { (k : ℕ) → k < 8 → AllFit circuit.now (lane k words.new) }
    ensures edge { (k : ℕ) → k < 8 → Edge circuit.now false (named circuit.now
        (lane k words.old)) (named circuit.now (lane k words.new)) }
    ensures ports { (k : ℕ) → k < 8 → Agree (names_of circuit.now.inputs) (named circuit.now
        (lane k words.old)) (named circuit.now (lane k words.new)) }
    ensures held { (k : ℕ) → k < 8 → AreHeld circuit.now (lane k words.new) stale.new due.new }
    ensures others { (k : ℕ) → k < 8
        → (name : Items ℕ) → (Contains (registers_of circuit.now.steps) name → ⊥)
        → named circuit.now (lane k words.new) name ≡ named circuit.now (lane k words.old) name }
{
    let count = take_due(circuit, words, due, taken, next);
    store_taken(circuit, taken, next, count, words, stale, due);
}

// All steps, and what each register takes at an edge with reset.
fn reset_words(circuit: &Circuit<'_>, taken: &mut [usize], next: &mut [u64x8])
    requires taken { length taken.old ≡ length circuit.now.steps }
    requires next { length next.old ≡ length circuit.now.steps }
    ensures steps { (j : ℕ) → j < length circuit.now.steps → slice_index taken.new j ≡ j }
    ensures words { (k : ℕ) → k < 8 → (old : Words)
        → AreTaken circuit.now true old (length circuit.now.steps) (lane k next.new) }
{
    for (i, flip_flop) in circuit.flip_flops().iter().enumerate() {
        next[i] = constant(flip_flop.reset);
        taken[i] = i;
    }
}

/// One edge with reset: all registers take their literals, and all steps are marked.
pub(crate) fn reset(
    circuit: &Circuit<'_>,
    words: &mut [u64x8],
    next: &mut [u64x8],
    taken: &mut [usize],
    stale: &mut Marks,
    due: &mut Marks,
)
    requires sound { IsSound circuit.now }
    requires size { length words.old ≡ length (all_names circuit.now) }
    requires next { length next.old ≡ length circuit.now.steps }
    requires taken { length taken.old ≡ length circuit.now.steps }
    requires stale { length stale.old ≡ length circuit.now.drives }
    requires due { length due.old ≡ length circuit.now.steps }
    requires fit { (k : ℕ) → k < 8 → AllFit circuit.now (lane k words.old) }
    ensures stale { length stale.new ≡ length stale.old }
    ensures due { length due.new ≡ length due.old }
    ensures fit { (k : ℕ) → k < 8 → AllFit circuit.now (lane k words.new) }
    ensures edge { (k : ℕ) → k < 8 → Edge circuit.now true (named circuit.now
        (lane k words.old)) (named circuit.now (lane k words.new)) }
    ensures ports { (k : ℕ) → k < 8 → Agree (names_of circuit.now.inputs) (named circuit.now
        (lane k words.old)) (named circuit.now (lane k words.new)) }
    ensures held { (k : ℕ) → k < 8 → AreHeld circuit.now (lane k words.old) stale.old due.old
        → AreHeld circuit.now (lane k words.new) stale.new due.new }
    ensures others { (k : ℕ) → k < 8
        → (name : Items ℕ) → (Contains (registers_of circuit.now.steps) name → ⊥)
        → named circuit.now (lane k words.new) name ≡ named circuit.now (lane k words.old) name }
{
    reset_words(circuit, taken, next);
    store_taken(circuit, taken, next, circuit.steps(), words, stale, due);
    due.fill(true);
}

/// What each register takes at an edge without reset, in the order of the steps.
pub(crate) fn next_words(circuit: &Circuit<'_>, words: &[u64x8], next: &mut [u64x8])
    requires sound { IsSound circuit.now }
    requires size { length words.now ≡ length (all_names circuit.now) }
    requires next { length next.old ≡ length circuit.now.steps }
    ensures { (k : ℕ) → k < 8 → AreTaken circuit.now false (named circuit.now
        (lane k words.now)) (length circuit.now.steps) (lane k next.new) }
{
    for (i, flip_flop) in circuit.flip_flops().iter().enumerate() {
        next[i] = word_read(flip_flop.next, words);
    }
}

/// How many registers an edge without reset changes in some lane.
pub(crate) fn changing(circuit: &Circuit<'_>, words: &[u64x8]) -> usize
    requires sound { IsSound circuit.now }
    requires size { length words.now ≡ length (all_names circuit.now) }
{
    let mut changing = 0;
    for (i, flip_flop) in circuit.flip_flops().iter().enumerate() {
        if differ(word_read(flip_flop.next, words), words[flip_flop.register]) {
            changing += 1;
        }
    }
    changing
}

// Gives all registers these words.
fn store(circuit: &Circuit<'_>, next: &[u64x8], words: &mut [u64x8])
    requires sound { IsSound circuit.now }
    requires size { length words.old ≡ length (all_names circuit.now) }
    requires fit { (k : ℕ) → k < 8 → AllFit circuit.now (lane k words.old) }
    requires next { length next.now ≡ length circuit.now.steps }
    requires fitting { (k : ℕ) → k < 8 → FitRegisters circuit.now (lane k next.now) }
    ensures registers { (k : ℕ) → k < 8 → (i : ℕ) → i < length circuit.now.steps → (d : _)
        → named circuit.now (lane k words.new) (slice_index_or circuit.now.steps i d).register
        ≡ slice_index (lane k next.now) i }
    ensures ports { (k : ℕ) → k < 8 → Agree (names_of circuit.now.inputs) (named circuit.now
        (lane k words.old)) (named circuit.now (lane k words.new)) }
    ensures fit { (k : ℕ) → k < 8 → AllFit circuit.now (lane k words.new) }
    ensures others { (k : ℕ) → k < 8
        → (name : Items ℕ) → (Contains (registers_of circuit.now.steps) name → ⊥)
        → named circuit.now (lane k words.new) name ≡ named circuit.now (lane k words.old) name }
{
    for (i, flip_flop) in circuit.flip_flops().iter().enumerate() {
        words[flip_flop.register] = next[i];
    }
}

// Moves the registers of the first moves, by their transfers.
fn move_first(
    circuit: &Circuit<'_>,
    moves: &[FlipFlop],
    transfers: &[Transfer],
    words: &mut [u64x8],
)
    requires sound { IsSound circuit.now }
    requires size { length words.old ≡ length (all_names circuit.now) }
    requires fit { (k : ℕ) → k < 8 → AllFit circuit.now (lane k words.old) }
    requires moves { AreMoves circuit.now moves.now }
    requires transfers { AreTransfers moves.now transfers.now }
    ensures { (are : AreMoves circuit.now moves.now) (k : ℕ) → k < 8 → HaveMoved
        circuit.now are.order (lane k words.old) (lane k words.new) (length transfers.now) }
{
    for transfer in transfers {
        words[transfer.register] = word_at(words, transfer.source);
    }
}

// Moves the registers of the others, from one on.
fn move_others(circuit: &Circuit<'_>, moves: &[FlipFlop], from: usize, words: &mut [u64x8])
    requires sound { IsSound circuit.now }
    requires size { length words.old ≡ length (all_names circuit.now) }
    requires moves { AreMoves circuit.now moves.now }
    requires from { from ≤ length moves.now }
    ensures { (are : AreMoves circuit.now moves.now) (k : ℕ) → k < 8
        → (before : Items ℕ) → HaveMoved circuit.now are.order before (lane k words.old) from
        → HaveMoved circuit.now are.order before (lane k words.new) (length moves.now) }
{
    for i in from..moves.len() {
        let flip_flop = moves[i];
        words[flip_flop.register] = word_read(flip_flop.next, words);
    }
}

// One edge without reset, by the flip-flops in an order in which none reads a register that an earlier one has stored.
fn move_all(circuit: &Circuit<'_>, moves: &Moves, words: &mut [u64x8])
    requires sound { IsSound circuit.now }
    requires size { length words.old ≡ length (all_names circuit.now) }
    requires fit { (k : ℕ) → k < 8 → AllFit circuit.now (lane k words.old) }
    requires moves { AreOrdered circuit.now moves.now.flip_flops.items moves.now.transfers.items }
    ensures edge { (k : ℕ) → k < 8 → Edge circuit.now false (named circuit.now
        (lane k words.old)) (named circuit.now (lane k words.new)) }
    ensures ports { (k : ℕ) → k < 8 → Agree (names_of circuit.now.inputs) (named circuit.now
        (lane k words.old)) (named circuit.now (lane k words.new)) }
    ensures fit { (k : ℕ) → k < 8 → AllFit circuit.now (lane k words.new) }
    ensures others { (k : ℕ) → k < 8
        → (name : Items ℕ) → (Contains (registers_of circuit.now.steps) name → ⊥)
        → named circuit.now (lane k words.new) name ≡ named circuit.now (lane k words.old) name }
{
    let flip_flops = moves.flip_flops.as_slice();
    move_first(circuit, flip_flops, &moves.transfers, words);
    move_others(circuit, flip_flops, moves.transfers.len(), words);
}

// One edge without reset in two passes: the words are stored when all are read.
fn tick_together(circuit: &Circuit<'_>, words: &mut [u64x8], next: &mut [u64x8])
    requires sound { IsSound circuit.now }
    requires size { length words.old ≡ length (all_names circuit.now) }
    requires next { length next.old ≡ length circuit.now.steps }
    requires fit { (k : ℕ) → k < 8 → AllFit circuit.now (lane k words.old) }
    ensures edge { (k : ℕ) → k < 8 → Edge circuit.now false (named circuit.now
        (lane k words.old)) (named circuit.now (lane k words.new)) }
    ensures ports { (k : ℕ) → k < 8 → Agree (names_of circuit.now.inputs) (named circuit.now
        (lane k words.old)) (named circuit.now (lane k words.new)) }
    ensures fit { (k : ℕ) → k < 8 → AllFit circuit.now (lane k words.new) }
    ensures others { (k : ℕ) → k < 8
        → (name : Items ℕ) → (Contains (registers_of circuit.now.steps) name → ⊥)
        → named circuit.now (lane k words.new) name ≡ named circuit.now (lane k words.old) name }
{
    next_words(circuit, words, next);
    store(circuit, next, words);
}

/// One edge without reset: all registers take the words of their operands together.
pub(crate) fn tick(circuit: &Circuit<'_>, moves: &Moves, words: &mut [u64x8], next: &mut [u64x8])
    requires sound { IsSound circuit.now }
    requires size { length words.old ≡ length (all_names circuit.now) }
    requires next { length next.old ≡ length circuit.now.steps }
    requires fit { (k : ℕ) → k < 8 → AllFit circuit.now (lane k words.old) }
    requires moves { IsTrue moves.now.are_ordered
        → AreOrdered circuit.now moves.now.flip_flops.items moves.now.transfers.items }
    ensures edge { (k : ℕ) → k < 8 → Edge circuit.now false (named circuit.now
        (lane k words.old)) (named circuit.now (lane k words.new)) }
    ensures ports { (k : ℕ) → k < 8 → Agree (names_of circuit.now.inputs) (named circuit.now
        (lane k words.old)) (named circuit.now (lane k words.new)) }
    ensures fit { (k : ℕ) → k < 8 → AllFit circuit.now (lane k words.new) }
    ensures others { (k : ℕ) → k < 8
        → (name : Items ℕ) → (Contains (registers_of circuit.now.steps) name → ⊥)
        → named circuit.now (lane k words.new) name ≡ named circuit.now (lane k words.old) name }
{
    if moves.are_ordered {
        move_all(circuit, moves, words);
    } else {
        tick_together(circuit, words, next);
    }
}
