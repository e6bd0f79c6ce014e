ghost use Rattle.std.specs.Prelude.{◌≡◌, ◌<◌, ◌≤◌, ◌+◌, ℕ, List as Items, length, replicate, true, false, slice_get, slice_set, slice_index, slice_index_or, Some, Contains, IfOk};
ghost use Rattle.std.specs.Option.{ForSome};
ghost use Rattle.av_base.specs.Words.{IsWord};
ghost use Rattle.av_net.specs.Meaning.{Words, word_of};
ghost use Rattle.av_net.specs.Names.{all_names, given_names, names_of, registers_of, width_of};
ghost use Rattle.av_net.specs.Settled.{Settled, Agree};
ghost use Rattle.av_net.specs.Clocked.{Edge};
ghost use Rattle.av_clock.specs.Named.{named, AllFit};
ghost use Rattle.av_clock.specs.Gates.{AreTaken, FitRegisters};
ghost use Rattle.av_clock.specs.Marked.{IsClear, touched};
ghost use Rattle.av_clock.specs.Marking.{IsSet, ReadTheSame, AreAhead, AreTouched, AreDue};
ghost use Rattle.av_clock.specs.inner.Computed.{IsComputed};
ghost use Rattle.av_clock.specs.Merged.{merged as merged_module, IsMerging};

use crate::circuit::Circuit;
use crate::marks::{Marks, mark_anew};
use crate::merged::Merged;
use av_base::Memory;
use av_net::Module;
use std::alloc::Global;

/// What a circuit carries: a word for each name, within its width, and a mark for each drive and each step.
#[derive(Drop)]
pub(crate) struct State<'a> {
    pub(crate) circuit: Circuit<'a>,
    // The words of all names, in the order of declarations.
    pub(crate) words: Vec<u64>,
    // Room for the registers' next words, and for the steps that are taken.
    pub(crate) next: Vec<u64>,
    pub(crate) taken: Vec<usize>,
    // The drives and the steps of which an operand changed.
    pub(crate) stale: Marks,
    pub(crate) due: Marks,
    ghost size: { length words.items ≡ length (all_names circuit) },
    ghost fit: { AllFit circuit words.items },
    ghost next_size: { length next.items ≡ length circuit.steps },
    ghost taken_size: { length taken.items ≡ length circuit.steps },
    ghost stale_size: { length stale ≡ length circuit.drives },
    ghost due_size: { length due ≡ length circuit.steps },
}

impl<'a> State<'a> {
    ghost use Rattle.av_clock.specs.inner.State.{named_words, drive_state, IsHeld, HasZeros};

    /// All words 0, and no mark set.
    pub(crate) fn new(alloc: Global, of: &'a Module, merged: Merged) -> Result<State<'a>, Memory>
        requires { IsMerging of.now merged }
        ensures circuit { IfOk result (λ state.
            state.circuit ≡ merged_module of.now merged.sources.items) }
        ensures words { IfOk result (λ state.
            state.words.items ≡ replicate (length (all_names state.circuit)) 0) }
    {
        let circuit = Circuit::new(alloc, of, merged)?;
        let words = vec![in alloc; 0u64; circuit.size()]?;
        let next = vec![in alloc; 0u64; circuit.steps()]?;
        let taken = vec![in alloc; 0usize; circuit.steps()]?;
        let stale = Marks::new(alloc, circuit.drives())?;
        let due = Marks::new(alloc, circuit.steps())?;
        Ok(State {
            circuit,
            words,
            next,
            taken,
            stale,
            due,
        })
    }

    /// All drives in order, but those of the constant 0.
    pub(crate) fn settle(&mut self)
        requires zeros { HasZeros self.old }
        ensures circuit { self.new.circuit ≡ self.old.circuit }
        ensures settled { Settled self.new.circuit (named_words self.new) }
        ensures given { Agree (given_names self.new.circuit)
            (named_words self.old) (named_words self.new) }
    {
        self.circuit.is_sound();
        let words = self.words.as_mut_slice();
        for assignment in self.circuit.computed() {
            words[assignment.target] = assignment.gate.word(words);
        }
    }

    // One marked drive.
    fn compute(&mut self, drive: usize)
        requires marked { IsSet self.old.stale drive }
        requires held { IsHeld self.old }
        ensures circuit { self.new.circuit ≡ self.old.circuit }
        ensures computed { IsComputed self.old.circuit drive self.old.words.items
            self.new.words.items self.old.stale self.new.stale self.new.due }
        ensures touched { AreTouched self.old.circuit
            self.old.words.items self.new.words.items self.old.stale self.new.stale }
    {
        self.circuit.is_sound();
        self.stale.clear(drive);
        let assignment = &self.circuit.assignments()[drive];
        let target = assignment.target;
        let word = assignment.gate.word(&self.words);
        self.write(target, word);
    }

    /// The marked drives alone, in order, and their number.
    pub(crate) fn settle_marked(&mut self) -> usize
        requires held { IsHeld self.old }
        ensures circuit { self.new.circuit ≡ self.old.circuit }
        ensures settled { Settled self.new.circuit (named_words self.new) }
        ensures given { Agree (given_names self.new.circuit)
            (named_words self.old) (named_words self.new) }
        ensures held { IsHeld self.new }
        ensures most { result ≤ length self.old.circuit.drives }
        ensures alone { (k : ℕ) → k ≤ length self.old.circuit.drives
            → ((j : ℕ) → j < k → IsClear self.old.stale j)
            → result + k ≤ length self.old.circuit.drives }
        ensures touched { result ≤ touched
            (named_words self.old) (named_words self.new) self.old.circuit.drives self.old.stale }
    {
        self.circuit.is_sound();
        let mut computed = 0;
        let mut drive = self.stale.next(0);
        while drive < self.circuit.drives() {
            self.compute(drive);
            computed += 1;
            drive = self.stale.next(drive + 1);
        }
        computed
    }

    // Gives a place a word, and marks what reads it where the word is another.
    fn write(&mut self, place: usize, word: u64)
        requires place { place < length self.old.words.items }
        requires fits { (name : Items ℕ)
            → slice_get (all_names self.old.circuit) place ≡ Some name
            → IsWord (width_of self.old.circuit name) word }
        ensures circuit { self.new.circuit ≡ self.old.circuit }
        ensures next { self.new.next ≡ self.old.next }
        ensures taken { self.new.taken ≡ self.old.taken }
        ensures words { self.new.words.items ≡ slice_set self.old.words.items place word }
        ensures same { ReadTheSame self.old.circuit self.old.words.items self.new.words.items
            self.old.stale self.new.stale self.old.due self.new.due }
        ensures ahead { (name : Items ℕ)
            → slice_get (all_names self.old.circuit) place ≡ Some name
            → AreAhead self.old.circuit name self.old.stale self.new.stale }
        ensures touched { AreTouched self.old.circuit
            self.old.words.items self.new.words.items self.old.stale self.new.stale }
    {
        self.circuit.is_sound();
        if self.words[place] != word {
            self.words[place] = word;
            self.circuit
                .mark_readers(place, &mut self.stale, &mut self.due);
        }
    }

    /// Gives an input port a value, and marks what reads it unless the clock is dense.
    pub(crate) fn present(&mut self, dense: bool, port: usize, value: u64)
        requires port { port < length self.old.circuit.inputs }
        requires fits { ForSome (slice_get self.old.circuit.inputs port) (λ p.
            IsWord p.width.bits value) }
        ensures circuit { self.new.circuit ≡ self.old.circuit }
        ensures words { self.new.words.items ≡ slice_set self.old.words.items port value }
        ensures held { dense ≡ false → IsHeld self.old → IsHeld self.new }
        ensures zeros { HasZeros self.old → HasZeros self.new }
    {
        self.circuit.is_sound();
        if dense {
            self.words[port] = value;
        } else {
            self.write(port, value);
        }
    }

    // The marked steps, the words that their registers take at an edge without reset, and their number.
    fn take_due(&mut self) -> usize
        requires held { IsHeld self.old }
        ensures kept { drive_state self.new ≡ drive_state self.old }
        ensures count { result ≤ length self.new.circuit.steps }
        ensures within { (j : ℕ) → j < result
            → slice_index self.new.taken.items j < length self.new.circuit.steps }
        ensures taken { (d : _) → AreDue self.new.circuit (named_words self.new)
            (λ i. word_of (named_words self.new) (slice_index_or self.new.circuit.steps i d).next)
            self.new.taken.items self.new.next.items result }
    {
        self.circuit.is_sound();
        let words = self.words.as_slice();
        let taken = self.taken.as_mut_slice();
        let next = self.next.as_mut_slice();
        let flip_flops = self.circuit.flip_flops();
        let due = &mut self.due;
        let mut count = 0;
        let mut step = due.next(0);
        while step < flip_flops.len() {
            due.clear(step);
            taken[count] = step;
            next[count] = flip_flops[step].next.word(words);
            count += 1;
            step = due.next(step + 1);
        }
        count
    }

    // Gives the registers of the first of the steps that are taken, as many as are counted, their next words.
    fn store_taken(&mut self, count: usize)
        requires count { count ≤ length self.old.circuit.steps }
        requires within { (j : ℕ) → j < count
            → slice_index self.old.taken.items j < length self.old.circuit.steps }
        requires fitting { (j : ℕ) (d : _) → j < count → IsWord (width_of self.old.circuit
            (slice_index_or self.old.circuit.steps (slice_index self.old.taken.items j) d).register)
            (slice_index self.old.next.items j) }
        ensures circuit { self.new.circuit ≡ self.old.circuit }
        ensures same { ReadTheSame self.old.circuit self.old.words.items self.new.words.items
            self.old.stale self.new.stale self.old.due self.new.due }
        ensures registers { (word : ℕ → ℕ) → AreDue self.old.circuit (named_words self.old) word
            self.old.taken.items self.old.next.items count
            → (i : ℕ) (d : _) → i < length self.old.circuit.steps
            → named self.old.circuit self.new.words.items
            (slice_index_or self.old.circuit.steps i d).register ≡ word i }
        ensures others { (name : Items ℕ)
            → (Contains (registers_of self.old.circuit.steps) name → ⊥)
            → named self.old.circuit self.new.words.items name ≡ named_words self.old name }
    {
        self.circuit.is_sound();
        for i in 0..count {
            let register = self.circuit.flip_flops()[self.taken[i]].register;
            let word = self.next[i];
            self.write(register, word);
        }
    }

    /// One edge without reset: the registers of the marked steps take the words of their operands together. The marks of a dense clock are
    /// made anew before it.
    pub(crate) fn tick_marked(&mut self, dense: bool)
        requires settled { Settled self.old.circuit (named_words self.old) }
        requires held { dense ≡ false → IsHeld self.old }
        ensures circuit { self.new.circuit ≡ self.old.circuit }
        ensures edge { Edge self.new.circuit false (named_words self.old) (named_words self.new) }
        ensures ports { Agree (names_of self.new.circuit.inputs)
            (named_words self.old) (named_words self.new) }
        ensures held { IsHeld self.new }
        ensures zeros { HasZeros self.old → HasZeros self.new }
    {
        mark_anew(dense, &mut self.stale, &mut self.due);
        let count = self.take_due();
        self.circuit.is_sound();
        self.store_taken(count);
    }

    /// One edge with reset: all registers take their literals, and all steps are marked.
    pub(crate) fn reset(&mut self)
        ensures circuit { self.new.circuit ≡ self.old.circuit }
        ensures edge { Edge self.new.circuit true (named_words self.old) (named_words self.new) }
        ensures ports { Agree (names_of self.new.circuit.inputs)
            (named_words self.old) (named_words self.new) }
        ensures held { IsHeld self.old → IsHeld self.new }
        ensures zeros { HasZeros self.old → HasZeros self.new }
    {
        self.reset_words();
        self.circuit.is_sound();
        let count = self.circuit.steps();
        self.store_taken(count);
        self.due.fill(true);
    }

    // All steps, and what each register takes at an edge with reset.
    fn reset_words(&mut self)
        ensures kept { drive_state self.new ≡ drive_state self.old }
        ensures due { self.new.due ≡ self.old.due }
        ensures steps { (j : ℕ) → j < length self.new.circuit.steps
            → slice_index self.new.taken.items j ≡ j }
        ensures words { (old : Words) → AreTaken self.new.circuit true
            old (length self.new.circuit.steps) self.new.next.items }
    {
        let taken = self.taken.as_mut_slice();
        let next = self.next.as_mut_slice();
        for (i, flip_flop) in self.circuit.flip_flops().iter().enumerate() {
            next[i] = flip_flop.reset;
            taken[i] = i;
        }
    }

    /// One edge without reset, of which the marks know nothing: all registers take the words of their operands together.
    pub(crate) fn tick_all(&mut self)
        ensures circuit { self.new.circuit ≡ self.old.circuit }
        ensures edge { Edge self.new.circuit false (named_words self.old) (named_words self.new) }
        ensures ports { Agree (names_of self.new.circuit.inputs)
            (named_words self.old) (named_words self.new) }
        ensures zeros { HasZeros self.old → HasZeros self.new }
    {
        self.next_words();
        self.circuit.is_sound();
        self.store();
    }

    // What each register takes at an edge without reset, in the order of the steps.
    fn next_words(&mut self)
        ensures kept { drive_state self.new ≡ drive_state self.old }
        ensures taken { AreTaken self.new.circuit false
            (named_words self.new) (length self.new.circuit.steps) self.new.next.items }
    {
        self.circuit.is_sound();
        let words = self.words.as_slice();
        let next = self.next.as_mut_slice();
        for (i, flip_flop) in self.circuit.flip_flops().iter().enumerate() {
            next[i] = flip_flop.next.word(words);
        }
    }

    // Gives all registers their next words.
    fn store(&mut self)
        requires fitting { FitRegisters self.old.circuit self.old.next.items }
        ensures circuit { self.new.circuit ≡ self.old.circuit }
        ensures registers { (k : ℕ) → k < length self.old.circuit.steps → (d : _)
            → named_words self.new (slice_index_or self.old.circuit.steps k d).register
            ≡ slice_index self.old.next.items k }
        ensures ports { Agree (names_of self.new.circuit.inputs)
            (named_words self.old) (named_words self.new) }
        ensures zeros { HasZeros self.old → HasZeros self.new }
    {
        self.circuit.is_sound();
        let next = self.next.as_slice();
        let words = self.words.as_mut_slice();
        for (i, flip_flop) in self.circuit.flip_flops().iter().enumerate() {
            words[flip_flop.register] = next[i];
        }
    }

    /// How many registers an edge without reset would give another word.
    pub(crate) fn changed(&self) -> usize {
        let words = self.words.as_slice();
        let mut changed = 0;
        for flip_flop in self.circuit.flip_flops() {
            if flip_flop.next.word(words) != words[flip_flop.register] {
                changed += 1;
            }
        }
        changed
    }
}
