ghost use Rattle.std.specs.Prelude.{◌≡◌, ◌≢◌, ◌↔◌, ◌<◌, ◌≤◌, ◌+◌, ℕ, length, replicate, slice_set, true, false, ◌==◌, All, Contains, IfOk, IsTrue};
ghost use Rattle.std.specs.Int.{bit_at};
ghost use Rattle.av_clock.specs.Marked.{IsClear};
ghost use Rattle.av_clock.specs.Marking.{IsSet};

use av_base::Memory;
use std::alloc::Global;
use std::marker::Model;

// The number of marks in a word.
const BITS: usize = 64;

/// A mark for each of some things in order, set or clear, a bit for each. Contracts see the list of the marks.
#[derive(Drop)]
pub struct Marks {
    words: Vec<u64>,
    count: usize,
}

impl Model for Marks {
    ghost use Rattle.std.specs.Prelude.{List as Items, Bool};

    ghost Value = { Items Bool };

    ghost use Rattle.av_clock.specs.Bits.{marks_in, HasWords};

    ghost view = { marks_in };

    ghost invariant = { HasWords };
}

impl Marks {
    /// So many marks, all clear.
    pub fn new(alloc: Global, count: usize) -> Result<Marks, Memory>
        ensures { IfOk result (λ marks. marks ≡ replicate count false) }
    {
        let words = vec![in alloc; 0u64; count / BITS + 1]?;
        Ok(Marks { words, count })
    }

    fn len(&self) -> usize
        ensures { result ≡ length self.now }
    {
        self.count
    }

    fn is_set(&self, index: usize) -> bool
        requires { index < length self.now }
        ensures set { IsTrue result → IsSet self.now index }
        ensures clear { result ≡ false → IsClear self.now index }
    {
        has_bit(self.words[index / BITS], index % BITS)
    }

    /// Sets a mark.
    pub(crate) fn set(&mut self, index: usize)
        requires { index < length self.old }
        ensures { self.new ≡ slice_set self.old index true }
    {
        let word = self.words[index / BITS];
        self.words[index / BITS] = with_bit(word, index % BITS);
    }

    /// Clears a mark.
    pub fn clear(&mut self, index: usize)
        requires { index < length self.old }
        ensures { self.new ≡ slice_set self.old index false }
    {
        let word = self.words[index / BITS];
        self.words[index / BITS] = without_bit(word, index % BITS);
    }

    /// The first mark that is set, from this one on, or the number of marks where none is.
    pub fn next(&self, from: usize) -> usize
        ensures later { from ≤ length self.now → from ≤ result }
        ensures within { result ≤ length self.now }
        ensures clear { (k : ℕ) → from ≤ k → k < result → IsClear self.now k }
        ensures set { result < length self.now → IsSet self.now result }
    {
        let count = self.len();
        let mut index = from;
        while index < count {
            if self.is_set(index) {
                return index;
            }
            let step = self.clear_from(index);
            if count - index <= step {
                return count;
            }
            index += step;
        }
        count
    }

    // How many marks, from a clear one on, are clear in its word.
    fn clear_from(&self, index: usize) -> usize
        requires place { index < length self.now }
        requires clear { IsClear self.now index }
        ensures some { 0 < result }
        ensures clear { (k : ℕ) → index ≤ k
            → k < index + result → k < length self.now → IsClear self.now k }
    {
        next_bit(self.words[index / BITS], index % BITS) - index % BITS
    }

    /// Sets or clears all marks.
    pub fn fill(&mut self, mark: bool)
        ensures { self.new ≡ replicate (length self.old) mark }
    {
        fill(&mut self.words, word_of(mark));
    }
}

// Makes all of these the same.
fn fill(words: &mut [u64], word: u64)
    ensures { words.new ≡ replicate (length words.old) word }
{
    for i in 0..words.len() {
        words[i] = word;
    }
}

// The word of marks that are all the same.
fn word_of(mark: bool) -> u64
    ensures { (bit : ℕ) → bit < 64 → (bit_at result bit == 1) ≡ mark }
{
    if mark { u64::MAX } else { 0 }
}

// Whether a bit of a word is 1.
#[inline(always)]
fn has_bit(word: u64, bit: usize) -> bool
    requires { bit < 64 }
    ensures { IsTrue result ↔ (bit_at word bit ≡ 1) }
{
    word & (1 << bit) != 0
}

// The word with a bit of 1.
#[inline(always)]
fn with_bit(word: u64, bit: usize) -> u64
    requires { bit < 64 }
    ensures set { bit_at result bit ≡ 1 }
    ensures others { (i : ℕ) → i ≢ bit → bit_at result i ≡ bit_at word i }
{
    word | (1 << bit)
}

// The word with a bit of 0.
#[inline(always)]
fn without_bit(word: u64, bit: usize) -> u64
    requires { bit < 64 }
    ensures clear { bit_at result bit ≡ 0 }
    ensures others { (i : ℕ) → i < 64 → i ≢ bit → bit_at result i ≡ bit_at word i }
{
    word & !(1 << bit)
}

// The first bit of a word that is 1, from this one on, or 64 where none is.
#[inline(always)]
fn next_bit(word: u64, from: usize) -> usize
    requires { from < 64 }
    ensures later { from ≤ result }
    ensures most { result ≤ 64 }
    ensures clear { (i : ℕ) → from ≤ i → i < result → bit_at word i ≡ 0 }
    ensures set { result < 64 → bit_at word result ≡ 1 }
{
    let later = word >> from;
    if later == 0 {
        64
    } else {
        from + later.trailing_zeros() as usize
    }
}

/// Sets the marks of these.
pub(crate) fn set_all(list: &[usize], marks: &mut Marks)
    requires { All (λ k. k < length marks.old) list.now }
    ensures size { length marks.new ≡ length marks.old }
    ensures marked { (k : ℕ) → IsClear marks.new k
        → IsClear marks.old k × (Contains list.now k → ⊥) }
    ensures others { (k : ℕ) → IsClear marks.old k
        → (Contains list.now k → ⊥) → IsClear marks.new k }
{
    for index in list {
        marks.set(*index);
    }
}

/// In a dense clock marks say nothing, and where it has settled, all drives hold: their marks are cleared, and the steps are marked.
pub fn mark_anew(dense: bool, stale: &mut Marks, due: &mut Marks)
    ensures dense { IsTrue dense → (stale.new ≡ replicate (length stale.old) false)
        × (due.new ≡ replicate (length due.old) true) }
    ensures kept { dense ≡ false → (stale.new ≡ stale.old) × (due.new ≡ due.old) }
{
    if dense {
        stale.fill(false);
        due.fill(true);
    }
}
