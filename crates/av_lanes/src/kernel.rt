//! What an operation gives, for eight lanes at once: each is one kernel, which gives in each lane what it gives of the lane's words.

ghost use Rattle.std.specs.Prelude.{◌≡◌, ◌≤◌, ◌<◌, ◌+◌, ◌-◌, ◌*◌, ◌/◌, ◌%◌, ◌^◌, ◌==◌, ℕ, false, not, nat_lt, nat_le, slice_index, bit_and, bit_or};
ghost use Rattle.av_base.specs.Words.{IsWord, residue, sum as word_sum, difference as word_difference, product as word_product};
ghost use Rattle.av_net.specs.Meaning.{applied, signed_test, bit, chosen as chosen_word, widened};

use av_base::Width;
use av_net::Symbol;
use std::simd::prelude::*;

/// The word in each lane.
#[inline(always)]
pub(crate) fn constant(word: u64) -> u64x8
    ensures { (k : ℕ) → k < 8 → slice_index result k ≡ word }
{
    u64x8::splat(word)
}

/// The greatest word of a width.
#[inline(always)]
pub(crate) fn greatest(width: Width) -> u64
    ensures { result ≡ 2 ^ width.bits - 1 }
{
    if width.bits == 64 {
        u64::MAX
    } else {
        (1u64 << width.bits) - 1
    }
}

// The low bits of each lane, as many as the width says.
#[inline(always)]
fn cut(numbers: u64x8, width: Width) -> u64x8
    ensures { (k : ℕ) → k < 8 → slice_index result k ≡ residue width.bits (slice_index numbers k) }
{
    masked(numbers, greatest(width))
}

// The bits of each lane that a mask has.
#[inline(always)]
fn masked(numbers: u64x8, mask: u64) -> u64x8
    ensures { (w : ℕ) → mask ≡ 2 ^ w - 1
        → (k : ℕ) → k < 8 → slice_index result k ≡ residue w (slice_index numbers k) }
{
    numbers & u64x8::splat(mask)
}

// The word where the bit is 1, else 0.
#[inline(always)]
fn where_set(bits: u64x8, words: u64x8) -> u64x8
    ensures { (k : ℕ) → k < 8 → slice_index bits k < 2
        → slice_index result k ≡ chosen_word (slice_index bits k) (slice_index words k) 0 }
{
    (u64x8::splat(0) - bits) & words
}

/// The sum of words of a width, whose bits the mask has.
#[inline(always)]
pub(crate) fn masked_sum(left: u64x8, right: u64x8, mask: u64) -> u64x8
    ensures { (w : ℕ) → w ≤ 64 → mask ≡ 2 ^ w - 1 → (k : ℕ)
        → k < 8 → slice_index result k ≡ word_sum w (slice_index left k) (slice_index right k) }
{
    masked(left + right, mask)
}

#[inline(always)]
fn sum(left: u64x8, right: u64x8, width: Width) -> u64x8
    ensures { (k : ℕ) → k < 8
        → slice_index result k ≡ word_sum width.bits (slice_index left k) (slice_index right k) }
{
    masked_sum(left, right, greatest(width))
}

#[inline(always)]
fn difference(left: u64x8, right: u64x8, width: Width) -> u64x8
    ensures { (k : ℕ) → k < 8 → IsWord width.bits (slice_index right k) → slice_index result k
        ≡ word_difference width.bits (slice_index left k) (slice_index right k) }
{
    cut(left - right, width)
}

// The low 32 bits of each lane.
#[inline(always)]
fn low_half(words: u64x8) -> u64x8
    ensures { (k : ℕ) → k < 8 → slice_index result k ≡ residue 32 (slice_index words k) }
{
    words & u64x8::splat(0xffff_ffff)
}

/// The product of words of at most 32 bits, whose bits the mask has: that of the low halves, which a processor multiplies at once.
#[inline(always)]
pub(crate) fn masked_product(left: u64x8, right: u64x8, mask: u64) -> u64x8
    ensures { (w : ℕ) → w ≤ 32 → mask ≡ 2 ^ w - 1 → (k : ℕ)
        → k < 8 → slice_index result k ≡ word_product w (slice_index left k) (slice_index right k) }
{
    masked(low_half(left) * low_half(right), mask)
}

// A product of at most 32 bits.
#[inline(always)]
fn small_product(left: u64x8, right: u64x8, width: Width) -> u64x8
    requires { width.bits ≤ 32 }
    ensures { (k : ℕ) → k < 8 → slice_index result k
        ≡ word_product width.bits (slice_index left k) (slice_index right k) }
{
    masked_product(left, right, greatest(width))
}

// A product of any width.
#[inline(always)]
fn any_product(left: u64x8, right: u64x8, width: Width) -> u64x8
    ensures { (k : ℕ) → k < 8 → slice_index result k
        ≡ word_product width.bits (slice_index left k) (slice_index right k) }
{
    cut(left * right, width)
}

#[inline(always)]
fn product(left: u64x8, right: u64x8, width: Width) -> u64x8
    ensures { (k : ℕ) → k < 8 → slice_index result k
        ≡ word_product width.bits (slice_index left k) (slice_index right k) }
{
    if width.bits <= 32 {
        small_product(left, right, width)
    } else {
        any_product(left, right, width)
    }
}

#[inline(always)]
fn both(left: u64x8, right: u64x8) -> u64x8
    ensures { (k : ℕ) → k < 8
        → slice_index result k ≡ bit_and (slice_index left k) (slice_index right k) }
{
    left & right
}

#[inline(always)]
fn either(left: u64x8, right: u64x8) -> u64x8
    ensures { (k : ℕ) → k < 8
        → slice_index result k ≡ bit_or (slice_index left k) (slice_index right k) }
{
    left | right
}

#[inline(always)]
fn are_equal(left: u64x8, right: u64x8) -> u64x8
    ensures { (k : ℕ) → k < 8
        → slice_index result k ≡ bit (slice_index left k == slice_index right k) }
{
    left.simd_eq(right).select(u64x8::splat(1), u64x8::splat(0))
}

#[inline(always)]
fn are_unequal(left: u64x8, right: u64x8) -> u64x8
    ensures { (k : ℕ) → k < 8
        → slice_index result k ≡ bit (not (slice_index left k == slice_index right k)) }
{
    left.simd_ne(right).select(u64x8::splat(1), u64x8::splat(0))
}

// Numbers below 2^63 in order: their difference has its highest bit where the first is less.
#[inline(always)]
fn small_are_less(left: u64x8, right: u64x8) -> u64x8
    ensures { (k : ℕ) → k < 8 → IsWord 63 (slice_index left k) → IsWord 63 (slice_index right k)
        → slice_index result k ≡ bit (nat_lt (slice_index left k) (slice_index right k)) }
{
    (left - right) >> u64x8::splat(63)
}

// Any numbers in order.
#[inline(always)]
fn any_are_less(left: u64x8, right: u64x8) -> u64x8
    ensures { (k : ℕ) → k < 8
        → slice_index result k ≡ bit (nat_lt (slice_index left k) (slice_index right k)) }
{
    left.simd_lt(right).select(u64x8::splat(1), u64x8::splat(0))
}

#[inline(always)]
fn are_less(left: u64x8, right: u64x8, width: Width) -> u64x8
    ensures { (k : ℕ) → k < 8
        → IsWord width.bits (slice_index left k) → IsWord width.bits (slice_index right k)
        → slice_index result k ≡ bit (nat_lt (slice_index left k) (slice_index right k)) }
{
    if width.bits < 64 {
        small_are_less(left, right)
    } else {
        any_are_less(left, right)
    }
}

#[inline(always)]
fn are_at_most(left: u64x8, right: u64x8, width: Width) -> u64x8
    ensures { (k : ℕ) → k < 8
        → IsWord width.bits (slice_index left k) → IsWord width.bits (slice_index right k)
        → slice_index result k ≡ bit (nat_le (slice_index left k) (slice_index right k)) }
{
    u64x8::splat(1) - are_less(right, left, width)
}

// Each word moved up by half of the range, so that the order of two's complement is that of whole numbers.
#[inline(always)]
fn raised(words: u64x8, width: Width) -> u64x8
    ensures { (k : ℕ) → k < 8
        → slice_index result k ≡ word_sum width.bits (slice_index words k) (2 ^ (width.bits - 1)) }
{
    sum(words, u64x8::splat(1u64 << (width.bits - 1)), width)
}

/// Two unsigned words of the width under an operator.
#[inline(always)]
pub(crate) fn operated(symbol: Symbol, left: u64x8, right: u64x8, width: Width) -> u64x8
    ensures { (k : ℕ) → k < 8 → IsWord width.bits (slice_index left k)
        → IsWord width.bits (slice_index right k) → slice_index result k
        ≡ applied symbol width.bits (slice_index left k) (slice_index right k) }
{
    match symbol {
        Symbol::Add => sum(left, right, width),
        Symbol::Sub => difference(left, right, width),
        Symbol::Mul => product(left, right, width),
        Symbol::And => both(left, right),
        Symbol::Or => either(left, right),
        Symbol::Equal => are_equal(left, right),
        Symbol::Unequal => are_unequal(left, right),
        Symbol::Less => are_less(left, right, width),
        Symbol::LessEqual => are_at_most(left, right, width),
        Symbol::Greater => are_less(right, left, width),
        Symbol::GreaterEqual => are_at_most(right, left, width),
    }
}

/// Two words of the width compared as two's complement.
#[inline(always)]
pub(crate) fn compared(symbol: Symbol, left: u64x8, right: u64x8, width: Width) -> u64x8
    ensures { (k : ℕ) → k < 8 → IsWord width.bits (slice_index left k)
        → IsWord width.bits (slice_index right k) → slice_index result k
        ≡ bit (signed_test symbol width.bits (slice_index left k) (slice_index right k)) }
{
    let (a, b) = (raised(left, width), raised(right, width));
    match symbol {
        Symbol::Less => are_less(a, b, width),
        Symbol::LessEqual => are_at_most(a, b, width),
        Symbol::Greater => are_less(b, a, width),
        Symbol::GreaterEqual => are_at_most(b, a, width),
        _ => constant(0),
    }
}

/// The first word where the condition is 1, else the second.
#[inline(always)]
pub(crate) fn chosen(condition: u64x8, first: u64x8, second: u64x8) -> u64x8
    ensures { (k : ℕ) → k < 8 → IsWord 1 (slice_index condition k) → slice_index result k
        ≡ chosen_word (slice_index condition k) (slice_index first k) (slice_index second k) }
{
    second + where_set(condition, first - second)
}

/// So many bits of a word, from one on.
#[inline(always)]
pub(crate) fn sliced(words: u64x8, from: u32, width: Width) -> u64x8
    requires { from < 64 }
    ensures { (k : ℕ) → k < 8
        → slice_index result k ≡ slice_index words k / 2 ^ from % 2 ^ width.bits }
{
    cut(words >> u64x8::splat(u64::from(from)), width)
}

// So many ones above a word of the width.
#[inline(always)]
fn ones_above(width: Width, by: u32) -> u64
    requires { width.bits + by ≤ 64 }
    ensures { result ≡ (2 ^ by - 1) * 2 ^ width.bits }
{
    if by == 0 {
        return 0;
    }
    ((1u64 << by) - 1) << width.bits
}

/// A word of the width, and above it so many copies of its highest bit.
#[inline(always)]
pub(crate) fn extended(words: u64x8, width: Width, by: u32) -> u64x8
    requires { width.bits + by ≤ 64 }
    ensures { (k : ℕ) → k < 8 → IsWord width.bits (slice_index words k)
        → slice_index result k ≡ widened width.bits by (slice_index words k) }
{
    let highest = words >> u64x8::splat(u64::from(width.bits - 1));
    words + where_set(highest, u64x8::splat(ones_above(width, by)))
}

/// Whether two words differ in some lane.
#[inline(always)]
pub(crate) fn differ(a: u64x8, b: u64x8) -> bool
    ensures { result ≡ false → (k : ℕ) → k < 8 → slice_index a k ≡ slice_index b k }
{
    a.simd_ne(b).any()
}
