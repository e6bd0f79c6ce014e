//! Sizes in words: NAME=VALUE.

ghost use Rattle.std.specs.Prelude.{◌≡◌, ◌≤◌, ◌↔◌, ℤ, ◌++◌, List as Items, ℕ, unsigned_abs, codes, IsTrue, IfSome, IfNone};
ghost use Rattle.av_data.specs.Data.{SpellsWhole};
ghost use Rattle.av_commands.specs.SizeWords.{IsSize};

use crate::numbers::number_at_most;
use av_base::limits::MOST_SIZE;
use av_base::{is_name, word_len};

/// Whether the word is NAME=VALUE.
pub fn is_size(word: &[u8]) -> bool
    ensures { IsTrue result ↔ IsSize word.now }
{
    let len = word_len(word);
    let name = &word[..len];
    let value = &word[len..];
    is_name(name) && is_given(value)
}

// Whether a `=` and a value stand here.
fn is_given(text: &[u8]) -> bool
    ensures { IsTrue result ↔ ((value : Items ℕ) × (z : ℤ)
        × (text.now ≡ codes "=" ++ value) × SpellsWhole value z × (unsigned_abs z ≤ 1048576)) }
{
    match text.strip_prefix(b"=") {
        Some(value) => size_value(value).is_some(),
        None => false,
    }
}

/// The value that stands here: digits, with a minus sign before them or without.
pub(crate) fn size_value(text: &[u8]) -> Option<i64>
    ensures value { IfSome result (λ z. SpellsWhole text.now z × (unsigned_abs z ≤ 1048576)) }
    ensures none { IfNone result ((z : ℤ) → SpellsWhole text.now z → unsigned_abs z ≤ 1048576 → ⊥) }
{
    match text.strip_prefix(b"-") {
        Some(digits) => {
            let number = number_at_most(MOST_SIZE, digits)?;
            Some(-i64::from(number))
        }
        None => {
            let number = number_at_most(MOST_SIZE, text)?;
            Some(i64::from(number))
        }
    }
}
