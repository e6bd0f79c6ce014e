//! Numbers in binary.

ghost use Rattle.std.specs.Prelude.{◌≡◌, ◌<◌, ◌≤◌, ◌+◌, ◌%◌, ◌^◌, ℕ, IsTrue, IfSome, IfNone};
ghost use Rattle.av_wave.specs.inner.Codes.{binary_value};
ghost use Rattle.av_wave.specs.Dumps.{binary};

use std::marker::Model;

// A number of 64 bits has at most 64 digits.
const SIZE: usize = 64;

/// A number in binary without leading zeros, which contracts see as its bytes.
#[derive(Drop)]
pub(crate) struct Binary {
    digits: [u8; SIZE],
    first: usize,
}

impl Model for Binary {
    ghost use Rattle.std.specs.Prelude.{ℕ, List as Items, ◌≤◌, drop};

    ghost Value = { Items ℕ };

    ghost view = { λ c. drop c.first c.digits };

    ghost invariant = { λ c. c.first ≤ 64 };
}

impl Binary {
    /// The digits of a number.
    pub(crate) fn new(number: u64) -> Binary
        ensures { result ≡ binary number }
    {
        let mut digits = [b'0'; SIZE];
        digits[SIZE - 1] = digit(number);
        let mut first = SIZE - 1;
        let mut left = number / 2;
        while left > 0 {
            first -= 1;
            digits[first] = digit(left);
            left /= 2;
        }
        Binary { digits, first }
    }

    /// Its bytes.
    pub(crate) fn as_bytes(&self) -> &[u8]
        ensures { result.now ≡ self.now }
    {
        &self.digits[self.first..]
    }
}

// The lowest digit of a number.
fn digit(number: u64) -> u8
    ensures { result ≡ 48 + number % 2 }
{
    b'0' + (number % 2) as u8
}

// The number that the bytes stand for as digits, where it has 64 bits.
fn value_of(digits: &[u8]) -> Option<u64>
    ensures some { IfSome result (λ value. value ≡ binary_value digits.now) }
    ensures none { IfNone result (2 ^ 64 ≤ binary_value digits.now) }
{
    let mut value = 0u64;
    for digit in digits {
        let twice = value.checked_mul(2)?;
        value = twice.checked_add(u64::from(digit.saturating_sub(b'0')))?;
    }
    Some(value)
}

// Whether a number is written so in binary.
fn are_digits_of(digits: &[u8], number: u64) -> bool
    ensures yes { IsTrue result → (number < 2 ^ 64) × (digits.now ≡ binary number) }
    ensures no { digits.now ≡ binary number → IsTrue result }
{
    digits == Binary::new(number).as_bytes()
}

/// The number that is written so in binary.
pub(crate) fn binary_in(digits: &[u8]) -> Option<u64>
    ensures some { IfSome result (λ value. (value < 2 ^ 64) × (digits.now ≡ binary value)) }
    ensures none { IfNone result ((value : ℕ) → value < 2 ^ 64 → digits.now ≡ binary value → ⊥) }
{
    let value = value_of(digits)?;
    if are_digits_of(digits, value) {
        Some(value)
    } else {
        None
    }
}
