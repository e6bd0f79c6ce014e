//! How digits are spelled.

ghost use Rattle.std.specs.Prelude.{◌≡◌, ◌^◌, ◌<◌, ◌≤◌, IfSome, IfNone};
ghost use Rattle.av_base.specs.Tokens.{number_of};
ghost use Rattle.av_data.specs.Reading.{are_digits};

use av_base::{Width, Word, decimal_value, digits_len};

/// One or more digits.
pub(crate) fn are_digits(text: &[u8]) -> bool
    ensures { result ≡ are_digits text.now }
{
    !text.is_empty() && digits_len(text) == text.len()
}

/// The decimal value of digits, if it is below a bound.
pub(crate) fn number_below(digits: &[u8], bound: u32) -> Option<u32>
    ensures some { IfSome result (λ n. (n ≡ number_of digits.now) × (n < bound)) }
    ensures none { IfNone result (bound ≤ number_of digits.now) }
{
    let value = decimal_value(digits)?;
    if value < u64::from(bound) {
        Some(value as u32)
    } else {
        None
    }
}

/// The decimal value of digits, if it is a word of this width.
pub(crate) fn word_of(digits: &[u8], width: Width) -> Option<u64>
    ensures some { IfSome result (λ n. (n ≡ number_of digits.now) × (n < 2 ^ width.bits)) }
    ensures none { IfNone result (2 ^ width.bits ≤ number_of digits.now) }
{
    let value = decimal_value(digits)?;
    if Word::of(value, width).bits == value {
        Some(value)
    } else {
        None
    }
}
