//! Numbers with their widths.

ghost use Rattle.std.specs.Prelude.{◌≡◌, ◌^◌, ◌<◌, ◌≤◌, ◌⊎◌, drop, true, false, nat_lt, IfSome, IfNone};
ghost use Rattle.std.specs.List.{prefix_len};
ghost use Rattle.av_base.specs.Tokens.{number_of};
ghost use Rattle.av_vparse.specs.inner.Reading.{size_digits, value_digits, begins_base, fits_in, is_literal, GivesOption, sized_view, literal_in};
ghost use Rattle.av_vparse.specs.Digits.{are_digits};

use av_base::limits::MOST_BITS;
use av_base::{Width, Word, decimal_value, digits_len};

/// A constant word and its width.
#[derive(Clone, Copy)]
pub(crate) struct Literal {
    pub(crate) width: Width,
    pub(crate) value: u64,
}

// What follows 'd, where that comes first.
fn after_base(bytes: &[u8]) -> Option<&[u8]>
    ensures some { IfSome result (λ digits. (begins_base bytes.now ≡ true)
        × (digits.now ≡ drop 2 bytes.now)) }
    ensures none { IfNone result (begins_base bytes.now ≡ false) }
{
    match bytes {
        [quote, base, digits @ ..] if *quote == b'\'' && *base == b'd' => Some(digits),
        _ => None,
    }
}

/// Whether all bytes are decimal digits, and there is one.
pub fn are_digits(bytes: &[u8]) -> bool
    ensures { result ≡ are_digits bytes.now }
{
    !bytes.is_empty() && digits_len(bytes) == bytes.len()
}

fn fits(value: u64, width: Width) -> bool
    ensures { result ≡ nat_lt value (2 ^ width.bits) }
{
    Word::of(value, width).bits == value
}

// The width of so many bits, if there is one.
fn width_of(bits: u64) -> Option<Width>
    ensures some { IfSome result (λ width. (width.bits ≡ bits) × (1 ≤ bits) × (bits ≤ 64)) }
    ensures none { IfNone result ((bits ≡ 0) ⊎ (64 < bits)) }
{
    if bits > u64::from(MOST_BITS) {
        return None;
    }
    Width::new(bits as u32)
}

// The word of this width that digits spell, if they spell one.
fn word_of(size: &[u8], digits: &[u8]) -> Option<Literal>
    ensures some { IfSome result (λ x. (fits_in (number_of size.now) (number_of digits.now) ≡ true)
        × (x.width.bits ≡ number_of size.now) × (x.value ≡ number_of digits.now)) }
    ensures none { IfNone result (fits_in (number_of size.now) (number_of digits.now) ≡ false) }
{
    let width = width_of(decimal_value(size)?)?;
    let value = decimal_value(digits)?;
    if !fits(value, width) {
        return None;
    }
    Some(Literal { width, value })
}

// The literal that digits, `'d` and digits spell, if its width is 1 to 64 and its value has that width.
fn checked_literal(text: &str) -> Option<Literal>
    ensures some { IfSome result (λ x. (is_literal text.now ≡ true)
        × (x.width.bits ≡ number_of (size_digits text.now))
        × (x.value ≡ number_of (value_digits text.now))) }
    ensures none { IfNone result (is_literal text.now ≡ false) }
{
    let bytes = text.as_bytes();
    let len = digits_len(bytes);
    let digits = after_base(&bytes[len..])?;
    if len == 0 || !are_digits(digits) {
        return None;
    }
    word_of(&bytes[..len], digits)
}

/// The literal that a text spells, if its width is 1 to 64 and its value has that width.
pub(crate) fn literal_of(text: &str) -> Option<Literal>
    ensures { GivesOption sized_view result (literal_in text.now) }
{
    checked_literal(text)
}
