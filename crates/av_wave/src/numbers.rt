//! Numbers on the lines of a dump.

ghost use Rattle.std.specs.Prelude.{◌≡◌, ◌+◌, ◌<◌, ◌^◌, ◌++◌, ◌∷◌, [], ℕ, List, IfSome, IfNone, decimal};
ghost use Rattle.av_base.specs.declared.width.Width.{Width as Bits};
ghost use Rattle.av_wave.specs.Dumps.{binary};
ghost use Rattle.av_wave.specs.inner.Codes.{AreDigits};

use crate::binary::binary_in;
use crate::pieces::behind;
use av_base::{Width, digits_len};

// The digits that a text begins with, and what stands behind them and a blank.
#[derive(Clone, Copy)]
struct LeadingDigits<'a> {
    digits: &'a [u8],
    rest: &'a [u8],
}

fn parted(text: &[u8]) -> Option<LeadingDigits<'_>>
    ensures some { IfSome result (λ parts. AreDigits parts.digits.now
        × (text.now ≡ parts.digits.now ++ 32 ∷ parts.rest.now)) }
    ensures none { IfNone result ((digits rest : List ℕ)
        → AreDigits digits → text.now ≡ digits ++ 32 ∷ rest → ⊥) }
{
    let len = digits_len(text);
    let rest = behind(&text[len..], b" ".as_slice())?;
    Some(LeadingDigits {
        digits: &text[..len],
        rest,
    })
}

fn digit(byte: u8) -> Option<u32>
    ensures some { IfSome result (λ value. (value < 10) × (byte ≡ 48 + value)) }
    ensures none { IfNone result ((value : ℕ) → value < 10 → byte ≡ 48 + value → ⊥) }
{
    if byte.is_ascii_digit() {
        Some(u32::from(byte - b'0'))
    } else {
        None
    }
}

// The number of two digits, of which the first is not 0.
fn two_digits(high: u8, low: u8) -> Option<u32>
    ensures some { IfSome result (λ number. decimal number ≡ high ∷ low ∷ []) }
    ensures none { IfNone result ((number : ℕ)
        → number < 100 → decimal number ≡ high ∷ low ∷ [] → ⊥) }
{
    let tens = digit(high)?;
    let ones = digit(low)?;
    if tens == 0 {
        None
    } else {
        Some(10 * tens + ones)
    }
}

// The number that one digit or two are written for.
fn small_number(digits: &[u8]) -> Option<u32>
    ensures some { IfSome result (λ number. digits.now ≡ decimal number) }
    ensures none { IfNone result ((number : ℕ) → number < 100 → digits.now ≡ decimal number → ⊥) }
{
    match digits {
        [low] => digit(*low),
        [high, low] => two_digits(*high, *low),
        _ => None,
    }
}

/// A width, and what stands behind it and a blank.
pub(crate) fn width_in(text: &[u8]) -> Option<(Width, &[u8])>
    ensures some { IfSome result (λ found. text.now ≡ decimal found.0.bits ++ 32 ∷ found.1.now) }
    ensures none { IfNone result ((width : Bits) (rest : List ℕ)
        → text.now ≡ decimal width.bits ++ 32 ∷ rest → ⊥) }
{
    let parts = parted(text)?;
    let width = Width::new(small_number(parts.digits)?)?;
    Some((width, parts.rest))
}

/// A value in binary, and what stands behind it and a blank.
pub(crate) fn value_in(text: &[u8]) -> Option<(u64, &[u8])>
    ensures some { IfSome result (λ found. (found.0 < 2 ^ 64)
        × (text.now ≡ binary found.0 ++ 32 ∷ found.1.now)) }
    ensures none { IfNone result ((value : ℕ) (rest : List ℕ)
        → value < 2 ^ 64 → text.now ≡ binary value ++ 32 ∷ rest → ⊥) }
{
    let parts = parted(text)?;
    Some((binary_in(parts.digits)?, parts.rest))
}
