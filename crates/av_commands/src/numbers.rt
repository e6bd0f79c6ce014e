//! Decimal numbers in words.

ghost use Rattle.std.specs.Prelude.{◌≡◌, ◌≤◌, ◌↔◌, ℕ, IsTrue, IfSome, IfNone, All};
ghost use Rattle.std.specs.Char.{is_ascii_digit};
ghost use Rattle.av_base.specs.Tokens.{IsDigits, number_of};
ghost use Rattle.av_commands.specs.SizeWords.{SpellsUpTo};

use av_base::decimal_value;

/// The number that the digits spell, where it is not above the greatest.
pub(crate) fn number_at_most(greatest: u32, digits: &[u8]) -> Option<u32>
    ensures spelled { IfSome result (λ n. IsDigits digits.now
        × (n ≡ number_of digits.now) × (n ≤ greatest)) }
    ensures not_spelled { IfNone result (IsDigits digits.now
        → number_of digits.now ≤ greatest → ⊥) }
{
    if !are_digits(digits) {
        return None;
    }
    let number = u32::try_from(decimal_value(digits)?).ok()?;
    if number <= greatest {
        Some(number)
    } else {
        None
    }
}

/// The number from 1 to the greatest that the digits spell.
pub fn number_up_to(greatest: u32, digits: &[u8]) -> Option<u32>
    ensures spelled { IfSome result (λ n. SpellsUpTo greatest digits.now n) }
    ensures not_spelled { IfNone result ((n : ℕ) → SpellsUpTo greatest digits.now n → ⊥) }
{
    let number = number_at_most(greatest, digits)?;
    if number == 0 { None } else { Some(number) }
}

fn are_digits(bytes: &[u8]) -> bool
    ensures { IsTrue result ↔ IsDigits bytes.now }
{
    !bytes.is_empty() && all_digits(bytes)
}

fn all_digits(bytes: &[u8]) -> bool
    ensures { IsTrue result ↔ All (λ byte. IsTrue (is_ascii_digit byte)) bytes.now }
{
    bytes.iter().all(|byte| byte.is_ascii_digit())
}
