ghost use Rattle.std.specs.Prelude.{◌≡◌, ◌^◌, ◌≤◌, IfSome, IfNone};
ghost use Rattle.av_base.specs.Tokens.{number_of};

/// The decimal value of digits, of any number of them, or `None` where it is above
/// 18446744073709551615. No digits have the value 0. The bytes should be digits: nothing else is tested.
pub fn decimal_value(digits: &[u8]) -> Option<u64>
    ensures some { IfSome result (λ value. value ≡ number_of digits.now) }
    ensures none { IfNone result (2 ^ 64 ≤ number_of digits.now) }
{
    let mut value = 0u64;
    for digit in digits {
        let tens = value.checked_mul(10)?;
        value = tens.checked_add(u64::from(digit.saturating_sub(b'0')))?;
    }
    Some(value)
}
