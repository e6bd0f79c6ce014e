//! The short codes of ports: numbers to the base 94, the lowest digit first, in the printable bytes from `!` to `~`.

ghost use Rattle.std.specs.Prelude.{◌≡◌, ◌<◌, ◌≤◌, ◌+◌, ◌^◌, ◌%◌, ℕ, length, take, IfSome, IfNone};
ghost use Rattle.av_wave.specs.Dumps.{code};
ghost use Rattle.av_wave.specs.inner.Codes.{code_value};

use std::marker::Model;

const BASE: u32 = 94;

const FIRST: u8 = b'!';

// A number of 32 bits has at most five digits.
const SIZE: usize = 5;

/// The code of a port, which contracts see as its bytes.
#[derive(Drop)]
pub(crate) struct Code {
    digits: [u8; SIZE],
    used: usize,
}

impl Model for Code {
    ghost use Rattle.std.specs.Prelude.{ℕ, List as Items, ◌≤◌, take};

    ghost Value = { Items ℕ };

    ghost view = { λ c. take c.used c.digits };

    ghost invariant = { λ c. c.used ≤ 5 };
}

impl Code {
    /// The code of the port with this number.
    pub(crate) fn new(port: u32) -> Code
        ensures { result ≡ code port }
    {
        let mut digits = [FIRST; SIZE];
        digits[0] = digit(port);
        let mut used = 1;
        let mut left = port / BASE;
        while left > 0 {
            digits[used] = digit(left);
            used += 1;
            left /= BASE;
        }
        Code { digits, used }
    }

    /// Its bytes.
    pub(crate) fn as_bytes(&self) -> &[u8]
        ensures { result.now ≡ self.now }
    {
        &self.digits[..self.used]
    }
}

// The lowest digit of a number.
fn digit(number: u32) -> u8
    ensures { result ≡ 33 + number % 94 }
{
    FIRST + (number % BASE) as u8
}

// The number that the bytes stand for as digits, where it has 32 bits.
fn value_of(code: &[u8]) -> Option<u32>
    ensures some { IfSome result (λ value. value ≡ code_value code.now) }
    ensures none { IfNone result (2 ^ 32 ≤ code_value code.now) }
{
    let mut value = 0u32;
    let mut at = code.len();
    while at > 0 {
        at -= 1;
        let low = u32::from(code[at].saturating_sub(FIRST));
        value = value.checked_mul(BASE)?.checked_add(low)?;
    }
    Some(value)
}

/// The number of the port with this code, below a limit.
pub(crate) fn port_of(text: &[u8], limit: u32) -> Option<u32>
    ensures some { IfSome result (λ port. (port < limit) × (text.now ≡ code port)) }
    ensures none { IfNone result ((port : ℕ) → port < limit → text.now ≡ code port → ⊥) }
{
    let port = value_of(text)?;
    if port < limit && text == Code::new(port).as_bytes() {
        Some(port)
    } else {
        None
    }
}
