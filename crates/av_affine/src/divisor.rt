//! Greatest common divisors, and coefficients divided by one.

ghost use Rattle.std.specs.Prelude.{ℕ, ◌≡◌, ◌≤◌, ◌<ℤ◌, pos, map, max};
ghost use Rattle.std.specs.Int.{IsGcd, int_div_euclid};
ghost use Rattle.av_affine.specs.Numbers.{AtMost, IsGcdOf};

use crate::four;

/// The greatest common divisor of two numbers, 0 of 0 and 0 (Euclid).
pub fn gcd(a: u64, b: u64) -> u64
    ensures gcd { IsGcd a b result }
    ensures most { result ≤ max a b }
{
    let mut x = a;
    let mut y = b;
    while y != 0 {
        let rest = x % y;
        x = y;
        y = rest;
    }
    x
}

/// The greatest common divisor of the absolute values, 0 where all are 0.
pub fn gcd_of(numbers: &[i64]) -> u64
    ensures gcd { IsGcdOf numbers.now result }
    ensures most { (most : ℕ) → AtMost most numbers.now → result ≤ most }
{
    let mut divisor: u64 = 0;
    for number in numbers {
        divisor = gcd(divisor, number.unsigned_abs());
    }
    divisor
}

/// Each coefficient divided by a positive divisor, rounded down.
pub fn coefficients_over(coef: [i64; 4], divisor: i64) -> [i64; 4]
    requires { pos 0 <ℤ divisor }
    ensures { result ≡ map (λ x. int_div_euclid x divisor) coef }
{
    four!(index => coef[index].div_euclid(divisor))
}
