//! The primitive vector of a vector: its entries divided by their greatest common divisor.

ghost use Rattle.std.specs.Prelude.{◌≡◌, ◌≢◌, ◌≤◌, ◌<ℤ◌, ◌*ℤ◌, pos, length, map, Any};
ghost use Rattle.std.specs.Int.{int_div_euclid};
ghost use Rattle.av_affine.specs.Numbers.{AtMost, IsGcdOf};

use crate::divisor::gcd_of;
use arrayvec::ArrayVec;

// A vector without a common divisor but 1, and the divisor that was taken out.
#[derive(Drop)]
pub(crate) struct Primitive {
    pub(crate) entries: ArrayVec<i64, 4>,
    pub(crate) gcd: i64,
}

/// The primitive vector of a vector with small entries.
pub(crate) fn primitive_of(vector: &[i64]) -> Primitive
    requires few { length vector.now ≤ 4 }
    requires not_zero { Any (λ x. x ≢ pos 0) vector.now }
    requires small { AtMost 4 vector.now }
    ensures gcd { pos 0 <ℤ result.gcd }
    ensures vector { vector.now ≡ map (λ x. result.gcd *ℤ x) result.entries.items }
    ensures primitive { IsGcdOf result.entries.items 1 }
    ensures small { AtMost 4 result.entries.items }
{
    let gcd = gcd_of(vector) as i64;
    Primitive {
        entries: quotients(vector, gcd),
        gcd,
    }
}

// Each number divided by the divisor.
fn quotients(numbers: &[i64], divisor: i64) -> ArrayVec<i64, 4>
    requires positive { pos 0 <ℤ divisor }
    requires fits { length numbers.now ≤ 4 }
    ensures { result.items ≡ map (λ x. int_div_euclid x divisor) numbers.now }
{
    let mut quotients = ArrayVec::new();
    for number in numbers {
        quotients.push(number.div_euclid(divisor));
    }
    quotients
}
