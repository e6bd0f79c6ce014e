//! The inner product of two lists of numbers, exactly.

ghost use Rattle.std.specs.Prelude.{◌≡◌, ◌≤◌, ◌^◌, ◌*ℤ◌, length, unsigned_abs};
ghost use Rattle.av_affine.specs.Numbers.{dot, AtMost};

// The product of an entry of 64 bits and a number.
fn product(a: i64, b: i64) -> i128
    requires { unsigned_abs b ≤ 2 ^ 40 }
    ensures value { result ≡ a *ℤ b }
    ensures small { unsigned_abs result ≤ 2 ^ 103 }
{
    i128::from(a) * i128::from(b)
}

/// The sum of the products of the entries, as far as both lists go.
pub fn dot(row: &[i64], numbers: &[i64]) -> i128
    requires fits { length numbers.now ≤ 4 }
    requires small { AtMost (2 ^ 40) numbers.now }
    ensures value { result ≡ dot row.now numbers.now }
    ensures small { unsigned_abs result ≤ 2 ^ 105 }
{
    let mut sum: i128 = 0;
    let count = row.len().min(numbers.len());
    for k in 0..count {
        let term = product(row[k], numbers[k]);
        sum += term;
    }
    sum
}
