//! Entries of points: the first of some numbers, and one entry more.

ghost use Rattle.std.specs.Prelude.{◌≡◌, ◌≤◌, ◌<◌, ◌∷◌, [], ◌++◌, length, take};
ghost use Rattle.av_affine.specs.Numbers.{AtMost};

use arrayvec::ArrayVec;
use av_base::Point;

/// The first numbers, as many as there are indices.
pub fn first_entries(numbers: [i128; 4], dim: u8) -> ArrayVec<i64, 4>
    requires numbers { AtMost 4095 numbers }
    requires dim { dim ≤ 4 }
    ensures { result.items ≡ take dim numbers }
{
    let mut entries: ArrayVec<i64, 4> = ArrayVec::new();
    for k in 0..dim as usize {
        entries.push(numbers[k] as i64);
    }
    entries
}

/// Entries with one more.
pub fn extended(fixed: &[i64], entry: i64) -> ArrayVec<i64, 4>
    requires { length fixed.now < 4 }
    ensures { result.items ≡ fixed.now ++ entry ∷ [] }
{
    let mut entries: ArrayVec<i64, 4> = ArrayVec::new();
    for number in fixed {
        entries.push(*number);
    }
    entries.push(entry);
    entries
}

/// The point with one more entry before its own.
pub fn with_first(first: i64, rest: &Point) -> Point
    requires { length rest.now < 4 }
    ensures { result ≡ first ∷ rest.now }
{
    let mut entries: ArrayVec<i64, 4> = ArrayVec::new();
    entries.push(first);
    for other in rest.as_slice() {
        entries.push(*other);
    }
    Point::from_slice(entries.as_slice())
}
