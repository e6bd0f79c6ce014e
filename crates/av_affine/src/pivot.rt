//! The positions whose unit rows a completion leaves out.

ghost use Rattle.std.specs.Prelude.{◌≡◌, ◌≢◌, ◌≤◌, ◌<◌, ◌+◌, [], ◌∷◌, length, IfSome, IfNone};
ghost use Rattle.av_affine.specs.Numbers.{AtMost, IsGcdOf};
ghost use Rattle.av_affine.specs.Completion.{IsLastOf, HasNone};
ghost use Rattle.av_affine.specs.Cells.{IsPivot, skip};

// The positions whose unit rows the completion of a vector leaves out.
#[derive(Drop)]
pub(crate) enum Pivot {
    // The last entry 1 or -1.
    One(usize),
    // The last entry 3 or -3, and the last entry of absolute value 2 or 4, identified by its place among
    // the positions other than the first.
    Two(usize, usize),
}

/// The number at a place among all but one.
pub(crate) fn nth_other(left: usize, place: usize) -> usize
    requires { place < 4 }
    ensures value { result ≡ skip left place }
    ensures most { result ≤ place + 1 }
{
    if place < left { place } else { place + 1 }
}

// The place of a number among all but one.
fn place_among_others(left: usize, number: usize) -> usize
    requires { left ≢ number }
    ensures { skip left result ≡ number }
{
    if number < left { number } else { number - 1 }
}

// The last position of an entry whose absolute value is one of the sizes.
fn last_of(numbers: &[i64], sizes: &[u64]) -> Option<usize>
    ensures some { IfSome result (IsLastOf sizes.now numbers.now) }
    ensures none { IfNone result (HasNone sizes.now numbers.now) }
{
    for k in (0..numbers.len()).rev() {
        if sizes.contains(&numbers[k].unsigned_abs()) {
            return Some(k);
        }
    }
    None
}

/// The pivot of a primitive vector with small entries. Without an entry 1 or -1 it has one that is
/// odd and one that no 3 divides.
pub(crate) fn pivot_of(vector: &[i64]) -> Pivot
    requires primitive { IsGcdOf vector.now 1 }
    requires small { AtMost 4 vector.now }
    ensures { IsPivot vector.now result }
{
    if let Some(one) = last_of(vector, &[1]) {
        return Pivot::One(one);
    }
    let Some(p) = last_of(vector, &[3]) else {
        unreachable!();
    };
    let Some(q) = last_of(vector, &[2, 4]) else {
        unreachable!();
    };
    Pivot::Two(p, place_among_others(p, q))
}
