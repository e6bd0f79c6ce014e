//! The limits of a box: its coordinates, and its number of points.

ghost use Rattle.std.specs.Prelude.{◌≡◌, ◌≤◌, ◌*ℤ◌, ◌+ℤ◌, ◌-ℤ◌, ◌^◌, pos, IfSome, IfNone, unsigned_abs};
ghost use Rattle.av_affine.specs.Numbers.{AtMost, greatest};
ghost use Rattle.av_flat.specs.Sets.{box_size};
ghost use Rattle.av_normal.specs.BoxLimits.{IsSmallBox, IsOverLimit};

use av_base::limits::{MOST_COORDINATE, MOST_POINTS};
use av_flat::Quantity;
use av_poly::Bounds;

// The greatest absolute value.
fn most_entry(numbers: &[i128]) -> u128
    ensures { result ≡ greatest numbers.now }
{
    numbers
        .iter()
        .map(|x| x.unsigned_abs())
        .fold(0, |most, x| most.max(x))
}

// How many whole points an index has between its bounds.
fn width(low: i128, high: i128) -> i128
    requires low { unsigned_abs low ≤ 4095 }
    requires high { unsigned_abs high ≤ 4095 }
    ensures value { result ≡ high -ℤ low +ℤ pos 1 }
    ensures small { unsigned_abs result ≤ 2 ^ 13 }
{
    high - low + 1
}

// The product of small numbers.
fn area(first: i128, second: i128) -> i128
    requires first { unsigned_abs first ≤ 2 ^ 13 }
    requires second { unsigned_abs second ≤ 2 ^ 13 }
    ensures value { result ≡ first *ℤ second }
    ensures small { unsigned_abs result ≤ 2 ^ 26 }
{
    first * second
}

// The product of two such products.
fn volume(first: i128, second: i128) -> i128
    requires first { unsigned_abs first ≤ 2 ^ 26 }
    requires second { unsigned_abs second ≤ 2 ^ 26 }
    ensures value { result ≡ first *ℤ second }
    ensures small { unsigned_abs result ≤ 2 ^ 52 }
{
    first * second
}

// How many whole points a box has.
fn points_of(extent: &Bounds) -> i128
    requires low { AtMost 4095 extent.now.low }
    requires high { AtMost 4095 extent.now.high }
    ensures { result ≡ box_size extent.now.low extent.now.high }
{
    let low = extent.low;
    let high = extent.high;
    let first = width(low[0], high[0]);
    let second = width(low[1], high[1]);
    let third = width(low[2], high[2]);
    let fourth = width(low[3], high[3]);
    volume(area(first, second), area(third, fourth))
}

/// The first quantity of a box that is above its limit, and that quantity: the greatest absolute coordinate, of at
/// most 4,095, before the number of points, of at most 65,536.
pub fn quantity_over(extent: &Bounds) -> Option<(Quantity, u128)>
    ensures within { IfNone result (IsSmallBox extent.now) }
    ensures over { IfSome result (λ found. IsOverLimit extent.now found.0 found.1) }
{
    let coordinate = most_entry(&extent.low).max(most_entry(&extent.high));
    if coordinate > MOST_COORDINATE {
        return Some((Quantity::Coordinate, coordinate));
    }
    let points = points_of(extent);
    if points > MOST_POINTS {
        return Some((Quantity::BoxSize, points as u128));
    }
    None
}
