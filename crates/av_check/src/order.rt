//! Points in lexicographic order.

ghost use Rattle.std.specs.Prelude.{◌≡◌, Some};
ghost use Rattle.av_check.specs.inner.Least.{not_after, first_of};

use av_base::Point;

// Whether the first entries do not come after the second.
fn is_in_order(some: &[i64], other: &[i64]) -> bool
    ensures { result ≡ not_after some.now other.now }
{
    for k in 0..some.len() {
        if k == other.len() {
            return false;
        }
        if some[k] != other[k] {
            return some[k] < other[k];
        }
    }
    true
}

// The one of two points that comes first.
fn lesser_point(some: Point, other: Point) -> Point
    ensures { Some result ≡ first_of (Some some) (Some other) }
{
    if is_in_order(some.as_slice(), other.as_slice()) {
        some
    } else {
        other
    }
}

/// The one of two points, where there are any, that comes first.
pub(crate) fn lesser(some: Option<Point>, other: Option<Point>) -> Option<Point>
    ensures { result ≡ first_of some other }
{
    match some {
        None => other,
        Some(point) => match other {
            None => Some(point),
            Some(next) => Some(lesser_point(point, next)),
        },
    }
}
