//! The lexicographic minimum of rows between bounds, index by index.

ghost use Rattle.std.specs.Prelude.{ℤ, List, ◌≡◌, ◌≤◌, ◌+◌, length, All, IfSome, IfNone};
ghost use Rattle.av_affine.specs.Numbers.{AtMost};
ghost use Rattle.av_poly.specs.Points.{IsSmall};
ghost use Rattle.av_poly.specs.Search.{CanFollow};
ghost use Rattle.av_poly.specs.inner.Search.{IsFirstFrom};

use crate::entries::extended;
use crate::interval::interval_of;
use crate::row::each_holds;
use av_affine::Form;
use av_base::Point;

/// The least point that begins with the fixed entries, where bounds are given for the others.
pub(crate) fn first_from(rows: &[Form], fixed: &[i64], low: &[i64], high: &[i64]) -> Option<Point>
    requires rows { All IsSmall rows.now }
    requires fixed { AtMost 4095 fixed.now }
    requires low { AtMost 4095 low.now }
    requires high { AtMost 4095 high.now }
    requires same { length high.now ≡ length low.now }
    requires fits { length fixed.now + length low.now ≤ 4 }
    ensures some { IfSome result (IsFirstFrom rows.now fixed.now low.now high.now) }
    ensures none { IfNone result ((rest : List ℤ)
        → CanFollow rows.now fixed.now low.now high.now rest → ⊥) }
{
    if low.is_empty() {
        return if each_holds(rows, fixed) {
            Some(Point::from_slice(fixed))
        } else {
            None
        };
    }
    let span = interval_of(rows, fixed, low, high);
    for value in span.low..span.high + 1 {
        let next = extended(fixed, value as i64);
        let found = first_from(rows, next.as_slice(), &low[1..], &high[1..]);
        if found.is_some() {
            return found;
        }
    }
    None
}
