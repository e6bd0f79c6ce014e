//! The least points of sets.

ghost use Rattle.std.specs.Prelude.{◌≤◌};
ghost use Rattle.av_affine.specs.Numbers.{AtMost};
ghost use Rattle.av_poly.specs.Points.{Has};
ghost use Rattle.av_check.specs.inner.Least.{IsLeast};
ghost use Rattle.av_elim.specs.Extents.{IsInside};

use av_base::Point;
use av_normal::are_contrary;
use av_poly::{Bounds, Poly};

/// The least point of a set that has none outside the box.
pub(crate) fn least_point(set: &Poly, extent: &Bounds) -> Option<Point>
    requires dim { set.now.dim ≤ 4 }
    requires low { AtMost 4095 extent.now.low }
    requires high { AtMost 4095 extent.now.high }
    requires inside { IsInside set.now.dim extent.now set.now }
    ensures { IsLeast (Has set.now) result }
{
    if are_contrary(set.rows.as_slice()) {
        return None;
    }
    set.first_point(extent)
}
