//! Points at which trees stand under maps, of which the innermost comes first.

ghost use Rattle.std.specs.Prelude.{◌≡◌, ◌^◌, length, All};
ghost use Rattle.av_affine.specs.Numbers.{AtMost};
ghost use Rattle.av_affine.specs.Forms.{IsWithinLimits};
ghost use Rattle.av_affine.specs.Maps.{image, composition};
ghost use Rattle.av_check.specs.inner.Reachable.{reach, IsImage, IsReached};

use av_affine::Map;
use av_base::Point;
use av_flat::copy_map;

// First the outer map, then the other, where that is within the limits.
fn composed(own: &Map, outer: &Map) -> Map
    requires fits { own.now.from ≡ length outer.now.rows }
    requires own { All IsWithinLimits own.now.rows }
    requires outer { All IsWithinLimits outer.now.rows }
    requires limits { All IsWithinLimits (composition own.now outer.now).rows }
    ensures { result ≡ composition own.now outer.now }
{
    match own.compose(outer) {
        Ok(map) => map,
        Err(_) => unreachable!(),
    }
}

/// The image under a map that stands under others. Composed maps are within their limits, where images of images
/// need not be.
pub(crate) fn image_under(own: &Map, under: &[Map], z: &Point) -> Point
    requires stands { IsImage own.now under.now z.now }
    requires small { AtMost 4095 z.now }
    ensures image { result ≡ image own.now.rows (reach under.now z.now) }
    ensures small { AtMost (2 ^ 25) result }
{
    let mut whole = copy_map(own);
    for outer in under {
        whole = composed(&whole, outer);
    }
    whole.apply(z)
}

/// The point at which a tree stands under maps.
pub(crate) fn point_under(under: &[Map], z: &Point) -> Point
    requires stands { IsReached under.now z.now }
    requires small { AtMost 4095 z.now }
    ensures point { result ≡ reach under.now z.now }
    ensures small { AtMost (2 ^ 25) result }
{
    if under.is_empty() {
        Point::from_slice(z.as_slice())
    } else {
        image_under(&under[0], &under[1..], z)
    }
}
