ghost use Rattle.std.specs.Prelude.{◌≡◌, ◌≤◌, ◌^◌, ◌+ℤ◌, ◌<◌, length, unsigned_abs, All};
ghost use Rattle.av_affine.specs.Numbers.{dot, AtMost};

use crate::Map;
use crate::compose::inward;
use crate::inner_product::dot;
use av_base::Point;

/// An affine form of at most four indices: whole coefficients and a constant.
///
/// At a point of n entries the first n coefficients count, and the others are ignored.
#[derive(Clone, Copy, Debug, Default, PartialEq, Eq)]
pub struct Form {
    pub coef: [i64; 4],
    pub constant: i64,
}

impl Form {
    ghost use Rattle.av_affine.specs.Forms.{value_at, IsWithinLimits};
    ghost use Rattle.av_affine.specs.Maps.{through};

    /// The value at a point: each entry times its coefficient, and the constant.
    pub fn at(&self, z: &Point) -> i64
        requires form { IsWithinLimits self.now }
        requires point { AtMost 4095 z.now }
        ensures value { result ≡ value_at self.now z.now }
        ensures small { unsigned_abs result ≤ 2 ^ 25 }
    {
        products(self.coef, z.as_slice()) + self.constant
    }

    /// The form of a map's image, as a form of the map's own indices: at a point it has the value that this form has
    /// at the point's image.
    pub fn after(&self, map: &Map) -> Form
        requires form { IsWithinLimits self.now }
        requires map { All IsWithinLimits map.now.rows }
        ensures value { result ≡ through map.now.from map.now.rows self.now }
        ensures coefficients { AtMost (2 ^ 32) result.coef }
        ensures constant { unsigned_abs result.constant ≤ 2 ^ 33 }
    {
        inward(self, map)
    }
}

/// The sum of the products of coefficients and numbers.
pub(crate) fn products(coef: [i64; 4], numbers: &[i64]) -> i64
    requires coef { AtMost 1024 coef }
    requires numbers { AtMost (2 ^ 20) numbers.now }
    requires fits { length numbers.now ≤ 4 }
    ensures value { result ≡ dot coef numbers.now }
    ensures small { unsigned_abs result ≤ 2 ^ 32 }
{
    dot(&coef, numbers) as i64
}
