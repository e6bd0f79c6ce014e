ghost use Rattle.std.specs.Prelude.{ℕ, ℤ, List, ◌≡◌, ◌≤◌, ◌<◌, ◌^◌, ◌↔◌, pos, length, map, max, fold, All, Err, IfOk, unsigned_abs, slice_index_or, nat_lt, if◌then◌else◌};
ghost use Rattle.av_affine.specs.Numbers.{dot, AtMost, greatest};
ghost use Rattle.av_affine.specs.Forms.{IsWithinLimits};

use crate::Rows;
use crate::compose::{composed, most_coefficient, most_constant};
use arrayvec::ArrayVec;
use av_base::Point;
use av_base::limits::{MOST_COEFFICIENT, MOST_CONSTANT};

/// An affine map: how many indices it has, and the forms that give the image.
///
/// Of each form the first `from` coefficients count, and the others are ignored.
#[derive(Clone, Debug, PartialEq, Eq, Drop)]
pub struct Map {
    pub from: u8,
    pub rows: Rows,
}

/// Why a composition is refused.
#[derive(Clone, Copy, Debug, PartialEq, Eq)]
pub enum Over {
    /// The greatest absolute value of its coefficients, which is above 1,024.
    Coefficient(u128),
    /// The greatest absolute value of its constants, which is above 1,048,576.
    Constant(u128),
}

impl Map {
    ghost use Rattle.av_affine.specs.Maps.{image, composition, greatest_coefficient, greatest_constant};

    /// The image of a point.
    pub fn apply(&self, z: &Point) -> Point
        requires fits { length z.now ≡ self.now.from }
        requires map { All IsWithinLimits self.now.rows }
        requires point { AtMost 4095 z.now }
        ensures image { result ≡ image self.now.rows z.now }
        ensures small { AtMost (2 ^ 25) result }
    {
        let mut values: ArrayVec<i64, 4> = ArrayVec::new();
        for form in self.rows.as_slice() {
            values.push(form.at(z));
        }
        Point::from_slice(values.as_slice())
    }

    /// The map that does first `inner` and then this one. Its forms have 0 past their indices.
    ///
    /// It is refused where its greatest coefficient is above the limit, and else where its greatest
    /// constant is; both are known whole, without overflow.
    pub fn compose(&self, inner: &Map) -> Result<Map, Over>
        requires fits { self.now.from ≡ length inner.now.rows }
        requires outer { All IsWithinLimits self.now.rows }
        requires inner { All IsWithinLimits inner.now.rows }

        ensures composed { IfOk result (λ m. m ≡ composition self.now inner.now) }
        // At every point, which has at most four entries, it gives what this map gives of the image
        // under the inner map.
        ensures points { IfOk result (λ m. (z : List ℤ) → length z ≡ m.from → length z ≤ 4 →
            image m.rows z ≡ image self.now.rows (image inner.now.rows z)) }
        ensures limits { IfOk result (λ m. All IsWithinLimits m.rows) }

        ensures coefficient { (n : ℕ) → (result ≡ Err (Over.Coefficient n)) ↔
            ((n ≡ greatest_coefficient (composition self.now inner.now).rows) × (1024 < n)) }
        ensures constant { (n : ℕ) → (result ≡ Err (Over.Constant n)) ↔
            ((greatest_coefficient (composition self.now inner.now).rows ≤ 1024)
            × (n ≡ greatest_constant (composition self.now inner.now).rows)
            × (2 ^ 20 < n)) }
    {
        let composed = composed(self, inner);
        let coefficient = most_coefficient(composed.rows.as_slice());
        if coefficient > MOST_COEFFICIENT {
            return Err(Over::Coefficient(coefficient as u128));
        }
        let constant = most_constant(composed.rows.as_slice());
        if constant > MOST_CONSTANT {
            return Err(Over::Constant(constant as u128));
        }
        Ok(composed)
    }
}
