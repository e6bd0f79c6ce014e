ghost use Rattle.std.specs.Prelude.{◌≡◌, ◌≢◌, ◌≤◌, ◌<◌, pos, ◌*ℤ◌, ◌<ℤ◌, length, map, All, Any};
ghost use Rattle.av_affine.specs.Numbers.{AtMost, IsGcdOf};
ghost use Rattle.av_affine.specs.Squares.{product, identity};
ghost use Rattle.av_affine.specs.Completion.{rows_of, first_row, IsCompletion};

use crate::Square;
use crate::cells::{completed, inverted};
use crate::pivot::pivot_of;
use crate::primitive::primitive_of;
use av_base::Point;

/// The unimodular completion of a vector: a matrix with a whole inverse.
#[derive(Clone, Copy, Debug, PartialEq, Eq)]
pub struct Placed {
    /// Its first row times `gcd` is the vector.
    pub m: Square,
    pub inverse: Square,
    pub gcd: i64,
}

/// The unimodular completion of the vector's primitive vector to a square matrix, with the inverse of
/// that matrix.
///
/// Beside the last entry 1 or -1 the other rows are the unit rows of the other positions, ascending.
/// Where there is none, the second row has the signs of the last entry 3 or -3 and of the last entry
/// of absolute value 2 or 4, and the unit rows of the other positions follow, ascending.
pub fn complete(vector: &Point) -> Placed
    requires not_zero { Any (λ x. x ≢ pos 0) vector.now }
    requires small { AtMost 4 vector.now }

    ensures sizes { (result.m.size ≡ length vector.now)
        × (result.inverse.size ≡ length vector.now) }
    ensures gcd { pos 0 <ℤ result.gcd }
    ensures vector { vector.now ≡ map (λ x. result.gcd *ℤ x) (first_row result.m) }
    ensures primitive { IsGcdOf (first_row result.m) 1 }
    ensures rule { IsCompletion (first_row result.m) (rows_of result.m) }

    ensures right { product result.m result.inverse ≡ identity result.m.size }
    ensures left { product result.inverse result.m ≡ identity result.m.size }
    ensures small { All (AtMost 4) result.m.cells × All (AtMost 4) result.inverse.cells }
{
    let primitive = primitive_of(vector.as_slice());
    completion_of(primitive.entries.as_slice(), primitive.gcd)
}

// A primitive vector completed.
fn completion_of(vector: &[i64], gcd: i64) -> Placed
    requires few { length vector.now ≤ 4 }
    requires primitive { IsGcdOf vector.now 1 }
    requires small { AtMost 4 vector.now }

    ensures gcd { result.gcd ≡ gcd }
    ensures sizes { (result.m.size ≡ length vector.now)
        × (result.inverse.size ≡ length vector.now) }
    ensures first { first_row result.m ≡ vector.now }
    ensures rule { IsCompletion vector.now (rows_of result.m) }

    ensures right { product result.m result.inverse ≡ identity result.m.size }
    ensures left { product result.inverse result.m ≡ identity result.m.size }
    ensures small { All (AtMost 4) result.m.cells × All (AtMost 4) result.inverse.cells }
{
    let pivot = pivot_of(vector);
    Placed {
        m: completed(vector, &pivot),
        inverse: inverted(vector, &pivot),
        gcd,
    }
}
