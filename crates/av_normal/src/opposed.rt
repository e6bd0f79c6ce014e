//! Rows that cannot hold at once, which most sets without a point have.

ghost use Rattle.std.specs.Prelude.{ℤ, List as Items, ◌≡◌, ◌^◌, ◌-ℤ◌, pos, map, All, Any, IsTrue};
ghost use Rattle.av_affine.specs.Numbers.{AtMost};
ghost use Rattle.av_poly.specs.Points.{IsSmall, Holds, HoldsAt};
ghost use Rattle.av_normal.specs.Contrary.{AreOpposed};

use av_affine::Form;

// The coefficients with their signs turned.
fn turned(coef: [i64; 4]) -> [i64; 4]
    requires { AtMost (2 ^ 40) coef }
    ensures { result ≡ map (λ x. pos 0 -ℤ x) coef }
{
    [-coef[0], -coef[1], -coef[2], -coef[3]]
}

// Whether two rows have opposite coefficients and no number fits between them.
fn are_opposed(some: &Form, other: &Form) -> bool
    requires some { IsSmall some.now }
    requires other { IsSmall other.now }
    ensures none { IsTrue result → (z : Items ℤ) → HoldsAt some.now z → HoldsAt other.now z → ⊥ }
    ensures complete { AreOpposed some.now other.now → IsTrue result }
{
    let coef = other.coef;
    if turned(some.coef) == coef {
        some.constant + other.constant < 0
    } else {
        false
    }
}

// Whether a row cannot hold with one of the others.
fn opposes_any(row: &Form, others: &[Form]) -> bool
    requires row { IsSmall row.now }
    requires others { All IsSmall others.now }
    ensures none { IsTrue result → (z : Items ℤ) → HoldsAt row.now z → Holds others.now z → ⊥ }
    ensures complete { Any (AreOpposed row.now) others.now → IsTrue result }
{
    for other in others {
        if are_opposed(row, other) {
            return true;
        }
    }
    false
}

/// Whether two of the rows have opposite coefficients and leave no number between them, so that no point has both. Most sets
/// without a point have two such rows; that the answer is no says nothing of a set.
pub fn are_contrary(rows: &[Form]) -> bool
    requires { All IsSmall rows.now }
    ensures none { IsTrue result → (z : Items ℤ) → Holds rows.now z → ⊥ }
    ensures complete { Any (λ row. Any (AreOpposed row) rows.now) rows.now → IsTrue result }
{
    for row in rows {
        if opposes_any(row, rows) {
            return true;
        }
    }
    false
}
