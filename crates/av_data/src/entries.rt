//! The entries of a point, as they are read.

ghost use Rattle.std.specs.Prelude.{ℤ, List as Items, ◌≡◌, ◌≤◌, ◌++◌, ◌∷◌, [], false, IsTrue, IfSome, IfNone};
ghost use Rattle.av_flat.specs.Points.{has};
ghost use Rattle.av_affine.specs.Numbers.{AtMost};
ghost use Rattle.av_poly.specs.Points.{Has};
ghost use Rattle.av_data.specs.inner.Bindings.{Keeps, signed_value};

use crate::whole::Whole;
use arrayvec::ArrayVec;
use av_base::Point;
use av_base::limits::MOST_INDICES;
use av_poly::Poly;

/// The entries of a point. Where there are more than four or one is above 4,095 in absolute value, the point is far:
/// it lies in no domain, and its entries are not kept.
#[derive(Drop)]
pub(crate) struct Entries {
    kept: ArrayVec<i64, 4>,
    far: bool,
}

impl Entries {
    /// No entry.
    pub(crate) fn new() -> Entries
        ensures { Keeps result.kept.items result.far [] }
    {
        Entries {
            kept: ArrayVec::new(),
            far: false,
        }
    }

    /// One entry more.
    pub(crate) fn add(&mut self, entry: &Whole<'_>)
        ensures { (z : Items ℤ) → Keeps self.old.kept.items self.old.far z
            → Keeps self.new.kept.items self.new.far (z
            ++ signed_value entry.now.negative entry.now.digits.now ∷ []) }
    {
        match entry.coordinate() {
            Some(number) if self.kept.len() < MOST_INDICES => self.kept.push(number),
            Some(_) => self.far = true,
            None => self.far = true,
        }
    }

    /// The point, if the domain has it.
    pub(crate) fn point_of(&self, domain: &Poly) -> Option<Point>
        requires few { domain.now.dim ≤ 4 }
        requires small { (z : Items ℤ) → Has domain.now z → AtMost 4095 z }
        requires kept { (z : Items ℤ) × Keeps self.now.kept.items self.now.far z }
        ensures some { IfSome result (λ z. (y : Items ℤ)
            → Keeps self.now.kept.items self.now.far y → (y ≡ z) × IsTrue (has domain.now z)) }
        ensures none { IfNone result ((y : Items ℤ)
            → Keeps self.now.kept.items self.now.far y → has domain.now y ≡ false) }
    {
        if self.far || self.kept.len() != domain.dim as usize {
            return None;
        }
        let point = Point::from_slice(self.kept.as_slice());
        if domain.contains(&point) {
            Some(point)
        } else {
            None
        }
    }
}
