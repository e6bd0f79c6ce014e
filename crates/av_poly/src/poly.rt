ghost use Rattle.std.specs.Prelude.{ℤ, List as Items, ◌≡◌, ◌≤◌, ◌<◌, ◌^◌, ◌↔◌, ◌++◌, length, unsigned_abs, All, Any, AllPairs, IsTrue, IfOk, IfSome, IfNone};
ghost use Rattle.av_affine.specs.Numbers.{AtMost};
ghost use Rattle.av_affine.specs.Forms.{IsWithinLimits};
ghost use Rattle.av_affine.specs.Maps.{image};
ghost use Rattle.av_poly.specs.Points.{Has};
ghost use Rattle.av_poly.specs.Normal.{AreNormalised, IsNormal};
ghost use Rattle.av_affine.specs.declared.form.Form.{Form as Row};
ghost use Rattle.av_poly.specs.Preimages.{rows_before};
ghost use Rattle.av_poly.specs.Parts.{AreDisjoint};
ghost use Rattle.av_poly.specs.Search.{IsBetween, IsNotAfter};

use crate::before::each_before;
use crate::entries::first_entries;
use crate::normal::normalise_rows;
use crate::parts::parts;
use crate::row::{append_rows, each_holds};
use crate::search::first_from;
use crate::trivial::append_nontrivial;
use av_affine::{Form, Map};
use av_base::{List, Memory, Point};
use std::alloc::Global;
use std::marker::Model;

/// A set of whole points: those of its dimension at which each row is at least 0. Of a row the first
/// `dim` coefficients count, and the others are ignored.
///
/// Its rule is that coefficients and constants are at most 2^40 in absolute value.
#[derive(Debug, Drop)]
pub struct Poly {
    pub dim: u8,
    pub rows: List<Form>,
}

/// Bounds of each index, with 0 at the places past the set's dimension.
#[derive(Clone, Copy, Debug, PartialEq, Eq)]
pub struct Bounds {
    pub low: [i128; 4],
    pub high: [i128; 4],
}

impl Model for Poly {
    ghost use Rattle.std.specs.Prelude.{All};
    ghost use Rattle.av_poly.specs.Points.{Set, IsSmall};

    ghost Value = { Set };

    ghost view = { λ p. record { dim = p.dim; rows = p.rows } };

    ghost invariant = { λ p. All IsSmall p.rows };
}

impl Poly {
    /// Whether a point is in the set.
    pub fn contains(&self, z: &Point) -> bool
        requires fits { length z.now ≡ self.now.dim }
        requires small { AtMost (2 ^ 25) z.now }
        ensures { IsTrue result ↔ Has self.now z.now }
    {
        each_holds(self.rows.as_slice(), z.as_slice())
    }

    /// The intersection of both sets: the rows of this one, and then those of the other.
    pub fn meet(&self, alloc: Global, other: &Poly) -> Result<Poly, Memory>
        requires { self.now.dim ≡ other.now.dim }
        ensures points { IfOk result (λ both. (z : Items ℤ)
            → Has both z ↔ (Has self.now z × Has other.now z)) }
        ensures dim { IfOk result (λ both. both.dim ≡ self.now.dim) }
        ensures rows { IfOk result (λ both. both.rows ≡ self.now.rows ++ other.now.rows) }
    {
        let mut rows = List::new(alloc);
        append_rows(&mut rows, self.rows.as_slice())?;
        append_rows(&mut rows, other.rows.as_slice())?;
        Ok(Poly {
            dim: self.dim,
            rows,
        })
    }

    /// The intersection of both sets, by the rows of this one and then those of the other, of which those may be left out
    /// that have no coefficient and hold everywhere.
    pub fn meet_nontrivial(&self, alloc: Global, other: &Poly) -> Result<Poly, Memory>
        ensures dim { IfOk result (λ both. both.dim ≡ self.now.dim) }
        ensures rows { IfOk result (λ both. (more new : Items Row)
            → AreNormalised self.now.dim ((self.now.rows ++ other.now.rows) ++ more) new
            ↔ AreNormalised self.now.dim (both.rows ++ more) new) }
        ensures limits { IfOk result (λ both. All IsWithinLimits (self.now.rows ++ other.now.rows)
            → All IsWithinLimits both.rows) }
    {
        let mut rows = List::new(alloc);
        append_nontrivial(&mut rows, self.dim, self.rows.as_slice())?;
        append_nontrivial(&mut rows, self.dim, other.rows.as_slice())?;
        Ok(Poly {
            dim: self.dim,
            rows,
        })
    }

    /// The points whose image under the map is in the set: each row after the map, in order.
    pub fn preimage(&self, alloc: Global, map: &Map) -> Result<Poly, Memory>
        requires fits { length map.now.rows ≡ self.now.dim }
        requires rows { All IsWithinLimits self.now.rows }
        requires map { All IsWithinLimits map.now.rows }
        ensures points { IfOk result (λ before. (z : Items ℤ) → length z ≤ 4 →
            Has before z ↔ ((length z ≡ map.now.from) × Has self.now (image map.now.rows z))) }
        ensures dim { IfOk result (λ before. before.dim ≡ map.now.from) }
        ensures rows { IfOk result (λ before. before.rows ≡ rows_before map.now self.now.rows) }
    {
        let rows = each_before(alloc, self.rows.as_slice(), map)?;
        Ok(Poly {
            dim: map.from,
            rows,
        })
    }

    /// Normalises the rows, which keeps the points. The order of the rows is not told.
    pub fn normalise(&mut self)
        ensures points { (z : Items ℤ) → Has self.new z ↔ Has self.old z }
        ensures dim { self.new.dim ≡ self.old.dim }
        ensures rows { AreNormalised self.old.dim self.old.rows self.new.rows }
        ensures normal { IsNormal self.new }
    {
        normalise_rows(self.dim, &mut self.rows);
    }

    /// The set difference of `within` and this set, in disjoint parts, at most one for each row of this
    /// one.
    pub fn split_outside(&self, alloc: Global, within: &Poly) -> Result<List<Poly>, Memory>
        requires fits { self.now.dim ≡ within.now.dim }
        requires constants { All (λ row. unsigned_abs row.constant < 2 ^ 40) self.now.rows }
        ensures points { IfOk result (λ parts. (z : Items ℤ) →
            Any (λ part. Has part z) parts ↔ (Has within.now z × (Has self.now z → ⊥))) }
        ensures disjoint { IfOk result (AllPairs AreDisjoint) }
        ensures dims { IfOk result (All (λ part. part.dim ≡ self.now.dim)) }
        ensures few { IfOk result (λ parts. length parts ≤ length self.now.rows) }
    {
        parts(
            alloc,
            self.dim,
            within.rows.as_slice(),
            self.rows.as_slice(),
        )
    }

    /// The lexicographic minimum of the points between the bounds.
    pub fn first_point(&self, bounds: &Bounds) -> Option<Point>
        requires dim { self.now.dim ≤ 4 }
        requires low { AtMost 4095 bounds.now.low }
        requires high { AtMost 4095 bounds.now.high }
        ensures found { IfSome result (λ z. Has self.now z
            × IsBetween bounds.now.low bounds.now.high z) }
        ensures least { IfSome result (λ z. (other : Items ℤ) → Has self.now other →
            IsBetween bounds.now.low bounds.now.high other → IsNotAfter z other) }
        ensures none { IfNone result ((z : Items ℤ) → Has self.now z →
            IsBetween bounds.now.low bounds.now.high z → ⊥) }
    {
        let low = first_entries(bounds.low, self.dim);
        let high = first_entries(bounds.high, self.dim);
        first_from(self.rows.as_slice(), &[], low.as_slice(), high.as_slice())
    }
}
