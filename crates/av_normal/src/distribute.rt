//! What the pieces of a tree are made of: composed maps and rows at the image.

ghost use Rattle.std.specs.Prelude.{◌≡◌, ◌++◌, ◌∷◌, All, OnOk, length, map};
ghost use Rattle.av_affine.specs.Forms.{IsWithinLimits};
ghost use Rattle.av_poly.specs.Points.{IsSmall};
ghost use Rattle.av_poly.specs.Preimages.{rows_before};
ghost use Rattle.av_flat.specs.Pieces.{composed, rows_under};
ghost use Rattle.av_flat.specs.Quantities.{of_map, steps};
ghost use Rattle.av_normal.specs.Searches.{AreNarrow};
ghost use Rattle.av_normal.specs.inner.UnderMaps.{AreChained, IsRestricting};

use crate::compose::{outwards, together};
use av_affine::{Form, Map};
use av_base::{List, Memory};
use av_poly::{Poly, append_rows};
use std::alloc::Global;

/// Appends the rows of a set, taken at the image under a map.
pub(crate) fn append_before(
    alloc: Global,
    set: &Poly,
    own: &Map,
    rows: &mut List<Form>,
) -> Result<(), Memory>
    requires fits { length own.now.rows ≡ set.now.dim }
    requires rows { All IsWithinLimits set.now.rows }
    requires map { All IsWithinLimits own.now.rows }
    ensures rows { OnOk result (rows.new ≡ rows.old ++ rows_before own.now set.now.rows) }
    ensures small { OnOk result (All IsSmall rows.old → All IsSmall rows.new) }
{
    let before = set.preimage(alloc, own)?;
    append_rows(rows, before.rows.as_slice())
}

/// Appends the rows of a restriction.
pub(crate) fn append_under(
    alloc: Global,
    under: &[Map],
    domain: &Poly,
    rows: &mut List<Form>,
) -> Result<(), Memory>
    requires { IsRestricting under.now domain.now }
    ensures rows { OnOk result (rows.new ≡ rows.old ++ rows_under under.now domain.now.rows) }
    ensures small { OnOk result (All IsSmall rows.old → All IsSmall rows.new) }
{
    match together(under) {
        Ok(Some(whole)) => append_before(alloc, domain, &whole, rows),
        Ok(None) => append_rows(rows, domain.rows.as_slice()),
        Err(_fault) => unreachable!(),
    }
}

/// The map after those that it stands under, which are known to compose within the limits.
pub(crate) fn composed_map(own: &Map, under: &[Map]) -> Map
    requires chained { AreChained (own.now ∷ under.now) }
    requires narrow { AreNarrow (map of_map (steps own.now under.now)) }
    ensures composed { result ≡ composed own.now under.now }
    ensures limits { All IsWithinLimits result.rows }
{
    match outwards(own, under) {
        Ok(whole) => whole,
        Err(_fault) => unreachable!(),
    }
}
