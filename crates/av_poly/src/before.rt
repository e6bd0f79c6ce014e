//! Rows of a map's image as rows of the map's own indices.

ghost use Rattle.std.specs.Prelude.{◌≡◌, All, IfOk};
ghost use Rattle.av_affine.specs.Forms.{IsWithinLimits};
ghost use Rattle.av_affine.specs.Maps.{through};
ghost use Rattle.av_poly.specs.Points.{IsSmall};
ghost use Rattle.av_poly.specs.Preimages.{rows_before};

use av_affine::{Form, Map};
use av_base::{List, Memory};
use std::alloc::Global;

// A row of the map's image, as a row of the map's own indices.
fn row_before(row: &Form, map: &Map) -> Form
    requires row { IsWithinLimits row.now }
    requires map { All IsWithinLimits map.now.rows }
    ensures value { result ≡ through map.now.from map.now.rows row.now }
    ensures small { IsSmall result }
{
    row.after(map)
}

/// Each row of the map's image, as a row of the map's own indices.
pub(crate) fn each_before(alloc: Global, rows: &[Form], map: &Map) -> Result<List<Form>, Memory>
    requires rows { All IsWithinLimits rows.now }
    requires map { All IsWithinLimits map.now.rows }
    ensures value { IfOk result (λ before. before ≡ rows_before map.now rows.now) }
    ensures small { IfOk result (λ before. All IsSmall before) }
{
    let mut before = List::new(alloc);
    for row in rows {
        before.push(row_before(row, map))?;
    }
    Ok(before)
}
