//! The reads of a chain's points.

ghost use Rattle.std.specs.Prelude.{List as Items, ◌≡◌, ◌≤◌, ◌<◌, ◌^◌, ◌++◌, ◌∷◌, All, IfOk, length, unsigned_abs};
ghost use Rattle.av_affine.specs.declared.form.Form.{Form};
ghost use Rattle.av_affine.specs.declared.map.Map.{Map};
ghost use Rattle.av_affine.specs.Forms.{IsWithinLimits};
ghost use Rattle.av_poly.specs.Points.{IsSmall};
ghost use Rattle.av_poly.specs.Preimages.{rows_before};
ghost use Rattle.av_flat.specs.WellFormed.{IsProjection};
ghost use Rattle.av_serial.specs.Lines.{choice_before, choice_of, choices_of};
ghost use Rattle.av_serial.specs.inner.Lowered.{lower, lowered};

use crate::line::{bound, is_upper, map_before, map_over};
use av_affine::{Form, Map};
use av_base::{List, Memory};
use av_flat::Choice;
use av_poly::Poly;
use std::alloc::Global;

/// The read of the point before, where that is in the set too.
pub(crate) fn choice_before(alloc: Global, map: &Map, domain: &Poly) -> Result<Choice, Memory>
    requires projection { IsProjection map.now }
    requires from { map.now.from ≤ 4 }
    requires dimension { domain.now.dim ≡ map.now.from }
    requires rows { All IsWithinLimits domain.now.rows }
    ensures { IfOk result (λ choice. choice ≡ choice_before map.now domain.now) }
{
    let before = map_before(map);
    let set = domain.preimage(alloc, &before)?;
    Ok(Choice { set, map: before })
}

// The row that is 1 lower.
fn lower(row: &Form) -> Form
    requires { unsigned_abs row.now.constant ≤ 2 ^ 40 }
    ensures { result ≡ lower row.now }
{
    let coef = row.coef;
    Form {
        coef,
        constant: row.constant - 1,
    }
}

// Lowers what came before a map of the first rows, where they bound the dropped index from above.
fn lower_first(map: &Map, last: &Map, rows: &[Form], place: usize, images: &mut List<Form>)
    requires from { map.now.from ≤ 4 }
    requires rows { All IsWithinLimits rows.now }
    requires last { All IsWithinLimits last.now.rows }
    requires few { length last.now.rows ≤ 4 }
    requires within { place ≤ length rows.now }
    requires images { images.old ≡ rows_before last.now rows.now }
    ensures value { images.new ≡ rows_before last.now (lowered map.now place rows.now) }
    ensures small { All IsSmall images.new }
{
    for k in 0..place {
        if is_upper(map, &rows[k]) {
            let lowered = lower(&images.as_slice()[k]);
            images.set(k, lowered);
        }
    }
}

// The read of the last point where this upper row is the first of the least bounds.
fn choice_of(alloc: Global, map: &Map, domain: &Poly, place: usize) -> Result<Choice, Memory>
    requires projection { IsProjection map.now }
    requires from { map.now.from ≤ 4 }
    requires dimension { domain.now.dim ≡ map.now.from }
    requires rows { All IsWithinLimits domain.now.rows }
    requires within { place < length domain.now.rows }
    ensures { IfOk result (λ choice. (before : Items Form) (row : Form) (rest : Items Form)
        → domain.now.rows ≡ before ++ row ∷ rest
        → length before ≡ place → choice ≡ choice_of map.now before row rest) }
{
    let rows = domain.rows.as_slice();
    let last = map_over(map, &bound(map, &rows[place]));
    let mut set = domain.preimage(alloc, &last)?;
    lower_first(map, &last, rows, place, &mut set.rows);
    Ok(Choice { set, map: last })
}

/// One read for each upper row, in the order of the rows.
pub(crate) fn choices_of(alloc: Global, map: &Map, domain: &Poly) -> Result<List<Choice>, Memory>
    requires projection { IsProjection map.now }
    requires from { map.now.from ≤ 4 }
    requires dimension { domain.now.dim ≡ map.now.from }
    requires rows { All IsWithinLimits domain.now.rows }
    ensures { IfOk result (λ choices. choices ≡ choices_of map.now domain.now.rows) }
{
    let mut choices = List::new(alloc);
    for (place, row) in domain.rows.as_slice().iter().enumerate() {
        if is_upper(map, row) {
            choices.push(choice_of(alloc, map, domain, place)?)?;
        }
    }
    Ok(choices)
}
