//! The first point of an input without a word.

ghost use Rattle.std.specs.Prelude.{ℤ, pos, get_or, ◌<ℤ◌, List as Items, ◌≡◌, ◌≤◌, ◌<◌, length, All, None, IsTrue, IsSome, IfOk, IfSome, IfNone};
ghost use Rattle.av_affine.specs.Numbers.{AtMost};
ghost use Rattle.av_affine.specs.Forms.{IsWithinLimits};
ghost use Rattle.av_poly.specs.Points.{Has};
ghost use Rattle.av_poly.specs.Search.{IsBetween};
ghost use Rattle.av_flat.specs.Order.{IsBefore};
ghost use Rattle.av_flat.specs.Sets.{IsBounded};
ghost use Rattle.av_flat.specs.Trees.{view_system};
ghost use Rattle.av_elim.specs.Extents.{IsInside};
ghost use Rattle.av_data.specs.Inputs.{word_among};
ghost use Rattle.av_data.specs.inner.ReadData.{IsReadable, IsMissingAt, AreWhole};
ghost use Rattle.av_data.specs.inner.Walks.{IsNext, IsLast, DiffersAt};

use crate::data_lines::variable_at;
use crate::word_map::WordMap;
use av_base::{Memory, Point};
use av_elim::box_of;
use av_flat::{Flat, VariablePlace};
use av_poly::{Bounds, Poly};
use std::alloc::Global;

// The box of the points behind z that first differ from it at this index.
fn behind(extent: &Bounds, z: &[i64], index: usize) -> Bounds
    requires within { index < length z.now }
    requires few { length z.now ≤ 4 }
    requires low { AtMost 4095 extent.now.low }
    requires high { AtMost 4095 extent.now.high }
    requires small { AtMost 4095 z.now }
    requires below { get_or z.now index (pos 0) <ℤ get_or extent.now.high index (pos 0) }
    ensures low { AtMost 4095 result.low }
    ensures high { AtMost 4095 result.high }
    ensures between { (y : Items ℤ) → length y ≡ length z.now
        → IsBetween extent.now.low extent.now.high y
        → DiffersAt index z.now y → IsBetween result.low result.high y }
    ensures behind { (y : Items ℤ) → length y ≡ length z.now
        → IsBetween result.low result.high y → DiffersAt index z.now y }
{
    let mut low = extent.low;
    let mut high = extent.high;
    for k in 0..index {
        low[k] = i128::from(z[k]);
        high[k] = i128::from(z[k]);
    }
    low[index] = i128::from(z[index]) + 1;
    Bounds { low, high }
}

// The least point of a set behind one that it has.
fn point_after(set: &Poly, extent: &Bounds, z: &Point) -> Option<Point>
    requires few { set.now.dim ≤ 4 }
    requires low { AtMost 4095 extent.now.low }
    requires high { AtMost 4095 extent.now.high }
    requires inside { IsInside set.now.dim extent.now set.now }
    requires has { Has set.now z.now }
    ensures some { IfSome result (IsNext set.now z.now) }
    ensures none { IfNone result (IsLast set.now z.now) }
{
    let entries = z.as_slice();
    let mut index = entries.len();
    while index > 0 {
        index -= 1;
        if i128::from(entries[index]) < extent.high[index] {
            let found = set.first_point(&behind(extent, entries, index));
            if found.is_some() {
                return found;
            }
        }
    }
    None
}

// The least point of a domain that has no word.
fn missing_point(
    alloc: Global,
    words: &WordMap,
    place: VariablePlace,
    domain: &Poly,
) -> Result<Option<Point>, Memory>
    requires few { domain.now.dim ≤ 4 }
    requires rows { All IsWithinLimits domain.now.rows }
    requires bounded { IsBounded domain.now }
    ensures missing { IfOk result (λ o. IfSome o (λ z. Has domain.now z
        × (word_among words.now place.0 z ≡ None))) }
    ensures least { IfOk result (λ o. IfSome o (λ z. (y : Items ℤ)
        → Has domain.now y → IsBefore y z → IsSome (word_among words.now place.0 y))) }
    ensures none { IfOk result (λ o.
        IfNone o ((y : Items ℤ) → Has domain.now y → IsSome (word_among words.now place.0 y))) }
{
    let Some(extent) = box_of(alloc, domain)? else {
        return Ok(None);
    };
    let mut next = domain.first_point(&extent);
    while let Some(z) = next {
        if words.word(place, &z).is_none() {
            return Ok(Some(z));
        }
        next = point_after(domain, &extent, &z);
    }
    Ok(None)
}

/// The first input with a declared point that has no word, and its least such point.
pub(crate) fn first_missing(
    alloc: Global,
    flat: &Flat,
    words: &WordMap,
) -> Result<Option<(VariablePlace, Point)>, Memory>
    requires readable { IsReadable (view_system flat.now) }
    ensures within { IfOk result (λ o. IfSome o (λ found. found.0.0 < length flat.now.vars)) }
    ensures missing { IfOk result (λ o.
        IfSome o (λ found. IsMissingAt (view_system flat.now) words.now found.0.0 found.1)) }
    ensures none { IfOk result (λ o.
        IfNone o (AreWhole (view_system flat.now) words.now (length flat.now.vars))) }
{
    // So few variables that 32 bits number them.
    let _most = flat.vars.len();
    let vars = flat.vars.as_slice();
    for place in 0..vars.len() {
        let place = VariablePlace(place as u32);
        let var = variable_at(vars, place);
        if var.kind.is_computed() {
            continue;
        }
        if let Some(point) = missing_point(alloc, words, place, &var.domain)? {
            return Ok(Some((place, point)));
        }
    }
    Ok(None)
}
