//! Completions of vectors, compositions of maps, and products of matrices.

ghost use Rattle.std.specs.Prelude.{◌≡◌, ◌≢◌, ◌≤◌, length, pos, All, Any, IsTrue};
ghost use Rattle.av_affine.specs.Numbers.{AtMost};

use crate::sets::{are_within_limits, form, is_within_limits, scaled};
use av_affine::{Map, Over, Rows, Square, complete, is_inverse, multiply};
use av_base::Point;

// Whether a vector may be completed.
fn may_be_completed(vector: &[i64]) -> bool
    ensures few { IsTrue result → length vector.now ≤ 4 }
    ensures small { IsTrue result → AtMost 4 vector.now }
    ensures not_zero { IsTrue result → Any (λ x. x ≢ pos 0) vector.now }
{
    vector.len() <= 4
        && vector.iter().all(|x| x.unsigned_abs() <= 4)
        && vector.iter().any(|x| *x != 0)
}

// Whether the completion of a vector has an inverse, and the vector again as its divisor times its first row.
fn is_completed(vector: &[i64]) -> bool
    requires few { length vector.now ≤ 4 }
    requires small { AtMost 4 vector.now }
    requires not_zero { Any (λ x. x ≢ pos 0) vector.now }
{
    let placed = complete(&Point::from_slice(vector));
    let again = vector
        .iter()
        .zip(placed.m.cells[0])
        .all(|(x, y)| placed.gcd.checked_mul(y) == Some(*x));
    again && is_inverse(&placed.m, &placed.inverse) && is_inverse(&placed.inverse, &placed.m)
}

// The entries from -4 to 4 with this number.
fn entries(number: u32) -> [i64; 4] {
    let mut rest = number;
    let mut entries = [0i64; 4];
    for k in 0..4 {
        entries[k] = (rest % 9) as i64 - 4;
        rest /= 9;
    }
    entries
}

// How many vectors of so many entries from -4 to 4 are completed; none where one is not.
fn completed(size: usize, count: u32) -> Option<u32> {
    if size > 4 {
        return None;
    }
    let mut seen: u32 = 0;
    for number in 0..count {
        let entries = entries(number);
        let vector = &entries[..size];
        if may_be_completed(vector) {
            if !is_completed(vector) {
                return None;
            }
            seen = seen.wrapping_add(1);
        }
    }
    Some(seen)
}

#[test]
fn every_small_vector_is_completed(rt: HostRuntime) {
    for (size, count, wanted) in [(1, 9, 8), (2, 81, 80), (3, 729, 728), (4, 6561, 6560)] {
        assert_eq!(rt; completed(size, count), Some(wanted));
    }
}

// Whether the completion of a vector has these rows and this divisor.
fn completes_to(vector: &[i64], rows: &[[i64; 4]; 4], gcd: i64) -> bool {
    if !may_be_completed(vector) {
        return false;
    }
    let placed = complete(&Point::from_slice(vector));
    placed.m.cells == *rows && placed.gcd == gcd
}

// Vectors with the rows and the divisor of their completions.
const COMPLETIONS: &[(&[i64], [[i64; 4]; 4], i64)] = &[
    (
        &[1, 1, 1],
        [[1, 1, 1, 0], [1, 0, 0, 0], [0, 1, 0, 0], [0; 4]],
        1,
    ),
    (&[2, 3], [[2, 3, 0, 0], [1, 1, 0, 0], [0; 4], [0; 4]], 1),
    (&[4, -2], [[2, -1, 0, 0], [1, 0, 0, 0], [0; 4], [0; 4]], 2),
    (
        &[3, -4, 0, 2],
        [[3, -4, 0, 2], [1, 0, 0, 1], [0, 1, 0, 0], [0, 0, 1, 0]],
        1,
    ),
];

#[test]
fn completions(rt: HostRuntime) {
    for (vector, rows, gcd) in COMPLETIONS {
        assert!(rt; completes_to(vector, rows, *gcd), "at {vector:?}");
    }
}

// The composition, where the maps fit each other and are within the limits.
fn composed(outer: &Map, inner: &Map) -> Option<Result<Map, Over>> {
    let fits = outer.from as usize == inner.rows.as_slice().len();
    if fits
        && are_within_limits(outer.rows.as_slice())
        && are_within_limits(inner.rows.as_slice())
    {
        Some(outer.compose(inner))
    } else {
        None
    }
}

// The composition of maps of one index, each a coefficient and a constant.
fn composed_scales(outer: (i64, i64), inner: (i64, i64)) -> Option<Result<Map, Over>> {
    composed(&scaled(outer.0, outer.1), &scaled(inner.0, inner.1))
}

#[test]
fn compositions_above_a_limit(rt: HostRuntime) {
    for (outer, inner, wanted) in [
        ((32, 0), (33, 0), Over::Coefficient(1056)),
        ((32, 0), (33, 1 << 20), Over::Coefficient(1056)),
        ((2, 0), (1, 1 << 20), Over::Constant(2097152)),
    ] {
        assert_eq!(rt; composed_scales(outer, inner), Some(Err(wanted)));
    }
}

// i -> 3i+1, i-2
fn inner() -> Map {
    Map {
        from: 1,
        rows: Rows::from_slice(&[form([3, 9, 9, 9], 1), form([1, 9, 9, 9], -2)]),
    }
}

// i,j -> j, i+2j+5
fn outer() -> Map
    ensures { result.from ≡ 2 }
{
    Map {
        from: 2,
        rows: Rows::from_slice(&[form([0, 1, 9, 9], 0), form([1, 2, 9, 9], 5)]),
    }
}

// i -> i-2, 5i+2
fn both() -> Map {
    Map {
        from: 1,
        rows: Rows::from_slice(&[form([1, 0, 0, 0], -2), form([5, 0, 0, 0], 2)]),
    }
}

#[test]
fn a_composition_at_the_limit(rt: HostRuntime) {
    assert_eq!(rt;
        composed_scales((32, 5), (32, -1)),
        Some(Ok(scaled(1024, -27)))
    );
}

#[test]
fn a_composition(rt: HostRuntime) {
    assert!(rt; composed(&outer(), &inner()) == Some(Ok(both())));
}

// The value of i+2j+5 at a point.
fn value_at(point: &[i64; 2]) -> Option<i64> {
    let form = form([1, 2, 9, 9], 5);
    if point.iter().all(|x| x.unsigned_abs() <= 4095) && is_within_limits(&form) {
        Some(form.at(&Point::from_slice(point)))
    } else {
        None
    }
}

// The image of a point under the outer map.
fn image_of(point: &[i64; 2]) -> Option<Point> {
    let outer = outer();
    if point.iter().all(|x| x.unsigned_abs() <= 4095) && are_within_limits(outer.rows.as_slice()) {
        Some(outer.apply(&Point::from_slice(point)))
    } else {
        None
    }
}

#[test]
fn maps_of_points(rt: HostRuntime) {
    assert_eq!(rt; value_at(&[22, 5]), Some(37));
    assert!(rt; image_of(&[22, 5]) == Some(Point::from_slice(&[5, 37])));
}

// 1 2 above 3 4, with numbers in the cells that do not count.
fn four_numbers() -> Square
    ensures size { result.size ≡ 2 }
    ensures cells { All (AtMost 1024) result.cells }
{
    Square {
        size: 2,
        cells: [[1, 2, 9, 9], [3, 4, 9, 9], [9; 4], [9; 4]],
    }
}

// 0 1 above 1 0
fn swap() -> Square
    ensures size { result.size ≡ 2 }
    ensures cells { All (AtMost 1024) result.cells }
{
    Square {
        size: 2,
        cells: [[0, 1, 0, 0], [1, 0, 0, 0], [0; 4], [0; 4]],
    }
}

#[test]
fn products_of_matrices(rt: HostRuntime) {
    let swapped = Square {
        size: 2,
        cells: [[2, 1, 0, 0], [4, 3, 0, 0], [0; 4], [0; 4]],
    };
    assert_eq!(rt; multiply(&four_numbers(), &swap()), swapped);
}

#[test]
fn inverses(rt: HostRuntime) {
    assert!(rt; is_inverse(&swap(), &swap()));
    assert!(rt; !is_inverse(&four_numbers(), &swap()));
}
