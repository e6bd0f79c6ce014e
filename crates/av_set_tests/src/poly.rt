//! Sets: their points, meets, preimages, what is left of them, normal forms and least points.

ghost use Rattle.std.specs.Prelude.{◌≡◌, ◌≤◌, ◌<◌, ◌^◌, length, unsigned_abs, All, IfOk, IsTrue};
ghost use Rattle.av_affine.specs.Numbers.{AtMost};

use crate::sets::{Row, are_rows, are_within_limits, form, set};
use av_affine::{Map, Rows};
use av_base::{List, Memory, Point};
use av_poly::{Bounds, Poly};
use std::alloc::Global;
use std::process::Abort;
use std::test::Fail;

// The set of one index from `low` to `high`.
fn between(alloc: Global, low: i64, high: i64) -> Result<Poly, Memory>
    requires { unsigned_abs low ≤ 100 }
    ensures { IfOk result (λ set. set.dim ≡ 1) }
{
    set(alloc, 1, &[([1, 0, 0, 0], -low), ([-1, 0, 0, 0], high)])
}

fn has(poly: &Poly, entries: &[i64]) -> bool {
    entries.len() == poly.dim as usize
        && entries.len() <= 4
        && entries.iter().all(|x| x.unsigned_abs() <= 1 << 25)
        && poly.contains(&Point::from_slice(entries))
}

// The points of a set of one index from -5 to 9.
fn points(alloc: Global, poly: &Poly) -> Result<Vec<i64>, Memory> {
    let mut points = Vec::new(alloc);
    for z in -5..10 {
        if has(poly, &[z]) {
            points.push(z)?;
        }
    }
    Ok(points)
}

// What is left of one set of another, where both have the dimension.
fn left(alloc: Global, poly: &Poly, within: &Poly) -> Result<Option<List<Poly>>, Memory> {
    let fits = poly.dim == within.dim;
    if fits
        && poly
            .rows
            .as_slice()
            .iter()
            .all(|row| row.constant.unsigned_abs() < 1 << 40)
    {
        Ok(Some(poly.split_outside(alloc, within)?))
    } else {
        Ok(None)
    }
}

// The least point between bounds.
fn first(poly: &Poly, low: [i128; 4], high: [i128; 4]) -> Option<Point> {
    let small = low.iter().all(|x| x.unsigned_abs() <= 4095)
        && high.iter().all(|x| x.unsigned_abs() <= 4095);
    if small && poly.dim <= 4 {
        poly.first_point(&Bounds { low, high })
    } else {
        None
    }
}

// All entries are this number or its negative.
const FAR: i64 = 1 << 25;

#[test]
fn membership_without_overflow(rt: HostRuntime) -> Result<(), Fail> {
    let row = ([1 << 40, 1 << 40, 1 << 40, 1 << 40], -(1 << 40));
    let poly = set(rt.alloc(), 4, &[row])?;
    for (entries, wanted) in [
        ([FAR, FAR, FAR, FAR], true),
        ([-FAR, -FAR, -FAR, -FAR], false),
        ([0, 0, 0, 1], true),
        ([0, 0, 0, 0], false),
    ] {
        assert_eq!(rt; has(&poly, &entries), wanted);
    }
    Ok(())
}

// The set of one index has these points from -5 to 9.
fn assert_points(rt: &impl Abort, alloc: Global, poly: &Poly, wanted: &[i64]) -> Result<(), Fail> {
    let found = points(alloc, poly)?;
    assert_eq!(rt; found.as_slice(), wanted);
    Ok(())
}

#[test]
fn meeting_sets(rt: HostRuntime) -> Result<(), Fail> {
    let alloc = rt.alloc();
    let poly = between(alloc, 0, 4)?;
    let other = set(alloc, 1, &[([-1, 0, 0, 0], 2)])?;
    let both = poly.meet(alloc, &other)?;
    assert_points(&rt, alloc, &both, &[0, 1, 2])
}

// The points that the map sends into the set, where both are within the limits.
fn before(alloc: Global, poly: &Poly, map: &Map) -> Result<Poly, Fail>
    requires { length map.now.rows ≡ poly.now.dim }
{
    if are_within_limits(poly.rows.as_slice()) && are_within_limits(map.rows.as_slice()) {
        Ok(poly.preimage(alloc, map)?)
    } else {
        Err(Fail::new("within the limits"))
    }
}

// i -> i+1
fn next() -> Map
    ensures { length result.rows ≡ 1 }
{
    Map {
        from: 1,
        rows: Rows::from_slice(&[form([1, 0, 0, 0], 1)]),
    }
}

#[test]
fn preimages(rt: HostRuntime) -> Result<(), Fail> {
    let alloc = rt.alloc();
    let poly = between(alloc, 0, 4)?;
    let found = before(alloc, &poly, &next())?;
    assert_points(&rt, alloc, &found, &[-1, 0, 1, 2, 3])
}

fn append(seen: &mut Vec<i64>, points: &[i64]) -> Result<(), Memory> {
    for z in points {
        seen.push(*z)?;
    }
    Ok(())
}

// The points of sets of one index, one set after another.
fn points_of_all(alloc: Global, parts: &[Poly]) -> Result<Vec<i64>, Memory> {
    let mut seen = Vec::new(alloc);
    for part in parts {
        let points = points(alloc, part)?;
        append(&mut seen, points.as_slice())?;
    }
    Ok(seen)
}

// The points that are left of 0 to 4 outside 0 to 2.
fn outside(alloc: Global) -> Result<Vec<i64>, Fail> {
    let within = between(alloc, 0, 4)?;
    let poly = between(alloc, 0, 2)?;
    let parts = left(alloc, &poly, &within)?.ok_or("no parts")?;
    Ok(points_of_all(alloc, parts.as_slice())?)
}

#[test]
fn what_is_left_outside(rt: HostRuntime) -> Result<(), Fail> {
    let seen = outside(rt.alloc())?;
    assert_eq!(rt; seen.as_slice(), [3, 4].as_slice());
    Ok(())
}

// Sets, each the number of its indices and its rows, with the rows of their normal form.
const NORMALISED: &[(u8, &[Row], &[Row])] = &[
    // 2i >= 1 and 2i <= 1 say i >= 1 and i <= 0.
    (
        1,
        &[([2, 7, 0, 0], -1), ([-2, 0, 0, 0], 1)],
        &[([1, 0, 0, 0], -1), ([-1, 0, 0, 0], 0)],
    ),
    // A row that holds is dropped, and of equal coefficients the least constant stays.
    (
        2,
        &[
            ([3, -6, 0, 0], 10),
            ([0, 0, 5, 0], 0),
            ([2, -4, 0, 0], 5),
            ([1, -2, 0, 0], 9),
        ],
        &[([1, -2, 0, 0], 2)],
    ),
    // A row that does not hold anywhere is all that is left.
    (
        1,
        &[([1, 0, 0, 0], 0), ([0, 0, 0, 0], -3), ([-1, 0, 0, 0], 9)],
        &[([0, 0, 0, 0], -1)],
    ),
];

#[test]
fn normalised_rows(rt: HostRuntime) -> Result<(), Fail> {
    for (dim, rows, wanted) in NORMALISED {
        let mut poly = set(rt.alloc(), *dim, rows)?;
        poly.normalise();
        assert!(rt; are_rows(poly.rows.as_slice(), wanted), "at {rows:?}");
    }
    Ok(())
}

// The least point between the bounds is this one.
fn assert_first(
    rt: &impl Abort,
    poly: &Poly,
    low: [i128; 4],
    high: [i128; 4],
    wanted: &[i64],
) -> Result<(), Fail> {
    let found = first(poly, low, high).ok_or("none")?;
    assert_eq!(rt; found.as_slice(), wanted);
    Ok(())
}

// 0 <= i+j <= 4, 0 <= i-j <= 4.
const DIAMOND: &[Row] = &[
    ([1, 1, 0, 0], 0),
    ([-1, -1, 0, 0], 4),
    ([1, -1, 0, 0], 0),
    ([-1, 1, 0, 0], 4),
];

#[test]
fn least_points(rt: HostRuntime) -> Result<(), Fail> {
    let poly = set(rt.alloc(), 2, DIAMOND)?;
    assert_first(&rt, &poly, [0, -2, 0, 0], [4, 2, 0, 0], &[0, 0])?;
    assert_first(&rt, &poly, [3, -2, 0, 0], [4, 2, 0, 0], &[3, -1])
}

#[test]
fn no_least_point(rt: HostRuntime) -> Result<(), Fail> {
    let poly = set(rt.alloc(), 2, DIAMOND)?;
    assert!(rt; first(&poly, [3, 2, 0, 0], [4, 2, 0, 0]).is_none());
    Ok(())
}

// Of a box of 8,190 to the power of 4 one point.
const CORNER: &[Row] = &[
    ([1, 1, 1, 1], -16380),
    ([-1, 0, 0, 0], 4095),
    ([2, 0, 0, 0], -8190),
];

#[test]
fn the_least_point_of_a_great_box(rt: HostRuntime) -> Result<(), Fail> {
    let far = set(rt.alloc(), 4, CORNER)?;
    assert_first(&rt, &far, [-4095; 4], [4095; 4], &[4095, 4095, 4095, 4095])
}
