//! Bounds of sets.

ghost use Rattle.std.specs.Prelude.{◌≡◌, ◌≤◌, ◌^◌, unsigned_abs, All, IfOk, IsTrue};

use crate::sets::{Row, are_within_limits, set};
use av_base::Memory;
use av_elim::{Elim, bounds, one_answer, rays};
use av_poly::{Bounds, Poly};
use std::alloc::Global;
use std::test::Fail;

// What is told of the set with these rows, normalised; None where they are outside the limits.
fn told(alloc: Global, dim: u8, rows: &[Row]) -> Result<Option<Result<Bounds, Elim>>, Memory> {
    let mut poly = set(alloc, dim, rows)?;
    poly.normalise();
    if poly.dim <= 4 && are_within_limits(poly.rows.as_slice()) {
        Ok(Some(bounds(alloc, &poly)))
    } else {
        Ok(None)
    }
}

// The rows low <= each index <= high, of the first indices.
fn cube(alloc: Global, dim: usize, low: i64, high: i64) -> Result<Vec<Row>, Memory>
    requires dim { dim ≤ 4 }
    requires low { unsigned_abs low ≤ 100 }
{
    let mut rows = Vec::new(alloc);
    for index in 0..dim {
        let mut coef = [0; 4];
        coef[index] = 1;
        rows.push((coef, -low))?;
        coef[index] = -1;
        rows.push((coef, high))?;
    }
    Ok(rows)
}

// The least and the greatest coordinates, or why there are none.
type Wanted = Result<(&'static [i128], &'static [i128]), Elim>;

const NOTHING: Wanted = Ok((&[0; 4], &[0; 4]));

fn is_within(found: &Bounds, wanted: &Wanted) -> bool {
    match wanted {
        Ok((low, high)) => found.low.as_slice() == *low && found.high.as_slice() == *high,
        Err(_) => false,
    }
}

fn is_refused(found: &Elim, wanted: &Wanted) -> bool {
    match wanted {
        Ok(_) => false,
        Err(wanted) => found == wanted,
    }
}

fn is_told(found: &Option<Result<Bounds, Elim>>, wanted: &Wanted) -> bool {
    match found {
        Some(Ok(found)) => is_within(found, wanted),
        Some(Err(found)) => is_refused(found, wanted),
        None => false,
    }
}

// Sets, each the number of its indices and its rows, with what is told of them.
const SETS: &[(u8, &[Row], Wanted)] = &[
    // 0 <= i+j <= 4, 0 <= i-j <= 4.
    (
        2,
        &[
            ([1, 1, 0, 0], 0),
            ([-1, -1, 0, 0], 4),
            ([1, -1, 0, 0], 0),
            ([-1, 1, 0, 0], 4),
        ],
        Ok((&[0, -2, 0, 0], &[4, 2, 0, 0])),
    ),
    // i >= 1.
    (1, &[([1, 0, 0, 0], -1)], Err(Elim::Unbounded(0))),
    // 2i >= 1, 2i <= 1.
    (
        1,
        &[([2, 0, 0, 0], -1), ([-2, 0, 0, 0], 1)],
        Err(Elim::Empty),
    ),
    // 2j <= i <= 2j + 1, 3i + j >= 2, 3i + 2j <= 10: i is from 4/7 to 11/4, and j from -1/7 to 5/4.
    (
        2,
        &[
            ([1, -2, 0, 0], 0),
            ([-1, 2, 0, 0], 1),
            ([3, 1, 0, 0], -2),
            ([-3, -2, 0, 0], 10),
        ],
        Ok((&[1, 0, 0, 0], &[2, 1, 0, 0])),
    ),
    // i - j >= 1 and j - i >= 0: no rational point, and unbounded rows.
    (
        2,
        &[([1, -1, 0, 0], -1), ([-1, 1, 0, 0], 0)],
        Err(Elim::Empty),
    ),
    // 0 <= i <= 3, j >= i.
    (
        2,
        &[([1, 0, 0, 0], 0), ([-1, 0, 0, 0], 3), ([-1, 1, 0, 0], 0)],
        Err(Elim::Unbounded(1)),
    ),
    // 5 <= 5i + 3j <= 7, i = j and k >= 0: the end that is wanting comes before the gap.
    (
        3,
        &[
            ([5, 3, 0, 0], -5),
            ([-5, -3, 0, 0], 7),
            ([1, -1, 0, 0], 0),
            ([-1, 1, 0, 0], 0),
            ([0, 0, 1, 0], 0),
        ],
        Err(Elim::Unbounded(2)),
    ),
    // The same with 0 <= k <= 1: i is from 5/8 to 7/8.
    (
        3,
        &[
            ([0, 0, 1, 0], 0),
            ([0, 0, -1, 0], 1),
            ([5, 3, 0, 0], -5),
            ([-5, -3, 0, 0], 7),
            ([1, -1, 0, 0], 0),
            ([-1, 1, 0, 0], 0),
        ],
        Err(Elim::Empty),
    ),
    // No index and no row, and no index and a row that does not hold.
    (0, &[], NOTHING),
    (0, &[([0; 4], -1)], Err(Elim::Empty)),
    (0, &[([0; 4], 7)], NOTHING),
    // One point.
    (
        1,
        &[([1, 0, 0, 0], 7), ([-1, 0, 0, 0], -7)],
        Ok((&[-7, 0, 0, 0], &[-7, 0, 0, 0])),
    ),
    // No row, and a row that does not hold.
    (3, &[], Err(Elim::Unbounded(0))),
    (3, &[([0; 4], -1)], Err(Elim::Empty)),
    // The greatest coefficients and constants.
    (
        1,
        &[([1024, 0, 0, 0], 1 << 20), ([-1023, 0, 0, 0], 1 << 20)],
        Ok((&[-1024, 0, 0, 0], &[1025, 0, 0, 0])),
    ),
    // Equal coefficients: the row that is nearer counts.
    (
        2,
        &[
            ([1, 1, 0, 0], 0),
            ([-1, 0, 0, 0], 2),
            ([-1, 0, 0, 0], 5),
            ([0, -1, 0, 0], 3),
            ([0, -2, 0, 0], 9),
        ],
        Ok((&[-3, -2, 0, 0], &[2, 3, 0, 0])),
    ),
];

#[test]
fn a_table_of_sets(rt: HostRuntime) -> Result<(), Fail> {
    for (dim, rows, wanted) in SETS {
        assert!(rt;
            is_told(&told(rt.alloc(), *dim, rows)?, wanted),
            "at {rows:?}"
        );
    }
    Ok(())
}

const TILTED: &[Row] = &[
    ([1, 1, 1, 1], -2),
    ([-1, -1, -1, -1], 5),
    ([1, -1, 0, 0], 1),
    ([-1, 1, 0, 0], 0),
    ([0, 0, 1, -1], 2),
    ([0, 0, -1, 1], 1),
    ([1, 2, 0, 0], 3),
    ([-2, -1, 0, 0], 7),
    ([0, 3, -1, 0], 8),
    ([0, -3, 1, 0], 8),
    ([1, 0, 0, 2], 9),
    ([-1, 0, 0, -2], 9),
];

// The rows of the cube from -9 to 9, and of what is tilted in it.
fn twenty_rows(alloc: Global) -> Result<Vec<Row>, Memory> {
    let mut rows = cube(alloc, 4, -9, 9)?;
    for row in TILTED {
        rows.push(*row)?;
    }
    Ok(rows)
}

#[test]
fn laws() {
    rays();
    one_answer();
}

const WITHIN: Wanted = Ok((&[-1, -1, -2, -1], &[2, 2, 4, 4]));

const TOO_MANY: Wanted = Err(Elim::Constraints(21));

#[test]
fn four_indices(rt: HostRuntime) -> Result<(), Fail> {
    let alloc = rt.alloc();
    let rows = twenty_rows(alloc)?;
    assert_eq!(rt; rows.len(), 20);
    assert!(rt; is_told(&told(alloc, 4, &rows)?, &WITHIN));
    Ok(())
}

#[test]
fn one_row_too_many(rt: HostRuntime) -> Result<(), Fail> {
    let alloc = rt.alloc();
    let mut rows = twenty_rows(alloc)?;
    rows.push(([1, 1, 0, 0], 50))?;
    assert!(rt; is_told(&told(alloc, 4, &rows)?, &TOO_MANY));
    Ok(())
}
