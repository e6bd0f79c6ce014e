//! First schedules.

use super::assert_schedule;
use av_testing::texts::{
    CIRCLE, CONVOLUTION, FORWARD, LEAST, MATRIX_PRODUCT, MATRIX_VECTOR, NO_POINT, ROW_SUMS,
    RUNNING_SUMS, TILTED_SQUARE, TURNED,
};
use std::alloc::Global;
use std::process::Abort;
use std::test::Fail;

type Row = (&'static str, i64, u32, &'static str);

const PRODUCTS: &[Row] = &[
    (MATRIX_VECTOR, 4, 4, "C (1) 4; s (1,1) -1"),
    (MATRIX_PRODUCT, 2, 4, "C (0,1) 2; C#1 (1,1,1) -3"),
    (CONVOLUTION, 0, 4, "Y (1) 1; Y#1 (1,1) -2"),
];

const REDUCTIONS: &[Row] = &[
    (FORWARD, 3, 4, "x (2) -2; x#1 (1,1) -2"),
    (FORWARD, 3, 1, "no schedule x"),
    (ROW_SUMS, 0, 4, "Y (1) 3; Y#1 (0,1) 0"),
    (LEAST, 0, 4, "Y (1) 1; Y#1 (1,1) -1"),
];

const WITHOUT_REDUCTIONS: &[Row] = &[
    (TILTED_SQUARE, 0, 4, "Y (0,1) 2"),
    (RUNNING_SUMS, 0, 4, "P (1) 0"),
    (NO_POINT, 0, 4, ""),
];

const CIRCLES: &[Row] = &[
    (CIRCLE, 0, 4, "no schedule X"),
    (TURNED, 0, 4, "no schedule X"),
];

fn assert_rows(rt: &impl Abort, alloc: Global, rows: &[Row]) -> Result<(), Fail> {
    for (text, n, size, wanted) in rows {
        assert_schedule(rt, alloc, text, *n, *size, wanted)?;
    }
    Ok(())
}

#[test]
fn products(rt: HostRuntime) -> Result<(), Fail> {
    assert_rows(&rt, rt.alloc(), PRODUCTS)
}

#[test]
fn reductions(rt: HostRuntime) -> Result<(), Fail> {
    assert_rows(&rt, rt.alloc(), REDUCTIONS)
}

#[test]
fn without_reductions(rt: HostRuntime) -> Result<(), Fail> {
    assert_rows(&rt, rt.alloc(), WITHOUT_REDUCTIONS)
}

#[test]
fn circles(rt: HostRuntime) -> Result<(), Fail> {
    assert_rows(&rt, rt.alloc(), CIRCLES)
}
