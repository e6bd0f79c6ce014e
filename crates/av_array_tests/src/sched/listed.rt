//! The points that edges list.

use super::{assert_schedule, edge_lines};
use crate::asserts::same;
use av_testing::texts::{ROW_SUMS, RUNNING_SUMS, SWEEP};
use std::alloc::Global;
use std::process::Abort;
use std::test::Fail;

fn assert_edges(rt: &impl Abort, alloc: Global, text: &str, wanted: &str) -> Result<(), Fail> {
    same(rt, edge_lines(alloc, text, 0)?.as_str(), wanted);
    Ok(())
}

const EDGES: &[(&str, &str)] = &[
    (SWEEP, "0 reads 0 at (1,0) (1,255) (255,0) (255,255)"),
    (RUNNING_SUMS, "0 reads 0 at (1) (2)"),
    (
        ROW_SUMS,
        "0 reads 1 at (0) (1); 1 reads 1 at (0,1) (0,2) (1,1) (1,2)",
    ),
];

#[test]
fn corners_and_ends(rt: HostRuntime) -> Result<(), Fail> {
    for (text, wanted) in EDGES {
        assert_edges(&rt, rt.alloc(), text, wanted)?;
    }
    Ok(())
}

#[test]
fn a_sweep_goes_along_its_first_index(rt: HostRuntime) -> Result<(), Fail> {
    assert_schedule(&rt, rt.alloc(), SWEEP, 0, 4, "S (1,0) 0")
}
