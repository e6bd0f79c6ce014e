//! What becomes of texts that are to be scheduled: the times of the nodes, or the first fault.

use super::{CONVOLUTION, FORWARD, MATRIX_PRODUCT, MATRIX_VECTOR, N4, STEPS, SUMS, push_refusal};
use crate::answers::{Answers, assert_text};
use av_base::Width;
use av_compile::scheduled;
use av_flat::{Reach, Timed};
use av_names::Size;
use av_testing::push_point;
use av_testing::texts::TEN;
use std::alloc::Global;
use std::fmt::Write;
use std::process::Abort;
use std::test::Fail;

/// A whole text, the sizes, how far linear parts go, and the answer.
type Row = (
    &'static str,
    &'static [(&'static str, i64)],
    u32,
    &'static str,
);

/// Texts with a schedule in the box.
const SCHEDULES: &[Row] = &[
    (
        MATRIX_PRODUCT,
        &[("N", 2)],
        4,
        "times C (0,1) 2; C#1 (1,1,1) -3",
    ),
    (CONVOLUTION, &[], 4, "times Y (1) 1; Y#1 (1,1) -2"),
    (FORWARD, &[("N", 3)], 4, "times x (2) -2; x#1 (1,1) -2"),
    (SUMS, &[], 1, "times P (1) 0"),
    (
        "system t (X : {i | 0<=i<=1} of integer) returns (Y : {i | 0<=i<=2} of integer);
let Y[i] = reduce(min, (i,j -> i), {i,j | 0<=j; j<i} : X[j]); tel;",
        &[],
        4,
        "times Y (1) 1; Y#1 (1,1) -1",
    ),
];

/// Texts without one, or with reductions that have no chain.
const REFUSED: &[Row] = &[
    (FORWARD, &[("N", 3)], 1, "no schedule x"),
    (
        "system t (A : {i | 0<=i<=2} of integer) returns (X : {i | 0<=i<=2} of integer);
let X[i] = case {| i=0} : X[i+2]; {| i=2} : X[i-1]; {| i=1} : A[i]; esac; tel;",
        &[],
        4,
        "no schedule X",
    ),
    (
        "system t (X : {i | 0<=i<=2} of integer) returns (Y : {i | 0<=i<=4} of integer);
let Y[i] = reduce(+, (i,j -> i), {i,j | 0<=j; 2j<=i} : X[j]); tel;",
        &[],
        4,
        "non unit Y",
    ),
    (
        "system t (X : {i | 0<=i<=330} of integer) returns (Y : {i | 0<=i<=197} of integer);
let Y[i] = reduce(+, (i,j -> i), X[j]); tel;",
        &[],
        4,
        "limit box 65538",
    ),
    (TEN, &[], 2, "candidates 9765625"),
    (TEN, &[], 1, "no schedule X1"),
];

/// Texts with a fault before those of reductions, whose own reductions have one as well.
const BEFORE_REDUCTIONS: &[Row] = &[
    (
        "system t (X : {i | 0<=i<=2} of integer) returns (Y : {i | 0<=i<=4} of integer; Z : {i | 0<=i<=1} of integer);
let Y[i] = reduce(+, (i,j -> i), {i,j | 0<=j; 2j<=i} : X[j]); Z[i] = {| i>=1} : X[i]; tel;",
        &[],
        4,
        "uncovered Z (0)",
    ),
    (
        "system t (X : {i | 0<=i<=2} of integer) returns (Y : {i | 0<=i<=4} of integer; Z : {i | 0<=i<=1} of integer);
let Y[i] = reduce(+, (i,j -> i), {i,j | 0<=j; 2j<=i} : X[j]); Z[i] = case {| i>=0} : X[i]; {| i>=1} : 0; esac; tel;",
        &[],
        4,
        "two branches Z (1)",
    ),
    (
        "system t (X : {i | 0<=i<=2} of integer) returns (Y : {i | 0<=i<=4096} of integer);
let Y[i] = reduce(+, (i,j -> i), {i,j | 0<=j; 2j<=i} : X[j]); tel;",
        &[],
        4,
        "limit coordinate 4096",
    ),
    (MATRIX_PRODUCT, &[], 4, "size missing N"),
];

/// The nodes in order, each with its linear part and its offset.
fn push_times(out: &mut String, timed: &Timed) -> Result<(), Fail> {
    let mut kind = "times";
    let mut times = timed.times.as_slice().iter();
    for var in timed.flat.vars.as_slice() {
        if var.is_node() {
            let time = times.next().ok_or("a time for each node")?;
            push_point(out, kind, &var.name, &time.linear)?;
            write!(out, " {}", time.offset)?;
            kind = ";";
        }
    }
    match times.next() {
        Some(_) => Err(Fail::from("a node for each time")),
        None => Ok(()),
    }
}

/// What `scheduled` answers in a box.
#[derive(Clone, Copy)]
struct Scheduled {
    reach: Reach,
}

impl Answers for Scheduled {
    fn push_answer(
        &self,
        out: &mut String,
        alloc: Global,
        text: &str,
        sizes: &[Size],
        width: Width,
    ) -> Result<(), Fail> {
        match scheduled(alloc, text.as_bytes(), sizes, width, self.reach) {
            Ok(timed) => push_times(out, &timed),
            Err(refusal) => push_refusal(out, &refusal),
        }
    }
}

fn assert_row(rt: &impl Abort, alloc: Global, text: &str, row: &Row) -> Result<(), Fail> {
    let (_, sizes, size, wanted) = row;
    let reach = Reach::new(*size).ok_or("a box")?;
    assert_text(rt, alloc, &Scheduled { reach }, text, sizes, wanted)
}

fn assert_rows(rt: &impl Abort, alloc: Global, rows: &[Row]) -> Result<(), Fail> {
    for row in rows {
        assert_row(rt, alloc, row.0, row)?;
    }
    Ok(())
}

#[test]
fn the_schedule_of_the_matrix_vector_product(rt: HostRuntime) -> Result<(), Fail> {
    let alloc = rt.alloc();
    let text = format!(in alloc; "{MATRIX_VECTOR}{STEPS} tel;")?;
    let row = ("", N4, 4, "times C (1) 4; s (1,1) -1");
    assert_row(&rt, alloc, text.as_str(), &row)
}

#[test]
fn first_schedules(rt: HostRuntime) -> Result<(), Fail> {
    assert_rows(&rt, rt.alloc(), SCHEDULES)
}

#[test]
fn texts_without_a_schedule(rt: HostRuntime) -> Result<(), Fail> {
    assert_rows(&rt, rt.alloc(), REFUSED)
}

#[test]
fn faults_before_those_of_reductions(rt: HostRuntime) -> Result<(), Fail> {
    assert_rows(&rt, rt.alloc(), BEFORE_REDUCTIONS)
}
