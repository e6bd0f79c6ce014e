//! Arrays that take problem after problem: how many cycles later the next one may begin, and the texts of their plans.

ghost use Rattle.std.specs.Prelude.{◌≡◌, IfOk};
ghost use Rattle.av_flat.specs.Legal.{IsLegal};
ghost use Rattle.av_net.specs.Designs.{IsSoundPlan};
ghost use Rattle.av_space.specs.SpaceFaults.{IsSpaceFault};
ghost use Rattle.av_space.specs.Whole.{IsWhole};
ghost use Rattle.av_space.specs.declared.fault.SpaceFault.{SpaceFault as Fault};
ghost use Rattle.av_space.specs.declared.fault.SpaceFault.TheVariants as fault;

mod clocked;
mod plans;

use self::plans::{INCREMENT, INCREMENT_STREAM, MATRIX_VECTOR_STREAM};
use crate::asserts::same;
use crate::build::assert_read_back;
use crate::kernels::{
    DIAGONAL, EDIT_DISTANCE, FILTER, FILTER_RECURRENCE, HORNER, IMAGE_FILTER, INSERTION_SORT,
    LOCAL_ALIGNMENT, MAXIMUM, POLYNOMIAL_PRODUCT, RECTANGULAR_PRODUCT, RECURSIVE_FILTER,
    TRIANGULAR_SOLVE, WINDOW,
};
use av_base::{List, MemSink, Width};
use av_compile::{MappedSystem, mapped};
use av_flat::Reach;
use av_net::flatten;
use av_stream::{Streamed, build_stream, period, write_stream};
use av_testing::size_list;
use av_testing::texts::{
    CONVOLUTION, FORWARD, MATRIX_PRODUCT, MATRIX_VECTOR, NO_POINT, ROW_SUMS, RUNNING_SUMS,
    TILTED_SQUARE,
};
use std::alloc::Global;
use std::process::Abort;
use std::test::Fail;

/// The array of a text with these sizes, in words of 8 bits.
fn array_of(alloc: Global, text: &str, sizes: &[(&str, i64)]) -> Result<MappedSystem, Fail>
    ensures legal { IfOk result (λ array. IsLegal array.timed) }
    ensures whole { IfOk result (λ array. IsWhole array.timed array.cells) }
    ensures within { IfOk result (λ array. (f : Fault)
        → IsSpaceFault array.timed f → f ≡ fault.Memory) }
{
    let sizes = size_list(alloc, sizes)?;
    let width = Width::new(8).ok_or("a width")?;
    let reach = Reach::new(2).ok_or("a box")?;
    if text.len() > 100_000 {
        return Err(Fail::new("long"));
    }
    match mapped(alloc, text.as_bytes(), sizes.as_slice(), width, reach) {
        Ok(array) => Ok(array),
        Err(_) => Err(Fail::new("an array")),
    }
}

// ---- periods

fn period_of(alloc: Global, text: &str, sizes: &[(&str, i64)]) -> Result<u32, Fail> {
    let array = array_of(alloc, text, sizes)?;
    Ok(period(&array.timed, &array.cells))
}

/// A text, its sizes, and the period of its array.
type Row = (&'static str, &'static [(&'static str, i64)], u32);

fn assert_periods(rt: &impl Abort, alloc: Global, rows: &[Row]) -> Result<(), Fail> {
    for (text, sizes, wanted) in rows {
        let found = period_of(alloc, text, sizes)?;
        assert_eq!(rt; found, *wanted, "{text}");
    }
    Ok(())
}

// The greatest number of cycles from the first point of a cell to its last one, as the listings of `examples/` have them.
const FILTERS: &[Row] = &[
    (CONVOLUTION, &[], 3),
    (FILTER, &[("N", 8)], 6),
    (FILTER_RECURRENCE, &[("N", 8)], 6),
    (RECURSIVE_FILTER, &[("N", 8), ("S", 2)], 10),
    (IMAGE_FILTER, &[("N", 3)], 3),
    (WINDOW, &[("N", 4), ("M", 6)], 6),
    (POLYNOMIAL_PRODUCT, &[("N", 2), ("M", 4)], 7),
];

const MATRICES: &[Row] = &[
    (MATRIX_VECTOR, &[("N", 2)], 3),
    (MATRIX_VECTOR, &[("N", 4)], 5),
    (MATRIX_PRODUCT, &[("N", 2)], 2),
    (RECTANGULAR_PRODUCT, &[("N", 2), ("K", 3), ("M", 4)], 4),
    (FORWARD, &[("N", 3)], 5),
    (TRIANGULAR_SOLVE, &[("N", 4), ("M", 3)], 3),
    (ROW_SUMS, &[], 3),
    (TILTED_SQUARE, &[], 5),
];

const WORDS: &[Row] = &[
    (RUNNING_SUMS, &[], 3),
    (MAXIMUM, &[("N", 6)], 6),
    (DIAGONAL, &[], 2),
    (HORNER, &[("N", 3), ("M", 4)], 4),
    (EDIT_DISTANCE, &[("N", 3), ("M", 4)], 5),
    (LOCAL_ALIGNMENT, &[("N", 8), ("M", 9)], 10),
    (INSERTION_SORT, &[("N", 5)], 6),
];

// A cell that computes in every cycle that an array may have, one that computes once, and none.
const ENDS: &[Row] = &[
    (INCREMENT, &[], 3),
    (
        "system t (X : {i|0<=i<=4095} of integer) returns (Y : {i|0<=i<=4095} of integer); let Y = X; tel;",
        &[],
        4096,
    ),
    (
        "system t (X : {i|i=7} of integer) returns (Y : {i|i=7} of integer); let Y = X; tel;",
        &[],
        1,
    ),
    (NO_POINT, &[], 1),
];

#[test]
fn filters_take_the_next_problem_a_period_later(rt: HostRuntime) -> Result<(), Fail> {
    assert_periods(&rt, rt.alloc(), FILTERS)
}

#[test]
fn matrices_take_the_next_problem_a_period_later(rt: HostRuntime) -> Result<(), Fail> {
    assert_periods(&rt, rt.alloc(), MATRICES)
}

#[test]
fn arrays_of_words_take_the_next_problem_a_period_later(rt: HostRuntime) -> Result<(), Fail> {
    assert_periods(&rt, rt.alloc(), WORDS)
}

#[test]
fn a_period_is_the_span_of_a_cell(rt: HostRuntime) -> Result<(), Fail> {
    assert_periods(&rt, rt.alloc(), ENDS)
}

// ---- plans

/// The plan of a text that takes problem after problem.
fn streamed(alloc: Global, text: &str, sizes: &[(&str, i64)]) -> Result<Streamed, Fail>
    ensures { IfOk result (λ found. IsSoundPlan found.plan) }
{
    let array = array_of(alloc, text, sizes)?;
    let found = build_stream(alloc, &array.timed, &array.cells)?;
    Ok(found)
}

// A sink that has the text of the plan.
fn stream_text(alloc: Global, found: &Streamed) -> Result<MemSink, Fail>
    requires { IsSoundPlan found.now.plan }
{
    let mut sink = MemSink::new(alloc, 8192, 8192, List::new(alloc))?;
    write_stream(found, &mut sink)?;
    Ok(sink)
}

// The bytes are read as the plan's flat design: the line of the period is a comment.
fn assert_flat(rt: &impl Abort, alloc: Global, bytes: &[u8], found: &Streamed) -> Result<(), Fail>
    requires { IsSoundPlan found.now.plan }
{
    let design = flatten(alloc, &found.plan)?;
    assert_read_back(rt, alloc, bytes, &design)
}

// The text of the plan is this one, and it is read as the plan's flat design.
fn assert_written(
    rt: &impl Abort,
    alloc: Global,
    found: &Streamed,
    wanted: &str,
) -> Result<(), Fail>
    requires { IsSoundPlan found.now.plan }
{
    let sink = stream_text(alloc, found)?;
    same(rt, str::from_utf8(sink.held()).unwrap_or(""), wanted);
    assert_flat(rt, alloc, sink.held(), found)
}

#[test]
fn without_a_choice_no_phase_is_counted(rt: HostRuntime) -> Result<(), Fail> {
    let found = streamed(rt.alloc(), INCREMENT, &[])?;
    assert_written(&rt, rt.alloc(), &found, INCREMENT_STREAM)
}

#[test]
fn cells_choose_by_the_phase(rt: HostRuntime) -> Result<(), Fail> {
    let found = streamed(rt.alloc(), MATRIX_VECTOR, &[("N", 2)])?;
    assert_written(&rt, rt.alloc(), &found, MATRIX_VECTOR_STREAM)
}
