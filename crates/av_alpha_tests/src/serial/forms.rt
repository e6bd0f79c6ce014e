//! Serial forms, point by point.

ghost use Rattle.std.specs.Prelude.{IfOk};
ghost use Rattle.av_flat.specs.Trees.{view_system};
ghost use Rattle.av_flat.specs.Kept.{IsKept};

use super::show::{push_equation, push_points, push_variables};
use super::texts::{GAP, LARGEST_BOX, NESTED, SEVERAL, SUMS, TIES};
use crate::asserts::same;
use av_flat::{Flat, Pass};
use av_normal::Normal;
use av_serial::Serial;
use av_testing::system_with;
use av_testing::texts::{CONVOLUTION, FORWARD, LEAST, MATRIX_PRODUCT};
use std::alloc::Global;
use std::process::Abort;
use std::test::Fail;

/// A variable, one of its points and the right side there.
type Row = (&'static str, &'static [i64], &'static str);

/// The normal form of a text with N, where that is not 0.
pub(super) fn normal_form(alloc: Global, text: &str, n: i64) -> Result<Flat, Fail>
    ensures { IfOk result (λ to. IsKept (view_system to)) }
{
    let flat = system_with(alloc, text, n)?;
    match Normal.run(alloc, &flat) {
        Ok(normal) => Ok(normal),
        Err(_) => Err(Fail::new("normal")),
    }
}

fn serial_form(alloc: Global, text: &str, n: i64) -> Result<Flat, Fail> {
    let normal = normal_form(alloc, text, n)?;
    match Serial.run(alloc, &normal) {
        Ok(serial) => Ok(serial),
        Err(_) => Err(Fail::new("serial")),
    }
}

/// A text with N, its variables where they are told, points of variables, and rows.
struct TextCase {
    text: &'static str,
    n: i64,
    variables: &'static str,
    points: &'static [(&'static str, &'static str)],
    rows: &'static [Row],
}

fn assert_variables(
    rt: &impl Abort,
    alloc: Global,
    serial: &Flat,
    wanted: &str,
) -> Result<(), Fail> {
    let mut out = String::new(alloc);
    push_variables(&mut out, serial.vars.as_slice())?;
    same(rt, out.as_str(), wanted);
    Ok(())
}

fn assert_points(
    rt: &impl Abort,
    alloc: Global,
    serial: &Flat,
    name: &str,
    wanted: &str,
) -> Result<(), Fail> {
    let mut out = String::new(alloc);
    push_points(&mut out, serial.vars.as_slice(), name)?;
    same(rt, out.as_str(), wanted);
    Ok(())
}

fn assert_row(rt: &impl Abort, alloc: Global, serial: &Flat, row: &Row) -> Result<(), Fail> {
    let (name, z, wanted) = row;
    let mut out = String::new(alloc);
    push_equation(&mut out, serial.vars.as_slice(), name, z)?;
    assert_eq!(rt; out.as_str(), *wanted, "at {name} {z:?}");
    Ok(())
}

fn assert_serial(
    rt: &impl Abort,
    alloc: Global,
    form: &TextCase,
    serial: &Flat,
) -> Result<(), Fail> {
    if !form.variables.is_empty() {
        assert_variables(rt, alloc, serial, form.variables)?;
    }
    for (name, wanted) in form.points {
        assert_points(rt, alloc, serial, name, wanted)?;
    }
    for row in form.rows {
        assert_row(rt, alloc, serial, row)?;
    }
    Ok(())
}

fn assert_form(rt: &impl Abort, alloc: Global, form: &TextCase) -> Result<(), Fail> {
    let serial = serial_form(alloc, form.text, form.n)?;
    assert_serial(rt, alloc, form, &serial)
}

const OF_PRODUCT: TextCase = TextCase {
    text: MATRIX_PRODUCT,
    n: 2,
    variables: "input A, input B, output C, partial C#1",
    points: &[(
        "C#1",
        "(1,1,1)(1,1,2)(1,2,1)(1,2,2)(2,1,1)(2,1,2)(2,2,1)(2,2,2)",
    )],
    rows: &[
        ("C", &[1, 1], "C#1(1,1,2)"),
        ("C", &[2, 1], "C#1(2,1,2)"),
        ("C#1", &[1, 2, 1], "(0 + (A(1,1) * B(1,2)))"),
        ("C#1", &[2, 1, 2], "(C#1(2,1,1) + (A(2,2) * B(2,1)))"),
    ],
};

#[test]
fn the_product_of_matrices(rt: HostRuntime) -> Result<(), Fail> {
    assert_form(&rt, rt.alloc(), &OF_PRODUCT)
}

const OF_CONVOLUTION: TextCase = TextCase {
    text: CONVOLUTION,
    n: 0,
    variables: "input W, input X, output Y, partial Y#1",
    points: &[("Y#1", "(2,0)(2,1)(2,2)(3,0)(3,1)(3,2)(4,0)(4,1)(4,2)")],
    rows: &[
        ("Y", &[2], "Y#1(2,2)"),
        ("Y", &[4], "Y#1(4,2)"),
        ("Y#1", &[3, 0], "(0 + (W(0) * X(3)))"),
        ("Y#1", &[4, 2], "(Y#1(4,1) + (W(2) * X(2)))"),
    ],
};

#[test]
fn the_convolution(rt: HostRuntime) -> Result<(), Fail> {
    assert_form(&rt, rt.alloc(), &OF_CONVOLUTION)
}

const OF_FORWARD: TextCase = TextCase {
    text: FORWARD,
    n: 3,
    variables: "input L, input b, output x, partial x#1",
    points: &[("x#1", "(2,1)(3,1)(3,2)")],
    rows: &[
        ("x", &[1], "(b(1) - 0)"),
        ("x", &[2], "(b(2) - x#1(2,1))"),
        ("x", &[3], "(b(3) - x#1(3,2))"),
        ("x#1", &[3, 1], "(0 + (L(3,1) * x(1)))"),
        ("x#1", &[3, 2], "(x#1(3,1) + (L(3,2) * x(2)))"),
    ],
};

#[test]
fn forward_substitution(rt: HostRuntime) -> Result<(), Fail> {
    assert_form(&rt, rt.alloc(), &OF_FORWARD)
}

const OF_SUMS: TextCase = TextCase {
    text: SUMS,
    n: 0,
    variables: "input X, output P",
    points: &[],
    rows: &[("P", &[0], "X(0)"), ("P", &[1], "(P(0) + X(1))")],
};

#[test]
fn running_sums_have_no_reduction(rt: HostRuntime) -> Result<(), Fail> {
    assert_form(&rt, rt.alloc(), &OF_SUMS)
}

const OF_LEAST: TextCase = TextCase {
    text: LEAST,
    n: 0,
    variables: "",
    points: &[("Y#1", "(1,0)(2,0)(2,1)")],
    rows: &[
        ("Y", &[0], "127"),
        ("Y", &[1], "Y#1(1,0)"),
        ("Y", &[2], "Y#1(2,1)"),
        ("Y#1", &[1, 0], "(127 min X(0))"),
        ("Y#1", &[2, 1], "(Y#1(2,0) min X(1))"),
    ],
};

#[test]
fn the_least_of_none_is_the_identity(rt: HostRuntime) -> Result<(), Fail> {
    assert_form(&rt, rt.alloc(), &OF_LEAST)
}

const OF_NESTED: TextCase = TextCase {
    text: NESTED,
    n: 0,
    variables: "input A, output Y, partial Y#1, partial Y#2",
    points: &[
        ("Y#1", "(0,0)(0,1)(0,2)(1,0)(1,1)(1,2)"),
        // the inner one's points (i,j,k) are those of its own three indices, of which it keeps (j,i)
        (
            "Y#2",
            "(0,0,0)(0,0,1)(0,1,0)(0,1,1)(1,0,0)(1,0,1)(1,1,0)(1,1,1)(2,0,0)(2,0,1)(2,1,0)(2,1,1)",
        ),
    ],
    rows: &[
        ("Y", &[1], "(Y#1(1,2) + 1)"),
        ("Y#1", &[1, 0], "(0 + Y#2(0,1,1))"),
        ("Y#1", &[1, 2], "(Y#1(1,1) + Y#2(2,1,1))"),
        ("Y#2", &[2, 1, 0], "(128 max A(1,2,0))"),
        ("Y#2", &[2, 1, 1], "(Y#2(2,1,0) max A(1,2,1))"),
    ],
};

#[test]
fn outer_before_inner_and_none_without_a_point(rt: HostRuntime) -> Result<(), Fail> {
    assert_form(&rt, rt.alloc(), &OF_NESTED)
}

const OF_TIES: TextCase = TextCase {
    text: TIES,
    n: 0,
    variables: "",
    points: &[("Y#1", "(0,0)(1,0)(1,1)(2,0)(2,1)(2,2)(3,0)(3,1)(4,0)")],
    rows: &[
        ("Y", &[0], "Y#1(0,0)"),
        ("Y", &[1], "Y#1(1,1)"),
        ("Y", &[2], "Y#1(2,2)"),
        ("Y", &[3], "Y#1(3,1)"),
        ("Y", &[4], "Y#1(4,0)"),
        ("Y#1", &[2, 0], "(128 max X(0))"),
    ],
};

#[test]
fn equal_bounds_are_read_once(rt: HostRuntime) -> Result<(), Fail> {
    assert_form(&rt, rt.alloc(), &OF_TIES)
}

const OF_GAP: TextCase = TextCase {
    text: GAP,
    n: 0,
    variables: "",
    points: &[("Y#1", "(0,0,0)(1,0,0)(1,0,1)(1,1,0)")],
    rows: &[
        ("Y", &[0, 0], "Y#1(0,0,0)"),
        ("Y", &[0, 1], "1"),
        ("Y", &[1, 0], "Y#1(1,0,1)"),
        ("Y", &[1, 1], "Y#1(1,1,0)"),
        ("Y#1", &[1, 1, 0], "(1 * X(0))"),
        ("Y#1", &[1, 0, 1], "(Y#1(1,0,0) * X(1))"),
    ],
};

#[test]
fn an_empty_fibre_between_others(rt: HostRuntime) -> Result<(), Fail> {
    assert_form(&rt, rt.alloc(), &OF_GAP)
}

const OF_SEVERAL: TextCase = TextCase {
    text: SEVERAL,
    n: 0,
    variables: "input X, output Y, local s, partial Y#1, partial Y#2, partial s#1",
    points: &[
        ("Y#1", "(0,0)(0,1)"),
        ("Y#2", "(1,0)(1,1)"),
        ("s#1", "(0,0)(1,0)(1,1)"),
    ],
    rows: &[
        ("Y", &[0], "Y#1(0,1)"),
        ("Y", &[1], "(Y#2(1,1) * s(1))"),
        ("s", &[0], "s#1(0,0)"),
        ("Y#1", &[0, 1], "(Y#1(0,0) max (X(1) + s(1)))"),
    ],
};

#[test]
fn each_equation_numbers_its_own_chains(rt: HostRuntime) -> Result<(), Fail> {
    assert_form(&rt, rt.alloc(), &OF_SEVERAL)
}

const OF_LARGEST_BOX: TextCase = TextCase {
    text: LARGEST_BOX,
    n: 0,
    variables: "",
    points: &[],
    rows: &[("Y", &[7], "Y#1(7,255)")],
};

#[test]
fn a_box_of_65536_points(rt: HostRuntime) -> Result<(), Fail> {
    assert_form(&rt, rt.alloc(), &OF_LARGEST_BOX)
}
