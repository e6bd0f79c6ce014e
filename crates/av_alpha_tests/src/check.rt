//! The first point of a system of rectangles that has no word, or two.

use crate::asserts::same;
use av_check::{CheckFault, check, check_normal};
use av_flat::{Flat, Pass};
use av_normal::Normal;
use av_testing::{push_point, push_words, system};
use std::alloc::Global;
use std::process::Abort;
use std::test::Fail;

fn push_fault(out: &mut String, fault: &CheckFault) -> Result<(), Fail> {
    match fault {
        CheckFault::Uncovered {
            variable,
            point,
            ..
        } => push_point(out, "uncovered", variable, point),
        CheckFault::TwoBranches { variable, point } => push_point(
            out,
            "two branches",
            variable,
            point,
        ),
        CheckFault::Memory => push_words(out, "memory"),
    }
}

// What a check says.
fn verdict(alloc: Global, answer: Result<(), CheckFault>) -> Result<String, Fail> {
    let mut out = String::new(alloc);
    match answer {
        Ok(()) => push_words(&mut out, "ok")?,
        Err(fault) => push_fault(&mut out, &fault)?,
    }
    Ok(out)
}

// What both checks say of a text: the one that makes its normal form, and the one that is given it.
fn verdicts(alloc: Global, text: &str) -> Result<(String, String), Fail> {
    let flat = system(alloc, text, &[])?;
    match Normal.run(alloc, &flat) {
        Ok(normal) => Ok((
            verdict(alloc, check(alloc, &flat))?,
            verdict(alloc, check_normal(alloc, &flat, &normal))?,
        )),
        Err(_) => Err(Fail::new("normal")),
    }
}

fn assert_verdict(
    rt: &impl Abort,
    alloc: Global,
    domain: &str,
    cases: &str,
    wanted: &str,
) -> Result<(), Fail> {
    let text = format!(in alloc;
        "system t () returns (Y : {{i,j | {domain}}} of integer); let Y[i,j] = case {cases} esac; tel;"
    )?;
    let (made, given) = verdicts(alloc, text.as_str())?;
    same(rt, made.as_str(), wanted);
    same(rt, given.as_str(), wanted);
    Ok(())
}

const GRID: &str = "1<=i<=3; 0<=j<=3";

const SQUARE: &str = "0<=i<=255; 0<=j<=255";

/// A domain, its branches, and what is said.
const ROWS: &[(&str, &str, &str)] = &[
    // the running sums of a matrix-vector product: the first column by itself
    (GRID, "{| j=0} : 0; {| 1<=j} : 1;", "ok"),
    // without the first column nobody has (1,0)
    (GRID, "{| 1<=j} : 1;", "uncovered Y (1,0)"),
    // one column twice
    (GRID, "{| j<=2} : 0; {| 2<=j} : 1;", "two branches Y (1,2)"),
    // an overlap before a gap, and a gap before an overlap
    (GRID, "{| j<=2} : 0; {| j=2} : 1;", "two branches Y (1,2)"),
    (GRID, "{| 1<=j} : 0; {| i=3; j=3} : 1;", "uncovered Y (1,0)"),
    // the same set twice, and what is outside of the domain
    (
        GRID,
        "{| 0<=j} : 0; {| 2<=i<=9; 1<=j<=9} : 1;",
        "two branches Y (2,1)",
    ),
    (GRID, "{| 0<=i<=9; -3<=j<=9} : 0;", "ok"),
    // large domains
    (SQUARE, "{| 0<=i} : 0;", "ok"),
    (
        SQUARE,
        "{| i<=254} : 0; {| i=255; j<=254} : 1;",
        "uncovered Y (255,255)",
    ),
    (
        SQUARE,
        "{| 0<=i} : 0; {| i=255; j=255} : 1;",
        "two branches Y (255,255)",
    ),
];

#[test]
fn the_least_wrong_point(rt: HostRuntime) -> Result<(), Fail> {
    for (domain, cases, wanted) in ROWS {
        assert_verdict(&rt, rt.alloc(), domain, cases, wanted)?;
    }
    Ok(())
}
