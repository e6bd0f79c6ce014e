//! Faults of reductions, each the first one.

use super::forms::normal_form;
use super::texts::{
    ENDLESS, ENDLESS_BEFORE_STEEP, LARGE_COORDINATE, LARGER_BOX, LARGEST_BOX, STEEP,
};
use crate::asserts::same;
use av_flat::{Flat, Kind, Pass};
use av_serial::{Serial, SerialFault};
use av_testing::{push_limit, push_named, push_number, push_words};
use std::alloc::Global;
use std::process::Abort;
use std::test::Fail;

fn push_fault(out: &mut String, fault: &SerialFault) -> Result<(), Fail> {
    match fault {
        SerialFault::NonUnit(name) => push_named(out, "non unit", name),
        SerialFault::Unbounded(name) => push_named(out, "unbounded", name),
        SerialFault::Limit(quantity, n) => push_limit(out, *quantity, *n),
        SerialFault::Memory => push_words(out, "memory"),
    }
}

/// How many chains a text has, or why it has no serial form.
fn answer(alloc: Global, text: &str) -> Result<String, Fail> {
    let mut out = String::new(alloc);
    let normal = normal_form(alloc, text, 0)?;
    match Serial.run(alloc, &normal) {
        Ok(serial) => push_number(&mut out, "chains", chains(&serial))?,
        Err(fault) => push_fault(&mut out, &fault)?,
    }
    Ok(out)
}

/// How many partial variables a system has.
fn chains(serial: &Flat) -> u128 {
    let mut many: u128 = 0;
    for var in serial.vars.as_slice() {
        if var.kind == Kind::Partial {
            many = many.wrapping_add(1);
        }
    }
    many
}

fn assert_answer(rt: &impl Abort, alloc: Global, text: &str, wanted: &str) -> Result<(), Fail> {
    same(rt, answer(alloc, text)?.as_str(), wanted);
    Ok(())
}

#[test]
fn the_first_fault_of_reductions(rt: HostRuntime) -> Result<(), Fail> {
    for (text, wanted) in [
        (STEEP, "non unit Y"),
        (ENDLESS, "unbounded Y"),
        (ENDLESS_BEFORE_STEEP, "unbounded Y"),
        (LARGEST_BOX, "chains 1"),
        (LARGER_BOX, "limit box 65538"),
        (LARGE_COORDINATE, "limit coordinate 4096"),
    ] {
        assert_answer(&rt, rt.alloc(), text, wanted)?;
    }
    Ok(())
}

/// An equation that is the sum of so many reductions, and of one without a point.
fn many_reductions(alloc: Global, count: u32) -> Result<String, Fail> {
    let mut text = String::from_str(
        alloc,
        "system t (X : {i | 0<=i<=1} of integer) returns (Y : {i | 0<=i<=1} of integer); let Y[i] = reduce(+, (i,j -> i), {i,j | 1<=j<=0} : X[j])",
    )?;
    for _ in 0..count {
        text.push_str(" + reduce(+, (i,j -> i), X[j])")?;
    }
    text.push_str("; tel;")?;
    Ok(text)
}

#[test]
fn reductions_above_the_limit(rt: HostRuntime) -> Result<(), Fail> {
    let alloc = rt.alloc();
    for (count, wanted) in [(16, "chains 16"), (17, "limit reductions 17")] {
        let text = many_reductions(alloc, count)?;
        assert_answer(&rt, alloc, text.as_str(), wanted)?;
    }
    Ok(())
}
