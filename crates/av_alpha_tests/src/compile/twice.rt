//! The pass to the normal form after itself.

ghost use Rattle.std.specs.Prelude.{IfOk};
ghost use Rattle.av_flat.specs.Trees.{view_system};
ghost use Rattle.av_flat.specs.WellFormed.{IsWellFormed};

use super::{MATRIX_VECTOR, STEPS};
use crate::asserts::same;
use av_flat::{Flat, Pass, Then};
use av_normal::Normal;
use av_testing::system;
use std::alloc::Global;
use std::fmt::Write;
use std::process::Abort;
use std::test::Fail;

const N2: &[(&str, i64)] = &[("N", 2)];

/// The matrix-vector product for N = 2, in words of 8 bits.
fn matrix_vector(alloc: Global) -> Result<Flat, Fail>
    ensures { IfOk result (λ flat. IsWellFormed (view_system flat)) }
{
    let text = format!(in alloc; "{MATRIX_VECTOR}{STEPS} tel;")?;
    system(alloc, text.as_str(), N2)
}

fn push_kinds(out: &mut String, flat: &Flat) -> Result<(), Fail> {
    for var in flat.vars.as_slice() {
        write!(out, "{:?} {};", var.kind, var.pieces.as_slice().len())?;
    }
    Ok(())
}

/// The kinds of the variables and the numbers of their pieces.
fn assert_kinds(rt: &impl Abort, alloc: Global, flat: &Flat, wanted: &str) -> Result<(), Fail> {
    let mut out = String::new(alloc);
    push_kinds(&mut out, flat)?;
    same(rt, out.as_str(), wanted);
    Ok(())
}

/// Both are shown as one text.
fn assert_same(rt: &impl Abort, alloc: Global, once: &Flat, twice: &Flat) -> Result<(), Fail> {
    let first = format!(in alloc; "{once:?}")?;
    let second = format!(in alloc; "{twice:?}")?;
    same(rt, first.as_str(), second.as_str());
    Ok(())
}

/// The normal form after the normal form.
fn normal_twice(alloc: Global, flat: &Flat) -> Result<Flat, Fail>
    requires { IsWellFormed (view_system flat.now) }
{
    let twice = Then {
        first: Normal,
        second: Normal,
    };
    match twice.run(alloc, flat) {
        Ok(twice) => Ok(twice),
        Err(_) => Err(Fail::new("a normal form of the normal form")),
    }
}

fn assert_twice(rt: &impl Abort, alloc: Global, flat: &Flat, once: &Flat) -> Result<(), Fail>
    requires { IsWellFormed (view_system flat.now) }
{
    assert_kinds(rt, alloc, once, "Input 0;Input 0;Output 1;Local 2;")?;
    let twice = normal_twice(alloc, flat)?;
    assert_same(rt, alloc, once, &twice)
}

#[test]
fn the_normal_form_is_its_own_normal_form(rt: HostRuntime) -> Result<(), Fail> {
    let alloc = rt.alloc();
    let flat = matrix_vector(alloc)?;
    match Normal.run(alloc, &flat) {
        Ok(once) => assert_twice(&rt, alloc, &flat, &once),
        Err(_) => Err(Fail::new("a normal form")),
    }
}
