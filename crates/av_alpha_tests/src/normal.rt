//! How many pieces the variables of a text keep, or why it has no normal form.

ghost use Rattle.av_flat.specs.Trees.{view_system};
ghost use Rattle.av_flat.specs.WellFormed.{IsWellFormed};

use crate::asserts::same;
use av_flat::{Flat, Pass};
use av_normal::{Normal, NormalFault, are_contrary};
use av_testing::{push_limit, push_named, push_number, push_words, system};
use std::alloc::Global;
use std::fmt::Write;
use std::process::Abort;
use std::test::Fail;

fn push_fault(out: &mut String, fault: &NormalFault) -> Result<(), Fail> {
    match fault {
        NormalFault::Pieces(n) => push_number(out, "pieces", *n),
        NormalFault::Unbounded(name) => push_named(out, "unbounded", name),
        NormalFault::Limit(quantity, n) => push_limit(out, *quantity, *n),
        NormalFault::Memory => push_words(out, "memory"),
    }
}

fn push_pieces(out: &mut String, normal: &Flat) -> Result<(), Fail> {
    for var in normal.vars.as_slice() {
        write!(
            out,
            "{} {};",
            var.name.as_str(),
            var.pieces.as_slice().len()
        )?;
    }
    Ok(())
}

/// Each variable of the normal form with the number of its kept pieces, or the fault.
fn answer_of(alloc: Global, flat: &Flat) -> Result<String, Fail>
    requires { IsWellFormed (view_system flat.now) }
{
    let mut out = String::new(alloc);
    match Normal.run(alloc, flat) {
        Ok(normal) => push_pieces(&mut out, &normal)?,
        Err(fault) => push_fault(&mut out, &fault)?,
    }
    Ok(out)
}

/// The same of a text.
fn answer(alloc: Global, text: &str) -> Result<String, Fail> {
    let flat = system(alloc, text, &[])?;
    answer_of(alloc, &flat)
}

const ROWS: &[(&str, &str)] = &[
    // A branch for each part of the domain, one of them in no point of it.
    (
        "system t (X : {i|0<=i<=2} of integer) returns (Y : {i|0<=i<=2} of integer); let Y = case {i|i<=0} : X; {i|i>=1} : X + X; {i|i>=3} : X * X; esac; tel;",
        "X 0;Y 2;",
    ),
    // Branches of both operands, of which two pairs meet.
    (
        "system t () returns (Y : {i|0<=i<=2} of integer); let Y = case {i|i<=0} : 1; {i|i>=1} : 2; esac + case {i|i<=0} : 3; {i|i>=1} : 4; esac; tel;",
        "Y 2;",
    ),
    // A domain without a point, and one of a single point.
    (
        "system t () returns (Y : {i|1<=i<=0} of integer; Z : {i|i=0} of integer); let Y = 1; Z = 2; tel;",
        "Y 0;Z 1;",
    ),
    // A restriction stands at the image of a dependence.
    (
        "system t (X : {i|0<=i<=9} of integer) returns (Y : {i|0<=i<=4} of integer); let Y = case ({i|i>=8} : X).(i->2i); ({i|i<=7} : X).(i->2i); esac; tel;",
        "X 0;Y 2;",
    ),
    (
        "system t () returns (Y : {i|1<=i<=0} of integer); let Y = case 1; 2; esac + case 1; 2; esac + case 1; 2; esac + case 1; 2; esac + case 1; 2; esac + case 1; 2; esac + case 1; 2; esac + case 1; 2; esac + case 1; 2; esac; tel;",
        "pieces 512",
    ),
    (
        "system t (X : {i|0<=i} of integer) returns (Y : {i|i=0} of integer); let Y = 1; tel;",
        "unbounded X",
    ),
    (
        "system t (X : {i|0<=i<=2} of integer) returns (Y : {i|i=0} of integer); let Y = (X).(i->1024i).(i->2i); tel;",
        "limit coefficient 2048",
    ),
    (
        "system t (X : {i|0<=i<=2} of integer) returns (Y : {i|i=0} of integer); let Y = (X).(i->i+1048576).(i->i+1).(i->i-1048576); tel;",
        "limit constant 1048577",
    ),
    (
        "system t (X : {i,j|0<=i;0<=j;i+2j<=9;i+3j<=9;i+4j<=9;i+5j<=9;i+6j<=9;i+7j<=9;i+8j<=9;i+9j<=9;i+10j<=9;i+11j<=9;i+12j<=9;i+13j<=9;i+14j<=9;i+15j<=9;i+16j<=9;i+17j<=9;i+18j<=9;i+19j<=9;i+20j<=9} of integer) returns (Y : {|} of integer); let Y = 1; tel;",
        "limit constraints 21",
    ),
    (
        "system t (X : {i|0<=i<=4096} of integer) returns (Y : {i|i=0} of integer); let Y = 1; tel;",
        "limit coordinate 4096",
    ),
    (
        "system t (X : {i,j|0<=i<=255;0<=j<=256} of integer) returns (Y : {i|i=0} of integer); let Y = 1; tel;",
        "limit box 65792",
    ),
];

fn assert_answer(rt: &impl Abort, alloc: Global, text: &str, wanted: &str) -> Result<(), Fail> {
    same(rt, answer(alloc, text)?.as_str(), wanted);
    Ok(())
}

#[test]
fn pieces_and_faults(rt: HostRuntime) -> Result<(), Fail> {
    for (text, wanted) in ROWS {
        assert_answer(&rt, rt.alloc(), text, wanted)?;
    }
    Ok(())
}

// Whether two rows of a domain cannot hold at once.
fn has_contrary_rows(alloc: Global, domain: &str) -> Result<bool, Fail> {
    let text = format!(in alloc;
        "system t () returns (Y : {{i,j | {domain}}} of integer); let Y = 1; tel;"
    )?;
    let flat = system(alloc, text.as_str(), &[])?;
    let var = flat.vars.as_slice().first().ok_or("no variable")?;
    Ok(are_contrary(var.domain.rows.as_slice()))
}

#[test]
fn contrary_rows(rt: HostRuntime) -> Result<(), Fail> {
    for (domain, wanted) in [
        ("0<=i<=3; 0<=j<=3", false),
        ("1<=i<=0; 0<=j<=3", true),
        ("0<=i<=3; 0<=j<=3; i+j<=2; i+j>=3", true),
        ("0<=i<=3; 0<=j<=3; i+j<=2; i+j>=2", false),
        // without a point, but each two rows have a common one
        ("0<=i<=3; 0<=j<=3; i+j>=9", false),
    ] {
        assert_eq!(rt; has_contrary_rows(rt.alloc(), domain)?, wanted);
    }
    Ok(())
}
