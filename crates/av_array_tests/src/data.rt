//! Words of inputs, as lines of data tell them.

ghost use Rattle.std.specs.Prelude.{IfOk};
ghost use Rattle.av_flat.specs.Trees.{view_system};
ghost use Rattle.av_flat.specs.Chained.{IsChained};

mod sets;
mod written;

use crate::asserts::same;
use crate::sched::serial_of;
use av_base::{Name, Point};
use av_data::{DataFault, Inputs, read_data};
use av_flat::Flat;
use av_testing::{push_number, push_point, push_words, system_at};
use std::alloc::Global;
use std::fmt::Write;
use std::process::Abort;
use std::test::Fail;

fn push_fault(out: &mut String, fault: &DataFault) -> Result<(), Fail> {
    match fault {
        DataFault::DataSyntax(line) => push_number(out, "syntax", u128::from(*line)),
        DataFault::DataUnknown(line) => push_number(out, "unknown", u128::from(*line)),
        DataFault::DataOutside(line) => push_number(out, "outside", u128::from(*line)),
        DataFault::DataTwice(line) => push_number(out, "twice", u128::from(*line)),
        DataFault::DataMissing(name, point) => push_point(out, "missing", name, point),
        DataFault::Memory => push_words(out, "memory"),
    }
}

/// A domain with one point.
#[derive(Clone, Copy)]
struct DomainPoint {
    domain: &'static str,
    point: &'static [i64],
}

const NOWHERE: DomainPoint = DomainPoint {
    domain: "|",
    point: &[],
};

const ZERO: DomainPoint = DomainPoint {
    domain: "i | i=0",
    point: &[0],
};

const TWO: DomainPoint = DomainPoint {
    domain: "i,j | i=0; j=-1",
    point: &[0, -1],
};

fn text_of(alloc: Global, domain: &str) -> Result<String, Fail> {
    Ok(format!(in alloc;
        "system t (X : {{{domain}}} of integer) returns (Y : {{{domain}}} of integer); let Y = X; tel;"
    )?)
}

fn chained_text(alloc: Global, text: &str, bits: u32) -> Result<Flat, Fail>
    ensures { IfOk result (λ to. IsChained (view_system to)) }
{
    let flat = system_at(alloc, text, &[], bits)?;
    serial_of(alloc, &flat)
}

fn system_of(alloc: Global, domain: &str, bits: u32) -> Result<Flat, Fail>
    ensures { IfOk result (λ to. IsChained (view_system to)) }
{
    let text = text_of(alloc, domain)?;
    chained_text(alloc, text.as_str(), bits)
}

/// What the lines say of the input X of a system with this domain, in words of so many bits.
fn inputs(
    alloc: Global,
    place: DomainPoint,
    lines: &[u8],
    bits: u32,
) -> Result<Result<Inputs, DataFault>, Fail> {
    if lines.len() > 100_000 {
        return Err(Fail::new("long"));
    }
    let chained = system_of(alloc, place.domain, bits)?;
    Ok(read_data(alloc, lines, 1, &chained))
}

fn push_word(out: &mut String, alloc: Global, inputs: &Inputs, point: &[i64]) -> Result<(), Fail> {
    if point.len() > 4 {
        return Err(Fail::new("a point"));
    }
    let name = Name::new(alloc, "X")?;
    match inputs.word(&name, &Point::from_slice(point)) {
        Some(word) => {
            write!(out, "{}", word.bits)?;
            Ok(())
        }
        None => push_words(out, "none"),
    }
}

fn push_found(
    out: &mut String,
    alloc: Global,
    found: Result<Inputs, DataFault>,
    point: &[i64],
) -> Result<(), Fail> {
    match &found {
        Ok(inputs) => push_word(out, alloc, inputs, point),
        Err(fault) => push_fault(out, fault),
    }
}

/// The word of the domain's point, or the fault.
fn answer(alloc: Global, place: DomainPoint, lines: &[u8], bits: u32) -> Result<String, Fail> {
    let found = inputs(alloc, place, lines, bits)?;
    let mut out = String::new(alloc);
    push_found(&mut out, alloc, found, place.point)?;
    Ok(out)
}

fn assert_answer(
    rt: &impl Abort,
    alloc: Global,
    place: DomainPoint,
    lines: &[u8],
    bits: u32,
    wanted: &str,
) -> Result<(), Fail> {
    same(rt, answer(alloc, place, lines, bits)?.as_str(), wanted);
    Ok(())
}

type Row = (DomainPoint, &'static [u8], &'static str);

/// Lines that say words of 8 bits.
const SAID: &[Row] = &[
    (ZERO, b"X(0)=5", "5"),
    (TWO, b"X ( 0 , -1 ) = 255", "255"),
    (TWO, b"\tX(-0,-01)\t=-128--3", "128"),
    (NOWHERE, b"X( )=-1 -- the last", "255"),
    (ZERO, b"X(0)=007", "7"),
    (NOWHERE, b"X()=-0", "0"),
    (ZERO, b"-- first\n\nX(0)=1\n", "1"),
];

#[test]
fn words_that_are_said(rt: HostRuntime) -> Result<(), Fail> {
    for (place, lines, wanted) in SAID {
        assert_answer(&rt, rt.alloc(), *place, lines, 8, wanted)?;
    }
    Ok(())
}

/// Lines of the form that say no word of the system, and lines twice.
const OTHER: &[Row] = &[
    (ZERO, b"X(1,2,3,4,5)=0", "outside 1"),
    (ZERO, b"X(99999999999999999999999)=7", "outside 1"),
    (ZERO, b"X(0,0)=7", "outside 1"),
    (ZERO, b"max_1(0)=1", "unknown 1"),
    (ZERO, b"Y(0)=1", "unknown 1"),
    (ZERO, b"X(0)=1\nX(0)=1", "twice 2"),
    (ZERO, b"", "missing X (0)"),
    (TWO, b"-- none", "missing X (0,-1)"),
];

#[test]
fn words_of_no_point(rt: HostRuntime) -> Result<(), Fail> {
    for (place, lines, wanted) in OTHER {
        assert_answer(&rt, rt.alloc(), *place, lines, 8, wanted)?;
    }
    Ok(())
}

/// Lines that are out of form.
const FAULTY: &[&[u8]] = &[
    b"X",
    b"X(0)",
    b"X(0)=",
    b"X(0)=256",
    b"X(0)=-129",
    b"X(0)=- 5",
    b"X(0 1)=5",
    b"X(0,)=5",
    b"X(,0)=5",
    b"X(0)=5 6",
    b"X(0)=+5",
    b"X 0)=5",
    b"X(0 =5",
    b"X(--0)=5",
    b"X(0)=5\r",
    b"X(a)=5",
    b"max(0)=5",
    b"_X(0)=5",
    b"0X(0)=5",
    b"X(0)=36893488147419103232",
    b"X(0)=-36893488147419103232",
];

#[test]
fn lines_out_of_form(rt: HostRuntime) -> Result<(), Fail> {
    for line in FAULTY {
        assert_answer(&rt, rt.alloc(), ZERO, line, 8, "syntax 1")?;
    }
    Ok(())
}

/// Lines with words of 64 bits.
const WIDE: &[Row] = &[
    (ZERO, b"X(0)=18446744073709551615", "18446744073709551615"),
    (ZERO, b"X(0)=-9223372036854775808", "9223372036854775808"),
    (ZERO, b"X(0)=18446744073709551616", "syntax 1"),
    (ZERO, b"X(0)=-9223372036854775809", "syntax 1"),
];

#[test]
fn wide_words(rt: HostRuntime) -> Result<(), Fail> {
    for (place, lines, wanted) in WIDE {
        assert_answer(&rt, rt.alloc(), *place, lines, 64, wanted)?;
    }
    Ok(())
}

fn word_of(alloc: Global, found: &Inputs, name: &str, point: &[i64]) -> Result<Option<u64>, Fail> {
    if point.len() > 4 {
        return Err(Fail::new("a point"));
    }
    let name = Name::new(alloc, name)?;
    match found.word(&name, &Point::from_slice(point)) {
        Some(word) => Ok(Some(word.bits)),
        None => Ok(None),
    }
}

/// The word of a point of the input with this name, where (0,-1) has the word 9.
fn word(alloc: Global, name: &str, point: &[i64]) -> Result<Option<u64>, Fail> {
    let found = inputs(alloc, TWO, b"X(0,-1)=9", 8)?;
    match &found {
        Ok(found) => word_of(alloc, found, name, point),
        Err(_) => Err(Fail::new("data")),
    }
}

#[test]
fn words_of_points(rt: HostRuntime) -> Result<(), Fail> {
    let rows: [(&str, &[i64], Option<u64>); 4] = [
        ("X", &[0, -1], Some(9)),
        ("X", &[0], None),
        ("X", &[-1, 0], None),
        ("Y", &[0, -1], None),
    ];
    for (name, point, wanted) in rows {
        assert_eq!(rt; word(rt.alloc(), name, point)?, wanted);
    }
    Ok(())
}
