ghost use Rattle.std.specs.Prelude.{◌<◌, length};
ghost use Rattle.av_names.specs.Texts.{AreSmall};

use crate::answers::{Answers, TextRow, assert_text, assert_texts};
use av_base::Width;
use av_flat::Flat;
use av_lex::{LexFault, lex};
use av_names::{NameFault, Size, resolve};
use av_parse::{ParseFault, parse};
use av_testing::texts::MATRIX_VECTOR;
use av_testing::{push_both, push_limit, push_named, push_place, push_words};
use std::alloc::Global;
use std::fmt::Write;
use std::test::Fail;

const N2: &[(&str, i64)] = &[("N", 2)];

const SMALL: &str = "system t :{N | N>1}
  (A : {i | 1<=i<=N} of integer)
  returns (Y : {i | 1<=i<=N} of integer);
let ";

const TWO_OUTPUTS: &str = "system t :{N | N>1}
  (A : {i | 1<=i<=N} of integer)
  returns (Y,Z : {i | 1<=i<=N} of integer);
let ";

/// Whole texts.
const TEXTS: &[TextRow] = &[
    ("system $", N2, "bad byte 1:8"),
    (
        "system t :{N} (A : {i} of integer) returns (Y : {i} of integer);\nlet Y[i] = A[i]; Y[i] = 1; tel;",
        N2,
        "second equation Y 2:18",
    ),
    (
        "system t :{N,N}\n  (A : {i} of integer) returns (Y : {i} of integer);\nlet Y = A; tel;",
        N2,
        "repeated N 1:11",
    ),
    (
        "system t :{N}\n  (N : {i} of integer) returns (Y : {i} of integer);\nlet Y = 1; tel;",
        N2,
        "repeated N 2:4",
    ),
    (
        "system t :{N}\n  (A : {i} of integer) returns (Y,A : {i} of integer);\nlet Y = 1; A = 2; tel;",
        N2,
        "repeated A 2:35",
    ),
    (
        "system t :{N}\n  (A : {i,j,j,i} of integer) returns (Y : {i} of integer);\nlet Y = 1; tel;",
        N2,
        "repeated i 2:8",
    ),
    (
        "system t :{N | N>k}\n  (A : {i} of integer) returns (Y : {i} of integer);\nlet Y = A; tel;",
        N2,
        "unknown k 1:18",
    ),
    (
        "system t :{N}\n  (A : {i | i<=j} of integer) returns (Y : {i} of integer);\nlet Y = A; tel;",
        N2,
        "unknown j 2:16",
    ),
    (
        "system t :{N}\n  (A : {i} of integer) returns (Y : {i} of integer);\nvar s : {i} of integer;\nlet Y = A; tel;",
        N2,
        "no equation s 3:5",
    ),
    (
        "system t :{N}\n  (A : {i,j} of integer) returns (Y : {i} of integer);\nlet Y = A; tel;",
        N2,
        "arity 3:9",
    ),
    (MATRIX_VECTOR, &[], "size missing N"),
    (MATRIX_VECTOR, &[("N", 1)], "size outside"),
    (MATRIX_VECTOR, &[("N", 2), ("N", 2)], "size twice N"),
    (MATRIX_VECTOR, &[("M", 2), ("N", 2)], "size unknown M"),
    (MATRIX_VECTOR, N2, "ok 4"),
];

/// Equations of the small system: each rule alone.
const ALONE: &[TextRow] = &[
    ("Y[i] = 18446744073709551616;", N2, "number 4:12"),
    ("Y[i] = A[i] A[i];", N2, "syntax 4:17"),
    ("Y[N] = 1;", N2, "repeated N 4:5"),
    ("Y = A.(N->N);", N2, "repeated N 4:11"),
    ("Y = {i,i} : 1;", N2, "repeated i 4:9"),
    ("Y = A + reduce(+, (i,k,i->i), 1);", N2, "repeated i 4:23"),
    ("Y = A;", &[("N", 2), ("N", 2)], "size twice N"),
    ("Y = A;", &[("M", 2), ("N", 2)], "size unknown M"),
    ("Y = A;", &[], "size missing N"),
    ("Y = A; Z = 1;", N2, "unknown Z 4:12"),
    ("Y[i] = A[i] + B[i];", N2, "unknown B 4:19"),
    ("Y[j] = A[i];", N2, "unknown i 4:14"),
    ("Y[i] = A.(j->i);", N2, "unknown i 4:18"),
    ("Y[i] = {j | j<=i} : 1;", N2, "unknown i 4:20"),
    ("Y[i] = {| j<=N} : 1;", N2, "unknown j 4:15"),
    ("Y[i] = (A[i] + A[i]).(i->i);", N2, "unknown i 4:15"),
    ("Y[i] = 1.(j->k);", N2, "unknown k 4:18"),
    ("Y[i] = reduce(+, (j,k->j), A[i]);", N2, "unknown i 4:34"),
    ("Y = A; A = 1;", N2, "defines input A 4:12"),
    ("Y[i] = A[i]; Y[i] = 1;", N2, "second equation Y 4:18"),
    ("Y[i,j] = A[i];", N2, "arity 4:5"),
    ("Y[i] = A[i,i];", N2, "arity 4:12"),
    ("Y = A.(i,j->i);", N2, "arity 4:11"),
    ("Y = A.(i->i,i);", N2, "arity 4:11"),
    ("Y = 1.(i,j->i);", N2, "arity 4:11"),
    ("Y = {i,j | i=j} : A;", N2, "arity 4:9"),
    ("Y = (A + A).(i,j->i);", N2, "arity 4:17"),
    ("Y = reduce(+, (i,k->i,k), 1);", N2, "arity 4:19"),
    ("Y = reduce(+, (i,k->i+0), A[k]);", N2, "projection 4:19"),
    ("Y = reduce(+, (i,k->2i), A[k]);", N2, "projection 4:19"),
    ("Y = reduce(+, (i,k,l->i), A[k]);", N2, "projection 4:19"),
    (
        "Y = reduce(max, (i,k->i), case A[k]; esac);",
        N2,
        "case in reduce 4:31",
    ),
    (
        "Y = (1 + reduce(+, (i,k->i), A[k])).(i->i);",
        N2,
        "dependence on reduce 4:41",
    ),
    ("Y = A;", &[("N", 1)], "size outside"),
    ("Y[i] = A[i] + 1.(i->i,i,i);", N2, "ok 2"),
    (
        "Y = reduce(+, (i,k->i), A[k]) + reduce(max, (j,k->1k), 7);",
        N2,
        "ok 2",
    ),
];

/// Equations of the system with two outputs: the first of two rules, in either order.
const TOGETHER: &[TextRow] = &[
    ("Y = A.(i,i->i); Z = C;", N2, "repeated i 4:11"),
    ("Z = C; Y = A.(i,i->i);", N2, "repeated i 4:18"),
    (
        "Y = {i,i} : 1; Z = 1;",
        &[("N", 2), ("N", 2)],
        "repeated i 4:9",
    ),
    (
        "Y = 1; Z = 2;",
        &[("M", 2), ("N", 2), ("N", 2)],
        "size twice N",
    ),
    (
        "Y = 1; Z = 2;",
        &[("N", 2), ("N", 2), ("M", 2)],
        "size twice N",
    ),
    ("Y = 1; Z = 2;", &[("M", 2)], "size unknown M"),
    ("Y = C; Z = 2;", &[], "size missing N"),
    ("A = 1; Y = 2; Z = C;", N2, "unknown C 4:23"),
    ("Y = C; A = 1; Z = 2;", N2, "unknown C 4:9"),
    ("A = 1; Y = 1; Y = 2; Z = 3;", N2, "defines input A 4:5"),
    ("Y = 1; Y = 2; A = 1; Z = 3;", N2, "defines input A 4:19"),
    ("Y = 1; Y = 2;", N2, "second equation Y 4:12"),
    ("Z = 1; Z = 2;", N2, "second equation Z 4:12"),
    ("Y = A[i,i];", N2, "no equation Z 3:14"),
    ("Y = A[i,i]; Z = reduce(+, (i,k->i+0), 1);", N2, "arity 4:9"),
    (
        "Z = reduce(+, (i,k->i+0), 1); Y = A[i,i];",
        N2,
        "arity 4:39",
    ),
    (
        "Y = reduce(+, (i,k->i+0), 1); Z = reduce(+, (i,k->i), case 1; esac);",
        N2,
        "projection 4:19",
    ),
    (
        "Z = reduce(+, (i,k->i), case 1; esac); Y = reduce(+, (i,k->i+0), 1);",
        N2,
        "projection 4:58",
    ),
    (
        "Y = reduce(+, (i,k->i), case 1; esac); Z = (reduce(+, (i,k->i), 1)).(i->i);",
        N2,
        "case in reduce 4:29",
    ),
    (
        "Z = (reduce(+, (i,k->i), 1)).(i->i); Y = reduce(+, (i,k->i), case 1; esac);",
        N2,
        "case in reduce 4:66",
    ),
    (
        "Y = (reduce(+, (i,k->i), 1)).(i->i); Z = A[2000i];",
        N2,
        "dependence on reduce 4:34",
    ),
    (
        "Z = A[2000i]; Y = (reduce(+, (i,k->i), 1)).(i->i);",
        N2,
        "dependence on reduce 4:48",
    ),
    (
        "Y = A[2000i]; Z = 1;",
        &[("N", 1)],
        "limit coefficient 2000",
    ),
];

/// Declarations of inputs: which widths they may give, and what is answered first.
const WIDTHS: &[TextRow] = &[
    (
        "A : {} of word[1]; B : {} of word[64]) returns (Y : {} of word[8]); let Y = B;",
        N2,
        "ok 3",
    ),
    (
        "A : {} of word[0]) returns (Y : {} of word[65]); let Y = A;",
        N2,
        "width A 2:3",
    ),
    (
        "A : {} of word[8]) returns (Y : {} of word[65]; Z : {} of word[0]); let Y = A; Z = A;",
        N2,
        "width Y 2:31",
    ),
    (
        "A : {} of word[18446744073709551615]) returns (Y : {} of word[65]); let Y = A;",
        N2,
        "width A 2:3",
    ),
    (
        "A : {} of word[65]) returns (Y : {} of integer); let Y = 1.(->N-1048579);",
        N2,
        "limit constant 1048577",
    ),
    (
        "A : {} of word[65]) returns (Y : {} of integer); let Y = A;",
        &[("N", 1)],
        "width A 2:3",
    ),
    (
        "A : {} of integer) returns (Y : {} of integer); let Y = A;",
        &[("N", 1)],
        "size outside",
    ),
];

/// Equations of the small system: each limit, and one above it.
const LIMITS: &[TextRow] = &[
    ("Y = 1.(i->i,i,i,i);", N2, "ok 2"),
    ("Y = 1.(i->i,i,i,i,i);", N2, "limit indices 5"),
    ("Y = A[1024i];", N2, "ok 2"),
    ("Y = A[1025i];", N2, "limit coefficient 1025"),
    ("Y = A[1000i - 2030i + 6i];", N2, "ok 2"),
    ("Y = A[-2000i + 975i];", N2, "limit coefficient 1025"),
    (
        "Y = {| 600i <= 425 - 425i} : A;",
        N2,
        "limit coefficient 1025",
    ),
    ("Y = {| 600i <= 425 - 424i} : A;", N2, "ok 2"),
    ("Y = A[1048576];", N2, "ok 2"),
    ("Y = A[1048577];", N2, "limit constant 1048577"),
    ("Y = A[1048574 + N];", N2, "ok 2"),
    ("Y = A[1048575 + N];", N2, "limit constant 1048577"),
    ("Y = {| i < 1048575} : A;", N2, "ok 2"),
    ("Y = {| i < -1048575} : A;", N2, "ok 2"),
    ("Y = {| i < -1048576} : A;", N2, "limit constant 1048577"),
    (
        "Y = A[18446744073709551615 + 18446744073709551615];",
        N2,
        "limit constant 36893488147419103230",
    ),
    ("Y = A[2000000] + A[1025i];", N2, "limit coefficient 1025"),
];

/// The numbers of indices of a variable, of an equation's brackets, of a map's names and of a reduction's body: each at its limit, and one
/// above.
const INDICES: &[TextRow] = &[
    (
        "system t (A : {i,j,k,l} of integer) returns (Y : {i} of integer); let Y = 1;",
        &[],
        "ok 2",
    ),
    (
        "system t (A : {i,j,k,l,m} of integer) returns (Y : {i} of integer); let Y = 1;",
        &[],
        "limit indices 5",
    ),
    (
        "system t () returns (Y : {i,j,k,l} of integer); let Y[a,b,c,d] = 1;",
        &[],
        "ok 1",
    ),
    (
        "system t () returns (Y : {i,j,k,l,m} of integer); let Y[a,b,c,d,e] = 1;",
        &[],
        "limit indices 5",
    ),
    (
        "system t (A : {i} of integer) returns (Y : {i,j,k,l} of integer); let Y = A.(a,b,c,d->d);",
        &[],
        "ok 2",
    ),
    (
        "system t (A : {i} of integer) returns (Y : {i,j,k,l,m} of integer); let Y = A.(a,b,c,d,e->d);",
        &[],
        "limit indices 5",
    ),
    (
        "system t () returns (Y : {i,j,k} of integer); let Y = reduce(+, (a,b,c,d->a,b,c), 1);",
        &[],
        "ok 1",
    ),
    (
        "system t () returns (Y : {i,j,k,l} of integer); let Y = reduce(+, (a,b,c,d,e->a,b,c,d), 1);",
        &[],
        "limit indices 5",
    ),
];

fn push_fault(out: &mut String, fault: &NameFault) -> Result<(), Fail> {
    match fault {
        NameFault::Repeated(name, place) => push_both(out, "repeated", name, *place),
        NameFault::SizeTwice(name) => push_named(out, "size twice", name),
        NameFault::SizeUnknown(name) => push_named(out, "size unknown", name),
        NameFault::SizeMissing(name) => push_named(out, "size missing", name),
        NameFault::Unknown(name, place) => push_both(out, "unknown", name, *place),
        NameFault::DefinesInput(name, place) => push_both(out, "defines input", name, *place),
        NameFault::SecondEquation(name, place) => push_both(out, "second equation", name, *place),
        NameFault::WidthRange(name, place) => push_both(out, "width", name, *place),
        NameFault::NoEquation(name, place) => push_both(out, "no equation", name, *place),
        NameFault::Arity(place) => push_place(out, "arity", *place),
        NameFault::Projection(place) => push_place(out, "projection", *place),
        NameFault::CaseInReduce(place) => push_place(out, "case in reduce", *place),
        NameFault::DependOnReduce(place) => push_place(out, "dependence on reduce", *place),
        NameFault::Limit(quantity, number) => push_limit(out, *quantity, *number),
        NameFault::SizeOutside => push_words(out, "size outside"),
        NameFault::Memory => push_words(out, "memory"),
    }
}

fn push_lex_fault(out: &mut String, fault: &LexFault) -> Result<(), Fail> {
    match fault {
        LexFault::BadByte(place) => push_place(out, "bad byte", *place),
        LexFault::Number(place) => push_place(out, "number", *place),
        LexFault::Memory => Ok(()),
    }
}

fn push_parse_fault(out: &mut String, fault: &ParseFault) -> Result<(), Fail> {
    match fault {
        ParseFault::Syntax(place) => push_place(out, "syntax", *place),
        ParseFault::Depth(place) => push_place(out, "depth", *place),
        ParseFault::Memory => Ok(()),
    }
}

fn push_flat(out: &mut String, flat: &Flat) -> Result<(), Fail> {
    write!(out, "ok {}", flat.vars.as_slice().len())?;
    Ok(())
}

/// What becomes of the text with the sizes.
#[tactic(auto, using(av_names::proofs::OfText::of_text))]
fn push_answer(
    out: &mut String,
    alloc: Global,
    text: &str,
    sizes: &[Size],
    width: Width,
) -> Result<(), Fail>
    requires text { length text.now < 4294967295 }
    requires sizes { AreSmall sizes.now }
{
    match lex(alloc, text.as_bytes()) {
        Err(fault) => push_lex_fault(out, &fault),
        Ok(tokens) => match parse(alloc, tokens.as_slice()) {
            Err(fault) => push_parse_fault(out, &fault),
            Ok(system) => match resolve(alloc, &system, sizes, width) {
                Err(fault) => push_fault(out, &fault),
                Ok(flat) => push_flat(out, &flat),
            },
        },
    }
}

/// What `resolve` answers.
#[derive(Clone, Copy)]
struct Resolved;

impl Answers for Resolved {
    fn push_answer(
        &self,
        out: &mut String,
        alloc: Global,
        text: &str,
        sizes: &[Size],
        width: Width,
    ) -> Result<(), Fail> {
        push_answer(out, alloc, text, sizes, width)
    }
}

#[test]
fn answers_the_first_rule(rt: HostRuntime) -> Result<(), Fail> {
    let alloc = rt.alloc();
    assert_texts(&rt, alloc, &Resolved, "", "", TEXTS)?;
    assert_texts(&rt, alloc, &Resolved, SMALL, " tel;", ALONE)?;
    assert_texts(&rt, alloc, &Resolved, TWO_OUTPUTS, " tel;", TOGETHER)?;
    assert_texts(&rt, alloc, &Resolved, SMALL, " tel;", LIMITS)?;
    assert_texts(&rt, alloc, &Resolved, "", " tel;", INDICES)?;
    assert_texts(
        &rt,
        alloc,
        &Resolved,
        "system t :{N | N>1}\n (",
        " tel;",
        WIDTHS,
    )
}

/// A system of so many variables.
fn many_variables(alloc: Global, count: u32) -> Result<String, Fail> {
    let mut text = String::from_str(alloc, "system t :{N} (A0")?;
    for k in 2..count {
        write!(text, ",A{k}")?;
    }
    text.push_str(" : {} of integer) returns (Y : {} of integer); let Y = 1; tel;")?;
    Ok(text)
}

/// A system whose equation has so many nodes.
fn many_nodes(alloc: Global, count: u32) -> Result<String, Fail> {
    let mut text = String::from_str(alloc, SMALL)?;
    text.push_str("Y = case ")?;
    for _ in 1..count {
        text.push_str("1;")?;
    }
    text.push_str(" esac; tel;")?;
    Ok(text)
}

/// A constant in so many parentheses.
fn deep(alloc: Global, levels: u32) -> Result<String, Fail> {
    let mut text = String::from_str(alloc, SMALL)?;
    text.push_str("Y[i] = ")?;
    for _ in 0..levels {
        text.push_str("(")?;
    }
    text.push_str("1")?;
    for _ in 0..levels {
        text.push_str(")")?;
    }
    text.push_str("; tel;")?;
    Ok(text)
}

#[test]
fn answers_the_limits_of_numbers(rt: HostRuntime) -> Result<(), Fail> {
    let alloc = rt.alloc();
    for (count, wanted) in [(32, "ok 32"), (33, "limit variables 33")] {
        let text = many_variables(alloc, count)?;
        assert_text(&rt, alloc, &Resolved, text.as_str(), N2, wanted)?;
    }
    for (count, wanted) in [(4096, "ok 2"), (4097, "limit nodes 4097")] {
        let text = many_nodes(alloc, count)?;
        assert_text(&rt, alloc, &Resolved, text.as_str(), N2, wanted)?;
    }
    Ok(())
}

#[test]
fn answers_the_limit_of_levels(rt: HostRuntime) -> Result<(), Fail> {
    let alloc = rt.alloc();
    for (levels, wanted) in [(256, "ok 2"), (257, "depth 4:269")] {
        let text = deep(alloc, levels)?;
        assert_text(&rt, alloc, &Resolved, text.as_str(), N2, wanted)?;
    }
    Ok(())
}
