//! Hostile ends: a text cut short at each byte, bytes that spell nothing, and a source that fails at each call.

use crate::answers::{
    answered, assert_answer, assert_given, assert_read_fault, extend, joined, repeated,
};
use av_base::List;
use av_cli::Status;
use av_testing::texts::MATRIX_VECTOR;
use std::alloc::Global;
use std::process::Abort;
use std::test::Fail;

const CHECK: &[&str] = &["check", "N=4"];

// The words, the bytes of the input, and the line that is written.
const ROWS: &[(&[&str], &[u8], &str)] = &[
    (&["check"], &[255], "refused: bad byte 1:1\n"),
    (&["sim"], b"\0\n%%\n", "refused: verilog bad byte 1:1\n"),
];

// How many blanks, and the line that is written.
const BLANKS: &[(usize, &str)] = &[
    (1_048_576, "refused: syntax 1:1048577\n"),
    (1_048_577, "refused: too long\n"),
];

fn bytes_of(alloc: Global, bytes: &[u8]) -> Result<List<u8>, Fail> {
    let mut list = List::new(alloc);
    extend(&mut list, bytes)?;
    Ok(list)
}

// The first bytes of the text are no text, unless at most its last line feed and its last semicolon lack.
fn assert_front(rt: &impl Abort, alloc: Global, count: usize) -> Result<(), Fail> {
    let bytes = MATRIX_VECTOR.as_bytes().get(..count).unwrap_or(&[]);
    let front = bytes_of(alloc, bytes)?;
    let answer = answered(alloc, CHECK, front, 4096)?;
    if count < MATRIX_VECTOR.len().saturating_sub(2) {
        assert_eq!(rt; answer.status, Status::Refused, "the first {count} bytes");
        assert!(rt;
            answer.sink.held().starts_with(b"refused: syntax "),
            "the first {count} bytes"
        );
    } else {
        assert_answer(rt, &answer, Status::Done, "ok\n", "nearly all bytes");
    }
    Ok(())
}

#[test]
fn a_text_may_end_at_each_byte(rt: HostRuntime) -> Result<(), Fail> {
    let alloc = rt.alloc();
    for count in 0..=MATRIX_VECTOR.len() {
        assert_front(&rt, alloc, count)?;
    }
    Ok(())
}

#[test]
fn bytes_that_spell_nothing_are_refused_at_their_place(rt: HostRuntime) -> Result<(), Fail> {
    let alloc = rt.alloc();
    for (words, text, line) in ROWS {
        let input = bytes_of(alloc, text)?;
        assert_given(&rt, alloc, words, input, Status::Refused, line, line)?;
    }
    Ok(())
}

#[test]
fn blanks_are_read_up_to_the_limit(rt: HostRuntime) -> Result<(), Fail> {
    let alloc = rt.alloc();
    for (count, line) in BLANKS {
        let blanks = repeated(alloc, "", " ", *count, "")?;
        assert_given(&rt, alloc, CHECK, blanks, Status::Refused, line, line)?;
    }
    Ok(())
}

#[test]
fn a_source_may_fail_at_each_call_of_check(rt: HostRuntime) -> Result<(), Fail> {
    let alloc = rt.alloc();
    for call in 0..=MATRIX_VECTOR.len() as u64 {
        let text = joined(alloc, &[MATRIX_VECTOR])?;
        assert_read_fault(&rt, alloc, CHECK, text, 1, call)?;
    }
    Ok(())
}
