//! The answers of `run8`.

use crate::answers::{
    Row, answered, assert_answer, assert_front, assert_read_fault, assert_rows, joined, repeated,
};
use crate::checks::UNCOVERED;
use crate::runs::{ABSOLUTE, SCALARS};
use crate::texts::{INCREMENT, USAGE};
use av_cli::Status;
use av_testing::texts::{
    CIRCLE, CONVOLUTION, FORWARD, LEAST, MATRIX_PRODUCT, MATRIX_VECTOR, NO_POINT, RUNNING_SUMS,
};
use std::alloc::Global;
use std::fmt::Write;
use std::process::Abort;
use std::test::Fail;

/// The words, the text, what stands behind it, and the output.
type DataRow = (
    &'static [&'static str],
    &'static str,
    &'static str,
    &'static str,
);

const WIDTH_8: &[&str] = &["run8", "--width", "8"];

const SET: &str = "%%\nX (0) = 0\nX (1) = 254\nX (2) = 255\n";

const TWO_SETS: &str =
    "%%\nX (0) = 0\nX (1) = 254\nX (2) = 255\n%%\nX (0) = 1\nX (1) = 2\nX (2) = 3\n";

const TWO_RESULTS: &str =
    "set 1\nY (0) = 1\nY (1) = 255\nY (2) = 0\nset 2\nY (0) = 2\nY (1) = 3\nY (2) = 4\n";

const WITHOUT_INPUTS: &str =
    "system t () returns (Y : {i | 0<=i<=1} of integer); let Y = 7; tel;\n";

const LONG: &str = "system t () returns (Y : {i|-1<=i<=4095} of integer); let Y = 1; tel;\n";

// Each text and its data have this status and output.
fn assert_given(
    rt: &impl Abort,
    alloc: Global,
    rows: &[DataRow],
    status: Status,
) -> Result<(), Fail> {
    for (words, text, data, out) in rows {
        let answer = answered(alloc, words, joined(alloc, &[text, data])?, 4096)?;
        assert_answer(rt, &answer, status, out, data);
    }
    Ok(())
}

const DONE: &[DataRow] = &[
    (WIDTH_8, INCREMENT, TWO_SETS, TWO_RESULTS),
    (
        &["run8", "--width=8", "--"],
        INCREMENT,
        "%%\r\n-- in another order\n\n X(02)=255\t-- the last\nX ( 1 ) = -2--\r\nX(0) = 0\n\
         %%\r\nX(2)=3\nX(1)=2\nX(0)=1",
        TWO_RESULTS,
    ),
    (
        WIDTH_8,
        INCREMENT,
        SET,
        "set 1\nY (0) = 1\nY (1) = 255\nY (2) = 0\n",
    ),
    // a set that is given twice
    (
        WIDTH_8,
        INCREMENT,
        "%%\nX (0) = 0\nX (1) = 254\nX (2) = 255\n%%\nX (0) = 0\nX (1) = 254\nX (2) = 255\n",
        "set 1\nY (0) = 1\nY (1) = 255\nY (2) = 0\nset 2\nY (0) = 1\nY (1) = 255\nY (2) = 0\n",
    ),
    // words of one bit, and of 64
    (
        &["run8", "--width=1"],
        INCREMENT,
        "%%\nX (0) = 0\nX (1) = 1\nX (2) = 1\n%%\nX (0) = -1\nX (1) = 0\nX (2) = 0\n",
        "set 1\nY (0) = 1\nY (1) = 0\nY (2) = 0\nset 2\nY (0) = 0\nY (1) = 1\nY (2) = 1\n",
    ),
    (
        &["run8", "--width=64"],
        INCREMENT,
        "%%\nX (0) = 0\nX (1) = -1\nX (2) = 5\n\
         %%\nX (0) = 9223372036854775807\nX (1) = 18446744073709551615\nX (2) = -9223372036854775808\n",
        "set 1\nY (0) = 1\nY (1) = 0\nY (2) = 6\n\
         set 2\nY (0) = 9223372036854775808\nY (1) = 0\nY (2) = 9223372036854775809\n",
    ),
    (
        &["run8", "--box=1", "--", "N=2"],
        MATRIX_VECTOR,
        "%%\nM (1,1) = 1\nM (1,2) = 2\nM (2,1) = 3\nM (2,2) = 4\nV (1) = 5\nV (2) = 6\n\
         %%\nM (1,1) = 1\nM (1,2) = 0\nM (2,1) = 0\nM (2,2) = 1\nV (1) = 7\nV (2) = 8\n",
        "set 1\nC (1) = 17\nC (2) = 39\nset 2\nC (1) = 7\nC (2) = 8\n",
    ),
    (
        &["run8", "N=2"],
        MATRIX_PRODUCT,
        "\n%%\nA(1,1)=1\nA(1,2)=2\nA(2,1)=3\nA(2,2)=4\nB(1,1)=5\nB(1,2)=6\nB(2,1)=7\nB(2,2)=8\n\
         %%\nA(1,1)=1\nA(1,2)=0\nA(2,1)=0\nA(2,2)=1\nB(1,1)=9\nB(1,2)=8\nB(2,1)=7\nB(2,2)=6\n\
         %%\nA(1,1)=-1\nA(1,2)=0\nA(2,1)=0\nA(2,2)=2\nB(1,1)=1\nB(1,2)=2\nB(2,1)=3\nB(2,2)=4\n",
        "set 1\nC (1,1) = 19\nC (1,2) = 22\nC (2,1) = 43\nC (2,2) = 50\n\
         set 2\nC (1,1) = 9\nC (1,2) = 8\nC (2,1) = 7\nC (2,2) = 6\n\
         set 3\nC (1,1) = 4294967295\nC (1,2) = 4294967294\nC (2,1) = 6\nC (2,2) = 8\n",
    ),
    (
        &["run8", "--width", "4"],
        RUNNING_SUMS,
        "\n%%\nX (0) = 7\nX (1) = 9\nX (2) = 1\n%%\nX (0) = 1\nX (1) = 2\nX (2) = 3\n%%\nX (0) = 0\nX (1) = 0\nX (2) = 15",
        "set 1\nP (0) = 7\nP (1) = 0\nP (2) = 1\nset 2\nP (0) = 1\nP (1) = 3\nP (2) = 6\nset 3\nP (0) = 0\nP (1) = 0\nP (2) = 15\n",
    ),
    (
        &["run8"],
        CONVOLUTION,
        "\n%%\nW(0)=1\nW(1)=2\nW(2)=3\nX(0)=1\nX(1)=2\nX(2)=3\nX(3)=4\nX(4)=5\n\
         %%\nW(0)=0\nW(1)=0\nW(2)=1\nX(0)=9\nX(1)=8\nX(2)=7\nX(3)=6\nX(4)=5\n",
        "set 1\nY (2) = 10\nY (3) = 16\nY (4) = 22\nset 2\nY (2) = 9\nY (3) = 8\nY (4) = 7\n",
    ),
    (
        &["run8", "N=3"],
        FORWARD,
        "\n%%\nL(2,1)=2\nL(3,1)=1\nL(3,2)=3\nb(1)=5\nb(2)=17\nb(3)=30\n\
         %%\nL(2,1)=1\nL(3,1)=1\nL(3,2)=1\nb(1)=1\nb(2)=1\nb(3)=1\n",
        "set 1\nx (1) = 5\nx (2) = 7\nx (3) = 4\nset 2\nx (1) = 1\nx (2) = 0\nx (3) = 0\n",
    ),
    (
        &["run8", "--width", "8"],
        LEAST,
        "\n%%\nX(0)=5\nX(1)=250\n%%\nX(0)=-128\nX(1)=127\n",
        "set 1\nY (0) = 127\nY (1) = 5\nY (2) = 250\nset 2\nY (0) = 127\nY (1) = 128\nY (2) = 128\n",
    ),
    (
        &["run8", "--width", "8"],
        ABSOLUTE,
        "\n%%\nX(0)=5\nX(1)=-6\nX(2)=128\n%%\nX(0)=0\nX(1)=127\nX(2)=-1\n",
        "set 1\nY (0) = 5\nY (1) = 6\nY (2) = 128\nset 2\nY (0) = 0\nY (1) = 127\nY (2) = 1\n",
    ),
    (
        &["run8"],
        SCALARS,
        "\n%%\na ( ) = 20\nB (-1) = 5\nB (0) = 21\n%%\na ( ) = -1\nB (-1) = 0\nB (0) = -1\n",
        "set 1\ny () = 42\nX (-1) = 4294967281\nX (0) = 1\nset 2\ny () = 0\nX (-1) = 1\nX (0) = 0\n",
    ),
    // without a point of an output, and without inputs
    (
        &["run8"],
        NO_POINT,
        "\n%%\nX (0) = 0\nX (1) = 1\nX (2) = 2\n%%\nX (0) = 3\nX (1) = 4\nX (2) = 5\n",
        "set 1\nset 2\n",
    ),
    (
        &["run8"],
        WITHOUT_INPUTS,
        "%%\n%%\n-- nothing\n%%",
        "set 1\nY (0) = 7\nY (1) = 7\nset 2\nY (0) = 7\nY (1) = 7\nset 3\nY (0) = 7\nY (1) = 7\n",
    ),
];

#[test]
fn each_set_has_its_line_and_its_results(rt: HostRuntime) -> Result<(), Fail> {
    assert_given(&rt, rt.alloc(), DONE, Status::Done)
}

const REFUSED: &[DataRow] = &[
    (WIDTH_8, INCREMENT, "", "refused: no mark\n"),
    (&["run8"], "system (", "", "refused: no mark\n"),
    // faults of the text, of its sizes and of its array, before those of a set
    (&["run8"], "system (", "\n%%\n?\n", "refused: syntax 1:8\n"),
    (
        &["run8"],
        MATRIX_VECTOR,
        "%%\n?\n",
        "refused: size missing N\n",
    ),
    (
        &["run8", "N=4"],
        UNCOVERED,
        "\n%%\n?\n",
        "refused: uncovered s (1,0) at s (1,-1)\n",
    ),
    (
        &["run8"],
        CIRCLE,
        "\n%%\n?\n%%\n",
        "refused: no schedule X\n",
    ),
    (&["run8"], LONG, "%%\n?\n", "refused: cycles 4097\n"),
    // a set without a line
    (WIDTH_8, INCREMENT, "%%", "refused: data missing X (0)\n"),
    (
        WIDTH_8,
        INCREMENT,
        "%%\nX (0) = 0\nX (1) = 254\nX (2) = 255\n%%\n",
        "refused: data missing X (0)\n",
    ),
    (
        WIDTH_8,
        INCREMENT,
        "%%\n%%\nX (0) = 0\nX (1) = 254\nX (2) = 255\n",
        "refused: data missing X (0)\n",
    ),
    // a fault of the third set, whose lines are counted from the start of the input
    (
        WIDTH_8,
        INCREMENT,
        "%%\nX (0) = 0\nX (1) = 254\nX (2) = 255\n%%\nX (0) = 1\nX (1) = 2\nX (2) = 3\n%%\nX (0) = 4\nX (1) = 256\nX (2) = 5\n",
        "refused: data syntax 14\n",
    ),
    (
        WIDTH_8,
        INCREMENT,
        "%%\nX (0) = 0\nX (1) = 254\nX (2) = 255\n%%\nX (0) = 1\nX (1) = 2\nX (2) = 3\n%%\nX (0) = 4\nZ (1) = 5\nX (2) = 6\n",
        "refused: data unknown 14\n",
    ),
    (
        WIDTH_8,
        INCREMENT,
        "%%\nX (0) = 0\nX (1) = 254\nX (2) = 255\n%%\nX (0) = 1\nX (1) = 2\nX (2) = 3\n%%\nX (3) = 4\n",
        "refused: data outside 13\n",
    ),
    (
        WIDTH_8,
        INCREMENT,
        "%%\nX (0) = 0\nX (1) = 254\nX (2) = 255\n%%\nX (0) = 1\nX (1) = 2\nX (2) = 3\n%%\nX (0) = 4\nX (1) = 5\nX (2) = 6\nX (1) = 5\n",
        "refused: data twice 16\n",
    ),
    (
        WIDTH_8,
        INCREMENT,
        "%%\nX (0) = 0\nX (1) = 254\nX (2) = 255\n%%\nX (0) = 1\nX (1) = 2\nX (2) = 3\n%%\nX (0) = 4\nX (2) = 6\n",
        "refused: data missing X (1)\n",
    ),
    (
        WIDTH_8,
        INCREMENT,
        "%%\nX (0) = 0\nX (1) = 254\nX (2) = 255\n%%\r\n-- more\nX (0) = 256\n",
        "refused: data syntax 10\n",
    ),
    // the first set with a fault is told
    (
        WIDTH_8,
        INCREMENT,
        "%%\nX (0) = 0\nX (1) = 254\nX (2) = 255\n%%\nX (0) = 1\nX (2) = 3\n%%\nX (0) = 256\n",
        "refused: data missing X (1)\n",
    ),
    (
        WIDTH_8,
        INCREMENT,
        "%%\nX (0) = 0\nX (1) = 254\nX (2) = 255\nX (0) = 0\n%%\n%%\nX (0) = 256\n",
        "refused: data twice 8\n",
    ),
];

#[test]
fn eight_sets_are_refused_for_their_first_fault(rt: HostRuntime) -> Result<(), Fail> {
    assert_given(&rt, rt.alloc(), REFUSED, Status::Refused)
}

// The words, the text, what stands behind it so many times, and the line that is written.
const MANY: &[(&[&str], &str, &str, usize, &str)] = &[
    (WIDTH_8, INCREMENT, SET, 9, "refused: sets 9\n"),
    (WIDTH_8, INCREMENT, "%%\n", 10, "refused: sets 10\n"),
    // their number is told before a fault of the text, of its sizes or of a set
    (&["run8"], "system (\n", "%%\n", 9, "refused: sets 9\n"),
    (&["run8"], MATRIX_VECTOR, "%%\n", 9, "refused: sets 9\n"),
    (WIDTH_8, INCREMENT, "%%\n?\n", 9, "refused: sets 9\n"),
    // eight are not too many
    (&["run8"], "system (\n", "%%\n", 8, "refused: syntax 1:8\n"),
    (
        WIDTH_8,
        INCREMENT,
        "%%\n",
        8,
        "refused: data missing X (0)\n",
    ),
    (WIDTH_8, INCREMENT, "%%\n?\n", 8, "refused: data syntax 5\n"),
    // as many as an input has room for
    (&["run8"], "", "%%\n", 349_525, "refused: sets 349525\n"),
    (&["run8"], "", "%%\n", 349_526, "refused: too long\n"),
];

#[test]
fn more_than_eight_sets_are_refused_first(rt: HostRuntime) -> Result<(), Fail> {
    let alloc = rt.alloc();
    for (words, text, part, count, line) in MANY {
        let input = repeated(alloc, text, part, *count, "")?;
        let answer = answered(alloc, words, input, 4096)?;
        assert_answer(&rt, &answer, Status::Refused, line, text);
    }
    Ok(())
}

// So many sets, which all differ.
fn sets_of(alloc: Global, count: u32) -> Result<String, Fail> {
    let mut sets = String::new(alloc);
    for number in 1..=count {
        write!(
            sets,
            "%%\nX (0) = {number}0\nX (1) = {number}1\nX (2) = {number}8\n"
        )?;
    }
    Ok(sets)
}

// What is written for them.
fn results_of(alloc: Global, count: u32) -> Result<String, Fail> {
    let mut results = String::new(alloc);
    for number in 1..=count {
        write!(
            results,
            "set {number}\nY (0) = {number}1\nY (1) = {number}2\nY (2) = {number}9\n"
        )?;
    }
    Ok(results)
}

#[test]
fn there_may_be_one_to_eight_sets(rt: HostRuntime) -> Result<(), Fail> {
    let alloc = rt.alloc();
    for count in 1..=8 {
        let sets = sets_of(alloc, count)?;
        let input = joined(alloc, &[INCREMENT, sets.as_str()])?;
        let answer = answered(alloc, WIDTH_8, input, 4096)?;
        let out = results_of(alloc, count)?;
        assert_answer(&rt, &answer, Status::Done, out.as_str(), sets.as_str());
    }
    Ok(())
}

const WORDS: &[Row] = &[
    (&["run8", "--width", "65"], INCREMENT, Status::Words, USAGE),
    (&["run8", "--width", "0"], INCREMENT, Status::Words, USAGE),
    (&["run8", "--box", "5"], INCREMENT, Status::Words, USAGE),
    (
        &["run8", "--box", "2", "--box=2"],
        INCREMENT,
        Status::Words,
        USAGE,
    ),
    (&["run8", "N"], INCREMENT, Status::Words, USAGE),
    (
        &["run8", "--", "--width=8"],
        INCREMENT,
        Status::Words,
        USAGE,
    ),
    (&["run8", "8"], INCREMENT, Status::Words, USAGE),
    (&["run", "8"], INCREMENT, Status::Words, USAGE),
    (&["Run8"], INCREMENT, Status::Words, USAGE),
    (&["run9"], INCREMENT, Status::Words, USAGE),
];

#[test]
fn the_words_are_read_as_those_of_run(rt: HostRuntime) -> Result<(), Fail> {
    assert_rows(&rt, rt.alloc(), WORDS)
}

// The results of two sets, and the lines of refusals: too many sets, and a fault of one.
const FAILING: &[(&str, usize)] = &[(SET, 2), ("%%\n", 9), ("%%\n", 2)];

#[test]
fn a_sink_may_fail_at_eight_sets(rt: HostRuntime) -> Result<(), Fail> {
    let alloc = rt.alloc();
    for (part, count) in FAILING {
        let input = repeated(alloc, INCREMENT, part, *count, "")?;
        let whole = answered(alloc, WIDTH_8, input, 4096)?;
        for call in 0..3 {
            let input = repeated(alloc, INCREMENT, part, *count, "")?;
            assert_front(&rt, alloc, WIDTH_8, input, call, whole.sink.held())?;
        }
    }
    Ok(())
}

#[test]
fn a_source_may_fail_at_eight_sets(rt: HostRuntime) -> Result<(), Fail> {
    let alloc = rt.alloc();
    for call in 0..4 {
        let input = joined(alloc, &[INCREMENT, TWO_SETS])?;
        assert_read_fault(&rt, alloc, WIDTH_8, input, 50, call)?;
    }
    Ok(())
}
