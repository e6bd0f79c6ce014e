//! The lines of `table`.

use crate::answers::{Row, answered, assert_end, assert_rows, joined};
use crate::checks::{UNBOUNDED, UNCOVERED};
use crate::texts::{TOO_WIDE, USAGE, WIDENED};
use av_cli::Status;
use av_testing::texts::{
    CIRCLE, CONVOLUTION, FORWARD, MATRIX_PRODUCT, MATRIX_VECTOR, NO_POINT, ROW_SUMS, TILTED_SQUARE,
};
use std::test::Fail;

// Sums along a diagonal.
pub(crate) const DIAGONAL: &str = "system t (A : {i,j | 0<=i<=1; 0<=j<=1} of integer) \
    returns (D : {i,j | 0<=i<=1; 0<=j<=1} of integer); \
    let D[i,j] = case {| i=0} : A[i,j]; {| i>=1; j=0} : A[i,j]; \
    {| i>=1; j>=1} : D[i-1,j-1] + A[i,j]; esac; tel;";

const OF_MATRIX_VECTOR: &str = "cell 0 C ()\n\
    cell 1 s (1)\n\
    cell 2 s (2)\n\
    cell 3 s (3)\n\
    cell 4 s (4)\n\
    in M (1,1) i0 1\n\
    in M (1,2) i0 2\n\
    in M (1,3) i0 3\n\
    in M (1,4) i0 4\n\
    in M (2,1) i1 2\n\
    in M (2,2) i1 3\n\
    in M (2,3) i1 4\n\
    in M (2,4) i1 5\n\
    in M (3,1) i2 3\n\
    in M (3,2) i2 4\n\
    in M (3,3) i2 5\n\
    in M (3,4) i2 6\n\
    in M (4,1) i3 4\n\
    in M (4,2) i3 5\n\
    in M (4,3) i3 6\n\
    in M (4,4) i3 7\n\
    in V (1) i4 1\n\
    in V (2) i4 2\n\
    in V (3) i4 3\n\
    in V (4) i4 4\n\
    at C (1) o0 5\n\
    at C (2) o0 6\n\
    at C (3) o0 7\n\
    at C (4) o0 8\n\
    at s (1,0) c1 0\n\
    at s (1,1) c1 1\n\
    at s (1,2) c1 2\n\
    at s (1,3) c1 3\n\
    at s (1,4) c1 4\n\
    at s (2,0) c2 1\n\
    at s (2,1) c2 2\n\
    at s (2,2) c2 3\n\
    at s (2,3) c2 4\n\
    at s (2,4) c2 5\n\
    at s (3,0) c3 2\n\
    at s (3,1) c3 3\n\
    at s (3,2) c3 4\n\
    at s (3,3) c3 5\n\
    at s (3,4) c3 6\n\
    at s (4,0) c4 3\n\
    at s (4,1) c4 4\n\
    at s (4,2) c4 5\n\
    at s (4,3) c4 6\n\
    at s (4,4) c4 7\n\
    cycles 9 cells 5 delays 7 links 11\n";

const OF_MATRIX_PRODUCT: &str = "cell 0 C (1)\n\
    cell 1 C (2)\n\
    cell 2 C#1 (1,1)\n\
    cell 3 C#1 (1,2)\n\
    cell 4 C#1 (2,1)\n\
    cell 5 C#1 (2,2)\n\
    in A (1,1) i0 0\n\
    in A (1,2) i0 1\n\
    in A (2,1) i1 1\n\
    in A (2,2) i1 2\n\
    in B (1,1) i2 0\n\
    in B (2,1) i2 1\n\
    in B (1,2) i3 1\n\
    in B (2,2) i3 2\n\
    at C (1,1) o0 3\n\
    at C (1,2) o0 4\n\
    at C (2,1) o1 3\n\
    at C (2,2) o1 4\n\
    cycles 5 cells 6 delays 10 links 12\n";

const OF_CONVOLUTION: &str = "cell 0 Y ()\n\
    cell 1 Y#1 (2)\n\
    cell 2 Y#1 (3)\n\
    cell 3 Y#1 (4)\n\
    in W (0) i0 0\n\
    in W (1) i0 1\n\
    in W (2) i0 2\n\
    in X (2) i1 0\n\
    in X (1) i1 1\n\
    in X (0) i1 2\n\
    in X (3) i2 1\n\
    in X (4) i3 2\n\
    at Y (2) o0 3\n\
    at Y (3) o0 4\n\
    at Y (4) o0 5\n\
    cycles 6 cells 4 delays 9 links 10\n";

const OF_FORWARD: &str = "cell 0 x ()\n\
    cell 1 x#1 (2)\n\
    cell 2 x#1 (3)\n\
    in b (1) i0 0\n\
    in b (2) i0 2\n\
    in b (3) i0 4\n\
    in L (2,1) i1 1\n\
    in L (3,1) i2 2\n\
    in L (3,2) i2 3\n\
    at x (1) o0 0\n\
    at x (2) o0 2\n\
    at x (3) o0 4\n\
    cycles 5 cells 3 delays 4 links 6\n";

const OF_ROW_SUMS: &str = "cell 0 Y ()\n\
    cell 1 Y#1 (0)\n\
    cell 2 Y#1 (1)\n\
    in A (0,0) i0 0\n\
    in A (0,1) i0 1\n\
    in A (0,2) i0 2\n\
    in A (1,0) i1 0\n\
    in A (1,1) i1 1\n\
    in A (1,2) i1 2\n\
    at Y (0) o0 3\n\
    at Y (1) o0 4\n\
    cycles 5 cells 3 delays 3 links 4\n";

const OF_DIAGONAL: &str = "cell 0 D (0)\n\
    cell 1 D (1)\n\
    in A (0,0) i0 0\n\
    in A (0,1) i0 1\n\
    in A (1,0) i1 0\n\
    in A (1,1) i2 1\n\
    at D (0,0) o0 0\n\
    at D (0,1) o0 1\n\
    at D (1,0) o1 0\n\
    at D (1,1) o1 1\n\
    cycles 2 cells 2 delays 1 links 1\n";

const OF_WIDENED: &str = "cell 0 Y ()\n\
    in X (0) i0 0\n\
    in X (1) i0 1\n\
    in X (2) i0 2\n\
    at Y (0) o0 0\n\
    at Y (1) o0 1\n\
    at Y (2) o0 2\n\
    cycles 3 cells 1 delays 0 links 0\n";

const ROWS: &[Row] = &[
    (
        &["table", "N=4"],
        MATRIX_VECTOR,
        Status::Done,
        OF_MATRIX_VECTOR,
    ),
    (
        &["table", "N=2"],
        MATRIX_PRODUCT,
        Status::Done,
        OF_MATRIX_PRODUCT,
    ),
    (&["table"], CONVOLUTION, Status::Done, OF_CONVOLUTION),
    (&["table", "N=3"], FORWARD, Status::Done, OF_FORWARD),
    (&["table"], ROW_SUMS, Status::Done, OF_ROW_SUMS),
    (&["table"], DIAGONAL, Status::Done, OF_DIAGONAL),
    (
        &["table"],
        NO_POINT,
        Status::Done,
        "cycles 0 cells 0 delays 0 links 0\n",
    ),
    (&["table"], WIDENED, Status::Done, OF_WIDENED),
    // faults of the steps before
    (
        &["table"],
        TOO_WIDE,
        Status::Refused,
        "refused: width X 1:13\n",
    ),
    (
        &["table", "--box", "1", "N=3"],
        FORWARD,
        Status::Refused,
        "refused: no schedule x\n",
    ),
    (
        &["table"],
        CIRCLE,
        Status::Refused,
        "refused: no schedule X\n",
    ),
    (
        &["table", "N=4"],
        UNCOVERED,
        Status::Refused,
        "refused: uncovered s (1,0) at s (1,-1)\n",
    ),
    (
        &["table"],
        UNBOUNDED,
        Status::Refused,
        "refused: unbounded X\n",
    ),
    // words
    (
        &["table", "--box=4", "--width", "8", "--", "N=2"],
        MATRIX_PRODUCT,
        Status::Done,
        OF_MATRIX_PRODUCT,
    ),
    (
        &["table", "--box", "5", "N=4"],
        MATRIX_VECTOR,
        Status::Words,
        USAGE,
    ),
];

#[test]
fn the_words_and_the_text_fix_the_answer_of_table(rt: HostRuntime) -> Result<(), Fail> {
    assert_rows(&rt, rt.alloc(), ROWS)
}

// The words, the input, the status and the last line.
const LAST_LINES: &[Row] = &[
    (
        &["table"],
        TILTED_SQUARE,
        Status::Done,
        "cycles 5 cells 5 delays 0 links 0\n",
    ),
    (
        &["table", "N=16"],
        MATRIX_PRODUCT,
        Status::Done,
        "cycles 47 cells 272 delays 2656 links 992\n",
    ),
];

#[test]
fn the_last_line_of_a_table_has_its_totals(rt: HostRuntime) -> Result<(), Fail> {
    let alloc = rt.alloc();
    for (words, text, status, last) in LAST_LINES {
        let answer = answered(alloc, words, joined(alloc, &[text])?, 65536)?;
        assert_end(&rt, &answer, *status, last);
    }
    Ok(())
}
