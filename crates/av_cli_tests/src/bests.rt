//! The lines of `best`.

use crate::answers::{Row, assert_rows};
use crate::checks::{HALVES, UNCOVERED};
use crate::texts::{TOO_WIDE, USAGE, WIDENED};
use av_cli::Status;
use av_testing::texts::{
    CIRCLE, CONVOLUTION, FORWARD, LEAST, MATRIX_PRODUCT, MATRIX_VECTOR, NO_POINT, ROW_SUMS,
    RUNNING_SUMS, SWEEP, TEN, TILTED_SQUARE, TURNED,
};
use std::test::Fail;

// Thirteen and fourteen indices of all nodes together, none of which reads another.
const THIRTEEN: &str = "system t (A : {i | 0<=i<=1} of integer) \
    returns (X, Y, Z : {i,j,k,l | 0<=(i,j,k,l)<=0} of integer; W : {i | 0<=i<=1} of integer); \
    let X[i,j,k,l] = 0; Y[i,j,k,l] = 0; Z[i,j,k,l] = 0; W[i] = A[i]; tel;";

const FOURTEEN: &str = "system t (A : {i | 0<=i<=1} of integer) \
    returns (X, Y, Z : {i,j,k,l | 0<=(i,j,k,l)<=0} of integer; W : {i,j | 0<=(i,j)<=1} of integer); \
    let X[i,j,k,l] = 0; Y[i,j,k,l] = 0; Z[i,j,k,l] = 0; W[i,j] = A[i]; tel;";

// The same, where one reads itself in a circle.
const CIRCLED: &str = "system t (A : {i | 0<=i<=1} of integer) \
    returns (X, Y, Z : {i,j,k,l | 0<=(i,j,k,l)<=0} of integer; W : {i,j | 0<=(i,j)<=1} of integer); \
    let X[i,j,k,l] = 0; Y[i,j,k,l] = 0; Z[i,j,k,l] = 0; W[i,j] = W[i,j]; tel;";

// The same, with a reduction whose set has a steep row.
const STEEP: &str = "system t (A : {i | 0<=i<=2} of integer) \
    returns (X, Y, Z : {i,j,k,l | 0<=(i,j,k,l)<=0} of integer; W : {i | 0<=i<=4} of integer); \
    let X[i,j,k,l] = 0; Y[i,j,k,l] = 0; Z[i,j,k,l] = 0; \
    W[i] = reduce(+, (i,j -> i), {i,j | 0<=j; 2j<=i} : A[j]); tel;";

// More candidates than 128 bits hold.
const WIDE: &str = "system t (A : {i | 0<=i<=1} of integer) \
    returns (B, C, D, E, F, G, H, I, J, K, L, M, N, O, P, Q, R, S, T, U, V : {i,j,k,l | 0<=(i,j,k,l)<=0} of integer); \
    let B[i,j,k,l] = 0; C[i,j,k,l] = 0; D[i,j,k,l] = 0; E[i,j,k,l] = 0; F[i,j,k,l] = 0; G[i,j,k,l] = 0; \
    H[i,j,k,l] = 0; I[i,j,k,l] = 0; J[i,j,k,l] = 0; K[i,j,k,l] = 0; L[i,j,k,l] = 0; M[i,j,k,l] = 0; \
    N[i,j,k,l] = 0; O[i,j,k,l] = 0; P[i,j,k,l] = 0; Q[i,j,k,l] = 0; R[i,j,k,l] = 0; S[i,j,k,l] = 0; \
    T[i,j,k,l] = 0; U[i,j,k,l] = 0; V[i,j,k,l] = 0; tel;";

const FOUND: &[Row] = &[
    (
        &["best", "N=2"],
        MATRIX_PRODUCT,
        Status::Done,
        "C (0,1) 1\nC#1 (0,1,1) -2\ncycles 4\n",
    ),
    (
        &["best", "N=3"],
        FORWARD,
        Status::Done,
        "x (2) -2\nx#1 (1,1) -2\ncycles 5\n",
    ),
    (
        &["best", "N=4"],
        MATRIX_VECTOR,
        Status::Done,
        "C (1) 4\ns (1,1) -1\ncycles 9\n",
    ),
    (
        &["best"],
        CONVOLUTION,
        Status::Done,
        "Y (1) 1\nY#1 (1,1) -2\ncycles 6\n",
    ),
    (
        &["best"],
        LEAST,
        Status::Done,
        "Y (1) 0\nY#1 (0,1) 0\ncycles 3\n",
    ),
    (
        &["best"],
        ROW_SUMS,
        Status::Done,
        "Y (1) 3\nY#1 (0,1) 0\ncycles 5\n",
    ),
    (
        &["best"],
        TILTED_SQUARE,
        Status::Done,
        "Y (0,1) 2\ncycles 5\n",
    ),
    (&["best"], RUNNING_SUMS, Status::Done, "P (1) 0\ncycles 3\n"),
    (&["best"], NO_POINT, Status::Done, "cycles 0\n"),
    (&["best"], WIDENED, Status::Done, "Y (1) 0\ncycles 3\n"),
    (
        &["best", "--box=4"],
        SWEEP,
        Status::Done,
        "S (1,0) 0\ncycles 256\n",
    ),
];

const REFUSED: &[Row] = &[
    (
        &["best"],
        TOO_WIDE,
        Status::Refused,
        "refused: width X 1:13\n",
    ),
    (
        &["best", "--box", "1", "N=3"],
        FORWARD,
        Status::Refused,
        "refused: no schedule x\n",
    ),
    (
        &["best"],
        CIRCLE,
        Status::Refused,
        "refused: no schedule X\n",
    ),
    (
        &["best", "--box=4"],
        TURNED,
        Status::Refused,
        "refused: no schedule X\n",
    ),
    (
        &["best"],
        TEN,
        Status::Refused,
        "refused: joint candidates 9765625\n",
    ),
    (
        &["best", "--box=1"],
        TEN,
        Status::Refused,
        "refused: no schedule X1\n",
    ),
];

const CANDIDATES: &[Row] = &[
    (
        &["best", "--box=1"],
        THIRTEEN,
        Status::Done,
        "X (0,0,0,1) 0\nY (0,0,0,1) 0\nZ (0,0,0,1) 0\nW (1) 0\ncycles 2\n",
    ),
    (
        &["best", "--box=1"],
        FOURTEEN,
        Status::Refused,
        "refused: joint candidates 4782969\n",
    ),
    (
        &["best"],
        THIRTEEN,
        Status::Refused,
        "refused: joint candidates 1220703125\n",
    ),
    (
        &["best", "--box=3"],
        FOURTEEN,
        Status::Refused,
        "refused: joint candidates 678223072849\n",
    ),
    (
        &["best", "--box=4"],
        THIRTEEN,
        Status::Refused,
        "refused: joint candidates 2541865828329\n",
    ),
    (
        &["best", "--box=1"],
        WIDE,
        Status::Refused,
        "refused: joint candidates 340282366920938463463374607431768211455\n",
    ),
    // too many are told before a component without a schedule, and reductions before both
    (
        &["best", "--box=1"],
        CIRCLED,
        Status::Refused,
        "refused: joint candidates 4782969\n",
    ),
    (&["best"], STEEP, Status::Refused, "refused: non unit W\n"),
    (&["best"], HALVES, Status::Refused, "refused: non unit Y\n"),
    (
        &["best", "N=4"],
        UNCOVERED,
        Status::Refused,
        "refused: uncovered s (1,0) at s (1,-1)\n",
    ),
];

const WORDS: &[Row] = &[
    (
        &["best", "--box=4", "--width", "8", "--", "N=4"],
        MATRIX_VECTOR,
        Status::Done,
        "C (1) 4\ns (1,1) -1\ncycles 9\n",
    ),
    (
        &["best", "--box", "5", "N=4"],
        MATRIX_VECTOR,
        Status::Words,
        USAGE,
    ),
    (
        &["best", "--box", "2", "--box=2", "N=4"],
        MATRIX_VECTOR,
        Status::Words,
        USAGE,
    ),
];

#[test]
fn the_least_schedule_and_its_length_are_written(rt: HostRuntime) -> Result<(), Fail> {
    assert_rows(&rt, rt.alloc(), FOUND)
}

#[test]
fn where_there_is_none_the_first_component_is_named(rt: HostRuntime) -> Result<(), Fail> {
    assert_rows(&rt, rt.alloc(), REFUSED)
}

#[test]
fn the_candidates_of_all_nodes_are_counted(rt: HostRuntime) -> Result<(), Fail> {
    assert_rows(&rt, rt.alloc(), CANDIDATES)
}

#[test]
fn the_words_are_read_as_those_of_schedule(rt: HostRuntime) -> Result<(), Fail> {
    assert_rows(&rt, rt.alloc(), WORDS)
}
