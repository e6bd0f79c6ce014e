//! The answers of `run`, `trace` and `demo`, and what designs show.

use crate::answers::{answer, assert_parts, calls, joined};
use crate::checks::UNCOVERED;
use crate::texts::{BOTH_ENDS, CUT_DOWN, INCREMENT, TOO_WIDE, USAGE, WIDENED};
use av_base::{MemSink, MemSource};
use av_cli::Status;
use av_testing::texts::{
    CIRCLE, CONVOLUTION, FORWARD, LEAST, MATRIX_PRODUCT, MATRIX_VECTOR, ROW_SUMS, RUNNING_SUMS,
};
use std::alloc::Global;
use std::test::Fail;

pub(crate) const ABSOLUTE: &str = "system inc (X : {i | 0<=i<=2} of integer) \
    returns (Y : {i | 0<=i<=2} of integer); \
    let Y[i] = if X[i] < 0 then -X[i] else X[i]; tel;";

/// Without indices, with two outputs, one of which has no point.
pub(crate) const SCALARS: &str = "system t (a : {|} of integer; B : {i | -1<=i<=0} of integer) \
    returns (Z : {i | 1<=i<=0} of integer; y : {|} of integer; X : {i | -1<=i<=0} of integer); \
    var u : {|} of integer; let u[] = a[] + 1; y[] = u[] * 2; Z[i] = 1; X[i] = B[i] - a[]; tel;";

const THREE_WORDS: &str = "X (0) = 0\nX (1) = 254\nX (2) = 255\n";

const TRACED: &str = "// alphav 2
// in X (0) i0 0
// in X (1) i0 1
// in X (2) i0 2
// at Y (0) o0 0
// at Y (1) o0 1
// at Y (2) o0 2
module k0(input [7:0] i0, output [7:0] v);
  assign v = i0 + 8'd1;
endmodule
module array(input clk, input rst, input [7:0] i0, output [7:0] o0);
  wire [7:0] c0;
  k0 u0 (.i0(i0), .v(c0));
  assign o0 = c0;
endmodule
%%
0 i0=0 o0=1
1 i0=254 o0=255
2 i0=255 o0=0
";

const TRACED_WIDENED: &str = "// alphav 2
// in X (0) i0 0
// in X (1) i0 1
// in X (2) i0 2
// at Y (0) o0 0
// at Y (1) o0 1
// at Y (2) o0 2
module k0(input [7:0] i0, output [15:0] v);
  wire [15:0] w0;
  assign w0 = {{8{i0[7:7]}}, i0};
  assign v = w0 + 16'd1;
endmodule
module array(input clk, input rst, input [7:0] i0, output [15:0] o0);
  wire [15:0] c0;
  k0 u0 (.i0(i0), .v(c0));
  assign o0 = c0;
endmodule
%%
0 i0=255 o0=0
1 i0=127 o0=128
2 i0=128 o0=65409
";

// The words, the text, what stands behind it, the status and the output.
const ROWS: &[(&[&str], &str, &str, Status, &str)] = &[
    (
        &["run", "--width", "8"],
        INCREMENT,
        "%%\nX (0) = 0\nX (1) = 254\nX (2) = 255\n",
        Status::Done,
        "Y (0) = 1\nY (1) = 255\nY (2) = 0\n",
    ),
    (
        &["run", "--width=8", "--"],
        INCREMENT,
        "%%\r\n-- in another order\n\n X(02)=255\t-- the last\nX ( 1 ) = -2--\r\nX(0) = 0",
        Status::Done,
        "Y (0) = 1\nY (1) = 255\nY (2) = 0\n",
    ),
    (
        &["trace", "--width", "8"],
        INCREMENT,
        "%%\nX (0) = 0\nX (1) = 254\nX (2) = 255\n",
        Status::Done,
        TRACED,
    ),
    (
        &["run", "N=2"],
        MATRIX_VECTOR,
        "%%\nM (1,1) = 1\nM (1,2) = 2\nM (2,1) = 3\nM (2,2) = 4\nV (1) = 5\nV (2) = 6\n",
        Status::Done,
        "C (1) = 17\nC (2) = 39\n",
    ),
    (
        &["run", "--width", "4"],
        RUNNING_SUMS,
        "\n%%\nX (0) = 7\nX (1) = 9\nX (2) = 1\n",
        Status::Done,
        "P (0) = 7\nP (1) = 0\nP (2) = 1\n",
    ),
    (
        &["run", "N=2"],
        MATRIX_PRODUCT,
        "\n%%\nA(1,1)=1\nA(1,2)=2\nA(2,1)=3\nA(2,2)=4\nB(1,1)=5\nB(1,2)=6\nB(2,1)=7\nB(2,2)=8\n",
        Status::Done,
        "C (1,1) = 19\nC (1,2) = 22\nC (2,1) = 43\nC (2,2) = 50\n",
    ),
    (
        &["run"],
        CONVOLUTION,
        "\n%%\nW(0)=1\nW(1)=2\nW(2)=3\nX(0)=1\nX(1)=2\nX(2)=3\nX(3)=4\nX(4)=5\n",
        Status::Done,
        "Y (2) = 10\nY (3) = 16\nY (4) = 22\n",
    ),
    (
        &["run", "N=3"],
        FORWARD,
        "\n%%\nL(2,1)=2\nL(3,1)=1\nL(3,2)=3\nb(1)=5\nb(2)=17\nb(3)=30\n",
        Status::Done,
        "x (1) = 5\nx (2) = 7\nx (3) = 4\n",
    ),
    (
        &["run", "--width", "8"],
        LEAST,
        "\n%%\nX(0)=5\nX(1)=250\n",
        Status::Done,
        "Y (0) = 127\nY (1) = 5\nY (2) = 250\n",
    ),
    (
        &["run", "--width", "8"],
        ABSOLUTE,
        "\n%%\nX(0)=5\nX(1)=-6\nX(2)=128\n",
        Status::Done,
        "Y (0) = 5\nY (1) = 6\nY (2) = 128\n",
    ),
    (
        &["run"],
        ROW_SUMS,
        "\n%%\nA(0,0)=1\nA(0,1)=2\nA(0,2)=3\nA(1,0)=4\nA(1,1)=5\nA(1,2)=6\n",
        Status::Done,
        "Y (0) = 6\nY (1) = 15\n",
    ),
    (
        &["run"],
        SCALARS,
        "\n%%\na ( ) = 20\nB (-1) = 5\nB (0) = 21\n",
        Status::Done,
        "y () = 42\nX (-1) = 4294967281\nX (0) = 1\n",
    ),
    // refusals, in their order
    (
        &["run"],
        INCREMENT,
        "X (0) = 0\n",
        Status::Refused,
        "refused: no mark\n",
    ),
    (
        &["trace", "N=1"],
        "system",
        "",
        Status::Refused,
        "refused: no mark\n",
    ),
    (
        &["run"],
        "system (",
        "\n%%\nX = 1\n",
        Status::Refused,
        "refused: syntax 1:8\n",
    ),
    (
        &["trace", "N=4"],
        UNCOVERED,
        "\n%%\n?\n",
        Status::Refused,
        "refused: uncovered s (1,0) at s (1,-1)\n",
    ),
    (
        &["run"],
        CIRCLE,
        "\n%%\n?\n",
        Status::Refused,
        "refused: no schedule X\n",
    ),
    (
        &["run"],
        MATRIX_VECTOR,
        "%%\n",
        Status::Refused,
        "refused: size missing N\n",
    ),
    (
        &["run", "--width", "8"],
        INCREMENT,
        "%%\nX (0) = 0\nX (1) = 1\n",
        Status::Refused,
        "refused: data missing X (2)\n",
    ),
    (
        &["trace", "--width", "8"],
        INCREMENT,
        "%%",
        Status::Refused,
        "refused: data missing X (0)\n",
    ),
    (
        &["run", "--width", "8"],
        INCREMENT,
        "%%\nX (0) = 0\nX (1) = 1\nX (1) = 1\n",
        Status::Refused,
        "refused: data twice 7\n",
    ),
    (
        &["run", "--width", "8"],
        INCREMENT,
        "%%\nX (3) = 1\n",
        Status::Refused,
        "refused: data outside 5\n",
    ),
    (
        &["run", "--width", "8"],
        INCREMENT,
        "%%\nX (0) = 256\n",
        Status::Refused,
        "refused: data syntax 5\n",
    ),
    (
        &["trace", "--width", "8"],
        INCREMENT,
        "%%\n\nY (0) = 1\nX (0) = 256\n",
        Status::Refused,
        "refused: data unknown 6\n",
    ),
    // words
    (
        &["run", "--box", "5"],
        INCREMENT,
        "%%\n",
        Status::Words,
        USAGE,
    ),
    (&["demo"], "", "", Status::Words, USAGE),
    (&["demo", "17"], "", "", Status::Words, USAGE),
    (&["demo", "0"], "", "", Status::Words, USAGE),
    (&["demo", "2", "2"], "", "", Status::Words, USAGE),
    (&["demo", "--width", "2"], "", "", Status::Words, USAGE),
    (&["demo", "2", "N=2"], "", "", Status::Words, USAGE),
    (
        &["demo", "--", "2", "--width=8"],
        "",
        "",
        Status::Words,
        USAGE,
    ),
    (&["demo", "--", "2", "--"], "", "", Status::Words, USAGE),
    (&["demo", "+2"], "", "", Status::Words, USAGE),
    // `demo`
    (
        &["demo", "2"],
        "",
        "",
        Status::Done,
        "cycles 5 cells 6 delays 10 links 12\nsum 1890\n",
    ),
    (
        &["demo", "2", "--box=1", "--width", "64"],
        "",
        "",
        Status::Done,
        "cycles 5 cells 6 delays 10 links 12\nsum 1890\n",
    ),
    (
        &["demo", "--width", "8", "--", "002"],
        "?",
        "",
        Status::Done,
        "cycles 5 cells 6 delays 10 links 12\nsum 98\n",
    ),
    (
        &["demo", "16"],
        "",
        "",
        Status::Done,
        "cycles 47 cells 272 delays 2656 links 992\nsum 25797632\n",
    ),
];

/// Texts whose variables have widths of their own.
const OF_WIDTHS: &[(&[&str], &str, &str, Status, &str)] = &[
    // What an equation reads is sign-extended to its width, or cut down to it.
    (
        &["run"],
        WIDENED,
        "%%\nX (0) = 255\nX (1) = 127\nX (2) = 128\n",
        Status::Done,
        "Y (0) = 0\nY (1) = 128\nY (2) = 65409\n",
    ),
    (
        &["trace"],
        WIDENED,
        "%%\nX (0) = 255\nX (1) = 127\nX (2) = 128\n",
        Status::Done,
        TRACED_WIDENED,
    ),
    (
        &["run", "--width=3"],
        WIDENED,
        "%%\nX (0) = -1\nX (1) = 127\nX (2) = -128\n",
        Status::Done,
        "Y (0) = 0\nY (1) = 128\nY (2) = 65409\n",
    ),
    (
        &["run"],
        CUT_DOWN,
        "%%\nX (0) = 31\nX (1) = 255\nX (2) = 0\n",
        Status::Done,
        "Y (0) = 0\nY (1) = 0\nY (2) = 1\n",
    ),
    (
        &["run"],
        TOO_WIDE,
        "%%\nX (0) = 0\nX (1) = 1\nX (2) = 2\n",
        Status::Refused,
        "refused: width X 1:13\n",
    ),
    (
        &["trace"],
        TOO_WIDE,
        "%%\nX (0) = 0\nX (1) = 1\nX (2) = 2\n",
        Status::Refused,
        "refused: width X 1:13\n",
    ),
    // A value fits the words of its input, and where it names none those of the run.
    (
        &["run"],
        CUT_DOWN,
        "%%\nX (0) = 256\nX (1) = 1\nX (2) = 2\n",
        Status::Refused,
        "refused: data syntax 5\n",
    ),
    (
        &["run", "--width=64"],
        WIDENED,
        "%%\nX (0) = 1\nX (1) = -129\nX (2) = 2\n",
        Status::Refused,
        "refused: data syntax 6\n",
    ),
    (
        &["run", "--width=4"],
        WIDENED,
        "%%\nX (0) = 255\nX (1) = -128\n",
        Status::Refused,
        "refused: data missing X (2)\n",
    ),
    (
        &["run", "--width=9"],
        WIDENED,
        "%%\nZ (0) = 511\n",
        Status::Refused,
        "refused: data unknown 5\n",
    ),
    (
        &["run", "--width=9"],
        WIDENED,
        "%%\nY (0) = 512\n",
        Status::Refused,
        "refused: data syntax 5\n",
    ),
    (
        &["run", "--width=9"],
        WIDENED,
        "%%\nY (0) = -256\n",
        Status::Refused,
        "refused: data unknown 5\n",
    ),
    // The least width and the greatest: the ends of each, and one beyond them.
    (
        &["run"],
        BOTH_ENDS,
        "%%\nA () = 1\nB () = 18446744073709551615\n",
        Status::Done,
        "Y () = 1\nZ () = 18446744073709551615\n",
    ),
    (
        &["run"],
        BOTH_ENDS,
        "%%\nA () = -1\nB () = -9223372036854775808\n",
        Status::Done,
        "Y () = 1\nZ () = 9223372036854775808\n",
    ),
    (
        &["run"],
        BOTH_ENDS,
        "%%\nA () = 2\n",
        Status::Refused,
        "refused: data syntax 5\n",
    ),
    (
        &["run"],
        BOTH_ENDS,
        "%%\nA () = -2\n",
        Status::Refused,
        "refused: data syntax 5\n",
    ),
    (
        &["run"],
        BOTH_ENDS,
        "%%\nB () = 18446744073709551616\n",
        Status::Refused,
        "refused: data syntax 5\n",
    ),
    (
        &["run"],
        BOTH_ENDS,
        "%%\nB () = -9223372036854775809\n",
        Status::Refused,
        "refused: data syntax 5\n",
    ),
];

#[test]
fn the_words_the_text_and_the_data_fix_status_and_output(rt: HostRuntime) -> Result<(), Fail> {
    let alloc = rt.alloc();
    for (words, text, data, status, out) in ROWS.iter().chain(OF_WIDTHS) {
        assert_parts(&rt, alloc, words, &[text, data], *status, out, text)?;
    }
    Ok(())
}

// Runs the increment on three words: this call of the source fails.
fn answer_three(alloc: Global, call: Option<u64>, sink: &mut MemSink) -> Result<Status, Fail> {
    let input = joined(alloc, &[INCREMENT, "%%\n", THREE_WORDS])?;
    let mut source = MemSource::new(input, 1, calls(alloc, call)?);
    answer(alloc, &["run", "--width", "8"], &mut source, sink)
}

#[test]
fn a_sink_may_fail_at_a_run(rt: HostRuntime) -> Result<(), Fail> {
    let alloc = rt.alloc();
    let mut sink = MemSink::new(alloc, 64, 1, calls(alloc, Some(1))?)?;
    let status = answer_three(alloc, None, &mut sink)?;
    assert_eq!(rt; status, Status::WriteFault);
    assert_eq!(rt; sink.held(), b"Y".as_slice());
    Ok(())
}

#[test]
fn a_source_may_fail_at_a_run(rt: HostRuntime) -> Result<(), Fail> {
    let alloc = rt.alloc();
    let mut sink = MemSink::new(alloc, 64, 1, calls(alloc, None)?)?;
    let status = answer_three(alloc, Some(0), &mut sink)?;
    assert_eq!(rt; status, Status::ReadFault);
    assert!(rt; sink.held().is_empty());
    Ok(())
}
