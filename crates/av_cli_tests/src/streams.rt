//! The answers of `stream`.

use crate::answers::{answered, assert_parts, joined};
use crate::texts::{CUT_DOWN, INCREMENT, TOO_WIDE, WIDENED};
use av_cli::Status;
use av_testing::texts::{MATRIX_VECTOR, RUNNING_SUMS};
use std::alloc::Global;
use std::test::Fail;

const LONG: &str = "system inc (X : {i | 0<=i<=2047} of integer) \
    returns (Y : {i | 0<=i<=2047} of integer); let Y[i] = X[i] + 1; tel;\n";

const OF_241: &str = "system inc (X : {i | 0<=i<=240} of integer) \
    returns (Y : {i | 0<=i<=240} of integer); let Y[i] = X[i] + 1; tel;\n";

const OF_256: &str = "system inc (X : {i | 0<=i<=255} of integer) \
    returns (Y : {i | 0<=i<=255} of integer); let Y[i] = X[i] + 1; tel;\n";

const SIXTEEN_MARKS: &str = "%%\n%%\n%%\n%%\n%%\n%%\n%%\n%%\n%%\n%%\n%%\n%%\n%%\n%%\n%%\n%%\n";

const SEVENTEEN_MARKS: &str =
    "%%\n%%\n%%\n%%\n%%\n%%\n%%\n%%\n%%\n%%\n%%\n%%\n%%\n%%\n%%\n%%\n%%\n";

const NO_POINT: &str = "system inc (X : {i | 1<=i<=0} of integer) \
    returns (Y : {i | 1<=i<=0} of integer); let Y[i] = X[i] + 1; tel;\n";

const WIDTH_8: &[&str] = &["stream", "--width", "8"];

const TWO_SETS: &str =
    "%%\nX (0) = 0\nX (1) = 254\nX (2) = 255\n%%\nX (0) = 1\nX (1) = 2\nX (2) = 3\n";

// The words, the text, what stands behind it, and the output.
const WHOLE: &[(&[&str], &str, &str, &str)] = &[
    (
        WIDTH_8,
        INCREMENT,
        TWO_SETS,
        "// alphav 2\n// period 3\n// in X (0) i0 0\n// in X (1) i0 1\n// in X (2) i0 2\n// at Y (0) o0 0\n// at Y (1) o0 1\n// at Y (2) o0 2\n\
         module k0(input [7:0] i0, output [7:0] v);\
         \n  assign v = i0 + 8'd1;\nendmodule\n\
         module array(input clk, input rst, input [7:0] i0, output [7:0] o0);\
         \n  wire [7:0] c0;\
         \n  k0 u0 (.i0(i0), .v(c0));\
         \n  assign o0 = c0;\nendmodule\n\
         %%\n0 i0=0 o0=1\n1 i0=254 o0=255\n2 i0=255 o0=0\n3 i0=1 o0=2\n4 i0=2 o0=3\n5 i0=3 o0=4\n",
    ),
    // inputs of 8 bits, results of 16
    (
        &["stream"],
        WIDENED,
        "%%\nX (0) = 255\nX (1) = 127\nX (2) = 128\n%%\nX (0) = 0\nX (1) = -1\nX (2) = -128\n",
        "// alphav 2\n// period 3\n// in X (0) i0 0\n// in X (1) i0 1\n// in X (2) i0 2\n// at Y (0) o0 0\n// at Y (1) o0 1\n// at Y (2) o0 2\n\
         module k0(input [7:0] i0, output [15:0] v);\
         \n  wire [15:0] w0;\
         \n  assign w0 = {{8{i0[7:7]}}, i0};\
         \n  assign v = w0 + 16'd1;\nendmodule\n\
         module array(input clk, input rst, input [7:0] i0, output [15:0] o0);\
         \n  wire [15:0] c0;\
         \n  k0 u0 (.i0(i0), .v(c0));\
         \n  assign o0 = c0;\nendmodule\n\
         %%\n0 i0=255 o0=0\n1 i0=127 o0=128\n2 i0=128 o0=65409\n3 i0=0 o0=1\n4 i0=255 o0=0\n5 i0=128 o0=65409\n",
    ),
    (
        &["stream", "N=2"],
        MATRIX_VECTOR,
        "%%\n\
         M (1,1) = 1\n\
         M (1,2) = 2\n\
         M (2,1) = 3\n\
         M (2,2) = 4\n\
         V (1) = 5\n\
         V (2) = 6\n\
         %%\n\
         M (1,1) = 1\n\
         M (1,2) = 0\n\
         M (2,1) = 0\n\
         M (2,2) = 1\n\
         V (1) = 7\n\
         V (2) = 8\n",
        "// alphav 2\n\
         // period 3\n\
         // in M (1,1) i0 1\n\
         // in M (1,2) i0 2\n\
         // in M (2,1) i1 2\n\
         // in M (2,2) i1 3\n\
         // in V (1) i2 1\n\
         // in V (2) i2 2\n\
         // at C (1) o0 3\n\
         // at C (2) o0 4\n\
         // at s (1,0) c1 0\n\
         // at s (1,1) c1 1\n\
         // at s (1,2) c1 2\n\
         // at s (2,0) c2 1\n\
         // at s (2,1) c2 2\n\
         // at s (2,2) c2 3\n\
         module k0(input [11:0] cyc, input [31:0] t0, input [31:0] t1, input [11:0] b0, output [31:0] v);\
         \n  wire [0:0] w0;\
         \n  assign w0 = cyc <= b0;\
         \n  assign v = w0 ? t0 : t1;\n\
         endmodule\n\
         module k1(input [11:0] cyc, input [31:0] i0, input [11:0] b0, input [11:0] b1, input [31:0] t0, input [11:0] b2, input [11:0] b3, input [31:0] t1, input [31:0] i1, output [31:0] p0, output [31:0] v);\
         \n  wire [0:0] w0;\
         \n  wire [0:0] w1;\
         \n  wire [0:0] w2;\
         \n  wire [31:0] w3;\
         \n  wire [31:0] w4;\
         \n  wire [0:0] w5;\
         \n  wire [0:0] w6;\
         \n  wire [0:0] w7;\
         \n  assign w0 = cyc >= b0;\
         \n  assign w1 = cyc <= b1;\
         \n  assign w2 = w0 & w1;\
         \n  assign p0 = w2 ? i0 : t0;\
         \n  assign w3 = i1 * p0;\
         \n  assign w4 = t1 + w3;\
         \n  assign w5 = cyc >= b2;\
         \n  assign w6 = cyc <= b3;\
         \n  assign w7 = w5 & w6;\
         \n  assign v = w7 ? 32'd0 : w4;\n\
         endmodule\n\
         module array(input clk, input rst, input [31:0] i0, input [31:0] i1, input [31:0] i2, output [31:0] o0);\
         \n  wire [31:0] c0;\
         \n  wire [31:0] c1_1;\
         \n  wire [31:0] c1;\
         \n  wire [31:0] c2_1;\
         \n  wire [31:0] c2;\
         \n  wire [0:0] phase_last;\
         \n  wire [11:0] phase_sum;\
         \n  wire [11:0] phase_next;\
         \n  reg [31:0] r1_1;\
         \n  reg [31:0] r1_0;\
         \n  reg [31:0] r2_0;\
         \n  reg [11:0] phase;\
         \n  k0 u0 (.cyc(phase), .t0(r1_0), .t1(r2_0), .b0(12'd0), .v(c0));\
         \n  k1 u1 (.cyc(phase), .i0(i2), .b0(12'd1), .b1(12'd2), .t0(32'd0), .b2(12'd0), .b3(12'd0), .t1(r1_0), .i1(i0), .p0(c1_1), .v(c1));\
         \n  k1 u2 (.cyc(phase), .i0(32'd0), .b0(12'd1), .b1(12'd0), .t0(r1_1), .b2(12'd1), .b3(12'd1), .t1(r2_0), .i1(i1), .p0(c2_1), .v(c2));\
         \n  assign o0 = c0;\
         \n  assign phase_last = phase == 12'd2;\
         \n  assign phase_sum = phase + 12'd1;\
         \n  assign phase_next = phase_last ? 12'd0 : phase_sum;\
         \n  always @(posedge clk) if (rst) r1_1 <= 32'd0; else r1_1 <= c1_1;\
         \n  always @(posedge clk) if (rst) r1_0 <= 32'd0; else r1_0 <= c1;\
         \n  always @(posedge clk) if (rst) r2_0 <= 32'd0; else r2_0 <= c2;\
         \n  always @(posedge clk) if (rst) phase <= 12'd0; else phase <= phase_next;\n\
         endmodule\n\
         %%\n\
         0 i0=0 i1=0 i2=0 o0=0\n\
         1 i0=1 i1=0 i2=5 o0=0\n\
         2 i0=2 i1=3 i2=6 o0=0\n\
         3 i0=0 i1=4 i2=0 o0=17\n\
         4 i0=1 i1=0 i2=7 o0=39\n\
         5 i0=0 i1=0 i2=8 o0=0\n\
         6 i0=0 i1=1 i2=0 o0=7\n\
         7 i0=0 i1=0 i2=0 o0=8\n",
    ),
];

#[test]
fn whole_streams(rt: HostRuntime) -> Result<(), Fail> {
    let alloc = rt.alloc();
    for (words, text, data, out) in WHOLE {
        assert_parts(&rt, alloc, words, &[text, data], Status::Done, out, text)?;
    }
    Ok(())
}

// The words, the text, what stands behind it, how the output begins, and how it ends behind its line `%%`.
const STREAMED: &[(&[&str], &str, &str, &str, &str)] = &[
    (
        WIDTH_8,
        INCREMENT,
        TWO_SETS,
        "// alphav 2\n// period 3\n// in X (0) i0 0\n",
        "0 i0=0 o0=1\n1 i0=254 o0=255\n2 i0=255 o0=0\n3 i0=1 o0=2\n4 i0=2 o0=3\n5 i0=3 o0=4\n",
    ),
    (
        &["stream", "N=2"],
        MATRIX_VECTOR,
        "%%\nM (1,1) = 1\nM (1,2) = 2\nM (2,1) = 3\nM (2,2) = 4\nV (1) = 5\nV (2) = 6\n\
         %%\nM (1,1) = 1\nM (1,2) = 0\nM (2,1) = 0\nM (2,2) = 1\nV (1) = 7\nV (2) = 8\n",
        "// alphav 2\n// period 3\n// in M (1,1) i0 1\n",
        "3 i0=0 i1=4 i2=0 o0=17\n4 i0=1 i1=0 i2=7 o0=39\n",
    ),
    (
        &["stream", "--width", "4"],
        RUNNING_SUMS,
        "\n%%\nX (0) = 7\nX (1) = 9\nX (2) = 1\n%%\r\nX (0) = 1\nX (1) = 2\nX (2) = 3\n%%\nX (0) = 0\nX (1) = 0\nX (2) = 15",
        "// alphav 2\n// period 3\n",
        "0 i0=7 i1=0 o0=7\n1 i0=0 i1=9 o0=0\n2 i0=0 i1=1 o0=1\n3 i0=1 i1=0 o0=1\n4 i0=0 i1=2 o0=3\n5 i0=0 i1=3 o0=6\n\
         6 i0=0 i1=0 o0=0\n7 i0=0 i1=0 o0=0\n8 i0=0 i1=15 o0=15\n",
    ),
    (
        &["stream"],
        NO_POINT,
        "%%\n%%\n%%\n",
        "// alphav 2\n// period 1\nmodule array(input clk, input rst);\n",
        "0\n1\n",
    ),
];

#[test]
fn problems_follow_each_other_a_period_apart(rt: HostRuntime) -> Result<(), Fail> {
    let alloc = rt.alloc();
    for (words, text, data, head, lines) in STREAMED {
        let answer = answered(alloc, words, joined(alloc, &[text, data])?, 65536)?;
        let out = str::from_utf8(answer.sink.held()).unwrap_or("");
        assert_eq!(rt; answer.status, Status::Done, "{text}");
        assert!(rt; out.starts_with(head), "{text}");
        let Some((_, run)) = out.split_once("\n%%\n") else {
            assert!(rt; false, "{text}");
            continue;
        };
        assert!(rt; run.contains(lines), "{text}");
    }
    Ok(())
}

#[test]
fn a_cell_whose_cycles_wrap_takes_each_problem_in_turn(rt: HostRuntime) -> Result<(), Fail> {
    let alloc = rt.alloc();
    let (words, text, data, _, _) = STREAMED[1];
    let answer = answered(alloc, words, joined(alloc, &[text, data])?, 65536)?;
    let out = str::from_utf8(answer.sink.held()).unwrap_or("");
    assert!(rt;
        out.ends_with("5 i0=0 i1=0 i2=8 o0=0\n6 i0=0 i1=1 i2=0 o0=7\n7 i0=0 i1=0 i2=0 o0=8\n")
    );
    Ok(())
}

// The words, the text, what stands behind it, and the output.
const REFUSED: &[(&[&str], &str, &str, &str)] = &[
    (WIDTH_8, INCREMENT, "", "refused: no mark\n"),
    (
        &["stream"],
        LONG,
        "%%\n%%\n%%\n",
        "refused: stream cycles 6144\n",
    ),
    (
        &["stream"],
        OF_241,
        SEVENTEEN_MARKS,
        "refused: stream cycles 4097\n",
    ),
    // 4096 cycles are not too many
    (
        &["stream"],
        OF_256,
        SIXTEEN_MARKS,
        "refused: data missing X (0)\n",
    ),
    // the number of sets is told before a fault of one of them
    (
        &["stream"],
        LONG,
        "%%\nX\n%%\n%%\n",
        "refused: stream cycles 6144\n",
    ),
    // a width that is none, and values of a set that do not fit the words of their input
    (
        &["stream"],
        TOO_WIDE,
        "%%\nX (0) = 0\n",
        "refused: width X 1:13\n",
    ),
    (
        &["stream", "--width", "64"],
        CUT_DOWN,
        "%%\nX (0) = 255\nX (1) = -128\nX (2) = 0\n%%\nX (0) = 255\nX (1) = 256\nX (2) = 0\n",
        "refused: data syntax 10\n",
    ),
    (
        &["stream"],
        CUT_DOWN,
        "%%\nX (0) = 255\nX (1) = -128\nX (2) = 0\n%%\nX (0) = -129\nX (1) = 0\nX (2) = 0\n",
        "refused: data syntax 9\n",
    ),
    // lines are counted from the start of the input
    (
        WIDTH_8,
        INCREMENT,
        "%%\nX (0) = 0\nX (1) = 254\nX (2) = 255\n%%\r\n-- more\nX (0) = 256\n",
        "refused: data syntax 10\n",
    ),
    (
        WIDTH_8,
        INCREMENT,
        "%%\nX (0) = 0\nX (1) = 254\nX (2) = 255\n%%\nX (0) = 1\nX (1) = 2\nX (2) = 3\n%%\nX (0) = 4\nX (1) = 256\nX (2) = 5\n",
        "refused: data syntax 14\n",
    ),
    // a set without lines, and one more than there are data for
    (WIDTH_8, INCREMENT, "%%\n", "refused: data missing X (0)\n"),
    (
        WIDTH_8,
        INCREMENT,
        "%%\nX (0) = 0\nX (1) = 254\nX (2) = 255\n%%\n",
        "refused: data missing X (0)\n",
    ),
    // a set with a line too many
    (
        WIDTH_8,
        INCREMENT,
        "%%\nX (0) = 0\nX (1) = 254\nX (2) = 255\n%%\nX (0) = 1\nX (1) = 2\nX (2) = 3\nX (3) = 4\n",
        "refused: data outside 12\n",
    ),
    (
        WIDTH_8,
        INCREMENT,
        "%%\nX (0) = 0\nX (1) = 254\nX (2) = 255\nX (1) = 254\n",
        "refused: data twice 8\n",
    ),
    // the first set with a fault is told
    (
        WIDTH_8,
        INCREMENT,
        "%%\nX (0) = 0\nX (1) = 254\nX (2) = 255\n%%\n%%\nX (0) = 256\n",
        "refused: data missing X (0)\n",
    ),
    (
        WIDTH_8,
        INCREMENT,
        "%%\nX (0) = 0\nX (1) = 254\nX (2) = 255\n%%\nX (0) = 1\nX (2) = 3\n",
        "refused: data missing X (1)\n",
    ),
];

#[test]
fn streams_are_refused_for_their_first_fault(rt: HostRuntime) -> Result<(), Fail> {
    let alloc = rt.alloc();
    for (words, text, data, out) in REFUSED {
        assert_parts(&rt, alloc, words, &[text, data], Status::Refused, out, data)?;
    }
    Ok(())
}
