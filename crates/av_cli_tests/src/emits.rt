//! The answers of `emit`, from sources and into sinks that fail.

use crate::answers::{Row, answer, assert_rows, calls, joined};
use crate::texts::{CUT_DOWN, INCREMENT, TOO_WIDE, USAGE, WIDENED};
use av_base::{MemSink, MemSource};
use av_cli::Status;
use av_testing::texts::INCREMENT_PLAN;
use av_vread::read_design;
use av_vtext::write_design;
use std::alloc::Global;
use std::process::Abort;
use std::test::Fail;

const ONE_POINT: &str =
    "system inc (X : {i | 5<=i<=5} of integer)\n  returns (Y : {i | 5<=i<=5} of integer);\nlet Y[i] = X[i] + 1; tel;\n";

const CONSTANT: &str =
    "system inc (X : {i | 0<=i<=2} of integer)\n  returns (Y : {i | 0<=i<=2} of integer);\nlet Y[i] = 3; tel;\n";

const DOUBLE: &str =
    "system inc (X : {i | 0<=i<=2} of integer)\n  returns (Y : {i | 0<=i<=2} of integer);\nlet Y[i] = X[i] + X[i]; tel;\n";

const SHIFTED: &str =
    "system inc (X : {i | 0<=i<=2} of integer)\n  returns (Y : {i | 0<=i<=2} of integer);\nlet Y[i] = X[i-1] + 1; tel;\n";

const OF_WIDTH_1: &str = "// alphav 2
// in X (0) i0 0
// in X (1) i0 1
// in X (2) i0 2
// at Y (0) o0 0
// at Y (1) o0 1
// at Y (2) o0 2
module k0(input [0:0] i0, output [0:0] v);
  assign v = i0 + 1'd1;
endmodule
module array(input clk, input rst, input [0:0] i0, output [0:0] o0);
  wire [0:0] c0;
  k0 u0 (.i0(i0), .v(c0));
  assign o0 = c0;
endmodule
";

const OF_WIDTH_64: &str = "// alphav 2
// in X (0) i0 0
// in X (1) i0 1
// in X (2) i0 2
// at Y (0) o0 0
// at Y (1) o0 1
// at Y (2) o0 2
module k0(input [63:0] i0, output [63:0] v);
  assign v = i0 + 64'd1;
endmodule
module array(input clk, input rst, input [63:0] i0, output [63:0] o0);
  wire [63:0] c0;
  k0 u0 (.i0(i0), .v(c0));
  assign o0 = c0;
endmodule
";

const OF_WIDTH_32: &str = "// alphav 2
// in X (0) i0 0
// in X (1) i0 1
// in X (2) i0 2
// at Y (0) o0 0
// at Y (1) o0 1
// at Y (2) o0 2
module k0(input [31:0] i0, output [31:0] v);
  assign v = i0 + 32'd1;
endmodule
module array(input clk, input rst, input [31:0] i0, output [31:0] o0);
  wire [31:0] c0;
  k0 u0 (.i0(i0), .v(c0));
  assign o0 = c0;
endmodule
";

const OF_ONE_POINT: &str = "// alphav 2
// in X (5) i0 0
// at Y (5) o0 0
module k0(input [7:0] i0, output [7:0] v);
  assign v = i0 + 8'd1;
endmodule
module array(input clk, input rst, input [7:0] i0, output [7:0] o0);
  wire [7:0] c0;
  k0 u0 (.i0(i0), .v(c0));
  assign o0 = c0;
endmodule
";

const OF_CONSTANT: &str = "// alphav 2
// at Y (0) o0 0
// at Y (1) o0 1
// at Y (2) o0 2
module k0(output [7:0] v);
  assign v = 8'd3;
endmodule
module array(input clk, input rst, output [7:0] o0);
  wire [7:0] c0;
  k0 u0 (.v(c0));
  assign o0 = c0;
endmodule
";

const OF_DOUBLE: &str = "// alphav 2
// in X (0) i0 0
// in X (1) i0 1
// in X (2) i0 2
// in X (0) i1 0
// in X (1) i1 1
// in X (2) i1 2
// at Y (0) o0 0
// at Y (1) o0 1
// at Y (2) o0 2
module k0(input [7:0] i0, input [7:0] i1, output [7:0] v);
  assign v = i0 + i1;
endmodule
module array(input clk, input rst, input [7:0] i0, input [7:0] i1, output [7:0] o0);
  wire [7:0] c0;
  k0 u0 (.i0(i0), .i1(i1), .v(c0));
  assign o0 = c0;
endmodule
";

// What the input port brings is widened once, by its highest bit.
const OF_WIDENED: &str = "// alphav 2
// in X (0) i0 0
// in X (1) i0 1
// in X (2) i0 2
// at Y (0) o0 0
// at Y (1) o0 1
// at Y (2) o0 2
module k0(input [7:0] i0, output [15:0] v);
  wire [15:0] w0;
  assign w0 = {{8{i0[7:7]}}, i0};
  assign v = w0 + 16'd1;
endmodule
module array(input clk, input rst, input [7:0] i0, output [15:0] o0);
  wire [15:0] c0;
  k0 u0 (.i0(i0), .v(c0));
  assign o0 = c0;
endmodule
";

// And here its lowest bits are taken.
const OF_CUT_DOWN: &str = "// alphav 2
// in X (0) i0 0
// in X (1) i0 1
// in X (2) i0 2
// at Y (0) o0 0
// at Y (1) o0 1
// at Y (2) o0 2
module k0(input [7:0] i0, output [3:0] v);
  wire [3:0] w0;
  assign w0 = i0[3:0];
  assign v = w0 + 4'd1;
endmodule
module array(input clk, input rst, input [7:0] i0, output [3:0] o0);
  wire [3:0] c0;
  k0 u0 (.i0(i0), .v(c0));
  assign o0 = c0;
endmodule
";

const SWAP: &str = "module swap(input clk, input rst, output [3:0] o0, output [3:0] o1);
  reg [3:0] a;
  reg [3:0] b;
  assign o0 = a;
  assign o1 = b;
  always @(posedge clk) if (rst) a <= 4'd1; else a <= b;
  always @(posedge clk) if (rst) b <= 4'd2; else b <= a;
endmodule
%%
cycles 3
";

const WIDTH_8: &[&str] = &["emit", "--width", "8"];

const ROWS: &[Row] = &[
    (WIDTH_8, INCREMENT, Status::Done, INCREMENT_PLAN),
    (
        &["emit", "--width", "0001"],
        INCREMENT,
        Status::Done,
        OF_WIDTH_1,
    ),
    (
        &["emit", "--width", "64"],
        INCREMENT,
        Status::Done,
        OF_WIDTH_64,
    ),
    (&["emit"], INCREMENT, Status::Done, OF_WIDTH_32),
    (WIDTH_8, ONE_POINT, Status::Done, OF_ONE_POINT),
    (WIDTH_8, CONSTANT, Status::Done, OF_CONSTANT),
    (WIDTH_8, DOUBLE, Status::Done, OF_DOUBLE),
    (&["emit"], WIDENED, Status::Done, OF_WIDENED),
    (&["emit"], CUT_DOWN, Status::Done, OF_CUT_DOWN),
    (
        &["emit"],
        TOO_WIDE,
        Status::Refused,
        "refused: width X 1:13\n",
    ),
    (
        WIDTH_8,
        SHIFTED,
        Status::Refused,
        "refused: uncovered Y (0) at X (-1)\n",
    ),
    (&[], INCREMENT, Status::Words, USAGE),
    (&["emit", "--width", "65"], INCREMENT, Status::Words, USAGE),
    (&["emit", "--width", "0"], INCREMENT, Status::Words, USAGE),
    (&["emit", "--width"], INCREMENT, Status::Words, USAGE),
    (&["emit", "x"], INCREMENT, Status::Words, USAGE),
    (
        &["emit", "--width=8"],
        INCREMENT,
        Status::Done,
        INCREMENT_PLAN,
    ),
    (
        &[
            "emit",
            "N=0",
            "--box=4",
            "--width",
            "008",
            "--",
            "M=-1048576",
        ],
        INCREMENT,
        Status::Refused,
        "refused: size unknown N\n",
    ),
    (
        &["emit", "--box=4", "--width", "008", "--"],
        INCREMENT,
        Status::Done,
        INCREMENT_PLAN,
    ),
    (&["emit", "N=1048577"], INCREMENT, Status::Words, USAGE),
    (
        &["emit", "--box", "1", "--box", "1"],
        INCREMENT,
        Status::Words,
        USAGE,
    ),
    (&["sim", "N=1"], SWAP, Status::Words, USAGE),
    (&["sim", "--width", "8"], SWAP, Status::Words, USAGE),
    (
        &["sim", "--"],
        SWAP,
        Status::Done,
        "0 o0=1 o1=2\n1 o0=2 o1=1\n2 o0=1 o1=2\n",
    ),
];

#[test]
fn the_words_and_the_text_fix_status_and_output(rt: HostRuntime) -> Result<(), Fail> {
    assert_rows(&rt, rt.alloc(), ROWS)
}

// The flat module of the increment.
const INCREMENT_FLAT: &str = "// alphav 1
// in X (0) i0 0
// in X (1) i0 1
// in X (2) i0 2
// at Y (0) o0 0
// at Y (1) o0 1
// at Y (2) o0 2
module array(input clk, input rst, input [7:0] i0, output [7:0] o0);
  wire [7:0] c0;
  wire [7:0] u0_i0;
  wire [7:0] u0_v;
  assign u0_i0 = i0;
  assign u0_v = u0_i0 + 8'd1;
  assign c0 = u0_v;
  assign o0 = c0;
endmodule
";

#[test]
fn the_text_is_read_as_the_flat_design(rt: HostRuntime) -> Result<(), Fail> {
    let alloc = rt.alloc();
    for text in [INCREMENT_PLAN, INCREMENT_FLAT] {
        let mut sink = MemSink::new(alloc, 4096, 7, calls(alloc, None)?)?;
        assert!(rt; written_again(alloc, text, &mut sink), "{text}");
        assert_eq!(rt; sink.held(), INCREMENT_FLAT.as_bytes());
    }
    Ok(())
}

// Whether the design text is read and its design is written.
fn written_again(alloc: Global, text: &str, sink: &mut MemSink) -> bool {
    if text.len() >= 4_294_967_295 {
        return false;
    }
    match read_design(alloc, text.as_bytes()) {
        Ok(design) => write_design(&design, sink).is_ok(),
        Err(_fault) => false,
    }
}

// What `emit` answers to the increment from a source of which this call fails.
fn answer_increment(alloc: Global, call: Option<u64>, sink: &mut MemSink) -> Result<Status, Fail> {
    let mut source = MemSource::new(joined(alloc, &[INCREMENT])?, 1, calls(alloc, call)?);
    answer(alloc, WIDTH_8, &mut source, sink)
}

#[test]
fn a_source_may_fail_at_each_call(rt: HostRuntime) -> Result<(), Fail> {
    let alloc = rt.alloc();
    for call in 0..=INCREMENT.len() as u64 {
        let mut sink = MemSink::new(alloc, 4096, 1, calls(alloc, None)?)?;
        let status = answer_increment(alloc, Some(call), &mut sink)?;
        assert_eq!(rt; status, Status::ReadFault, "call {call}");
        assert!(rt; sink.held().is_empty(), "call {call}");
    }
    Ok(())
}

// The sink holds the first bytes of the array of the increment, so many.
fn assert_front(rt: &impl Abort, sink: &MemSink, count: usize) {
    assert_eq!(rt; sink.held().len(), count, "after {count} bytes");
    assert!(rt;
        INCREMENT_PLAN.as_bytes().starts_with(sink.held()),
        "after {count} bytes"
    );
}

// `emit` on the increment ends with a write fault once so many bytes are written.
fn assert_cut(
    rt: &impl Abort,
    alloc: Global,
    sink: &mut MemSink,
    count: usize,
) -> Result<(), Fail> {
    let status = answer_increment(alloc, None, sink)?;
    assert_eq!(rt; status, Status::WriteFault, "after {count} bytes");
    assert_front(rt, sink, count);
    Ok(())
}

#[test]
fn a_sink_may_fail_at_each_call_and_be_full_at_each_byte(rt: HostRuntime) -> Result<(), Fail> {
    let alloc = rt.alloc();
    for n in 0..INCREMENT_PLAN.len() {
        let mut failing = MemSink::new(alloc, 4096, 1, calls(alloc, Some(n as u64))?)?;
        assert_cut(&rt, alloc, &mut failing, n)?;
        let mut full = MemSink::new(alloc, n, 7, calls(alloc, None)?)?;
        assert_cut(&rt, alloc, &mut full, n)?;
    }
    Ok(())
}
