//! Texts with part selects and widenings.

use crate::clock::assert_words;
use crate::designs::{around, assert_told, assert_written};
use std::test::Fail;

const BITS: &str =
    "module t(input clk, input rst, input [7:0] a, output [3:0] o0, output [15:0] o1, output b);
  assign o0 = a[6:3];
  assign o1 = {{8{a[7:7]}}, a};
  assign b = a[0:0];
endmodule
";

const BITS_TIDY: &str = "// alphav 1
module t(input clk, input rst, input [7:0] a, output [3:0] o0, output [15:0] o1, output [0:0] b);
  assign o0 = a[6:3];
  assign o1 = {{8{a[7:7]}}, a};
  assign b = a[0:0];
endmodule
";

#[test]
fn parts_are_read_and_written(rt: HostRuntime) -> Result<(), Fail> {
    assert_written(&rt, rt.alloc(), BITS, BITS_TIDY)?;
    assert_written(&rt, rt.alloc(), BITS_TIDY, BITS_TIDY)
}

// One more than the words 255, 127 and 128 of 8 bits, in 16 bits.
const WIDER: &str = "module t(input clk, input rst, output [15:0] o);
  wire [15:0] w;
  reg [7:0] q;
  reg [7:0] p;
  assign w = {{8{q[7:7]}}, q};
  assign o = w + 16'd1;
  always @(posedge clk) if (rst) q <= 8'd255; else q <= p;
  always @(posedge clk) if (rst) p <= 8'd127; else p <= 8'd128;
endmodule
";

// One more than the words 31, 255 and 0 of 8 bits, in 4 bits.
const NARROWER: &str = "module t(input clk, input rst, output [3:0] o);
  wire [3:0] w;
  reg [7:0] q;
  reg [7:0] p;
  assign w = q[3:0];
  assign o = w + 4'd1;
  always @(posedge clk) if (rst) q <= 8'd31; else q <= p;
  always @(posedge clk) if (rst) p <= 8'd255; else p <= 8'd0;
endmodule
";

// The bits 2 to 4 of a register that goes through 15, 31 and 15, as a word of 16 bits.
const TWICE_WIDER: &str = "module t(input clk, input rst, output [15:0] o);
  wire [4:0] n;
  wire [2:0] p;
  wire [12:0] w;
  reg [4:0] q;
  assign n = q + 5'd16;
  assign p = q[4:2];
  assign w = {{10{p[2:2]}}, p};
  assign o = {{3{w[12:12]}}, w};
  always @(posedge clk) if (rst) q <= 5'd15; else q <= n;
endmodule
";

#[test]
fn words_of_other_widths(rt: HostRuntime) -> Result<(), Fail> {
    let alloc = rt.alloc();
    assert_words(&rt, alloc, WIDER, 1, [0, 128, 65_409])?;
    assert_words(&rt, alloc, NARROWER, 1, [0, 0, 1])?;
    assert_words(&rt, alloc, TWICE_WIDER, 3, [3, 65_535, 3])
}

// Ports and bodies of modules with what the reader answers.
const MODULES: &[(&str, &str, &str)] = &[
    // part selects
    (
        ", input [7:0] a, output o",
        "assign o = a[7:7];",
        "module m",
    ),
    (
        ", input [7:0] a, output [7:0] o",
        "assign o = a[7:0];",
        "module m",
    ),
    (", input a, output o", "assign o = a[0:0];", "module m"),
    (
        ", input [63:0] a, output o",
        "assign o = a[63:63];",
        "module m",
    ),
    (
        ", output o",
        "reg [1:0] r; assign o = r[1:1]; always @(posedge clk) if (rst) r <= 2'd0; else r <= r;",
        "module m",
    ),
    // numbers, and what has no part
    (
        ", input [7:0] a, output [3:0] o",
        "assign o = a[3:6];",
        "syntax 2:16",
    ),
    (
        ", input [7:0] a, output [3:0] o",
        "assign o = a[64:61];",
        "syntax 2:14",
    ),
    (
        ", input [7:0] a, output [3:0] o",
        "assign o = a[8];",
        "syntax 2:15",
    ),
    (", output [3:0] o", "assign o = 8'd7[6:3];", "syntax 2:16"),
    (
        ", input [7:0] a, output [3:0] o",
        "assign o = a[3:0] + 4'd1;",
        "syntax 2:19",
    ),
    (
        ", input [7:0] a, output [3:0] o",
        "assign o = 4'd1 + a[3:0];",
        "syntax 2:20",
    ),
    (
        ", input [7:0] a, output [3:0] o",
        "assign o[3:0] = a[3:0];",
        "syntax 2:9",
    ),
    (
        ", input a",
        "reg r; always @(posedge clk) if (rst) r <= 1'd0; else r <= a[0:0];",
        "syntax 2:61",
    ),
    // faults of part selects
    (", output [3:0] o", "assign o = x[3:0];", "name x"),
    (", output o", "assign o = clk[0:0];", "name clk"),
    (", output [3:0] o", "assign o = o[3:0];", "order o"),
    (
        ", output [3:0] o",
        "wire [3:0] w; assign o = w[3:0]; assign w = 4'd0;",
        "order o",
    ),
    (
        ", input [7:0] a, output [3:0] o",
        "assign o = a[8:5];",
        "width o",
    ),
    (
        ", input [7:0] a, output [3:0] o",
        "assign o = a[6:4];",
        "width o",
    ),
    (
        ", input [7:0] a, output [3:0] o",
        "assign o = a[7:3];",
        "width o",
    ),
    (", input a, output o", "assign o = a[1:1];", "width o"),
    // widenings
    (
        ", input a, output [63:0] o",
        "assign o = {{63{a[0:0]}}, a};",
        "module m",
    ),
    (
        ", input [62:0] a, output [63:0] o",
        "assign o = {{1{a[62:62]}}, a};",
        "module m",
    ),
    // numbers and names of widenings
    (
        ", input a, output [1:0] o",
        "assign o = {{0{a[0:0]}}, a};",
        "syntax 2:14",
    ),
    (
        ", input a, output [63:0] o",
        "assign o = {{64{a[0:0]}}, a};",
        "syntax 2:14",
    ),
    (
        ", input [1:0] a, output [2:0] o",
        "assign o = {{1{a[64:64]}}, a};",
        "syntax 2:18",
    ),
    (
        ", input [1:0] a, output [2:0] o",
        "assign o = {{1{a[1:0]}}, a};",
        "syntax 2:20",
    ),
    (
        ", input [1:0] a, output [2:0] o",
        "assign o = {{1{a[1:2]}}, a};",
        "syntax 2:20",
    ),
    (
        ", input a, input b, output [1:0] o",
        "assign o = {{1{a[0:0]}}, b};",
        "syntax 2:26",
    ),
    (
        ", input a, output [1:0] o",
        "assign o = {1{a[0:0]}, a};",
        "syntax 2:13",
    ),
    (
        ", input a, output [1:0] o",
        "assign o = {{1{a}}, a};",
        "syntax 2:17",
    ),
    (
        ", input a, output [1:0] o",
        "assign o = {{1{a[0:0]}}, a} + 2'd1;",
        "syntax 2:29",
    ),
    // faults of widenings
    (", output [1:0] o", "assign o = {{1{x[0:0]}}, x};", "name x"),
    (
        ", output [1:0] o",
        "assign o = {{1{rst[0:0]}}, rst};",
        "name rst",
    ),
    (
        ", output [1:0] o",
        "wire w; assign o = {{1{w[0:0]}}, w}; assign w = 1'd0;",
        "order o",
    ),
    (
        ", input [7:0] a, output [15:0] o",
        "assign o = {{8{a[6:6]}}, a};",
        "width o",
    ),
    (
        ", input [7:0] a, output [15:0] o",
        "assign o = {{8{a[8:8]}}, a};",
        "width o",
    ),
    (
        ", input [7:0] a, output [15:0] o",
        "assign o = {{7{a[7:7]}}, a};",
        "width o",
    ),
    (
        ", input [7:0] a, output [15:0] o",
        "assign o = {{9{a[7:7]}}, a};",
        "width o",
    ),
];

#[test]
fn faults_of_parts(rt: HostRuntime) -> Result<(), Fail> {
    let alloc = rt.alloc();
    for (ports, body, wanted) in MODULES {
        let text = around(alloc, ports, body)?;
        assert_told(&rt, alloc, text.as_bytes(), wanted)?;
    }
    Ok(())
}
