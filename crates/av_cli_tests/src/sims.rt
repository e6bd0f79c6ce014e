use crate::answers::{assert_given, joined};
use av_cli::Status;
use std::test::Fail;

const SWAP: &str = "module swap(input clk, input rst, output [3:0] o0, output [3:0] o1);
  reg [3:0] a;
  reg [3:0] b;
  assign o0 = a;
  assign o1 = b;
  always @(posedge clk) if (rst) a <= 4'd1; else a <= b;
  always @(posedge clk) if (rst) b <= 4'd2; else b <= a;
";

const WIRES: &str = "module wires(input clk, input rst, output [3:0] o0);
  wire [3:0] w0;
  wire [3:0] w1;
  assign w0 = w1;
  assign w1 = w0;
  assign o0 = 4'd0;
";

// A chain of wires, and registers that take an input, a literal and a wire.
const CHAIN: &str =
    "module chain(input clk, input rst, input [7:0] i0, input i1, output [7:0] o0, output [7:0] o1, output [7:0] o2, output o3);
  wire [7:0] a;
  wire [7:0] b;
  reg [7:0] of_input;
  reg [7:0] of_literal;
  reg [7:0] of_wire;
  assign a = i0 + 8'd1;
  assign b = a + of_wire;
  assign o0 = of_input;
  assign o1 = of_literal;
  assign o2 = of_wire;
  assign o3 = i1;
  always @(posedge clk) if (rst) of_input <= 8'd7; else of_input <= i0;
  always @(posedge clk) if (rst) of_literal <= 8'd8; else of_literal <= 8'd9;
  always @(posedge clk) if (rst) of_wire <= 8'd0; else of_wire <= b;
";

// All operators at one bit.
const ONE_BIT: &str =
    "module bits(input clk, input rst, input [0:0] a, input [0:0] b, output s, output d, output m, output n, output o, output e, output u, output l, output le, output g, output ge, output sl, output c);
  assign s = a + b;
  assign d = a - b;
  assign m = a * b;
  assign n = a & b;
  assign o = a | b;
  assign e = a == b;
  assign u = a != b;
  assign l = a < b;
  assign le = a <= b;
  assign g = a > b;
  assign ge = a >= b;
  assign sl = $signed(a) < $signed(b);
  assign c = a ? b : 1'd1;
";

// The same at seven bits.
const SEVEN_BITS: &str =
    "module bits(input clk, input rst, input [6:0] a, input [6:0] b, output [6:0] s, output [6:0] d, output [6:0] m, output [6:0] n, output [6:0] o, output e, output u, output l, output le, output g, output ge, output sl, output sg);
  assign s = a + b;
  assign d = a - b;
  assign m = a * b;
  assign n = a & b;
  assign o = a | b;
  assign e = a == b;
  assign u = a != b;
  assign l = a < b;
  assign le = a <= b;
  assign g = a > b;
  assign ge = a >= b;
  assign sl = $signed(a) < $signed(b);
  assign sg = $signed(a) >= $signed(b);
";

// And at 64 bits.
const SIXTY_FOUR_BITS: &str =
    "module bits(input clk, input rst, input [63:0] a, input [63:0] b, output [63:0] s, output [63:0] d, output [63:0] m, output l, output sl);
  assign s = a + b;
  assign d = a - b;
  assign m = a * b;
  assign l = a < b;
  assign sl = $signed(a) < $signed(b);
";

// A port that its line of the listing names and the module has not.
const LISTED: &str = "// alphav 1
// in W (0) i9 0
module faulty(input clk, input rst, output [3:0] o0);
  assign o0 = 4'd0;
";

const TWICE: &str = "module faulty(input clk, input rst, output [3:0] o0);
  wire [3:0] w;
  wire [3:0] w;
  assign w = 4'd1;
  assign o0 = w;
";

const UNKNOWN: &str = "module faulty(input clk, input rst, output [3:0] o0);
  assign o0 = w;
";

const UNASSIGNED: &str = "module faulty(input clk, input rst, output [3:0] o0);
  wire [3:0] w;
  assign o0 = 4'd0;
";

const WIDE: &str = "module faulty(input clk, input rst, output [3:0] o0);
  wire [3:0] w;
  assign w = 8'd1;
  assign o0 = w;
";

// The module without its last line, what follows that line, the status and the output.
const ROWS: &[(&str, &str, Status, &str)] = &[
    (
        SWAP,
        "%%\ncycles 3\n",
        Status::Done,
        "0 o0=1 o1=2\n1 o0=2 o1=1\n2 o0=1 o1=2\n",
    ),
    (SWAP, "%%\ncycles 0\n", Status::Done, ""),
    (
        SWAP,
        "%%\r\n\r\n -- no cycle \r\ncycles\t01\r\n",
        Status::Done,
        "0 o0=1 o1=2\n",
    ),
    (SWAP, "%%\ncycles 1 -- one", Status::Done, "0 o0=1 o1=2\n"),
    (SWAP, "", Status::Refused, "refused: no mark\n"),
    (
        SWAP,
        "%% \ncycles 1\n",
        Status::Refused,
        "refused: no mark\n",
    ),
    (SWAP, "%%\r", Status::Refused, "refused: no mark\n"),
    (SWAP, "%%", Status::Refused, "refused: data syntax 10\n"),
    (
        SWAP,
        "%%\n-- nothing\n\n",
        Status::Refused,
        "refused: data syntax 12\n",
    ),
    (
        SWAP,
        "%%\n\ncycles 4097\n",
        Status::Refused,
        "refused: data syntax 11\n",
    ),
    (
        SWAP,
        "%%\ncycles 1\ncycles 1\n",
        Status::Refused,
        "refused: data syntax 11\n",
    ),
    (
        SWAP,
        "%%\ncycles 1\r\r\n",
        Status::Refused,
        "refused: data syntax 10\n",
    ),
    (
        SWAP,
        "%%\ncycles 1\nat 0 o0 1\n",
        Status::Refused,
        "refused: data unknown 11\n",
    ),
    (
        SWAP,
        "x%%\n%%\ncycles 1\n",
        Status::Refused,
        "refused: verilog bad byte 9:2\n",
    ),
    (
        SWAP,
        "endmodule\n%%\ncycles 1\n",
        Status::Refused,
        "refused: verilog syntax 9:1\n",
    ),
    (
        WIRES,
        "%%\ncycles 1\n",
        Status::Refused,
        "refused: verilog order w0\n",
    ),
    (
        LISTED,
        "%%\ncycles 1\n",
        Status::Refused,
        "refused: verilog listing 2\n",
    ),
    (
        TWICE,
        "%%\ncycles 1\n",
        Status::Refused,
        "refused: verilog twice w\n",
    ),
    (
        UNKNOWN,
        "%%\ncycles 1\n",
        Status::Refused,
        "refused: verilog unknown w\n",
    ),
    (
        UNASSIGNED,
        "%%\ncycles 1\n",
        Status::Refused,
        "refused: verilog unassigned w\n",
    ),
    (
        WIDE,
        "%%\ncycles 1\n",
        Status::Refused,
        "refused: verilog width w\n",
    ),
    (
        CHAIN,
        "%%\ncycles 3\nat 1 i0 255\nat 0 i1 1\nat 0 i0 3\n",
        Status::Done,
        "0 i0=3 i1=1 o0=7 o1=8 o2=0 o3=1\n1 i0=255 i1=0 o0=3 o1=9 o2=4 o3=0\n2 i0=0 i1=0 o0=255 o1=9 o2=4 o3=0\n",
    ),
    (
        CHAIN,
        "%%\ncycles 2\nat 1 i0 256\n",
        Status::Refused,
        "refused: data outside 19\n",
    ),
    (
        CHAIN,
        "%%\ncycles 2\nat 1 i1 2\n",
        Status::Refused,
        "refused: data outside 19\n",
    ),
    (
        CHAIN,
        "%%\ncycles 2\nat 2 i0 1\n",
        Status::Refused,
        "refused: data outside 19\n",
    ),
    (
        CHAIN,
        "%%\ncycles 2\nat 99999999999999999999 i0 1\n",
        Status::Refused,
        "refused: data outside 19\n",
    ),
    (
        CHAIN,
        "%%\ncycles 2\nat 0 i0 1\nat 1 i0 1\nat 0 i0 1\n",
        Status::Refused,
        "refused: data twice 21\n",
    ),
    (
        CHAIN,
        "%%\ncycles 2\nat 0 clk 1\n",
        Status::Refused,
        "refused: data unknown 19\n",
    ),
    (
        CHAIN,
        "%%\ncycles 2\nat 0 rst 1\n",
        Status::Refused,
        "refused: data unknown 19\n",
    ),
    (
        CHAIN,
        "%%\ncycles 2\nat 0 reg 1\n",
        Status::Refused,
        "refused: data syntax 19\n",
    ),
    (
        CHAIN,
        "%%\ncycles 2\nat 0 i0 -1\n",
        Status::Refused,
        "refused: data syntax 19\n",
    ),
    (
        CHAIN,
        "%%\ncycles 2\nat 0 i0 1 2\n",
        Status::Refused,
        "refused: data syntax 19\n",
    ),
    (
        CHAIN,
        "%%\nat 0 i0 1\n",
        Status::Refused,
        "refused: data syntax 18\n",
    ),
    (
        ONE_BIT,
        "%%\ncycles 4\nat 1 b 1\nat 2 a 1\nat 3 a 1\nat 3 b 1\n",
        Status::Done,
        "0 a=0 b=0 s=0 d=0 m=0 n=0 o=0 e=1 u=0 l=0 le=1 g=0 ge=1 sl=0 c=1\n1 a=0 b=1 s=1 d=1 m=0 n=0 o=1 e=0 u=1 l=1 le=1 g=0 ge=0 sl=0 c=1\n2 a=1 b=0 s=1 d=1 m=0 n=0 o=1 e=0 u=1 l=0 le=0 g=1 ge=1 sl=1 c=0\n3 a=1 b=1 s=0 d=0 m=1 n=1 o=1 e=1 u=0 l=0 le=1 g=0 ge=1 sl=0 c=1\n",
    ),
    (
        SEVEN_BITS,
        "%%\ncycles 2\nat 0 a 63\nat 0 b 64\nat 1 a 100\nat 1 b 77\n",
        Status::Done,
        "0 a=63 b=64 s=127 d=127 m=64 n=0 o=127 e=0 u=1 l=1 le=1 g=0 ge=0 sl=0 sg=1\n1 a=100 b=77 s=49 d=23 m=20 n=68 o=109 e=0 u=1 l=0 le=0 g=1 ge=1 sl=0 sg=1\n",
    ),
    (
        SIXTY_FOUR_BITS,
        "%%\ncycles 1\nat 0 a 9223372036854775807\nat 0 b 9223372036854775809\n",
        Status::Done,
        "0 a=9223372036854775807 b=9223372036854775809 s=0 d=18446744073709551614 m=18446744073709551615 l=1 sl=0\n",
    ),
];

#[test]
fn the_module_and_the_stimulus_fix_status_and_output(rt: HostRuntime) -> Result<(), Fail> {
    let alloc = rt.alloc();
    for (module, rest, status, out) in ROWS {
        let text = joined(alloc, &[module, "endmodule\n", rest])?;
        assert_given(&rt, alloc, &["sim"], text, *status, out, rest)?;
    }
    Ok(())
}
