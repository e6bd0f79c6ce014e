//! The texts of plans that take problem after problem.

pub(super) const INCREMENT: &str =
    "system inc (X : {i | 0<=i<=2} of integer) returns (Y : {i | 0<=i<=2} of integer); let Y[i] = X[i] + 1; tel;";

/// No cell of it chooses, so it has no counter.
pub(super) const INCREMENT_STREAM: &str = "// alphav 2
// period 3
// in X (0) i0 0
// in X (1) i0 1
// in X (2) i0 2
// at Y (0) o0 0
// at Y (1) o0 1
// at Y (2) o0 2
module k0(input [7:0] i0, output [7:0] v);
  assign v = i0 + 8'd1;
endmodule
module array(input clk, input rst, input [7:0] i0, output [7:0] o0);
  wire [7:0] c0;
  k0 u0 (.i0(i0), .v(c0));
  assign o0 = c0;
endmodule
";

/// Of a matrix of two rows. The cell of the results computes in the cycles 3 and 4, whose phases are 0 and 1, and that of the second row in
/// the cycles 1 to 3, of which the last has the phase 0.
pub(super) const MATRIX_VECTOR_STREAM: &str = "// alphav 2
// period 3
// in M (1,1) i0 1
// in M (1,2) i0 2
// in M (2,1) i1 2
// in M (2,2) i1 3
// in V (1) i2 1
// in V (2) i2 2
// at C (1) o0 3
// at C (2) o0 4
// at s (1,0) c1 0
// at s (1,1) c1 1
// at s (1,2) c1 2
// at s (2,0) c2 1
// at s (2,1) c2 2
// at s (2,2) c2 3
module k0(input [11:0] cyc, input [7:0] t0, input [7:0] t1, input [11:0] b0, output [7:0] v);
  wire [0:0] w0;
  assign w0 = cyc <= b0;
  assign v = w0 ? t0 : t1;
endmodule
module k1(input [11:0] cyc, input [7:0] i0, input [11:0] b0, input [11:0] b1, input [7:0] t0, input [11:0] b2, input [11:0] b3, input [7:0] t1, input [7:0] i1, output [7:0] p0, output [7:0] v);
  wire [0:0] w0;
  wire [0:0] w1;
  wire [0:0] w2;
  wire [7:0] w3;
  wire [7:0] w4;
  wire [0:0] w5;
  wire [0:0] w6;
  wire [0:0] w7;
  assign w0 = cyc >= b0;
  assign w1 = cyc <= b1;
  assign w2 = w0 & w1;
  assign p0 = w2 ? i0 : t0;
  assign w3 = i1 * p0;
  assign w4 = t1 + w3;
  assign w5 = cyc >= b2;
  assign w6 = cyc <= b3;
  assign w7 = w5 & w6;
  assign v = w7 ? 8'd0 : w4;
endmodule
module array(input clk, input rst, input [7:0] i0, input [7:0] i1, input [7:0] i2, output [7:0] o0);
  wire [7:0] c0;
  wire [7:0] c1_1;
  wire [7:0] c1;
  wire [7:0] c2_1;
  wire [7:0] c2;
  wire [0:0] phase_last;
  wire [11:0] phase_sum;
  wire [11:0] phase_next;
  reg [7:0] r1_1;
  reg [7:0] r1_0;
  reg [7:0] r2_0;
  reg [11:0] phase;
  k0 u0 (.cyc(phase), .t0(r1_0), .t1(r2_0), .b0(12'd0), .v(c0));
  k1 u1 (.cyc(phase), .i0(i2), .b0(12'd1), .b1(12'd2), .t0(8'd0), .b2(12'd0), .b3(12'd0), .t1(r1_0), .i1(i0), .p0(c1_1), .v(c1));
  k1 u2 (.cyc(phase), .i0(8'd0), .b0(12'd1), .b1(12'd0), .t0(r1_1), .b2(12'd1), .b3(12'd1), .t1(r2_0), .i1(i1), .p0(c2_1), .v(c2));
  assign o0 = c0;
  assign phase_last = phase == 12'd2;
  assign phase_sum = phase + 12'd1;
  assign phase_next = phase_last ? 12'd0 : phase_sum;
  always @(posedge clk) if (rst) r1_1 <= 8'd0; else r1_1 <= c1_1;
  always @(posedge clk) if (rst) r1_0 <= 8'd0; else r1_0 <= c1;
  always @(posedge clk) if (rst) r2_0 <= 8'd0; else r2_0 <= c2;
  always @(posedge clk) if (rst) phase <= 12'd0; else phase <= phase_next;
endmodule
";
