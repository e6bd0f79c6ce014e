//! Texts that several crates of tests give, and a design that they expect.

pub const MATRIX_VECTOR: &str = "system matvect :{N | N>1}
  (M : {i,j | 1<=i<=N; 1<=j<=N} of integer;
   V : {i | 1<=i<=N} of integer)
  returns (C : {i | 1<=i<=N} of integer);
var s : {i,j | 1<=i<=N; 0<=j<=N} of integer;
let
  s[i,j] = case
    {| j=0} : 0[];
    {| 1<=j} : s[i,j-1] + M[i,j]*V[j];
  esac;
  C[i] = s[i,N];
tel;
";

pub const MATRIX_PRODUCT: &str = "system matmul :{N | N>=1} \
(A : {i,k | 1<=i<=N; 1<=k<=N} of integer; B : {k,j | 1<=k<=N; 1<=j<=N} of integer) \
returns (C : {i,j | 1<=i<=N; 1<=j<=N} of integer); \
let C[i,j] = reduce(+, (i,j,k -> i,j), A[i,k]*B[k,j]); tel;";

pub const CONVOLUTION: &str =
    "system conv (W : {k | 0<=k<=2} of integer; X : {i | 0<=i<=4} of integer) \
returns (Y : {i | 2<=i<=4} of integer); let Y[i] = reduce(+, (i,k -> i), W[k]*X[i-k]); tel;";

pub const FORWARD: &str = "system forward :{N | N>=1} \
(L : {i,j | 1<=j; j<i; i<=N} of integer; b : {i | 1<=i<=N} of integer) \
returns (x : {i | 1<=i<=N} of integer); let x[i] = b[i] - reduce(+, (i,j -> i), L[i,j]*x[j]); tel;";

pub const ROW_SUMS: &str = "system t (A : {i,j | 0<=i<=1; 0<=j<=2} of integer) \
returns (Y : {i | 0<=i<=1} of integer); let Y[i] = reduce(+, (i,j -> i), A[i,j]); tel;";

pub const LEAST: &str = "system t (X : {i | 0<=i<=1} of integer) \
returns (Y : {i | 0<=i<=2} of integer); \
let Y[i] = reduce(min, (i,j -> i), {i,j | 0<=j; j<i} : X[j]); tel;";

pub const TILTED_SQUARE: &str = "system t (A : {i,j | 0<=i+j<=4; 0<=i-j<=4} of integer) \
returns (Y : {i,j | 0<=i+j<=4; 0<=i-j<=4} of integer); let Y[i,j] = A[i,j]; tel;";

pub const RUNNING_SUMS: &str = "system t (X : {i | 0<=i<=2} of integer) \
returns (P : {i | 0<=i<=2} of integer); \
let P[i] = case {| i=0} : X[i]; {| i>=1} : P[i-1] + X[i]; esac; tel;";

pub const CIRCLE: &str = "system t (A : {i | 0<=i<=2} of integer) \
returns (X : {i | 0<=i<=2} of integer); var Y : {i | 0<=i<=2} of integer; \
let X[i] = Y[i]; Y[i] = X[i]; tel;";

pub const TURNED: &str = "system t (A : {i | 0<=i<=2} of integer) \
returns (X : {i | 0<=i<=2} of integer); \
let X[i] = case {| i=0} : X[i+2]; {| i=2} : X[i-1]; {| i=1} : A[i]; esac; tel;";

pub const NO_POINT: &str = "system t (X : {i | 0<=i<=2} of integer) \
returns (Y : {i | 1<=i<=0} of integer); let Y[i] = X[i]; tel;";

pub const TEN: &str = "system t (A : {i | 0<=i<=2} of integer) \
returns (X1 : {i | 0<=i<=2} of integer; X2 : {i | 0<=i<=2} of integer; \
X3 : {i | 0<=i<=2} of integer; X4 : {i | 0<=i<=2} of integer; X5 : {i | 0<=i<=2} of integer; \
X6 : {i | 0<=i<=2} of integer; X7 : {i | 0<=i<=2} of integer; X8 : {i | 0<=i<=2} of integer; \
X9 : {i | 0<=i<=2} of integer; X10 : {i | 0<=i<=2} of integer); \
let X1[i] = case {| i=0} : 0[]; {| i>=1} : X10[i-1]; esac; X2[i] = X1[i]; X3[i] = X2[i]; \
X4[i] = X3[i]; X5[i] = X4[i]; X6[i] = X5[i]; X7[i] = X6[i]; X8[i] = X7[i]; X9[i] = X8[i]; \
X10[i] = X9[i]; tel;";

pub const SWEEP: &str = "system sweep (A : {j | 0<=j<=255} of integer) \
    returns (S : {i,j | 0<=i<=255; 0<=j<=255} of integer); \
    let S[i,j] = case {| i=0} : A[j]; {| i>=1} : S[i-1,j] + 1; esac; tel;";

/// The increment of three inputs of 8 bits, as the one sum that its array is.
pub const INCREMENT_DESIGN: &str = "// alphav 1
// in X (0) i0 0
// in X (1) i0 1
// in X (2) i0 2
// at Y (0) o0 0
// at Y (1) o0 1
// at Y (2) o0 2
module array(input clk, input rst, input [7:0] i0, output [7:0] o0);
  wire [7:0] c0;
  assign c0 = i0 + 8'd1;
  assign o0 = c0;
endmodule
";

/// The array of the increment of three inputs of 8 bits.
pub const INCREMENT_PLAN: &str = "// alphav 2
// in X (0) i0 0
// in X (1) i0 1
// in X (2) i0 2
// at Y (0) o0 0
// at Y (1) o0 1
// at Y (2) o0 2
module k0(input [7:0] i0, output [7:0] v);
  assign v = i0 + 8'd1;
endmodule
module array(input clk, input rst, input [7:0] i0, output [7:0] o0);
  wire [7:0] c0;
  k0 u0 (.i0(i0), .v(c0));
  assign o0 = c0;
endmodule
";
