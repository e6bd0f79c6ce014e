//! Texts with reductions.

pub(super) const SUMS: &str =
    "system sums (X : {i | 0<=i<=2} of integer) returns (P : {i | 0<=i<=2} of integer);
let P[i] = case {| i=0} : X[i]; {| i>=1} : P[i-1] + X[i]; esac; tel;";

/// The kept indices of the inner reduction stand the other way round, and the last reduction has no point.
pub(super) const NESTED: &str = "system t (A : {i,j,k | 0<=i<=1; 0<=j<=2; 0<=k<=1} of integer)
  returns (Y : {i | 0<=i<=1} of integer);
let Y[i] = reduce(+, (i,j -> i), {i,j | 0<=j<=2} : reduce(max, (i,j,k -> j,i), A[j,i,k]))
  + reduce(*, (j,i -> i), {j,i | 1<=j<=0} : A[i,j,0]); tel;";

/// Three upper bounds, of which two are equal at 1 and at 3, and all three at 2 where the last one is 2.
pub(super) const TIES: &str =
    "system t (X : {i | 0<=i<=4} of integer) returns (Y : {i | 0<=i<=4} of integer);
let Y[i] = reduce(max, (i,j -> i), {i,j | 0<=j; j<=i; j<=4-i; j<=2} : X[j]); tel;";

/// The fibre at (0,1) is empty, and those at (0,0) and (1,0) are not.
pub(super) const GAP: &str =
    "system t (X : {k | 0<=k<=1} of integer) returns (Y : {i,j | 0<=i<=1; 0<=j<=1} of integer);
let Y[i,j] = reduce(*, (i,j,k -> i,j), {i,j,k | 0<=k; k<=i-j} : X[k]); tel;";

/// Chains of two equations, one of which has two pieces.
pub(super) const SEVERAL: &str =
    "system t (X : {i | 0<=i<=1} of integer) returns (Y : {i | 0<=i<=1} of integer);
var s : {i | 0<=i<=1} of integer;
let
  s[i] = reduce(+, (i,j -> i), {i,j | 0<=j<=i} : X[j]);
  Y[i] = case {| i=0} : reduce(max, (i,j -> i), X[j] + s[j]); {| i=1} : reduce(+, (i,j -> i), X[j]) * s[i]; esac;
tel;";

pub(super) const STEEP: &str =
    "system t (X : {i | 0<=i<=2} of integer) returns (Y : {i | 0<=i<=4} of integer);
let Y[i] = reduce(+, (i,j -> i), {i,j | 0<=j; 2j<=i} : X[j]); tel;";

/// The reduction inside has a word everywhere, so that nothing bounds the index of the outer one.
pub(super) const ENDLESS: &str = "system t (A : {i,j,k | 0<=i<=1; 0<=j<=2; 0<=k<=1} of integer)
  returns (Y : {i | 0<=i<=1} of integer);
let Y[i] = reduce(+, (i,j -> i), reduce(max, (i,j,k -> i,j), A[i,j,k])); tel;";

/// The outer reduction is unbounded, and the inner one has a steep row.
pub(super) const ENDLESS_BEFORE_STEEP: &str =
    "system t (X : {i | 0<=i<=2} of integer) returns (Y : {i | 0<=i<=1} of integer);
let Y[i] = reduce(+, (i,j -> i), reduce(max, (i,j,k -> i,j), {i,j,k | 0<=2*k<=i} : X[k])); tel;";

/// A box of 65,536 points, one of 65,538, and a coordinate of 4,096.
pub(super) const LARGEST_BOX: &str =
    "system t (X : {i | 0<=i<=255} of integer) returns (Y : {i | 0<=i<=255} of integer);
let Y[i] = reduce(+, (i,j -> i), X[j]); tel;";

pub(super) const LARGER_BOX: &str =
    "system t (X : {i | 0<=i<=330} of integer) returns (Y : {i | 0<=i<=197} of integer);
let Y[i] = reduce(+, (i,j -> i), X[j]); tel;";

pub(super) const LARGE_COORDINATE: &str =
    "system t (X : {i | 0<=i<=4095} of integer) returns (Y : {i | 0<=i<=1} of integer);
let Y[i] = reduce(+, (i,j -> i), X[j-1]); tel;";
