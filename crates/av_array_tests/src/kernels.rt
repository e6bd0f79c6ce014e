//! Texts of kernels, as designers build them; those that more crates of tests give stand in av_testing.

pub(crate) const FILTER: &str = "system filter :{N | N>=3}
  (W : {k | 0<=k<=2} of integer; X : {n | 0<=n<N} of integer)
  returns (Y : {n | 2<=n<N} of integer);
let Y[n] = reduce(+, (n,k -> n), W[k]*X[n-k]); tel;";

pub(crate) const FILTER_RECURRENCE: &str = "system filter :{N | N>=3}
  (W : {k | 0<=k<=2} of integer; X : {n | 0<=n<N} of integer)
  returns (Y : {n | 2<=n<N} of integer);
var s : {n,k | 2<=n<N; 0<=k<=2} of integer;
let
  s[n,k] = case
    {| k=0} : W[k]*X[n-k];
    {| k>=1} : s[n,k-1] + W[k]*X[n-k];
  esac;
  Y[n] = s[n,2];
tel;";

pub(crate) const RECURSIVE_FILTER: &str = "system iir :{N,S | N>=1; S>=1}
  (B : {s,k | 1<=s<=S; 0<=k<=2} of integer;
   A : {s,k | 1<=s<=S; 1<=k<=2} of integer;
   X : {n | 0<=n<N} of integer)
  returns (Y : {n | 0<=n<N} of integer);
var y : {s,n | 0<=s<=S; -2<=n<N} of integer;
let
  y[s,n] = case
    {| n<0} : 0[];
    {| s=0; n>=0} : X[n];
    {| s>=1; n>=0} : B[s,0]*y[s-1,n] + B[s,1]*y[s-1,n-1] + B[s,2]*y[s-1,n-2] - A[s,1]*y[s,n-1] - A[s,2]*y[s,n-2];
  esac;
  Y[n] = y[S,n];
tel;";

pub(crate) const IMAGE_FILTER: &str = "system filter2 :{N | N>=3}
  (W : {k,l | 0<=k<=1; 0<=l<=1} of integer; X : {i,j | 0<=i<=N; 0<=j<=N} of integer)
  returns (Y : {i,j | 1<=i<=N; 1<=j<=N} of integer);
let
  Y[i,j] = reduce(+, (i,j,k -> i,j), {i,j,k | 0<=k<=1} : reduce(+, (i,j,k,l -> i,j,k), W[k,l]*X[i-k,j-l]));
tel;";

pub(crate) const WINDOW: &str = "system window :{N,M | N>=3; M>=3}
  (W : {k,l | 0<=k<=2; 0<=l<=2} of integer; X : {i,j | 1<=i<=N; 1<=j<=M} of integer)
  returns (Y : {i,j | 3<=i<=N; 3<=j<=M} of integer);
var x : {i,j | 1<=i<=N; 1<=j<=M} of integer;
let
  x[i,j] = X[i,j];
  Y[i,j] = reduce(+, (l,i,j -> i,j), W[0,l]*x[i,j-l])
         + reduce(+, (l,i,j -> i,j), W[1,l]*x[i-1,j-l])
         + reduce(+, (l,i,j -> i,j), W[2,l]*x[i-2,j-l]);
tel;";

pub(crate) const POLYNOMIAL_PRODUCT: &str = "system polynomials :{N,M | N>=0; M>=0}
  (A : {i | 0<=i<=N} of integer; B : {j | 0<=j<=M} of integer)
  returns (C : {k | 0<=k<=N+M} of integer);
let C[k] = reduce(+, (i,k -> k), A[i]*B[k-i]); tel;";

pub(crate) const RECTANGULAR_PRODUCT: &str = "system product :{N,K,M | N>=1; K>=1; M>=1}
  (A : {i,k | 1<=i<=N; 1<=k<=K} of integer; B : {k,j | 1<=k<=K; 1<=j<=M} of integer)
  returns (C : {i,j | 1<=i<=N; 1<=j<=M} of integer);
let C[i,j] = reduce(+, (i,j,k -> i,j), A[i,k]*B[k,j]); tel;";

pub(crate) const TRIANGULAR_SOLVE: &str = "system solve :{N,M | N>=1; M>=1}
  (L : {i,j | 1<=j<i; i<=N} of integer; B : {i,m | 1<=i<=N; 1<=m<=M} of integer)
  returns (X : {i,m | 1<=i<=N; 1<=m<=M} of integer);
let X[i,m] = B[i,m] - reduce(+, (i,j,m -> i,m), L[i,j]*X[j,m]); tel;";

pub(crate) const MAXIMUM: &str = "system maximum :{N | N>=1} (X : {i | 1<=i<=N} of integer)
  returns (M : {i | 1<=i<=N} of integer);
let
  M[i] = case
    {| i=1} : X[i];
    {| i>=2} : max(M[i-1], X[i]);
  esac;
tel;";

pub(crate) const DIAGONAL: &str = "system diagonal (A : {i,j | 0<=i<=1; 0<=j<=1} of integer)
  returns (D : {i,j | 0<=i<=1; 0<=j<=1} of integer);
let
  D[i,j] = case
    {| i=0} : A[i,j];
    {| i>=1; j=0} : A[i,j];
    {| i>=1; j>=1} : D[i-1,j-1] + A[i,j];
  esac;
tel;";

pub(crate) const HORNER: &str = "system horner :{N,M | N>=1; M>=1}
  (A : {k | 0<=k<=N} of integer; X : {i | 1<=i<=M} of integer)
  returns (Y : {i | 1<=i<=M} of integer);
var h : {i,k | 1<=i<=M; 0<=k<=N} of integer;
let
  h[i,k] = case
    {| k=0} : A[k];
    {| k>=1} : h[i,k-1]*X[i] + A[k];
  esac;
  Y[i] = h[i,N];
tel;";

pub(crate) const EDIT_DISTANCE: &str = "system distance :{N,M | N>=1; M>=1}
  (A : {i | 1<=i<=N} of integer; B : {j | 1<=j<=M} of integer)
  returns (E : {} of integer);
var D : {i,j | 0<=i<=N; 0<=j<=M} of integer;
let
  D[i,j] = case
    {| i=0; j=0} : 0[];
    {| i>=1; j=0} : D[i-1,j] + 1;
    {| i=0; j>=1} : D[i,j-1] + 1;
    {| i>=1; j>=1} : min(min(D[i-1,j], D[i,j-1]) + 1, D[i-1,j-1] + (if A[i] = B[j] then 0 else 1));
  esac;
  E[] = D[N,M];
tel;";

pub(crate) const LOCAL_ALIGNMENT: &str = "system align :{N,M | N>=1; M>=1}
  (A : {i | 1<=i<=N} of integer; B : {j | 1<=j<=M} of integer)
  returns (S : {} of integer);
var H : {i,j | 0<=i<=N; 0<=j<=M} of integer;
let
  H[i,j] = case
    {| i=0} : 0[];
    {| i>=1; j=0} : 0[];
    {| i>=1; j>=1} : max(0, max(H[i-1,j-1] + (if A[i] = B[j] then 3 else -3), max(H[i-1,j], H[i,j-1]) - 2));
  esac;
  S[] = reduce(max, (i -> ), {i | 1<=i<=N} : reduce(max, (i,j -> i), H[i,j]));
tel;";

pub(crate) const INSERTION_SORT: &str = "system sort :{N | N>=1} (X : {j | 1<=j<=N} of integer)
  returns (Y : {i | 1<=i<=N} of integer);
var kept : {i,j | 1<=i<=N; 0<=j<=N} of integer;
    handed : {i,j | 0<=i<=N; 1<=j<=N} of integer;
let
  kept[i,j] = case
    {| j=0} : 127[];
    {| j>=1} : min(kept[i,j-1], handed[i-1,j]);
  esac;
  handed[i,j] = case
    {| i=0} : X[j];
    {| i>=1} : max(kept[i,j-1], handed[i-1,j]);
  esac;
  Y[i] = kept[i,N];
tel;";
