//! What `check` answers of pieces, sets and boxes: each quantity at its limit and one above.

use crate::answers::{assert_given, repeated};
use av_cli::Status;
use std::test::Fail;

/// What a text begins with, what comes then so many times, how it ends, and the line that is written for it.
type Row = (
    &'static str,
    &'static str,
    usize,
    &'static str,
    &'static str,
);

const ROWS: &[Row] = &[
    // Pieces, counted before any is dropped.
    (
        "system t () returns (Y : {i|1<=i<=0} of integer); let Y = case ",
        "1; ",
        256,
        "esac; tel;",
        "ok\n",
    ),
    (
        "system t () returns (Y : {i|1<=i<=0} of integer); let Y = case ",
        "1; ",
        257,
        "esac; tel;",
        "refused: pieces 257\n",
    ),
    (
        "system t () returns (Y : {i|1<=i<=0} of integer); let Y = 0",
        " + case 1; 2; esac",
        8,
        "; tel;",
        "ok\n",
    ),
    (
        "system t () returns (Y : {i|1<=i<=0} of integer); let Y = 0",
        " + case 1; 2; esac",
        9,
        "; tel;",
        "refused: pieces 512\n",
    ),
    (
        "system t () returns (Y : {i|1<=i<=0} of integer); let Y = 0",
        " + case 1; 2; esac",
        130,
        "; tel;",
        "refused: pieces 340282366920938463463374607431768211455\n",
    ),
    // Composed maps, step by step outwards.
    (
        "system t (X : {i|0<=i<=2} of integer) returns (Y : {i|i=0} of integer); let Y = (X).(i->1024i)",
        "",
        0,
        ".(i->i); tel;",
        "ok\n",
    ),
    (
        "system t (X : {i|0<=i<=2} of integer) returns (Y : {i|i=0} of integer); let Y = (X).(i->1024i)",
        "",
        0,
        ".(i->2i); tel;",
        "refused: limit coefficient 2048\n",
    ),
    (
        "system t (X : {i|0<=i<=2} of integer) returns (Y : {i|i=0} of integer); let Y = (X).(i->1024i).(i->2i)",
        "",
        0,
        ".(i->0); tel;",
        "refused: limit coefficient 2048\n",
    ),
    (
        "system t (X : {i|0<=i<=2} of integer) returns (Y : {i|i=0} of integer); let Y = (X).(i->i+1048575).(i->i+1)",
        "",
        0,
        ".(i->i-1048576); tel;",
        "ok\n",
    ),
    (
        "system t (X : {i|0<=i<=2} of integer) returns (Y : {i|i=0} of integer); let Y = (X).(i->i+1048576).(i->i+1)",
        "",
        0,
        ".(i->i-1048577); tel;",
        "refused: limit constant 1048577\n",
    ),
    (
        "system t (X : {i|0<=i<=2} of integer) returns (Y : {i|i=0} of integer); let Y = ({i|i>=0} : X).(i->1024i)",
        "",
        0,
        ".(i->2i); tel;",
        "refused: limit coefficient 2048\n",
    ),
    // Rows of pieces.
    (
        "system t (X : {i,j|0<=i<=1;0<=j<=1;0<=32i+j} of integer) returns (Y : {i,j|i=0;j=0} of integer); let Y[i,j] = X[32i,j]; tel;",
        "",
        0,
        "",
        "ok\n",
    ),
    (
        "system t (X : {i,j|0<=i<=1;0<=j<=1;0<=33i+j} of integer) returns (Y : {i,j|i=0;j=0} of integer); let Y[i,j] = X[32i,j]; tel;",
        "",
        0,
        "",
        "refused: limit coefficient 1056\n",
    ),
    // Rows of declared domains.
    (
        "system t (X : {i,j|0<=i;0<=j;i+2j<=9;i+3j<=9;i+4j<=9;i+5j<=9;i+6j<=9;i+7j<=9;i+8j<=9;i+9j<=9;i+10j<=9;i+11j<=9;i+12j<=9;i+13j<=9;i+14j<=9;i+15j<=9;i+16j<=9;i+17j<=9;i+18j<=9;i+19j<=9} of integer) returns (Y : {|} of integer); let Y = 1; tel;",
        "",
        0,
        "",
        "ok\n",
    ),
    (
        "system t (X : {i,j|0<=i;0<=j;i+2j<=9;i+3j<=9;i+4j<=9;i+5j<=9;i+6j<=9;i+7j<=9;i+8j<=9;i+9j<=9;i+10j<=9;i+11j<=9;i+12j<=9;i+13j<=9;i+14j<=9;i+15j<=9;i+16j<=9;i+17j<=9;i+18j<=9;i+19j<=9;i+20j<=9} of integer) returns (Y : {|} of integer); let Y = 1; tel;",
        "",
        0,
        "",
        "refused: limit constraints 21\n",
    ),
    // Rows of a body's set.
    (
        "system t (X : {i,j,k|0<=k<=1;0<=i;0<=j<=9;i+2k<=9;i+3k<=9;i+4k<=9;i+5k<=9;i+6k<=9;i+7k<=9;i+8k<=9} of integer) returns (Y : {i,j|0<=i;0<=j;i+2j<=9;i+3j<=9;i+4j<=9;i+5j<=9;i+6j<=9;i+7j<=9;i+8j<=9;i+9j<=9} of integer); let Y[i,j] = reduce(+, (i,j,k->i,j), X[i,j,k]); tel;",
        "",
        0,
        "",
        "ok\n",
    ),
    (
        "system t (X : {i,j,k|0<=k<=1;0<=i;0<=j<=9;i+2k<=9;i+3k<=9;i+4k<=9;i+5k<=9;i+6k<=9;i+7k<=9;i+8k<=9;i+9k<=9} of integer) returns (Y : {i,j|0<=i;0<=j;i+2j<=9;i+3j<=9;i+4j<=9;i+5j<=9;i+6j<=9;i+7j<=9;i+8j<=9;i+9j<=9} of integer); let Y[i,j] = reduce(+, (i,j,k->i,j), X[i,j,k]); tel;",
        "",
        0,
        "",
        "refused: limit constraints 21\n",
    ),
    // Unbounded domains.
    (
        "system t (X : {i|0<=i} of integer) returns (Y : {i|i=0} of integer); let Y = 1; tel;",
        "",
        0,
        "",
        "refused: unbounded X\n",
    ),
    (
        "system t (X : {i,j|1<=i<=0;0<=j} of integer) returns (Y : {i|i=0} of integer); let Y = 1; tel;",
        "",
        0,
        "",
        "ok\n",
    ),
    (
        "system t (X : {i,j|0<=i<=4096;0<=j} of integer) returns (Y : {i|i=0} of integer); let Y = 1; tel;",
        "",
        0,
        "",
        "refused: unbounded X\n",
    ),
    // Boxes, coordinates first.
    (
        "system t (X : {i|0<=i<=4095} of integer) returns (Y : {i|i=0} of integer); let Y = 1; tel;",
        "",
        0,
        "",
        "ok\n",
    ),
    (
        "system t (X : {i|0<=i<=4096} of integer) returns (Y : {i|i=0} of integer); let Y = 1; tel;",
        "",
        0,
        "",
        "refused: limit coordinate 4096\n",
    ),
    (
        "system t (X : {i|-4096<=i<=0} of integer) returns (Y : {i|i=0} of integer); let Y = 1; tel;",
        "",
        0,
        "",
        "refused: limit coordinate 4096\n",
    ),
    (
        "system t (X : {i,j|1<=(i,j)<=256} of integer) returns (Y : {i|i=0} of integer); let Y = 1; tel;",
        "",
        0,
        "",
        "ok\n",
    ),
    (
        "system t (X : {i,j|1<=i<=257;1<=j<=256} of integer) returns (Y : {i|i=0} of integer); let Y = 1; tel;",
        "",
        0,
        "",
        "refused: limit box 65792\n",
    ),
    (
        "system t (X : {i,j|0<=i<=4096;0<=j<=255} of integer) returns (Y : {i|i=0} of integer); let Y = 1; tel;",
        "",
        0,
        "",
        "refused: limit coordinate 4096\n",
    ),
    // A piece without a whole point, in a set with rational ones.
    (
        "system t () returns (Y : {i,j|0<=(i,j)<=1} of integer); let Y = case {|3i+j>=2;i+3j>=2;i+j<=1} : 7; {|} : 1; esac; tel;",
        "",
        0,
        "",
        "ok\n",
    ),
];

#[test]
fn quantities_at_their_limits_and_one_above(rt: HostRuntime) -> Result<(), Fail> {
    let alloc = rt.alloc();
    for (before, part, count, after, line) in ROWS {
        let text = repeated(alloc, before, part, *count, after)?;
        let status = if *line == "ok\n" {
            Status::Done
        } else {
            Status::Refused
        };
        assert_given(&rt, alloc, &["check"], text, status, line, after)?;
    }
    Ok(())
}
