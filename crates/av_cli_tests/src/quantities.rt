//! What `table` answers of the quantities of an array: each at its limit and one above.

use crate::answers::{answered, assert_end, repeated};
use av_cli::Status;
use std::test::Fail;

/// What a text begins with, what comes then so many times, how it ends, and the last line that is written for it.
type Row = (
    &'static str,
    &'static str,
    usize,
    &'static str,
    &'static str,
);

const ROWS: &[Row] = &[
    (
        "system t (X : {i|0<=i<=4095} of integer) returns (Y : {i|0<=i<=4095} of integer); let Y = X; tel;",
        "",
        0,
        "",
        "cycles 4096 cells 1 delays 0 links 0\n",
    ),
    (
        "system t (X : {i|-1<=i<=4095} of integer) returns (Y : {i|-1<=i<=4095} of integer); let Y = X; tel;",
        "",
        0,
        "",
        "refused: cycles 4097\n",
    ),
    (
        "system t () returns (Y : {i,j|0<=i<=2047;j=0} of integer); let Y = 1; tel;",
        "",
        0,
        "",
        "cycles 1 cells 2048 delays 0 links 0\n",
    ),
    (
        "system t () returns (Y : {i,j|0<=i<=2048;j=0} of integer); let Y = 1; tel;",
        "",
        0,
        "",
        "refused: cells 2049\n",
    ),
    // Sixteen delay lines of 2,048 registers, and nine of 3,641.
    (
        "system t () returns (Y : {i,j|0<=i<=15;0<=j<=2048} of integer); let Y[i,j] = case {|j<=2047} : 1; {|j>=2048} : Y[i,j-2048]; esac; tel;",
        "",
        0,
        "",
        "cycles 2049 cells 16 delays 32768 links 16\n",
    ),
    (
        "system t () returns (Y : {i,j|0<=i<=8;0<=j<=3641} of integer); let Y[i,j] = case {|j<=3640} : 1; {|j>=3641} : Y[i,j-3641]; esac; tel;",
        "",
        0,
        "",
        "refused: delays 32769\n",
    ),
    // Each point of Y reads with a delay of its own.
    (
        "system t () returns (Y : {i,j|0<=i<=127;0<=j<=127} of integer); var Z : {i,j|0<=i<=127;0<=j<=254} of integer; let Y[i,j] = Z[i,2j]; Z = 1; tel;",
        "",
        0,
        "",
        "cycles 256 cells 256 delays 16384 links 16384\n",
    ),
    (
        "system t () returns (Y : {i,j|0<=i<=112;0<=j<=144} of integer); var Z : {i,j|0<=i<=112;0<=j<=288} of integer; let Y[i,j] = Z[i,2j]; Z = 1; tel;",
        "",
        0,
        "",
        "refused: links 16385\n",
    ),
    // On each of 512 cells a tree of 1,024 constants and one of a constant alone.
    (
        "system t () returns (Y : {i,j|0<=i<=511;0<=j<=1} of integer); let Y = case {|j=0} : (1+1+1+1+1+1+1+1+1+1+1+1+1+1+1+1+1+1+1+1+1+1+1+1+1+1+1+1+1+1+1+1)",
        "+(1+1+1+1+1+1+1+1+1+1+1+1+1+1+1+1+1+1+1+1+1+1+1+1+1+1+1+1+1+1+1+1)",
        31,
        "; {|j=1} : 1; esac; tel;",
        "cycles 2 cells 512 delays 0 links 0\n",
    ),
    (
        "system t () returns (Y : {i,j|0<=i<=511;0<=j<=1} of integer; Z : {i|i=0} of integer); let Z = 1; Y = case {|j=0} : (1+1+1+1+1+1+1+1+1+1+1+1+1+1+1+1+1+1+1+1+1+1+1+1+1+1+1+1+1+1+1+1)",
        "+(1+1+1+1+1+1+1+1+1+1+1+1+1+1+1+1+1+1+1+1+1+1+1+1+1+1+1+1+1+1+1+1)",
        31,
        "; {|j=1} : 1; esac; tel;",
        "refused: operators 1048577\n",
    ),
];

#[test]
fn quantities_at_their_limits_and_one_above(rt: HostRuntime) -> Result<(), Fail> {
    let alloc = rt.alloc();
    for (before, part, count, after, line) in ROWS {
        let text = repeated(alloc, before, part, *count, after)?;
        let answer = answered(alloc, &["table"], text, 4_000_000)?;
        let refused = answer.sink.held().starts_with(b"refused: ");
        let status = if refused {
            Status::Refused
        } else {
            Status::Done
        };
        assert_end(&rt, &answer, status, line);
    }
    Ok(())
}
