//! Many candidates.

use super::assert_schedule;
use av_testing::texts::TEN;
use std::alloc::Global;
use std::fmt::Write;
use std::test::Fail;

const THREE: &str = "system t (A : {i | 0<=i<=2} of integer) \
returns (X : {i,j,k | 0<=i<=3; 0<=j<=3; 0<=k<=3} of integer; \
Y : {i,j,k | 0<=i<=3; 0<=j<=3; 0<=k<=3} of integer; \
Z : {i,j,k | 0<=i<=3; 0<=j<=3; 0<=k<=3} of integer); \
let X[i,j,k] = Y[i,j,k]; Y[i,j,k] = Z[i,j,k]; Z[i,j,k] = X[i,j,k]; tel;";

#[test]
fn ten_outputs(rt: HostRuntime) -> Result<(), Fail> {
    let alloc = rt.alloc();
    assert_schedule(&rt, alloc, TEN, 0, 2, "candidates 9765625")?;
    assert_schedule(&rt, alloc, TEN, 0, 1, "no schedule X1")?;
    Ok(())
}

// 1,953,125 candidates, of which none is feasible.
#[test]
fn two_million(rt: HostRuntime) -> Result<(), Fail> {
    let alloc = rt.alloc();
    assert_schedule(&rt, alloc, THREE, 0, 2, "no schedule X")?;
    Ok(())
}

// So many outputs in a circle: each reads the one before at its own index, and the first one the last at the index before.
fn circle(alloc: Global, count: u32) -> Result<String, Fail> {
    let mut text = String::from_str(alloc, "system t (A : {i | 0<=i<=2} of integer) returns (X0")?;
    for k in 1..count {
        write!(text, ",X{k}")?;
    }
    text.push_str(" : {i | 0<=i<=2} of integer); let X0[i] = case {| i=0} : 0; {| i>=1} : ")?;
    let last = count.wrapping_sub(1);
    write!(text, "X{last}[i-1]; esac;")?;
    for k in 1..count {
        let before = k.wrapping_sub(1);
        write!(text, " X{k}[i] = X{before}[i];")?;
    }
    text.push_str(" tel;")?;
    Ok(text)
}

// A number of outputs, a box, and the answer: 4,194,304 candidates are the most. 4,782,969 are the next number that a component can have,
// of 14 indices in the smallest box and of 7 in the greatest; below it are 1,594,323 and 531,441. Once round such a circle takes more
// cycles than an entry of its box.
const CIRCLES: &[(u32, u32, &str)] = &[
    (14, 1, "candidates 4782969"),
    (13, 1, "no schedule X0"),
    (7, 4, "candidates 4782969"),
    (6, 4, "no schedule X0"),
    (4, 4, "X0 (4) 0; X1 (4) 1; X2 (4) 2; X3 (4) 3"),
];

#[test]
fn circles_at_the_limit(rt: HostRuntime) -> Result<(), Fail> {
    let alloc = rt.alloc();
    for (count, size, wanted) in CIRCLES {
        let text = circle(alloc, *count)?;
        assert_schedule(&rt, alloc, text.as_str(), 0, *size, wanted)?;
    }
    Ok(())
}
