//! The helpers of worked systems: a matrix times a vector, a matrix product, a convolution, forward substitution.

ghost use Rattle.std.specs.Prelude.{◌≡◌, [], IfOk};
ghost use Rattle.av_flat.specs.Trees.{view_system};
ghost use Rattle.av_flat.specs.Chained.{IsChained};
ghost use Rattle.av_flat.specs.Proper.{IsProper};
ghost use Rattle.av_flat.specs.Legal.{IsLegal};

use crate::asserts::same;
use crate::sched::{chained, lines, push_point};
use av_depend::edges;
use av_flat::{Flat, Helper, Pass, Reach, Timed};
use av_pipe::Pipe;
use av_sched::search;
use av_testing::texts::{CONVOLUTION, FORWARD, MATRIX_PRODUCT, MATRIX_VECTOR};
use std::alloc::Global;
use std::fmt::Write;
use std::process::Abort;
use std::test::Fail;

/// The first schedule in the greatest box.
fn timed(alloc: Global, flat: &Flat) -> Result<Timed, Fail>
    requires chained { IsChained (view_system flat.now) }
    requires proper { IsProper (view_system flat.now) }
    ensures legal { IfOk result IsLegal }
    ensures helpers { IfOk result (λ t. t.helpers ≡ []) }
{
    let reach = Reach::new(4).ok_or("reach")?;
    let edges = edges(alloc, flat)?;
    match search(alloc, flat, edges.as_slice(), reach) {
        Ok(timed) => Ok(timed),
        Err(_) => Err(Fail::new("a schedule")),
    }
}

/// The system of a text with N, where that is not 0, with its helpers.
fn piped(alloc: Global, text: &str, n: i64) -> Result<Timed, Fail> {
    let flat = chained(alloc, text, n)?;
    let timed = timed(alloc, &flat)?;
    Ok(Pipe.run(alloc, &timed)?)
}

fn push_helper(out: &mut String, timed: &Timed, helper: &Helper) -> Result<(), Fail> {
    let var = timed
        .flat
        .vars
        .as_slice()
        .get(helper.var as usize)
        .ok_or("a variable")?;
    write!(
        out,
        "{} {} {} (",
        var.name.as_str(),
        helper.piece,
        helper.site
    )?;
    push_point(out, &helper.direction)?;
    out.push_str(");")?;
    Ok(())
}

/// The helpers, each with its variable, its piece, its reference and its direction.
fn helpers(alloc: Global, timed: &Timed) -> Result<String, Fail> {
    let mut out = String::new(alloc);
    for helper in timed.helpers.as_slice() {
        push_helper(&mut out, timed, helper)?;
    }
    Ok(out)
}

fn assert_helpers(
    rt: &impl Abort,
    alloc: Global,
    text: &str,
    n: i64,
    wanted: &str,
) -> Result<(), Fail> {
    let timed = piped(alloc, text, n)?;
    same(rt, helpers(alloc, &timed)?.as_str(), wanted);
    Ok(())
}

/// A scalar where two neighbours are read, up and up, and up and down; and where one is read, down.
const UP: &str = "system t (S : {|} of integer) returns (Y : {i,j | 0<=i<=3; 0<=j<=3} of integer);
let Y[i,j] = case {| i=0} : 0; {| 1<=i; j=0} : 0; {| 1<=i; 1<=j} : Y[i-1,j] + Y[i,j-1] + S[]; esac; tel;";

const DOWN: &str = "system t (S : {|} of integer) returns (Y : {i,j | 0<=i<=3; 0<=j<=3} of integer);
let Y[i,j] = case {| i=0} : 0; {| 1<=i; j=3} : 0; {| 1<=i; j<=2} : Y[i-1,j] + Y[i,j+1] + S[]; esac; tel;";

const BACK: &str = "system t (S : {|} of integer) returns (Y : {i,j | 0<=i<=3; 0<=j<=3} of integer);
let Y[i,j] = case {| i=3} : 0; {| i<=2} : Y[i+1,j] + S[]; esac; tel;";

/// The reads of Y leave no linear part but (a,0). A[i] along the time itself is a broadcast that none of these moves, and B[i+j,j] is
/// none at all.
const STILL: &str =
    "system t (A : {i | 0<=i<=9} of integer; B : {i,j | 0<=i<=12; 0<=j<=9} of integer)
returns (Y : {i,j | 0<=i<=3; 0<=j<=9} of integer);
let Y[i,j] = case {| i=0} : 0; {| 1<=i; j<=3} : Y[i-1,j+4];
    {| 1<=i; 4<=j} : (if A[i] < B[i+j,j] then A[j] else A[i+3]) + Y[i-1,j-4]; esac; tel;";

/// Texts with N and the helpers.
const ROWS: &[(&str, i64, &str)] = &[
    // s[i,j-1] + M[i,j]*V[j]: of three references the last alone reads one value along a line
    (MATRIX_VECTOR, 4, "s 1 2 (1,0);"),
    // A[i,k]*B[k,j]: A is handed on along j, B along i
    (MATRIX_PRODUCT, 2, "C#1 0 0 (0,1,0);C#1 0 1 (1,0,0);"),
    // W[k]*X[i-k]: W goes along i, and X along both
    (CONVOLUTION, 0, "Y#1 0 0 (1,0);Y#1 0 1 (1,1);"),
    // L[i,j]*x[j]: what is handed on can be a computed word
    (FORWARD, 3, "x#1 0 1 (1,0);"),
    // the first of several directions that go up, in the order 0, 1, -1 of entries
    (UP, 0, "Y 2 2 (0,1);"),
    (DOWN, 0, "Y 2 2 (0,-1);"),
    (BACK, 0, "Y 1 1 (-1,0);"),
    // the parts of a choice are numbered in the order of the text, and A[j] is the third
    (STILL, 0, "Y 2 2 (1,0);"),
];

#[test]
fn helpers_of_systems(rt: HostRuntime) -> Result<(), Fail> {
    for (text, n, wanted) in ROWS {
        assert_helpers(&rt, rt.alloc(), text, *n, wanted)?;
    }
    Ok(())
}

#[test]
fn the_times_are_kept(rt: HostRuntime) -> Result<(), Fail> {
    let alloc = rt.alloc();
    let timed = piped(alloc, MATRIX_VECTOR, 4)?;
    same(&rt, lines(alloc, &timed)?.as_str(), "C (1) 4; s (1,1) -1");
    assert_eq!(rt; timed.flat.width.bits, 8);
    Ok(())
}
