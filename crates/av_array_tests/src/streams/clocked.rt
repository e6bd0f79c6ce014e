//! Runs of arrays on one problem after another, with words on idle ports that belong to none of them.

ghost use Rattle.std.specs.Prelude.{◌≡◌, ◌<◌, length, slice_get, IsTrue, IfOk};
ghost use Rattle.std.specs.Option.{ForSome};
ghost use Rattle.av_net.specs.Sound.{IsSound};

use super::plans::INCREMENT;
use super::streamed;
use crate::asserts::same;
use av_clock::Clock;
use av_net::{Design, Module, flatten};
use av_testing::texts::MATRIX_VECTOR;
use std::alloc::Global;
use std::fmt::Write;
use std::process::Abort;
use std::test::Fail;

/// The words of the input ports in a cycle, as far as there are such ports, and whether the listing has a word of `o0` in it.
type Cycle = ([u8; 3], bool);

// Whether there is a port with this number, and it has 8 bits.
fn takes_a_byte(of: &Module, port: u32) -> bool
    ensures port { IsTrue result → port < length of.now.inputs }
    ensures width { IsTrue result → ForSome (slice_get of.now.inputs port) (λ p. p.width.bits ≡ 8) }
{
    let inputs = of.inputs.as_slice();
    let place = port as usize;
    place < inputs.len() && inputs[place].width.bits == 8
}

// Puts a word at a port, where there is one for it.
fn present(clock: &mut Clock<'_>, of: &Module, port: u32, word: u8)
    requires { clock.old.of ≡ of.now }
    ensures { clock.new.of ≡ of.now }
{
    if takes_a_byte(of, port) {
        clock.set(port, u64::from(word));
    }
}

// The word of a drive in one cycle with these words at the ports.
fn cycle(clock: &mut Clock<'_>, of: &Module, words: [u8; 3], drive: u32) -> u64
    requires of { clock.old.of ≡ of.now }
    requires drive { drive < length of.now.drives }
    ensures { clock.new.of ≡ of.now }
{
    present(clock, of, 0, words[0]);
    present(clock, of, 1, words[1]);
    present(clock, of, 2, words[2]);
    clock.settle();
    let word = clock.value(drive);
    clock.tick();
    word
}

// The words of a drive in the cycles that are asked for, each behind a blank, from a reset.
fn words(alloc: Global, of: &Module, drive: u32, cycles: &[Cycle]) -> Result<String, Fail>
    requires sound { IsSound of.now }
    requires drive { drive < length of.now.drives }
{
    let mut out = String::new(alloc);
    let mut clock = Clock::new(alloc, of)?;
    clock.reset();
    for (presented, is_listed) in cycles {
        let word = cycle(&mut clock, of, *presented, drive);
        if *is_listed {
            write!(out, " {word}")?;
        }
    }
    Ok(out)
}

// The place of the drive of `o0`.
fn output_drive(of: &Module) -> Result<u32, Fail>
    ensures { IfOk result (λ drive. drive < length of.now.drives) }
{
    let drives = of.drives.as_slice();
    let mut place = 0u32;
    for drive in drives {
        if drive.target.as_str() == "o0" {
            return Ok(place);
        }
        place = place.saturating_add(1);
    }
    Err(Fail::new("o0"))
}

// The words of `o0` in the cycles in which the listing has one.
fn output_words(alloc: Global, of: &Module, cycles: &[Cycle]) -> Result<String, Fail>
    requires { IsSound of.now }
{
    let drive = output_drive(of)?;
    words(alloc, of, drive, cycles)
}

// The flat design of a text's plan.
fn design_of(alloc: Global, text: &str, sizes: &[(&str, i64)]) -> Result<Design, Fail>
    ensures { IfOk result (λ design. IsSound design.module) }
{
    let found = streamed(alloc, text, sizes)?;
    let design = flatten(alloc, &found.plan)?;
    Ok(design)
}

fn shown(
    alloc: Global,
    text: &str,
    sizes: &[(&str, i64)],
    cycles: &[Cycle],
) -> Result<String, Fail> {
    let design = design_of(alloc, text, sizes)?;
    output_words(alloc, &design.module, cycles)
}

// The words of `o0` are these, whatever is on the idle ports.
fn assert_shown(
    rt: &impl Abort,
    alloc: Global,
    text: &str,
    sizes: &[(&str, i64)],
    cycles: &[Cycle],
    wanted: &str,
) -> Result<(), Fail> {
    let shown = shown(alloc, text, sizes, cycles)?;
    same(rt, shown.as_str(), wanted);
    Ok(())
}

// The sets 0, 254, 255 and 1, 2, 3.
const INCREMENTS: &[Cycle] = &[
    ([0, 0, 0], true),
    ([254, 0, 0], true),
    ([255, 0, 0], true),
    ([1, 0, 0], true),
    ([2, 0, 0], true),
    ([3, 0, 0], true),
];

#[test]
fn an_array_without_registers_takes_problem_after_problem(rt: HostRuntime) -> Result<(), Fail> {
    assert_shown(
        &rt,
        rt.alloc(),
        INCREMENT,
        &[],
        INCREMENTS,
        " 1 255 0 2 3 4",
    )
}

// The matrices 1, 2, 3, 4 and 1, 0, 0, 1 by rows, with the vectors 5, 6 and 7, 8. The rows come in at `i0` and `i1`, and the vector at
// `i2`; each 99, 101 and 103 stands where no line of either problem has a word.
const PRODUCTS: &[Cycle] = &[
    ([99, 101, 103], false),
    ([1, 101, 5], false),
    ([2, 3, 6], false),
    ([99, 4, 103], true),
    ([1, 101, 7], true),
    ([0, 0, 8], false),
    ([99, 1, 103], true),
    ([99, 101, 103], true),
];

#[test]
fn problems_do_not_disturb_each_other(rt: HostRuntime) -> Result<(), Fail> {
    assert_shown(
        &rt,
        rt.alloc(),
        MATRIX_VECTOR,
        &[("N", 2)],
        PRODUCTS,
        " 17 39 7 8",
    )
}

/// The sum is told before its start, so that its cycles are tested: on the second row the phases 2 and 0, which are two stretches.
const SUM_FIRST: &str = "system matvect :{N | N>1}
  (M : {i,j | 1<=i<=N; 1<=j<=N} of integer;
   V : {i | 1<=i<=N} of integer)
  returns (C : {i | 1<=i<=N} of integer);
var s : {i,j | 1<=i<=N; 0<=j<=N} of integer;
let
  s[i,j] = case
    {| 1<=j} : s[i,j-1] + M[i,j]*V[j];
    {| j=0} : 0[];
  esac;
  C[i] = s[i,N];
tel;
";

#[test]
fn a_cell_chooses_by_two_stretches_of_phases(rt: HostRuntime) -> Result<(), Fail> {
    assert_shown(
        &rt,
        rt.alloc(),
        SUM_FIRST,
        &[("N", 2)],
        PRODUCTS,
        " 17 39 7 8",
    )
}
