//! The answers of `demo`, for each size and box.

use crate::answers::assert_parts;
use av_cli::Status;
use std::alloc::Global;
use std::fmt::Write;
use std::process::Abort;
use std::test::Fail;

// The totals of the array of two matrices of a size. The linear part of the product's points is (0,1), and (1,1,1) of the sums'; for size 1,
// where no sum reads another, it is (1,1,0).
fn totals(alloc: Global, size: u32) -> Result<String, Fail> {
    let k = u64::from(size);
    let square = k.wrapping_mul(k);
    // The last word of C stands one cycle after the last sum, which has the greatest indices.
    let cycles = k.wrapping_mul(3).wrapping_sub(1);
    // One cell for each row of C, and one for each point of it, where the sum is made.
    let cells = square.wrapping_add(k);
    // Each matrix goes on from cell to cell along one index.
    let passed = square.wrapping_sub(k).wrapping_mul(2);
    // C reads a sum of row i after k + 1 - i cycles.
    let mut waits = 0u64;
    for i in 0..size {
        waits = waits.wrapping_add(k.wrapping_sub(u64::from(i)));
    }
    let delays = k.wrapping_mul(waits).wrapping_add(passed);
    // C reads each sum's cell, and each of these itself, if it adds twice or more.
    let reads = if size == 1 { 1 } else { square.wrapping_mul(2) };
    let links = reads.wrapping_add(passed);
    let mut line = String::new(alloc);
    write!(
        line,
        "cycles {cycles} cells {cells} delays {delays} links {links}\n"
    )?;
    Ok(line)
}

// The sum of the product's entries modulo 2^width: for each index of the sums, that of A's column times that of B's row.
fn sum(size: u32, width: u32) -> u64 {
    let mut sum = 0u64;
    for k in 1..size.wrapping_add(1) {
        let (mut column, mut row) = (0u64, 0u64);
        for i in 1..size.wrapping_add(1) {
            let (i, k) = (u64::from(i), u64::from(k));
            column = column.wrapping_add(
                i.wrapping_mul(3)
                    .wrapping_add(k.wrapping_mul(5))
                    .wrapping_add(1),
            );
            row = row.wrapping_add(
                k.wrapping_mul(7)
                    .wrapping_add(i.wrapping_mul(2))
                    .wrapping_add(4),
            );
        }
        sum = sum.wrapping_add(column.wrapping_mul(row));
    }
    if width < 64 {
        sum & (1u64 << width).wrapping_sub(1)
    } else {
        sum
    }
}

// A word that ends with a number.
fn word(alloc: Global, before: &str, number: u32) -> Result<String, Fail> {
    let mut word = String::from_str(alloc, before)?;
    write!(word, "{number}")?;
    Ok(word)
}

// The words that are behind `demo`.
#[derive(Drop)]
struct DemoWords {
    size: String,
    reach: String,
    width: String,
}

fn demo_words(alloc: Global, size: u32, reach: u32, width: u32) -> Result<DemoWords, Fail> {
    let size = word(alloc, "", size)?;
    let reach = word(alloc, "--box=", reach)?;
    let width = word(alloc, "--width=", width)?;
    Ok(DemoWords { size, reach, width })
}

// What is written of a size and a width of words.
fn output(alloc: Global, size: u32, width: u32) -> Result<String, Fail> {
    let mut out = totals(alloc, size)?;
    write!(out, "sum {}\n", sum(size, width))?;
    Ok(out)
}

fn assert_output(rt: &impl Abort, alloc: Global, words: &DemoWords, out: &str) -> Result<(), Fail> {
    let words = [
        "demo",
        words.size.as_str(),
        words.reach.as_str(),
        words.width.as_str(),
    ];
    assert_parts(rt, alloc, &words, &[], Status::Done, out, words[2])
}

fn assert_demo(
    rt: &impl Abort,
    alloc: Global,
    size: u32,
    reach: u32,
    width: u32,
) -> Result<(), Fail> {
    let words = demo_words(alloc, size, reach, width)?;
    let out = output(alloc, size, width)?;
    assert_output(rt, alloc, &words, out.as_str())
}

// Each size in each box, and each width once.
#[test]
fn demos_of_all_sizes_in_all_boxes(rt: HostRuntime) -> Result<(), Fail> {
    let alloc = rt.alloc();
    for reach in 0..4u32 {
        for size in 0..16u32 {
            let width = reach.wrapping_mul(16).wrapping_add(size);
            assert_demo(
                &rt,
                alloc,
                size.wrapping_add(1),
                reach.wrapping_add(1),
                width.wrapping_add(1),
            )?;
        }
    }
    Ok(())
}
