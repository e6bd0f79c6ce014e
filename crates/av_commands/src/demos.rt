//! The command `demo`.

ghost use Rattle.std.specs.Prelude.{◌≡◌, ◌≤◌, ◌++◌, codes, decimal, IfOk, IsErr, OnOk, OnErr, All};
ghost use Rattle.std.specs.List.{sum};
ghost use Rattle.av_base.specs.Outside.{Adds, AddsPrefix, HasRisen};
ghost use Rattle.av_base.specs.Words.{residue, IsWord};
ghost use Rattle.av_data.specs.Tables.{totals_line};
ghost use Rattle.av_commands.specs.Demos.{product_sizes, GivesDemo};
ghost use Rattle.av_commands.specs.Shown.{AreSmall};
ghost use Rattle.av_commands.specs.inner.DemoData.{entry, entries, IsEntered, IsSummed};
ghost use Rattle.av_commands.specs.Written.{PutsOneOf};
ghost use Rattle.av_commands.specs.inner.Watching.{bits_of};

use crate::runs::let_go;
use crate::showing::{Data, shown};
use crate::status::Status;
use av_base::{List, Memory, Name, Point, Sink, Width, Word, WriteFault};
use av_compile::{Compiled, compile};
use av_data::write_totals;
use av_flat::Reach;
use av_names::Size;
use av_page::Page;
use av_space::Cells;
use std::alloc::Global;

// The product of two square matrices.
const PRODUCT: &str =
    "system matmul :{N | N>=1}\n  (A : {i,k | 1<=i<=N; 1<=k<=N} of integer;\n   B : {k,j | 1<=k<=N; 1<=j<=N} of integer)\n  returns (C : {i,j | 1<=i<=N; 1<=j<=N} of integer);\nlet C[i,j] = reduce(+, (i,j,k -> i,j), A[i,k]*B[k,j]); tel;\n";

/// The entries of the two matrices, as words of a width.
#[derive(Clone, Copy, Debug)]
pub(crate) struct MatrixEntries {
    width: Width,
}

// An entry of A, or else of B.
fn entry(name: &Name, point: &Point) -> u64
    requires { AreSmall point.now }
    ensures { result ≡ entry name.now point.now }
{
    match point.as_slice() {
        [i, j, ..] => {
            if name.as_str() == "A" {
                3 * i.unsigned_abs() + 5 * j.unsigned_abs() + 1
            } else {
                7 * i.unsigned_abs() + 2 * j.unsigned_abs() + 4
            }
        }
        _ => 0,
    }
}

impl Data for MatrixEntries {
    ghost words = { λ e. entries e.width.bits };

    fn word(&self, variable: &Name, point: &Point) -> Option<Word> {
        Some(Word::of(entry(variable, point), self.width))
    }
}

// The size of the matrices.
fn product_sizes(alloc: Global, size: u32) -> Result<List<Size>, Memory>
    ensures { IfOk result (λ sizes. sizes ≡ product_sizes size) }
{
    let mut sizes = List::new(alloc);
    sizes.push(Size {
        name: Name::new(alloc, "N")?,
        value: i64::from(size),
    })?;
    Ok(sizes)
}

/// Multiplies two matrices of this size by an array: its totals, and the sum of the product's entries.
///
/// No size up to 16 meets a limit, so that only running out of memory keeps the text from being compiled.
pub fn demo<K: Sink>(alloc: Global, size: u32, width: Width, reach: Reach, sink: &mut K) -> Status
    requires { size ≤ 16 }
    ensures { PutsOneOf (GivesDemo size width.bits reach.size)
        (K.state sink.old) (K.state sink.new) result }
{
    let Ok(sizes) = product_sizes(alloc, size) else {
        return Status::Memory;
    };
    match compile(alloc, PRODUCT.as_bytes(), sizes.as_slice(), width, reach) {
        Err(_) => Status::Memory,
        Ok(compiled) => multiply(alloc, compiled, width, sink),
    }
}

// Clocks the design on the entries, and adds the two lines.
fn multiply<K: Sink>(alloc: Global, compiled: Compiled, width: Width, sink: &mut K) -> Status
    requires { IsEntered compiled.design width.bits }
    ensures { PutsOneOf (IsSummed compiled.cells compiled.design width.bits)
        (K.state sink.old) (K.state sink.new) result }
{
    let status = put_product(alloc, &compiled, width, sink);
    let_go(compiled);
    status
}

// The same, of a compiled text that stays.
fn put_product<K: Sink>(alloc: Global, compiled: &Compiled, width: Width, sink: &mut K) -> Status
    requires { IsEntered compiled.now.design width.bits }
    ensures { PutsOneOf (IsSummed compiled.now.cells compiled.now.design width.bits)
        (K.state sink.old) (K.state sink.new) result }
{
    match shown(alloc, &compiled.design, &MatrixEntries { width }) {
        Err(Memory) => Status::Memory,
        Ok(words) => {
            let total = total_of(words.as_slice(), width);
            match write_lines(&compiled.cells, total, sink) {
                Ok(()) => Status::Done,
                Err(_) => Status::WriteFault,
            }
        }
    }
}

// The sum of words, modulo 2^width.
fn total_of(words: &[Word], width: Width) -> Word
    ensures { result.bits ≡ residue width.bits (sum (bits_of words.now)) }
{
    let mut total = Word { bits: 0 };
    for word in words {
        total = Word::of(total.bits.wrapping_add(word.bits), width);
    }
    total
}

// Writes the totals of the array, and the sum. It takes no memory.
fn write_lines<K: Sink>(cells: &Cells, total: Word, sink: &mut K) -> Result<(), WriteFault>
    ensures added { OnOk result (Adds (K.state sink.old).held (K.state sink.new).held
        (totals_line cells.now ++ (codes "sum " ++ decimal total.bits ++ codes "\n"))) }
    ensures fault { IsErr result → HasRisen (K.state sink.old).faults (K.state sink.new).faults }
    ensures front { OnErr result (AddsPrefix (K.state sink.old).held (K.state sink.new).held
        (totals_line cells.now ++ (codes "sum " ++ decimal total.bits ++ codes "\n"))) }
{
    let mut page = Page::new();
    write_totals(&mut page, sink, cells);
    page.put(sink, "sum ");
    page.put_number(sink, total.bits);
    page.put(sink, "\n");
    page.finish(sink)
}
