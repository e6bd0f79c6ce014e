//! The flat systems of texts.

ghost use Rattle.std.specs.Prelude.{◌<◌, ◌≤◌, length, unsigned_abs, IfOk, OnOk};
ghost use Rattle.av_flat.specs.Trees.{view_system};
ghost use Rattle.av_flat.specs.WellFormed.{IsWellFormed};
ghost use Rattle.av_names.specs.Texts.{AreSmall, IsOfText};
ghost use Rattle.av_tree.specs.Trees.{view_system as view_tree};

use av_base::{Memory, Name, Width};
use av_flat::Flat;
use av_lex::lex;
use av_names::{Size, resolve};
use av_parse::parse;
use av_tree::System;
use std::alloc::Global;
use std::test::Fail;

// Appends a size, where it is small as they are.
fn push_small(sizes: &mut Vec<Size>, name: Name, value: i64) -> Result<(), Memory>
    requires before { AreSmall sizes.old.items }
    requires small { unsigned_abs value ≤ 1048576 }
    ensures { OnOk result (AreSmall sizes.new.items) }
{
    sizes.push(Size { name, value })?;
    Ok(())
}

/// The sizes, of which those above 1048576 are left out.
pub fn size_list(alloc: Global, words: &[(&str, i64)]) -> Result<Vec<Size>, Memory>
    ensures { IfOk result (λ sizes. AreSmall sizes.items) }
{
    let mut sizes = Vec::new(alloc);
    for word in words {
        let value = word.1;
        if value.unsigned_abs() <= 1_048_576 {
            push_small(&mut sizes, Name::new(alloc, word.0)?, value)?;
        }
    }
    Ok(sizes)
}

// The tree of a text.
#[tactic(auto, using(av_names::proofs::OfText::of_text))]
fn tree_of(alloc: Global, text: &str) -> Result<System, Fail>
    requires { length text.now < 4294967295 }
    ensures { IfOk result (λ tree. IsOfText (view_tree tree)) }
{
    let Ok(tokens) = lex(alloc, text.as_bytes()) else {
        return Err(Fail::new("tokens"));
    };
    match parse(alloc, tokens.as_slice()) {
        Ok(tree) => Ok(tree),
        Err(_) => Err(Fail::new("system")),
    }
}

// The system of a text.
fn flat_of(alloc: Global, text: &str, sizes: &[Size], width: Width) -> Result<Flat, Fail>
    requires text { length text.now < 4294967295 }
    requires sizes { AreSmall sizes.now }
    ensures { IfOk result (λ flat. IsWellFormed (view_system flat)) }
{
    let tree = tree_of(alloc, text)?;
    match resolve(alloc, &tree, sizes, width) {
        Ok(flat) => Ok(flat),
        Err(_) => Err(Fail::new("flat")),
    }
}

/// The system of a short text with these sizes, in words of so many bits.
pub fn system_at(alloc: Global, text: &str, words: &[(&str, i64)], bits: u32) -> Result<Flat, Fail>
    ensures { IfOk result (λ flat. IsWellFormed (view_system flat)) }
{
    let sizes = size_list(alloc, words)?;
    let width = Width::new(bits).ok_or("width")?;
    if text.len() > 100_000 {
        return Err(Fail::new("long"));
    }
    flat_of(alloc, text, sizes.as_slice(), width)
}

/// The system of a short text with these sizes, in words of 8 bits.
pub fn system(alloc: Global, text: &str, words: &[(&str, i64)]) -> Result<Flat, Fail>
    ensures { IfOk result (λ flat. IsWellFormed (view_system flat)) }
{
    system_at(alloc, text, words, 8)
}

/// The system of a short text with N, where that is not 0, in words of 8 bits.
pub fn system_with(alloc: Global, text: &str, n: i64) -> Result<Flat, Fail>
    ensures { IfOk result (λ flat. IsWellFormed (view_system flat)) }
{
    if n == 0 {
        system(alloc, text, &[])
    } else {
        system(alloc, text, &[("N", n)])
    }
}
