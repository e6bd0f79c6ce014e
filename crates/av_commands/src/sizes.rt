//! The sizes that the words give.

ghost use Rattle.std.specs.Prelude.{◌≡◌, ◌≤◌, unsigned_abs, IfOk, MatchOption, All};
ghost use Rattle.av_commands.specs.SizeWords.{IsSize, size_of, GiveSizes};

use crate::size_word::{is_size, size_value};
use av_base::{List, Memory, Name};
use av_names::Size;
use std::alloc::Global;

/// The sizes among the words, in their order.
pub(crate) fn sizes(alloc: Global, words: &[Name]) -> Result<List<Size>, Memory>
    ensures given { IfOk result (GiveSizes words.now) }
    ensures small { IfOk result (All (λ size. unsigned_abs size.value ≤ 1048576)) }
{
    let mut sizes = List::new(alloc);
    for word in words {
        if let Some(size) = size_in(alloc, word.as_str())? {
            sizes.push(size)?;
        }
    }
    Ok(sizes)
}

// The size that the word is, where it is one.
fn size_in(alloc: Global, word: &str) -> Result<Option<Size>, Memory>
    ensures { IfOk result (λ found. MatchOption found (IsSize word.now → ⊥) (λ size.
        (is : IsSize word.now) × (size ≡ size_of is))) }
{
    if !is_size(word.as_bytes()) {
        return Ok(None);
    }
    let Some((name, text)) = word.split_once('=') else {
        return Ok(None);
    };
    let Some(value) = size_value(text.as_bytes()) else {
        return Ok(None);
    };
    Ok(Some(Size {
        name: Name::new(alloc, name)?,
        value,
    }))
}
