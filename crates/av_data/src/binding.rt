//! What a line of data says.

ghost use Rattle.std.specs.Prelude.{ℕ, ℤ, List as Items, ◌≡◌, ◌&&◌, codes, Some, None, IfSome, IfNone};
ghost use Rattle.std.specs.Str.{bytes_eq};
ghost use Rattle.av_base.specs.Spelling.{is_name};
ghost use Rattle.av_data.specs.Reading.{is_empty};
ghost use Rattle.av_data.specs.Data.{Says};
ghost use Rattle.av_data.specs.inner.Parts.{pieces_of, first_piece};
ghost use Rattle.av_data.specs.inner.Bindings.{Keeps, SaysOnly, entries_in, said_behind, said_of};

use crate::entries::Entries;
use crate::lines::uncommented;
use crate::pieces::{first_piece, is_close, is_comma, is_end};
use crate::whole::whole_in;
use av_base::{Width, Word, is_name};

/// A point of a variable, and its word.
#[derive(Drop)]
pub(crate) struct Binding<'a> {
    pub(crate) name: &'a [u8],
    pub(crate) entries: Entries,
    pub(crate) word: Word,
}

// Whether a point of a variable begins with these parts: its name, and `(`.
fn begins_point(name: &[u8], sign: &[u8]) -> bool
    ensures { result ≡ (is_name name.now && bytes_eq sign.now (codes "(")) }
{
    is_name(name) && sign == b"(".as_slice()
}

// The entries up to the `)`, and what follows that.
fn entries_in(text: &[u8]) -> Option<(Entries, &[u8])>
    ensures some { IfSome result (λ r. (z : Items ℤ) × Keeps r.0.kept.items r.0.far z
        × (entries_in (pieces_of text.now) ≡ Some (z, pieces_of r.1.now))) }
    ensures none { IfNone result (entries_in (pieces_of text.now) ≡ None) }
{
    let mut entries = Entries::new();
    let (piece, behind) = first_piece(text);
    if is_close(piece) {
        return Some((entries, behind));
    }
    entries.add(&whole_in(piece)?);
    let mut rest = behind;
    loop {
        let (sign, behind) = first_piece(rest);
        if is_close(sign) {
            return Some((entries, behind));
        }
        if is_comma(sign) {
            let (piece, behind) = first_piece(behind);
            entries.add(&whole_in(piece)?);
            rest = behind;
        } else {
            return None;
        }
    }
}

// Whether `=` is this part, and the text ends.
fn ends_line(sign: &[u8], rest: &[u8]) -> bool
    ensures { result ≡ (bytes_eq sign.now (codes "=") && is_empty (first_piece rest.now)) }
{
    sign == b"=".as_slice() && is_end(rest)
}

// What stands behind the `)`: `=`, and a value.
fn word_behind(text: &[u8], width: Width) -> Option<Word>
    ensures some { IfSome result (λ w. (name : Items ℕ) (z : Items ℤ)
        → said_behind width.bits name z (pieces_of text.now)
        ≡ Some (record { name = name; point = z; word = w.bits })) }
    ensures none { IfNone result ((name : Items ℕ) (z : Items ℤ)
        → said_behind width.bits name z (pieces_of text.now) ≡ None) }
{
    let (sign, rest) = first_piece(text);
    let (value, rest) = first_piece(rest);
    if ends_line(sign, rest) {
        whole_in(value)?.word(width)
    } else {
        None
    }
}

// What is said of a name by what stands behind the `(`.
fn binding_behind<'a>(name: &'a [u8], text: &'a [u8], width: Width) -> Option<Binding<'a>>
    ensures some { IfSome result (λ s. (z : Items ℤ) × Keeps s.entries.kept.items s.entries.far z
        × (said_of width.bits name.now (entries_in (pieces_of text.now))
        ≡ Some (record { name = s.name.now; point = z; word = s.word.bits }))) }
    ensures none { IfNone result (said_of width.bits name.now (entries_in (pieces_of text.now))
        ≡ None) }
{
    let (entries, rest) = entries_in(text)?;
    let word = word_behind(rest, width)?;
    Some(Binding {
        name,
        entries,
        word,
    })
}

/// What a line says that is neither blank nor a comment.
pub(crate) fn binding_in(line: &[u8], width: Width) -> Option<Binding<'_>>
    ensures some { IfSome result (λ s. (z : Items ℤ) × Keeps s.entries.kept.items s.entries.far z
        × SaysOnly width.bits line.now s.name.now z s.word.bits) }
    ensures none { IfNone result ((name : Items ℕ) (z : Items ℤ) (w : ℕ)
        → Says width.bits line.now name z w → ⊥) }
{
    let (name, rest) = first_piece(uncommented(line));
    let (sign, rest) = first_piece(rest);
    if begins_point(name, sign) {
        binding_behind(name, rest, width)
    } else {
        None
    }
}
