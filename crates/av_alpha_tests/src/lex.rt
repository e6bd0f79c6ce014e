//! The tokens of texts.

use crate::asserts::same;
use av_lex::{LexFault, Token, TokenKind, lex};
use av_testing::{push_place, push_words};
use std::alloc::Global;
use std::fmt::Write;
use std::process::Abort;
use std::test::Fail;

/// The kind's first letter, the token's bytes and its place.
fn push_token(shown: &mut String, token: &Token<'_>) -> Result<(), Fail> {
    let letter = match token.kind {
        TokenKind::Name => 'N',
        TokenKind::Reserved => 'R',
        TokenKind::Number => '#',
        TokenKind::Symbol => 'S',
        TokenKind::End => 'E',
    };
    write!(shown, "{letter}")?;
    for byte in token.text {
        write!(shown, "{}", char::from(*byte))?;
    }
    write!(shown, "@{}:{} ", token.place.line, token.place.column)?;
    Ok(())
}

/// The tokens of a text, or its fault, in one line.
fn shown(alloc: Global, bytes: &[u8]) -> Result<String, Fail> {
    let mut shown = String::new(alloc);
    if bytes.len() > 1000 {
        return Ok(shown);
    }
    match lex(alloc, bytes) {
        Ok(tokens) => {
            for token in tokens.as_slice() {
                push_token(&mut shown, token)?;
            }
        }
        Err(LexFault::BadByte(place)) => push_place(&mut shown, "bad byte", place)?,
        Err(LexFault::Number(place)) => push_place(&mut shown, "number", place)?,
        Err(LexFault::Memory) => push_words(&mut shown, "memory")?,
    }
    Ok(shown)
}

/// The text gives these tokens, or this fault.
fn assert_shown(rt: &impl Abort, alloc: Global, text: &[u8], wanted: &str) -> Result<(), Fail> {
    same(rt, shown(alloc, text)?.as_str(), wanted);
    Ok(())
}

/// Each text gives what stands beside it.
fn assert_rows(rt: &impl Abort, alloc: Global, rows: &[(&str, &str)]) -> Result<(), Fail> {
    for (text, wanted) in rows {
        assert_shown(rt, alloc, text.as_bytes(), wanted)?;
    }
    Ok(())
}

// The word or symbol is a token of this kind, and then the text ends.
fn assert_token(rt: &impl Abort, alloc: Global, letter: char, text: &str) -> Result<(), Fail> {
    let column = text.len().saturating_add(1);
    let wanted = format!(in alloc; "{letter}{text}@1:1 E@1:{column} ")?;
    assert_shown(rt, alloc, text.as_bytes(), wanted.as_str())
}

#[test]
fn reads_each_reserved_word(rt: HostRuntime) -> Result<(), Fail> {
    let words = "system returns var let tel case esac if then else reduce min max of integer word";
    for word in words.split(' ') {
        assert_token(&rt, rt.alloc(), 'R', word)?;
    }
    Ok(())
}

#[test]
fn reads_each_symbol(rt: HostRuntime) -> Result<(), Fail> {
    for symbol in "( ) { } [ ] | : ; , . = <> < <= > >= + - * ->".split(' ') {
        assert_token(&rt, rt.alloc(), 'S', symbol)?;
    }
    Ok(())
}

const LONGEST: &[(&str, &str)] = &[
    ("<<=", "S<@1:1 S<=@1:2 E@1:4 "),
    ("<>=", "S<>@1:1 S=@1:3 E@1:4 "),
    ("=>=", "S=@1:1 S>=@1:2 E@1:4 "),
    ("<->", "S<@1:1 S->@1:2 E@1:4 "),
    ("<-", "S<@1:1 S-@1:2 E@1:3 "),
    (">->-", "S>@1:1 S->@1:2 S-@1:4 E@1:5 "),
    ("-->", "E@1:4 "),
    ("2i", "#2@1:1 Ni@1:2 E@1:3 "),
    ("i2", "Ni2@1:1 E@1:3 "),
    ("case1", "Ncase1@1:1 E@1:6 "),
    ("1case", "#1@1:1 Rcase@1:2 E@1:6 "),
    ("case_", "Ncase_@1:1 E@1:6 "),
    ("Case", "NCase@1:1 E@1:5 "),
    ("X.x", "NX@1:1 S.@1:2 Nx@1:3 E@1:4 "),
    ("a_B", "Na_B@1:1 E@1:4 "),
    ("_a", "bad byte 1:1"),
];

#[test]
fn takes_the_longest_token(rt: HostRuntime) -> Result<(), Fail> {
    assert_rows(&rt, rt.alloc(), LONGEST)
}

const PLACES: &[(&str, &str)] = &[
    ("", "E@1:1 "),
    (" \t", "E@1:3 "),
    ("a\r\nb", "Na@1:1 Nb@2:1 E@2:2 "),
    ("a\rb\n", "Na@1:1 Nb@1:3 E@2:1 "),
    ("a--b", "Na@1:1 E@1:5 "),
    ("a--b\n-c", "Na@1:1 S-@2:1 Nc@2:2 E@2:3 "),
    ("--\0$\n.", "S.@2:1 E@2:2 "),
    ("\0", "bad byte 1:1"),
    ("a\n\n  $", "bad byte 3:3"),
];

#[test]
fn counts_places_past_blanks_and_comments(rt: HostRuntime) -> Result<(), Fail> {
    assert_rows(&rt, rt.alloc(), PLACES)?;
    assert_shown(&rt, rt.alloc(), b"--\xff\n.", "S.@2:1 E@2:2 ")?;
    assert_shown(&rt, rt.alloc(), b"a\n \xff", "bad byte 2:2")
}

const NUMBERS: &[(&str, &str)] = &[
    ("000", "#000@1:1 E@1:4 "),
    ("18446744073709551615", "#18446744073709551615@1:1 E@1:21 "),
    ("18446744073709551616", "number 1:1"),
    (
        "000018446744073709551615",
        "#000018446744073709551615@1:1 E@1:25 ",
    ),
    ("000018446744073709551616", "number 1:1"),
    (
        "n18446744073709551616",
        "Nn18446744073709551616@1:1 E@1:22 ",
    ),
    ("--18446744073709551616", "E@1:23 "),
    ("1\n 99999999999999999999999999999 $", "number 2:2"),
    ("$ 99999999999999999999", "bad byte 1:1"),
];

#[test]
fn limits_numbers_by_their_value(rt: HostRuntime) -> Result<(), Fail> {
    assert_rows(&rt, rt.alloc(), NUMBERS)
}
