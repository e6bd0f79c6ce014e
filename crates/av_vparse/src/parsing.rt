//! From the bytes of a text to what it says.

ghost use Rattle.std.specs.Prelude.{◌≡◌, ◌<◌, ◌⊎◌, length, IfOk, Err};
ghost use Rattle.av_net.specs.Designs.{Says, first_line};
ghost use Rattle.av_vparse.specs.Said.{said};
ghost use Rattle.av_vparse.specs.Parsing.{IsFault};
ghost use Rattle.av_vparse.specs.inner.Lexing.{views};
ghost use Rattle.av_vparse.specs.inner.Answers.{Answers, read_of};
ghost use Rattle.av_vparse.specs.declared.fault.TextFault.{TextFault};

use crate::TextFault;
use crate::lexer::lex;
use crate::parsed::Parsed;
use crate::reader::read_text;
use crate::token::DesignToken;
use std::alloc::Global;

// The line of the first token.
fn first_line(tokens: &[DesignToken]) -> u32
    ensures { result ≡ first_line (views tokens.now) }
{
    match tokens {
        [first, ..] => first.place.line,
        [] => 1,
    }
}

fn read(alloc: Global, bytes: &[u8]) -> Result<Parsed, TextFault>
    requires { length bytes.now < 4294967295 }
    ensures { Answers result (read_of bytes.now) }
{
    let tokens = lex(alloc, bytes)?;
    match read_text(alloc, tokens.as_slice()) {
        Ok(text) => Ok(Parsed {
            text,
            line: first_line(tokens.as_slice()),
        }),
        Err(error) => Err(error.fault()),
    }
}

/// What a design text says beside its listing.
///
/// `Byte` gives the place of the first byte outside comments that begins no token. Where all bytes are read as
/// tokens, `Syntax` gives the place of the first token that no text continues.
pub fn parse(alloc: Global, bytes: &[u8]) -> Result<Parsed, TextFault>
    requires { length bytes.now < 4294967295 }

    // What is read is said so. A law tells that bytes say one text at most, and none where they have a fault.
    ensures found { IfOk result (λ parsed. Says bytes.now (said parsed.text) parsed.line) }

    // A fault is that of the bytes. A law tells that they have one at most.
    ensures fault { (fault : TextFault)
        → result ≡ Err fault → (fault ≡ TextFault.Memory) ⊎ IsFault bytes.now fault }
{
    read(alloc, bytes)
}
