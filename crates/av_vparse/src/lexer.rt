//! From the bytes of a text to its tokens.

ghost use Rattle.std.specs.Prelude.{◌≡◌, ◌<◌, ◌≤◌, length};
ghost use Rattle.av_base.specs.Tokens.{start};
ghost use Rattle.av_vparse.specs.inner.Lexing.{views, GivesTokens, lexed_of};

use crate::TextFault;
use crate::scan::piece_at;
use crate::token::DesignToken;
use av_base::{Lexeme, List, Place, ascii, moved, part};
use av_net::DesignTokenKind;
use std::alloc::Global;

/// The tokens of a text, in order, with `End` as the last of them, or `Byte` with the place of the first
/// byte outside comments that begins no token.
pub(crate) fn lex<'a>(alloc: Global, bytes: &'a [u8]) -> Result<List<DesignToken<'a>>, TextFault>
    requires { length bytes.now < 4294967295 }
    ensures { GivesTokens result (lexed_of (length bytes.now) start bytes.now) }
{
    let mut found = List::new(alloc);
    let mut place = Place { line: 1, column: 1 };
    let mut at = 0;
    while at < bytes.len() {
        match piece_at(bytes, at) {
            Lexeme::Gap(len) => {
                place = moved(place, part(bytes, at, len));
                at += len;
            }
            Lexeme::Token(kind, len) => {
                let text = part(bytes, at, len);
                found.push(DesignToken {
                    kind,
                    text: ascii(text),
                    place,
                })?;
                place = moved(place, text);
                at += len;
            }
            Lexeme::Bad => return Err(TextFault::Byte(place)),
        }
    }
    found.push(DesignToken {
        kind: DesignTokenKind::End,
        text: "",
        place,
    })?;
    Ok(found)
}
