ghost use Rattle.std.specs.Prelude.{◌≡◌, ◌<◌, ◌≤◌, ℕ, List as Items, length, IfOk, Ok, Err};
ghost use Rattle.av_base.specs.declared.place.Place.{Place};
ghost use Rattle.av_base.specs.Tokens.{Token as Spelled, IsText, start};
ghost use Rattle.av_lex.specs.Faults.{IsFault};
ghost use Rattle.av_lex.specs.Lexing.{views, Gives, LieInOrder};
ghost use Rattle.av_lex.specs.inner.Reading.{read_of};
ghost use Rattle.av_lex.specs.declared.fault.LexFault.{LexFault};

use crate::number::is_in_range;
use crate::scan::piece_at;
use crate::{LexFault, Token, TokenKind};
use av_base::{Lexeme, List, Place, moved, part};
use std::alloc::Global;

fn tokens<'a>(alloc: Global, bytes: &'a [u8]) -> Result<List<Token<'a>>, LexFault>
    requires { length bytes.now < 4294967295 }
    ensures { Gives result (read_of (length bytes.now) start bytes.now) }
{
    let mut found = List::new(alloc);
    let mut place = Place { line: 1, column: 1 };
    let mut at = 0;
    while at < bytes.len() {
        match piece_at(bytes, at) {
            Lexeme::Gap(len) => {
                place = moved(place, part(bytes, at, len));
                at += len;
            }
            Lexeme::Token(kind, len) => {
                let text = part(bytes, at, len);
                if !is_in_range(kind, text) {
                    return Err(LexFault::Number(place));
                }
                found.push(Token::new(kind, text, place))?;
                place = moved(place, text);
                at += len;
            }
            Lexeme::Bad => return Err(LexFault::BadByte(place)),
        }
    }
    found.push(Token::new(TokenKind::End, part(bytes, at, 0), place))?;
    Ok(found)
}

/// The tokens of a text, in order, with `End` as the last of them.
///
/// `BadByte` gives the place of the first byte outside comments that begins no token, and `Number`
/// that of the first number above 18446744073709551615, whichever of the two comes first.
pub fn lex<'a>(alloc: Global, bytes: &'a [u8]) -> Result<List<Token<'a>>, LexFault>
    requires { length bytes.now < 4294967295 }

    // What is read is spelled so, and each token's text is the part of the source at its place.
    ensures found { IfOk result (λ tokens. IsText start bytes.now (views tokens)) }
    ensures slices { IfOk result (λ tokens. LieInOrder start bytes.now (views tokens)) }

    // What is spelled so is read, unless memory runs out.
    ensures only { (tokens : Items Spelled)
        → IsText start bytes.now tokens → Gives result (Ok tokens) }

    // Each fault is the text's first one, and a text that has one is refused for it.
    ensures bad_byte { (p : Place) → result ≡ Err (LexFault.BadByte p)
        → IsFault start bytes.now (LexFault.BadByte p) }
    ensures number { (p : Place) → result ≡ Err (LexFault.Number p)
        → IsFault start bytes.now (LexFault.Number p) }
    ensures refused { (fault : LexFault)
        → IsFault start bytes.now fault → Gives result (Err fault) }
{
    tokens(alloc, bytes)
}
