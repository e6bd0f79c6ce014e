//! The tree of a whole text, or its first fault.

ghost use Rattle.std.specs.Prelude.{◌≡◌, ◌++◌, ℕ, List as Items, length, IfOk, Err};
ghost use Rattle.av_base.specs.declared.place.Place.{Place as Position};
ghost use Rattle.av_base.specs.Tokens.{Token as Spelled, IsText, start};
ghost use Rattle.av_lex.specs.Lexing.{views};
ghost use Rattle.av_tree.specs.Trees.{System as Tree, view_system};
ghost use Rattle.av_tree.specs.Grammar.{IsProgram, levels};
ghost use Rattle.av_tree.specs.Fronts.{IsSyntaxPlace, IsDepthPlace};
ghost use Rattle.av_parse.specs.Parsing.{Answers, IsFault, Refuses};
ghost use Rattle.av_parse.specs.inner.Reader.{Gives, place_of};
ghost use Rattle.av_parse.specs.inner.ProgramReader.{program_of};
ghost use Rattle.av_parse.specs.declared.fault.ParseFault.{ParseFault};

use crate::ParseFault;
use crate::cursor::{Cursor, first_place};
use crate::fault::{Fault, Stop};
use av_base::Place;
use av_base::limits::MOST_LEVEL;
use av_lex::Token;
use av_tree::System;
use std::alloc::Global;

/// The levels 0 to 256.
const LEVELS: u32 = MOST_LEVEL + 1;

/// The place of the token from which on so many are left.
fn place_at(tokens: &[Token], left: usize) -> Place
    ensures { (before rest : Items Spelled)
        → views tokens.now ≡ before ++ rest → length rest ≡ left → result ≡ place_of rest }
{
    let passed = tokens.len().saturating_sub(left);
    first_place(&tokens[passed..])
}

fn read(alloc: Global, tokens: &[Token]) -> Result<System, Stop>
    ensures { Gives view_system result (program_of levels (views tokens.now)) }
{
    let mut parser = Cursor {
        alloc,
        rest: tokens,
    };
    parser.program(LEVELS)
}

/// The tree of the program that the tokens of a text spell, all of them, within the levels 0 to 256.
///
/// `Syntax` gives the place of the first token with which no program goes on, `Depth` that of the first
/// one on level 257, whichever of the two comes first. Where the last token is no `End`, as `lex` never
/// leaves it, a program may want more tokens than there are; the place of that `Syntax` is line 1, column 1.
pub fn parse(alloc: Global, tokens: &[Token<'_>]) -> Result<System, ParseFault>
    // What is read is spelled so.
    ensures found { IfOk result (λ system.
        IsProgram levels (views tokens.now) (view_system system)) }

    // What is spelled so is read, unless memory runs out.
    ensures only { (tree : Tree) → IsProgram levels (views tokens.now) tree → Answers result tree }

    // The place of a fault, for the tokens of a text. A token too many on level 257 is found in any tokens.
    ensures syntax { (bytes : Items ℕ) (place : Position) → IsText start bytes (views tokens.now)
        → result ≡ Err (ParseFault.Syntax place) → IsSyntaxPlace (views tokens.now) place }
    ensures depth { (place : Position)
        → result ≡ Err (ParseFault.Depth place) → IsDepthPlace (views tokens.now) place }

    // Tokens that have a fault are refused for it, unless memory runs out.
    ensures fault { (fault : ParseFault) → IsFault (views tokens.now) fault → Refuses result fault }

    // A text is refused only where no program is spelled.
    ensures refused { (fault : ParseFault) (tree : Tree) → result ≡ Err fault
        → IsProgram levels (views tokens.now) tree → fault ≡ ParseFault.Memory }
{
    match read(alloc, tokens) {
        Ok(system) => Ok(system),
        Err(Stop::Memory) => Err(ParseFault::Memory),
        Err(Stop::Fault(Fault::Syntax(left))) => Err(ParseFault::Syntax(place_at(tokens, left))),
        Err(Stop::Fault(Fault::Depth(left))) => Err(ParseFault::Depth(place_at(tokens, left))),
    }
}
