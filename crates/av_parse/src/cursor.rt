//! The tokens that are left, and what a single token of them is.

ghost use Rattle.std.specs.Prelude.{◌≡◌, ◌<◌, ◌^◌, true, length, IfOk};
ghost use Rattle.std.specs.Str.{IsAscii};
ghost use Rattle.av_base.specs.declared.token_kind.TokenKind.TheVariants as kinds;
ghost use Rattle.av_base.specs.Tokens.{number_of};
ghost use Rattle.av_lex.specs.Lexing.{view, views};
ghost use Rattle.av_parse.specs.inner.Reader.{Gives, begins, begins_with, begins_symbol, begins_word, after, place_of, text_of, deep_fault, expect, expect_with, expect_symbol, expect_word};
ghost use Rattle.av_parse.specs.declared.fault.Fault.TheVariants as fault;
ghost use Rattle.av_parse.specs.declared.fault.Stop.TheVariants as stop;

use crate::fault::{Fault, Stop};
use av_base::{Place, TokenKind};
use av_lex::Token;
use std::alloc::Global;

/// The place of the first of these tokens; line 1, column 1, where there is none.
pub(crate) fn first_place(tokens: &[Token]) -> Place
    ensures { result ≡ place_of (views tokens.now) }
{
    match tokens {
        [first, ..] => first.place,
        [] => Place { line: 1, column: 1 },
    }
}

/// The tokens that are left.
#[derive(Drop)]
pub(crate) struct Cursor<'t, 'a> {
    pub(crate) alloc: Global,
    pub(crate) rest: &'t [Token<'a>],
}

impl<'t, 'a> Cursor<'t, 'a> {
    /// How many tokens are left.
    pub(crate) fn left(&self) -> usize
        ensures { result ≡ length (views self.now.rest.now) }
    {
        self.rest.len()
    }

    /// Whether the token at the cursor is of this kind.
    pub(crate) fn begins(&self, kind: TokenKind) -> bool
        ensures { result ≡ begins kind (views self.now.rest.now) }
    {
        match self.rest {
            [first, ..] => first.kind == kind,
            [] => false,
        }
    }

    fn begins_with(&self, kind: TokenKind, text: &[u8]) -> bool
        ensures { result ≡ begins_with kind text.now (views self.now.rest.now) }
    {
        match self.rest {
            [first, ..] => first.kind == kind && first.text == text,
            [] => false,
        }
    }

    /// Whether the token at the cursor is this symbol.
    pub(crate) fn is_symbol(&self, text: &[u8]) -> bool
        ensures { result ≡ begins_symbol text.now (views self.now.rest.now) }
    {
        self.begins_with(TokenKind::Symbol, text)
    }

    /// Whether the token at the cursor is this reserved word.
    pub(crate) fn is_word(&self, text: &[u8]) -> bool
        ensures { result ≡ begins_word text.now (views self.now.rest.now) }
    {
        self.begins_with(TokenKind::Reserved, text)
    }

    /// The text of the first token.
    pub(crate) fn text(&self) -> &'a [u8]
        ensures text { result.now ≡ text_of (views self.now.rest.now) }
        ensures ascii { IsAscii result.now }
        ensures in_range { begins kinds.Number (views self.now.rest.now) ≡ true
            → number_of result.now < 2 ^ 64 }
    {
        match self.rest {
            [first, ..] => first.text,
            [] => b"".as_slice(),
        }
    }

    /// The place of the token at the cursor.
    pub(crate) fn place(&self) -> Place
        ensures { result ≡ place_of (views self.now.rest.now) }
    {
        first_place(self.rest)
    }

    fn step(&mut self)
        ensures { views self.new.rest.now ≡ after (views self.old.rest.now) }
    {
        if let [_, rest @ ..] = self.rest {
            self.rest = rest;
        }
    }

    /// Passes the first token, and gives its place.
    pub(crate) fn skip(&mut self) -> Place
        ensures place { result ≡ place_of (views self.old.rest.now) }
        ensures rest { views self.new.rest.now ≡ after (views self.old.rest.now) }
    {
        let place = self.place();
        self.step();
        place
    }

    /// The first token is faulty.
    pub(crate) fn syntax(&self) -> Stop
        ensures { result ≡ stop.Fault (fault.Syntax (length (views self.now.rest.now))) }
    {
        Stop::Fault(Fault::Syntax(self.left()))
    }

    /// No level is left for the first token, which may stand there or not.
    #[tactic(auto, unfolding(crate::specs::inner::Reader::deep_fault))]
    pub(crate) fn too_deep(&self, may_stand: bool) -> Stop
        ensures { result ≡ stop.Fault (deep_fault may_stand (views self.now.rest.now)) }
    {
        if may_stand {
            Stop::Fault(Fault::Depth(self.left()))
        } else {
            Stop::Fault(Fault::Syntax(self.left()))
        }
    }

    /// A token of this kind.
    #[tactic(auto, unfolding(crate::specs::inner::Reader::expect))]
    pub(crate) fn expect(&mut self, kind: TokenKind) -> Result<Token<'a>, Stop>
        ensures gives { Gives (λ x. (view x, views self.new.rest.now)) result
            (expect kind (views self.old.rest.now)) }
        ensures kind { IfOk result (λ x. x.kind ≡ kind) }
    {
        match self.rest {
            [first, rest @ ..] if first.kind == kind => {
                self.rest = rest;
                Ok(*first)
            }
            _ => Err(self.syntax()),
        }
    }

    #[tactic(auto, unfolding(crate::specs::inner::Reader::expect_with))]
    fn expect_with(&mut self, kind: TokenKind, text: &[u8]) -> Result<Token<'a>, Stop>
        ensures { Gives (λ x. (view x, views self.new.rest.now)) result
            (expect_with kind text.now (views self.old.rest.now)) }
    {
        match self.rest {
            [first, rest @ ..] if first.kind == kind && first.text == text => {
                self.rest = rest;
                Ok(*first)
            }
            _ => Err(self.syntax()),
        }
    }

    /// This symbol.
    pub(crate) fn symbol(&mut self, text: &[u8]) -> Result<Token<'a>, Stop>
        ensures { Gives (λ x. (view x, views self.new.rest.now)) result
            (expect_symbol text.now (views self.old.rest.now)) }
    {
        self.expect_with(TokenKind::Symbol, text)
    }

    /// This reserved word.
    pub(crate) fn word(&mut self, text: &[u8]) -> Result<Token<'a>, Stop>
        ensures { Gives (λ x. (view x, views self.new.rest.now)) result
            (expect_word text.now (views self.old.rest.now)) }
    {
        self.expect_with(TokenKind::Reserved, text)
    }
}
