//! Names and numbers of tokens.

ghost use Rattle.std.specs.Prelude.{◌≡◌, ◌<◌, ◌^◌, IfOk};
ghost use Rattle.av_base.specs.Tokens.{number_of};
ghost use Rattle.av_lex.specs.Lexing.{views};
ghost use Rattle.av_tree.specs.IndexGrammar.{texts};

use av_base::{List, Memory, Name, decimal_value};
use av_lex::Token;
use std::alloc::Global;

/// The value of the digits of a token.
pub(crate) fn value_of(digits: &[u8]) -> u64
    requires { number_of digits.now < 2 ^ 64 }
    ensures { result ≡ number_of digits.now }
{
    match decimal_value(digits) {
        Some(value) => value,
        None => unreachable!(),
    }
}

/// The names that tokens spell.
pub(crate) fn names_of(alloc: Global, tokens: &[Token]) -> Result<List<Name>, Memory>
    ensures { IfOk result (λ names. names ≡ texts (views tokens.now)) }
{
    let mut names = List::new(alloc);
    for token in tokens {
        names.push(Name::from_ascii(alloc, token.text)?)?;
    }
    Ok(names)
}
