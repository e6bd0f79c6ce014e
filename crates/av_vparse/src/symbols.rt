//! The operators that symbols stand for.

ghost use Rattle.std.specs.Prelude.{◌≡◌};
ghost use Rattle.av_vparse.specs.inner.Reading.{order_of, arithmetic_of, bitwise_of, symbol_of};

use av_net::Symbol;

fn arithmetic_of(text: &str) -> Option<Symbol>
    ensures { result ≡ arithmetic_of text.now }
{
    if text == "+" {
        Some(Symbol::Add)
    } else if text == "-" {
        Some(Symbol::Sub)
    } else if text == "*" {
        Some(Symbol::Mul)
    } else {
        None
    }
}

fn bitwise_of(text: &str) -> Option<Symbol>
    ensures { result ≡ bitwise_of text.now }
{
    if text == "&" {
        Some(Symbol::And)
    } else if text == "|" {
        Some(Symbol::Or)
    } else if text == "==" {
        Some(Symbol::Equal)
    } else if text == "!=" {
        Some(Symbol::Unequal)
    } else {
        None
    }
}

/// The order that a symbol stands for.
pub(crate) fn order_of(text: &str) -> Option<Symbol>
    ensures { result ≡ order_of text.now }
{
    if text == "<" {
        Some(Symbol::Less)
    } else if text == "<=" {
        Some(Symbol::LessEqual)
    } else if text == ">" {
        Some(Symbol::Greater)
    } else if text == ">=" {
        Some(Symbol::GreaterEqual)
    } else {
        None
    }
}

/// The operator that a symbol stands for.
pub(crate) fn symbol_of(text: &str) -> Option<Symbol>
    ensures { result ≡ symbol_of text.now }
{
    if let Some(symbol) = arithmetic_of(text) {
        return Some(symbol);
    }
    if let Some(symbol) = bitwise_of(text) {
        return Some(symbol);
    }
    order_of(text)
}
