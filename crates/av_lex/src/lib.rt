//! From the bytes of a program text to its tokens.
#![tactic(auto)]

mod fault;
mod laws;
mod lexer;
mod number;
mod scan;
mod token;

pub use av_base::TokenKind;
pub use fault::LexFault;
pub use laws::{one_token_list, tokens_or_fault};
pub use lexer::lex;
pub use token::Token;
