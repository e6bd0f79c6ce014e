//! What every layer stands on: small types that contracts see as lists, words of a width, and the
//! outside as sources and sinks of bytes.
#![tactic(auto)]

mod copy;
mod decimal;
mod honest;
mod lexeme;
pub mod limits;
mod list;
mod memory;
mod name;
mod place;
mod places;
mod point;
mod sink;
mod source;
mod spelling;
mod stream;
mod token_kind;
mod width;
mod word;

pub use decimal::decimal_value;
pub use honest::{HonestSink, HonestSource};
pub use lexeme::{Lexeme, begins_comment};
pub use list::List;
pub use memory::Memory;
pub use name::Name;
pub use place::Place;
pub use places::{moved, part};
pub use point::Point;
pub use sink::{Sink, WriteFault, write_all};
pub use source::{Failed, ReadAll, Source, read_all};
pub use spelling::{
    are_word_bytes, ascii, digits_len, is_blank, is_name, is_one_of, is_reserved_word,
    is_word_byte, line_len, word_len,
};
pub use stream::{MemSink, MemSource, next_count};
pub use token_kind::TokenKind;
pub use width::Width;
pub use word::{Op, Word};
