//! Text that is written to a sink piece by piece, without memory: the pieces are gathered on a page, and a
//! full page is sent.
#![tactic(auto)]

mod page;

pub use page::Page;
