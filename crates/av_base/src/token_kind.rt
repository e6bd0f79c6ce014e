/// What a token of a program text is. Its text tells which word or which symbol.
#[derive(Clone, Copy, Debug, PartialEq, Eq)]
pub enum TokenKind {
    Name,
    Reserved,
    Number,
    Symbol,
    /// The end of the text, which has no bytes.
    End,
}
