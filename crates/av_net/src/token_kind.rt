/// What a token of a design text is. Its text tells which word, which symbol or which number.
#[derive(Clone, Copy, Debug, PartialEq, Eq)]
pub enum DesignTokenKind {
    Name,
    Reserved,
    /// The system function `$signed`.
    System,
    Number,
    /// A number with its width, as `8'd255`.
    Literal,
    Symbol,
    /// The end of the text, which has no bytes.
    End,
}
