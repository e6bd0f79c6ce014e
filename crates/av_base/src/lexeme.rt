//! What stands at the front of a text.

ghost use Rattle.std.specs.Prelude.{◌≡◌};
ghost use Rattle.av_base.specs.Spelling.{begins_comment};

/// What stands at the front of a text.
#[derive(Clone, Copy, Debug)]
pub enum Lexeme<K> {
    /// So many bytes that are no token.
    Gap(usize),
    /// A token of so many bytes.
    Token(K, usize),
    /// A byte that begins no token.
    Bad,
}

/// Whether a text begins with a comment, which is told by its first two bytes: both are `mark`.
pub fn begins_comment(text: &[u8], mark: u8) -> bool
    ensures { result ≡ begins_comment mark text.now }
{
    match text {
        [first, second, ..] => *first == mark && *second == mark,
        _ => false,
    }
}
