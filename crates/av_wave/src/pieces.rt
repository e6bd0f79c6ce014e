//! Texts that begin or end with a piece.

ghost use Rattle.std.specs.Prelude.{◌≡◌, ◌≢◌, ◌++◌, ℕ, List, MatchOption};

/// What stands behind this piece, where a text begins with it.
pub(crate) fn behind<'a>(text: &'a [u8], piece: &[u8]) -> Option<&'a [u8]>
    ensures { MatchOption result ((rest : List ℕ) → text.now ≢ piece.now ++ rest) (λ rest.
        text.now ≡ piece.now ++ rest.now) }
{
    text.strip_prefix(piece)
}

/// What stands before this piece, where a text ends with it.
pub(crate) fn before<'a>(text: &'a [u8], piece: &[u8]) -> Option<&'a [u8]>
    ensures { MatchOption result ((front : List ℕ) → text.now ≢ front ++ piece.now) (λ front.
        text.now ≡ front.now ++ piece.now) }
{
    text.strip_suffix(piece)
}
