//! Laws of the definitions of tokens and faults, each the contract of a function that does nothing.

ghost use Rattle.std.specs.Prelude.{◌≡◌, ◌⊎◌, ℕ, List as Items};
ghost use Rattle.av_base.specs.Tokens.{Token as Spelled, IsText, start};
ghost use Rattle.av_lex.specs.Faults.{IsFault};
ghost use Rattle.av_lex.specs.declared.fault.LexFault.{LexFault};

/// A text spells at most one list of tokens.
pub fn one_token_list()
    ensures { (bytes : Items ℕ) (some others : Items Spelled) → IsText start bytes some
        → IsText start bytes others → some ≡ others }
{}

/// Each text spells a list of tokens or has one first fault.
pub fn tokens_or_fault()
    ensures either { (bytes : Items ℕ) → ((tokens : Items Spelled) × IsText start bytes tokens)
        ⊎ ((fault : LexFault) × IsFault start bytes fault) }
    ensures not_both { (bytes : Items ℕ) (tokens : Items Spelled) (fault : LexFault)
        → IsText start bytes tokens → IsFault start bytes fault → ⊥ }
    ensures one_fault { (bytes : Items ℕ) (some other : LexFault) → IsFault start bytes some
        → IsFault start bytes other → some ≡ other }
{}
