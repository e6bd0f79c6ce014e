//! Laws of the grammar, each the contract of a function that does nothing.

ghost use Rattle.std.specs.Prelude.{◌≡◌, ◌⊎◌, ℕ, List as Items};
ghost use Rattle.av_net.specs.Grammar.{Text};
ghost use Rattle.av_net.specs.Designs.{Says};
ghost use Rattle.av_vparse.specs.Parsing.{IsFault};
ghost use Rattle.av_vparse.specs.declared.fault.TextFault.{TextFault};

/// Bytes say at most one text, whose first module begins on one line.
pub fn at_most_one_text()
    ensures { (bytes : Items ℕ) (some other : Text) (line next : ℕ)
        → Says bytes some line → Says bytes other next → (some ≡ other) × (line ≡ next) }
{}

/// Bytes say a text or have a first fault, and never both; and they have at most one.
pub fn text_or_fault()
    ensures some { (bytes : Items ℕ) → ((text : Text) × (line : ℕ) × Says bytes text line)
        ⊎ ((fault : TextFault) × IsFault bytes fault) }
    ensures apart { (bytes : Items ℕ) (text : Text) (line : ℕ) (fault : TextFault)
        → Says bytes text line → IsFault bytes fault → ⊥ }
    ensures one { (bytes : Items ℕ) (some other : TextFault)
        → IsFault bytes some → IsFault bytes other → some ≡ other }
{}
