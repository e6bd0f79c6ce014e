//! Laws of the grammar, each the contract of a function that does nothing.

ghost use Rattle.std.specs.Prelude.{◌≡◌, ◌⊎◌, ◌++◌, ℕ, List as Items};
ghost use Rattle.av_base.specs.Tokens.{Token as Spelled, IsText, start};
ghost use Rattle.av_tree.specs.Trees.{System as Tree};
ghost use Rattle.av_tree.specs.FrontsParts.{every};
ghost use Rattle.av_tree.specs.Fronts.{FrontProgram};
ghost use Rattle.av_tree.specs.Grammar.{IsProgram, IsProgramText, levels};
ghost use Rattle.av_parse.specs.Parsing.{IsFault};
ghost use Rattle.av_parse.specs.declared.fault.ParseFault.{ParseFault};

/// Tokens spell at most one program, whatever levels each of two spellings has, and so does a text.
pub fn one_program()
    ensures tokens { (n m : ℕ) (tokens : Items Spelled) (some other : Tree)
        → IsProgram n tokens some → IsProgram m tokens other → some ≡ other }
    ensures text { (bytes : Items ℕ) (some other : Tree) → IsProgramText bytes some
        → IsProgramText bytes other → some ≡ other }
{}

/// The tokens of a program begin one up to each of them, whatever levels it has.
pub fn beginnings()
    ensures { (n : ℕ) (tokens before rest : Items Spelled) (tree : Tree)
        → IsProgram n tokens tree → tokens ≡ before ++ rest → FrontProgram every tokens rest }
{}

/// The tokens of a text spell a program or have a fault, and never both; and they have at most one fault.
pub fn program_or_fault()
    ensures some { (bytes : Items ℕ) (tokens : Items Spelled)
        → IsText start bytes tokens → ((tree : Tree) × IsProgram levels tokens tree)
        ⊎ ((fault : ParseFault) × IsFault tokens fault) }
    ensures apart { (tokens : Items Spelled) (tree : Tree) (fault : ParseFault)
        → IsProgram levels tokens tree → IsFault tokens fault → ⊥ }
    ensures one { (tokens : Items Spelled) (some other : ParseFault)
        → IsFault tokens some → IsFault tokens other → some ≡ other }
{}
