//! Laws of the definitions of design texts, each the contract of a function that does nothing.

ghost use Rattle.std.specs.Prelude.{◌≡◌, ◌⊎◌, ℕ, List as Items};
ghost use Rattle.av_net.specs.declared.design.Design.{Design as Spelled};
ghost use Rattle.av_net.specs.declared.plan.Plan.{Plan as Shared};
ghost use Rattle.av_net.specs.Flat.{flat_of};
ghost use Rattle.av_net.specs.Texts.{text};
ghost use Rattle.av_net.specs.PlanTexts.{text2};
ghost use Rattle.av_net.specs.Designs.{Spells, IsSoundDesign, IsSoundPlan};
ghost use Rattle.av_vread.specs.declared.fault.VFault.{VFault as Fault};
ghost use Rattle.av_net.specs.Lexemes.{Token};
ghost use Rattle.av_vparse.specs.Fronts.{FrontText};
ghost use Rattle.av_vparse.specs.Beginnings.{Begins};
ghost use Rattle.av_vread.specs.Faults.{IsFault};
ghost use Rattle.av_vread.specs.SpelledParts.{HasSpelledParts};

/// A law: a text spells at most one design.
pub fn one_design()
    ensures { (bytes : Items ℕ) (some other : Spelled) → Spells bytes some → Spells bytes other
        → some ≡ other }
{}

/// A law: the tokens that are a front of a text, by the rules of its grammar, are those that some text continues.
pub fn fronts()
    ensures begin { (tokens : Items Token) → FrontText tokens → Begins tokens }
    ensures all { (tokens : Items Token) → Begins tokens → FrontText tokens }
{}

/// A law: each text spells a design or has a first fault, and none does both.
pub fn design_or_fault()
    ensures either { (bytes : Items ℕ)
        → ((design : Spelled) × Spells bytes design) ⊎ ((f : Fault) × IsFault bytes f) }
    ensures not_both { (bytes : Items ℕ) (design : Spelled) (f : Fault)
        → Spells bytes design → IsFault bytes f → ⊥ }
{}

/// A law: a design that a text spells is sound.
pub fn spelled_is_sound()
    ensures { (bytes : Items ℕ) (design : Spelled) → Spells bytes design → IsSoundDesign design }
{}

/// A law: the text of a sound design spells that design, and the text of a sound plan its flat design.
pub fn read_back()
    ensures design { (design : Spelled) → IsSoundDesign design → Spells (text design) design }
    ensures plan { (plan : Shared) → IsSoundPlan plan → Spells (text2 plan) (flat_of plan) }
{}

/// A law: two sound designs with one text are one design.
pub fn one_text()
    ensures { (some other : Spelled)
        → IsSoundDesign some → IsSoundDesign other → text some ≡ text other → some ≡ other }
{}

/// A law: a design whose parts the grammar can spell is sound, or its own text has a first fault, and never both. The
/// parts of each sound design are such.
pub fn sound_or_fault()
    ensures either { (design : Spelled) → HasSpelledParts design
        → IsSoundDesign design ⊎ ((f : Fault) × IsFault (text design) f) }
    ensures spelled { (design : Spelled) → IsSoundDesign design → HasSpelledParts design }
    ensures not_both { (design : Spelled) (f : Fault)
        → IsSoundDesign design → IsFault (text design) f → ⊥ }
{}
