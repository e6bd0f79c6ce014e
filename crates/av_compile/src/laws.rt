//! Laws of refusals, each the contract of a function that does nothing.

ghost use Rattle.std.specs.Prelude.{◌≡◌, ◌≢◌, ℕ, List};
ghost use Rattle.av_names.specs.declared.size.Size.{Size};
ghost use Rattle.av_compile.specs.Checked.{IsRefused};
ghost use Rattle.av_compile.specs.Scheduled.{IsUnscheduled};
ghost use Rattle.av_compile.specs.Mapped.{IsUnmapped};
ghost use Rattle.av_compile.specs.declared.refusal.Refusal.{Refusal};
ghost use Rattle.av_compile.specs.declared.refusal.Refusal.TheVariants as refusal;

/// A law on refusals: with its sizes, at one width of the run and in one box, a text has at most one first fault, among those of
/// `checked`, among those of `scheduled`, and among those of `mapped` and `compile`.
pub fn texts_have_one_fault()
    ensures checked { (bytes : List ℕ) (words : List Size) (width : ℕ) (some other : Refusal)
        → IsRefused bytes words width some → IsRefused bytes words width other
        → some ≢ refusal.Memory → other ≢ refusal.Memory → some ≡ other }
    ensures scheduled { (bytes : List ℕ) (words : List Size) (width c : ℕ) (some other : Refusal)
        → IsUnscheduled bytes words width c some → IsUnscheduled bytes words width c other
        → some ≢ refusal.Memory → other ≢ refusal.Memory → some ≡ other }
    ensures mapped { (bytes : List ℕ) (words : List Size) (width c : ℕ) (some other : Refusal)
        → IsUnmapped bytes words width c some → IsUnmapped bytes words width c other
        → some ≢ refusal.Memory → other ≢ refusal.Memory → some ≡ other }
{}
