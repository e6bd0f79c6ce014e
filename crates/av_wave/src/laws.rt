//! Laws of waves and of their texts, each the contract of a function that does nothing.

ghost use Rattle.std.specs.Prelude.{◌≡◌, ℕ, List};
ghost use Rattle.av_wave.specs.Waves.{Recording, IsWave};
ghost use Rattle.av_wave.specs.Dumps.{dump_text};
ghost use Rattle.av_wave.specs.Fronts.{IsWaveFault};

/// A law on texts: no text is the dump of two waves.
pub fn dumps_are_unique()
    ensures { (some other : Recording)
        → IsWave some → IsWave other → dump_text some ≡ dump_text other → some ≡ other }
{}

/// A law on texts: bytes have at most one first faulty line, and none where they are the dump of a wave.
pub fn dumps_have_one_fault()
    ensures one { (bytes : List ℕ) (some other : ℕ)
        → IsWaveFault bytes some → IsWaveFault bytes other → some ≡ other }
    ensures none { (bytes : List ℕ) (wave : Recording) (line : ℕ)
        → IsWave wave → bytes ≡ dump_text wave → IsWaveFault bytes line → ⊥ }
{}
