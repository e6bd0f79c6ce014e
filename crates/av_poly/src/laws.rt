//! A law of normalised rows, the contract of a function that does nothing.

ghost use Rattle.std.specs.Prelude.{ℕ, ◌≡◌, List};
ghost use Rattle.av_affine.specs.declared.form.Form.{Form};
ghost use Rattle.av_poly.specs.Normal.{AreNormalised};

/// A law on normalised rows: rows have one list of them.
pub fn normalised_rows_are_unique()
    ensures { (dim : ℕ) (rows a b : List Form)
        → AreNormalised dim rows a → AreNormalised dim rows b → a ≡ b }
{}
