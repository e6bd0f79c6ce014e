//! Texts that several tests give or expect.

pub(crate) const INCREMENT: &str =
    "system inc (X : {i | 0<=i<=2} of integer)\n  returns (Y : {i | 0<=i<=2} of integer);\nlet Y[i] = X[i] + 1; tel;\n";

/// The increment of words of 8 bits, in words of 16.
pub(crate) const WIDENED: &str =
    "system inc (X : {i | 0<=i<=2} of word[8])\n  returns (Y : {i | 0<=i<=2} of word[16]);\nlet Y[i] = X[i] + 1; tel;\n";

/// The same in words of 4 bits.
pub(crate) const CUT_DOWN: &str =
    "system inc (X : {i | 0<=i<=2} of word[8])\n  returns (Y : {i | 0<=i<=2} of word[4]);\nlet Y[i] = X[i] + 1; tel;\n";

/// The same of words that no machine word holds.
pub(crate) const TOO_WIDE: &str =
    "system inc (X : {i | 0<=i<=2} of word[65])\n  returns (Y : {i | 0<=i<=2} of word[16]);\nlet Y[i] = X[i] + 1; tel;\n";

/// Words of one bit and of 64.
pub(crate) const BOTH_ENDS: &str =
    "system ends (A : {|} of word[1]; B : {|} of word[64])\n  returns (Y : {|} of word[1]; Z : {|} of word[64]);\nlet Y[] = A[]; Z[] = B[]; tel;\n";

pub(crate) const USAGE: &str =
    "usage: alphav check|schedule|table|emit|run|trace|best|stream|wave|run8 [--width W] [--box C] [NAME=VALUE ...] | sim | unwave | demo K\n";
