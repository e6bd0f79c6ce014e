ghost use Rattle.std.specs.Prelude.{◌≡◌, ◌≤◌, ◌<◌, ◌⊎◌, IfSome, IfNone};

use crate::limits::MOST_BITS;

/// The width of a word, 1 to 64 bits.
#[derive(Clone, Copy, Debug, PartialEq, Eq)]
pub struct Width {
    pub bits: u32,
    pub ghost least: { 1 ≤ bits },
    pub ghost most: { bits ≤ 64 },
}

impl Width {
    /// The width of this many bits, or `None` at 0 and above 64.
    pub fn new(bits: u32) -> Option<Width>
        ensures some { IfSome result (λ width. width.bits ≡ bits) }
        ensures none { IfNone result ((bits ≡ 0) ⊎ (64 < bits)) }
    {
        if bits == 0 || bits > MOST_BITS {
            None
        } else {
            Some(Width { bits })
        }
    }
}
