ghost use Rattle.std.specs.Prelude.{◌≡◌};
ghost use Rattle.av_vread.specs.declared.fault.VFault.TheVariants as fault;

use av_base::{Memory, Name, Place};
use av_vparse::TextFault;

/// Why a text spells no design. Of several faults the first variant of this list is answered, and of one
/// variant the first in the text.
#[derive(Debug, Drop)]
pub enum VFault {
    /// The byte there begins no token.
    VByte(Place),
    /// The token there is the first that no text continues.
    VSyntax(Place),
    /// That line of the listing has not its form or its order, or names no port or wire of its kind.
    VListing(u32),
    /// The name is declared or driven a second time.
    VTwice(Name),
    /// The name stands in an item where no such name may stand.
    VName(Name),
    /// Nothing drives the name.
    VUnassigned(Name),
    /// The drive of the name reads a wire or an output that no earlier item drives.
    VOrder(Name),
    /// The item that drives the name has wrong widths.
    VWidth(Name),
    /// Out of memory. No contract says when it comes.
    Memory,
}

impl From<Memory> for VFault {
    ghost from_gives = { λ _ e. e ≡ fault.Memory };

    fn from(_: Memory) -> VFault {
        VFault::Memory
    }
}

impl VFault {
    ghost use Rattle.av_vread.specs.inner.Checked.{fault_for};

    /// The fault of the design for that of its text.
    pub(crate) fn of(fault: TextFault) -> VFault
        ensures { result ≡ fault_for fault }
    {
        match fault {
            TextFault::Byte(place) => VFault::VByte(place),
            TextFault::Syntax(place) => VFault::VSyntax(place),
            TextFault::Memory => VFault::Memory,
        }
    }
}
