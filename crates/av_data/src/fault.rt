ghost use Rattle.std.specs.Prelude.{◌≡◌};
ghost use Rattle.av_data.specs.declared.fault.DataFault.TheVariants as fault;

use av_base::{Memory, Name, Point};

/// Why lines of data are refused. The first faulty line decides, by its number; on one line the first of
/// these variants that holds of it.
#[derive(Debug, Drop)]
pub enum DataFault {
    /// The line has none of the forms that may stand there. Where no `cycles` line comes, the line is the
    /// one after the last line.
    DataSyntax(u32),
    /// The line names no input.
    DataUnknown(u32),
    /// The line gives a value for no cycle of the stimulus, or a value that is too great for its port.
    DataOutside(u32),
    /// An earlier line gives a value for the same port and cycle.
    DataTwice(u32),
    /// No line gives a value for this point of this input. A stimulus has no such fault.
    DataMissing(Name, Point),
    /// Out of memory. No contract says when it comes.
    Memory,
}

impl From<Memory> for DataFault {
    ghost from_gives = { λ _ e. e ≡ fault.Memory };

    fn from(_: Memory) -> DataFault {
        DataFault::Memory
    }
}
