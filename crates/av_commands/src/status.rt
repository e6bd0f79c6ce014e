/// How a call of the program ended. The number is the exit status.
#[derive(Clone, Copy, Debug, PartialEq, Eq)]
pub enum Status {
    /// The command's output was written.
    Done = 0,
    /// The input was refused, and the line of its refusal was written.
    Refused = 1,
    /// The words are no command, and the usage line was written.
    Words = 2,
    /// The source failed, and nothing was written.
    ReadFault = 3,
    /// The sink failed. A prefix of what was due was written.
    WriteFault = 4,
    /// Memory ran out, and nothing was written.
    Memory = 5,
}
