//! The names of ports, wires and registers.

ghost use Rattle.std.specs.Prelude.{◌≡◌, ◌<◌, ◌≤◌, ◌^◌, ◌++◌, decimal, length, IfOk};
ghost use Rattle.av_kinds.specs.Written.{program_of};
ghost use Rattle.av_kinds.specs.inner.Numbered.{IsNaming};

use crate::program::Program;
use av_base::{Memory, Name};
use std::alloc::Global;

/// The wires of a lane of a kind: their numbers go on from those of the lanes before.
#[derive(Clone, Copy)]
pub(crate) struct WireNames {
    pub(crate) first: usize,
}

impl WireNames {
    ghost use Rattle.av_kinds.specs.inner.Numbered.{wire_in};

    /// The name of a wire.
    pub(crate) fn wire(self, alloc: Global, n: usize) -> Result<Name, Memory>
        ensures { IfOk result (λ name. name ≡ wire_in self n) }
    {
        numbered(alloc, "w", self.first as u128 + n as u128)
    }
}

/// What the names of a lane are made of: the number of its cell, its rank there, and the program's stride.
#[derive(Clone, Copy)]
pub(crate) struct LaneNames {
    pub(crate) home: u32,
    pub(crate) rank: usize,
    pub(crate) stride: usize,
}

impl LaneNames {
    ghost use Rattle.av_kinds.specs.inner.Numbered.{number_of, value_in, register_in, line_in};

    // A number of the lane, which no other lane of its cell has.
    fn number(self, n: u128) -> u128
        requires { n ≤ 2 ^ 32 }
        ensures { result ≡ number_of self n }
    {
        self.rank as u128 + self.stride as u128 * n
    }

    /// The name of the wire that has the lane's word.
    pub(crate) fn value(self, alloc: Global) -> Result<Name, Memory>
        ensures { IfOk result (λ name. name ≡ value_in self) }
    {
        let home = self.home;
        let text = if self.rank == 0 {
            format!(in alloc; "c{home}")?
        } else {
            let number = self.number(0);
            format!(in alloc; "c{home}_{number}")?
        };
        Name::new(alloc, text.as_str())
    }

    /// The name of a register of its delay line.
    pub(crate) fn register(self, alloc: Global, d: u32) -> Result<Name, Memory>
        ensures { IfOk result (λ name. name ≡ register_in self d) }
    {
        let home = self.home;
        let number = self.number(u128::from(d));
        let text = format!(in alloc; "r{home}_{number}")?;
        Name::new(alloc, text.as_str())
    }

    /// The name of what has its word of so many cycles before.
    pub(crate) fn line(self, alloc: Global, delay: u32) -> Result<Name, Memory>
        ensures { IfOk result (λ name. name ≡ line_in self delay) }
    {
        if delay == 0 {
            self.value(alloc)
        } else {
            self.register(alloc, delay - 1)
        }
    }
}

/// The names of a lane of a program.
pub(crate) fn lane_names(program: &Program<'_>, lane: usize) -> LaneNames
    requires { lane < length program.now.lanes }
    ensures { IsNaming (program_of program.now) lane result }
{
    let of = &program.lanes.as_slice()[lane];
    LaneNames {
        home: of.home,
        rank: of.rank,
        stride: program.stride,
    }
}

/// A letter and a number.
pub(crate) fn numbered(alloc: Global, letter: &str, number: u128) -> Result<Name, Memory>
    ensures { IfOk result (λ name. name ≡ letter.now ++ decimal number) }
{
    let text = format!(in alloc; "{letter}{number}")?;
    Name::new(alloc, text.as_str())
}
