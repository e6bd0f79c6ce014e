ghost use Rattle.std.specs.Prelude.{◌≡◌, ◌<◌, ◌≤◌, ◌++◌, Option, List, ℕ, length, take, IfOk, OnOk, OnErr, IsErrOf};
ghost use Rattle.av_base.specs.Outside.{Takes, TakesSome, TakesMore, IsAtEnd, HasRisen};

use crate::{List, Memory};
use std::alloc::Global;
use thiserror::Error;

/// A call of a source or a sink failed. Nothing was taken or added.
#[derive(Clone, Copy, Debug, PartialEq, Eq, Error)]
#[error("the call failed")]
pub struct Failed;

/// Where bytes come from.
pub trait Source {
    /// The bytes that are left, where it tells them.
    ghost left: { Self → Option (List ℕ) };

    /// How often it has failed.
    ghost faults: { Self → ℕ };

    /// Takes the first bytes that are left, and says how many. `Ok(0)` says that none was left.
    fn read(&mut self, into: &mut [u8]) -> Result<usize, Failed>
        requires { 0 < length into.old }
        ensures most { IfOk result (λ n. n ≤ length into.old) }
        ensures taken { IfOk result (λ n. Takes (left self.old) (left self.new) (take n into.new)) }
        ensures end { IfOk result (λ n. n ≡ 0 → IsAtEnd (left self.new)) }
        ensures failed { OnErr result (left self.new ≡ left self.old) }
        ensures cause { OnErr result (HasRisen (faults self.old) (faults self.new)) }
        ensures later { faults self.old ≤ faults self.new };
}

/// Why a source was not read to its end.
#[derive(Clone, Copy, Debug, PartialEq, Eq, Error)]
pub enum ReadAll {
    /// A call failed.
    #[error("the source failed")]
    ReadFault,
    /// More bytes than the limit came before the end.
    #[error("the source is too long")]
    TooLong,
    /// Memory ran out.
    #[error("out of memory")]
    Memory,
}

impl From<Memory> for ReadAll {
    ghost use Rattle.std.specs.Prelude.{◌≡◌};
    ghost use Rattle.av_base.specs.declared.source.ReadAll.TheVariants as read_all;

    ghost from_gives = { λ _ fault. fault ≡ read_all.Memory };

    fn from(_: Memory) -> ReadAll {
        ReadAll::Memory
    }
}

// Bytes that are asked for in one call.
const PIECE: usize = 4096;

/// The source's bytes up to its end. After a refusal, some front of them has been taken.
pub fn read_all<S: Source>(alloc: Global, source: &mut S, limit: usize) -> Result<List<u8>, ReadAll>
    ensures bytes { IfOk result (λ bytes. Takes (S.left source.old) (S.left source.new) bytes) }
    ensures end { OnOk result (IsAtEnd (S.left source.new)) }
    ensures within { IfOk result (λ bytes. length bytes ≤ limit) }
    ensures too_long { IsErrOf result ReadAll.TooLong
        → TakesMore (S.left source.old) (S.left source.new) limit }
    ensures fault { IsErrOf result ReadAll.ReadFault
        → HasRisen (S.faults source.old) (S.faults source.new) }
    ensures front { OnErr result (TakesSome (S.left source.old) (S.left source.new)) }
    ensures later { S.faults source.old ≤ S.faults source.new }
{
    let mut bytes = List::new(alloc);
    let mut piece = [0u8; PIECE];
    let mut room = limit;
    loop {
        match source.read(&mut piece) {
            Err(Failed) => return Err(ReadAll::ReadFault),
            Ok(0) => return Ok(bytes),
            Ok(n) if n > room => return Err(ReadAll::TooLong),
            Ok(n) => {
                append(&mut bytes, &piece[..n])?;
                room -= n;
            }
        }
    }
}

// Puts the piece at the end of the list. After `Memory` some front of it is there.
fn append(bytes: &mut List<u8>, piece: &[u8]) -> Result<(), Memory>
    ensures { OnOk result (bytes.new ≡ bytes.old ++ piece.now) }
{
    for byte in piece {
        bytes.push(*byte)?;
    }
    Ok(())
}
