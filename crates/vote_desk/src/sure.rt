//! A keeper in memory that never fails.

ghost use Rattle.std.specs.Prelude.{◌≡◌, [], length, replicate, IfOk, Some};
ghost use Rattle.outside.specs.Lists.{Journals, journal_of};

use outside::{Keeper, MemKeeper, OutFault};
use std::alloc::Global;
use std::marker::Model;
use wire_bcs::{OutOfMemory, Seq};

/// A keeper in memory that wraps one that is set to fail at no call. Contracts see its lists; its count of faults is 0
/// for good.
#[derive(Drop)]
pub struct SureKeeper {
    inner: MemKeeper,
}

impl Model for SureKeeper {
    ghost use Rattle.std.specs.Prelude.{◌≡◌, []};
    ghost use Rattle.outside.specs.Lists.{Journals};

    ghost Value = { Journals };

    ghost view = { λ s. s.inner.lists };

    ghost invariant = { λ s. s.inner.turns.failing ≡ [] };
}

impl SureKeeper {
    /// A keeper with an empty list for each member.
    pub fn new(alloc: Global, members: u32) -> Result<SureKeeper, OutOfMemory>
        ensures { IfOk result (λ k. k ≡ replicate members []) }
    {
        let inner = MemKeeper::new(alloc, members, [].as_slice())?;
        Ok(SureKeeper { inner })
    }
}

impl Keeper for SureKeeper {
    ghost lists = { λ k. Some k };

    ghost width = { λ k. length k };

    ghost size = { λ k member. length (journal_of k member) };

    ghost failed = { λ k. 0 };

    fn append(&mut self, member: u32, bytes: &[u8]) -> Result<(), OutFault> {
        match self.inner.append(member, bytes) {
            Ok(()) => Ok(()),
            Err(OutFault::Failed) => unreachable!(),
            Err(OutFault::OutOfMemory) => Err(OutFault::OutOfMemory),
        }
    }

    fn members(&self) -> u32 {
        self.inner.members()
    }

    fn faults(&self) -> u64 {
        0
    }

    fn count(&self, member: u32) -> u64 {
        self.inner.count(member)
    }

    fn read(&mut self, member: u32, place: u64) -> Result<Seq<u8>, OutFault> {
        match self.inner.read(member, place) {
            Ok(record) => Ok(record),
            Err(OutFault::Failed) => unreachable!(),
            Err(OutFault::OutOfMemory) => Err(OutFault::OutOfMemory),
        }
    }
}
