//! A keeper that gives other bytes at one place.

ghost use Rattle.std.specs.Prelude.{◌≡◌, ℕ, ◌<◌, ◌^◌, length, IfOk, OnErr, None, Some, IsErrOf, true, false};
ghost use Rattle.outside.specs.Causes.{KeepCause};
ghost use Rattle.outside.specs.Fakes.{record_read};
ghost use Rattle.outside.specs.Lists.{Appended, KeepsJournals, journal_of};
ghost use Rattle.outside.specs.Turns.{after_call, fails_next, faults_after};
ghost use Rattle.outside.specs.declared.faults.OutFault.TheVariants as fault;

use crate::faults::OutFault;
use crate::keeper::{Keeper, MemKeeper};
use std::marker::Model;
use wire_bcs::{OutOfMemory, Seq};

/// A keeper in memory that gives other bytes if one place of one member is read. It shows no
/// lists; its numbers of members, records and faults are those of the keeper inside.
#[derive(Drop)]
pub struct AlteredKeeper {
    inner: MemKeeper,
    member: u32,
    place: u64,
    bytes: Seq<u8>,
}

impl Model for AlteredKeeper {
    ghost use Rattle.outside.specs.Fakes.{AlteredState};

    ghost Value = { AlteredState };

    ghost view = { λ s. record { inner = s.inner; member = s.member; place = s.place; bytes = s.bytes } };
}

impl AlteredKeeper {
    /// A keeper over `inner` that gives `bytes` if the record at `place`, from 0, of `member` is
    /// read. If memory is refused the keeper inside is dropped.
    pub fn new(
        inner: MemKeeper,
        member: u32,
        place: u64,
        bytes: &[u8],
    ) -> Result<AlteredKeeper, OutOfMemory>
        ensures { IfOk result (λ k. k ≡ record { inner = inner; member = member; place = place; bytes = bytes.now }) }
    {
        let bytes = Seq::from_slice(inner.allocator(), bytes)?;
        Ok(AlteredKeeper {
            inner,
            member,
            place,
            bytes,
        })
    }
}

impl Keeper for AlteredKeeper {
    ghost lists = { λ k. None };

    ghost width = { λ k. length k.inner.lists };

    ghost size = { λ k member. length (journal_of k.inner.lists member) };

    ghost failed = { λ k. k.inner.faults };

    fn append(&mut self, member: u32, bytes: &[u8]) -> Result<(), OutFault>
        requires known { member < length self.old.inner.lists }
        requires short { length bytes.now < 2 ^ 31 }
        ensures lists { Appended None None member bytes.now result }
        ensures width { length self.new.inner.lists ≡ length self.old.inner.lists }
        ensures cause { KeepCause self.old.inner.faults self.new.inner.faults result }
        ensures inside { Appended (Some self.old.inner.lists) (Some self.new.inner.lists) member bytes.now result }
        ensures turns { self.new.inner.turns ≡ after_call self.old.inner.turns }
        ensures counts { self.new.inner.faults ≡ faults_after self.old.inner.turns self.old.inner.faults }
        ensures fails { fails_next self.old.inner.turns ≡ true → IsErrOf result fault.Failed }
        ensures otherwise { fails_next self.old.inner.turns ≡ false → IsErrOf result fault.Failed → ⊥ }
        ensures kept { OnErr result (self.new.inner.lists ≡ self.old.inner.lists) }
        ensures stays { self.new ≡ record self.old { inner = self.new.inner } }
    {
        self.inner.append(member, bytes)
    }

    fn members(&self) -> u32 {
        self.inner.members()
    }

    fn faults(&self) -> u64 {
        self.inner.faults()
    }

    fn count(&self, member: u32) -> u64 {
        self.inner.count(member)
    }

    fn read(&mut self, member: u32, place: u64) -> Result<Seq<u8>, OutFault>
        requires known { member < length self.old.inner.lists }
        requires place { place < length (journal_of self.old.inner.lists member) }
        ensures record { IfOk result (λ bytes. bytes ≡ record_read self.old member place) }
        ensures lists { KeepsJournals (Some self.old.inner.lists) (Some self.new.inner.lists) }
        ensures sizes { (m : ℕ) → length (journal_of self.new.inner.lists m) ≡ length (journal_of self.old.inner.lists m) }
        ensures width { length self.new.inner.lists ≡ length self.old.inner.lists }
        ensures cause { KeepCause self.old.inner.faults self.new.inner.faults result }
        ensures turns { self.new.inner.turns ≡ after_call self.old.inner.turns }
        ensures counts { self.new.inner.faults ≡ faults_after self.old.inner.turns self.old.inner.faults }
        ensures fails { fails_next self.old.inner.turns ≡ true → IsErrOf result fault.Failed }
        ensures otherwise { fails_next self.old.inner.turns ≡ false → IsErrOf result fault.Failed → ⊥ }
        ensures stays { self.new ≡ record self.old { inner = self.new.inner } }
    {
        let record = self.inner.read(member, place)?;
        if member == self.member && place == self.place {
            return Ok(Seq::from_slice(self.inner.allocator(), self.bytes.as_slice())?);
        }
        Ok(record)
    }
}
