//! Where records are kept.

ghost use Rattle.std.specs.Prelude.{◌≡◌, ℕ, ◌<◌, ◌^◌, [], length, replicate, IfOk, OnErr, OnOk, Option, Some, IsErrOf, true, false};
ghost use Rattle.outside.specs.Causes.{KeepCause};
ghost use Rattle.outside.specs.Lists.{Journals, Appended, KeepsJournals, IsRecordAt, IsCountOf, HasMembers, journal_of, with_record};
ghost use Rattle.outside.specs.Turns.{after_call, fails_next, faults_after};
ghost use Rattle.outside.specs.declared.faults.OutFault.TheVariants as fault;

use crate::faults::OutFault;
use crate::turns::Turns;
use std::alloc::Global;
use std::marker::Model;
use wire_bcs::{OutOfMemory, Seq};

/// A keeper of records: a list for each member, numbered from 0.
pub trait Keeper {
    /// The lists, if they are observable.
    ghost lists: { Self → Option Journals };

    /// How many lists there are, which never changes.
    ghost width: { Self → ℕ };

    /// How many records a member's list has.
    ghost size: { Self → ℕ → ℕ };

    /// The count of faults.
    ghost failed: { Self → ℕ };

    /// Adds a record at the end of the member's list. After `Failed` the record stands or does
    /// not; if memory was refused no list changed. The other members' lists stay.
    fn append(&mut self, member: u32, bytes: &[u8]) -> Result<(), OutFault>
        requires known { member < width self.old }
        requires short { length bytes.now < 2 ^ 31 }
        ensures lists { Appended (lists self.old) (lists self.new) member bytes.now result }
        ensures width { width self.new ≡ width self.old }
        ensures cause { KeepCause (failed self.old) (failed self.new) result };

    /// The number of lists. Takes no memory.
    fn members(&self) -> u32
        ensures width { result ≡ width self.now }
        ensures told { HasMembers (lists self.now) result };

    /// The count of faults. Takes no memory.
    fn faults(&self) -> u64
        ensures { result ≡ failed self.now };

    /// The number of records of a member. Takes no memory.
    fn count(&self, member: u32) -> u64
        requires known { member < width self.now }
        ensures size { result ≡ size self.now member }
        ensures told { IsCountOf (lists self.now) member result };

    /// The record at a place below the count, from 0. Changes no list.
    fn read(&mut self, member: u32, place: u64) -> Result<Seq<u8>, OutFault>
        requires known { member < width self.old }
        requires place { place < size self.old member }
        ensures record { IfOk result (IsRecordAt (lists self.old) member place) }
        ensures lists { KeepsJournals (lists self.old) (lists self.new) }
        ensures sizes { (m : ℕ) → size self.new m ≡ size self.old m }
        ensures width { width self.new ≡ width self.old }
        ensures cause { KeepCause (failed self.old) (failed self.new) result };
}

/// A keeper in memory, which fails at the calls of given numbers.
#[derive(Drop)]
pub struct MemKeeper {
    lists: Vec<Seq<Seq<u8>>>,
    turns: Turns,
    faults: u64,
    members: u32,
}

impl Model for MemKeeper {
    ghost use Rattle.std.specs.Prelude.{◌≡◌, length};
    ghost use Rattle.outside.specs.Fakes.{KeeperState};

    ghost Value = { KeeperState };

    ghost view = { λ s. record { lists = s.lists.items; turns = s.turns; faults = s.faults } };

    ghost invariant = { λ s. length s.lists.items ≡ s.members };
}

/// As many empty lists as asked for.
fn empty_lists(alloc: Global, members: u32) -> Result<Vec<Seq<Seq<u8>>>, OutOfMemory>
    ensures { IfOk result (λ lists. lists.items ≡ replicate members []) }
{
    let mut lists = Vec::new(alloc);
    for _made in 0..members {
        lists.push(Seq::new(alloc))?;
    }
    Ok(lists)
}

impl MemKeeper {
    /// A keeper with an empty list for each member. It fails at exactly the appends and reads with
    /// the numbers in `failing`, counted together from 1: a failed append keeps nothing.
    pub fn new(alloc: Global, members: u32, failing: &[u64]) -> Result<MemKeeper, OutOfMemory>
        ensures { IfOk result (λ k. k ≡ record { lists = replicate members []; turns = record { calls = 0; failing = failing.now }; faults = 0 }) }
    {
        let lists = empty_lists(alloc, members)?;
        let failing = Seq::from_slice(alloc, failing)?;
        Ok(MemKeeper {
            lists,
            turns: Turns { calls: 0, failing },
            faults: 0,
            members,
        })
    }
}

/// Adds the record at the end of the member's list.
fn keep_record(lists: &mut Vec<Seq<Seq<u8>>>, member: u32, bytes: &[u8]) -> Result<(), OutOfMemory>
    requires { member < length lists.old.items }
    ensures kept { OnOk result (lists.new.items ≡ with_record lists.old.items member bytes.now) }
    ensures refused { OnErr result (lists.new.items ≡ lists.old.items) }
    ensures width { length lists.new.items ≡ length lists.old.items }
{
    let record = Seq::from_slice(*lists.allocator(), bytes)?;
    let list = &mut lists[member as usize];
    list.push(record)
}

impl MemKeeper {
    /// The allocator that the lists take their memory from.
    pub(crate) fn allocator(&self) -> Global {
        *self.lists.allocator()
    }
}

impl Keeper for MemKeeper {
    ghost lists = { λ k. Some k.lists };

    ghost width = { λ k. length k.lists };

    ghost size = { λ k member. length (journal_of k.lists member) };

    ghost failed = { λ k. k.faults };

    fn append(&mut self, member: u32, bytes: &[u8]) -> Result<(), OutFault>
        requires known { member < length self.old.lists }
        requires short { length bytes.now < 2 ^ 31 }
        ensures lists { Appended (Some self.old.lists) (Some self.new.lists) member bytes.now result }
        ensures width { length self.new.lists ≡ length self.old.lists }
        ensures cause { KeepCause self.old.faults self.new.faults result }
        ensures turns { self.new.turns ≡ after_call self.old.turns }
        ensures counts { self.new.faults ≡ faults_after self.old.turns self.old.faults }
        ensures fails { fails_next self.old.turns ≡ true → IsErrOf result fault.Failed }
        ensures otherwise { fails_next self.old.turns ≡ false → IsErrOf result fault.Failed → ⊥ }
        ensures kept { OnErr result (self.new.lists ≡ self.old.lists) }
    {
        if self.turns.next_fails() {
            self.faults = self.faults.saturating_add(1);
            return Err(OutFault::Failed);
        }
        Ok(keep_record(&mut self.lists, member, bytes)?)
    }

    fn members(&self) -> u32 {
        self.members
    }

    fn faults(&self) -> u64 {
        self.faults
    }

    fn count(&self, member: u32) -> u64 {
        self.lists[member as usize].len()
    }

    fn read(&mut self, member: u32, place: u64) -> Result<Seq<u8>, OutFault>
        requires known { member < length self.old.lists }
        requires place { place < length (journal_of self.old.lists member) }
        ensures record { IfOk result (IsRecordAt (Some self.old.lists) member place) }
        ensures lists { KeepsJournals (Some self.old.lists) (Some self.new.lists) }
        ensures sizes { (m : ℕ) → length (journal_of self.new.lists m) ≡ length (journal_of self.old.lists m) }
        ensures width { length self.new.lists ≡ length self.old.lists }
        ensures cause { KeepCause self.old.faults self.new.faults result }
        ensures turns { self.new.turns ≡ after_call self.old.turns }
        ensures counts { self.new.faults ≡ faults_after self.old.turns self.old.faults }
        ensures fails { fails_next self.old.turns ≡ true → IsErrOf result fault.Failed }
        ensures otherwise { fails_next self.old.turns ≡ false → IsErrOf result fault.Failed → ⊥ }
    {
        if self.turns.next_fails() {
            self.faults = self.faults.saturating_add(1);
            return Err(OutFault::Failed);
        }
        let list = &self.lists[member as usize];
        let record = &list.as_slice()[place as usize];
        Ok(Seq::from_slice(*self.lists.allocator(), record.as_slice())?)
    }
}
