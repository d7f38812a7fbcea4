//! A log as a keeper of records.

ghost use Rattle.std.specs.Prelude.{◌≡◌, ◌<◌, ◌≤◌, ◌^◌, ℕ, length, slice_index, IfOk, IsErrOf};
ghost use Rattle.outside.specs.Causes.{KeepCause, Rose};
ghost use Rattle.outside.specs.Lists.{Appended, IsRecordAt, KeepsJournals};
ghost use Rattle.outside.specs.declared.faults.OutFault.TheVariants as fault;
ghost use Rattle.disk_log.specs.Keeping.{IsKeptAppend, told_lists};

use crate::disk::Disk;
use crate::log::DiskLog;
use crate::refusals::LogRefusal;
use outside::{Keeper, OutFault};
use wire_bcs::Seq;

/// The lists are observable if the disk shows its bytes: those of the acknowledged records. A call that the log could
/// not do counts one fault of the log's own.
impl<K: Disk> Keeper for DiskLog<K> {
    ghost lists = { λ l. told_lists (K.history l.disk) l.end (length l.counts) };

    ghost width = { λ l. length l.counts };

    ghost size = { λ l member. slice_index l.counts member };

    ghost failed = { λ l. l.faults };

    fn append(&mut self, member: u32, bytes: &[u8]) -> Result<(), OutFault>
        requires known { member < length self.old.counts }
        requires short { length bytes.now < 2 ^ 31 }
        ensures lists { Appended (told_lists (K.history self.old.disk) self.old.end (length self.old.counts)) (told_lists (K.history self.new.disk) self.new.end (length self.new.counts)) member bytes.now result }
        ensures width { length self.new.counts ≡ length self.old.counts }
        ensures cause { KeepCause self.old.faults self.new.faults result }
        ensures kept { IsKeptAppend K.history K.failed self.old self.new member bytes.now result }
    {
        match self.append_record(member, bytes) {
            Ok(()) => Ok(()),
            Err(LogRefusal::OutOfMemory) => Err(OutFault::OutOfMemory),
            Err(LogRefusal::Shut) => Err(self.fault()),
            Err(LogRefusal::Full) => Err(self.fault()),
            Err(LogRefusal::DiskFault) => Err(self.fault()),
        }
    }

    fn members(&self) -> u32 {
        self.width()
    }

    fn faults(&self) -> u64 {
        self.own_faults()
    }

    fn count(&self, member: u32) -> u64 {
        self.records_of(member)
    }

    fn read(&mut self, member: u32, place: u64) -> Result<Seq<u8>, OutFault>
        requires known { member < length self.old.counts }
        requires place { place < slice_index self.old.counts member }
        ensures record { IfOk result (IsRecordAt (told_lists (K.history self.old.disk) self.old.end (length self.old.counts)) member place) }
        ensures lists { KeepsJournals (told_lists (K.history self.old.disk) self.old.end (length self.old.counts)) (told_lists (K.history self.new.disk) self.new.end (length self.new.counts)) }
        ensures sizes { (m : ℕ) → slice_index self.new.counts m ≡ slice_index self.old.counts m }
        ensures width { length self.new.counts ≡ length self.old.counts }
        ensures cause { KeepCause self.old.faults self.new.faults result }
        ensures history { K.history self.new.disk ≡ K.history self.old.disk }
        ensures stays { self.new ≡ record self.old { disk = self.new.disk; faults = self.new.faults } }
        ensures disk { IsErrOf result fault.Failed → Rose (K.failed self.old.disk) (K.failed self.new.disk) }
        ensures disk_later { K.failed self.old.disk ≤ K.failed self.new.disk }
        ensures exactly { (IsErrOf result fault.Failed → ⊥) → self.new.faults ≡ self.old.faults }
    {
        match self.read_record(member, place) {
            Ok(record) => Ok(record),
            Err(OutFault::OutOfMemory) => Err(OutFault::OutOfMemory),
            Err(OutFault::Failed) => Err(self.fault()),
        }
    }
}
