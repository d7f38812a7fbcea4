//! A log as the keeper of a run.

ghost use Rattle.std.specs.Prelude.{◌≡◌, ◌<◌, ◌≤◌, ◌^◌, ℕ, length, slice_index, IfErr, IfOk};
ghost use Rattle.outside.specs.Causes.{KeepCause};
ghost use Rattle.outside.specs.Lists.{Appended, IsRecordAt, KeepsJournals};
ghost use Rattle.disk_log.specs.Disk.{IfTold};
ghost use Rattle.disk_log.specs.Keeping.{NotOpened, Opened, told_lists};
ghost use Rattle.disk_log.specs.Log.{WalkCause};
ghost use Rattle.disk_log.specs.Running.{AddsExactly, HoldsLists, HoldsTo, IsEmptyTo, IsRunAppend, Unchanged, lists_in, run_answer};

use crate::disk::Disk;
use crate::log::DiskLog;
use crate::refusals::{LogRefusal, OpenRefusal};
use outside::{Keeper, OutFault};
use std::alloc::Global;
use std::marker::Model;
use wire_bcs::Seq;

/// A log as the keeper of a run, whose count of faults is the disk's own. A log that is full, or
/// shut by an earlier fault, has no room for a record: that counts as running out of memory, since the disk
/// met no fault then. Contracts see the log.
pub struct RunLog<K: Disk> {
    log: DiskLog<K>,
}

impl<K: Disk> Model for RunLog<K> {
    ghost use Rattle.disk_log.specs.Keeping.{LogState};
    ghost use Rattle.disk_log.specs.Running.{IsRunning};

    ghost Value = { LogState K };

    ghost view = { λ s. s.log };

    ghost invariant = { λ s. IsRunning (K.history s.log.disk) (K.failed s.log.disk) s.log.end s.log.shut };
}

impl<K: Disk> RunLog<K> {
    /// Opens a log of so many members, as [`DiskLog::open`] does. A refusal hands the disk back.
    #[tactic(auto, using(crate::proofs::Running::running_opened, crate::proofs::Running::lists_opened, crate::proofs::Running::unchanged_opened, crate::proofs::Running::unchanged_refused))]
    pub fn open(alloc: Global, disk: K, members: u32) -> Result<RunLog<K>, (K, OpenRefusal)>
        ensures opened { IfOk result (λ log. Opened (K.history disk) (K.history log.disk) log.end members) }
        ensures width { IfOk result (λ log. length log.counts ≡ members) }
        ensures lists { IfOk result (λ log. told_lists (K.history log.disk) log.end (length log.counts) ≡ lists_in members (K.history disk)) }
        ensures stays { IfOk result (λ log. Unchanged (K.history disk) (K.history log.disk)) }
        ensures later { IfOk result (λ log. K.failed disk ≤ K.failed log.disk) }
        ensures not_opened { IfErr result (λ e. NotOpened (K.history disk) (K.history e.0)) }
        ensures unchanged { IfErr result (λ e. Unchanged (K.history disk) (K.history e.0)) }
        ensures cause { IfErr result (λ e. WalkCause (K.failed disk) (K.failed e.0) (K.history disk) members e.1) }
    {
        match DiskLog::open(alloc, disk, members) {
            Ok(log) => Ok(RunLog { log }),
            Err(refused) => Err(refused),
        }
    }

    /// Whether the log has no records. Takes no memory.
    pub fn is_empty(&self) -> bool
        ensures { IfTold (K.history self.now.disk) (IsEmptyTo self.now.end result) }
    {
        self.log.is_empty()
    }

    /// The disk. It holds the acknowledged records. Takes no memory.
    pub fn into_disk(self) -> K
        ensures disk { result ≡ self.disk }
        ensures holds { HoldsLists (length self.counts) (K.failed self.disk) (K.history self.disk) (told_lists (K.history self.disk) self.end (length self.counts)) }
        ensures exactly { IfTold (K.history self.disk) (HoldsTo (K.failed self.disk) self.end) }
    {
        let RunLog { log } = self;
        log.into_disk()
    }
}

/// The answer to a run: a fault of the disk is a fault, and a log that is shut or full counts as out of memory.
fn passed(answer: Result<(), LogRefusal>) -> Result<(), OutFault>
    ensures { result ≡ run_answer answer }
{
    match answer {
        Ok(()) => Ok(()),
        Err(LogRefusal::DiskFault) => Err(OutFault::Failed),
        Err(LogRefusal::Shut) => Err(OutFault::OutOfMemory),
        Err(LogRefusal::Full) => Err(OutFault::OutOfMemory),
        Err(LogRefusal::OutOfMemory) => Err(OutFault::OutOfMemory),
    }
}

/// The lists are observable if the disk shows its bytes: those of the acknowledged records.
impl<K: Disk> Keeper for RunLog<K> {
    ghost lists = { λ l. told_lists (K.history l.disk) l.end (length l.counts) };

    ghost width = { λ l. length l.counts };

    ghost size = { λ l member. slice_index l.counts member };

    ghost failed = { λ l. K.failed l.disk };

    fn append(&mut self, member: u32, bytes: &[u8]) -> Result<(), OutFault>
        requires known { member < length self.old.counts }
        requires short { length bytes.now < 2 ^ 31 }
        ensures lists { Appended (told_lists (K.history self.old.disk) self.old.end (length self.old.counts)) (told_lists (K.history self.new.disk) self.new.end (length self.new.counts)) member bytes.now result }
        ensures width { length self.new.counts ≡ length self.old.counts }
        ensures cause { KeepCause (K.failed self.old.disk) (K.failed self.new.disk) result }
        ensures kept { IsRunAppend (K.history self.old.disk) (K.history self.new.disk) self.old.end self.new.end self.old.shut member bytes.now result }
        ensures exactly { AddsExactly (K.history self.old.disk) (K.history self.new.disk) self.old.end self.new.end (record { member = member; bytes = bytes.now }) result }
    {
        let answer = self.log.append_record(member, bytes);
        passed(answer)
    }

    fn members(&self) -> u32 {
        self.log.members()
    }

    fn faults(&self) -> u64 {
        self.log.disk_faults()
    }

    fn count(&self, member: u32) -> u64 {
        self.log.count(member)
    }

    fn read(&mut self, member: u32, place: u64) -> Result<Seq<u8>, OutFault>
        requires known { member < length self.old.counts }
        requires place { place < slice_index self.old.counts member }
        ensures record { IfOk result (IsRecordAt (told_lists (K.history self.old.disk) self.old.end (length self.old.counts)) member place) }
        ensures lists { KeepsJournals (told_lists (K.history self.old.disk) self.old.end (length self.old.counts)) (told_lists (K.history self.new.disk) self.new.end (length self.new.counts)) }
        ensures sizes { (m : ℕ) → slice_index self.new.counts m ≡ slice_index self.old.counts m }
        ensures width { length self.new.counts ≡ length self.old.counts }
        ensures cause { KeepCause (K.failed self.old.disk) (K.failed self.new.disk) result }
        ensures history { K.history self.new.disk ≡ K.history self.old.disk }
        ensures end { self.new.end ≡ self.old.end }
    {
        self.log.read(member, place)
    }
}
