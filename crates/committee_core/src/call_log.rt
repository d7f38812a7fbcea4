//! A log as the keeper of one call of the program.

ghost use Rattle.std.specs.Prelude.{◌≡◌, ◌+◌, ◌<◌, ◌^◌, ℕ, None, Option, IfOk, length, slice_index};
ghost use Rattle.outside.specs.Causes.{KeepCause};
ghost use Rattle.outside.specs.Lists.{Appended, IsCountOf, IsRecordAt, Journals};
ghost use Rattle.disk_log.specs.Keeping.{told_lists};
ghost use Rattle.disk_log.specs.Running.{run_answer};
ghost use Rattle.committee_core.specs.Calling.{IsCalling, IsNextOf, call_count, call_lists, unfinished_behind};

use disk_log::{Disk, DiskLog, LogRefusal};
use outside::{Keeper, OutFault};
use std::alloc::Global;
use std::marker::{Brand, Model, PhantomData};
use wire_bcs::{OutOfMemory, Seq};

/// The disk's count of faults when a log was opened, and the lists that it had. Each call of the program picks them.
pub(crate) trait Opening {
    ghost faults: { ℕ };

    ghost begun: { Option Journals };
}

impl Opening for Brand {
    ghost faults = { 0 };

    ghost begun = { None };
}

/// A record whose append began, and how many its member has with it.
#[derive(Drop)]
pub(crate) struct Unfinished {
    member: u32,
    count: u64,
    bytes: Seq<u8>,
}

/// A log of 64 members as the keeper of a call, whose count of faults is the disk's own. A log that is full, or shut by
/// an earlier fault, has no room for a record: that counts as running out of memory. The record whose append met the fault
/// of the disk is the last of its member's list, since the file may hold it. Contracts see the log, and this record.
pub(crate) struct CallLog<F: Disk, O: Opening> {
    alloc: Global,
    log: DiskLog<F>,
    unfinished: Option<Unfinished>,
    opening: PhantomData<O>,
}

impl<F: Disk, O: Opening> Model for CallLog<F, O> {
    ghost use Rattle.committee_core.specs.Calling.{CallState, IsCalling};

    ghost Value = { CallState F };

    ghost view = { λ s. record { log = s.log; unfinished = s.unfinished } };

    ghost invariant = { λ s. IsCalling O.faults O.begun (F.history s.log.disk) (F.failed s.log.disk) s.log.end s.log.counts s.unfinished };
}

impl<F: Disk, O: Opening> CallLog<F, O> {
    /// The keeper over a log that was opened.
    pub(crate) fn new(alloc: Global, log: DiskLog<F>) -> CallLog<F, O>
        requires { IsCalling O.faults O.begun (F.history log.disk) (F.failed log.disk) log.end log.counts None }
        ensures { result ≡ record { log = log; unfinished = None } }
    {
        CallLog {
            alloc,
            log,
            unfinished: None,
            opening: PhantomData,
        }
    }

    /// The disk, which holds the lists.
    pub(crate) fn into_disk(self) -> F
        ensures disk { result ≡ self.log.disk }
        ensures calling { IsCalling O.faults O.begun (F.history self.log.disk) (F.failed self.log.disk) self.log.end self.log.counts self.unfinished }
    {
        let CallLog {
            alloc: _alloc,
            log,
            unfinished,
            opening: _opening,
        } = self;
        drop(unfinished);
        log.into_disk()
    }
}

/// The record of an append that is about to begin, of a member that has `kept` records. Out of memory also if the
/// count would pass 2^64 - 1.
fn begin(alloc: Global, member: u32, kept: u64, bytes: &[u8]) -> Result<Unfinished, OutOfMemory>
    ensures { IfOk result (λ begun. begun ≡ record { member = member; count = kept + 1; bytes = bytes.now }) }
{
    let Some(count) = kept.checked_add(1) else {
        return Err(OutOfMemory);
    };
    let bytes = Seq::from_slice(alloc, bytes)?;
    Ok(Unfinished {
        member,
        count,
        bytes,
    })
}

/// The unfinished record after the log's answer to an append: the record itself if the disk failed, else none.
fn left_of(begun: Unfinished, answer: &Result<(), LogRefusal>) -> Option<Unfinished>
    ensures { result ≡ unfinished_behind begun answer.now }
{
    match answer {
        Err(LogRefusal::DiskFault) => Some(begun),
        Ok(()) | Err(LogRefusal::Shut | LogRefusal::Full | LogRefusal::OutOfMemory) => None,
    }
}

/// The keeper's answer for the log's: a fault of the disk is a fault, and every other refusal counts as out of memory.
fn passed(answer: Result<(), LogRefusal>) -> Result<(), OutFault>
    ensures { result ≡ run_answer answer }
{
    match answer {
        Ok(()) => Ok(()),
        Err(LogRefusal::DiskFault) => Err(OutFault::Failed),
        Err(LogRefusal::Shut) => Err(OutFault::OutOfMemory),
        Err(LogRefusal::Full) => Err(OutFault::OutOfMemory),
        Err(LogRefusal::OutOfMemory) => Err(OutFault::OutOfMemory),
    }
}

/// How many records a member has, if the log has this many of it. Takes no memory.
fn count_with(unfinished: &Option<Unfinished>, member: u32, kept: u64) -> u64
    ensures { result ≡ call_count unfinished.now member kept }
{
    match unfinished {
        Some(last) => {
            if last.member == member {
                return last.count;
            }
            kept
        }
        None => kept,
    }
}

/// How many records a member has, with the unfinished one. Takes no memory.
#[tactic(auto, using(crate::proofs::CallLists::call_counts))]
fn count_of<F: Disk>(log: &DiskLog<F>, unfinished: &Option<Unfinished>, member: u32) -> u64
    requires known { member < length log.now.counts }
    requires next { IsNextOf log.now.counts unfinished.now }
    ensures size { result ≡ call_count unfinished.now member (slice_index log.now.counts member) }
    ensures told { IsCountOf (call_lists (told_lists (F.history log.now.disk) log.now.end (length log.now.counts)) unfinished.now) member result }
{
    count_with(unfinished, member, log.count(member))
}

/// Appends a record to a log, unless an earlier append met a fault of the disk. If this append does, its record is
/// unfinished.
fn append_to<F: Disk>(
    alloc: Global,
    log: &mut DiskLog<F>,
    unfinished: &mut Option<Unfinished>,
    member: u32,
    bytes: &[u8],
) -> Result<(), OutFault>
    requires known { member < length log.old.counts }
    requires short { length bytes.now < 2 ^ 31 }
    ensures calling { (opened : ℕ) (first : Option Journals) → IsCalling opened first (F.history log.old.disk) (F.failed log.old.disk) log.old.end log.old.counts unfinished.old → IsCalling opened first (F.history log.new.disk) (F.failed log.new.disk) log.new.end log.new.counts unfinished.new }
    ensures lists { Appended (call_lists (told_lists (F.history log.old.disk) log.old.end (length log.old.counts)) unfinished.old) (call_lists (told_lists (F.history log.new.disk) log.new.end (length log.new.counts)) unfinished.new) member bytes.now result }
    ensures width { length log.new.counts ≡ length log.old.counts }
    ensures cause { KeepCause (F.failed log.old.disk) (F.failed log.new.disk) result }
{
    if unfinished.is_some() {
        return Err(OutFault::OutOfMemory);
    }
    let begun = match begin(alloc, member, log.count(member), bytes) {
        Ok(begun) => begun,
        Err(OutOfMemory) => return Err(OutFault::OutOfMemory),
    };
    let answer = log.append_record(member, bytes);
    *unfinished = left_of(begun, &answer);
    passed(answer)
}

/// The record of a member at a place below its count.
fn read_from<F: Disk>(
    alloc: Global,
    log: &mut DiskLog<F>,
    unfinished: &Option<Unfinished>,
    member: u32,
    place: u64,
) -> Result<Seq<u8>, OutFault>
    requires known { member < length log.old.counts }
    requires next { IsNextOf log.old.counts unfinished.now }
    requires place { place < call_count unfinished.now member (slice_index log.old.counts member) }
    ensures record { IfOk result (IsRecordAt (call_lists (told_lists (F.history log.old.disk) log.old.end (length log.old.counts)) unfinished.now) member place) }
    ensures history { F.history log.new.disk ≡ F.history log.old.disk }
    ensures end { log.new.end ≡ log.old.end }
    ensures counts { log.new.counts ≡ log.old.counts }
    ensures cause { KeepCause (F.failed log.old.disk) (F.failed log.new.disk) result }
{
    if place < log.count(member) {
        return log.read(member, place);
    }
    match unfinished {
        Some(last) => match Seq::from_slice(alloc, last.bytes.as_slice()) {
            Ok(bytes) => Ok(bytes),
            Err(OutOfMemory) => Err(OutFault::OutOfMemory),
        },
        None => unreachable!(),
    }
}

/// The lists are those of the records that were acknowledged, with the unfinished one, if the disk shows its bytes.
#[tactic(auto, using(crate::proofs::CallLists::call_members))]
impl<F: Disk, O: Opening> Keeper for CallLog<F, O> {
    ghost lists = { λ l. call_lists (told_lists (F.history l.log.disk) l.log.end (length l.log.counts)) l.unfinished };

    ghost width = { λ l. length l.log.counts };

    ghost size = { λ l member. call_count l.unfinished member (slice_index l.log.counts member) };

    ghost failed = { λ l. F.failed l.log.disk };

    fn append(&mut self, member: u32, bytes: &[u8]) -> Result<(), OutFault> {
        append_to(
            self.alloc,
            &mut self.log,
            &mut self.unfinished,
            member,
            bytes,
        )
    }

    fn members(&self) -> u32 {
        self.log.members()
    }

    fn faults(&self) -> u64 {
        self.log.disk_faults()
    }

    fn count(&self, member: u32) -> u64 {
        count_of(&self.log, &self.unfinished, member)
    }

    fn read(&mut self, member: u32, place: u64) -> Result<Seq<u8>, OutFault> {
        read_from(self.alloc, &mut self.log, &self.unfinished, member, place)
    }
}
