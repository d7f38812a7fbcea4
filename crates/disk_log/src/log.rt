//! The log over a disk.

ghost use Rattle.std.specs.Prelude.{◌≡◌, ◌↔◌, ◌+◌, ◌-◌, ◌<◌, ◌≤◌, ◌^◌, min, length, slice_index, IfOk, IfErr, OnOk, OnErr, true, false, Err};
ghost use Rattle.outside.specs.Causes.{KeepCause};
ghost use Rattle.outside.specs.Lists.{IsCountOf, IsRecordAt};
ghost use Rattle.outside.specs.declared.faults.OutFault.TheVariants as fault;
ghost use Rattle.disk_log.specs.Disk.{IfTold};
ghost use Rattle.disk_log.specs.Keeping.{AppendCause, Appends, IsGood, NotOpened, Opened, counts_behind, end_behind, shut_behind, told_lists};
ghost use Rattle.disk_log.specs.Log.{Recorded, WalkCause, with_span};
ghost use Rattle.disk_log.specs.Running.{IsEmptyTo};
ghost use Rattle.disk_log.specs.declared.refusals.LogRefusal.TheVariants as refused;

use crate::disk::Disk;
use crate::index::Index;
use crate::mend::mend;
use crate::moment::Span;
use crate::record::{add_record, body};
use crate::refusals::{LogRefusal, OpenRefusal};
use crate::walk::walk;
use outside::{Failed, OutFault};
use std::alloc::Global;
use std::marker::Model;
use wire_bcs::{OutOfMemory, Seq};

/// No record, and no gate after one, may end at this offset or past it.
const LIMIT: u64 = 1 << 63;

/// A log of records of so many members over a disk. Contracts see the disk, where the gate stands
/// after the acknowledged records, how many each member has, whether an append met a fault of the
/// disk, and the log's own count of faults.
pub struct DiskLog<K: Disk> {
    alloc: Global,
    disk: K,
    index: Index,
    members: u32,
    end: u64,
    shut: bool,
    faults: u64,
}

impl<K: Disk> Model for DiskLog<K> {
    ghost use Rattle.std.specs.Prelude.{◌≡◌, ◌+◌, ◌<◌, ◌^◌, length, map, false};
    ghost use Rattle.disk_log.specs.Disk.{IfTold};
    ghost use Rattle.disk_log.specs.Keeping.{IsGood, LogState};

    ghost Value = { LogState K };

    ghost view = { λ s. record { disk = s.disk; end = s.end; counts = map length s.index; shut = s.shut; faults = s.faults } };

    ghost invariant = { λ s. IsGood (K.history s.disk) (K.extent s.disk) s.end s.members s.shut s.index };
}

/// What reading a file's records gives: the offset of the gate after them, and the ranges of their bytes.
#[derive(Drop)]
struct Reading {
    end: u64,
    index: Index,
}

/// Syncs the disk, reads the records that count, and closes the gate after them.
fn read_log<K: Disk>(alloc: Global, disk: &mut K, members: u32) -> Result<Reading, OpenRefusal>
    ensures good { IfOk result (λ r. IsGood (K.history disk.new) (K.extent disk.new) r.end members false r.index) }
    ensures opened { IfOk result (λ r. Opened (K.history disk.old) (K.history disk.new) r.end members) }
    ensures not_opened { OnErr result (NotOpened (K.history disk.old) (K.history disk.new)) }
    ensures cause { IfErr result (WalkCause (K.failed disk.old) (K.failed disk.new) (K.history disk.old) members) }
    ensures later { K.failed disk.old ≤ K.failed disk.new }
{
    match disk.sync() {
        Ok(()) => {}
        Err(Failed) => return Err(OpenRefusal::DiskFault),
    }
    let mut index = match Index::new(alloc, members) {
        Ok(index) => index,
        Err(OutOfMemory) => return Err(OpenRefusal::OutOfMemory),
    };
    let end = match walk(disk, &mut index) {
        Ok(end) => end,
        Err(refusal) => return Err(refusal),
    };
    match mend(disk, end) {
        Ok(()) => Ok(Reading { end, index }),
        Err(OutFault::Failed) => Err(OpenRefusal::DiskFault),
        Err(OutFault::OutOfMemory) => Err(OpenRefusal::OutOfMemory),
    }
}

impl<K: Disk> DiskLog<K> {
    /// Opens a file that a crash may have left, or anything else: a log of the records that count
    /// in it. It begins with a sync; after the records that count it closes a gate that is open or
    /// missing. `BadMember` comes exactly at the first record that counts whose member is not below
    /// `members`, if neither the disk nor memory refused before. A refusal hands the disk back.
    pub fn open(alloc: Global, disk: K, members: u32) -> Result<DiskLog<K>, (K, OpenRefusal)>
        ensures opened { IfOk result (λ log. Opened (K.history disk) (K.history log.disk) log.end members) }
        ensures width { IfOk result (λ log. length log.counts ≡ members) }
        ensures not_shut { IfOk result (λ log. log.shut ≡ false) }
        ensures no_faults { IfOk result (λ log. log.faults ≡ 0) }
        ensures later { IfOk result (λ log. K.failed disk ≤ K.failed log.disk) }
        ensures not_opened { IfErr result (λ e. NotOpened (K.history disk) (K.history e.0)) }
        ensures cause { IfErr result (λ e. WalkCause (K.failed disk) (K.failed e.0) (K.history disk) members e.1) }
    {
        let mut disk = disk;
        match read_log(alloc, &mut disk, members) {
            Ok(reading) => Ok(DiskLog {
                alloc,
                disk,
                index: reading.index,
                members,
                end: reading.end,
                shut: false,
                faults: 0,
            }),
            Err(refusal) => Err((disk, refusal)),
        }
    }

    /// The disk. Takes no memory.
    pub fn into_disk(self) -> K
        ensures { result ≡ self.disk }
    {
        let DiskLog {
            alloc: _alloc,
            disk,
            index: _index,
            members: _members,
            end: _end,
            shut: _shut,
            faults: _faults,
        } = self;
        disk
    }
}

/// Puts a record after the gate at `end`, into the file and into the index. Room in the index is made before the gate
/// is opened.
fn append_to<K: Disk>(
    alloc: Global,
    disk: &mut K,
    index: &mut Index,
    end: u64,
    member: u32,
    bytes: &[u8],
) -> Result<(), OutFault>
    requires good { IsGood (K.history disk.old) (K.extent disk.old) end (length index.old) false index.old }
    requires known { member < length index.old }
    requires short { length bytes.now < 2 ^ 31 }
    requires room { end + 10 + length bytes.now < 2 ^ 63 }
    ensures recorded { Recorded (K.history disk.old) (K.history disk.new) end member bytes.now result }
    ensures extent { K.extent disk.old ≤ K.extent disk.new }
    ensures reach { OnOk result (end + 9 + length bytes.now < K.extent disk.new) }
    ensures ok { OnOk result (index.new ≡ with_span index.old member (record { at = end + 9; count = length bytes.now })) }
    ensures err { OnErr result (index.new ≡ index.old) }
    ensures cause { KeepCause (K.failed disk.old) (K.failed disk.new) result }
{
    let body = match body(alloc, member, bytes) {
        Ok(body) => body,
        Err(OutOfMemory) => return Err(OutFault::OutOfMemory),
    };
    let span = Span {
        at: end + 9,
        count: bytes.len() as u64,
    };
    match index.add(member, span) {
        Ok(()) => {}
        Err(OutOfMemory) => return Err(OutFault::OutOfMemory),
    }
    match add_record(disk, end, member, bytes, body.as_slice()) {
        Ok(()) => Ok(()),
        Err(fault) => {
            index.take_back(member);
            Err(fault)
        }
    }
}

impl<K: Disk> DiskLog<K> {
    /// Appends a record of a known member. It writes all after the gate, with the next gate
    /// closed, syncs, opens the gate and syncs: four calls of the disk. At `Ok` the record is
    /// acknowledged. If memory was refused the log goes on, since the gate was not opened; after
    /// `DiskFault` the log is shut, and the file is to be opened again.
    pub fn append_record(&mut self, member: u32, bytes: &[u8]) -> Result<(), LogRefusal>
        requires known { member < length self.old.counts }
        requires short { length bytes.now < 2 ^ 31 }
        ensures appends { self.old.shut ≡ false → Appends (K.history self.old.disk) (K.history self.new.disk) self.old.end member bytes.now result }
        ensures shut { (result ≡ Err refused.Shut) ↔ (self.old.shut ≡ true) }
        ensures full { self.old.shut ≡ false → (result ≡ Err refused.Full) ↔ (2 ^ 63 ≤ self.old.end + 10 + length bytes.now) }
        ensures cause { AppendCause (K.failed self.old.disk) (K.failed self.new.disk) result }
        ensures stays { self.old.shut ≡ true → self.new ≡ self.old }
        ensures end { self.new.end ≡ end_behind self.old.end (length bytes.now) result }
        ensures counts { self.new.counts ≡ counts_behind self.old.counts member result }
        ensures shuts { self.new.shut ≡ shut_behind self.old.shut result }
        ensures faults { self.new.faults ≡ self.old.faults }
    {
        if self.shut {
            return Err(LogRefusal::Shut);
        }
        let count = bytes.len() as u64;
        if LIMIT <= self.end + 10 + count {
            return Err(LogRefusal::Full);
        }
        let span = Span {
            at: self.end + 9,
            count,
        };
        match append_to(
            self.alloc,
            &mut self.disk,
            &mut self.index,
            self.end,
            member,
            bytes,
        ) {
            Ok(()) => {
                self.end = span.at + span.count;
                Ok(())
            }
            Err(OutFault::OutOfMemory) => Err(LogRefusal::OutOfMemory),
            Err(OutFault::Failed) => {
                self.shut = true;
                Err(LogRefusal::DiskFault)
            }
        }
    }
}

impl<K: Disk> DiskLog<K> {
    /// The number of members. Takes no memory.
    pub(crate) fn width(&self) -> u32
        ensures { result ≡ length self.now.counts }
    {
        self.members
    }

    /// The number of a member's records. Takes no memory.
    pub(crate) fn records_of(&self, member: u32) -> u64
        requires { member < length self.now.counts }
        ensures size { result ≡ slice_index self.now.counts member }
        ensures told { IsCountOf (told_lists (K.history self.now.disk) self.now.end (length self.now.counts)) member result }
    {
        self.index.count(member)
    }

    /// The log's own count of faults. Takes no memory.
    pub(crate) fn own_faults(&self) -> u64
        ensures { result ≡ self.now.faults }
    {
        self.faults
    }

    /// The disk's count of faults. Takes no memory.
    pub fn disk_faults(&self) -> u64
        ensures { result ≡ K.failed self.now.disk }
    {
        self.disk.faults()
    }

    /// Whether the log has no records. Takes no memory.
    pub fn is_empty(&self) -> bool
        ensures { IfTold (K.history self.now.disk) (IsEmptyTo self.now.end result) }
    {
        self.end == 0
    }

    /// Adds one to the log's own count of faults; at 2^64 - 1 it stays.
    pub(crate) fn fault(&mut self) -> OutFault
        ensures answer { result ≡ fault.Failed }
        ensures later { self.old.faults ≤ self.new.faults }
        ensures counts { self.new ≡ record self.old { faults = min (self.old.faults + 1) (2 ^ 64 - 1) } }
    {
        self.faults = self.faults.saturating_add(1);
        OutFault::Failed
    }

    /// Reads the bytes of a member's record from the disk. Changes no record.
    pub(crate) fn read_record(&mut self, member: u32, place: u64) -> Result<Seq<u8>, OutFault>
        requires known { member < length self.old.counts }
        requires place { place < slice_index self.old.counts member }
        ensures record { IfOk result (IsRecordAt (told_lists (K.history self.old.disk) self.old.end (length self.old.counts)) member place) }
        ensures history { K.history self.new.disk ≡ K.history self.old.disk }
        ensures stays { self.new ≡ record self.old { disk = self.new.disk } }
        ensures cause { KeepCause (K.failed self.old.disk) (K.failed self.new.disk) result }
    {
        let span = self.index.span(member, place);
        let mut bytes = match zeros(self.alloc, span.count) {
            Ok(bytes) => bytes,
            Err(OutOfMemory) => return Err(OutFault::OutOfMemory),
        };
        match self.disk.read_at(span.at, bytes.as_mut_slice()) {
            Ok(()) => {}
            Err(Failed) => return Err(OutFault::Failed),
        }
        Ok(Seq::from_vec(bytes))
    }
}

/// As many zeros as asked for.
fn zeros(alloc: Global, count: u64) -> Result<Vec<u8>, OutOfMemory>
    ensures { IfOk result (λ v. length v.items ≡ count) }
{
    Ok(vec![in alloc; 0; count as usize]?)
}
