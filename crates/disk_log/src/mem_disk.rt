//! A disk in memory, which can be crashed.

ghost use Rattle.std.specs.Prelude.{◌≡◌, ◌+◌, ◌<◌, ◌≤◌, ◌^◌, [], length, vec_len, IfOk, IsErr, IsErrOf, OnOk, Some, is_err, true, false, refl};
ghost use Rattle.std.specs.Vec.{vec_capacity};
ghost use Rattle.outside.specs.Causes.{KeepCause, Rose};
ghost use Rattle.outside.specs.Turns.{fails_next};
ghost use Rattle.outside.specs.declared.faults.OutFault.TheVariants as fault;
ghost use Rattle.disk_log.specs.Disk.{IsGiven, Written, Synced, GrowsTo};
ghost use Rattle.disk_log.specs.Memory.{behind_read, behind_sync, behind_write, history_of, last_synced};

use crate::disk::Disk;
use crate::moment::Moment;
use crate::present::{overwritten, present};
use outside::{Failed, OutFault, Turns};
use std::alloc::Global;
use std::marker::Model;
use wire_bcs::{OutOfMemory, Seq};

/// A write or a tried write, and whether a sync has succeeded after it and before the next one.
#[derive(Debug, Drop)]
pub struct Change {
    pub at: u64,
    pub bytes: Seq<u8>,
    pub failed: bool,
    pub synced: bool,
}

/// A disk in memory. It shows all its moments, and fails at the calls of given numbers.
#[derive(Drop)]
pub struct MemDisk {
    first: Seq<u8>,
    changes: Vec<Change>,
    reads: Seq<u8>,
    turns: Turns,
    faults: u64,
}

impl Model for MemDisk {
    ghost use Rattle.std.specs.Prelude.{◌≡◌, ◌+◌, ◌<◌, ◌^◌, All, length};
    ghost use Rattle.disk_log.specs.Memory.{DiskState, history_of};

    ghost Value = { DiskState };

    ghost view = { λ s. record { first = s.first; changes = s.changes.items; turns = s.turns; faults = s.faults } };

    ghost invariant = { λ s. (s.reads ≡ (history_of s.first s.changes.items).now.reads)
        × (length s.reads < 2 ^ 63)
        × All (λ c. c.at + length c.bytes < 2 ^ 63) s.changes.items };
}

/// Makes room for one change more.
fn make_room(changes: &mut Vec<Change>) -> Result<(), OutOfMemory>
    ensures items { changes.new.items ≡ changes.old.items }
    ensures room { OnOk result (vec_len changes.new < vec_capacity changes.new) }
{
    changes.reserve(1)?;
    Ok(())
}

/// Notes that a sync has succeeded after the last change.
fn note_sync(changes: &mut Vec<Change>)
    ensures { changes.new.items ≡ last_synced changes.old.items }
{
    let count = changes.len();
    if count > 0 {
        let last = &mut changes[count - 1];
        last.synced = true;
    }
}

impl MemDisk {
    /// A disk with these bytes, all of them stable. It fails at exactly the calls of `read_at`,
    /// `write_at` and `sync` with the numbers in `failing`, counted together from 1; a call that is
    /// refused memory does nothing and is not counted.
    pub fn new(alloc: Global, contents: &[u8], failing: &[u64]) -> Result<MemDisk, OutOfMemory>
        requires { length contents.now < 2 ^ 63 }
        ensures { IfOk result (λ d. d ≡ record { first = contents.now; changes = []; turns = record { calls = 0; failing = failing.now }; faults = 0 }) }
    {
        let first = Seq::from_slice(alloc, contents)?;
        let reads = Seq::from_slice(alloc, contents)?;
        let failing = Seq::from_slice(alloc, failing)?;
        Ok(MemDisk {
            first,
            changes: Vec::new(alloc),
            reads,
            turns: Turns { calls: 0, failing },
            faults: 0,
        })
    }

    /// What reads give. Takes no memory.
    pub fn bytes(&self) -> &[u8]
        ensures { result.now ≡ (history_of self.now.first self.now.changes).now.reads }
    {
        self.reads.as_slice()
    }

    /// The present moment.
    #[tactic(auto, using(crate::proofs::Folding::moment_is, crate::proofs::Folding::moment_sizes))]
    pub(crate) fn moment(&self) -> Result<Moment, OutOfMemory>
        ensures now { IfOk result (λ m. m ≡ (history_of self.now.first self.now.changes).now) }
        ensures sizes { IfOk result (λ m. length m.stable ≤ m.most) }
    {
        present(
            *self.changes.allocator(),
            self.first.as_slice(),
            self.changes.as_slice(),
        )
    }
}

impl Disk for MemDisk {
    ghost use Rattle.disk_log.specs.SeenLaws.{history_seen};

    ghost history = { λ d. Some (history_of d.first d.changes) };

    ghost extent = { λ d. length (history_of d.first d.changes).now.reads };

    ghost failed = { λ d. d.faults };

    ghost sized = { λ d. refl };

    ghost seen = { λ d. history_seen d.first d.changes };

    fn size(&self) -> u64 {
        self.reads.len()
    }

    fn faults(&self) -> u64 {
        self.faults
    }

    fn read_at(&mut self, at: u64, buffer: &mut [u8]) -> Result<(), Failed>
        requires { at + length buffer.old ≤ length (history_of self.old.first self.old.changes).now.reads }
        ensures given { OnOk result (IsGiven (Some (history_of self.old.first self.old.changes)) at buffer.new) }
        ensures history { (Some (history_of self.new.first self.new.changes)) ≡ (Some (history_of self.old.first self.old.changes)) }
        ensures extent { length (history_of self.new.first self.new.changes).now.reads ≡ length (history_of self.old.first self.old.changes).now.reads }
        ensures later { self.old.faults ≤ self.new.faults }
        ensures failed { IsErr result → Rose self.old.faults self.new.faults }
        ensures exactly { is_err result ≡ fails_next self.old.turns }
        ensures state { self.new ≡ behind_read self.old }
    {
        if self.turns.next_fails() {
            self.faults = self.faults.saturating_add(1);
            return Err(Failed);
        }
        let (_, behind) = self.reads.as_slice().split_at(at as usize);
        let (front, _) = behind.split_at(buffer.len());
        buffer.copy_from_slice(front);
        Ok(())
    }

    fn write_at(&mut self, at: u64, bytes: &[u8]) -> Result<(), OutFault>
        requires at { at ≤ length (history_of self.old.first self.old.changes).now.reads }
        requires end { at + length bytes.now < 2 ^ 63 }
        ensures written { Written (Some (history_of self.old.first self.old.changes)) (Some (history_of self.new.first self.new.changes)) at bytes.now result }
        ensures extent { GrowsTo (length (history_of self.old.first self.old.changes).now.reads) (length (history_of self.new.first self.new.changes).now.reads) (at + length bytes.now) result }
        ensures cause { KeepCause self.old.faults self.new.faults result }
        ensures fails { IsErrOf result fault.Failed → fails_next self.old.turns ≡ true }
        ensures works { OnOk result (fails_next self.old.turns ≡ false) }
        ensures state { self.new ≡ behind_write self.old at bytes.now result }
    {
        let alloc = *self.changes.allocator();
        let reads = overwritten(alloc, self.reads.as_slice(), at as usize, bytes)?;
        let bytes = Seq::from_slice(alloc, bytes)?;
        make_room(&mut self.changes)?;
        let failed = self.turns.next_fails();
        self.changes.push_reserved(Change {
            at,
            bytes,
            failed,
            synced: false,
        });
        if failed {
            self.faults = self.faults.saturating_add(1);
            return Err(OutFault::Failed);
        }
        self.reads = reads;
        Ok(())
    }

    fn sync(&mut self) -> Result<(), Failed>
        ensures synced { Synced (Some (history_of self.old.first self.old.changes)) (Some (history_of self.new.first self.new.changes)) result }
        ensures extent { length (history_of self.new.first self.new.changes).now.reads ≡ length (history_of self.old.first self.old.changes).now.reads }
        ensures later { self.old.faults ≤ self.new.faults }
        ensures failed { IsErr result → Rose self.old.faults self.new.faults }
        ensures exactly { is_err result ≡ fails_next self.old.turns }
        ensures state { self.new ≡ behind_sync self.old }
    {
        if self.turns.next_fails() {
            self.faults = self.faults.saturating_add(1);
            return Err(Failed);
        }
        note_sync(&mut self.changes);
        Ok(())
    }
}
