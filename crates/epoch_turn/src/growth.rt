//! The checkpoints that a chain is to add, made before any table changes.

ghost use Rattle.std.specs.Prelude.{◌≡◌, ◌<◌, ◌≤◌, ◌^◌, [], IfOk, OnOk, length, map};
ghost use Rattle.checkpoint_core.specs.Checkpoints as codecs;
ghost use Rattle.protocol_spec.specs.Member.Checkpoints.{effects_digest_of};
ghost use Rattle.protocol_spec.specs.Member.Versions.{execution_of};
ghost use Rattle.epoch_turn.specs.Dues.{due_item, front_length, is_due_done, size_of};
ghost use Rattle.epoch_turn.specs.Kept.{grown, grown_all, grown_by, items_after, next_checkpoint, tip_after};

use crate::due::{CutMark, Due};
use checkpoint_core::{Checkpoint, HashedCheckpoint, Item};
use digest_core::Digest;
use std::alloc::Global;
use version_store::Store;
use wire_bcs::{OutOfMemory, Seq};

/// Where a chain ends.
#[derive(Clone, Copy)]
pub(crate) struct Tip {
    /// The number of the next checkpoint.
    pub(crate) number: u64,
    /// The digest of the last one; 32 zero bytes if there is none.
    pub(crate) digest: Digest,
    /// How many transactions stand in all of them.
    pub(crate) transactions: u64,
    /// How many of the epoch's cuts have their checkpoint.
    pub(crate) cuts: usize,
    /// How many of the epoch's transactions these cuts have.
    pub(crate) taken: usize,
}

/// Checkpoints that are new, and where the chain ends after them.
#[derive(Drop)]
pub(crate) struct Growth {
    pub(crate) fresh: Seq<HashedCheckpoint>,
    pub(crate) tip: Tip,
}

/// The digest of what an executed transaction did; 32 zero bytes if it was not executed. Takes no memory.
#[tactic(auto, using(crate::proofs::Building::digest_known, crate::proofs::Building::digest_unknown))]
fn effects_digest_in(store: &Store, tx: &Digest) -> Digest
    ensures { result ≡ effects_digest_of (execution_of store.now.executed tx.now) }
{
    match store.executed_digest(tx) {
        Some(digest) => digest,
        None => Digest([0; 32]),
    }
}

/// The loop of [`items_of`].
fn collect_items(alloc: Global, store: &Store, txs: &[Due]) -> Result<Seq<Item>, OutOfMemory>
    ensures { IfOk result (λ items. items ≡ items_after store.now.executed [] txs.now) }
{
    let mut items = Seq::new(alloc);
    let mut rest = txs;
    while let [one, after @ ..] = rest {
        items.push(Item {
            tx: one.tx,
            effects: effects_digest_in(store, &one.tx),
        })?;
        rest = after;
    }
    Ok(items)
}

/// The checkpoint items of these transactions: digest and effects digest of each, in order.
#[tactic(auto, using(crate::proofs::Building::items_all))]
fn items_of(alloc: Global, store: &Store, txs: &[Due]) -> Result<Seq<Item>, OutOfMemory>
    ensures { IfOk result (λ items. items ≡ map (due_item store.now.executed) txs.now) }
{
    collect_items(alloc, store, txs)
}

impl Tip {
    /// The next checkpoint, of these transactions.
    fn next(
        &self,
        alloc: Global,
        epoch: u64,
        store: &Store,
        txs: &[Due],
        last: bool,
    ) -> Result<Checkpoint, OutOfMemory>
        ensures { IfOk result (λ c. c ≡ next_checkpoint epoch store.now.executed self.now txs.now last) }
    {
        Ok(Checkpoint {
            epoch,
            number: self.number,
            parent: self.digest,
            items: items_of(alloc, store, txs)?,
            last,
        })
    }

    /// Where the chain ends after one more checkpoint, with this many transactions and this digest. A number or a count
    /// past its type counts as running out of memory.
    fn behind(&self, size: usize, digest: Digest) -> Result<Tip, OutOfMemory>
        ensures { IfOk result (λ tip. tip ≡ tip_after self.now size digest) }
    {
        let number = self.number.checked_add(1).ok_or(OutOfMemory)?;
        let transactions = self
            .transactions
            .checked_add(size as u64)
            .ok_or(OutOfMemory)?;
        let cuts = self.cuts.checked_add(1).ok_or(OutOfMemory)?;
        let taken = self.taken.checked_add(size).ok_or(OutOfMemory)?;
        Ok(Tip {
            number,
            digest,
            transactions,
            cuts,
            taken,
        })
    }
}

impl Growth {
    /// Adds a checkpoint with this many transactions. One that cannot be encoded counts as running out of memory.
    fn push(&mut self, alloc: Global, size: usize, next: Checkpoint) -> Result<(), OutOfMemory>
        ensures { OnOk result (self.new ≡ grown_by self.old size next) }
    {
        let next = HashedCheckpoint::new(alloc, next)?;
        self.tip = self.tip.behind(size, next.digest())?;
        self.fresh.push(next)?;
        Ok(())
    }

    /// Adds the checkpoint of these transactions.
    fn add(
        &mut self,
        alloc: Global,
        epoch: u64,
        store: &Store,
        txs: &[Due],
        last: bool,
    ) -> Result<(), OutOfMemory>
        ensures { OnOk result (self.new ≡ grown epoch store.now.executed self.old txs.now last) }
    {
        let next = self.tip.next(alloc, epoch, store, txs, last)?;
        self.push(alloc, txs.len(), next)
    }

    /// Adds the checkpoints of the cuts of these transactions, up to the first that is not done; this many transactions
    /// at the start are.
    pub(crate) fn add_all(
        &mut self,
        alloc: Global,
        epoch: u64,
        store: &Store,
        due: &[Due],
        marks: &[CutMark],
        ready: usize,
    ) -> Result<(), OutOfMemory>
        requires ready { ready ≡ front_length (is_due_done store.now.executed) due.now }
        requires sizes { size_of marks.now ≤ length due.now }
        ensures { OnOk result (self.new ≡ grown_all epoch store.now.executed self.old due.now marks.now) }
    {
        let mut ready = ready;
        let mut left = due;
        let mut rest = marks;
        while let [mark, after @ ..] = rest {
            if ready < mark.size {
                return Ok(());
            }
            let (txs, others) = left.split_at(mark.size);
            self.add(alloc, epoch, store, txs, mark.last)?;
            ready -= mark.size;
            left = others;
            rest = after;
        }
        Ok(())
    }
}
