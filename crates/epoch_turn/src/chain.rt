//! A member's checkpoints over all its epochs, built as their transactions get done.

ghost use Rattle.std.specs.Prelude.{◌≡◌, IfOk, OnErr, OnOk, drop, length, option_map, slice_get, true};
ghost use Rattle.checkpoint_core.specs.Checkpoints.{transactions_in};
ghost use Rattle.protocol_spec.specs.Member.Sequence.{cut_of};
ghost use Rattle.epoch_turn.specs.Chains.{AddsCuts, AreCut, BuildsAll, FindsFirst, IsAhead, IsBehind, KeepsCuts, StartsBehind, StaysBehind, advanced, cut_of_chain, last_cuts, nothing_built, turned, tx_of, with_cut, with_due, with_mark};

use crate::due::Due;
use crate::rows::Rows;
use checkpoint_core::{Checkpoint, HashedCheckpoint};
use digest_core::Digest;
use std::alloc::Global;
use std::marker::Model;
use version_store::Store;
use wire_bcs::{OutOfMemory, Seq};

/// The checkpoints of a member, over all its epochs. Contracts see them, and of the present epoch what was admitted,
/// where it was cut, and how much of it at the start was found done.
#[derive(Drop)]
pub struct CheckpointBuilder {
    rows: Rows,
    alloc: Global,
}

impl Model for CheckpointBuilder {
    ghost use Rattle.epoch_turn.specs.Chains.{Chaining};
    ghost use Rattle.epoch_turn.specs.Kept.{IsKept, shown};

    ghost Value = { Chaining };

    ghost view = { λ c. shown c.rows };

    ghost invariant = { λ c. IsKept c.rows };
}

impl CheckpointBuilder {
    /// Nothing built, in epoch 0. Takes no memory.
    pub fn new(alloc: Global) -> CheckpointBuilder
        ensures value { result ≡ nothing_built }
        ensures behind { StartsBehind result }
    {
        CheckpointBuilder {
            rows: Rows::new(alloc),
            alloc,
        }
    }

    /// Reports what was admitted next. A refusal changes nothing.
    pub fn admit(&mut self, due: Due) -> Result<(), OutOfMemory>
        ensures ok { OnOk result (self.new ≡ with_due self.old due) }
        ensures cuts { OnOk result (KeepsCuts self.old self.new) }
        ensures behind { StaysBehind self.old self.new }
        ensures err { OnErr result (self.new ≡ self.old) }
    {
        self.rows.admit(due)
    }

    /// Reports a Commit mark: what was admitted since the last cut is cut, if anything was (Sui Lutris). A refusal
    /// changes nothing.
    pub fn mark(&mut self) -> Result<(), OutOfMemory>
        ensures ok { OnOk result (self.new ≡ with_mark self.old) }
        ensures cuts { OnOk result (AddsCuts cut_of self.old self.new) }
        ensures behind { StaysBehind self.old self.new }
        ensures err { OnErr result (self.new ≡ self.old) }
    {
        self.rows.mark()
    }

    /// Reports the end of the epoch: what was admitted since the last cut is the last cut, empty or not. A refusal
    /// changes nothing.
    pub fn end(&mut self) -> Result<(), OutOfMemory>
        ensures ok { OnOk result (self.new ≡ with_cut true self.old) }
        ensures cuts { OnOk result (AddsCuts last_cuts self.old self.new) }
        ensures behind { StaysBehind self.old self.new }
        ensures err { OnErr result (self.new ≡ self.old) }
    {
        self.rows.cut(true)
    }

    /// Builds the checkpoints of the epoch's cuts, up to the first that has a transaction which is not done, and
    /// answers those that are new (Sui Lutris). A refusal changes nothing.
    pub fn advance(
        &mut self,
        epoch: u64,
        store: &Store,
    ) -> Result<Seq<HashedCheckpoint>, OutOfMemory>
        requires { IsBehind epoch store.now.executed self.old }
        ensures ok { OnOk result (self.new ≡ advanced epoch store.now.executed self.old) }
        ensures all { OnOk result (BuildsAll epoch store.now.executed self.new) }
        ensures behind { OnOk result (IsAhead epoch store.now.executed self.new) }
        ensures new { IfOk result (λ new. new ≡ drop (length self.old.built) self.new.built) }
        ensures err { OnErr result (self.new ≡ self.old) }
    {
        self.rows.advance(self.alloc, epoch, store)
    }

    /// The first admitted transaction that was not found done; none exactly if all were. Takes no memory.
    pub fn waits(&self) -> Option<Digest>
        ensures value { result ≡ option_map tx_of (slice_get self.now.due self.now.done) }
        ensures first { FindsFirst result self.now }
    {
        self.rows.waits()
    }

    /// The transactions in the epoch's cuts, in the order of admission: those that a member keeps as the epoch changes.
    pub(crate) fn cut_transactions(&self) -> Result<Seq<Digest>, OutOfMemory>
        ensures value { IfOk result (λ txs. txs ≡ cut_of_chain self.now) }
        ensures cut { IfOk result (λ txs. AreCut self.now txs) }
    {
        self.rows.cut_transactions(self.alloc)
    }

    /// The number of checkpoints built, over all epochs. Takes no memory.
    pub fn len(&self) -> u64
        ensures { result ≡ length self.now.built }
    {
        self.rows.tip.number
    }

    /// The number of transactions that stand in them. Takes no memory.
    pub fn transactions(&self) -> u64
        ensures { result ≡ transactions_in self.now.built }
    {
        self.rows.tip.transactions
    }

    /// The checkpoint of this number; none exactly if it was not built. Takes no memory.
    pub fn checkpoint(&self, number: u64) -> Option<&Checkpoint>
        ensures { option_map (λ (c : _). c.now) result ≡ slice_get self.now.built number }
    {
        match self.rows.items.get(number as usize) {
            Some(kept) => Some(kept.checkpoint()),
            None => None,
        }
    }

    /// Goes to the next epoch, in which nothing is admitted yet. Takes no memory.
    pub fn turn(&mut self)
        ensures value { self.new ≡ turned self.old }
        ensures behind { StartsBehind self.new }
    {
        self.rows.turn();
    }
}
