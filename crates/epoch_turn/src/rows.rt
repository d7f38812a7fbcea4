//! The tables of a chain.

ghost use Rattle.std.specs.Prelude.{◌≡◌, ◌≤◌, IfOk, OnErr, OnOk, drop, false, length, option_map, slice_get};
ghost use Rattle.protocol_spec.specs.Member.Sequence.{cut_of};
ghost use Rattle.epoch_turn.specs.Chains.{AddsCuts, BuildsAll, IsAhead, IsBehind, KeepsCuts, StartsBehind, StaysBehind, advanced, cut_of_chain, cuts_with, nothing_built, turned, tx_of, with_cut, with_due, with_mark};
ghost use Rattle.epoch_turn.specs.Dues.{front_length, is_due_done};
ghost use Rattle.epoch_turn.specs.Kept.{IsKept, Keeps, Takes, growth_of, shown};

use crate::due::{CutMark, Due, digests_of, due_from, front_done, marks_from};
use crate::growth::{Growth, Tip};
use checkpoint_core::HashedCheckpoint;
use digest_core::Digest;
use std::alloc::Global;
use version_store::Store;
use wire_bcs::{Duplicate, OutOfMemory, Seq};

/// The checkpoints of all epochs, and of the present one the admitted transactions and their cuts.
#[derive(Drop)]
pub(crate) struct Rows {
    /// All checkpoints that were built.
    pub(crate) items: Vec<HashedCheckpoint>,
    /// How many of the checkpoints are of the epochs before.
    pub(crate) opened: usize,
    pub(crate) tip: Tip,
    /// The transactions admitted in the epoch.
    pub(crate) due: Vec<Due>,
    /// The epoch's cuts.
    pub(crate) marks: Vec<CutMark>,
    /// How many transactions the cuts have: the first ones.
    pub(crate) cut: usize,
    /// How many transactions at the start were found done.
    pub(crate) done: usize,
}

impl Rows {
    /// Nothing built, in epoch 0.
    pub(crate) fn new(alloc: Global) -> Rows
        ensures kept { IsKept result }
        ensures value { shown result ≡ nothing_built }
        ensures behind { StartsBehind (shown result) }
    {
        Rows {
            items: Vec::new(alloc),
            opened: 0,
            tip: Tip {
                number: 0,
                digest: Digest([0; 32]),
                transactions: 0,
                cuts: 0,
                taken: 0,
            },
            due: Vec::new(alloc),
            marks: Vec::new(alloc),
            cut: 0,
            done: 0,
        }
    }

    /// Adds an admitted transaction. A refusal changes nothing.
    pub(crate) fn admit(&mut self, due: Due) -> Result<(), OutOfMemory>
        requires { IsKept self.old }
        ensures kept { IsKept self.new }
        ensures ok { OnOk result (shown self.new ≡ with_due (shown self.old) due) }
        ensures cuts { OnOk result (KeepsCuts (shown self.old) (shown self.new)) }
        ensures behind { StaysBehind (shown self.old) (shown self.new) }
        ensures err { OnErr result (shown self.new ≡ shown self.old) }
    {
        self.due.push(due)?;
        Ok(())
    }

    /// Cuts what was admitted since the last cut. A refusal changes nothing.
    pub(crate) fn cut(&mut self, last: bool) -> Result<(), OutOfMemory>
        requires { IsKept self.old }
        ensures kept { IsKept self.new }
        ensures ok { OnOk result (shown self.new ≡ with_cut last (shown self.old)) }
        ensures cuts { OnOk result (AddsCuts (cuts_with last) (shown self.old) (shown self.new)) }
        ensures behind { StaysBehind (shown self.old) (shown self.new) }
        ensures err { OnErr result (shown self.new ≡ shown self.old) }
    {
        let size = self.due.len() - self.cut;
        self.marks.push(CutMark { size, last })?;
        self.cut = self.due.len();
        Ok(())
    }

    /// A Commit mark: cuts what was admitted since the last cut, if anything was. A refusal changes nothing.
    pub(crate) fn mark(&mut self) -> Result<(), OutOfMemory>
        requires { IsKept self.old }
        ensures kept { IsKept self.new }
        ensures ok { OnOk result (shown self.new ≡ with_mark (shown self.old)) }
        ensures cuts { OnOk result (AddsCuts cut_of (shown self.old) (shown self.new)) }
        ensures behind { StaysBehind (shown self.old) (shown self.new) }
        ensures err { OnErr result (shown self.new ≡ shown self.old) }
    {
        if self.cut == self.due.len() {
            return Ok(());
        }
        self.cut(false)
    }

    /// The first admitted transaction that was not found done.
    pub(crate) fn waits(&self) -> Option<Digest>
        ensures { result ≡ option_map tx_of (slice_get (shown self.now).due (shown self.now).done) }
    {
        match self.due.get(self.done) {
            Some(due) => Some(due.tx),
            None => None,
        }
    }

    /// The transactions in the epoch's cuts.
    pub(crate) fn cut_transactions(&self, alloc: Global) -> Result<Seq<Digest>, OutOfMemory>
        requires { IsKept self.now }
        ensures { IfOk result (λ txs. txs ≡ cut_of_chain (shown self.now)) }
    {
        let txs = digests_of(alloc, &self.due[..self.cut])?;
        Ok(Seq::from_vec(txs))
    }

    /// Goes to the next epoch.
    pub(crate) fn turn(&mut self)
        requires { IsKept self.old }
        ensures kept { IsKept self.new }
        ensures value { shown self.new ≡ turned (shown self.old) }
        ensures behind { StartsBehind (shown self.new) }
    {
        self.opened = self.items.len();
        self.tip.cuts = 0;
        self.tip.taken = 0;
        self.due.clear();
        self.marks.clear();
        self.cut = 0;
        self.done = 0;
    }

    /// How many of the transactions at the start are done now.
    #[tactic(auto, using(crate::proofs::Fronts::front_behind))]
    fn find_done(&self, store: &Store) -> usize
        requires kept { IsKept self.now }
        requires found { self.now.done ≤ front_length (is_due_done store.now.executed) self.now.due.items }
        ensures { result ≡ front_length (is_due_done store.now.executed) self.now.due.items }
    {
        self.done + front_done(due_from(&self.due, self.done), store)
    }

    /// The checkpoints of the cuts that have none yet, up to the first cut that is not done; `done` transactions at
    /// the start are.
    fn growth(
        &self,
        alloc: Global,
        epoch: u64,
        store: &Store,
        done: usize,
    ) -> Result<Growth, OutOfMemory>
        requires kept { IsKept self.now }
        requires behind { IsBehind epoch store.now.executed (shown self.now) }
        requires done { done ≡ front_length (is_due_done store.now.executed) self.now.due.items }
        ensures { IfOk result (λ g. g ≡ growth_of epoch store.now.executed self.now) }
    {
        let mut growth = Growth {
            fresh: Seq::new(alloc),
            tip: self.tip,
        };
        let due = due_from(&self.due, self.tip.taken);
        let marks = marks_from(&self.marks, self.tip.cuts);
        growth.add_all(alloc, epoch, store, due, marks, done - self.tip.taken)?;
        Ok(growth)
    }

    /// Adds the checkpoints that were made, and notes how many transactions are done. A refusal changes nothing.
    fn take(&mut self, growth: Growth, done: usize) -> Result<(), OutOfMemory>
        ensures ok { OnOk result (Takes growth done self.old self.new) }
        ensures err { OnErr result (Keeps self.old self.new) }
    {
        let Growth { fresh, tip } = growth;
        let mut fresh = fresh.into_vec();
        self.items.append(&mut fresh)?;
        self.tip = tip;
        self.done = done;
        Ok(())
    }

    /// Builds the checkpoints of the cuts whose transactions are all done. A refusal changes nothing.
    pub(crate) fn advance(
        &mut self,
        alloc: Global,
        epoch: u64,
        store: &Store,
    ) -> Result<Seq<HashedCheckpoint>, OutOfMemory>
        requires kept { IsKept self.old }
        requires behind { IsBehind epoch store.now.executed (shown self.old) }
        ensures kept { IsKept self.new }
        ensures ok { OnOk result (shown self.new ≡ advanced epoch store.now.executed (shown self.old)) }
        ensures all { OnOk result (BuildsAll epoch store.now.executed (shown self.new)) }
        ensures behind { OnOk result (IsAhead epoch store.now.executed (shown self.new)) }
        ensures new { IfOk result (λ new. new ≡ drop (length (shown self.old).built) (shown self.new).built) }
        ensures err { OnErr result (shown self.new ≡ shown self.old) }
    {
        let done = self.find_done(store);
        let growth = self.growth(alloc, epoch, store, done)?;
        let new = growth.fresh.copy()?;
        self.take(growth, done)?;
        Ok(new)
    }
}
