//! The course of a member's epoch: its versions, certificates, the sequence as it has seen it, and the checkpoints;
//! all that it has but its votes.

ghost use Rattle.std.specs.Prelude.{◌≡◌, ◌<◌, ◌≤◌, ◌^◌, [], IfOk, OnOk, drop, false, is_some, length, map};
ghost use Rattle.chain_types.specs.Digests.{transaction_digest};
ghost use Rattle.exec_plan.specs.Books.{books_of, effects_of};
ghost use Rattle.protocol_spec.specs.Chain.Shape.{shape_fault};
ghost use Rattle.protocol_spec.specs.Member.Admission.{digest_of_admitted};
ghost use Rattle.protocol_spec.specs.Member.Checkpoints.{held_of};
ghost use Rattle.protocol_spec.specs.Member.Rounds.{left, rounds};
ghost use Rattle.world_spec.specs.Starts.{AreApart};
ghost use Rattle.validator_core.specs.Courses.{HasOpening, IsAdmitting, IsSound, IsUnbuilt, Stays, begun, built_in, coursed, newly_built, ran, with_held};

use chain_types::Object;
use checkpoint_core::HashedCheckpoint;
use dag_pool::Gate;
use digest_core::Digest;
use effects_core::HashedEffects;
use epoch_turn::{CheckpointBuilder, EndCount, tell};
use exec_plan::DependencyIndex;
use protocol_spec::{Held, Left};
use std::alloc::Global;
use std::mem::replace;
use std::thread::Threads;
use version_assign::Admission;
use version_store::Store;
use vote_rules::CertificateStore;
use wire_bcs::{OutOfMemory, Seq};

/// All that a member has of its epoch but its votes, and whether it closed.
#[derive(Drop)]
pub(crate) struct EpochState {
    pub(crate) epoch: u64,
    pub(crate) store: Store,
    pub(crate) held: CertificateStore,
    pub(crate) waiting: DependencyIndex,
    pub(crate) admission: Admission,
    pub(crate) chain: CheckpointBuilder,
    /// How many entries of the sequence were seen.
    pub(crate) seen: u64,
    pub(crate) ends: EndCount,
    /// Whether the end of the epoch was seen.
    pub(crate) ended: bool,
    pub(crate) alloc: Global,
}

impl EpochState {
    /// Epoch 0, which opens with these objects, none of them twice.
    #[tactic(auto, using(crate::proofs::Opening::apart_new))]
    pub(crate) fn fresh(
        alloc: Global,
        opening: &Seq<Object>,
        writers: Option<u32>,
    ) -> Result<EpochState, OutOfMemory>
        requires { AreApart opening.now }
        ensures sound { IfOk result IsSound }
        ensures value { IfOk result (λ c. coursed c ≡ begun opening.now writers) }
    {
        let store = Store::opening(alloc, opening)?;
        let Ok(admission) = Admission::new(alloc, opening, writers) else {
            drop(store);
            return Err(OutOfMemory);
        };
        Ok(EpochState {
            epoch: 0,
            store,
            held: CertificateStore::new(alloc),
            waiting: DependencyIndex::new(alloc),
            admission,
            chain: CheckpointBuilder::new(alloc),
            seen: 0,
            ends: EndCount::new(),
            ended: false,
            alloc,
        })
    }

    /// Empties the tables after a refusal of memory half way, so that they are consistent again; the member is down
    /// then. Takes no memory.
    pub(crate) fn forget(&mut self)
        requires { HasOpening self.old }
        ensures sound { IsSound self.new }
        ensures stays { Stays self.old self.new }
        ensures seen { self.new.seen ≡ self.old.seen }
    {
        // Let go by name: a table that is dropped in place has its whole drop proved here.
        drop(replace(&mut self.held, CertificateStore::new(self.alloc)));
        drop(replace(&mut self.waiting, DependencyIndex::new(self.alloc)));
        self.admission.clear();
        drop(replace(&mut self.chain, CheckpointBuilder::new(self.alloc)));
        self.ended = false;
    }

    /// Holds a certificate, of a transaction of which none is held.
    pub(crate) fn hold(&mut self, new: Held) -> Result<(), OutOfMemory>
        requires sound { IsSound self.old }
        requires digest { new.digest ≡ transaction_digest new.cert.tx }
        requires shape { shape_fault new.cert.tx ≡ None }
        requires first { is_some (held_of self.old.held new.digest) ≡ false }
        ensures sound { OnOk result (IsSound self.new) }
        ensures value { OnOk result (coursed self.new ≡ with_held (coursed self.old) new) }
        ensures stays { Stays self.old self.new }
        ensures seen { self.new.seen ≡ self.old.seen }
    {
        self.waiting
            .hold(&self.store, &self.admission, self.held.as_slice(), &new)?;
        self.held.hold(new)
    }

    /// Reports newly admitted transactions to the wait lists and to the chain: `txs`, which admission has from the
    /// place `from` on.
    pub(crate) fn let_in(&mut self, from: usize, txs: &[Digest]) -> Result<(), OutOfMemory>
        requires admitting { IsAdmitting from self.old }
        requires txs { txs.now ≡ map digest_of_admitted (drop from self.old.admission.admission.admitted) }
        ensures unbuilt { OnOk result (IsUnbuilt self.new) }
        ensures value { OnOk result (coursed self.new ≡ coursed self.old) }
        ensures built { self.new.chain.built ≡ self.old.chain.built }
        ensures stays { Stays self.old self.new }
        ensures seen { self.new.seen ≡ self.old.seen }
    {
        self.waiting
            .admit(&self.store, &self.admission, self.held.as_slice(), txs)?;
        tell(&mut self.chain, &self.held, &self.admission, from)
    }

    /// Builds the checkpoints of which all transactions are done (Sui Lutris), and answers those that are new.
    pub(crate) fn advance(&mut self) -> Result<Seq<HashedCheckpoint>, OutOfMemory>
        requires { IsUnbuilt self.old }
        ensures sound { OnOk result (IsSound self.new) }
        ensures value { OnOk result (coursed self.new ≡ coursed self.old) }
        ensures new { IfOk result (λ new. new ≡ drop (length self.old.chain.built) (built_in (coursed self.new))) }
        ensures stays { Stays self.old self.new }
        ensures seen { self.new.seen ≡ self.old.seen }
    {
        self.chain.advance(self.epoch, &self.store)
    }

    /// Executes on the caller's thread all held certificates that are ready, round after round (Sui Lutris), and answers
    /// their effects in order.
    fn execute(&mut self) -> Result<Seq<HashedEffects>, OutOfMemory>
        requires { IsSound self.old }
        ensures unbuilt { OnOk result (IsUnbuilt self.new) }
        ensures value { OnOk result (coursed self.new ≡ ran (coursed self.old)) }
        ensures effects { IfOk result (λ effects. effects ≡ map effects_of (rounds (books_of self.old.store self.old.admission.admission self.old.held) self.old.store.executed)) }
        ensures built { self.new.chain.built ≡ self.old.chain.built }
        ensures stays { Stays self.old self.new }
        ensures seen { self.new.seen ≡ self.old.seen }
    {
        exec_plan::run_planned(
            self.alloc,
            &mut self.store,
            &self.admission,
            &mut self.waiting,
            self.held.as_slice(),
        )
    }

    /// [`EpochState::execute`] by 1 to 16 workers in threads. The gate is notified of each execution, which no clause
    /// says.
    fn execute_pooled<R: Threads + Sync, G: Gate + Sync>(
        &mut self,
        rt: &R,
        workers: u32,
        gate: &G,
    ) -> Result<Seq<HashedEffects>, OutOfMemory>
        requires workers { (0 < workers) × (workers ≤ 16) }
        requires sound { IsSound self.old }
        ensures unbuilt { OnOk result (IsUnbuilt self.new) }
        ensures value { OnOk result (coursed self.new ≡ ran (coursed self.old)) }
        ensures effects { IfOk result (λ effects. effects ≡ map effects_of (rounds (books_of self.old.store self.old.admission.admission self.old.held) self.old.store.executed)) }
        ensures built { self.new.chain.built ≡ self.old.chain.built }
        ensures stays { Stays self.old self.new }
        ensures seen { self.new.seen ≡ self.old.seen }
    {
        exec_plan::run_pooled(
            rt,
            self.alloc,
            &mut self.store,
            &self.admission,
            &mut self.waiting,
            self.held.as_slice(),
            workers,
            gate,
        )
    }

    /// Executes on the caller's thread all that is ready, and builds the checkpoints that this completes. Answers the
    /// effects in order, and these checkpoints.
    pub(crate) fn run(&mut self) -> Result<(Seq<HashedEffects>, Seq<HashedCheckpoint>), OutOfMemory>
        requires { IsSound self.old }
        ensures sound { OnOk result (IsSound self.new) }
        ensures value { OnOk result (coursed self.new ≡ ran (coursed self.old)) }
        ensures effects { IfOk result (λ r. r.0 ≡ map effects_of (rounds (books_of self.old.store self.old.admission.admission self.old.held) self.old.store.executed)) }
        ensures built { IfOk result (λ r. r.1 ≡ newly_built (coursed self.old) (coursed self.new)) }
        ensures stays { Stays self.old self.new }
        ensures seen { self.new.seen ≡ self.old.seen }
    {
        let effects = self.execute()?;
        let built = self.advance()?;
        Ok((effects, built))
    }

    /// [`EpochState::run`] by 1 to 16 workers in threads. The gate is notified of each execution, which no clause says.
    pub(crate) fn run_pooled<R: Threads + Sync, G: Gate + Sync>(
        &mut self,
        rt: &R,
        workers: u32,
        gate: &G,
    ) -> Result<(Seq<HashedEffects>, Seq<HashedCheckpoint>), OutOfMemory>
        requires workers { (0 < workers) × (workers ≤ 16) }
        requires sound { IsSound self.old }
        ensures sound { OnOk result (IsSound self.new) }
        ensures value { OnOk result (coursed self.new ≡ ran (coursed self.old)) }
        ensures effects { IfOk result (λ r. r.0 ≡ map effects_of (rounds (books_of self.old.store self.old.admission.admission self.old.held) self.old.store.executed)) }
        ensures built { IfOk result (λ r. r.1 ≡ newly_built (coursed self.old) (coursed self.new)) }
        ensures stays { Stays self.old self.new }
        ensures seen { self.new.seen ≡ self.old.seen }
    {
        let effects = self.execute_pooled(rt, workers, gate)?;
        let built = self.advance()?;
        Ok((effects, built))
    }

    /// The held certificates that a run left although all that they waited for is executed.
    pub(crate) fn left(&self) -> Result<Seq<Left>, OutOfMemory>
        requires { IsSound self.now }
        ensures { IfOk result (λ all. all ≡ left (books_of self.now.store self.now.admission.admission self.now.held) self.now.store.executed) }
    {
        exec_plan::left(
            self.alloc,
            &self.store,
            &self.admission,
            &self.waiting,
            self.held.as_slice(),
        )
    }
}
