//! The state of a member in its present epoch, and how it takes each kind of record.

ghost use Rattle.std.specs.Prelude.{◌≡◌, ◌<◌, ◌≤◌, [], if◌then◌else◌, IfOk, IfSome, OnOk, None, false, true, find, is_some, option_copied, option_map, nat_le, length, map, slice_get};
ghost use Rattle.checkpoint_core.specs.Checkpoints.{transactions_in};
ghost use Rattle.chain_types.specs.Digests.{consumed_keys, transaction_digest};
ghost use Rattle.quorum_core.specs.Committee.{is_among};
ghost use Rattle.protocol_spec.specs.Chain.Shape.{shape_fault};
ghost use Rattle.protocol_spec.specs.Chain.Words.{first_of};
ghost use Rattle.protocol_spec.specs.Member.Admission.{is_known};
ghost use Rattle.protocol_spec.specs.Member.Checkpoints.{held_of};
ghost use Rattle.protocol_spec.specs.Member.Calls.{effects_of, newly_built, ran_items, record_limit, reverted};
ghost use Rattle.epoch_turn.specs.Chains.{waiting_one};
ghost use Rattle.protocol_spec.specs.Member.Member.{Fork as TheFork, books, built as built_by, consumes, fork_of, fresh, live_objects, vote_for, with_rounds};
ghost use Rattle.protocol_spec.specs.Member.Sequence.{seen_what};
ghost use Rattle.protocol_spec.specs.Member.Versions.{Version, object_in, version_at, versions};
ghost use Rattle.protocol_spec.specs.Member.Votes.{Cast, locked};
ghost use Rattle.protocol_spec.specs.Member.Rounds.{left, rounds};
ghost use Rattle.world_spec.specs.Starts.{AreApart};
ghost use Rattle.world_spec.specs.Terms.{rules_for};
ghost use Rattle.validator_core.specs.Entries.{MayArrive, behind_entry, what_as};
ghost use Rattle.validator_core.specs.Limits.{Accepting, terms_at};
ghost use Rattle.validator_core.specs.Opened.{opening_objects};
ghost use Rattle.epoch_turn.specs.Dues.{unordered};
ghost use Rattle.validator_core.specs.Steps.{closing, counted, holding, items_of, turning, voted};
ghost use Rattle.vote_rules.specs.Holders.{sides};
ghost use Rattle.protocol_spec.specs.declared.answers.Held.{Held as H};

use crate::entries::EntryOutcome;
use crate::epoch_state::EpochState;
use chain_types::{Object, ObjectKey, Transaction};
use checkpoint_core::{Checkpoint, HashedCheckpoint};
use dag_pool::Gate;
use digest_core::Digest;
use effects_core::HashedEffects;
use epoch_turn::{first_unordered, ordered_on};
use protocol_spec::{Held, Left, Seen};
use quorum_core::Committee;
use std::alloc::Global;
use std::marker::Model;
use std::mem::replace;
use std::thread::Threads;
use vote_rules::{Fork, VoteStore};
use wire_bcs::{OutOfMemory, Seq};

/// How many records the list of a member has at most.
const RECORD_LIMIT: u64 = 4_194_303;

/// What a member has in the present epoch. Contracts see the definitions' record of it, beside the limit of writers of
/// its sequences.
#[derive(Drop)]
pub(crate) struct State {
    records: u64,
    closed: bool,
    pub(crate) votes: VoteStore,
    /// How many certificates at the start of the held ones are in the sequence; counted on from here after each entry.
    ordered: usize,
    pub(crate) epoch_state: EpochState,
    pub(crate) alloc: Global,
}

impl Model for State {
    ghost use Rattle.validator_core.specs.Limits.{Limited};
    ghost use Rattle.validator_core.specs.Sound.{Stands, member_with};
    ghost use Rattle.validator_core.specs.Courses.{coursed};

    ghost Value = { Limited };

    ghost view = { λ s. record { writers = s.epoch_state.admission.writers; member = member_with s.records s.closed s.votes (coursed s.epoch_state) } };

    ghost invariant = { λ s. Stands s.records s.votes s.ordered s.epoch_state };
}

impl State {
    /// A member that has no records, in an epoch 0 that opens with these objects, of which none stands there
    /// twice. Its sequences have this limit of writers for an object between two marks, or none.
    pub(crate) fn fresh(
        alloc: Global,
        opening: &Seq<Object>,
        writers: Option<u32>,
    ) -> Result<State, OutOfMemory>
        requires { AreApart opening.now }
        ensures { IfOk result (λ s. s ≡ record { writers = writers; member = fresh opening.now }) }
    {
        let epoch_state = EpochState::fresh(alloc, opening, writers)?;
        Ok(State {
            records: 0,
            closed: false,
            votes: VoteStore::new(alloc),
            ordered: 0,
            epoch_state,
            alloc,
        })
    }

    /// A member that has nothing, in an epoch 0 that opened with nothing. Takes no memory.
    fn empty(alloc: Global, writers: Option<u32>) -> State
        ensures { result ≡ record { writers = writers; member = fresh [] } }
    {
        State {
            records: 0,
            closed: false,
            votes: VoteStore::new(alloc),
            ordered: 0,
            epoch_state: EpochState::empty(alloc, writers),
            alloc,
        }
    }

    /// Replaces the state by an empty one. Takes no memory.
    fn abandon(&mut self)
        ensures { self.new ≡ record { writers = self.old.writers; member = fresh [] } }
    {
        let empty = State::empty(self.alloc, self.epoch_state.admission.writers());
        drop(replace(self, empty));
    }

    /// Ends a call: if the member fell in it, nothing is left of its state. Takes no memory.
    pub(crate) fn settle(&mut self, fell: bool)
        ensures limit { self.new.writers ≡ self.old.writers }
        ensures member { self.new.member ≡ (if fell then fresh [] else self.old.member) }
    {
        if fell {
            self.abandon();
        }
    }

    /// The allocator that the state takes its memory from.
    pub(crate) fn allocator(&self) -> Global {
        self.alloc
    }

    /// The number of records. Takes no memory.
    pub(crate) fn records(&self) -> u64
        ensures { result ≡ self.now.member.records }
    {
        self.records
    }

    /// The present epoch. Takes no memory.
    pub(crate) fn epoch(&self) -> u64
        ensures { result ≡ self.now.member.epoch }
    {
        self.epoch_state.epoch
    }

    /// The number of entries of the epoch's sequence that the member has seen. Takes no memory.
    pub(crate) fn seen(&self) -> u64
        ensures { result ≡ self.now.member.sequence.number }
    {
        self.epoch_state.seen
    }

    /// Whether the member saw the end of the epoch. Takes no memory.
    pub(crate) fn has_ended(&self) -> bool
        ensures { result ≡ self.now.member.sequence.ended }
    {
        self.epoch_state.ended
    }

    /// Whether an End of this member was counted in the epoch. Takes no memory.
    pub(crate) fn is_counted(&self, member: u32) -> bool
        ensures { result ≡ is_among self.now.member.sequence.counted member }
    {
        quorum_core::is_among(self.epoch_state.ends.as_slice(), member)
    }

    /// Whether the transaction is in the sequence as the member has seen it. Takes no memory.
    pub(crate) fn is_ordered(&self, tx: &Digest) -> bool
        ensures { result ≡ is_known self.now.member.sequence.admission tx.now }
    {
        self.epoch_state.admission.is_known(tx)
    }

    /// The first held transaction that is not in the sequence as the member has seen it; none exactly if all are. Looks
    /// at none that was found there after an entry, so the certificates of an epoch are walked once. Takes no memory.
    pub(crate) fn first_unordered(&self) -> Option<Digest>
        ensures { result ≡ first_of (unordered self.now.member.sequence.admission) self.now.member.held }
    {
        first_unordered(
            self.epoch_state.held.as_slice(),
            &self.epoch_state.admission,
            self.ordered,
        )
    }

    /// The number of checkpoints that the member has built, over all its epochs. Takes no memory.
    #[tactic(auto, unfolding(protocol_spec::specs::Member::Member::built), using(crate::proofs::Coursing::built_is))]
    pub(crate) fn checkpoints(&self) -> u64
        ensures { result ≡ length (built_by self.now.member) }
    {
        self.epoch_state.chain.len()
    }

    /// The number of transactions in the checkpoints that the member has built. Takes no memory.
    #[tactic(auto, unfolding(protocol_spec::specs::Member::Member::built), using(crate::proofs::Coursing::built_is))]
    pub(crate) fn checkpointed(&self) -> u64
        ensures { result ≡ transactions_in (built_by self.now.member) }
    {
        self.epoch_state.chain.transactions()
    }

    /// The checkpoint of this number; none exactly if it was not built. Takes no memory.
    #[tactic(auto, unfolding(protocol_spec::specs::Member::Member::built), using(crate::proofs::Coursing::built_is))]
    pub(crate) fn checkpoint(&self, number: u64) -> Option<&Checkpoint>
        ensures { option_map (λ (c : _). c.now) result ≡ slice_get (built_by self.now.member) number }
    {
        self.epoch_state.chain.checkpoint(number)
    }

    /// Whether the member closed the epoch. Takes no memory.
    pub(crate) fn is_closed(&self) -> bool
        ensures { result ≡ self.now.member.closed }
    {
        self.closed
    }

    /// The fork that the member met, if it met one. Takes no memory.
    #[tactic(auto, unfolding(protocol_spec::specs::Member::Member::fork_of))]
    pub(crate) fn first_fork(&self) -> Option<Fork>
        ensures { result ≡ option_map sides (fork_of self.now.member) }
    {
        self.epoch_state.held.fork()
    }

    /// The transactions of the fork that the member met, if it met one. Takes no memory.
    pub(crate) fn fork(&self) -> Option<(Digest, Digest)>
        ensures { result ≡ option_map (λ (f : TheFork). (f.first, f.second)) (fork_of self.now.member) }
    {
        match self.first_fork() {
            Some(fork) => Some((fork.first, fork.second)),
            None => None,
        }
    }

    /// Whether the list of records has no room for one more. Takes no memory.
    pub(crate) fn is_full(&self) -> bool
        ensures { result ≡ nat_le record_limit self.now.member.records }
    {
        self.records >= RECORD_LIMIT
    }

    /// The object of a held version. Takes no memory.
    pub(crate) fn object(&self, key: &ObjectKey) -> Option<&Object>
        ensures { option_copied result ≡ option_map object_in (version_at (versions self.now.member.opening self.now.member.executed) key.now) }
    {
        self.epoch_state.store.get(key)
    }

    /// The live objects by ascending id.
    pub(crate) fn live_list(&self) -> Result<Seq<Object>, OutOfMemory>
        ensures { IfOk result (λ objects. objects ≡ live_objects self.now.member) }
    {
        self.epoch_state.store.live_list()
    }

    /// The objects with which the present epoch opened, by ascending id.
    pub(crate) fn opening_list(&self) -> Result<Seq<Object>, OutOfMemory>
        ensures { IfOk result (λ objects. objects ≡ opening_objects self.now.member) }
    {
        self.epoch_state.store.opening_list()
    }

    /// The origins that the vote for this transaction named, if one was given. Takes no memory.
    pub(crate) fn given(&self, tx: &Digest) -> Option<&Seq<Option<Digest>>>
        ensures few { IfSome result (λ o. length o.now ≤ 257) }
        ensures value { option_map (λ (o : _). o.now) result ≡ option_map (λ (v : Cast). v.origins) (vote_for self.now.member tx.now) }
    {
        self.votes.origins(tx)
    }

    /// Whether a certificate of the transaction is held. Takes no memory.
    pub(crate) fn holds(&self, tx: &Digest) -> bool
        ensures { result ≡ is_some (held_of self.now.member.held tx.now) }
    {
        self.epoch_state.held.has(tx)
    }

    /// The first of the keys that a held certificate consumes, and its transaction. Takes no memory.
    pub(crate) fn consumed_by(&self, keys: &[ObjectKey]) -> Option<(ObjectKey, Digest)>
        ensures { result ≡ first_of (λ key. option_map (λ (e : H). (key, e.digest)) (find (consumes key) self.now.member.held)) keys.now }
    {
        self.epoch_state.held.fork_with(keys)
    }

    /// Takes the record of a vote for the transaction of this digest and these consumed keys. If memory is
    /// refused the state is not to be used.
    pub(crate) fn take_vote(
        &mut self,
        tx: &Transaction,
        digest: Digest,
        origins: Seq<Option<Digest>>,
    ) -> Result<(), OutOfMemory>
        requires digest { digest ≡ transaction_digest tx.now }
        requires new { vote_for self.old.member digest ≡ None }
        requires free { first_of (locked self.old.member.votes digest) (consumed_keys tx.now) ≡ None }
        requires few { length origins ≤ 257 }
        requires room { nat_le record_limit self.old.member.records ≡ false }
        ensures state { OnOk result (self.new.member ≡ voted self.old.member tx.now origins) }
        ensures limit { self.new.writers ≡ self.old.writers }
    {
        let consumed = chain_types::owned_keys(self.alloc, tx)?;
        self.votes.cast(digest, consumed, origins)?;
        self.records += 1;
        Ok(())
    }

    /// Takes the record of a certificate that is newly held, or is the evidence of a fork. If memory is
    /// refused the state is not to be used.
    pub(crate) fn take_hold(&mut self, held: Held) -> Result<(), OutOfMemory>
        requires digest { held.digest ≡ transaction_digest held.cert.tx }
        requires shape { shape_fault held.cert.tx ≡ None }
        requires new { is_some (held_of self.old.member.held held.digest) ≡ false }
        requires room { nat_le record_limit self.old.member.records ≡ false }
        ensures state { OnOk result (self.new.member ≡ holding self.old.member held.cert) }
        ensures limit { self.new.writers ≡ self.old.writers }
    {
        match self.epoch_state.hold(held) {
            Ok(()) => {
                self.records += 1;
                Ok(())
            }
            Err(OutOfMemory) => {
                self.epoch_state.forget();
                self.ordered = 0;
                Err(OutOfMemory)
            }
        }
    }

    /// Takes an entry of the sequence, of which the record stands, and answers what it did and which checkpoints it
    /// completed. If memory is refused the state is not to be used.
    pub(crate) fn take_entry(
        &mut self,
        committee: &Committee,
        arrival: EntryOutcome,
    ) -> Result<Seen, OutOfMemory>
        requires may { MayArrive committee.now self.old.member.sequence arrival }
        requires unended { self.old.member.sequence.ended ≡ false }
        requires room { nat_le record_limit self.old.member.records ≡ false }
        ensures state { OnOk result ((accepts : Accepting) → self.new.member ≡ behind_entry (rules_for (terms_at self.old committee.now) accepts) self.old.member (what_as arrival)) }
        ensures what { IfOk result (λ seen. (accepts : Accepting) → seen.what ≡ seen_what (rules_for (terms_at self.old committee.now) accepts) self.old.member.sequence self.new.member.sequence (what_as arrival)) }
        ensures built { IfOk result (λ seen. seen.built ≡ newly_built self.old.member self.new.member) }
        ensures limit { self.new.writers ≡ self.old.writers }
    {
        match self.epoch_state.see(committee, arrival) {
            Ok(seen) => {
                self.records += 1;
                self.ordered = ordered_on(
                    self.epoch_state.held.as_slice(),
                    &self.epoch_state.admission,
                    self.ordered,
                );
                Ok(seen)
            }
            Err(OutOfMemory) => {
                self.epoch_state.forget();
                self.ordered = 0;
                Err(OutOfMemory)
            }
        }
    }

    /// Executes on the caller's thread all held certificates that are ready, round after round (Sui Lutris), and answers
    /// their effects in order, and the checkpoints that are complete by it; the record of it is to be counted. The items of
    /// that record are those of the effects. If memory is refused the state is not to be used.
    #[tactic(auto, unfolding(protocol_spec::specs::Member::Member::built), using(crate::proofs::Named::ran_named))]
    pub(crate) fn execute(
        &mut self,
    ) -> Result<(Seq<HashedEffects>, Seq<HashedCheckpoint>), OutOfMemory>
        ensures state { OnOk result (self.new.member ≡ with_rounds self.old.member) }
        ensures effects { IfOk result (λ r. r.0 ≡ map effects_of (rounds (books self.old.member) self.old.member.executed)) }
        ensures items { IfOk result (λ r. items_of r.0 ≡ ran_items self.old.member) }
        ensures built { IfOk result (λ r. r.1 ≡ newly_built self.old.member (with_rounds self.old.member)) }
        ensures limit { self.new.writers ≡ self.old.writers }
    {
        match self.epoch_state.run() {
            Ok(done) => Ok(done),
            Err(OutOfMemory) => {
                self.epoch_state.forget();
                self.ordered = 0;
                Err(OutOfMemory)
            }
        }
    }

    /// [`State::execute`] by 1 to 16 workers in threads. The gate is notified of each execution, which no clause says.
    #[tactic(auto, unfolding(protocol_spec::specs::Member::Member::built), using(crate::proofs::Named::ran_named))]
    pub(crate) fn execute_pooled<R: Threads + Sync, G: Gate + Sync>(
        &mut self,
        rt: &R,
        workers: u32,
        gate: &G,
    ) -> Result<(Seq<HashedEffects>, Seq<HashedCheckpoint>), OutOfMemory>
        requires workers { (0 < workers) × (workers ≤ 16) }
        ensures state { OnOk result (self.new.member ≡ with_rounds self.old.member) }
        ensures effects { IfOk result (λ r. r.0 ≡ map effects_of (rounds (books self.old.member) self.old.member.executed)) }
        ensures items { IfOk result (λ r. items_of r.0 ≡ ran_items self.old.member) }
        ensures built { IfOk result (λ r. r.1 ≡ newly_built self.old.member (with_rounds self.old.member)) }
        ensures limit { self.new.writers ≡ self.old.writers }
    {
        match self.epoch_state.run_pooled(rt, workers, gate) {
            Ok(done) => Ok(done),
            Err(OutOfMemory) => {
                self.epoch_state.forget();
                self.ordered = 0;
                Err(OutOfMemory)
            }
        }
    }

    /// The held certificates that a run left although all that they waited for is executed.
    #[tactic(auto, unfolding(protocol_spec::specs::Member::Rounds::left))]
    pub(crate) fn left(&self) -> Result<Seq<Left>, OutOfMemory>
        ensures { IfOk result (λ all. all ≡ left (books self.now.member) self.now.member.executed) }
    {
        self.epoch_state.left()
    }

    /// Counts the record of a run. Takes no memory.
    pub(crate) fn count_run(&mut self)
        requires room { nat_le record_limit self.old.member.records ≡ false }
        ensures state { self.new.member ≡ counted self.old.member }
        ensures limit { self.new.writers ≡ self.old.writers }
    {
        self.records += 1;
    }

    /// Takes the record of a close. Takes no memory.
    pub(crate) fn take_close(&mut self)
        requires room { nat_le record_limit self.old.member.records ≡ false }
        ensures state { self.new.member ≡ closing self.old.member }
        ensures limit { self.new.writers ≡ self.old.writers }
    {
        self.closed = true;
        self.records += 1;
    }

    /// The first admitted transaction that is not executed as it was admitted; none exactly if all are. One look-up.
    /// Takes no memory.
    pub(crate) fn first_undone(&self) -> Option<Digest>
        ensures { result ≡ first_of (waiting_one self.now.member.held self.now.member.executed) self.now.member.sequence.admission.admitted }
    {
        self.epoch_state.chain.waits()
    }

    /// Takes the record of a turn: goes to the next epoch (epoch change of Sui Lutris), and answers the transactions that
    /// are undone, since they stand in no cut of this one, oldest first. Time grows with what the epoch executed, wrote
    /// and deleted. If memory is refused the state is not to be used.
    #[tactic(auto, unfolding(protocol_spec::specs::Member::Member::built))]
    pub(crate) fn take_turn(&mut self) -> Result<Seq<Digest>, OutOfMemory>
        requires room { nat_le record_limit self.old.member.records ≡ false }
        ensures state { OnOk result (self.new.member ≡ turning self.old.member) }
        ensures reverted { IfOk result (λ txs. txs ≡ reverted self.old.member) }
        ensures limit { self.new.writers ≡ self.old.writers }
    {
        match self.epoch_state.turn() {
            Ok(reverted) => {
                self.records += 1;
                self.closed = false;
                drop(replace(&mut self.votes, VoteStore::new(self.alloc)));
                self.ordered = 0;
                Ok(reverted)
            }
            Err(OutOfMemory) => {
                self.epoch_state.abandon();
                self.ordered = 0;
                Err(OutOfMemory)
            }
        }
    }
}
