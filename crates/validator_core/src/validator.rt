//! The member.

ghost use Rattle.std.specs.Prelude.{◌≡◌, ◌<◌, ◌≤◌, ◌^◌, [], IfOk, IsErrOf, None, is_some, length, option_map, slice_get, true};
ghost use Rattle.outside.specs.Causes.{Rose};
ghost use Rattle.chain_types.specs.Digests.{digest_of_object};
ghost use Rattle.protocol_spec.specs.Member.Versions.{Version, version_at, versions as versions_of};
ghost use Rattle.protocol_spec.specs.Member.Member.{Fork, built as built_by, fork_of, live_objects};
ghost use Rattle.protocol_spec.specs.Member.Calls.{closes, holds, runs, sees, turns, votes};
ghost use Rattle.protocol_spec.specs.declared.refusals.HoldRefusal.TheVariants as no_hold;
ghost use Rattle.protocol_spec.specs.declared.refusals.VoteRefusal.TheVariants as no_vote;
ghost use Rattle.protocol_spec.specs.declared.refusals.CloseRefusal.TheVariants as no_close;
ghost use Rattle.protocol_spec.specs.declared.refusals.RunRefusal.TheVariants as no_run;
ghost use Rattle.protocol_spec.specs.declared.refusals.SeeRefusal.TheVariants as no_see;
ghost use Rattle.protocol_spec.specs.declared.refusals.TurnRefusal.TheVariants as no_turn;
ghost use Rattle.validator_core.specs.Calls.{Acks, Closes, Ends, Holds, Runs, Sees, Turns, Votes, ack_said, close_ended, close_said, end_said, hold_ended, hold_said, origins_in, run_ended, run_said, see_ended, see_said, turn_ended, turn_said, vote_ended, vote_said};
ghost use Rattle.world_spec.specs.Terms.{rules_for};
ghost use Rattle.checkpoint_core.specs.Checkpoints.{transactions_in};
ghost use Rattle.world_spec.specs.Starts.{AreApart, started};
ghost use Rattle.validator_core.specs.Starts.{Starts};
ghost use Rattle.validator_core.specs.Opened.{opening_objects};
ghost use Rattle.validator_core.specs.Seats.{Behaves, Fell, Journaled};
ghost use Rattle.world_spec.specs.Seats.{bare_rules, due_at, rules_of_seat};
ghost use Rattle.world_spec.specs.Step.{executed_digest};

use crate::start::take_all;
use crate::state::State;
use crate::{calls, epoch_calls, sees, stating, turning};
use chain_messages::Sealed;
use chain_types::{Object, ObjectKey};
use checkpoint_core::Checkpoint;
use dag_pool::Gate;
use digest_core::Digest;
use outside::Keeper;
use protocol_spec::{
    AckRefusal, CloseRefusal, EndRefusal, HoldRefusal, Ran, RunRefusal, SeeRefusal, Seen,
    StartRefusal, TurnRefusal, VoteRefusal, Voted,
};
use quorum_core::{Committee, Sealer};
use std::alloc::Global;
use std::marker::Model;
use std::thread::Threads;
use wire_bcs::{OutOfMemory, Seq};

/// A member of a committee. Contracts see its number, the committee's terms, whether it is up, and its state.
#[derive(Drop)]
pub struct Validator {
    pub(crate) member: u32,
    pub(crate) committee: Committee,
    pub(crate) up: bool,
    pub(crate) state: State,
}

impl Model for Validator {
    ghost use Rattle.world_spec.specs.Seats.{Seated};

    ghost Value = { Seated };

    ghost view = { λ v. record { member = v.member; terms = record { stakes = v.committee; writers = v.state.writers }; up = v.up; state = v.state.member } };
}

impl Validator {
    /// Starts the member of this number from the records that it kept, none for a new one, in an epoch 0 that opens
    /// with these objects, none of them twice; its sequences have this limit of writers, or none. `BadRecord` comes
    /// exactly at the first record that does not decode (1), or that no call would have appended (2). The record of a
    /// run is taken in both forms, with effects and without.
    #[tactic(auto, unfolding(world_spec::specs::Starts::started))]
    pub fn start<S: Sealer>(
        alloc: Global,
        member: u32,
        committee: &Committee,
        opening: &Seq<Object>,
        writers: Option<u32>,
        kept: &Seq<Seq<u8>>,
        sealer: &S,
    ) -> Result<Validator, StartRefusal>
        requires apart { AreApart opening.now }
        requires count { length kept.now < 2 ^ 64 }
        ensures { Starts (started (rules_for (record { stakes = committee.now; writers = writers }) (S.accepts sealer.now)) opening.now kept.now) member (record { stakes = committee.now; writers = writers }) result }
    {
        let Ok(mut state) = State::fresh(alloc, opening, writers) else {
            return Err(StartRefusal::OutOfMemory);
        };
        match take_all(&mut state, committee, sealer, kept.as_slice()) {
            Ok(()) => Ok(Validator {
                member,
                committee: committee.copy(),
                up: true,
                state,
            }),
            Err(StartRefusal::BadRecord { place, why }) => {
                drop(state);
                Err(StartRefusal::BadRecord { place, why })
            }
            Err(StartRefusal::OutOfMemory) => {
                drop(state);
                Err(StartRefusal::OutOfMemory)
            }
        }
    }

    /// Whether the member is up: it answers no request while it is not. Takes no memory.
    pub fn is_up(&self) -> bool
        ensures { result ≡ self.now.up }
    {
        self.up
    }

    /// The present epoch. Takes no memory.
    pub fn epoch(&self) -> u64
        ensures { result ≡ self.now.state.epoch }
    {
        self.state.epoch()
    }

    /// The number of entries of the epoch's sequence that the member has seen. Takes no memory.
    pub fn seen(&self) -> u64
        ensures { result ≡ self.now.state.sequence.number }
    {
        self.state.seen()
    }

    /// Whether the member saw the end of the epoch. Takes no memory.
    pub fn has_ended(&self) -> bool
        ensures { result ≡ self.now.state.sequence.ended }
    {
        self.state.has_ended()
    }

    /// The transactions of the first fork that the member met, two certificates of one version; none exactly if it
    /// met none. Takes no memory.
    pub fn fork(&self) -> Option<(Digest, Digest)>
        ensures { result ≡ option_map (λ (f : Fork). (f.first, f.second)) (fork_of self.now.state) }
    {
        self.state.fork()
    }

    /// The number of checkpoints that the member has built, over all its epochs. Takes no memory.
    pub fn checkpoints(&self) -> u64
        ensures { result ≡ length (built_by self.now.state) }
    {
        self.state.checkpoints()
    }

    /// The number of transactions in the checkpoints that the member has built. Takes no memory.
    pub fn checkpointed(&self) -> u64
        ensures { result ≡ transactions_in (built_by self.now.state) }
    {
        self.state.checkpointed()
    }

    /// The checkpoint of this number; none exactly if it was not built. Takes no memory.
    pub fn checkpoint(&self, number: u64) -> Option<&Checkpoint>
        ensures { option_map (λ (c : _). c.now) result ≡ slice_get (built_by self.now.state) number }
    {
        self.state.checkpoint(number)
    }

    /// The digest of a held version; none exactly if the version is not held. Takes no memory.
    pub fn held_digest(&self, key: &ObjectKey) -> Option<Digest>
        ensures { result ≡ option_map (λ (v : Version). digest_of_object v.object) (version_at (versions_of self.now.state.opening self.now.state.executed) key.now) }
    {
        match self.state.hashed(key) {
            Some(object) => Some(object.digest()),
            None => None,
        }
    }

    /// The live objects by ascending id.
    pub fn live_list(&self) -> Result<Seq<Object>, OutOfMemory>
        ensures { IfOk result (λ objects. objects ≡ live_objects self.now.state) }
    {
        self.state.live_list()
    }

    /// The objects with which the present epoch opened, by ascending id. Time grows with the number of held versions.
    pub fn opening_list(&self) -> Result<Seq<Object>, OutOfMemory>
        ensures { IfOk result (λ objects. objects ≡ opening_objects self.now.state) }
    {
        self.state.opening_list()
    }

    /// Asks the member for its vote for the transaction that the bytes encode (Sui Lutris). Order of the
    /// refusals: `Down`, `Halted`, `Full`, `Malformed`, `WrongEpoch`; then the vote that was given before comes
    /// again; `Closed`, `Invalid`, `Unsealed`, the cases of the vote rule, `KeepFault`. A fresh vote's record is
    /// appended before the vote is given; `KeepFault` comes only if one is due, running out of memory only if the member
    /// is up and met no fork. After both the member is down.
    #[tactic(auto, using(crate::proofs::Settling::vote_settles, crate::proofs::Settling::vote_at, crate::proofs::Settling::vote_due_at, crate::proofs::Settling::vote_owed_at, crate::proofs::Settling::down_keeps))]
    pub fn vote<D: Keeper, S: Sealer>(
        &mut self,
        keeper: &mut D,
        sealer: &S,
        bytes: &[u8],
    ) -> Result<Voted, VoteRefusal>
        requires known { self.old.member < D.width keeper.old }
        ensures answer { Votes (S.accepts sealer.now) self.old.member (vote_said (rules_of_seat self.old (S.accepts sealer.now)) self.old bytes.now) result }
        ensures state { Behaves (rules_of_seat self.old (S.accepts sealer.now)) (votes bytes.now) self.old self.new (vote_ended result) }
        ensures kept { Journaled (D.lists keeper.old) (D.lists keeper.new) self.old.member (due_at (rules_of_seat self.old (S.accepts sealer.now)) self.old (votes bytes.now)) (vote_ended result) }
        ensures width { D.width keeper.new ≡ D.width keeper.old }
        ensures later { D.failed keeper.old ≤ D.failed keeper.new }
        ensures fault { IsErrOf result no_vote.KeepFault → Rose (D.failed keeper.old) (D.failed keeper.new) }
        ensures owed { IsErrOf result no_vote.KeepFault → is_some (due_at (rules_of_seat self.old (S.accepts sealer.now)) self.old (votes bytes.now)) ≡ true }
        ensures able { IsErrOf result no_vote.OutOfMemory → (self.old.up ≡ true) × (fork_of self.old.state ≡ None) }
        ensures few { IfOk result (λ v. length (origins_in v.sealed.statement) ≤ 257) }
    {
        if !self.up {
            return Err(VoteRefusal::Down);
        }
        let answer = calls::vote(&mut self.state, keeper, sealer, self.member, bytes);
        let fell = calls::vote_is_fatal(&answer);
        self.state.settle(fell);
        self.up = !fell;
        answer
    }

    /// Hands a certificate to the member (Sui Lutris): true if it is newly held, false if a certificate of
    /// its transaction is held already. Order of the refusals: `Down`, `Halted`, `Full`, `Malformed`,
    /// `WrongEpoch`; then a certificate that is held comes again; `Closed`, `Cert`, `KeepFault`, `Fork`. The record
    /// is appended before the call answers. After `KeepFault` and running out of memory the member is down; after
    /// `Fork` it is halted.
    #[tactic(auto, using(crate::proofs::Settling::hold_settles, crate::proofs::Settling::hold_at, crate::proofs::Settling::hold_due_at, crate::proofs::Settling::owed_at, crate::proofs::Settling::down_keeps))]
    pub fn hold<D: Keeper, S: Sealer>(
        &mut self,
        keeper: &mut D,
        sealer: &S,
        bytes: &[u8],
    ) -> Result<bool, HoldRefusal>
        requires known { self.old.member < D.width keeper.old }
        ensures answer { Holds (hold_said (rules_of_seat self.old (S.accepts sealer.now)) self.old bytes.now) result }
        ensures state { Behaves (rules_of_seat self.old (S.accepts sealer.now)) (holds bytes.now) self.old self.new (hold_ended result) }
        ensures kept { Journaled (D.lists keeper.old) (D.lists keeper.new) self.old.member (due_at (rules_of_seat self.old (S.accepts sealer.now)) self.old (holds bytes.now)) (hold_ended result) }
        ensures width { D.width keeper.new ≡ D.width keeper.old }
        ensures later { D.failed keeper.old ≤ D.failed keeper.new }
        ensures fault { IsErrOf result no_hold.KeepFault → Rose (D.failed keeper.old) (D.failed keeper.new) }
        ensures owed { IsErrOf result no_hold.KeepFault → is_some (due_at (rules_of_seat self.old (S.accepts sealer.now)) self.old (holds bytes.now)) ≡ true }
        ensures able { IsErrOf result no_hold.OutOfMemory → (self.old.up ≡ true) × (fork_of self.old.state ≡ None) }
    {
        if !self.up {
            return Err(HoldRefusal::Down);
        }
        let answer = calls::hold(
            &mut self.state,
            keeper,
            sealer,
            &self.committee,
            self.member,
            bytes,
        );
        let fell = calls::hold_is_fatal(&answer);
        self.state.settle(fell);
        self.up = !fell;
        answer
    }

    /// Hands the next entry of the epoch's consensus sequence, numbered from 0, to the member (Sui Lutris):
    /// answers what it did, and the checkpoints that it completes. Order of the refusals: `Down`, `Halted`, `Full`,
    /// `Over` if the end of the epoch was seen, `Gap` if `number` is not that of the entries seen, `KeepFault`, `Fork`.
    /// The record is appended before the call answers, whatever the entry is. After `KeepFault` and running out of
    /// memory the member is down; after `Fork` it is halted.
    #[tactic(auto, using(crate::proofs::Seeing::see_settles, crate::proofs::Seeing::see_at, crate::proofs::Seeing::see_due_at, crate::proofs::Settling::owed_at, crate::proofs::Settling::down_keeps))]
    pub fn see<D: Keeper, S: Sealer>(
        &mut self,
        keeper: &mut D,
        sealer: &S,
        number: u64,
        bytes: &[u8],
    ) -> Result<Seen, SeeRefusal>
        requires known { self.old.member < D.width keeper.old }
        ensures answer { Sees (see_said (rules_of_seat self.old (S.accepts sealer.now)) self.old number bytes.now) result }
        ensures state { Behaves (rules_of_seat self.old (S.accepts sealer.now)) (sees number bytes.now) self.old self.new (see_ended result) }
        ensures kept { Journaled (D.lists keeper.old) (D.lists keeper.new) self.old.member (due_at (rules_of_seat self.old (S.accepts sealer.now)) self.old (sees number bytes.now)) (see_ended result) }
        ensures width { D.width keeper.new ≡ D.width keeper.old }
        ensures later { D.failed keeper.old ≤ D.failed keeper.new }
        ensures fault { IsErrOf result no_see.KeepFault → Rose (D.failed keeper.old) (D.failed keeper.new) }
        ensures owed { IsErrOf result no_see.KeepFault → is_some (due_at (rules_of_seat self.old (S.accepts sealer.now)) self.old (sees number bytes.now)) ≡ true }
        ensures able { IsErrOf result no_see.OutOfMemory → (self.old.up ≡ true) × (fork_of self.old.state ≡ None) }
    {
        if !self.up {
            return Err(SeeRefusal::Down);
        }
        let answer = sees::see(
            &mut self.state,
            keeper,
            sealer,
            &self.committee,
            self.member,
            number,
            bytes,
        );
        let fell = sees::see_is_fatal(&answer);
        self.state.settle(fell);
        self.up = !fell;
        answer
    }

    /// Lets the member execute what it holds, round after round (Sui Lutris): answers the effects in order, and the
    /// certificates that it left although all that they waited for is executed, and the checkpoints that the run
    /// completes. The certificates are executed by 1 to 16 workers in threads, and the gate is notified of each
    /// execution (which no clause says); the result is the same for any number of workers and in every interleaving.
    /// Order of the refusals: `Down`, `Halted`, `Full`, `KeepFault`. The record of a run that executed something is
    /// appended before the call answers. After `KeepFault` and running out of memory the member is down.
    #[tactic(auto, using(crate::proofs::Running::run_settles, crate::proofs::Running::run_at, crate::proofs::Running::run_due_at, crate::proofs::Running::run_owed_at, crate::proofs::Settling::down_keeps))]
    pub fn run<R: Threads + Sync, D: Keeper, G: Gate + Sync>(
        &mut self,
        rt: &R,
        keeper: &mut D,
        workers: u32,
        gate: &G,
    ) -> Result<Ran, RunRefusal>
        requires known { self.old.member < D.width keeper.old }
        requires workers { (0 < workers) × (workers ≤ 16) }
        ensures answer { Runs (run_said (bare_rules self.old) self.old) result }
        ensures state { Behaves (bare_rules self.old) runs self.old self.new (run_ended result) }
        ensures kept { Journaled (D.lists keeper.old) (D.lists keeper.new) self.old.member (due_at (bare_rules self.old) self.old runs) (run_ended result) }
        ensures width { D.width keeper.new ≡ D.width keeper.old }
        ensures later { D.failed keeper.old ≤ D.failed keeper.new }
        ensures fault { IsErrOf result no_run.KeepFault → Rose (D.failed keeper.old) (D.failed keeper.new) }
        ensures owed { IsErrOf result no_run.KeepFault → is_some (due_at (bare_rules self.old) self.old runs) ≡ true }
        ensures able { IsErrOf result no_run.OutOfMemory → (self.old.up ≡ true) × (fork_of self.old.state ≡ None) }
    {
        if !self.up {
            return Err(RunRefusal::Down);
        }
        let answer = epoch_calls::run(rt, &mut self.state, keeper, self.member, workers, gate);
        let fell = epoch_calls::run_is_fatal(&answer);
        self.state.settle(fell);
        self.up = !fell;
        answer
    }

    /// Closes the member's epoch: true if it closes, false if it was closed; it votes for no new transaction
    /// and holds no new certificate then (epoch change of Sui Lutris). Order of the refusals: `Down`, `Halted`,
    /// `Full`, `KeepFault`. The record of a close is appended before the call answers. After `KeepFault` and running out of
    /// memory the member is down.
    #[tactic(auto, using(crate::proofs::Running::close_settles, crate::proofs::Running::close_at, crate::proofs::Running::close_due_at, crate::proofs::Running::close_owed_at, crate::proofs::Settling::down_keeps))]
    pub fn close<D: Keeper>(&mut self, keeper: &mut D) -> Result<bool, CloseRefusal>
        requires known { self.old.member < D.width keeper.old }
        ensures answer { Closes (close_said (bare_rules self.old) self.old) result }
        ensures state { Behaves (bare_rules self.old) closes self.old self.new (close_ended result) }
        ensures kept { Journaled (D.lists keeper.old) (D.lists keeper.new) self.old.member (due_at (bare_rules self.old) self.old closes) (close_ended result) }
        ensures width { D.width keeper.new ≡ D.width keeper.old }
        ensures later { D.failed keeper.old ≤ D.failed keeper.new }
        ensures fault { IsErrOf result no_close.KeepFault → Rose (D.failed keeper.old) (D.failed keeper.new) }
        ensures owed { IsErrOf result no_close.KeepFault → is_some (due_at (bare_rules self.old) self.old closes) ≡ true }
        ensures able { IsErrOf result no_close.OutOfMemory → (self.old.up ≡ true) × (fork_of self.old.state ≡ None) }
    {
        if !self.up {
            return Err(CloseRefusal::Down);
        }
        let answer = epoch_calls::close(&mut self.state, keeper, self.member);
        let fell = epoch_calls::close_is_fatal(&answer);
        self.state.settle(fell);
        self.up = !fell;
        answer
    }

    /// Asks the member to say End: it has to be closed, and every transaction of which it holds a certificate has to be in
    /// the part of the sequence that it has seen (epoch change of Sui Lutris). Order of the refusals: `Down`, `Halted`,
    /// `NotClosed`, `Waits` with the first held transaction that is not there; memory is needed only for an End. Nothing
    /// is kept and nothing changes, so it can be said again. The held certificates are walked once an epoch, after the entries that
    /// let them in, and not here.
    #[tactic(auto, using(crate::proofs::Said::end_at))]
    pub fn end<S: Sealer>(&self, sealer: &S) -> Result<Sealed, EndRefusal>
        ensures answer { Ends (S.accepts sealer.now) self.now.member (end_said (rules_of_seat self.now (S.accepts sealer.now)) self.now) result }
    {
        if !self.up {
            return Err(EndRefusal::Down);
        }
        stating::end(&self.state, sealer, self.member)
    }

    /// The digest of the effects of a transaction that the member executed in its present epoch; none exactly if it
    /// executed none. One look-up by the transaction. Takes no memory.
    pub fn executed_digest(&self, tx: &Digest) -> Option<Digest>
        ensures { result ≡ executed_digest tx.now self.now.state }
    {
        self.state.executed_digest(tx)
    }

    /// Asks the member to acknowledge a transaction that it executed in its epoch, with the digest of its effects
    /// (finality of Sui Lutris). Order of the refusals: `Down`, `Halted`, `NotExecuted`; memory is needed only for an
    /// acknowledgement. Nothing is kept and nothing changes. One look-up by the transaction.
    #[tactic(auto, using(crate::proofs::Said::ack_at))]
    pub fn ack<S: Sealer>(&self, sealer: &S, tx: &Digest) -> Result<Sealed, AckRefusal>
        ensures answer { Acks (S.accepts sealer.now) self.now.member (ack_said (rules_of_seat self.now (S.accepts sealer.now)) self.now tx.now) result }
    {
        if !self.up {
            return Err(AckRefusal::Down);
        }
        stating::ack(&self.state, sealer, self.member, tx)
    }

    /// Turns the member to the next epoch (epoch change of Sui Lutris): what it executed and no cut has is undone, it opens
    /// with what is live then, and it has no vote, lock, certificate or entry; checkpoints go on. Answers the undone
    /// transactions, oldest first. Order of the refusals: `Down`, `Halted`, `Full`, `NotEnded` if the end of the epoch
    /// was not seen, `Waits` with the first admitted transaction that was not executed as it was admitted, `KeepFault`.
    /// The record is appended before the call answers. After `KeepFault` and running out of memory the member is down. Time
    /// grows with what the epoch executed, wrote and deleted, and not with what is held.
    #[tactic(auto, using(crate::proofs::Turned::turn_settles, crate::proofs::Turned::turn_at, crate::proofs::Turned::turn_due_at, crate::proofs::Turned::turn_owed_at, crate::proofs::Settling::down_keeps))]
    pub fn turn<D: Keeper>(&mut self, keeper: &mut D) -> Result<Seq<Digest>, TurnRefusal>
        requires known { self.old.member < D.width keeper.old }
        ensures answer { Turns (turn_said (bare_rules self.old) self.old) result }
        ensures state { Behaves (bare_rules self.old) turns self.old self.new (turn_ended result) }
        ensures kept { Journaled (D.lists keeper.old) (D.lists keeper.new) self.old.member (due_at (bare_rules self.old) self.old turns) (turn_ended result) }
        ensures width { D.width keeper.new ≡ D.width keeper.old }
        ensures later { D.failed keeper.old ≤ D.failed keeper.new }
        ensures fault { IsErrOf result no_turn.KeepFault → Rose (D.failed keeper.old) (D.failed keeper.new) }
        ensures owed { IsErrOf result no_turn.KeepFault → is_some (due_at (bare_rules self.old) self.old turns) ≡ true }
        ensures able { IsErrOf result no_turn.OutOfMemory → (self.old.up ≡ true) × (fork_of self.old.state ≡ None) }
    {
        if !self.up {
            return Err(TurnRefusal::Down);
        }
        let answer = turning::turn(&mut self.state, keeper, self.member);
        let fell = turning::turn_is_fatal(&answer);
        self.state.settle(fell);
        self.up = !fell;
        answer
    }
}
