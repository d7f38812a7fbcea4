//! A member with its journal and its sealer.

ghost use Rattle.std.specs.Prelude.{◌≡◌, ◌≤◌, IsErrOf, None, is_some, length, option_copied, option_map, slice_get, true};
ghost use Rattle.outside.specs.Causes.{Rose};
ghost use Rattle.protocol_spec.specs.Member.Versions.{object_in, version_at, versions as versions_of};
ghost use Rattle.protocol_spec.specs.Member.Member.{built as built_by, fork_of};
ghost use Rattle.protocol_spec.specs.Member.Calls.{closes, holds, runs, sees, turns, votes};
ghost use Rattle.protocol_spec.specs.declared.refusals.VoteRefusal.TheVariants as no_vote;
ghost use Rattle.protocol_spec.specs.declared.refusals.TurnRefusal.TheVariants as no_turn;
ghost use Rattle.protocol_spec.specs.declared.refusals.SeeRefusal.TheVariants as no_see;
ghost use Rattle.protocol_spec.specs.declared.refusals.RunRefusal.TheVariants as no_run;
ghost use Rattle.protocol_spec.specs.declared.refusals.CloseRefusal.TheVariants as no_close;
ghost use Rattle.protocol_spec.specs.declared.refusals.HoldRefusal.TheVariants as no_hold;
ghost use Rattle.validator_core.specs.Calls.{Acks, Closes, Ends, Holds, Runs, Sees, Turns, Votes, ack_said, close_ended, close_said, end_said, hold_ended, hold_said, run_ended, run_said, see_ended, see_said, turn_ended, turn_said, vote_ended, vote_said};
ghost use Rattle.validator_core.specs.Seats.{Behaves};
ghost use Rattle.world_spec.specs.Seats.{bare_rules, due_at, rules_of_seat};
ghost use Rattle.sui_validator.specs.Journals.{Kept};

use crate::journal::Journal;
use crate::sole::Sole;
use crate::workers::Workers;
use chain_messages::Sealed;
use chain_types::{Object, ObjectKey};
use checkpoint_core::Checkpoint;
use dag_pool::OpenGate;
use digest_core::Digest;
use protocol_spec::{
    AckRefusal, CloseRefusal, EndRefusal, HoldRefusal, Ran, RunRefusal, SeeRefusal, Seen,
    TurnRefusal, VoteRefusal, Voted,
};
use quorum_core::Sealer;
use std::marker::Model;
use std::thread::Threads;
use validator_core::Validator;
use wire_bcs::Seq;

/// A member of a committee, which keeps its records in a journal and makes seals. Contracts see its seat (its number, the
/// committee's terms, whether it is up, and its state), the journal and the sealer.
#[derive(Drop)]
pub struct Member<J: Journal, S: Sealer> {
    pub(crate) validator: Validator,
    pub(crate) keeper: Sole<J>,
    pub(crate) sealer: S,
}

impl<J: Journal, S: Sealer> Model for Member<J, S> {
    ghost use Rattle.std.specs.Prelude.{◌≡◌};
    ghost use Rattle.sui_validator.specs.Members.{Seating};

    ghost Value = { Seating J S };

    ghost view = { λ m. record { seat = m.validator; journal = m.keeper.journal; sealer = m.sealer } };

    ghost invariant = { λ m. m.validator.member ≡ m.keeper.member };
}

impl<J: Journal, S: Sealer> Member<J, S> {
    /// Asks the member for its vote for the transaction that the bytes encode. A new vote's record stands in the journal before
    /// the vote is given. `KeepFault` comes only if a record is due, `OutOfMemory` only if the member is up and met no
    /// fork; so neither replaces `Down` or `Halted`, here and in the calls that follow. After either of them the member
    /// is down and its state is gone: looks find what a member without records has whose epoch opened with no objects.
    pub fn vote(&mut self, bytes: &[u8]) -> Result<Voted, VoteRefusal>
        ensures answer { Votes (S.accepts self.old.sealer) self.old.seat.member (vote_said (rules_of_seat self.old.seat (S.accepts self.old.sealer)) self.old.seat bytes.now) result }
        ensures state { Behaves (rules_of_seat self.old.seat (S.accepts self.old.sealer)) (votes bytes.now) self.old.seat self.new.seat (vote_ended result) }
        ensures kept { Kept (J.records self.old.journal) (J.records self.new.journal) (due_at (rules_of_seat self.old.seat (S.accepts self.old.sealer)) self.old.seat (votes bytes.now)) (vote_ended result) }
        ensures sealer { self.new.sealer ≡ self.old.sealer }
        ensures later { J.failed self.old.journal ≤ J.failed self.new.journal }
        ensures fault { IsErrOf result no_vote.KeepFault → Rose (J.failed self.old.journal) (J.failed self.new.journal) }
        ensures owed { IsErrOf result no_vote.KeepFault → is_some (due_at (rules_of_seat self.old.seat (S.accepts self.old.sealer)) self.old.seat (votes bytes.now)) ≡ true }
        ensures able { IsErrOf result no_vote.OutOfMemory → (self.old.seat.up ≡ true) × (fork_of self.old.seat.state ≡ None) }
    {
        self.validator.vote(&mut self.keeper, &self.sealer, bytes)
    }

    /// Hands the certificate that the bytes encode to the member: true if it is newly held, false if a certificate of its
    /// transaction is held already.
    pub fn hold(&mut self, bytes: &[u8]) -> Result<bool, HoldRefusal>
        ensures answer { Holds (hold_said (rules_of_seat self.old.seat (S.accepts self.old.sealer)) self.old.seat bytes.now) result }
        ensures state { Behaves (rules_of_seat self.old.seat (S.accepts self.old.sealer)) (holds bytes.now) self.old.seat self.new.seat (hold_ended result) }
        ensures kept { Kept (J.records self.old.journal) (J.records self.new.journal) (due_at (rules_of_seat self.old.seat (S.accepts self.old.sealer)) self.old.seat (holds bytes.now)) (hold_ended result) }
        ensures sealer { self.new.sealer ≡ self.old.sealer }
        ensures later { J.failed self.old.journal ≤ J.failed self.new.journal }
        ensures fault { IsErrOf result no_hold.KeepFault → Rose (J.failed self.old.journal) (J.failed self.new.journal) }
        ensures owed { IsErrOf result no_hold.KeepFault → is_some (due_at (rules_of_seat self.old.seat (S.accepts self.old.sealer)) self.old.seat (holds bytes.now)) ≡ true }
        ensures able { IsErrOf result no_hold.OutOfMemory → (self.old.seat.up ≡ true) × (fork_of self.old.seat.state ≡ None) }
    {
        self.validator.hold(&mut self.keeper, &self.sealer, bytes)
    }

    /// Hands the next entry of the epoch's sequence, which has this number from 0, to the member: what it did, and the
    /// checkpoints that it completes.
    pub fn see(&mut self, number: u64, bytes: &[u8]) -> Result<Seen, SeeRefusal>
        ensures answer { Sees (see_said (rules_of_seat self.old.seat (S.accepts self.old.sealer)) self.old.seat number bytes.now) result }
        ensures state { Behaves (rules_of_seat self.old.seat (S.accepts self.old.sealer)) (sees number bytes.now) self.old.seat self.new.seat (see_ended result) }
        ensures kept { Kept (J.records self.old.journal) (J.records self.new.journal) (due_at (rules_of_seat self.old.seat (S.accepts self.old.sealer)) self.old.seat (sees number bytes.now)) (see_ended result) }
        ensures sealer { self.new.sealer ≡ self.old.sealer }
        ensures later { J.failed self.old.journal ≤ J.failed self.new.journal }
        ensures fault { IsErrOf result no_see.KeepFault → Rose (J.failed self.old.journal) (J.failed self.new.journal) }
        ensures owed { IsErrOf result no_see.KeepFault → is_some (due_at (rules_of_seat self.old.seat (S.accepts self.old.sealer)) self.old.seat (sees number bytes.now)) ≡ true }
        ensures able { IsErrOf result no_see.OutOfMemory → (self.old.seat.up ≡ true) × (fork_of self.old.seat.state ≡ None) }
    {
        self.validator
            .see(&mut self.keeper, &self.sealer, number, bytes)
    }

    /// Lets the member execute what it holds, by this many threads: the effects in order, the certificates that it left although
    /// all that they waited for is executed, and the checkpoints that the run completes.
    pub fn run<R: Threads + Sync>(&mut self, rt: &R, workers: &Workers) -> Result<Ran, RunRefusal>
        ensures answer { Runs (run_said (bare_rules self.old.seat) self.old.seat) result }
        ensures state { Behaves (bare_rules self.old.seat) runs self.old.seat self.new.seat (run_ended result) }
        ensures kept { Kept (J.records self.old.journal) (J.records self.new.journal) (due_at (bare_rules self.old.seat) self.old.seat runs) (run_ended result) }
        ensures sealer { self.new.sealer ≡ self.old.sealer }
        ensures later { J.failed self.old.journal ≤ J.failed self.new.journal }
        ensures fault { IsErrOf result no_run.KeepFault → Rose (J.failed self.old.journal) (J.failed self.new.journal) }
        ensures owed { IsErrOf result no_run.KeepFault → is_some (due_at (bare_rules self.old.seat) self.old.seat runs) ≡ true }
        ensures able { IsErrOf result no_run.OutOfMemory → (self.old.seat.up ≡ true) × (fork_of self.old.seat.state ≡ None) }
    {
        let count = workers.count();
        self.validator.run(rt, &mut self.keeper, count, &OpenGate)
    }

    /// Closes the member's epoch: true if it closes, false if it was closed.
    pub fn close(&mut self) -> Result<bool, CloseRefusal>
        ensures answer { Closes (close_said (bare_rules self.old.seat) self.old.seat) result }
        ensures state { Behaves (bare_rules self.old.seat) closes self.old.seat self.new.seat (close_ended result) }
        ensures kept { Kept (J.records self.old.journal) (J.records self.new.journal) (due_at (bare_rules self.old.seat) self.old.seat closes) (close_ended result) }
        ensures sealer { self.new.sealer ≡ self.old.sealer }
        ensures later { J.failed self.old.journal ≤ J.failed self.new.journal }
        ensures fault { IsErrOf result no_close.KeepFault → Rose (J.failed self.old.journal) (J.failed self.new.journal) }
        ensures owed { IsErrOf result no_close.KeepFault → is_some (due_at (bare_rules self.old.seat) self.old.seat closes) ≡ true }
        ensures able { IsErrOf result no_close.OutOfMemory → (self.old.seat.up ≡ true) × (fork_of self.old.seat.state ≡ None) }
    {
        self.validator.close(&mut self.keeper)
    }

    /// Turns the member to the next epoch: the transactions that are undone, oldest first.
    pub fn turn(&mut self) -> Result<Seq<Digest>, TurnRefusal>
        ensures answer { Turns (turn_said (bare_rules self.old.seat) self.old.seat) result }
        ensures state { Behaves (bare_rules self.old.seat) turns self.old.seat self.new.seat (turn_ended result) }
        ensures kept { Kept (J.records self.old.journal) (J.records self.new.journal) (due_at (bare_rules self.old.seat) self.old.seat turns) (turn_ended result) }
        ensures sealer { self.new.sealer ≡ self.old.sealer }
        ensures later { J.failed self.old.journal ≤ J.failed self.new.journal }
        ensures fault { IsErrOf result no_turn.KeepFault → Rose (J.failed self.old.journal) (J.failed self.new.journal) }
        ensures owed { IsErrOf result no_turn.KeepFault → is_some (due_at (bare_rules self.old.seat) self.old.seat turns) ≡ true }
        ensures able { IsErrOf result no_turn.OutOfMemory → (self.old.seat.up ≡ true) × (fork_of self.old.seat.state ≡ None) }
    {
        self.validator.turn(&mut self.keeper)
    }

    /// Asks the member to say End, so that the epoch can end. Nothing is kept and nothing changes.
    pub fn end(&self) -> Result<Sealed, EndRefusal>
        ensures { Ends (S.accepts self.now.sealer) self.now.seat.member (end_said (rules_of_seat self.now.seat (S.accepts self.now.sealer)) self.now.seat) result }
    {
        self.validator.end(&self.sealer)
    }

    /// Asks the member to acknowledge a transaction that it executed in its epoch. Nothing is kept and nothing changes.
    pub fn ack(&self, tx: &Digest) -> Result<Sealed, AckRefusal>
        ensures { Acks (S.accepts self.now.sealer) self.now.seat.member (ack_said (rules_of_seat self.now.seat (S.accepts self.now.sealer)) self.now.seat tx.now) result }
    {
        self.validator.ack(&self.sealer, tx)
    }

    /// The checkpoint of this number; none exactly if it was not built. Takes no memory.
    pub fn checkpoint(&self, number: u64) -> Option<&Checkpoint>
        ensures { option_map (λ (c : _). c.now) result ≡ slice_get (built_by self.now.seat.state) number }
    {
        self.validator.checkpoint(number)
    }

    /// The object of a held version; none exactly if the version is not held. Takes no memory.
    pub fn object(&self, key: &ObjectKey) -> Option<&Object>
        ensures { option_copied result ≡ option_map object_in (version_at (versions_of self.now.seat.state.opening self.now.seat.state.executed) key.now) }
    {
        self.validator.object(key)
    }

    /// Whether the member is up: it answers no request while it is not, and has to be opened again from its journal. Takes no
    /// memory.
    pub fn is_up(&self) -> bool
        ensures { result ≡ self.now.seat.up }
    {
        self.validator.is_up()
    }

    /// The present epoch. Takes no memory.
    pub fn epoch(&self) -> u64
        ensures { result ≡ self.now.seat.state.epoch }
    {
        self.validator.epoch()
    }

    /// The number of checkpoints that the member has built, over all its epochs. Takes no memory.
    pub fn checkpoints(&self) -> u64
        ensures { result ≡ length (built_by self.now.seat.state) }
    {
        self.validator.checkpoints()
    }

    /// Ends the member, and gives back its journal.
    pub fn into_journal(self) -> J
    where
        S: Drop,
        ensures { result ≡ self.journal }
    {
        let Member {
            validator,
            keeper,
            sealer,
        } = self;
        drop(validator);
        drop(sealer);
        keeper.into_journal()
    }
}
