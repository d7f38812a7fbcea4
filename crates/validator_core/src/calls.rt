//! The calls that a member answers, over its state.

ghost use Rattle.std.specs.Prelude.{◌≡◌, ◌<◌, ◌≤◌, IfOk, IsErrOf, None, OnOk, false, is_some, length, nat_le, true};
ghost use Rattle.chain_types.specs.Transactions.{transaction};
ghost use Rattle.chain_types.specs.Digests.{transaction_digest};
ghost use Rattle.chain_messages.specs.declared.messages.Statement.TheVariants as statements;
ghost use Rattle.outside.specs.Causes.{Rose};
ghost use Rattle.journal_core.specs.declared.records.Record.TheVariants as record_as;
ghost use Rattle.protocol_spec.specs.Member.Member.{fork_of};
ghost use Rattle.protocol_spec.specs.Member.Calls.{called, due, hold_answer, holds, record_limit, vote_answer, votes};
ghost use Rattle.protocol_spec.specs.declared.refusals.HoldRefusal.TheVariants as no_hold;
ghost use Rattle.protocol_spec.specs.declared.refusals.VoteRefusal.TheVariants as no_vote;
ghost use Rattle.validator_core.specs.Answers.{IsFree, sealed_as};
ghost use Rattle.world_spec.specs.Terms.{rules_for};
ghost use Rattle.validator_core.specs.Limits.{terms_at};
ghost use Rattle.validator_core.specs.Steps.{voted};
ghost use Rattle.journal_core.specs.Records as journals;
ghost use Rattle.journal_core.specs.Encoded.{IsEncodedIn};
ghost use Rattle.validator_core.specs.Taking.{MayTake, taken};
ghost use Rattle.validator_core.specs.declared.keeping.JournalFault.TheVariants as unkept;
ghost use Rattle.validator_core.specs.Calls.{Holds, IsSealedBy, Votes, hold_ended, origins_in, vote_ended};
ghost use Rattle.validator_core.specs.Seats.{Appended, Becomes, Journaled, has_fallen};

use crate::holds::CertificateOutcome;
use crate::keeping::{JournalFault, append_encoded};
use crate::state::State;
use crate::votes::DecidedVote;
use chain_messages::{Certificate, Sealed, Statement, encode_statement};
use chain_types::Transaction;
use digest_core::Digest;
use journal_core::Record;
use outside::Keeper;
use protocol_spec::{Held, HoldRefusal, SharedCertificate, VoteRefusal, Voted};
use quorum_core::{Committee, Sealer, Signer};
use std::alloc::Global;
use wire_bcs::{Duplicate, OutOfMemory};

/// The sealed statement of a vote.
#[tactic(auto, using(crate::proofs::Casting::statement_short))]
fn seal_vote<S: Sealer>(
    alloc: Global,
    sealer: &S,
    member: u32,
    epoch: u64,
    decision: &DecidedVote,
) -> Result<Sealed, OutOfMemory>
    requires { length decision.now.origins ≤ 257 }
    ensures said { IfOk result (λ s. s.statement ≡ statements.Vote epoch decision.now.digest decision.now.origins) }
    ensures sealed { IfOk result (λ s. IsSealedBy (S.accepts sealer.now) member s) }
{
    let statement = Statement::Vote {
        epoch,
        tx: decision.digest,
        origins: decision.origins.copy()?,
    };
    let bytes = encode_statement(alloc, &statement)?;
    let seal = sealer.seal(&Signer::Member(member), bytes.as_slice());
    Ok(Sealed {
        member,
        statement,
        seal,
    })
}

/// Takes the record of a vote or a certificate, whose transaction has this digest, into the state.
fn take(state: &mut State, kept: Record, digest: Digest) -> Result<(), OutOfMemory>
    requires may { MayTake state.old.member digest kept }
    requires room { nat_le record_limit state.old.member.records ≡ false }
    ensures state { OnOk result (state.new.member ≡ taken state.old.member kept) }
    ensures limit { state.new.writers ≡ state.old.writers }
{
    match kept {
        Record::Vote { tx, origins } => state.take_vote(&tx, digest, origins),
        Record::Hold(cert) => {
            let cert = SharedCertificate::new(state.allocator(), cert)?;
            state.take_hold(Held { digest, cert })
        }
        Record::See(_bytes) => unreachable!(),
        Record::Ran(_txs) => unreachable!(),
        Record::Ran2(_items) => unreachable!(),
        Record::Close | Record::Turn => unreachable!(),
    }
}

/// Appends the record of a vote or a certificate, and then takes it into the state. `encoded` is its transaction, or
/// certificate, in bytes, and `digest` that of the transaction.
fn keep<D: Keeper>(
    state: &mut State,
    keeper: &mut D,
    member: u32,
    kept: Record,
    digest: Digest,
    encoded: &[u8],
) -> Result<(), JournalFault>
    requires known { member < D.width keeper.old }
    requires encoded { IsEncodedIn kept encoded.now }
    requires may { MayTake state.old.member digest kept }
    requires short { journals.journal_record.short kept }
    requires room { nat_le record_limit state.old.member.records ≡ false }
    ensures state { OnOk result (state.new.member ≡ taken state.old.member kept) }
    ensures kept { Appended (D.lists keeper.old) (D.lists keeper.new) member kept result }
    ensures width { D.width keeper.new ≡ D.width keeper.old }
    ensures later { D.failed keeper.old ≤ D.failed keeper.new }
    ensures fault { IsErrOf result unkept.KeepFault → Rose (D.failed keeper.old) (D.failed keeper.new) }
    ensures limit { state.new.writers ≡ state.old.writers }
{
    match append_encoded(state.allocator(), keeper, member, &kept, encoded) {
        Ok(()) => {}
        Err(why) => {
            drop(kept);
            return Err(why);
        }
    }
    match take(state, kept, digest) {
        Ok(()) => Ok(()),
        Err(OutOfMemory) => Err(JournalFault::OutOfMemory),
    }
}

/// Appends the record of a fresh vote, and takes it.
#[tactic(auto, using(crate::proofs::Casting::vote_may, crate::proofs::Casting::kept_vote_short))]
fn keep_vote<D: Keeper>(
    state: &mut State,
    keeper: &mut D,
    member: u32,
    tx: Transaction,
    tx_bytes: &[u8],
    decision: DecidedVote,
) -> Result<(), JournalFault>
    requires known { member < D.width keeper.old }
    requires short { transaction.short tx }
    requires encoded { tx_bytes.now ≡ transaction.spell tx }
    requires free { IsFree state.old.member tx decision }
    requires fresh { decision.fresh ≡ true }
    requires room { nat_le record_limit state.old.member.records ≡ false }
    ensures state { OnOk result (state.new.member ≡ voted state.old.member tx decision.origins) }
    ensures kept { Appended (D.lists keeper.old) (D.lists keeper.new) member (record_as.Vote tx decision.origins) result }
    ensures width { D.width keeper.new ≡ D.width keeper.old }
    ensures later { D.failed keeper.old ≤ D.failed keeper.new }
    ensures fault { IsErrOf result unkept.KeepFault → Rose (D.failed keeper.old) (D.failed keeper.new) }
    ensures limit { state.new.writers ≡ state.old.writers }
{
    let digest = decision.digest;
    let kept = Record::Vote {
        tx,
        origins: decision.origins,
    };
    keep(state, keeper, member, kept, digest, tx_bytes)
}

/// Asks a member that is up for its vote: the record of a fresh one is appended before the vote is given.
#[tactic(auto, using(crate::proofs::Casting::idle_called))]
pub(crate) fn vote<D: Keeper, S: Sealer>(
    state: &mut State,
    keeper: &mut D,
    sealer: &S,
    member: u32,
    bytes: &[u8],
) -> Result<Voted, VoteRefusal>
    requires known { member < D.width keeper.old }
    ensures answer { Votes (S.accepts sealer.now) member (vote_answer (sealed_as (S.accepts sealer.now)) state.old.member bytes.now) result }
    ensures state { Becomes (called (sealed_as (S.accepts sealer.now)) state.old.member (votes bytes.now)) state.new.member (vote_ended result) }
    ensures kept { Journaled (D.lists keeper.old) (D.lists keeper.new) member (due (sealed_as (S.accepts sealer.now)) state.old.member (votes bytes.now)) (vote_ended result) }
    ensures width { D.width keeper.new ≡ D.width keeper.old }
    ensures later { D.failed keeper.old ≤ D.failed keeper.new }
    ensures fault { IsErrOf result no_vote.KeepFault → Rose (D.failed keeper.old) (D.failed keeper.new) }
    ensures owed { IsErrOf result no_vote.KeepFault → is_some (due (sealed_as (S.accepts sealer.now)) state.old.member (votes bytes.now)) ≡ true }
    ensures able { IsErrOf result no_vote.OutOfMemory → fork_of state.old.member ≡ None }
    ensures few { IfOk result (λ v. length (origins_in v.sealed.statement) ≤ 257) }
    ensures limit { state.new.writers ≡ state.old.writers }
{
    let (tx, decision, tx_bytes) = state.vote(sealer, bytes)?;
    let epoch = state.epoch();
    let Ok(sealed) = seal_vote(state.allocator(), sealer, member, epoch, &decision) else {
        drop(tx);
        drop(decision);
        return Err(VoteRefusal::OutOfMemory);
    };
    if !decision.fresh {
        drop(tx);
        drop(decision);
        return Ok(Voted {
            sealed,
            fresh: false,
        });
    }
    keep_vote(state, keeper, member, tx, tx_bytes, decision)?;
    Ok(Voted {
        sealed,
        fresh: true,
    })
}

/// Whether the member is down after this answer.
pub(crate) fn vote_is_fatal(answer: &Result<Voted, VoteRefusal>) -> bool
    ensures { result ≡ has_fallen (vote_ended answer.now) }
{
    match answer {
        Err(VoteRefusal::KeepFault | VoteRefusal::OutOfMemory) => true,
        Ok(_) => false,
        Err(
            VoteRefusal::Down
            | VoteRefusal::Halted { .. }
            | VoteRefusal::Full
            | VoteRefusal::Malformed(_)
            | VoteRefusal::WrongEpoch { .. }
            | VoteRefusal::Closed
            | VoteRefusal::Invalid(_)
            | VoteRefusal::Unsealed
            | VoteRefusal::Absent(_)
            | VoteRefusal::Consumed { .. }
            | VoteRefusal::WrongDigest(_)
            | VoteRefusal::WrongOwner(_)
            | VoteRefusal::WrongKind(_)
            | VoteRefusal::PoorGas { .. }
            | VoteRefusal::Locked { .. },
        ) => false,
    }
}

/// Hands a certificate to a member that is up: its record is appended before the call answers.
#[tactic(auto, using(crate::proofs::Casting::idle_called, crate::proofs::Casting::hold_may, crate::proofs::Casting::hold_short, crate::proofs::Casting::new_owed, crate::proofs::Casting::fork_owed))]
pub(crate) fn hold<D: Keeper, S: Sealer>(
    state: &mut State,
    keeper: &mut D,
    sealer: &S,
    committee: &Committee,
    member: u32,
    bytes: &[u8],
) -> Result<bool, HoldRefusal>
    requires known { member < D.width keeper.old }
    ensures answer { Holds (hold_answer (rules_for (terms_at state.old committee.now) (S.accepts sealer.now)) state.old.member bytes.now) result }
    ensures state { Becomes (called (rules_for (terms_at state.old committee.now) (S.accepts sealer.now)) state.old.member (holds bytes.now)) state.new.member (hold_ended result) }
    ensures kept { Journaled (D.lists keeper.old) (D.lists keeper.new) member (due (rules_for (terms_at state.old committee.now) (S.accepts sealer.now)) state.old.member (holds bytes.now)) (hold_ended result) }
    ensures width { D.width keeper.new ≡ D.width keeper.old }
    ensures later { D.failed keeper.old ≤ D.failed keeper.new }
    ensures fault { IsErrOf result no_hold.KeepFault → Rose (D.failed keeper.old) (D.failed keeper.new) }
    ensures owed { IsErrOf result no_hold.KeepFault → is_some (due (rules_for (terms_at state.old committee.now) (S.accepts sealer.now)) state.old.member (holds bytes.now)) ≡ true }
    ensures able { IsErrOf result no_hold.OutOfMemory → fork_of state.old.member ≡ None }
    ensures limit { state.new.writers ≡ state.old.writers }
{
    let (cert, holding) = state.hold(committee, sealer, bytes)?;
    match holding {
        CertificateOutcome::Again => {
            drop(cert);
            Ok(false)
        }
        CertificateOutcome::New(digest) => {
            keep(state, keeper, member, Record::Hold(cert), digest, bytes)?;
            Ok(true)
        }
        CertificateOutcome::Fork { key, first, digest } => {
            keep(state, keeper, member, Record::Hold(cert), digest, bytes)?;
            Err(HoldRefusal::Fork {
                key,
                first,
                second: digest,
            })
        }
    }
}

/// Whether the member is down after this answer.
pub(crate) fn hold_is_fatal(answer: &Result<bool, HoldRefusal>) -> bool
    ensures { result ≡ has_fallen (hold_ended answer.now) }
{
    match answer {
        Err(HoldRefusal::KeepFault | HoldRefusal::OutOfMemory) => true,
        Ok(_) => false,
        Err(
            HoldRefusal::Down
            | HoldRefusal::Halted { .. }
            | HoldRefusal::Full
            | HoldRefusal::Malformed(_)
            | HoldRefusal::WrongEpoch { .. }
            | HoldRefusal::Closed
            | HoldRefusal::Cert(_)
            | HoldRefusal::Fork { .. },
        ) => false,
    }
}
