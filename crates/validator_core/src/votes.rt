//! Deciding a request for a vote, before anything is kept.

ghost use Rattle.std.specs.Prelude.{◌≡◌, None, IfOk, IsErrOf, false, nat_le};
ghost use Rattle.chain_types.specs.Transactions.{transaction};
ghost use Rattle.chain_types.specs.Digests.{transaction_digest};
ghost use Rattle.protocol_spec.specs.Chain.Words.{unless_refused};
ghost use Rattle.protocol_spec.specs.Chain.Certificates.{accepts_sender};
ghost use Rattle.protocol_spec.specs.declared.refusals.VoteRefusal.TheVariants as no_vote;
ghost use Rattle.protocol_spec.specs.Member.Member.{fork_of, vote_for};
ghost use Rattle.protocol_spec.specs.Member.Calls.{decided_as, due, new_vote, record_limit, vote_answer, vote_on, vote_stopped, votes};
ghost use Rattle.validator_core.specs.Answers.{IsFree, Repeats, VoteDue, VotesAs, decision_in, sealed_as, unsealed_where};

use crate::state::State;
use chain_types::{DecideRefusal, SignedTx, Transaction, decode_signed_with, encoded_digest};
use digest_core::Digest;
use protocol_spec::VoteRefusal;
use quorum_core::{Sealer, Signer};
use tx_check::{ShapeRefusal, check_shape};
use wire_bcs::{Duplicate, Seq, Unread};

/// A vote that a member gives: for the transaction of this digest, naming these origins. It is not fresh if
/// the member had given it before.
#[derive(Drop)]
pub(crate) struct DecidedVote {
    pub digest: Digest,
    pub origins: Seq<Option<Digest>>,
    pub fresh: bool,
}

/// The vote rule's refusal, as an answer to the request.
fn decided_as(refusal: DecideRefusal) -> VoteRefusal
    ensures value { result ≡ decided_as refusal }
    ensures never { result ≡ no_vote.KeepFault → ⊥ }
{
    match refusal {
        DecideRefusal::Absent(key) => VoteRefusal::Absent(key),
        DecideRefusal::Consumed { key, by } => VoteRefusal::Consumed { key, by },
        DecideRefusal::WrongDigest(key) => VoteRefusal::WrongDigest(key),
        DecideRefusal::WrongOwner(key) => VoteRefusal::WrongOwner(key),
        DecideRefusal::WrongKind(key) => VoteRefusal::WrongKind(key),
        DecideRefusal::PoorGas { had, want } => VoteRefusal::PoorGas { had, want },
        DecideRefusal::Locked { key, by } => VoteRefusal::Locked { key, by },
        DecideRefusal::OutOfMemory => VoteRefusal::OutOfMemory,
    }
}

/// The decision to give a vote once more that was given before.
fn again(digest: Digest, origins: &Seq<Option<Digest>>) -> Result<DecidedVote, VoteRefusal>
    ensures value { Repeats digest origins.now result }
    ensures never { IsErrOf result no_vote.KeepFault → ⊥ }
{
    let Ok(origins) = origins.copy() else {
        return Err(VoteRefusal::OutOfMemory);
    };
    Ok(DecidedVote {
        digest,
        origins,
        fresh: false,
    })
}

/// Whether the sender's seal over the bytes of its transaction is accepted. Takes no memory.
fn is_sealed<S: Sealer>(sealer: &S, signed: &SignedTx, tx_bytes: &[u8]) -> bool
    requires { tx_bytes.now ≡ transaction.spell signed.now.tx }
    ensures { result ≡ accepts_sender (sealed_as (S.accepts sealer.now)) signed.now.tx signed.now.seal }
{
    sealer.check(&Signer::User(signed.tx.sender.0), tx_bytes, &signed.seal)
}

impl State {
    /// Whether a vote may be asked for.
    pub(crate) fn check_vote(&self) -> Result<(), VoteRefusal>
        ensures value { result ≡ unless_refused (vote_stopped self.now.member) tt }
        ensures room { IfOk result (λ _. nat_le record_limit self.now.member.records ≡ false) }
        ensures calm { IfOk result (λ _. fork_of self.now.member ≡ None) }
        ensures never { IsErrOf result no_vote.KeepFault → ⊥ }
    {
        if let Some((first, second)) = self.fork() {
            return Err(VoteRefusal::Halted { first, second });
        }
        if self.is_full() {
            return Err(VoteRefusal::Full);
        }
        Ok(())
    }

    /// The decision on a transaction that was not voted for, or why there is no vote.
    #[tactic(auto, using(crate::proofs::Cases::is_free))]
    fn new_vote(
        &self,
        tx: &Transaction,
        digest: Digest,
        sealed: bool,
    ) -> Result<DecidedVote, VoteRefusal>
        requires digest { digest ≡ transaction_digest tx.now }
        requires new { vote_for self.now.member digest ≡ None }
        ensures answer { VotesAs self.now.member.epoch (new_vote self.now.member tx.now (unsealed_where sealed)) result }
        ensures free { IfOk result (λ d. IsFree self.now.member tx.now d) }
        ensures never { IsErrOf result no_vote.KeepFault → ⊥ }
    {
        if self.is_closed() {
            return Err(VoteRefusal::Closed);
        }
        match check_shape(self.alloc, tx) {
            Ok(()) => {}
            Err(ShapeRefusal::Invalid(fault)) => return Err(VoteRefusal::Invalid(fault)),
            Err(ShapeRefusal::OutOfMemory) => return Err(VoteRefusal::OutOfMemory),
        }
        if !sealed {
            return Err(VoteRefusal::Unsealed);
        }
        let store = &self.epoch_state.store;
        match self.votes.decide(self.alloc, store, tx, &digest) {
            Ok(origins) => Ok(DecidedVote {
                digest,
                origins,
                fresh: true,
            }),
            Err(refusal) => Err(decided_as(refusal)),
        }
    }

    /// The vote for the transaction of this digest; `sealed` says whether its seal is accepted. It is the one that was given
    /// before, or a new one. Order of the refusals: `WrongEpoch`, `Closed`, `Invalid`, `Unsealed`, the vote rule's.
    pub(crate) fn vote_on(
        &self,
        tx: &Transaction,
        digest: Digest,
        sealed: bool,
    ) -> Result<DecidedVote, VoteRefusal>
        requires { digest ≡ transaction_digest tx.now }
        ensures answer { VotesAs self.now.member.epoch (vote_on self.now.member tx.now (unsealed_where sealed)) result }
        ensures free { IfOk result (λ d. IsFree self.now.member tx.now d) }
        ensures never { IsErrOf result no_vote.KeepFault → ⊥ }
    {
        let want = self.epoch();
        if tx.epoch != want {
            return Err(VoteRefusal::WrongEpoch {
                had: tx.epoch,
                want,
            });
        }
        match self.given(&digest) {
            Some(origins) => again(digest, origins),
            None => self.new_vote(tx, digest, sealed),
        }
    }

    /// The vote for what the bytes encode, with that transaction and its bytes among them. Order of the refusals: `Halted`,
    /// `Full`, `Malformed`, then those of [`State::vote_on`].
    #[tactic(auto, unfolding(protocol_spec::specs::Member::Calls::vote_answer, protocol_spec::specs::Member::Calls::due, protocol_spec::specs::Chain::Certificates::read_signed, chain_types::specs::Transactions::signed))]
    pub(crate) fn vote<'a, S: Sealer>(
        &self,
        sealer: &S,
        bytes: &'a [u8],
    ) -> Result<(Transaction, DecidedVote, &'a [u8]), VoteRefusal>
        ensures answer { VotesAs self.now.member.epoch (vote_answer (sealed_as (S.accepts sealer.now)) self.now.member bytes.now) (decision_in result) }
        ensures due { VoteDue (due (sealed_as (S.accepts sealer.now)) self.now.member (votes bytes.now)) result }
        ensures free { IfOk result (λ v. IsFree self.now.member v.0 v.1) }
        ensures short { IfOk result (λ v. transaction.short v.0) }
        ensures encoded { IfOk result (λ v. v.2.now ≡ transaction.spell v.0) }
        ensures room { IfOk result (λ _. nat_le record_limit self.now.member.records ≡ false) }
        ensures calm { IfOk result (λ _. fork_of self.now.member ≡ None) }
        ensures never { IsErrOf result no_vote.KeepFault → ⊥ }
        ensures able { IsErrOf result no_vote.OutOfMemory → fork_of self.now.member ≡ None }
    {
        self.check_vote()?;
        let (signed, tx_bytes) = match decode_signed_with(self.alloc, bytes) {
            Ok(signed) => signed,
            Err(Unread::Wire(fault)) => return Err(VoteRefusal::Malformed(fault)),
            Err(Unread::OutOfMemory) => return Err(VoteRefusal::OutOfMemory),
        };
        let sealed = is_sealed(sealer, &signed, tx_bytes);
        let digest = encoded_digest(&signed.tx, tx_bytes);
        match self.vote_on(&signed.tx, digest, sealed) {
            Ok(decision) => Ok((signed.tx, decision, tx_bytes)),
            Err(refusal) => {
                drop(signed);
                Err(refusal)
            }
        }
    }
}
