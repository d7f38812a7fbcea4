//! How votes become a certificate.

ghost use Rattle.std.specs.Prelude.{◌≡◌, IfOk, None, true};
ghost use Rattle.quorum_core.specs.Committee.{is_roll};
ghost use Rattle.chain_types.specs.Digests.{transaction_digest};
ghost use Rattle.chain_types.specs.Transactions.{transaction};
ghost use Rattle.protocol_spec.specs.Chain.Certificates.{Rules, cert_refusal, vote_of};
ghost use Rattle.protocol_spec.specs.Chain.Words.{Each};
ghost use Rattle.cert_rules.specs.Collect.{AreSound, IsVoteFor, certificate_of, sealed_collected, voters};
ghost use Rattle.wallet_core.specs.Gathering.{Gathers, is_vote, no_vote, out_of_order, unfit_votes, why_collected, why_no_certificate};

use crate::lengths::Measured;
use crate::refusals::GatherRefusal;
use cert_rules::{CollectRefusal, collect};
use chain_messages::{Certificate, Sealed, Statement};
use chain_types::{Transaction, tx_digest};
use digest_core::Digest;
use quorum_core::Committee;
use std::alloc::Global;
use wire_bcs::{OutOfMemory, Seq};

/// Whether the statement is a vote for the transaction of this digest in this epoch.
fn is_vote(epoch: u64, digest: &Digest, statement: &Statement) -> bool
    ensures { result ≡ is_vote epoch digest.now statement.now }
{
    match statement {
        Statement::Vote { epoch: of, tx, .. } => *of == epoch && tx == digest,
        Statement::End { .. } | Statement::Checkpoint { .. } | Statement::Ack { .. } => false,
    }
}

/// The first statement that is not a vote for the transaction of this digest in this epoch.
fn no_vote(epoch: u64, digest: &Digest, votes: &[Sealed]) -> Option<GatherRefusal>
    ensures { result ≡ no_vote epoch digest.now 0 votes.now }
{
    let mut rest = votes;
    let mut place = 0;
    while let [vote, after @ ..] = rest {
        if !is_vote(epoch, digest, &vote.statement) {
            return Some(GatherRefusal::NoVote { place });
        }
        place += 1;
        rest = after;
    }
    None
}

/// The members that sealed these, in their order.
fn voters(alloc: Global, votes: &[Sealed]) -> Result<Vec<u32>, OutOfMemory>
    ensures { IfOk result (λ members. members.items ≡ voters votes.now) }
{
    Ok(votes.iter().map(|vote| vote.member).collect(alloc)?)
}

/// Whether the members that sealed these are not in ascending order, one repeats, or one is not known.
pub(crate) fn out_of_order(
    alloc: Global,
    committee: &Committee,
    votes: &[Sealed],
) -> Result<Option<GatherRefusal>, OutOfMemory>
    ensures { IfOk result (λ why. why ≡ out_of_order committee.now votes.now) }
{
    let members = voters(alloc, votes)?;
    if committee.is_roll(&members) {
        return Ok(None);
    }
    Ok(Some(GatherRefusal::Order))
}

/// What is wrong with votes for the transaction of this digest in this epoch, whatever their stake is.
#[tactic(auto, unfolding(crate::specs::Gathering::unfit_votes))]
fn unfit_votes(
    alloc: Global,
    committee: &Committee,
    epoch: u64,
    digest: &Digest,
    votes: &[Sealed],
) -> Result<Option<GatherRefusal>, OutOfMemory>
    ensures { IfOk result (λ why. why ≡ unfit_votes committee.now epoch digest.now votes.now) }
{
    if let Some(refusal) = no_vote(epoch, digest, votes) {
        return Ok(Some(refusal));
    }
    out_of_order(alloc, committee, votes)
}

/// What is wrong with votes for this transaction, none of whose lists is too long; the stake is not looked at.
#[tactic(auto, using(crate::proofs::Fit::are_votes, crate::proofs::Fit::voters_in_order))]
fn unfit_for(
    alloc: Global,
    committee: &Committee,
    tx: &Transaction,
    votes: &[Sealed],
) -> Result<Option<GatherRefusal>, OutOfMemory>
    requires { transaction.short tx.now }
    ensures why { IfOk result (λ why. why ≡ unfit_votes committee.now tx.now.epoch (transaction_digest tx.now) votes.now) }
    ensures votes { IfOk result (λ why. why ≡ None → Each (IsVoteFor tx.now) votes.now) }
    ensures roll { IfOk result (λ why. why ≡ None → is_roll committee.now (voters votes.now) ≡ true) }
{
    let digest = tx_digest(alloc, tx)?;
    unfit_votes(alloc, committee, tx.epoch, &digest, votes)
}

/// The certificate of votes with which nothing is wrong, except that their stake may be short, or that they may differ.
fn collected(
    alloc: Global,
    tx: &Transaction,
    votes: &Seq<Sealed>,
    committee: &Committee,
) -> Result<Certificate, GatherRefusal>
    requires votes { Each (IsVoteFor tx.now) votes.now }
    requires roll { is_roll committee.now (voters votes.now) ≡ true }
    ensures exact { Gathers result (why_collected (sealed_collected committee.now votes.now)) (λ cert. cert ≡ certificate_of tx.now votes.now) }
    ensures agree { IfOk result (λ cert. Each (λ vote. vote.statement ≡ vote_of cert) votes.now) }
    ensures valid { IfOk result (λ cert. (rules : Rules) → rules.stakes ≡ committee.now → AreSound rules tx.now votes.now → cert_refusal rules cert ≡ None) }
{
    match collect(alloc, tx, votes, committee) {
        Ok(cert) => Ok(cert),
        Err(CollectRefusal::Short { weight, total }) => {
            Err(GatherRefusal::ShortStake { weight, total })
        }
        Err(CollectRefusal::Differ { a, b }) => Err(GatherRefusal::Differ { a, b }),
        Err(CollectRefusal::OutOfMemory) => Err(GatherRefusal::OutOfMemory),
    }
}

/// The certificate of votes for a transaction: the transaction, the origins that all of them name, and their seals in order. Or
/// the first reason why they make none: `TooLong`, `NoVote`, `Order`, `ShortStake` or `Differ`. Whether the seals are accepted,
/// the transaction has a valid shape and one origin is named for each object is for the caller to check.
#[tactic(auto, using(crate::proofs::Fit::unfit_said, crate::proofs::Fit::fit_said))]
pub fn certify(
    alloc: Global,
    tx: &Transaction,
    votes: &Seq<Sealed>,
    committee: &Committee,
) -> Result<Certificate, GatherRefusal>
    ensures exact { Gathers result (why_no_certificate committee.now tx.now votes.now) (λ cert. cert ≡ certificate_of tx.now votes.now) }
    // Each vote is the statement that the seals of the certificate are over.
    ensures agree { IfOk result (λ cert. Each (λ vote. vote.statement ≡ vote_of cert) votes.now) }
    // The certificate is valid if the votes are sealed well and the transaction has a valid shape.
    ensures valid { IfOk result (λ cert. (rules : Rules) → rules.stakes ≡ committee.now → AreSound rules tx.now votes.now → cert_refusal rules cert ≡ None) }
{
    if tx.is_too_long() {
        return Err(GatherRefusal::TooLong);
    }
    if let Some(refusal) = unfit_for(alloc, committee, tx, votes.as_slice())? {
        return Err(refusal);
    }
    collected(alloc, tx, votes, committee)
}
