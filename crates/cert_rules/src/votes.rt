//! How votes become a certificate.

ghost use Rattle.std.specs.Prelude.{◌≡◌, IfOk, None, map, option_copied, true};
ghost use Rattle.quorum_core.specs.Committee.{is_roll};
ghost use Rattle.protocol_spec.specs.Chain.Certificates.{Rules, cert_refusal, vote_of};
ghost use Rattle.protocol_spec.specs.Chain.Tests.{origins_eq};
ghost use Rattle.protocol_spec.specs.Chain.Words.{Each};
ghost use Rattle.cert_rules.specs.Collecting.{collected_as};
ghost use Rattle.cert_rules.specs.Collect.{AreSound, IsVoteFor, Gives, certificate_of, first_origins, same_vote, seal_of, sealed_collected, vote_by, voted_origins, voters};
ghost use Rattle.cert_rules.specs.declared.votes.CollectRefusal.TheVariants as refusal;

use crate::collecting::{Collected, LastWords, collect_words};
use chain_messages::{Certificate, MemberSeal, Sealed, Statement};
use chain_types::Transaction;
use digest_core::Digest;
use quorum_core::Committee;
use std::alloc::Global;
use wire_bcs::{Duplicate, OutOfMemory, Seq};

/// Why votes make no certificate, in the order in which the cases are tried.
#[derive(Clone, Copy, Debug, PartialEq, Eq)]
pub enum CollectRefusal {
    /// The stake of the voters is not a quorum.
    Short { weight: u64, total: u64 },
    /// The first member `a` and the first other `b` that named other origins.
    Differ { a: u32, b: u32 },
    OutOfMemory,
}

impl From<OutOfMemory> for CollectRefusal {
    ghost from_gives = { λ _ given. given ≡ refusal.OutOfMemory };

    fn from(_error: OutOfMemory) -> Self {
        CollectRefusal::OutOfMemory
    }
}

/// The origins that a vote names; none if the statement is not a vote.
fn voted_origins(statement: &Statement) -> &[Option<Digest>]
    ensures { result.now ≡ voted_origins statement.now }
{
    match statement {
        Statement::Vote { origins, .. } => origins.as_slice(),
        Statement::End { .. } | Statement::Checkpoint { .. } | Statement::Ack { .. } => &[],
    }
}

/// Whether two votes, or two certificates, name the same origins. Takes no memory.
pub fn same_origins(a: &[Option<Digest>], b: &[Option<Digest>]) -> bool
    ensures { result ≡ origins_eq a.now b.now }
{
    a == b
}

/// The first of these sealed statements that is this member's. Takes no memory.
pub(crate) fn vote_by(votes: &[Sealed], member: u32) -> Option<&Sealed>
    ensures { option_copied result ≡ vote_by votes.now member }
{
    let mut rest = votes;
    while let [vote, after @ ..] = rest {
        if vote.member == member {
            return Some(vote);
        }
        rest = after;
    }
    None
}

/// Sealed votes as [`LastWords`]: each member has only one, which is its last word.
#[derive(Clone, Copy)]
struct SealedVotes<'a> {
    votes: &'a [Sealed],
}

impl LastWords for SealedVotes<'_> {
    type Word = Sealed;

    ghost same = { same_vote };

    ghost reads = { λ w m. vote_by w.votes.now m };

    fn last_word(&self, member: u32) -> Option<&Sealed> {
        vote_by(self.votes, member)
    }

    fn are_same(a: &Sealed, b: &Sealed) -> bool
        ensures { result ≡ same_vote a.now b.now }
    {
        same_origins(voted_origins(&a.statement), voted_origins(&b.statement))
    }
}

/// What the votes of these members give together. Takes no memory.
#[tactic(auto, unfolding(crate::specs::Collect::sealed_collected))]
fn collect_sealed(committee: &Committee, members: &[u32], votes: &[Sealed]) -> Collected
    requires { members.now ≡ voters votes.now }
    ensures { collected_as result ≡ sealed_collected committee.now votes.now }
{
    collect_words(&SealedVotes { votes }, committee, members)
}

/// The origins that the first vote names.
fn first_origins(alloc: Global, votes: &[Sealed]) -> Result<Seq<Option<Digest>>, OutOfMemory>
    ensures { IfOk result (λ origins. origins ≡ first_origins votes.now) }
{
    match votes {
        [] => Ok(Seq::new(alloc)),
        [first, ..] => Seq::from_slice(alloc, voted_origins(&first.statement)),
    }
}

/// The members that sealed these, in their order.
pub(crate) fn voters(alloc: Global, votes: &[Sealed]) -> Result<Vec<u32>, OutOfMemory>
    ensures { IfOk result (λ members. members.items ≡ voters votes.now) }
{
    Ok(votes.iter().map(|vote| vote.member).collect(alloc)?)
}

/// The seal of a vote.
fn seal_of(vote: &Sealed) -> MemberSeal
    ensures { result ≡ seal_of vote.now }
{
    MemberSeal {
        member: vote.member,
        seal: vote.seal,
    }
}

/// The seals of the votes, in their order.
fn seals_of(alloc: Global, votes: &[Sealed]) -> Result<Vec<MemberSeal>, OutOfMemory>
    ensures { IfOk result (λ seals. seals.items ≡ map seal_of votes.now) }
{
    Ok(votes.iter().map(|vote| seal_of(vote)).collect(alloc)?)
}

/// The certificate of votes that agree.
fn certificate_of(
    alloc: Global,
    tx: &Transaction,
    votes: &[Sealed],
) -> Result<Certificate, OutOfMemory>
    ensures { IfOk result (λ cert. cert ≡ certificate_of tx.now votes.now) }
{
    Ok(Certificate {
        tx: tx.copy()?,
        origins: first_origins(alloc, votes)?,
        seals: Seq::from_vec(seals_of(alloc, votes)?),
    })
}

/// The certificate of votes for a transaction; members that ascend, are distinct and are
/// known sealed them. It has the transaction, the origins that all of them name, and their seals in order. Or
/// the first reason why they make none.
pub fn collect(
    alloc: Global,
    tx: &Transaction,
    votes: &Seq<Sealed>,
    committee: &Committee,
) -> Result<Certificate, CollectRefusal>
    requires votes { Each (IsVoteFor tx.now) votes.now }
    requires roll { is_roll committee.now (voters votes.now) ≡ true }
    ensures exact { Gives result (certificate_of tx.now votes.now) (sealed_collected committee.now votes.now) }
    // Each vote is the statement that the seals of the certificate are over.
    ensures agree { IfOk result (λ cert. Each (λ vote. vote.statement ≡ vote_of cert) votes.now) }
    // The certificate is valid if the votes are sealed well and the transaction has a valid shape.
    ensures valid { IfOk result (λ cert. (rules : Rules) → rules.stakes ≡ committee.now → AreSound rules tx.now votes.now → cert_refusal rules cert ≡ None) }
{
    let members = voters(alloc, votes.as_slice())?;
    match collect_sealed(committee, &members, votes.as_slice()) {
        // Each member is the voter of a vote.
        Collected::Lacks(_) => unreachable!(),
        Collected::Short { weight, total } => Err(CollectRefusal::Short { weight, total }),
        Collected::Differ { a, b } => Err(CollectRefusal::Differ { a, b }),
        Collected::Whole => Ok(certificate_of(alloc, tx, votes.as_slice())?),
    }
}
