//! How acknowledgements make a transaction final.

ghost use Rattle.std.specs.Prelude.{◌≡◌, IfOk, option_copied, true};
ghost use Rattle.quorum_core.specs.Committee.{is_roll};
ghost use Rattle.cert_rules.specs.Collecting.{collected_as};
ghost use Rattle.cert_rules.specs.Collect.{vote_by, voters};
ghost use Rattle.cert_rules.specs.Finality.{AreAcks, MakesFinal, acked, acks_collected, effects_in, first_acked, same_ack};

use crate::collecting::{Collected, LastWords, collect_words};
use crate::votes::{CollectRefusal, vote_by, voters};
use chain_messages::{Sealed, Statement};
use digest_core::Digest;
use quorum_core::Committee;
use std::alloc::Global;
use wire_bcs::{OutOfMemory, Seq};

/// A transaction that a quorum acknowledged in an epoch, with the digest of its effects, and the members that did, by
/// ascending number.
#[derive(Debug, Drop)]
pub struct Finality {
    pub epoch: u64,
    pub tx: Digest,
    pub effects: Digest,
    pub members: Seq<u32>,
}

/// The digest of the effects that an acknowledgement names; a digest of zeros for any other statement.
fn effects_in(statement: &Statement) -> Digest
    ensures { result ≡ effects_in statement.now }
{
    match statement {
        Statement::Ack { effects, .. } => *effects,
        Statement::Vote { .. } | Statement::End { .. } | Statement::Checkpoint { .. } => {
            Digest([0; 32])
        }
    }
}

/// The epoch, the transaction and the effects of an acknowledgement; none for any other statement. Takes no memory.
fn acked(statement: &Statement) -> Option<(u64, Digest, Digest)>
    ensures { result ≡ acked statement.now }
{
    match statement {
        Statement::Ack { epoch, tx, effects } => Some((*epoch, *tx, *effects)),
        Statement::Vote { .. } | Statement::End { .. } | Statement::Checkpoint { .. } => None,
    }
}

/// The epoch, the transaction and the effects of the first acknowledgement; none if there are no acknowledgements.
/// Takes no memory.
fn first_acked(acks: &[Sealed]) -> Option<(u64, Digest, Digest)>
    ensures { result ≡ first_acked acks.now }
{
    match acks {
        [] => None,
        [first, ..] => acked(&first.statement),
    }
}

/// Sealed acknowledgements as [`LastWords`]: each member has only one, which is its last word.
#[derive(Clone, Copy)]
struct SealedAcks<'a> {
    acks: &'a [Sealed],
}

impl LastWords for SealedAcks<'_> {
    type Word = Sealed;

    ghost same = { same_ack };

    ghost reads = { λ w m. vote_by w.acks.now m };

    fn last_word(&self, member: u32) -> Option<&Sealed> {
        vote_by(self.acks, member)
    }

    fn are_same(a: &Sealed, b: &Sealed) -> bool
        ensures { result ≡ same_ack a.now b.now }
    {
        effects_in(&a.statement) == effects_in(&b.statement)
    }
}

/// What the acknowledgements of these members give together. Takes no memory.
#[tactic(auto, unfolding(crate::specs::Finality::acks_collected))]
fn collect_sealed(committee: &Committee, members: &[u32], acks: &[Sealed]) -> Collected
    requires { members.now ≡ voters acks.now }
    ensures { collected_as result ≡ acks_collected committee.now acks.now }
{
    collect_words(&SealedAcks { acks }, committee, members)
}

/// What acknowledgements of one transaction in one epoch make final (finality of Sui Lutris). The members that sealed
/// them ascend, are distinct and are known. Refusals in order: `Short` if their stake is not a quorum, `Differ` with
/// the first member and the first other whose effects have another digest. Whether the seals are accepted is for the
/// caller to check.
#[tactic(auto, using(crate::proofs::Acking::first_is))]
pub fn collect_acks(
    alloc: Global,
    acks: &Seq<Sealed>,
    committee: &Committee,
) -> Result<Finality, CollectRefusal>
    requires acks { AreAcks acks.now }
    requires roll { is_roll committee.now (voters acks.now) ≡ true }
    ensures { MakesFinal result acks.now (acks_collected committee.now acks.now) }
{
    let members = voters(alloc, acks.as_slice())?;
    match collect_sealed(committee, &members, acks.as_slice()) {
        // Each of these members has an acknowledgement.
        Collected::Lacks(_) => unreachable!(),
        Collected::Short { weight, total } => Err(CollectRefusal::Short { weight, total }),
        Collected::Differ { a, b } => Err(CollectRefusal::Differ { a, b }),
        Collected::Whole => match first_acked(acks.as_slice()) {
            Some((epoch, tx, effects)) => Ok(Finality {
                epoch,
                tx,
                effects,
                members: Seq::from_vec(members),
            }),
            // There is at least one acknowledgement.
            None => unreachable!(),
        },
    }
}
