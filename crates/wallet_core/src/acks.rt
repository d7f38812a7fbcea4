//! What acknowledgements make final.

ghost use Rattle.std.specs.Prelude.{◌≡◌, IfOk, None, true};
ghost use Rattle.quorum_core.specs.Committee.{is_roll};
ghost use Rattle.cert_rules.specs.Collect.{voters};
ghost use Rattle.cert_rules.specs.Finality.{AreAcks, IsFinality, acks_collected};
ghost use Rattle.wallet_core.specs.Gathering.{Gathers, is_ack, no_ack, unfit_acks, unlike_first, why_collected, why_not_final};

use crate::refusals::GatherRefusal;
use crate::votes::out_of_order;
use cert_rules::{CollectRefusal, Finality, collect_acks};
use chain_messages::{Sealed, Statement};
use digest_core::Digest;
use quorum_core::Committee;
use std::alloc::Global;
use wire_bcs::{OutOfMemory, Seq};

/// Whether the statement acknowledges this transaction in this epoch, with whatever effects.
fn is_ack(epoch: u64, digest: &Digest, statement: &Statement) -> bool
    ensures { result ≡ is_ack epoch digest.now statement.now }
{
    match statement {
        Statement::Ack { epoch: of, tx, .. } => *of == epoch && tx == digest,
        Statement::Vote { .. } | Statement::End { .. } | Statement::Checkpoint { .. } => false,
    }
}

/// The first statement that does not acknowledge this transaction in this epoch.
fn no_ack(epoch: u64, digest: &Digest, acks: &[Sealed]) -> Option<GatherRefusal>
    ensures { result ≡ no_ack epoch digest.now 0 acks.now }
{
    let mut rest = acks;
    let mut place = 0;
    while let [ack, after @ ..] = rest {
        if !is_ack(epoch, digest, &ack.statement) {
            return Some(GatherRefusal::NoAcknowledgement { place });
        }
        place += 1;
        rest = after;
    }
    None
}

/// The first statement that does not acknowledge what the first one does.
fn unlike_first(acks: &[Sealed]) -> Option<GatherRefusal>
    ensures { result ≡ unlike_first acks.now }
{
    match acks {
        [] => Some(GatherRefusal::NoAcknowledgement { place: 0 }),
        [first, ..] => match &first.statement {
            Statement::Ack { epoch, tx, .. } => no_ack(*epoch, tx, acks),
            Statement::Vote { .. } | Statement::End { .. } | Statement::Checkpoint { .. } => {
                Some(GatherRefusal::NoAcknowledgement { place: 0 })
            }
        },
    }
}

/// What is wrong with acknowledgements, whatever their stake is.
#[tactic(auto, unfolding(crate::specs::Gathering::unfit_acks))]
fn unfit_acks(
    alloc: Global,
    committee: &Committee,
    acks: &[Sealed],
) -> Result<Option<GatherRefusal>, OutOfMemory>
    ensures { IfOk result (λ why. why ≡ unfit_acks committee.now acks.now) }
{
    if let Some(refusal) = unlike_first(acks) {
        return Ok(Some(refusal));
    }
    out_of_order(alloc, committee, acks)
}

/// What is wrong with acknowledgements, whatever their stake is; if nothing is, they may be collected.
#[tactic(auto, using(crate::proofs::Fit::are_acks_of, crate::proofs::Fit::sealers_in_order))]
fn unfit_or_not(
    alloc: Global,
    committee: &Committee,
    acks: &[Sealed],
) -> Result<Option<GatherRefusal>, OutOfMemory>
    ensures why { IfOk result (λ why. why ≡ unfit_acks committee.now acks.now) }
    ensures acks { IfOk result (λ why. why ≡ None → AreAcks acks.now) }
    ensures roll { IfOk result (λ why. why ≡ None → is_roll committee.now (voters acks.now) ≡ true) }
{
    unfit_acks(alloc, committee, acks)
}

/// What acknowledgements with which nothing is wrong make final; their stake may be short, or they may differ.
fn collected(
    alloc: Global,
    acks: &Seq<Sealed>,
    committee: &Committee,
) -> Result<Finality, GatherRefusal>
    requires acks { AreAcks acks.now }
    requires roll { is_roll committee.now (voters acks.now) ≡ true }
    ensures { Gathers result (why_collected (acks_collected committee.now acks.now)) (IsFinality acks.now) }
{
    match collect_acks(alloc, acks, committee) {
        Ok(made) => Ok(made),
        Err(CollectRefusal::Short { weight, total }) => {
            Err(GatherRefusal::ShortStake { weight, total })
        }
        Err(CollectRefusal::Differ { a, b }) => Err(GatherRefusal::Differ { a, b }),
        Err(CollectRefusal::OutOfMemory) => Err(GatherRefusal::OutOfMemory),
    }
}

/// What acknowledgements of one transaction in one epoch make final (Sui Lutris): its effects, and the members that acknowledge
/// them. Or the first reason why they make nothing final: `NoAcknowledgement`, `Order`, `ShortStake` or `Differ`. Whether the
/// seals are accepted is for the caller to check.
#[tactic(auto, using(crate::proofs::Fit::unlike_said, crate::proofs::Fit::like_said))]
pub fn finality(
    alloc: Global,
    acks: &Seq<Sealed>,
    committee: &Committee,
) -> Result<Finality, GatherRefusal>
    ensures { Gathers result (why_not_final committee.now acks.now) (IsFinality acks.now) }
{
    if let Some(refusal) = unfit_or_not(alloc, committee, acks.as_slice())? {
        return Err(refusal);
    }
    collected(alloc, acks, committee)
}
