//! One link of a chain.

ghost use Rattle.std.specs.Prelude.{◌≡◌, ◌==◌, IfOk, option_map};
ghost use Rattle.chain_messages.specs.Messages.{statement};
ghost use Rattle.checkpoint_core.specs.Checkpoints.{checkpoint as codec, digest_of_checkpoint};
ghost use Rattle.checkpoint_core.specs.Links.{HasNext, link_answer};
ghost use Rattle.light_check.specs.Certified.{stated};
ghost use Rattle.light_check.specs.Causes.{all_accepted, cause_of, cause_of_link, epoch_behind, place_of_tip, tip_of};

use crate::cause::LinkCause;
use crate::chain::Link;
use chain_messages::{MemberSeal, Statement, encode_statement, members_of};
use checkpoint_core::{Checkpoint, LinkRefusal, check_link, checkpoint_digest};
use digest_core::Digest;
use quorum_core::{Checker, Committee, Signer};
use std::alloc::Global;
use wire_bcs::{OutOfMemory, Seq};

/// What a link leaves for the check of the next one.
#[derive(Clone, Copy, Debug, PartialEq, Eq)]
pub(crate) struct Tip {
    pub(crate) number: u64,
    pub(crate) digest: Digest,
    pub(crate) epoch: u64,
    pub(crate) last: bool,
}

/// The tip after a link with this checkpoint.
pub(crate) fn tip_of(alloc: Global, checkpoint: &Checkpoint) -> Result<Tip, OutOfMemory>
    requires { codec.short checkpoint.now }
    ensures { IfOk result (λ tip. tip ≡ tip_of checkpoint.now) }
{
    Ok(Tip {
        number: checkpoint.number,
        digest: checkpoint_digest(alloc, checkpoint)?,
        epoch: checkpoint.epoch,
        last: checkpoint.last,
    })
}

/// The number and the digest to go on from.
fn place_of_tip(tip: Option<Tip>) -> Option<(u64, Digest)>
    ensures { result ≡ option_map place_of_tip tip }
{
    match tip {
        Some(tip) => Some((tip.number, tip.digest)),
        None => None,
    }
}

/// The cause if the number or the parent is not the wanted one; none if both are.
fn cause_of_link(before: Option<(u64, Digest)>, checkpoint: &Checkpoint) -> Option<LinkCause>
    requires { HasNext before }
    ensures { result ≡ cause_of_link (link_answer before checkpoint.now) }
{
    match check_link(before, checkpoint) {
        Ok(()) => None,
        Err(LinkRefusal::WrongNumber { .. }) => Some(LinkCause::WrongNumber),
        Err(LinkRefusal::WrongParent { .. }) => Some(LinkCause::WrongParent),
    }
}

/// Whether an epoch is the one that comes after the tip.
fn is_next_epoch(before: Option<Tip>, epoch: u64) -> bool
    ensures { result ≡ (epoch == epoch_behind before) }
{
    match before {
        None => epoch == 0,
        Some(tip) => {
            if tip.last {
                epoch > 0 && epoch - 1 == tip.epoch
            } else {
                epoch == tip.epoch
            }
        }
    }
}

/// The bytes that a member seals for a checkpoint: the encoding of its statement.
#[tactic(auto, using(crate::proofs::Shorts::stated_short))]
pub(crate) fn stated(
    alloc: Global,
    checkpoint: &Checkpoint,
    digest: Digest,
) -> Result<Seq<u8>, OutOfMemory>
    requires { digest ≡ digest_of_checkpoint checkpoint.now }
    ensures { IfOk result (λ bytes. bytes ≡ stated checkpoint.now) }
{
    let statement = Statement::Checkpoint {
        epoch: checkpoint.epoch,
        number: checkpoint.number,
        digest,
    };
    encode_statement(alloc, &statement)
}

/// Whether each seal is accepted over the bytes.
fn all_accepted<C: Checker>(checker: &C, bytes: &[u8], seals: &[MemberSeal]) -> bool
    ensures { result ≡ all_accepted (C.accepts checker.now) bytes.now seals.now }
{
    let mut rest = seals;
    while let [seal, after @ ..] = rest {
        if !checker.check(&Signer::Member(seal.member), bytes, &seal.seal) {
            return false;
        }
        rest = after;
    }
    true
}

/// The first cause why a link does not go on from the tip under the seals of a quorum, if there is one.
#[tactic(auto, unfolding(crate::specs::Causes::cause_of))]
pub(crate) fn cause_of<C: Checker>(
    alloc: Global,
    committee: &Committee,
    checker: &C,
    before: Option<Tip>,
    link: &Link,
    digest: Digest,
) -> Result<Option<LinkCause>, OutOfMemory>
    requires digest { digest ≡ digest_of_checkpoint link.now.checkpoint }
    requires next { HasNext (option_map place_of_tip before) }
    ensures { IfOk result (λ cause. cause ≡ cause_of committee.now (C.accepts checker.now) before link.now) }
{
    if let Some(cause) = cause_of_link(place_of_tip(before), &link.checkpoint) {
        return Ok(Some(cause));
    }
    if !is_next_epoch(before, link.checkpoint.epoch) {
        return Ok(Some(LinkCause::WrongEpoch));
    }
    let members = members_of(alloc, link.seals.as_slice())?;
    if !committee.is_roll(&members) {
        return Ok(Some(LinkCause::Order));
    }
    if !committee.is_quorum(committee.weight(&members)) {
        return Ok(Some(LinkCause::ShortStake));
    }
    let bytes = stated(alloc, &link.checkpoint, digest)?;
    if !all_accepted(checker, bytes.as_slice(), link.seals.as_slice()) {
        return Ok(Some(LinkCause::BadSeal));
    }
    Ok(None)
}
