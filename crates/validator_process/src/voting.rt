//! Answers to `vote` and `hold`.

ghost use Rattle.std.specs.Prelude.{◌≡◌, ◌++◌, ◌<◌, ◌≤◌, IfOk, IsErrOf, OnOk, true};
ghost use Rattle.chain_messages.specs.Messages as messages;
ghost use Rattle.outside.specs.Causes.{Rose};
ghost use Rattle.protocol_spec.specs.Member.Calls.{due, hold_answer, holds, vote_answer, votes};
ghost use Rattle.world_spec.specs.Posts.{seat_behind};
ghost use Rattle.world_spec.specs.Seats.{rules_of_seat};
ghost use Rattle.world_core.specs.Replies.{Leaves};
ghost use Rattle.world_core.specs.declared.reply.SeatFault.TheVariants as faults;
ghost use Rattle.validator_process.specs.Says.{VoteSays, certified, hold_line, vote_line};

use chain_messages::decode_certificate;
use chain_types::{Unread, tx_digest};
use digest_core::Digest;
use outside::Keeper;
use process_lines::{print_held, print_hold_refusal, print_vote_refusal, print_voted};
use protocol_spec::{HoldRefusal, VoteRefusal, Voted};
use quorum_core::Sealer;
use std::alloc::Global;
use validator_core::Validator;
use wire_bcs::{OutOfMemory, Seq};
use world_core::{SeatFault, ask_hold, ask_vote};

/// The line for a member's answer to `vote`, without its end.
fn vote_text(alloc: Global, answer: &Result<Voted, VoteRefusal>) -> Result<Seq<u8>, OutOfMemory>
    requires short { IfOk answer.now (λ v. messages.sealed.short v.sealed) }
    ensures { IfOk result (λ text. text ≡ vote_line answer.now) }
{
    let mut out = Seq::new(alloc);
    match answer {
        Ok(voted) => print_voted(&mut out, voted)?,
        Err(refusal) => print_vote_refusal(&mut out, refusal)?,
    }
    Ok(out)
}

/// Answers `vote SIGNED_TX`: the member's vote, or why it gives none.
#[tactic(auto, using(crate::proofs::Given::vote_says, crate::proofs::Shorts::voted_short))]
pub(crate) fn vote<D: Keeper, S: Sealer>(
    alloc: Global,
    validator: &mut Validator,
    keeper: &mut D,
    sealer: &S,
    bytes: &[u8],
) -> Result<Seq<u8>, SeatFault>
    requires known { validator.old.member < D.width keeper.old }
    requires up { validator.old.up ≡ true }
    ensures says { IfOk result (VoteSays (S.accepts sealer.now) validator.old.member (vote_answer (rules_of_seat validator.old (S.accepts sealer.now)) validator.old.state bytes.now)) }
    ensures state { OnOk result (validator.new ≡ seat_behind (rules_of_seat validator.old (S.accepts sealer.now)) (votes bytes.now) validator.old) }
    ensures kept { Leaves (D.lists keeper.old) (D.lists keeper.new) validator.old.member (due (rules_of_seat validator.old (S.accepts sealer.now)) validator.old.state (votes bytes.now)) result }
    ensures width { D.width keeper.new ≡ D.width keeper.old }
    ensures later { D.failed keeper.old ≤ D.failed keeper.new }
    ensures fault { IsErrOf result faults.KeepFault → Rose (D.failed keeper.old) (D.failed keeper.new) }
{
    let answer = ask_vote(validator, keeper, sealer, bytes)?;
    match vote_text(alloc, &answer) {
        Ok(text) => Ok(text),
        Err(OutOfMemory) => Err(SeatFault::OutOfMemory),
    }
}

/// The transaction of the certificate that the bytes encode; none if they encode none.
#[tactic(auto, unfolding(protocol_spec::specs::Chain::Certificates::read_certificate, chain_messages::specs::Messages::certificate))]
fn certified(alloc: Global, bytes: &[u8]) -> Result<Option<Digest>, OutOfMemory>
    ensures { IfOk result (λ tx. tx ≡ certified bytes.now) }
{
    match decode_certificate(alloc, bytes) {
        Ok(cert) => Ok(Some(tx_digest(alloc, &cert.tx)?)),
        Err(Unread::Wire(_)) => Ok(None),
        Err(Unread::OutOfMemory) => Err(OutOfMemory),
    }
}

/// The line for a member's answer to `hold`, without its end.
fn hold_text(
    alloc: Global,
    answer: &Result<bool, HoldRefusal>,
    tx: Option<Digest>,
) -> Result<Seq<u8>, OutOfMemory>
    ensures { IfOk result (λ text. text ≡ hold_line tx answer.now) }
{
    let mut out = Seq::new(alloc);
    match answer {
        Ok(new) => print_held(&mut out, *new, tx)?,
        Err(refusal) => print_hold_refusal(&mut out, refusal)?,
    }
    Ok(out)
}

/// Answers `hold CERTIFICATE`: hands the certificate to the member.
#[tactic(auto, using(crate::proofs::Given::hold_says, validator_core::proofs::Settling::keeps_same))]
pub(crate) fn hold<D: Keeper, S: Sealer>(
    alloc: Global,
    validator: &mut Validator,
    keeper: &mut D,
    sealer: &S,
    bytes: &[u8],
) -> Result<Seq<u8>, SeatFault>
    requires known { validator.old.member < D.width keeper.old }
    requires up { validator.old.up ≡ true }
    ensures says { IfOk result (λ text. text ≡ hold_line (certified bytes.now) (hold_answer (rules_of_seat validator.old (S.accepts sealer.now)) validator.old.state bytes.now)) }
    ensures state { OnOk result (validator.new ≡ seat_behind (rules_of_seat validator.old (S.accepts sealer.now)) (holds bytes.now) validator.old) }
    ensures kept { Leaves (D.lists keeper.old) (D.lists keeper.new) validator.old.member (due (rules_of_seat validator.old (S.accepts sealer.now)) validator.old.state (holds bytes.now)) result }
    ensures width { D.width keeper.new ≡ D.width keeper.old }
    ensures later { D.failed keeper.old ≤ D.failed keeper.new }
    ensures fault { IsErrOf result faults.KeepFault → Rose (D.failed keeper.old) (D.failed keeper.new) }
{
    let Ok(tx) = certified(alloc, bytes) else {
        return Err(SeatFault::OutOfMemory);
    };
    let answer = ask_hold(validator, keeper, sealer, bytes)?;
    match hold_text(alloc, &answer, tx) {
        Ok(text) => Ok(text),
        Err(OutOfMemory) => Err(SeatFault::OutOfMemory),
    }
}
