//! Answers to `end`, `ack` and `checkpoint`: what a member states, under its seal.

ghost use Rattle.std.specs.Prelude.{◌≡◌, IfOk, IfSome, IsErrOf, length, option_copied, option_map, slice_get, true};
ghost use Rattle.chain_messages.specs.Messages as messages;
ghost use Rattle.checkpoint_core.specs.Checkpoints.{checkpoint as checkpoint_codec};
ghost use Rattle.protocol_spec.specs.Member.Calls.{ack_answer, end_answer};
ghost use Rattle.protocol_spec.specs.Member.Member.{built};
ghost use Rattle.world_spec.specs.Seats.{rules_of_seat};
ghost use Rattle.validator_core.specs.Calls.{IsSealedBy};
ghost use Rattle.validator_process.specs.Says.{AckSays, CheckpointSays, EndSays, HearsAck, HearsEnd, IsOfSealed, ack_line, end_line, stated};
ghost use Rattle.process_lines.specs.Texts.{checkpoint_text, none_text};

use chain_messages::{Sealed, Statement, encode_statement};
use checkpoint_core::{Checkpoint, checkpoint_digest};
use digest_core::Digest;
use process_lines::{
    print_ack, print_ack_refusal, print_checkpoint, print_end, print_end_refusal, print_none,
};
use protocol_spec::{AckRefusal, EndRefusal};
use quorum_core::{Sealer, Signer};
use std::alloc::Global;
use validator_core::Validator;
use wire_bcs::{OutOfMemory, Seq};

/// The line for a member's answer to `end`, without its end.
fn end_text(alloc: Global, answer: &Result<Sealed, EndRefusal>) -> Result<Seq<u8>, OutOfMemory>
    requires short { IfOk answer.now messages.sealed.short }
    ensures { IfOk result (λ text. text ≡ end_line answer.now) }
{
    let mut out = Seq::new(alloc);
    match answer {
        Ok(sealed) => print_end(&mut out, sealed)?,
        Err(refusal) => print_end_refusal(&mut out, refusal)?,
    }
    Ok(out)
}

/// What a member that is up says of its End.
fn ask_end<S: Sealer>(
    validator: &Validator,
    sealer: &S,
) -> Result<Result<Sealed, EndRefusal>, OutOfMemory>
    requires up { validator.now.up ≡ true }
    ensures { IfOk result (HearsEnd (S.accepts sealer.now) validator.now.member (end_answer (rules_of_seat validator.now (S.accepts sealer.now)) validator.now.state)) }
{
    match validator.end(sealer) {
        Err(EndRefusal::OutOfMemory) => Err(OutOfMemory),
        Ok(sealed) => Ok(Ok(sealed)),
        Err(EndRefusal::Down) => Ok(Err(EndRefusal::Down)),
        Err(EndRefusal::Halted { first, second }) => {
            Ok(Err(EndRefusal::Halted { first, second }))
        }
        Err(EndRefusal::NotClosed) => Ok(Err(EndRefusal::NotClosed)),
        Err(EndRefusal::Waits { tx }) => Ok(Err(EndRefusal::Waits { tx })),
    }
}

/// Answers `end`: the member's End of its epoch, or why it says none.
#[tactic(auto, using(crate::proofs::Given::end_says, crate::proofs::Shorts::end_given_short))]
pub(crate) fn end<S: Sealer>(
    alloc: Global,
    validator: &Validator,
    sealer: &S,
) -> Result<Seq<u8>, OutOfMemory>
    requires up { validator.now.up ≡ true }
    ensures { IfOk result (EndSays (S.accepts sealer.now) validator.now.member (end_answer (rules_of_seat validator.now (S.accepts sealer.now)) validator.now.state)) }
{
    let answer = ask_end(validator, sealer)?;
    end_text(alloc, &answer)
}

/// The line for a member's answer to `ack`, without its end.
fn ack_text(alloc: Global, answer: &Result<Sealed, AckRefusal>) -> Result<Seq<u8>, OutOfMemory>
    requires short { IfOk answer.now messages.sealed.short }
    ensures { IfOk result (λ text. text ≡ ack_line answer.now) }
{
    let mut out = Seq::new(alloc);
    match answer {
        Ok(sealed) => print_ack(&mut out, sealed)?,
        Err(refusal) => print_ack_refusal(&mut out, refusal)?,
    }
    Ok(out)
}

/// What a member that is up says of a transaction that it may have executed.
fn ask_ack<S: Sealer>(
    validator: &Validator,
    sealer: &S,
    tx: &Digest,
) -> Result<Result<Sealed, AckRefusal>, OutOfMemory>
    requires up { validator.now.up ≡ true }
    ensures { IfOk result (HearsAck (S.accepts sealer.now) validator.now.member (ack_answer (rules_of_seat validator.now (S.accepts sealer.now)) validator.now.state tx.now)) }
{
    match validator.ack(sealer, tx) {
        Err(AckRefusal::OutOfMemory) => Err(OutOfMemory),
        Ok(sealed) => Ok(Ok(sealed)),
        Err(AckRefusal::Down) => Ok(Err(AckRefusal::Down)),
        Err(AckRefusal::Halted { first, second }) => {
            Ok(Err(AckRefusal::Halted { first, second }))
        }
        Err(AckRefusal::NotExecuted) => Ok(Err(AckRefusal::NotExecuted)),
    }
}

/// Answers `ack ID`: the member's acknowledgement of a transaction, or why it gives none.
#[tactic(auto, using(crate::proofs::Given::ack_says, crate::proofs::Shorts::ack_given_short))]
pub(crate) fn ack<S: Sealer>(
    alloc: Global,
    validator: &Validator,
    sealer: &S,
    tx: &Digest,
) -> Result<Seq<u8>, OutOfMemory>
    requires up { validator.now.up ≡ true }
    ensures { IfOk result (AckSays (S.accepts sealer.now) validator.now.member (ack_answer (rules_of_seat validator.now (S.accepts sealer.now)) validator.now.state tx.now)) }
{
    let answer = ask_ack(validator, sealer, tx)?;
    ack_text(alloc, &answer)
}

/// The member's statement of a checkpoint that it has built, under its seal.
#[tactic(auto, using(crate::proofs::Shorts::checkpoint_short, crate::proofs::Shorts::stated_short))]
fn stated<S: Sealer>(
    alloc: Global,
    checkpoint: &Checkpoint,
    member: u32,
    sealer: &S,
) -> Result<Sealed, OutOfMemory>
    requires { checkpoint_codec.short checkpoint.now }
    ensures said { IfOk result (λ s. s.statement ≡ stated checkpoint.now) }
    ensures by { IfOk result (IsSealedBy (S.accepts sealer.now) member) }
    ensures short { IfOk result messages.sealed.short }
{
    let digest = checkpoint_digest(alloc, checkpoint)?;
    let statement = Statement::Checkpoint {
        epoch: checkpoint.epoch,
        number: checkpoint.number,
        digest,
    };
    let bytes = encode_statement(alloc, &statement)?;
    let seal = sealer.seal(&Signer::Member(member), bytes.as_slice());
    Ok(Sealed {
        member,
        statement,
        seal,
    })
}

/// The text of a checkpoint, and of the member's statement of it. One of more than 2147483647 items counts as running out of memory.
fn stated_text<S: Sealer>(
    alloc: Global,
    checkpoint: &Checkpoint,
    member: u32,
    sealer: &S,
) -> Result<Seq<u8>, OutOfMemory>
    ensures { IfOk result (IsOfSealed (S.accepts sealer.now) member (stated checkpoint.now) (checkpoint_text checkpoint.now)) }
{
    if !checkpoint.is_short() {
        return Err(OutOfMemory);
    }
    let sealed = stated(alloc, checkpoint, member, sealer)?;
    let mut out = Seq::new(alloc);
    print_checkpoint(&mut out, checkpoint, &sealed)?;
    Ok(out)
}

/// The line `none`.
fn none_text(alloc: Global) -> Result<Seq<u8>, OutOfMemory>
    ensures { IfOk result (λ text. text ≡ none_text) }
{
    let mut out = Seq::new(alloc);
    print_none(&mut out)?;
    Ok(out)
}

/// Answers `checkpoint N`: a checkpoint that the member has built, and its statement of it.
pub(crate) fn checkpoint<S: Sealer>(
    alloc: Global,
    validator: &Validator,
    sealer: &S,
    member: u32,
    number: u64,
) -> Result<Seq<u8>, OutOfMemory>
    ensures { IfOk result (CheckpointSays (S.accepts sealer.now) member (slice_get (built validator.now.state) number)) }
{
    match validator.checkpoint(number) {
        Some(checkpoint) => stated_text(alloc, checkpoint, member, sealer),
        None => none_text(alloc),
    }
}
