//! Who is to blame for two certificates, from bytes.

ghost use Rattle.std.specs.Prelude.{◌≡◌};
ghost use Rattle.chain_messages.specs.Messages as codecs;
ghost use Rattle.protocol_spec.specs.Chain.Words.{and_then};
ghost use Rattle.light_client.specs.Blaming.{blame_answer, blamed_answer};
ghost use Rattle.light_client.specs.Input.{Answers, input};

use crate::input::read_input;
use crate::refusal::Refusal;
use chain_messages::Certificate;
use light_check::{DoubleVote, blame};
use std::alloc::Global;
use wire_bcs::OutOfMemory;

/// Who is to blame for two decoded certificates; `NoRivals` if nobody is.
#[tactic(auto, using(crate::proofs::Votes::tx_short))]
fn blamed(alloc: Global, one: &Certificate, other: &Certificate) -> Result<DoubleVote, Refusal>
    requires one { codecs.certificate.short one.now }
    requires other { codecs.certificate.short other.now }
    ensures { Answers result (blamed_answer one.now other.now) }
{
    match blame(alloc, one, other) {
        Ok(Some(both)) => Ok(both),
        Ok(None) => Err(Refusal::NoRivals),
        Err(OutOfMemory) => Err(Refusal::OutOfMemory),
    }
}

/// Who is to blame for a certificate and the one that the bytes encode.
fn blamed_with(alloc: Global, one: &Certificate, other: &[u8]) -> Result<DoubleVote, Refusal>
    requires { codecs.certificate.short one.now }
    ensures { Answers result (and_then (input codecs.certificate other.now) (blamed_answer one.now)) }
{
    let other: Certificate = read_input(alloc, other)?;
    let answer = blamed(alloc, one, &other);
    drop(other);
    answer
}

/// The first version that the transactions of the two encoded certificates both consume, if these are two
/// transactions of one epoch, and the members whose seals stand under both certificates; else why there is none:
/// `TooLarge` or `Malformed` of the first and then of the second, or `NoRivals`. It says nothing of whether they are valid: if both
/// are, and no honest member's seal is forged, none of these members is honest, and they have more than a third of the
/// stake.
#[tactic(auto, unfolding(crate::specs::Blaming::blame_answer))]
pub fn blame_members(alloc: Global, one: &[u8], other: &[u8]) -> Result<DoubleVote, Refusal>
    ensures { Answers result (blame_answer one.now other.now) }
{
    let one: Certificate = read_input(alloc, one)?;
    let answer = blamed_with(alloc, &one, other);
    drop(one);
    answer
}
