//! The calls that check what a quorum acknowledged.

ghost use Rattle.std.specs.Prelude.{◌≡◌, ◌==◌, false};
ghost use Rattle.light_client.specs.Accepted.{accepted_in};
ghost use Rattle.light_client.specs.Finality.{final_answer};
ghost use Rattle.light_client.specs.declared.finality.Acknowledged.{Acknowledged as AcknowledgedOf};
ghost use Rattle.kothaysu.specs.Answers.{Answered, Puts, Tells, for_committee, keyed, said};
ghost use Rattle.kothaysu.specs.Finals.{as_final};

use crate::answer::{Answer, Bytes32, as_bytes, said};
use light_client::{AcceptedSeals, Acknowledged, Checker, SealRow, check_final};
use quorum_core::{Committee, KeyedSeal};
use std::alloc::Global;

/// The effects of a transaction that a quorum acknowledged in an epoch.
#[repr(C)]
#[derive(Clone, Copy, Debug, PartialEq, Eq)]
pub struct Final {
    pub epoch: u64,
    pub tx: Bytes32,
    pub effects: Bytes32,
}

/// What a quorum acknowledged, in the struct that C reads.
fn as_final(acknowledged: Acknowledged) -> Final
    ensures { result ≡ as_final acknowledged }
{
    Final {
        epoch: acknowledged.epoch,
        tx: as_bytes(acknowledged.tx),
        effects: as_bytes(acknowledged.effects),
    }
}

/// What a quorum acknowledged under seals that the checker accepts.
fn acknowledged<C: Checker>(
    alloc: Global,
    stakes: &[u32],
    acknowledgements: &[u8],
    checker: &C,
) -> Result<Acknowledged, Answer>
    ensures { Answered result (for_committee stakes.now (λ s. final_answer s (C.accepts checker.now) acknowledgements.now)) }
{
    let committee = Committee::new(stakes)?;
    Ok(check_final(alloc, acknowledgements, &committee, checker)?)
}

/// What a quorum acknowledged under the keyed seals of this secret.
fn acknowledged_keyed(
    alloc: Global,
    stakes: &[u32],
    acknowledgements: &[u8],
    secret: &Bytes32,
) -> Result<Acknowledged, Answer>
    ensures { Answered result (for_committee stakes.now (λ s. final_answer s (keyed secret.now) acknowledgements.now)) }
{
    let sealer = KeyedSeal::new(secret.bytes);
    acknowledged(alloc, stakes, acknowledgements, &sealer)
}

/// Whether the list of sealed statements that the bytes encode shows what a quorum of the committee of these stakes
/// acknowledged, under seals that are among the accepted ones. Code 0: `found` is filled.
#[unsafe(no_mangle)]
pub extern "C" fn kothaysu_check_final(
    alloc: Global,
    stakes: &[u32],
    acknowledgements: &[u8],
    accepted: &[SealRow],
    statements: &[u8],
    found: &mut Final,
    answer: &mut Answer,
) -> u32
    ensures code { result ≡ answer.new.code }
    ensures told { Tells (λ (a : AcknowledgedOf). said 0 0 0 0) answer.new (for_committee stakes.now (λ s. final_answer s (accepted_in accepted.now statements.now) acknowledgements.now)) }
    ensures put { answer.new.code ≡ 0 → Puts as_final found.new (for_committee stakes.now (λ s. final_answer s (accepted_in accepted.now statements.now) acknowledgements.now)) }
    ensures kept { (answer.new.code == 0) ≡ false → found.new ≡ found.old }
{
    let seals = AcceptedSeals::new(accepted, statements);
    match acknowledged(alloc, stakes, acknowledgements, &seals) {
        Ok(it) => {
            *found = as_final(it);
            *answer = said(0, 0, 0, 0);
        }
        Err(why) => *answer = why,
    }
    answer.code
}

/// Whether the list of sealed statements that the bytes encode shows what a quorum of the committee of these stakes
/// acknowledged, under the keyed seals of this secret. Code 0: `found` is filled.
#[unsafe(no_mangle)]
pub extern "C" fn kothaysu_check_final_keyed(
    alloc: Global,
    stakes: &[u32],
    acknowledgements: &[u8],
    secret: &Bytes32,
    found: &mut Final,
    answer: &mut Answer,
) -> u32
    ensures code { result ≡ answer.new.code }
    ensures told { Tells (λ (a : AcknowledgedOf). said 0 0 0 0) answer.new (for_committee stakes.now (λ s. final_answer s (keyed secret.now) acknowledgements.now)) }
    ensures put { answer.new.code ≡ 0 → Puts as_final found.new (for_committee stakes.now (λ s. final_answer s (keyed secret.now) acknowledgements.now)) }
    ensures kept { (answer.new.code == 0) ≡ false → found.new ≡ found.old }
{
    match acknowledged_keyed(alloc, stakes, acknowledgements, secret) {
        Ok(it) => {
            *found = as_final(it);
            *answer = said(0, 0, 0, 0);
        }
        Err(why) => *answer = why,
    }
    answer.code
}
