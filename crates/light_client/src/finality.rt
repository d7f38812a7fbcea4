//! Checking what a quorum acknowledged, from bytes.

ghost use Rattle.std.specs.Prelude.{◌≡◌, ℕ, IfOk, Ok, map};
ghost use Rattle.wire_bcs.specs.Shapes.{seq};
ghost use Rattle.chain_messages.specs.Messages as codecs;
ghost use Rattle.protocol_spec.specs.Chain.Words.{first_of};
ghost use Rattle.light_client.specs.declared.finality.Acknowledged.{Acknowledged as AcknowledgedOf};
ghost use Rattle.light_client.specs.Finality.{AllShort, SpellsFinal, acknowledged_in, acknowledged_or, bad_seal, differing, differs_from, final_answer, final_of, first_acknowledged, is_other, no_acknowledgement, sealers, why_not_final, why_unsealed};
ghost use Rattle.light_client.specs.Input.{Answers};

use crate::input::read_input;
use crate::refusal::Refusal;
use chain_messages::{Sealed, Statement, encode_statement};
use digest_core::Digest;
use quorum_core::{Checker, Committee, Signer};
use std::alloc::Global;
use wire_bcs::{OutOfMemory, Seq};

/// The effects of a transaction that members acknowledge in an epoch.
#[derive(Clone, Copy, Debug, PartialEq, Eq)]
pub struct Acknowledged {
    pub epoch: u64,
    pub tx: Digest,
    pub effects: Digest,
}

/// What a statement acknowledges.
fn acknowledged_in(statement: &Statement) -> Option<Acknowledged>
    ensures { result ≡ acknowledged_in statement.now }
{
    match statement {
        Statement::Ack { epoch, tx, effects } => Some(Acknowledged {
            epoch: *epoch,
            tx: *tx,
            effects: *effects,
        }),
        Statement::Vote { .. } | Statement::End { .. } | Statement::Checkpoint { .. } => None,
    }
}

/// The first statement that is not an acknowledgement.
fn no_acknowledgement(said: &[Sealed]) -> Option<Refusal>
    ensures { result ≡ no_acknowledgement 0 said.now }
{
    let mut rest = said;
    let mut place = 0;
    while let [sealed, after @ ..] = rest {
        if acknowledged_in(&sealed.statement).is_none() {
            return Some(Refusal::NoAcknowledgement { place });
        }
        place += 1;
        rest = after;
    }
    None
}

/// The members that sealed, in the order of the statements.
fn sealers(alloc: Global, said: &[Sealed]) -> Result<Vec<u32>, OutOfMemory>
    ensures { IfOk result (λ members. members.items ≡ sealers said.now) }
{
    Ok(said.iter().map(|sealed| sealed.member).collect(alloc)?)
}

/// Whether two statements acknowledge different things.
fn is_other(first: &Statement, statement: &Statement) -> bool
    ensures { result ≡ is_other (acknowledged_in first.now) (acknowledged_in statement.now) }
{
    match acknowledged_in(first) {
        Some(a) => match acknowledged_in(statement) {
            Some(b) => !(a.epoch == b.epoch && a.tx == b.tx && a.effects == b.effects),
            None => false,
        },
        None => false,
    }
}

/// The first of these that acknowledges something else than the given one.
fn first_other(first: &Sealed, said: &[Sealed]) -> Option<Refusal>
    ensures { result ≡ first_of (differs_from first.now) said.now }
{
    let mut rest = said;
    while let [sealed, after @ ..] = rest {
        if is_other(&first.statement, &sealed.statement) {
            return Some(Refusal::Differ {
                a: first.member,
                b: sealed.member,
            });
        }
        rest = after;
    }
    None
}

/// The first statement that acknowledges something else than the first one.
fn differing(said: &[Sealed]) -> Option<Refusal>
    ensures { result ≡ differing said.now }
{
    match said {
        [] => None,
        [first, others @ ..] => first_other(first, others),
    }
}

/// The seal of a statement, if it is not accepted.
fn bad_seal<C: Checker>(
    alloc: Global,
    checker: &C,
    sealed: &Sealed,
) -> Result<Option<Refusal>, OutOfMemory>
    requires { codecs.sealed.short sealed.now }
    ensures { IfOk result (λ bad. bad ≡ bad_seal (C.accepts checker.now) sealed.now) }
{
    let bytes = encode_statement(alloc, &sealed.statement)?;
    let member = sealed.member;
    if checker.check(&Signer::Member(member), bytes.as_slice(), &sealed.seal) {
        return Ok(None);
    }
    Ok(Some(Refusal::BadSeal { member }))
}

/// The first seal that is not accepted over its statement.
fn first_bad_seal<C: Checker>(
    alloc: Global,
    checker: &C,
    said: &[Sealed],
) -> Result<Option<Refusal>, OutOfMemory>
    requires { AllShort said.now }
    ensures { IfOk result (λ bad. bad ≡ first_of (bad_seal (C.accepts checker.now)) said.now) }
{
    let mut rest = said;
    while let [sealed, after @ ..] = rest {
        if let Some(refusal) = bad_seal(alloc, checker, sealed)? {
            return Ok(Some(refusal));
        }
        rest = after;
    }
    Ok(None)
}

/// What is wrong with the members of the statements, and with what they acknowledge.
#[tactic(auto, unfolding(crate::specs::Finality::why_unsealed))]
fn why_unsealed(said: &[Sealed], members: &[u32], committee: &Committee) -> Option<Refusal>
    requires { members.now ≡ sealers said.now }
    ensures { result ≡ why_unsealed committee.now said.now }
{
    if let Some(refusal) = no_acknowledgement(said) {
        return Some(refusal);
    }
    if !committee.is_roll(members) {
        return Some(Refusal::Order);
    }
    let weight = committee.weight(members);
    if !committee.is_quorum(weight) {
        return Some(Refusal::ShortStake {
            weight,
            total: committee.total(),
        });
    }
    differing(said)
}

/// Why these acknowledgements show nothing.
#[tactic(auto, unfolding(crate::specs::Finality::why_not_final))]
fn why_not_final<C: Checker>(
    alloc: Global,
    said: &[Sealed],
    committee: &Committee,
    checker: &C,
) -> Result<Option<Refusal>, OutOfMemory>
    requires { AllShort said.now }
    ensures { IfOk result (λ why. why ≡ why_not_final committee.now (C.accepts checker.now) said.now) }
{
    let members = sealers(alloc, said)?;
    if let Some(refusal) = why_unsealed(said, &members, committee) {
        return Ok(Some(refusal));
    }
    first_bad_seal(alloc, checker, said)
}

/// What the first statement acknowledges.
fn first_acknowledged(said: &[Sealed]) -> Option<Acknowledged>
    ensures { result ≡ first_acknowledged said.now }
{
    match said {
        [] => None,
        [first, ..] => acknowledged_in(&first.statement),
    }
}

/// What all statements acknowledge, if nothing is wrong with them; else what is wrong. An empty list has too little
/// stake.
fn acknowledged_or(
    why: Option<Refusal>,
    first: Option<Acknowledged>,
) -> Result<Acknowledged, Refusal>
    ensures { result ≡ acknowledged_or why first }
{
    if let Some(refusal) = why {
        return Err(refusal);
    }
    match first {
        Some(acknowledged) => Ok(acknowledged),
        None => Err(Refusal::ShortStake {
            weight: 0,
            total: 0,
        }),
    }
}

/// What all statements acknowledge, or why they show nothing.
#[tactic(auto, using(crate::proofs::Final::all_short))]
fn final_of<C: Checker>(
    alloc: Global,
    said: &Seq<Sealed>,
    committee: &Committee,
    checker: &C,
) -> Result<Acknowledged, Refusal>
    requires { (seq codecs.sealed).short said.now }
    ensures { Answers result (final_of committee.now (C.accepts checker.now) said.now) }
{
    let why = why_not_final(alloc, said.as_slice(), committee, checker)?;
    acknowledged_or(why, first_acknowledged(said.as_slice()))
}

/// The effects that a quorum of the committee acknowledges in the list of sealed statements that the bytes encode, under
/// seals that the checker accepts (Sui Lutris); else why they show none: `TooLarge`, `Malformed`,
/// `NoAcknowledgement`, `Order`, `ShortStake`, `Differ` or `BadSeal`, the first of them.
#[tactic(auto, unfolding(crate::specs::Finality::final_answer))]
pub fn check_final<C: Checker>(
    alloc: Global,
    bytes: &[u8],
    committee: &Committee,
    checker: &C,
) -> Result<Acknowledged, Refusal>
    ensures exact { Answers result (final_answer committee.now (C.accepts checker.now) bytes.now) }
    // What is passed is encoded by these bytes, and a quorum acknowledges it.
    ensures acknowledged { (a : AcknowledgedOf) → result ≡ Ok a → SpellsFinal committee.now (C.accepts checker.now) bytes.now a }
{
    let said: Seq<Sealed> = read_input(alloc, bytes)?;
    let answer = final_of(alloc, &said, committee, checker);
    drop(said);
    answer
}
