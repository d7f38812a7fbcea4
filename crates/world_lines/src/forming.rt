//! Forming the certificate of members that vote for the same origins.

ghost use Rattle.std.specs.Prelude.{◌≡◌, ◌≤◌, IfOk, length, map};
ghost use Rattle.chain_messages.specs.Messages as codecs;
ghost use Rattle.chain_types.specs.Transactions as tx_codecs;
ghost use Rattle.world_spec.specs.Setting.{seal_of_member};
ghost use Rattle.world_spec.specs.World.{list_or_none};
ghost use Rattle.world_spec.specs.Step.{certificate_of, collected_seal, vote_statement};
ghost use Rattle.world_lines.specs.KnownRows.{made_as};
ghost use Rattle.world_lines.specs.Forming.{first_origins_by, vote_bytes};
ghost use Rattle.world_lines.specs.SaidVotes.{vote_by};

use crate::said::StatementLog;
use crate::{FormedCertificate, MadeTx, MakesSeals};
use chain_messages::{MemberSeal, Statement, encode_statement};
use digest_core::Digest;
use quorum_core::Signer;
use std::alloc::Global;
use wire_bcs::{OutOfMemory, Seq};

/// The greatest length of a list that can be encoded.
const LONGEST_LIST: u64 = 2147483647;

/// The bytes that a voter for a transaction seals. More than 2147483647 origins have no encoding, which is reported as out
/// of memory.
#[tactic(auto, using(crate::proofs::Spelled::vote_short))]
fn vote_bytes(
    alloc: Global,
    made: &MadeTx,
    origins: &[Option<Digest>],
) -> Result<Seq<u8>, OutOfMemory>
    ensures { IfOk result (λ bytes. bytes ≡ vote_bytes (made_as made.now) origins.now) }
{
    if origins.len() as u64 > LONGEST_LIST {
        return Err(OutOfMemory);
    }
    let vote = Statement::Vote {
        epoch: made.signed.value().tx.epoch,
        tx: made.digest,
        origins: Seq::from_slice(alloc, origins)?,
    };
    encode_statement(alloc, &vote)
}

/// The seal of a member on its vote for a transaction. More than 2147483647 origins have no encoding, which is reported as
/// out of memory.
pub fn vote_seal<S: MakesSeals>(
    alloc: Global,
    sealer: &S,
    made: &MadeTx,
    origins: &[Option<Digest>],
    member: u32,
) -> Result<Digest, OutOfMemory>
    ensures { IfOk result (λ seal. seal ≡ seal_of_member (S.made sealer.now) member (vote_statement made.now.signed.tx made.now.digest origins.now)) }
{
    let bytes = vote_bytes(alloc, made, origins)?;
    Ok(sealer.make_seal(&Signer::Member(member), bytes.as_slice()))
}

/// The seal that a member put on its last vote for a transaction; zeros if it made none. Takes no memory.
fn collected_seal(said: &StatementLog, made: &MadeTx, member: u32) -> MemberSeal
    ensures { result ≡ collected_seal said.now (made_as made.now) member }
{
    let epoch = made.signed.value().tx.epoch;
    let seal = match said.last_seal(member, epoch, &made.digest) {
        Some(seal) => seal,
        None => Digest([0; 32]),
    };
    MemberSeal { member, seal }
}

/// The seals of the last votes of members for a transaction, in the order of the members.
fn collected_seals(
    alloc: Global,
    said: &StatementLog,
    made: &MadeTx,
    members: &[u32],
) -> Result<Vec<MemberSeal>, OutOfMemory>
    ensures { IfOk result (λ seals. seals.items ≡ map (collected_seal said.now (made_as made.now)) members.now) }
{
    Ok(
        members
            .iter()
            .map(|member| collected_seal(said, made, *member))
            .collect(alloc)?,
    )
}

/// The certificate of these members' votes for a transaction, which name these origins.
#[tactic(auto, using(crate::proofs::Spelled::certificate_short))]
fn certificate(
    alloc: Global,
    said: &StatementLog,
    made: &MadeTx,
    origins: Seq<Option<Digest>>,
    members: &[u32],
) -> Result<FormedCertificate, OutOfMemory>
    requires tx { tx_codecs.signed.short made.now.signed }
    requires origins { length origins ≤ 2147483647 }
    requires members { length members.now ≤ 2147483647 }
    ensures cert { IfOk result (λ cert. cert ≡ certificate_of said.now (made_as made.now) origins members.now) }
    ensures short { IfOk result (λ cert. codecs.certificate.short cert) }
{
    let seals = collected_seals(alloc, said, made, members)?;
    FormedCertificate::new(alloc, made.signed.share()?, origins, Seq::from_vec(seals))
}

/// The origins that a member voted for last; none if it made no such vote.
fn voted_origins(
    alloc: Global,
    said: &StatementLog,
    epoch: u64,
    tx: &Digest,
    member: u32,
) -> Result<Seq<Option<Digest>>, OutOfMemory>
    ensures { IfOk result (λ origins. origins ≡ list_or_none (vote_by said.now epoch tx.now member)) }
{
    match said.last_vote(member, epoch, tx) {
        Some(origins) => Seq::from_slice(alloc, origins.as_slice()),
        None => Ok(Seq::new(alloc)),
    }
}

/// The origins that the first of the members voted for; none if there is no member or no vote.
#[tactic(auto, using(crate::proofs::Spelled::first_of_none, crate::proofs::Spelled::first_of_some))]
fn first_origins(
    alloc: Global,
    said: &StatementLog,
    epoch: u64,
    tx: &Digest,
    members: &[u32],
) -> Result<Seq<Option<Digest>>, OutOfMemory>
    ensures { IfOk result (λ origins. origins ≡ first_origins_by said.now epoch tx.now members.now) }
{
    match members {
        [] => Ok(Seq::new(alloc)),
        [member, ..] => voted_origins(alloc, said, epoch, tx, *member),
    }
}

/// The certificate of the votes of these members, with the seals that they put on them, which can be encoded. Lists that
/// are too long for that count as running out of memory.
pub fn certify(
    alloc: Global,
    said: &StatementLog,
    made: &MadeTx,
    members: &[u32],
) -> Result<FormedCertificate, OutOfMemory>
    requires { tx_codecs.signed.short made.now.signed }
    ensures cert { IfOk result (λ cert. cert ≡ certificate_of said.now (made_as made.now) (first_origins_by said.now made.now.signed.tx.epoch made.now.digest members.now) members.now) }
    ensures short { IfOk result (λ cert. codecs.certificate.short cert) }
{
    let epoch = made.signed.value().tx.epoch;
    let origins = first_origins(alloc, said, epoch, &made.digest, members)?;
    if origins.len() > LONGEST_LIST || members.len() as u64 > LONGEST_LIST {
        return Err(OutOfMemory);
    }
    certificate(alloc, said, made, origins, members)
}
