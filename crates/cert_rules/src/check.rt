//! Which certificates are valid.

ghost use Rattle.std.specs.Prelude.{◌≡◌, ◌==◌, ◌≤◌, ℕ, Option, IfOk, length};
ghost use Rattle.chain_types.specs.Digests.{transaction_digest};
ghost use Rattle.chain_messages.specs.Messages.{statement};
ghost use Rattle.protocol_spec.specs.Chain.Words.{first_of, unless_refused};
ghost use Rattle.protocol_spec.specs.Chain.Keys.{objects_of};
ghost use Rattle.protocol_spec.specs.Chain.Certificates.{cert_refusal, vote_of, rules_of};
ghost use Rattle.cert_rules.specs.Answers.{Checks};
ghost use Rattle.cert_rules.specs.Parts.{member_refusal, object_refusal, refused_seal};

use chain_messages::{Certificate, MemberSeal, Statement, encode_statement, members_of};
use chain_types::{CertRefusal, object_count};
use digest_core::Digest;
use quorum_core::{Checker, Committee, Signer};
use std::alloc::Global;
use tx_check::{ShapeRefusal, check_shape};
use wire_bcs::{Duplicate, OutOfMemory, Seq};

/// The shape fault that only a certificate can have, after the twelve of its transaction: there is not one origin for
/// each object.
const WRONG_ORIGINS: u8 = 13;

/// Whether there is one origin for each object.
#[tactic(auto, unfolding(chain_types::specs::Digests::object_count))]
fn has_each_origin(cert: &Certificate) -> bool
    requires { length cert.now.tx.inputs ≤ 256 }
    ensures { result ≡ (length cert.now.origins == length (objects_of cert.now.tx)) }
{
    cert.origins.len() == object_count(&cert.tx) as u64
}

/// Whether the transaction has a valid shape, and one origin for each object.
#[tactic(auto, unfolding(crate::specs::Parts::object_refusal))]
fn check_objects(alloc: Global, cert: &Certificate) -> Result<(), CertRefusal>
    ensures refusal { Checks result (object_refusal cert.now) }
    ensures few { IfOk result (λ _. length cert.now.origins ≤ 257) }
{
    match check_shape(alloc, &cert.tx) {
        Err(ShapeRefusal::Invalid(fault)) => Err(CertRefusal::Shape(fault)),
        Err(ShapeRefusal::OutOfMemory) => Err(CertRefusal::OutOfMemory),
        Ok(()) => {
            if has_each_origin(cert) {
                Ok(())
            } else {
                Err(CertRefusal::Shape(WRONG_ORIGINS))
            }
        }
    }
}

/// Whether the members are in order, and are a quorum.
#[tactic(auto, unfolding(crate::specs::Parts::member_refusal))]
fn check_members(committee: &Committee, members: &[u32]) -> Result<(), CertRefusal>
    ensures { result ≡ unless_refused (member_refusal committee.now members.now) tt }
{
    if !committee.is_roll(members) {
        return Err(CertRefusal::Order);
    }
    let weight = committee.weight(members);
    if !committee.is_quorum(weight) {
        return Err(CertRefusal::ShortStake {
            weight,
            total: committee.total(),
        });
    }
    Ok(())
}

/// The encoding of the vote that the seals are over.
fn vote_bytes(alloc: Global, cert: &Certificate, digest: &Digest) -> Result<Seq<u8>, OutOfMemory>
    requires digest { digest.now ≡ transaction_digest cert.now.tx }
    requires few { length cert.now.origins ≤ 257 }
    ensures { IfOk result (λ bytes. bytes ≡ statement.spell (vote_of cert.now)) }
{
    let vote = Statement::Vote {
        epoch: cert.tx.epoch,
        tx: *digest,
        origins: cert.origins.copy()?,
    };
    encode_statement(alloc, &vote)
}

/// Whether each seal is accepted over the bytes, or the first that is not.
fn check_seals<C: Checker>(
    checker: &C,
    bytes: &[u8],
    seals: &[MemberSeal],
) -> Result<(), CertRefusal>
    ensures { result ≡ unless_refused (first_of (refused_seal (C.accepts checker.now) bytes.now) seals.now) tt }
{
    let mut rest = seals;
    while let [seal, after @ ..] = rest {
        let member = seal.member;
        if !checker.check(&Signer::Member(member), bytes, &seal.seal) {
            return Err(CertRefusal::BadSeal { member });
        }
        rest = after;
    }
    Ok(())
}

/// Whether a certificate of the committee is valid, or the first reason why it is not; `digest` is its
/// transaction's. The limit of writers plays no part. A transaction of any size may be given.
pub fn check_cert<C: Checker>(
    alloc: Global,
    cert: &Certificate,
    digest: &Digest,
    committee: &Committee,
    checker: &C,
) -> Result<(), CertRefusal>
    requires { digest.now ≡ transaction_digest cert.now.tx }
    ensures { (writers : Option ℕ) → Checks result (cert_refusal (rules_of committee.now writers (C.accepts checker.now)) cert.now) }
{
    check_objects(alloc, cert)?;
    let Ok(members) = members_of(alloc, cert.seals.as_slice()) else {
        return Err(CertRefusal::OutOfMemory);
    };
    check_members(committee, &members)?;
    let Ok(bytes) = vote_bytes(alloc, cert, digest) else {
        return Err(CertRefusal::OutOfMemory);
    };
    check_seals(checker, bytes.as_slice(), cert.seals.as_slice())
}
