//! Checking a certificate, from bytes.

ghost use Rattle.std.specs.Prelude.{◌≡◌, ℕ, IfOk, Ok};
ghost use Rattle.chain_types.specs.Digests.{transaction_digest};
ghost use Rattle.chain_messages.specs.Messages as codecs;
ghost use Rattle.digest_core.specs.declared.Digest.{Digest as DigestOf};
ghost use Rattle.protocol_spec.specs.Chain.Certificates.{vote_of};
ghost use Rattle.light_client.specs.Certificates.{SpellsCertificate, certificate_answer, certified_answer, of_certificate};
ghost use Rattle.light_client.specs.Input.{Answers};

use crate::input::read_input;
use crate::refusal::Refusal;
use cert_rules::{CertRefusal, check_cert};
use chain_messages::{Certificate, Statement, encode_statement};
use chain_types::tx_digest;
use digest_core::Digest;
use quorum_core::{Checker, Committee};
use std::alloc::Global;
use wire_bcs::{Duplicate, OutOfMemory, Seq};

/// The encoding of the vote that the seals of a certificate are over.
#[tactic(auto, using(crate::proofs::Votes::vote_short))]
pub(crate) fn vote_bytes(
    alloc: Global,
    cert: &Certificate,
    digest: Digest,
) -> Result<Seq<u8>, OutOfMemory>
    requires digest { digest ≡ transaction_digest cert.now.tx }
    requires short { codecs.certificate.short cert.now }
    ensures { IfOk result (λ bytes. bytes ≡ codecs.statement.spell (vote_of cert.now)) }
{
    let vote = Statement::Vote {
        epoch: cert.tx.epoch,
        tx: digest,
        origins: cert.origins.copy()?,
    };
    encode_statement(alloc, &vote)
}

/// The refusal of this crate for why a certificate is not valid.
fn of_certificate(refusal: CertRefusal) -> Refusal
    ensures { result ≡ of_certificate refusal }
{
    match refusal {
        CertRefusal::Shape(fault) => Refusal::Shape { fault },
        CertRefusal::Order => Refusal::Order,
        CertRefusal::ShortStake { weight, total } => Refusal::ShortStake { weight, total },
        CertRefusal::BadSeal { member } => Refusal::BadSeal { member },
        CertRefusal::OutOfMemory => Refusal::OutOfMemory,
    }
}

/// The digest and the epoch of the transaction of a valid certificate, or why it is not valid.
#[tactic(auto, using(crate::proofs::Votes::tx_short))]
fn certified<C: Checker>(
    alloc: Global,
    cert: &Certificate,
    committee: &Committee,
    checker: &C,
) -> Result<(Digest, u64), Refusal>
    requires { codecs.certificate.short cert.now }
    ensures { Answers result (certified_answer committee.now (C.accepts checker.now) cert.now) }
{
    let digest = tx_digest(alloc, &cert.tx)?;
    match check_cert(alloc, cert, &digest, committee, checker) {
        Ok(()) => Ok((digest, cert.tx.epoch)),
        Err(refusal) => Err(of_certificate(refusal)),
    }
}

/// The digest and the epoch of the transaction of the certificate that the bytes encode, if it is valid for the committee
/// under seals that the checker accepts (Sui Lutris); else why not: `TooLarge`, `Malformed`, `Shape`, `Order`,
/// `ShortStake` or `BadSeal`, the first of them.
#[tactic(auto, unfolding(crate::specs::Certificates::certificate_answer))]
pub fn check_certificate<C: Checker>(
    alloc: Global,
    bytes: &[u8],
    committee: &Committee,
    checker: &C,
) -> Result<(Digest, u64), Refusal>
    ensures exact { Answers result (certificate_answer committee.now (C.accepts checker.now) bytes.now) }
    // What is passed is encoded by these bytes, and is valid.
    ensures valid { (tx : DigestOf) (epoch : ℕ) → result ≡ Ok (tx, epoch) → SpellsCertificate committee.now (C.accepts checker.now) bytes.now tx epoch }
{
    let cert: Certificate = read_input(alloc, bytes)?;
    let answer = certified(alloc, &cert, committee, checker);
    drop(cert);
    answer
}
