//! The calls that check a certificate.

ghost use Rattle.std.specs.Prelude.{◌≡◌, ◌==◌, ℕ, false};
ghost use Rattle.digest_core.specs.declared.Digest.{Digest as DigestOf};
ghost use Rattle.light_client.specs.Accepted.{accepted_in};
ghost use Rattle.light_client.specs.Certificates.{certificate_answer};
ghost use Rattle.kothaysu.specs.Answers.{Answered, Puts, Tells, as_bytes, for_committee, keyed, said};

use crate::answer::{Answer, Bytes32, as_bytes, said};
use digest_core::Digest;
use light_client::{AcceptedSeals, Checker, SealRow, check_certificate};
use quorum_core::{Committee, KeyedSeal};
use std::alloc::Global;

/// The digest and the epoch of the transaction of a certificate that is valid under seals that the checker accepts.
fn certified<C: Checker>(
    alloc: Global,
    stakes: &[u32],
    certificate: &[u8],
    checker: &C,
) -> Result<(Digest, u64), Answer>
    ensures { Answered result (for_committee stakes.now (λ s. certificate_answer s (C.accepts checker.now) certificate.now)) }
{
    let committee = Committee::new(stakes)?;
    Ok(check_certificate(alloc, certificate, &committee, checker)?)
}

/// The digest and the epoch of the transaction of a certificate that is valid under the keyed seals of this secret.
fn certified_keyed(
    alloc: Global,
    stakes: &[u32],
    certificate: &[u8],
    secret: &Bytes32,
) -> Result<(Digest, u64), Answer>
    ensures { Answered result (for_committee stakes.now (λ s. certificate_answer s (keyed secret.now) certificate.now)) }
{
    let sealer = KeyedSeal::new(secret.bytes);
    certified(alloc, stakes, certificate, &sealer)
}

/// Whether the bytes encode a certificate that is valid for the committee of these stakes, under seals that are among the
/// accepted ones. Code 0: `first` is the epoch, and `tx` is filled with the digest of the transaction.
#[unsafe(no_mangle)]
pub extern "C" fn kothaysu_check_certificate(
    alloc: Global,
    stakes: &[u32],
    certificate: &[u8],
    accepted: &[SealRow],
    statements: &[u8],
    tx: &mut Bytes32,
    answer: &mut Answer,
) -> u32
    ensures code { result ≡ answer.new.code }
    ensures told { Tells (λ (at : DigestOf × ℕ). said 0 0 at.1 0) answer.new (for_committee stakes.now (λ s. certificate_answer s (accepted_in accepted.now statements.now) certificate.now)) }
    ensures put { answer.new.code ≡ 0 → Puts (λ (at : DigestOf × ℕ). as_bytes at.0) tx.new (for_committee stakes.now (λ s. certificate_answer s (accepted_in accepted.now statements.now) certificate.now)) }
    ensures kept { (answer.new.code == 0) ≡ false → tx.new ≡ tx.old }
{
    let seals = AcceptedSeals::new(accepted, statements);
    match certified(alloc, stakes, certificate, &seals) {
        Ok((digest, epoch)) => {
            *tx = as_bytes(digest);
            *answer = said(0, 0, epoch, 0);
        }
        Err(why) => *answer = why,
    }
    answer.code
}

/// Whether the bytes encode a certificate that is valid for the committee of these stakes, under the keyed seals of
/// this secret. Code 0: as for `kothaysu_check_certificate`.
#[unsafe(no_mangle)]
pub extern "C" fn kothaysu_check_certificate_keyed(
    alloc: Global,
    stakes: &[u32],
    certificate: &[u8],
    secret: &Bytes32,
    tx: &mut Bytes32,
    answer: &mut Answer,
) -> u32
    ensures code { result ≡ answer.new.code }
    ensures told { Tells (λ (at : DigestOf × ℕ). said 0 0 at.1 0) answer.new (for_committee stakes.now (λ s. certificate_answer s (keyed secret.now) certificate.now)) }
    ensures put { answer.new.code ≡ 0 → Puts (λ (at : DigestOf × ℕ). as_bytes at.0) tx.new (for_committee stakes.now (λ s. certificate_answer s (keyed secret.now) certificate.now)) }
    ensures kept { (answer.new.code == 0) ≡ false → tx.new ≡ tx.old }
{
    match certified_keyed(alloc, stakes, certificate, secret) {
        Ok((digest, epoch)) => {
            *tx = as_bytes(digest);
            *answer = said(0, 0, epoch, 0);
        }
        Err(why) => *answer = why,
    }
    answer.code
}
