//! The calls that compute the digest of a transaction, an object or effects from their bytes.

ghost use Rattle.std.specs.Prelude.{◌≡◌, ◌==◌, false};
ghost use Rattle.digest_core.specs.declared.Digest.{Digest as DigestOf};
ghost use Rattle.chain_types.specs.Objects.{object};
ghost use Rattle.chain_types.specs.Transactions.{transaction};
ghost use Rattle.chain_types.specs.Digests.{digest_of_object, transaction_digest};
ghost use Rattle.effects_core.specs.Effects.{digest_of_effects, effects};
ghost use Rattle.light_client.specs.Digests.{digest_answer};
ghost use Rattle.kothaysu.specs.Answers.{Answered, Puts, Tells, as_answer, as_bytes, said};

use crate::answer::{Answer, Bytes32, as_bytes, said};
use digest_core::Digest;
use light_client::{digest_of_effects, digest_of_object, digest_of_transaction};
use std::alloc::Global;

fn of_transaction(alloc: Global, bytes: &[u8]) -> Result<Digest, Answer>
    ensures { Answered result (as_answer (digest_answer transaction transaction_digest bytes.now)) }
{
    Ok(digest_of_transaction(alloc, bytes)?)
}

/// The digest of a transaction that the bytes encode. Code 0: `digest` is filled.
#[unsafe(no_mangle)]
pub extern "C" fn kothaysu_transaction_digest(
    alloc: Global,
    bytes: &[u8],
    digest: &mut Bytes32,
    answer: &mut Answer,
) -> u32
    ensures code { result ≡ answer.new.code }
    ensures told { Tells (λ (d : DigestOf). said 0 0 0 0) answer.new (as_answer (digest_answer transaction transaction_digest bytes.now)) }
    ensures put { answer.new.code ≡ 0 → Puts as_bytes digest.new (as_answer (digest_answer transaction transaction_digest bytes.now)) }
    ensures kept { (answer.new.code == 0) ≡ false → digest.new ≡ digest.old }
{
    match of_transaction(alloc, bytes) {
        Ok(it) => {
            *digest = as_bytes(it);
            *answer = said(0, 0, 0, 0);
        }
        Err(why) => *answer = why,
    }
    answer.code
}

fn of_object(alloc: Global, bytes: &[u8]) -> Result<Digest, Answer>
    ensures { Answered result (as_answer (digest_answer object digest_of_object bytes.now)) }
{
    Ok(digest_of_object(alloc, bytes)?)
}

/// The digest of an object that the bytes encode. Code 0: `digest` is filled.
#[unsafe(no_mangle)]
pub extern "C" fn kothaysu_object_digest(
    alloc: Global,
    bytes: &[u8],
    digest: &mut Bytes32,
    answer: &mut Answer,
) -> u32
    ensures code { result ≡ answer.new.code }
    ensures told { Tells (λ (d : DigestOf). said 0 0 0 0) answer.new (as_answer (digest_answer object digest_of_object bytes.now)) }
    ensures put { answer.new.code ≡ 0 → Puts as_bytes digest.new (as_answer (digest_answer object digest_of_object bytes.now)) }
    ensures kept { (answer.new.code == 0) ≡ false → digest.new ≡ digest.old }
{
    match of_object(alloc, bytes) {
        Ok(it) => {
            *digest = as_bytes(it);
            *answer = said(0, 0, 0, 0);
        }
        Err(why) => *answer = why,
    }
    answer.code
}

fn of_effects(alloc: Global, bytes: &[u8]) -> Result<Digest, Answer>
    ensures { Answered result (as_answer (digest_answer effects digest_of_effects bytes.now)) }
{
    Ok(digest_of_effects(alloc, bytes)?)
}

/// The digest of the effects of a transaction that the bytes encode. Code 0: `digest` is filled.
#[unsafe(no_mangle)]
pub extern "C" fn kothaysu_effects_digest(
    alloc: Global,
    bytes: &[u8],
    digest: &mut Bytes32,
    answer: &mut Answer,
) -> u32
    ensures code { result ≡ answer.new.code }
    ensures told { Tells (λ (d : DigestOf). said 0 0 0 0) answer.new (as_answer (digest_answer effects digest_of_effects bytes.now)) }
    ensures put { answer.new.code ≡ 0 → Puts as_bytes digest.new (as_answer (digest_answer effects digest_of_effects bytes.now)) }
    ensures kept { (answer.new.code == 0) ≡ false → digest.new ≡ digest.old }
{
    match of_effects(alloc, bytes) {
        Ok(it) => {
            *digest = as_bytes(it);
            *answer = said(0, 0, 0, 0);
        }
        Err(why) => *answer = why,
    }
    answer.code
}
