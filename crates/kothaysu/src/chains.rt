//! The calls that check a chain of checkpoints, and find a transaction in it.

ghost use Rattle.std.specs.Prelude.{◌≡◌, ◌==◌, ℕ, false};
ghost use Rattle.digest_core.specs.declared.Digest.{Digest as DigestOf};
ghost use Rattle.light_client.specs.Accepted.{accepted_in};
ghost use Rattle.light_client.specs.Chains.{chain_answer, found_answer};
ghost use Rattle.kothaysu.specs.Answers.{Answered, Puts, Tells, as_answer, as_bytes, for_committee, keyed, of_bytes, said, told};

use crate::answer::{Answer, Bytes32, as_bytes, said};
use digest_core::Digest;
use light_client::{
    AcceptedSeals, Checker, SealRow, check_chain, check_chain_by, find_transaction,
};
use quorum_core::{Committee, KeyedSeal, Sealer};
use std::alloc::Global;

/// The number of links of a chain that is certified under seals that the checker accepts.
fn links<C: Checker>(
    alloc: Global,
    stakes: &[u32],
    chain: &[u8],
    checker: &C,
) -> Result<u64, Answer>
    ensures { Answered result (for_committee stakes.now (λ s. chain_answer s (C.accepts checker.now) chain.now)) }
{
    let committee = Committee::new(stakes)?;
    Ok(check_chain(alloc, chain, &committee, checker)?)
}

/// The number of links of a chain that is certified under the seals that a sealer accepts.
fn links_by<S: Sealer>(
    alloc: Global,
    stakes: &[u32],
    chain: &[u8],
    sealer: &S,
) -> Result<u64, Answer>
    ensures { Answered result (for_committee stakes.now (λ s. chain_answer s (S.accepts sealer.now) chain.now)) }
{
    let committee = Committee::new(stakes)?;
    Ok(check_chain_by(alloc, chain, &committee, sealer)?)
}

/// The number of links of a chain that is certified under the keyed seals of this secret.
fn links_keyed(alloc: Global, stakes: &[u32], chain: &[u8], secret: &Bytes32) -> Result<u64, Answer>
    ensures { Answered result (for_committee stakes.now (λ s. chain_answer s (keyed secret.now) chain.now)) }
{
    let sealer = KeyedSeal::new(secret.bytes);
    links_by(alloc, stakes, chain, &sealer)
}

/// The answer for this many links.
fn tell_links(links: Result<u64, Answer>) -> Answer
    ensures { result ≡ told (λ n. said 0 0 n 0) links }
{
    match links {
        Ok(links) => said(0, 0, links, 0),
        Err(answer) => answer,
    }
}

/// Whether the bytes encode a chain that the committee of these stakes has certified, under seals that are among the
/// accepted ones. Code 0: `first` is the number of links.
#[unsafe(no_mangle)]
pub extern "C" fn kothaysu_check_chain(
    alloc: Global,
    stakes: &[u32],
    chain: &[u8],
    accepted: &[SealRow],
    statements: &[u8],
    answer: &mut Answer,
) -> u32
    ensures code { result ≡ answer.new.code }
    ensures told { Tells (λ n. said 0 0 n 0) answer.new (for_committee stakes.now (λ s. chain_answer s (accepted_in accepted.now statements.now) chain.now)) }
{
    let seals = AcceptedSeals::new(accepted, statements);
    *answer = tell_links(links(alloc, stakes, chain, &seals));
    answer.code
}

/// Whether the bytes encode a chain that the committee of these stakes has certified, under the keyed seals of this
/// secret. Code 0: `first` is the number of links.
#[unsafe(no_mangle)]
pub extern "C" fn kothaysu_check_chain_keyed(
    alloc: Global,
    stakes: &[u32],
    chain: &[u8],
    secret: &Bytes32,
    answer: &mut Answer,
) -> u32
    ensures code { result ≡ answer.new.code }
    ensures told { Tells (λ n. said 0 0 n 0) answer.new (for_committee stakes.now (λ s. chain_answer s (keyed secret.now) chain.now)) }
{
    *answer = tell_links(links_keyed(alloc, stakes, chain, secret));
    answer.code
}

/// The number of the first checkpoint of the chain that has the transaction, and the digest of the effects there.
fn found(alloc: Global, chain: &[u8], tx: &Bytes32) -> Result<(u64, Digest), Answer>
    ensures { Answered result (as_answer (found_answer (of_bytes tx.now) chain.now)) }
{
    Ok(find_transaction(alloc, chain, &Digest(tx.bytes))?)
}

/// In which checkpoint of the chain that the bytes encode a transaction stands first. Code 0: `first` is the
/// checkpoint's number, and `effects` is filled with the digest of the transaction's effects there.
#[unsafe(no_mangle)]
pub extern "C" fn kothaysu_find_transaction(
    alloc: Global,
    chain: &[u8],
    tx: &Bytes32,
    effects: &mut Bytes32,
    answer: &mut Answer,
) -> u32
    ensures code { result ≡ answer.new.code }
    ensures told { Tells (λ (at : ℕ × DigestOf). said 0 0 at.0 0) answer.new (as_answer (found_answer (of_bytes tx.now) chain.now)) }
    ensures put { answer.new.code ≡ 0 → Puts (λ (at : ℕ × DigestOf). as_bytes at.1) effects.new (as_answer (found_answer (of_bytes tx.now) chain.now)) }
    ensures kept { (answer.new.code == 0) ≡ false → effects.new ≡ effects.old }
{
    match found(alloc, chain, tx) {
        Ok((number, digest)) => {
            *effects = as_bytes(digest);
            *answer = said(0, 0, number, 0);
        }
        Err(why) => *answer = why,
    }
    answer.code
}
