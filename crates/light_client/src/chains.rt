//! Checking a chain of checkpoints, and finding a transaction in it, from bytes.

ghost use Rattle.std.specs.Prelude.{◌≡◌, ℕ, IfOk, Ok};
ghost use Rattle.checkpoint_core.specs.Checkpoints.{checkpoint as codec};
ghost use Rattle.light_check.specs.Chains as codecs;
ghost use Rattle.light_check.specs.Certified.{stated};
ghost use Rattle.light_check.specs.Found.{found};
ghost use Rattle.light_client.specs.Chains.{SpellsCertified, chain_answer, found_answer, included, links_answer};
ghost use Rattle.light_client.specs.Input.{Answers};

use crate::input::read_input;
use crate::refusal::Refusal;
use chain_messages::{Statement, encode_statement};
use checkpoint_core::{Checkpoint, checkpoint_digest};
use digest_core::Digest;
use light_check::{Chain, ChainRefusal, find};
use quorum_core::{Checker, Committee, Sealer};
use std::alloc::Global;
use wire_bcs::{OutOfMemory, Seq};

/// The bytes that a member seals for a checkpoint: the encoding of its statement.
#[tactic(auto, using(light_check::proofs::Shorts::stated_short))]
pub(crate) fn stated(alloc: Global, checkpoint: &Checkpoint) -> Result<Seq<u8>, OutOfMemory>
    requires { codec.short checkpoint.now }
    ensures { IfOk result (λ bytes. bytes ≡ stated checkpoint.now) }
{
    let digest = checkpoint_digest(alloc, checkpoint)?;
    let statement = Statement::Checkpoint {
        epoch: checkpoint.epoch,
        number: checkpoint.number,
        digest,
    };
    encode_statement(alloc, &statement)
}

/// The number of links of a certified chain, or its first bad link.
fn judged<C: Checker>(
    alloc: Global,
    chain: &Chain,
    committee: &Committee,
    checker: &C,
) -> Result<u64, Refusal>
    requires { codecs.chain.short chain.now }
    ensures { Answers result (links_answer committee.now (C.accepts checker.now) chain.now.links) }
{
    match light_check::check_chain(alloc, chain, committee, checker) {
        Ok(()) => Ok(chain.links.len()),
        Err(ChainRefusal::Bad { place, cause }) => Err(Refusal::BadLink { place, cause }),
        Err(ChainRefusal::OutOfMemory) => Err(Refusal::OutOfMemory),
    }
}

/// How many links the chain that the bytes encode has, if the committee has certified it under seals that the checker
/// accepts (Sui Lutris); else why not: `TooLarge`, `Malformed`, or `BadLink`.
#[tactic(auto, unfolding(crate::specs::Chains::chain_answer))]
pub fn check_chain<C: Checker>(
    alloc: Global,
    bytes: &[u8],
    committee: &Committee,
    checker: &C,
) -> Result<u64, Refusal>
    ensures exact { Answers result (chain_answer committee.now (C.accepts checker.now) bytes.now) }
    // What is passed is encoded by these bytes, and is certified.
    ensures certified { (links : ℕ) → result ≡ Ok links → SpellsCertified committee.now (C.accepts checker.now) bytes.now links }
{
    let chain: Chain = read_input(alloc, bytes)?;
    let answer = judged(alloc, &chain, committee, checker);
    drop(chain);
    answer
}

/// How many links the chain that the bytes encode has, if the committee has certified it under the seals that this
/// sealer accepts; refusals are those of [`check_chain`].
pub fn check_chain_by<S: Sealer>(
    alloc: Global,
    bytes: &[u8],
    committee: &Committee,
    sealer: &S,
) -> Result<u64, Refusal>
    ensures exact { Answers result (chain_answer committee.now (S.accepts sealer.now) bytes.now) }
    ensures certified { (links : ℕ) → result ≡ Ok links → SpellsCertified committee.now (S.accepts sealer.now) bytes.now links }
{
    check_chain(alloc, bytes, committee, sealer)
}

/// The number of the first checkpoint that lists the transaction, and the digest of its effects there; else
/// `NotIncluded`.
fn included(chain: &Chain, tx: &Digest) -> Result<(u64, Digest), Refusal>
    ensures { result ≡ included (found tx.now chain.now.links) }
{
    match find(chain, tx) {
        Some(at) => Ok(at),
        None => Err(Refusal::NotIncluded),
    }
}

/// The number of the first checkpoint that lists the transaction, and the digest of its effects there, in the chain that
/// the bytes encode; else why there is none: `TooLarge`, `Malformed`, or `NotIncluded`. It says nothing of whether the
/// chain is certified: [`check_chain`] does.
#[tactic(auto, unfolding(crate::specs::Chains::found_answer))]
pub fn find_transaction(alloc: Global, bytes: &[u8], tx: &Digest) -> Result<(u64, Digest), Refusal>
    ensures { Answers result (found_answer tx.now bytes.now) }
{
    let chain: Chain = read_input(alloc, bytes)?;
    let answer = included(&chain, tx);
    drop(chain);
    answer
}
