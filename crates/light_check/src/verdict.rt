//! The verdict of a client on bytes that should be a chain.

ghost use Rattle.std.specs.Prelude.{◌≡◌, ℕ, Option, Ok, IfOk, length};
ghost use Rattle.light_check.specs.declared.chain.Chain.{Chain as ChainOf};
ghost use Rattle.light_check.specs.declared.verdict.Verdict.TheVariants as verdict;
ghost use Rattle.light_check.specs.Chains as codecs;
ghost use Rattle.light_check.specs.Certified.{IsCertified};
ghost use Rattle.light_check.specs.Causes.{first_bad};
ghost use Rattle.light_check.specs.Verdicts.{SpellsCertified, number_with, verdict_on, verdict_on_chain};

use crate::chain::{Chain, ChainRefusal};
use crate::chain_wire::decode_chain;
use crate::check::check_chain;
use crate::finding::find;
use digest_core::Digest;
use quorum_core::{Checker, Committee};
use std::alloc::Global;
use wire_bcs::{OutOfMemory, Unread};

/// The verdict of a client that trusts only the stakes, on bytes that should be a chain.
#[derive(Clone, Copy, Debug, PartialEq, Eq)]
pub enum Verdict {
    /// They encode a certified chain of this many links, and the first checkpoint that lists the transaction has this
    /// number; none if none lists it.
    Certified { links: u64, included: Option<u64> },
    /// They are not an encoding of a chain: the offset of the first fault, and what is wrong there.
    Malformed { at: u64, why: u8 },
    /// They encode a chain that is not certified: the first bad link, counted from 0, and its first cause.
    Bad { place: u64, cause: u8 },
}

/// The number of the first checkpoint that lists the transaction.
fn number_with(chain: &Chain, tx: &Digest) -> Option<u64>
    ensures { result ≡ number_with tx.now chain.now.links }
{
    match find(chain, tx) {
        Some((number, _)) => Some(number),
        None => None,
    }
}

/// The verdict on a chain that is certified.
fn certified(chain: &Chain, tx: &Digest) -> Verdict
    ensures { result ≡ verdict.Certified (length chain.now.links) (number_with tx.now chain.now.links) }
{
    Verdict::Certified {
        links: chain.links.len() as u64,
        included: number_with(chain, tx),
    }
}

/// The verdict on a decoded chain.
fn judge_chain<C: Checker>(
    alloc: Global,
    chain: &Chain,
    committee: &Committee,
    checker: &C,
    tx: &Digest,
) -> Result<Verdict, OutOfMemory>
    requires { codecs.chain.short chain.now }
    ensures { IfOk result (λ v. v ≡ verdict_on_chain tx.now chain.now.links (first_bad committee.now (C.accepts checker.now) chain.now.links)) }
{
    match check_chain(alloc, chain, committee, checker) {
        Ok(()) => Ok(certified(chain, tx)),
        Err(ChainRefusal::Bad { place, cause }) => Ok(Verdict::Bad { place, cause }),
        Err(ChainRefusal::OutOfMemory) => Err(OutOfMemory),
    }
}

/// The verdict on bytes that should be a chain: they do not decode to one, or the chain is not certified by the
/// committee, or it is, with the number of its links and of the checkpoint that lists the transaction (this profile).
#[tactic(auto, unfolding(crate::specs::Verdicts::verdict_on))]
pub fn judge<C: Checker>(
    alloc: Global,
    bytes: &[u8],
    committee: &Committee,
    checker: &C,
    tx: &Digest,
) -> Result<Verdict, OutOfMemory>
    ensures said { IfOk result (λ v. v ≡ verdict_on committee.now (C.accepts checker.now) tx.now bytes.now) }
    // What is called certified is encoded by these bytes, and is certified.
    ensures certified { (links : ℕ) (included : Option ℕ) → result ≡ Ok (verdict.Certified links included) → SpellsCertified committee.now (C.accepts checker.now) tx.now bytes.now links included }
    // What is certified and encoded by these bytes is called so, unless memory runs out.
    ensures only { (c : ChainOf) → codecs.chain.fits c → bytes.now ≡ codecs.chain.spell c → IsCertified committee.now (C.accepts checker.now) c.links → IfOk result (λ v. v ≡ verdict.Certified (length c.links) (number_with tx.now c.links)) }
{
    match decode_chain(alloc, bytes) {
        Ok(chain) => judge_chain(alloc, &chain, committee, checker, tx),
        Err(Unread::Wire(fault)) => Ok(Verdict::Malformed {
            at: fault.at,
            why: fault.why,
        }),
        Err(Unread::OutOfMemory) => Err(OutOfMemory),
    }
}
