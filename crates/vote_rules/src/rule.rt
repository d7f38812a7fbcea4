//! The vote rule: the first case in which there is no vote, or the origins that the vote names.

ghost use Rattle.std.specs.Prelude.{◌≡◌, Option, Some, None};
ghost use Rattle.digest_core.specs.declared.Digest.{Digest};
ghost use Rattle.chain_types.specs.Digests.{consumed_keys};
ghost use Rattle.protocol_spec.specs.Member.Votes.{vote_origins, vote_refusal};
ghost use Rattle.vote_rules.specs.Cases.{ballot_of};
ghost use Rattle.vote_rules.specs.Decide.{Decides, decide_refusal};

use crate::case::{Case, first_consumed, first_refusal, no_gas, poor_gas};
use crate::origin::origins;
use chain_types::{DecideRefusal, ObjectKey, Transaction, owned_keys};
use lock_table::LockTable;
use std::alloc::Global;
use version_store::Store;
use wire_bcs::Seq;

/// The first case that looks at the store only, and not at locks, in which there is no vote.
#[tactic(auto, unfolding(protocol_spec::specs::Member::Votes::vote_refusal), using(crate::proofs::Cases::none_locked))]
fn store_refusal(store: &Store, tx: &Transaction, keys: &[ObjectKey]) -> Option<DecideRefusal>
    requires { keys.now ≡ consumed_keys tx.now }
    ensures { (digest : Digest) → result ≡ vote_refusal (ballot_of store.now) tx.now digest }
{
    if let Some(refusal) = first_refusal(Case::Absent, store, tx) {
        return Some(refusal);
    }
    if let Some(refusal) = first_consumed(store, keys) {
        return Some(refusal);
    }
    if let Some(refusal) = first_refusal(Case::WrongDigest, store, tx) {
        return Some(refusal);
    }
    if let Some(refusal) = first_refusal(Case::WrongOwner, store, tx) {
        return Some(refusal);
    }
    if let Some(refusal) = no_gas(store, tx) {
        return Some(refusal);
    }
    if let Some(refusal) = first_refusal(Case::WrongKind, store, tx) {
        return Some(refusal);
    }
    poor_gas(store, tx)
}

/// The origins that a vote for the transaction of this digest names, or the first case in which there is no vote: a
/// version that is not held, was consumed here, has another digest, owner or kind, a gas coin below the budget, or a
/// consumed version that is locked for another transaction.
pub fn decide(
    alloc: Global,
    store: &Store,
    locks: &LockTable,
    tx: &Transaction,
    digest: &digest_core::Digest,
) -> Result<Seq<Option<digest_core::Digest>>, DecideRefusal>
    ensures { Decides (decide_refusal store.now locks.now tx.now digest.now) (vote_origins (ballot_of store.now) tx.now) result }
{
    let Ok(keys) = owned_keys(alloc, tx) else {
        return Err(DecideRefusal::OutOfMemory);
    };
    if let Some(refusal) = store_refusal(store, tx, keys.as_slice()) {
        return Err(refusal);
    }
    if let Some((key, by)) = locks.first_other(keys.as_slice(), digest) {
        return Err(DecideRefusal::Locked { key, by });
    }
    origins(alloc, store, tx).map_err(|_| DecideRefusal::OutOfMemory)
}
