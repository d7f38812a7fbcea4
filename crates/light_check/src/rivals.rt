//! Who is to blame for two certificates that consume one version.

ghost use Rattle.std.specs.Prelude.{◌≡◌, IfOk, filter, map};
ghost use Rattle.chain_types.specs.Transactions.{transaction};
ghost use Rattle.chain_types.specs.Digests.{consumed_keys};
ghost use Rattle.protocol_spec.specs.Chain.Tests.{has_key};
ghost use Rattle.protocol_spec.specs.Chain.Words.{first_of, where_true};
ghost use Rattle.quorum_core.specs.Committee.{is_among};
ghost use Rattle.light_check.specs.Blamed.{are_rivals, blamed, sealed_both, shared_key};

use chain_messages::{Certificate, members_of};
use chain_types::{ObjectKey, owned_keys, tx_digest};
use std::alloc::Global;
use wire_bcs::{OutOfMemory, Seq};

/// A version that two transactions of one epoch consume, and the members whose seals stand under both.
#[derive(Debug, Drop)]
pub struct DoubleVote {
    pub key: ObjectKey,
    pub members: Seq<u32>,
}

/// Whether the certificates are of two transactions of one epoch.
fn are_rivals(alloc: Global, one: &Certificate, other: &Certificate) -> Result<bool, OutOfMemory>
    requires one { transaction.short one.now.tx }
    requires other { transaction.short other.now.tx }
    ensures { IfOk result (λ rivals. rivals ≡ are_rivals one.now other.now) }
{
    if one.tx.epoch != other.tx.epoch {
        return Ok(false);
    }
    let first = tx_digest(alloc, &one.tx)?;
    let second = tx_digest(alloc, &other.tx)?;
    Ok(first != second)
}

/// The first of the others that is among these keys.
fn first_shared(keys: &[ObjectKey], others: &[ObjectKey]) -> Option<ObjectKey>
    ensures { result ≡ first_of (λ key. where_true (has_key keys.now key) key) others.now }
{
    let mut rest = others;
    while let [key, after @ ..] = rest {
        if has_key(keys, key) {
            return Some(*key);
        }
        rest = after;
    }
    None
}

/// Whether a key is among these.
fn has_key(keys: &[ObjectKey], key: &ObjectKey) -> bool
    ensures { result ≡ has_key keys.now key.now }
{
    keys.iter().any(|k| *k == *key)
}

/// The first version that the second certificate's transaction consumes, and the first one's too.
fn shared_key(
    alloc: Global,
    one: &Certificate,
    other: &Certificate,
) -> Result<Option<ObjectKey>, OutOfMemory>
    ensures { IfOk result (λ key. key ≡ shared_key one.now other.now) }
{
    let keys = owned_keys(alloc, &one.tx)?;
    let others = owned_keys(alloc, &other.tx)?;
    Ok(first_shared(keys.as_slice(), others.as_slice()))
}

/// Whether a member is among these.
fn is_among(members: &[u32], member: u32) -> bool
    ensures { result ≡ is_among members.now member }
{
    members.iter().any(|m| *m == member)
}

/// The members that are in both lists, in the order of `others`.
fn among_both(alloc: Global, members: &[u32], others: &[u32]) -> Result<Seq<u32>, OutOfMemory>
    ensures { IfOk result (λ both. both ≡ filter (is_among members.now) others.now) }
{
    let mut both = Seq::new(alloc);
    for other in others {
        if is_among(members, *other) {
            both.push(*other)?;
        }
    }
    Ok(both)
}

/// The members whose seals stand under both certificates.
fn sealed_both(
    alloc: Global,
    one: &Certificate,
    other: &Certificate,
) -> Result<Seq<u32>, OutOfMemory>
    ensures { IfOk result (λ both. both ≡ sealed_both one.now other.now) }
{
    let members = members_of(alloc, one.seals.as_slice())?;
    let others = members_of(alloc, other.seals.as_slice())?;
    among_both(alloc, &members, &others)
}

/// Who is to blame for two certificates: if they are of two transactions of one epoch that consume one version, the
/// first such version and the members whose seals stand under both; none otherwise. If the certificates are valid,
/// and no honest member's seal stands under a statement that it did not make, none of these is honest, and they have
/// more than a third of the stake (`headline_law`). A transaction can be encoded: each that was read can.
pub fn blame(
    alloc: Global,
    one: &Certificate,
    other: &Certificate,
) -> Result<Option<DoubleVote>, OutOfMemory>
    requires one { transaction.short one.now.tx }
    requires other { transaction.short other.now.tx }
    ensures { IfOk result (λ found. found ≡ blamed one.now other.now) }
{
    if !are_rivals(alloc, one, other)? {
        return Ok(None);
    }
    let Some(key) = shared_key(alloc, one, other)? else {
        return Ok(None);
    };
    let members = sealed_both(alloc, one, other)?;
    Ok(Some(DoubleVote { key, members }))
}
