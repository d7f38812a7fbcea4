//! Undoing executed transactions.

ghost use Rattle.std.specs.Prelude.{◌≡◌, [], IfOk, OnErr, OnOk, filter, not};
ghost use Rattle.indexmap.specs.IndexMap.{keys, values};
ghost use Rattle.indexmap.specs.IndexSet.{insert_all};
ghost use Rattle.chain_types.specs.Equal.{digest_eq};
ghost use Rattle.version_store.specs.Changes.{Keeps};
ghost use Rattle.version_store.specs.Reverts.{consumers_staying, deleted_staying, is_among, newest_staying, ran_stays, reverted_to, stays, undone, version_stays};

use crate::maps::{Kept, Maps, Ran, add_consumers, add_ids, add_newer};
use crate::store::Store;
use chain_types::{HashedObject, ObjectId, ObjectKey, Producer};
use digest_core::Digest;
use indexmap::{IndexMap, IndexSet};
use std::alloc::Global;
use std::mem::replace;
use wire_bcs::{OutOfMemory, Seq};

/// Digests, each once.
fn set_of(alloc: Global, digests: &Seq<Digest>) -> Result<IndexSet<Digest>, OutOfMemory>
    ensures { IfOk result (λ set. set.keys ≡ insert_all digest_eq [] digests.now) }
{
    let mut set = IndexSet::new(alloc);
    for digest in digests.as_slice() {
        set.insert(*digest)?;
    }
    Ok(set)
}

/// Whether a version stays that this producer made.
fn stays(producer: &Producer, kept: &IndexSet<Digest>) -> bool
    ensures { result ≡ stays kept.now.keys producer.now }
{
    match producer {
        Producer::Opening => true,
        Producer::Tx(tx) => kept.contains(tx),
    }
}

/// The transactions that are not kept, in order.
fn not_kept(
    alloc: Global,
    executed: &IndexMap<Digest, Ran>,
    kept: &IndexSet<Digest>,
) -> Result<Vec<Digest>, OutOfMemory>
    ensures { IfOk result (λ txs. txs.items ≡ filter (λ tx. not (is_among kept.now.keys tx)) (keys executed.now)) }
{
    Ok(
        executed
            .keys()
            .copied()
            .filter(|tx| !kept.contains(tx))
            .collect(alloc)?,
    )
}

/// The newest version of each id, of those that stay.
fn newest_staying(
    alloc: Global,
    versions: &IndexMap<ObjectKey, Kept>,
    kept: &IndexSet<Digest>,
) -> Result<IndexMap<ObjectId, HashedObject>, OutOfMemory>
    ensures { IfOk result (λ m. m.entries ≡ newest_staying kept.now.keys [] (values versions.now)) }
{
    let mut newest = IndexMap::new(alloc);
    for version in versions.values() {
        if stays(&version.producer, kept) {
            newest.reserve(1)?;
            add_newer(&mut newest, &version.object);
        }
    }
    Ok(newest)
}

/// For each key, the first of the kept transactions that consumed it.
fn consumers_staying(
    alloc: Global,
    executed: &IndexMap<Digest, Ran>,
    kept: &IndexSet<Digest>,
) -> Result<IndexMap<ObjectKey, Digest>, OutOfMemory>
    ensures { IfOk result (λ m. m.entries ≡ consumers_staying kept.now.keys [] executed.now.entries) }
{
    let mut consumers = IndexMap::new(alloc);
    for (tx, ran) in executed.iter() {
        if kept.contains(tx) {
            let consumed = ran.consumed.as_slice();
            consumers.reserve(consumed.len())?;
            add_consumers(&mut consumers, consumed, *tx);
        }
    }
    Ok(consumers)
}

/// The ids that the kept deleted.
fn deleted_staying(
    alloc: Global,
    executed: &IndexMap<Digest, Ran>,
    kept: &IndexSet<Digest>,
) -> Result<IndexSet<ObjectId>, OutOfMemory>
    ensures { IfOk result (λ s. s.keys ≡ deleted_staying kept.now.keys [] executed.now.entries) }
{
    let mut deleted = IndexSet::new(alloc);
    for (tx, ran) in executed.iter() {
        if kept.contains(tx) {
            let ids = ran.effects.effects().deleted.as_slice();
            deleted.reserve(ids.len())?;
            add_ids(&mut deleted, ids);
        }
    }
    Ok(deleted)
}

/// Takes out the versions that do not stay.
fn keep_versions(versions: &mut IndexMap<ObjectKey, Kept>, kept: &IndexSet<Digest>)
    ensures { versions.new.entries ≡ filter (version_stays kept.now.keys) versions.old.entries }
{
    versions.retain(
        |_key: &ObjectKey, version: &mut Kept| -> bool
            ensures { (result ≡ stays kept.entry.now.keys version.old.producer) × (version.new ≡ version.old) }
        { stays(&version.producer, kept) },
    );
}

/// Takes out the transactions that are not kept.
fn keep_executed(executed: &mut IndexMap<Digest, Ran>, kept: &IndexSet<Digest>)
    ensures { executed.new.entries ≡ filter (ran_stays kept.now.keys) executed.old.entries }
{
    executed.retain(
        |tx: &Digest, ran: &mut Ran| -> bool
            ensures { (result ≡ is_among kept.entry.now.keys tx.now) × (ran.new ≡ ran.old) }
        { kept.contains(tx) },
    );
}

impl Maps {
    /// Takes out of every map what the transactions that are not kept did. A refusal changes nothing.
    fn keep(&mut self, alloc: Global, kept: &IndexSet<Digest>) -> Result<(), OutOfMemory>
        ensures ok { OnOk result (Keeps self.old self.new kept.now.keys) }
        ensures err { OnErr result (self.new ≡ self.old) }
    {
        let newest = newest_staying(alloc, &self.versions, kept)?;
        let consumers = consumers_staying(alloc, &self.executed, kept)?;
        let deleted = deleted_staying(alloc, &self.executed, kept)?;
        keep_versions(&mut self.versions, kept);
        keep_executed(&mut self.executed, kept);
        drop(replace(&mut self.newest, newest));
        drop(replace(&mut self.consumers, consumers));
        drop(replace(&mut self.deleted, deleted));
        Ok(())
    }
}

impl Store {
    /// Undoes every executed transaction that is not among these, and answers the undone ones, oldest
    /// first. It does not check which transactions are kept: a version that a kept one read is gone if an undone one
    /// wrote it. A refusal changes nothing. Time grows with what was executed and written in the epoch.
    pub fn revert_to(&mut self, kept: &Seq<Digest>) -> Result<Seq<Digest>, OutOfMemory>
        ensures ok { OnOk result (self.new ≡ reverted_to kept.now self.old) }
        ensures undone { IfOk result (λ txs. txs ≡ undone kept.now self.old) }
        ensures err { OnErr result (self.new ≡ self.old) }
    {
        let kept = set_of(self.alloc, kept)?;
        let undone = not_kept(self.alloc, &self.maps.executed, &kept)?;
        if undone.is_empty() {
            return Ok(Seq::from_vec(undone));
        }
        self.maps.keep(self.alloc, &kept)?;
        Ok(Seq::from_vec(undone))
    }
}
