//! The lock table: which transaction each version is locked for.

ghost use Rattle.std.specs.Prelude.{◌≡◌, ◌+◌, ◌<◌, ◌≤◌, [], length};
ghost use Rattle.lock_table.specs.Locks.{locked_by, with_locks, other_lock};
ghost use Rattle.chain_types.specs.Equal.{key_eq};
ghost use Rattle.lock_table.specs.Answers.{Refuses};
ghost use Rattle.indexmap.specs.IndexMap.{insert_entry, spare};

use chain_types::ObjectKey;
use digest_core::Digest;
use indexmap::IndexMap;
use std::alloc::Global;
use std::marker::Model;
use wire_bcs::{OutOfMemory, Seq};

/// Why nothing was locked.
#[derive(Clone, Copy, Debug, PartialEq, Eq)]
pub enum LockRefusal {
    /// The first key that the other transaction `by` holds.
    Locked { key: ObjectKey, by: Digest },
    OutOfMemory,
}

/// Locks one key, for which there is room.
fn insert_one(locks: &mut IndexMap<ObjectKey, Digest>, key: ObjectKey, tx: Digest)
    requires { 0 < spare locks.old }
    ensures entries { locks.new.entries ≡ insert_entry key_eq locks.old.entries key tx }
    ensures room { spare locks.old ≤ spare locks.new + 1 }
{
    match locks.insert(key, tx) {
        Ok(_) => {}
        Err(_) => unreachable!(),
    }
}

/// Locks all the keys, for which there is room.
fn insert_all(locks: &mut IndexMap<ObjectKey, Digest>, keys: &[ObjectKey], tx: &Digest)
    requires { length keys.now ≤ spare locks.old }
    ensures { locks.new.entries ≡ with_locks locks.old.entries keys.now tx.now }
{
    for key in keys {
        insert_one(locks, *key, *tx);
    }
}

/// The locks of one epoch. Contracts see the list of pairs of key and digest, each key once, in
/// the order of locking.
#[derive(Drop)]
pub struct LockTable {
    locks: IndexMap<ObjectKey, Digest>,
}

impl Model for LockTable {
    ghost use Rattle.lock_table.specs.Locks.{Locks};

    ghost Value = { Locks };

    ghost view = { λ t. t.locks.entries };
}

impl LockTable {
    /// The empty table. Takes no memory.
    pub fn new(alloc: Global) -> LockTable
        ensures { result ≡ [] }
    {
        LockTable {
            locks: IndexMap::new(alloc),
        }
    }

    /// The transaction that holds the key. Takes no memory.
    pub fn locked_by(&self, key: &ObjectKey) -> Option<Digest>
        ensures { result ≡ locked_by self.now key.now }
    {
        self.locks.get(key).copied()
    }

    /// The first of the keys that a transaction other than this one holds, and that transaction. Takes no memory.
    pub fn first_other(&self, keys: &[ObjectKey], tx: &Digest) -> Option<(ObjectKey, Digest)>
        ensures { result ≡ other_lock self.now tx.now keys.now }
    {
        let mut rest = keys;
        while let [key, after @ ..] = rest {
            if let Some(by) = self.locked_by(key)
                && by != *tx
            {
                return Some((*key, by));
            }
            rest = after;
        }
        None
    }

    /// Locks all the keys for the transaction, or none. `Locked` comes exactly if another
    /// transaction holds one of them, with the first such key. A refusal changes nothing.
    pub fn lock_all(&mut self, keys: &Seq<ObjectKey>, tx: &Digest) -> Result<(), LockRefusal>
        ensures { Refuses self.old self.new keys.now tx.now result }
    {
        if let Some((key, by)) = self.first_other(keys.as_slice(), tx) {
            return Err(LockRefusal::Locked { key, by });
        }
        if self.locks.reserve(keys.as_slice().len()).is_err() {
            return Err(LockRefusal::OutOfMemory);
        }
        insert_all(&mut self.locks, keys.as_slice(), tx);
        Ok(())
    }

    /// Forgets all locks. Takes no memory.
    pub fn clear(&mut self)
        ensures { self.new ≡ [] }
    {
        self.locks.clear();
    }
}
