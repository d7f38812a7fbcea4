//! The versions that a transaction names, consumes and writes.

ghost use Rattle.std.specs.Prelude.{◌≡◌, ◌<◌, ◌^◌, ◌-◌, ◌≤◌, ◌≢◌, All, length, IfOk, []};
ghost use Rattle.chain_types.specs.Digests.{key_of, consumed_key, consumed_keys, object_count, lamport_version};

use crate::objects::{ObjectKey, ObjectRef};
use crate::transactions::{Input, Transaction};
use std::alloc::Global;
use wire_bcs::{OutOfMemory, Seq};

impl ObjectRef {
    /// The version that is named.
    pub fn key(&self) -> ObjectKey
        ensures { result ≡ key_of self.now }
    {
        ObjectKey {
            id: self.id,
            version: self.version,
        }
    }
}

impl Input {
    /// The version that the input consumes.
    pub(crate) fn consumed_key(&self) -> Option<ObjectKey>
        ensures { result ≡ consumed_key self.now }
    {
        match self {
            Input::Owned(reference) => Some(reference.key()),
            Input::Pure(_) | Input::Immutable(_) | Input::Shared { .. } => None,
        }
    }
}

/// The versions that a transaction consumes, in order: that of its gas coin and those of its Owned
/// inputs.
#[tactic(auto, unfolding(crate::specs::Digests::consumed_keys))]
pub fn owned_keys(alloc: Global, tx: &Transaction) -> Result<Seq<ObjectKey>, OutOfMemory>
    ensures { IfOk result (λ keys. keys ≡ consumed_keys tx.now) }
{
    let mut keys = Seq::new(alloc);
    keys.push(tx.gas.key())?;
    for input in tx.inputs.as_slice() {
        if let Some(key) = input.consumed_key() {
            keys.push(key)?;
        }
    }
    Ok(keys)
}

/// The number of objects of a transaction: its gas coin, and its inputs other than Pure. There are at
/// most 2147483647 inputs.
#[tactic(auto, unfolding(crate::specs::Digests::object_count))]
pub fn object_count(tx: &Transaction) -> u32
    requires { length tx.now.inputs < 2147483648 }
    ensures { result ≡ object_count tx.now }
{
    let mut count = 1;
    for input in tx.inputs.as_slice() {
        if !matches!(input, Input::Pure(_)) {
            count += 1;
        }
    }
    count
}

/// The version that a transaction writes: 1 and the greatest of those of its objects (Lamport).
#[tactic(auto, unfolding(crate::specs::Digests::lamport_version))]
pub fn lamport(versions: &[u64]) -> u64
    requires some { versions.now ≢ [] }
    requires below { All (λ version. version < 2 ^ 64 - 1) versions.now }
    ensures { result ≡ lamport_version versions.now }
{
    let mut greatest = 0;
    for version in versions {
        if *version > greatest {
            greatest = *version;
        }
    }
    greatest + 1
}
