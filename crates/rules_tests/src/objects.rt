//! Values that many tests are made of: digests, objects and references by small numbers.

use chain_types::{Address, Content, Object, ObjectId, ObjectKey, ObjectRef, Owner};
use digest_core::Digest;

/// The digest of 32 equal bytes.
pub(crate) fn digest(byte: u8) -> Digest {
    Digest([byte; 32])
}

pub(crate) fn id(byte: u8) -> ObjectId {
    ObjectId(digest(byte))
}

pub(crate) fn key(byte: u8, version: u64) -> ObjectKey {
    ObjectKey {
        id: id(byte),
        version,
    }
}

/// A version of an object, under another digest than its own.
pub(crate) fn reference(byte: u8, version: u64) -> ObjectRef {
    ObjectRef {
        id: id(byte),
        version,
        digest: digest(9),
    }
}

/// The one user of these tests.
pub(crate) const ALICE: Address = Address(Digest([7; 32]));

/// A coin of Alice's that pays gas.
pub(crate) fn coin(byte: u8, version: u64, balance: u64) -> Object {
    Object {
        id: id(byte),
        version,
        owner: Owner::Address(ALICE),
        content: Content::Coin {
            currency: 0,
            balance,
        },
    }
}
