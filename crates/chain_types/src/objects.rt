//! Objects: who owns them, what they hold, and how they are named.

use digest_core::Digest;
use std::fmt;

/// The name of an object, which it keeps over all its versions.
#[derive(Clone, Copy, Debug, PartialEq, Eq, PartialOrd, Ord, Hash)]
pub struct ObjectId(pub Digest);

/// In 64 hexadecimal digits.
impl fmt::Display for ObjectId {
    fn fmt<W: fmt::Write>(&self, f: &mut fmt::Formatter<W>) -> fmt::Result {
        write!(f, "{}", self.0)
    }
}

/// The address of a user.
#[derive(Clone, Copy, Debug, PartialEq, Eq, PartialOrd, Ord, Hash)]
pub struct Address(pub Digest);

/// In 64 hexadecimal digits.
impl fmt::Display for Address {
    fn fmt<W: fmt::Write>(&self, f: &mut fmt::Formatter<W>) -> fmt::Result {
        write!(f, "{}", self.0)
    }
}

/// One version of one object.
#[derive(Clone, Copy, Debug, PartialEq, Eq, PartialOrd, Ord, Hash)]
pub struct ObjectKey {
    pub id: ObjectId,
    pub version: u64,
}

impl fmt::Display for ObjectKey {
    fn fmt<W: fmt::Write>(&self, f: &mut fmt::Formatter<W>) -> fmt::Result {
        write!(f, "version {} of object {}", self.version, self.id)
    }
}

/// One version of one object, with the digest that the object has there.
#[derive(Clone, Copy, Debug, PartialEq, Eq)]
pub struct ObjectRef {
    pub id: ObjectId,
    pub version: u64,
    pub digest: Digest,
}

/// Who may use an object (Sui documentation, object ownership).
#[derive(Clone, Copy, Debug, PartialEq, Eq)]
pub enum Owner {
    /// Only the user of this address.
    Address(Address),
    /// Everyone, in the order of consensus, from this initial version on.
    Shared(u64),
    /// Everyone, for reading.
    Immutable,
}

/// The kind of a content.
#[derive(Clone, Copy, Debug, PartialEq, Eq)]
pub enum Kind {
    Coin,
    Cap,
    Counter,
    Vault,
    VaultKey,
    Limit,
}

/// What an object holds. Amounts are in units of their currency; currency 0 pays gas.
#[derive(Clone, Copy, Debug, PartialEq, Eq)]
pub enum Content {
    Coin { currency: u64, balance: u64 },
    /// The right to mint and to burn a currency, with its supply.
    Cap { currency: u64, supply: u64 },
    Counter { value: u64 },
    Vault { currency: u64, balance: u64 },
    /// The right to withdraw from a vault.
    VaultKey { vault: ObjectId },
    Limit { value: u64 },
}

/// An object at one version.
#[derive(Clone, Copy, Debug, PartialEq, Eq)]
pub struct Object {
    pub id: ObjectId,
    pub version: u64,
    pub owner: Owner,
    pub content: Content,
}

/// Where a version comes from: the epoch opened with it, or a transaction of the epoch wrote it.
#[derive(Clone, Copy, Debug, PartialEq, Eq)]
pub enum Producer {
    Opening,
    Tx(Digest),
}
