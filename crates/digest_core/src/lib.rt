//! Tagged SHA-256 digests (FIPS 180-4), the names of everything on the chain.
//!
//! A digest is SHA-256 of one tag byte and then the bytes, so that strings of two kinds never
//! share a digested text. No call here takes memory and none refuses. What is promised of each
//! is one equation by `tagged_digest`, which stands in `specs/Tagged.antt`.
#![tactic(auto)]

ghost use Rattle.std.specs.Prelude.{◌≡◌, ◌∷◌, ◌++◌, [], List, ℕ};
ghost use Rattle.std.proofs.Common.{ap};
ghost use Rattle.std.proofs.lemmas.Slice.Eq.{bytes_eq-Decides};
ghost use Rattle.sha2.specs.Sha256.{sha256};
ghost use Rattle.digest_core.specs.Tagged.{Hashes, tagged_digest, created_id_of, genesis_id_of, address_of_name};

use sha2::{Digest as _, Sha256};
use std::hash::Hash;
use std::{fmt, hash};

/// The tag of a transaction's digest.
pub const TAG_TRANSACTION: u8 = 0x54;
/// The tag of an object's digest.
pub const TAG_OBJECT: u8 = 0x4f;
/// The tag of the digest of a transaction's effects.
pub const TAG_EFFECTS: u8 = 0x45;
/// The tag of a checkpoint's digest.
pub const TAG_CHECKPOINT: u8 = 0x43;
/// The tag of the id of an object that a transaction created.
pub(crate) const TAG_CREATED: u8 = 0x49;
/// The tag of the id of an object that the set-up made.
pub(crate) const TAG_GENESIS: u8 = 0x47;
/// The tag of the address of a named user.
pub(crate) const TAG_ADDRESS: u8 = 0x41;
/// The tag of a seal.
pub const TAG_SEAL: u8 = 0x53;

/// A SHA-256 digest. Digests are ordered as their bytes are, the first byte first.
#[derive(Clone, Copy, Debug, PartialEq, Eq, PartialOrd, Ord)]
pub struct Digest(pub [u8; 32]);

/// All bytes are hashed in one write, since maps by digests are looked up all the time: the derived `Hash` would write
/// each byte by itself.
impl Hash for Digest {
    ghost hash_input = { λ d. d.0 ∷ [] };

    ghost respects_eq = { λ x y same. ap (λ (bytes : List ℕ). bytes ∷ []) ((bytes_eq-Decides x.0 y.0).0 same) };

    fn hash<H: hash::Hasher>(&self, state: &mut H) {
        state.write(self.0.as_slice());
    }
}

/// In 64 hexadecimal digits.
impl fmt::Display for Digest {
    fn fmt<W: fmt::Write>(&self, f: &mut fmt::Formatter<W>) -> fmt::Result {
        for byte in self.0 {
            write!(f, "{byte:02x}")?;
        }
        Ok(())
    }
}

/// A hasher: it is fed in pieces, and digests the one text that they make.
#[derive(Drop)]
pub struct Hasher {
    inner: Sha256,
}

#[tactic(auto, unfolding(crate::specs::Tagged::Hashes))]
impl Hasher {
    /// A hasher that was fed the tag.
    pub fn begin(tag: u8) -> Hasher
        ensures { Hashes result (tag ∷ []) }
    {
        let mut inner = Sha256::new();
        inner.update([tag].as_slice());
        Hasher { inner }
    }

    /// Feeds the next piece.
    pub fn add(&mut self, bytes: &[u8])
        ensures { (fed : List ℕ) → Hashes self.old fed → Hashes self.new (fed ++ bytes.now) }
    {
        self.inner.update(bytes);
    }

    /// The digest of all that was fed.
    pub fn end(self) -> Digest
        ensures { (fed : List ℕ) → Hashes self fed → result.0 ≡ sha256 fed }
    {
        Digest(self.inner.finalize())
    }
}

/// The digest with this tag of the bytes.
#[tactic(auto, unfolding(crate::specs::Tagged::tagged_digest))]
pub fn digest_of(tag: u8, bytes: &[u8]) -> Digest
    ensures { result ≡ tagged_digest tag bytes.now }
{
    let mut hasher = Hasher::begin(tag);
    hasher.add(bytes);
    hasher.end()
}

/// The id of the object that a transaction created under a number, counted from 0 in its block.
#[tactic(auto, unfolding(crate::specs::Tagged::created_id_of, crate::specs::Tagged::tagged_digest))]
pub fn created_id(tx: &Digest, number: u64) -> Digest
    ensures { result ≡ created_id_of tx.now number }
{
    let mut hasher = Hasher::begin(TAG_CREATED);
    hasher.add(&tx.0);
    hasher.add(number.to_le_bytes().as_slice());
    hasher.end()
}

/// The id of the set-up object of this number; coins, counters and caps are counted together, from 0.
#[tactic(auto, unfolding(crate::specs::Tagged::genesis_id_of))]
pub fn genesis_id(number: u64) -> Digest
    ensures { result ≡ genesis_id_of number }
{
    digest_of(TAG_GENESIS, number.to_le_bytes().as_slice())
}

/// The address of the user of this name.
#[tactic(auto, unfolding(crate::specs::Tagged::address_of_name))]
pub fn address_of(name: &[u8]) -> Digest
    ensures { result ≡ address_of_name name.now }
{
    digest_of(TAG_ADDRESS, name)
}
