//! Seals, and how they are checked.

ghost use Rattle.std.specs.Prelude.{◌≡◌, ◌++◌, ℕ, List, Bool, true, bytes_eq};
ghost use Rattle.digest_core.specs.declared.Digest.{Digest as Seal};
ghost use Rattle.digest_core.specs.Tagged.{Hashes};
ghost use Rattle.quorum_core.specs.declared.signer.Signer.{Signer as Who};
ghost use Rattle.quorum_core.specs.declared.signer.Signer.TheVariants as signers;
ghost use Rattle.quorum_core.specs.Signers as codecs;
ghost use Rattle.quorum_core.specs.Seals.{keyed_seal};

use crate::signer::Signer;
use digest_core::{Digest, Hasher, TAG_SEAL};

/// Checks seals of signers over bytes, but makes none: this is all that a client has. No call takes memory.
pub trait Checker {
    /// Whether the seal is accepted as the signer's over the bytes.
    ghost accepts: { Self → Who → List ℕ → Seal → Bool };

    /// Whether the seal is accepted as the signer's over the bytes.
    fn check(&self, signer: &Signer, bytes: &[u8], seal: &Digest) -> bool
        ensures { result ≡ accepts self.now signer.now bytes.now seal.now };
}

/// A [`Checker`] that makes seals too. No call takes memory.
pub trait Sealer: Checker {
    /// A seal of the signer over the bytes, which is accepted.
    fn seal(&self, signer: &Signer, bytes: &[u8]) -> Digest
        ensures { Self.accepts self.now signer.now bytes.now result ≡ true };
}

/// Seals under one secret: the tagged digest of the secret, the encoding of the signer and the
/// bytes. Exactly that seal is accepted.
#[derive(Clone, Copy)]
pub struct KeyedSeal {
    secret: [u8; 32],
}

impl KeyedSeal {
    /// A sealer under this secret.
    pub fn new(secret: [u8; 32]) -> KeyedSeal
        ensures { result.secret ≡ secret }
    {
        KeyedSeal { secret }
    }
}

/// Feeds the hasher the encoding of `Signer::Member`, without taking memory for it.
#[tactic(auto, unfolding(crate::specs::Signers::signer))]
fn add_member(hasher: &mut Hasher, member: u32)
    ensures { (fed : List ℕ) → Hashes hasher.old fed → Hashes hasher.new (fed ++ codecs.signer.spell (signers.Member member)) }
{
    hasher.add([0].as_slice());
    hasher.add(member.to_le_bytes().as_slice());
}

/// Feeds the hasher the encoding of `Signer::User`, without taking memory for it.
#[tactic(auto, unfolding(crate::specs::Signers::signer))]
fn add_user(hasher: &mut Hasher, address: &Digest)
    ensures { (fed : List ℕ) → Hashes hasher.old fed → Hashes hasher.new (fed ++ codecs.signer.spell (signers.User address.now)) }
{
    hasher.add([1].as_slice());
    hasher.add(&address.0);
}

/// Feeds the hasher the encoding of a signer, without taking memory for it.
fn add_signer(hasher: &mut Hasher, signer: &Signer)
    ensures { (fed : List ℕ) → Hashes hasher.old fed → Hashes hasher.new (fed ++ codecs.signer.spell signer.now) }
{
    match signer {
        Signer::Member(member) => add_member(hasher, *member),
        Signer::User(address) => add_user(hasher, address),
    }
}

/// The seal under a secret.
#[tactic(auto, unfolding(crate::specs::Seals::keyed_seal, digest_core::specs::Tagged::tagged_digest))]
fn seal_under(secret: &[u8; 32], signer: &Signer, bytes: &[u8]) -> Digest
    ensures { result ≡ keyed_seal secret.now signer.now bytes.now }
{
    let mut hasher = Hasher::begin(TAG_SEAL);
    hasher.add(secret);
    add_signer(&mut hasher, signer);
    hasher.add(bytes);
    hasher.end()
}

impl Checker for KeyedSeal {
    ghost accepts = { λ sealer signer bytes seal. bytes_eq seal.0 (keyed_seal sealer.secret signer bytes).0 };

    fn check(&self, signer: &Signer, bytes: &[u8], seal: &Digest) -> bool {
        *seal == seal_under(&self.secret, signer, bytes)
    }
}

impl Sealer for KeyedSeal {
    fn seal(&self, signer: &Signer, bytes: &[u8]) -> Digest
        ensures made { result ≡ keyed_seal self.now.secret signer.now bytes.now }
        ensures accepted { bytes_eq result.0 (keyed_seal self.now.secret signer.now bytes.now).0 ≡ true }
    {
        seal_under(&self.secret, signer, bytes)
    }
}
