//! The certificates that a member holds in an epoch, and the first two of them that consume one version.

ghost use Rattle.std.specs.Prelude.{◌≡◌, ◌+◌, ◌<◌, ◌≤◌, ◌++◌, ◌∷◌, [], OnErr, OnOk, false, find, is_some, length, map, option_map, position};
ghost use Rattle.std.specs.List.{list_any};
ghost use Rattle.std.specs.Vec.{vec_capacity, vec_len};
ghost use Rattle.indexmap.specs.IndexMap.{spare};
ghost use Rattle.indexmap.specs.IndexSet.{spare as set_spare};
ghost use Rattle.chain_types.specs.Equal.{digest_eq};
ghost use Rattle.protocol_spec.specs.Chain.Words.{first_of, first_some, repeats};
ghost use Rattle.protocol_spec.specs.Member.Checkpoints.{held_of};
ghost use Rattle.protocol_spec.specs.Member.Member.{consumes, fork_in};
ghost use Rattle.vote_rules.specs.Holders.{at_place, cert_of, digest_of, fork_by, meets, sides, with_holder, with_holders};

use chain_messages::Certificate;
use chain_types::{ObjectKey, owned_keys};
use digest_core::Digest;
use indexmap::{IndexMap, IndexSet};
use protocol_spec::Held;
use std::alloc::Global;
use std::marker::Model;
use tables::insert_in_room;
use wire_bcs::OutOfMemory;

/// Notes the held transaction that consumes a key, unless one is noted; there is room.
fn add_holder(holders: &mut IndexMap<ObjectKey, Digest>, key: ObjectKey, tx: Digest)
    requires { 0 < spare holders.old }
    ensures entries { holders.new.entries ≡ with_holder tx holders.old.entries key }
    ensures room { spare holders.old ≤ spare holders.new + 1 }
{
    if !holders.contains_key(&key) {
        insert_in_room(holders, key, tx);
    }
}

/// Notes this transaction as the one that consumes each of the keys, unless an earlier one is noted for it; there is
/// room.
fn add_holders(holders: &mut IndexMap<ObjectKey, Digest>, keys: &[ObjectKey], tx: Digest)
    requires { length keys.now ≤ spare holders.old }
    ensures { holders.new.entries ≡ with_holders tx holders.old.entries keys.now }
{
    for key in keys {
        add_holder(holders, *key, tx);
    }
}

/// Adds the digest of a newly held transaction; there is room.
fn note_digest(digests: &mut IndexSet<Digest>, tx: Digest)
    requires room { 0 < set_spare digests.old }
    requires new { list_any (λ d. digest_eq tx d) digests.old.keys ≡ false }
    ensures { digests.new.keys ≡ digests.old.keys ++ tx ∷ [] }
{
    match digests.insert(tx) {
        Ok(_) => {}
        Err(_) => unreachable!(),
    }
}

/// Appends a certificate to a list that has room for it.
fn push_in_room(all: &mut Vec<Held>, held: Held)
    requires { vec_len all.old < vec_capacity all.old }
    ensures { all.new.items ≡ all.old.items ++ held ∷ [] }
{
    match all.push(held) {
        Ok(()) => {}
        Err(_) => unreachable!(),
    }
}

/// The certificate that is held at this place.
fn cert_at(held: &[Held], place: Option<usize>) -> Option<&Certificate>
    ensures { option_map (λ (c : _). c.now) result ≡ option_map cert_of (at_place held.now place) }
{
    match place {
        Some(place) => match held.get(place) {
            Some(held) => Some(held.cert.get()),
            None => None,
        },
        None => None,
    }
}

/// Two held transactions that consume one version, the one held before first.
#[derive(Clone, Copy, Debug, PartialEq, Eq)]
pub struct Fork {
    pub key: ObjectKey,
    pub first: Digest,
    pub second: Digest,
}

/// The certificates that a member holds in one epoch. Contracts see them in the order of holding.
#[derive(Drop)]
pub struct CertificateStore {
    held: Vec<Held>,
    /// The digests of the held transactions, in the same order.
    digests: IndexSet<Digest>,
    /// The first held transaction that consumes each version.
    holders: IndexMap<ObjectKey, Digest>,
    fork: Option<Fork>,
    alloc: Global,
}

impl Model for CertificateStore {
    ghost use Rattle.vote_rules.specs.Holders.{HeldList, IsKept};

    ghost Value = { HeldList };

    ghost view = { λ b. b.held.items };

    ghost invariant = { λ b. IsKept b.held.items b.digests.keys b.holders.entries b.fork };
}

impl CertificateStore {
    /// Nothing held. Takes no memory.
    pub fn new(alloc: Global) -> CertificateStore
        ensures { result ≡ [] }
    {
        CertificateStore {
            held: Vec::new(alloc),
            digests: IndexSet::new(alloc),
            holders: IndexMap::new(alloc),
            fork: None,
            alloc,
        }
    }

    /// The held certificates, in the order of holding, no transaction twice. Takes no memory.
    pub fn as_slice(&self) -> &[Held]
        ensures value { result.now ≡ self.now }
        ensures apart { repeats digest_eq (map digest_of result.now) ≡ false }
    {
        self.held.as_slice()
    }

    /// Whether a certificate of this transaction is held. Takes no memory.
    pub fn has(&self, tx: &Digest) -> bool
        ensures { result ≡ is_some (held_of self.now tx.now) }
    {
        self.digests.contains(tx)
    }

    /// The place of this transaction's certificate, from 0; none exactly if none is held. Takes no memory.
    fn place(&self, tx: &Digest) -> Option<usize>
        ensures { result ≡ position (digest_eq tx.now) (map digest_of self.now) }
    {
        self.digests.get_index_of(tx)
    }

    /// The held certificate of this transaction; none exactly if none is held. Takes no memory.
    #[tactic(auto, using(crate::proofs::Holding::found_cert))]
    pub fn get(&self, tx: &Digest) -> Option<&Certificate>
        ensures { option_map (λ (c : _). c.now) result ≡ option_map cert_of (held_of self.now tx.now) }
    {
        let place = self.place(tx);
        cert_at(self.as_slice(), place)
    }

    /// The first held transaction that consumes the version. Takes no memory.
    fn holder(&self, key: &ObjectKey) -> Option<Digest>
        ensures { result ≡ option_map digest_of (find (consumes key.now) self.now) }
    {
        self.holders.get(key).copied()
    }

    /// The first of these versions that a held transaction consumes, and the first transaction that does. Takes no memory.
    pub fn fork_with(&self, keys: &[ObjectKey]) -> Option<(ObjectKey, Digest)>
        ensures { result ≡ first_of (meets self.now) keys.now }
    {
        let mut rest = keys;
        while let [key, after @ ..] = rest {
            if let Some(first) = self.holder(key) {
                return Some((*key, first));
            }
            rest = after;
        }
        None
    }

    /// The first fork among those held. Takes no memory.
    pub fn fork(&self) -> Option<Fork>
        ensures { result ≡ option_map sides (fork_in [] self.now) }
    {
        self.fork
    }

    /// The first fork once the transaction `tx`, which consumes these versions, is held too. Takes no memory.
    fn fork_behind(&self, keys: &[ObjectKey], tx: &Digest) -> Option<Fork>
        ensures { result ≡ first_some (option_map sides (fork_in [] self.now) ∷ fork_by tx.now (first_of (meets self.now) keys.now) ∷ []) }
    {
        let known = self.fork();
        if known.is_some() {
            return known;
        }
        match self.fork_with(keys) {
            Some((key, first)) => Some(Fork {
                key,
                first,
                second: *tx,
            }),
            None => None,
        }
    }

    /// Holds a certificate, of a transaction of which none is held. A refusal changes nothing.
    pub fn hold(&mut self, held: Held) -> Result<(), OutOfMemory>
        requires new { is_some (held_of self.old held.digest) ≡ false }
        ensures ok { OnOk result (self.new ≡ self.old ++ held ∷ []) }
        ensures err { OnErr result (self.new ≡ self.old) }
    {
        let keys = owned_keys(self.alloc, &held.cert.get().tx)?;
        let fork = self.fork_behind(keys.as_slice(), &held.digest);
        self.held.reserve(1)?;
        self.digests.reserve(1)?;
        self.holders.reserve(keys.as_slice().len())?;
        add_holders(&mut self.holders, keys.as_slice(), held.digest);
        note_digest(&mut self.digests, held.digest);
        push_in_room(&mut self.held, held);
        self.fork = fork;
        Ok(())
    }
}
