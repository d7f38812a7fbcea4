//! The store of an epoch's versions and executions.

ghost use Rattle.std.specs.Prelude.{◌≡◌, [], IfOk, OnErr, OnOk, false, true, is_some, option_copied, option_map};
ghost use Rattle.effects_core.specs.Effects.{digest_of_effects};
ghost use Rattle.protocol_spec.specs.Member.Versions.{Execution, Version, consumer_of, execution_of, is_executed, live, newest, object_in, version_at};
ghost use Rattle.version_store.specs.Stores.{are_new, executed_as, held_in, with_execution};

use crate::base::{at_version, behind, front_of};
use crate::maps::{Maps, newer};
use chain_types::{HashedObject, Object, ObjectId, ObjectKey, Producer};
use digest_core::Digest;
use effects_core::{Effects, HashedEffects};
use indexmap::IndexMap;
use std::alloc::Global;
use std::marker::Model;
use wire_bcs::{OutOfMemory, Seq};

/// What a member holds in an epoch. Contracts see the objects with which the epoch opened, and the executed
/// transactions in order.
#[derive(Drop)]
pub struct Store {
    /// The objects with which the epoch opened, under their ids. After a turn these are all of them; of a set-up that
    /// repeats an id they are those before the first repetition, and the others are among the versions of `maps`.
    pub(crate) base: IndexMap<ObjectId, HashedObject>,
    /// Whether contracts see the base by ascending id, as after a turn, or in its own order.
    pub(crate) turned: bool,
    /// What this epoch wrote, executed, consumed and deleted.
    pub(crate) maps: Maps,
    /// How many of the versions of `maps`, the first ones, the epoch opened with.
    pub(crate) opened: usize,
    pub(crate) alloc: Global,
}

impl Model for Store {
    ghost use Rattle.version_store.specs.Stores.{Stored};
    ghost use Rattle.version_store.specs.Bases.{IsHeld, stored_over};

    ghost Value = { Stored };

    ghost view = { λ s. stored_over s.turned s.base.entries s.opened s.maps };

    ghost invariant = { λ s. IsHeld s.turned s.base.entries s.opened s.maps };
}

impl Store {
    /// The store of an epoch that opens with these objects, in which no version comes twice.
    pub fn opening(alloc: Global, objects: &Seq<Object>) -> Result<Store, OutOfMemory>
        requires { are_new [] objects.now ≡ true }
        ensures { IfOk result (λ s. s ≡ record { opening = objects.now; executed = [] }) }
    {
        let base = front_of(alloc, objects.as_slice())?;
        let rest = behind(objects.as_slice(), base.len());
        let Ok(maps) = Maps::opening(alloc, rest) else {
            drop(base);
            return Err(OutOfMemory);
        };
        Ok(Store {
            base,
            turned: false,
            maps,
            opened: rest.len(),
            alloc,
        })
    }

    /// Adds an executed transaction: its effects, the objects that it wrote, and the versions that it consumed.
    /// The transaction is new, and so is each written version. A refusal changes nothing.
    pub fn write(
        &mut self,
        effects: HashedEffects,
        objects: Seq<HashedObject>,
        consumed: Seq<ObjectKey>,
    ) -> Result<(), OutOfMemory>
        requires first { is_executed self.old.executed effects.tx ≡ false }
        requires new { are_new (held_in self.old) objects ≡ true }
        ensures ok { OnOk result (self.new ≡ with_execution self.old (executed_as effects objects consumed)) }
        ensures err { OnErr result (self.new ≡ self.old) }
    {
        self.maps.make_room(
            objects.as_slice().len(),
            consumed.as_slice().len(),
            effects.effects().deleted.as_slice().len(),
        )?;
        self.maps.add(effects, objects.as_slice(), consumed);
        Ok(())
    }

    /// The object of this version; none exactly if the version is not held. Takes no memory.
    pub fn get(&self, key: &ObjectKey) -> Option<&Object>
        ensures { option_copied result ≡ option_map object_in (version_at (held_in self.now) key.now) }
    {
        match self.hashed(key) {
            Some(held) => Some(held.object()),
            None => None,
        }
    }

    /// [`Store::get`] with the object's digest, which was taken when the object was written. Takes no memory.
    pub fn hashed(&self, key: &ObjectKey) -> Option<&HashedObject>
        ensures { option_copied result ≡ option_map object_in (version_at (held_in self.now) key.now) }
    {
        match at_version(&self.base, key) {
            Some(object) => Some(object),
            None => match self.maps.versions.get(key) {
                Some(kept) => Some(&kept.object),
                None => None,
            },
        }
    }

    /// Who made this version; none exactly if it is not held. Takes no memory.
    pub fn producer(&self, key: &ObjectKey) -> Option<Producer>
        ensures { result ≡ option_map (λ (v : Version). v.producer) (version_at (held_in self.now) key.now) }
    {
        match at_version(&self.base, key) {
            Some(_) => Some(Producer::Opening),
            None => match self.maps.versions.get(key) {
                Some(kept) => Some(kept.producer),
                None => None,
            },
        }
    }

    /// The transaction that consumed this version; none exactly if no executed one did. Takes no memory.
    pub fn consumer(&self, key: &ObjectKey) -> Option<Digest>
        ensures { result ≡ option_map (λ (x : Execution). x.digest) (consumer_of self.now.executed key.now) }
    {
        self.maps.consumers.get(key).copied()
    }

    /// The newest held version of an id; none exactly if none is held, or the object was deleted. Takes no memory.
    pub fn live(&self, id: &ObjectId) -> Option<&Object>
        ensures { option_copied result ≡ live self.now.opening self.now.executed id.now }
    {
        match self.live_hashed(id) {
            Some(held) => Some(held.object()),
            None => None,
        }
    }

    /// [`Store::live`] with the object's digest. Takes no memory.
    #[tactic(auto, unfolding(protocol_spec::specs::Member::Versions::live))]
    fn live_hashed(&self, id: &ObjectId) -> Option<&HashedObject>
        ensures { option_copied result ≡ live self.now.opening self.now.executed id.now }
    {
        if self.maps.deleted.contains(id) {
            return None;
        }
        match (self.base.get(id), self.maps.newest.get(id)) {
            (Some(held), Some(object)) => Some(newer(held, object)),
            (Some(held), None) => Some(held),
            (None, object) => object,
        }
    }

    /// Whether a version of the id is held, deleted or not. Takes no memory.
    pub fn has(&self, id: &ObjectId) -> bool
        ensures { result ≡ is_some (newest id.now (held_in self.now)) }
    {
        self.base.contains_key(id) || self.maps.newest.contains_key(id)
    }

    /// Whether the transaction was executed. Takes no memory.
    pub fn is_executed(&self, tx: &Digest) -> bool
        ensures { result ≡ is_executed self.now.executed tx.now }
    {
        self.maps.executed.contains_key(tx)
    }

    /// The effects of an executed transaction; none exactly if it was not executed. Takes no memory.
    pub fn executed(&self, tx: &Digest) -> Option<&Effects>
        ensures { option_map (λ (e : _). e.now) result ≡ option_map (λ (x : Execution). x.gave.effects) (execution_of self.now.executed tx.now) }
    {
        match self.maps.executed.get(tx) {
            Some(ran) => Some(ran.effects.effects()),
            None => None,
        }
    }

    /// The digest of what an executed transaction did; none exactly if it was not executed. Takes no memory.
    pub fn executed_digest(&self, tx: &Digest) -> Option<Digest>
        ensures { result ≡ option_map (λ (x : Execution). digest_of_effects x.gave.effects) (execution_of self.now.executed tx.now) }
    {
        match self.maps.executed.get(tx) {
            Some(ran) => Some(ran.effects.digest()),
            None => None,
        }
    }
}
