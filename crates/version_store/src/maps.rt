//! The maps of a store, and one step of each.

ghost use Rattle.std.specs.Prelude.{◌≡◌, ◌+◌, ◌<◌, ◌≤◌, IfOk, OnOk, Some, is_some, length, true};
ghost use Rattle.std.specs.Map.{lookup, set_value};
ghost use Rattle.indexmap.specs.IndexMap.{insert_entry, spare};
ghost use Rattle.indexmap.specs.IndexSet.{insert_all, insert_key, spare as set_spare};
ghost use Rattle.chain_types.specs.Equal.{id_eq};
ghost use Rattle.version_store.specs.Steps.{newer_of, with_all_newer, with_consumer, with_consumers, with_newer, with_versions};
ghost use Rattle.version_store.specs.Changes.{Adds, HasRoom, Holds, IsEmpty, Opens, SameEntries};

use crate::fresh::key_of;
use chain_types::{HashedObject, Object, ObjectId, ObjectKey, Producer};
use digest_core::Digest;
use effects_core::HashedEffects;
use indexmap::{IndexMap, IndexSet};
use std::alloc::Global;
use std::hash::Hash;
use tables::insert_in_room;
use wire_bcs::{OutOfMemory, Seq};

/// A held version, and who made it.
#[derive(Clone, Copy)]
pub(crate) struct Kept {
    pub(crate) object: HashedObject,
    pub(crate) producer: Producer,
}

/// An executed transaction: the versions that it consumed, its effects, and how many objects it wrote. The objects are
/// in `Maps::versions`, in the order of execution.
#[derive(Drop)]
pub(crate) struct Ran {
    pub(crate) consumed: Seq<ObjectKey>,
    pub(crate) effects: HashedEffects,
    pub(crate) written: usize,
}

/// What an epoch did, in maps: versions, executions, consumers, the newest version of each id, deleted ids.
#[derive(Drop)]
pub(crate) struct Maps {
    /// The opening objects that the base lacks, and then what each executed transaction wrote.
    pub(crate) versions: IndexMap<ObjectKey, Kept>,
    pub(crate) executed: IndexMap<Digest, Ran>,
    pub(crate) consumers: IndexMap<ObjectKey, Digest>,
    /// The newest of these versions of each id.
    pub(crate) newest: IndexMap<ObjectId, HashedObject>,
    pub(crate) deleted: IndexSet<ObjectId>,
}

/// Puts a value under a key, and answers what stood there; there is room.
fn put<K: Eq + Hash + Drop, V: Drop>(map: &mut IndexMap<K, V>, key: K, value: V) -> Option<V>
    requires { 0 < spare map.old }
    ensures old { result ≡ lookup (K.eq key) map.old.entries }
    ensures entries { map.new.entries ≡ insert_entry K.eq map.old.entries key value }
    ensures room { spare map.old ≤ spare map.new + 1 }
{
    match map.insert(key, value) {
        Ok(old) => old,
        Err(_) => unreachable!(),
    }
}

/// Replaces the value under a key that is there.
fn put_back<K: Eq + Hash + Drop, V: Drop>(map: &mut IndexMap<K, V>, key: &K, value: V)
    requires { is_some (lookup (K.eq key.now) map.old.entries) ≡ true }
    ensures entries { map.new.entries ≡ set_value (K.eq key.now) map.old.entries value }
    ensures room { spare map.new ≡ spare map.old }
{
    match map.get_mut(key) {
        Some(there) => *there = value,
        None => unreachable!(),
    }
}

/// Puts each of the objects under its key; there is room.
fn add_versions(
    versions: &mut IndexMap<ObjectKey, Kept>,
    objects: &[HashedObject],
    producer: Producer,
)
    requires { length objects.now ≤ spare versions.old }
    ensures { versions.new.entries ≡ with_versions producer versions.old.entries objects.now }
{
    for object in objects {
        let key = key_of(object.object());
        let kept = Kept {
            object: *object,
            producer,
        };
        insert_in_room(versions, key, kept);
    }
}

/// Puts an object under its id, unless a newer one is there; there is room.
pub(crate) fn add_newer(newest: &mut IndexMap<ObjectId, HashedObject>, object: &HashedObject)
    requires { 0 < spare newest.old }
    ensures entries { newest.new.entries ≡ with_newer newest.old.entries object.now }
    ensures room { spare newest.old ≤ spare newest.new + 1 }
{
    let id = object.object().id;
    let Some(held) = put(newest, id, *object) else {
        return;
    };
    // What is written is mostly newer than what is held, so that one look-up does.
    if held.object().version < object.object().version {
        return;
    }
    put_back(newest, &id, held);
}

/// The newer of two versions of one object.
pub(crate) fn newer<'a>(held: &'a HashedObject, object: &'a HashedObject) -> &'a HashedObject
    ensures { result.now ≡ newer_of (Some held.now) object.now }
{
    if held.object().version < object.object().version {
        object
    } else {
        held
    }
}

/// Puts each of the objects under its id, unless a newer one is there; there is room.
fn add_all_newer(newest: &mut IndexMap<ObjectId, HashedObject>, objects: &[HashedObject])
    requires { length objects.now ≤ spare newest.old }
    ensures { newest.new.entries ≡ with_all_newer newest.old.entries objects.now }
{
    for object in objects {
        add_newer(newest, object);
    }
}

/// Marks an id; there is room.
fn add_id(deleted: &mut IndexSet<ObjectId>, id: ObjectId)
    requires { 0 < set_spare deleted.old }
    ensures keys { deleted.new.keys ≡ insert_key id_eq deleted.old.keys id }
    ensures room { set_spare deleted.old ≤ set_spare deleted.new + 1 }
{
    match deleted.insert(id) {
        Ok(_) => {}
        Err(_) => unreachable!(),
    }
}

/// Marks each of the ids; there is room.
pub(crate) fn add_ids(deleted: &mut IndexSet<ObjectId>, ids: &[ObjectId])
    requires { length ids.now ≤ set_spare deleted.old }
    ensures { deleted.new.keys ≡ insert_all id_eq deleted.old.keys ids.now }
{
    for id in ids {
        add_id(deleted, *id);
    }
}

/// Notes the transaction that consumed a key, unless one is noted; there is room.
fn add_consumer(consumers: &mut IndexMap<ObjectKey, Digest>, key: ObjectKey, tx: Digest)
    requires { 0 < spare consumers.old }
    ensures entries { consumers.new.entries ≡ with_consumer tx consumers.old.entries key }
    ensures room { spare consumers.old ≤ spare consumers.new + 1 }
{
    // A key is mostly consumed once, so that one look-up does.
    let Some(first) = put(consumers, key, tx) else {
        return;
    };
    put_back(consumers, &key, first);
}

/// Notes the transaction that consumed each of the keys, unless one is noted; there is room.
pub(crate) fn add_consumers(
    consumers: &mut IndexMap<ObjectKey, Digest>,
    keys: &[ObjectKey],
    tx: Digest,
)
    requires { length keys.now ≤ spare consumers.old }
    ensures { consumers.new.entries ≡ with_consumers tx consumers.old.entries keys.now }
{
    for key in keys {
        add_consumer(consumers, *key, tx);
    }
}

impl Maps {
    /// Empty maps. Takes no memory.
    pub(crate) fn new(alloc: Global) -> Maps
        ensures { IsEmpty result }
    {
        Maps {
            versions: IndexMap::new(alloc),
            executed: IndexMap::new(alloc),
            consumers: IndexMap::new(alloc),
            newest: IndexMap::new(alloc),
            deleted: IndexSet::new(alloc),
        }
    }

    /// The maps of an epoch that opens with these objects.
    pub(crate) fn opening(alloc: Global, objects: &[Object]) -> Result<Maps, OutOfMemory>
        ensures { IfOk result (λ maps. Opens maps objects.now) }
    {
        let hashed = HashedObject::all(alloc, objects)?;
        let held = hashed.as_slice();
        let mut maps = Maps::new(alloc);
        let Ok(()) = maps.make_room(held.len(), 0, 0) else {
            drop(maps);
            return Err(OutOfMemory);
        };
        maps.hold(held, Producer::Opening);
        Ok(maps)
    }

    /// Makes room for one execution that writes, consumes and deletes this many.
    pub(crate) fn make_room(
        &mut self,
        written: usize,
        consumed: usize,
        deleted: usize,
    ) -> Result<(), OutOfMemory>
        ensures same { SameEntries self.old self.new }
        ensures room { OnOk result (HasRoom self.new written consumed deleted) }
    {
        self.versions.reserve(written)?;
        self.newest.reserve(written)?;
        self.consumers.reserve(consumed)?;
        self.deleted.reserve(deleted)?;
        self.executed.reserve(1)?;
        Ok(())
    }

    /// Adds the objects that this producer made; there is room.
    pub(crate) fn hold(&mut self, objects: &[HashedObject], producer: Producer)
        requires { (length objects.now ≤ spare self.old.versions) × (length objects.now ≤ spare self.old.newest) }
        ensures { Holds self.old self.new producer objects.now }
    {
        add_versions(&mut self.versions, objects, producer);
        add_all_newer(&mut self.newest, objects);
    }

    /// Adds an execution; there is room.
    pub(crate) fn add(
        &mut self,
        effects: HashedEffects,
        objects: &[HashedObject],
        consumed: Seq<ObjectKey>,
    )
        requires { HasRoom self.old (length objects.now) (length consumed) (length effects.deleted) }
        ensures { Adds self.old self.new effects objects.now consumed }
    {
        let tx = effects.effects().tx;
        self.hold(objects, Producer::Tx(tx));
        add_ids(&mut self.deleted, effects.effects().deleted.as_slice());
        add_consumers(&mut self.consumers, consumed.as_slice(), tx);
        let ran = Ran {
            consumed,
            effects,
            written: objects.len(),
        };
        insert_in_room(&mut self.executed, tx, ran);
    }
}
