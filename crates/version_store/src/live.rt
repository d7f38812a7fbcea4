//! The live objects, and those with which the epoch opened, by ascending id.

ghost use Rattle.std.specs.Prelude.{◌≡◌, IfOk, OnOk, map};
ghost use Rattle.std.specs.BTreeMap.{values as values_in};
ghost use Rattle.indexmap.specs.IndexMap.{keys, values};
ghost use Rattle.protocol_spec.specs.Member.Versions.{live_list, with_live};
ghost use Rattle.version_store.specs.Live.{all_live, kept_id};
ghost use Rattle.version_store.specs.Openings.{all_opened, all_placed, ascending, with_opened};

use crate::maps::Kept;
use crate::store::Store;
use chain_types::{HashedObject, Object, ObjectId, ObjectKey, Producer};
use indexmap::IndexMap;
use std::alloc::Global;
use std::collections::BTreeMap;
use wire_bcs::{OutOfMemory, Seq};

/// Adds a live object, if there is one, to the map by id.
fn add_live(
    live: &mut BTreeMap<ObjectId, Object>,
    object: Option<Object>,
) -> Result<(), OutOfMemory>
    ensures { OnOk result (live.new.entries ≡ with_live live.old.entries object) }
{
    if let Some(object) = object {
        live.insert(object.id, object)?;
    }
    Ok(())
}

/// Adds the live objects of the ids of the base.
fn add_live_under(
    live: &mut BTreeMap<ObjectId, Object>,
    store: &Store,
    base: &IndexMap<ObjectId, HashedObject>,
) -> Result<(), OutOfMemory>
    ensures { OnOk result (live.new.entries ≡ all_live store.now live.old.entries (keys base.now)) }
{
    for id in base.keys() {
        add_live(live, store.live(id).copied())?;
    }
    Ok(())
}

/// Adds the live objects of the ids of these versions.
fn add_live_among(
    live: &mut BTreeMap<ObjectId, Object>,
    store: &Store,
    versions: &IndexMap<ObjectKey, Kept>,
) -> Result<(), OutOfMemory>
    ensures { OnOk result (live.new.entries ≡ all_live store.now live.old.entries (map kept_id (values versions.now))) }
{
    for kept in versions.values() {
        add_live(live, store.live(&kept.object.object().id).copied())?;
    }
    Ok(())
}

/// Adds the objects of the base.
fn add_base(
    opened: &mut BTreeMap<ObjectId, Object>,
    base: &IndexMap<ObjectId, HashedObject>,
) -> Result<(), OutOfMemory>
    ensures { OnOk result (opened.new.entries ≡ all_placed opened.old.entries (values base.now)) }
{
    for object in base.values() {
        add_live(opened, Some(*object.object()))?;
    }
    Ok(())
}

/// Adds a version, if the epoch opened with it.
fn add_opened(opened: &mut BTreeMap<ObjectId, Object>, kept: &Kept) -> Result<(), OutOfMemory>
    ensures { OnOk result (opened.new.entries ≡ with_opened opened.old.entries kept.now.producer kept.now.object) }
{
    match kept.producer {
        Producer::Opening => add_live(opened, Some(*kept.object.object())),
        Producer::Tx(_) => Ok(()),
    }
}

/// Adds the versions with which the epoch opened.
fn add_opened_among(
    opened: &mut BTreeMap<ObjectId, Object>,
    versions: &IndexMap<ObjectKey, Kept>,
) -> Result<(), OutOfMemory>
    ensures { OnOk result (opened.new.entries ≡ all_opened opened.old.entries (values versions.now)) }
{
    for kept in versions.values() {
        add_opened(opened, kept)?;
    }
    Ok(())
}

/// The values of a map, in the order of its keys.
fn values_of(alloc: Global, map: BTreeMap<ObjectId, Object>) -> Result<Vec<Object>, OutOfMemory>
    ensures { IfOk result (λ v. v.items ≡ values_in map) }
{
    Ok(map.into_values().collect(alloc)?)
}

impl Store {
    /// The live objects by ascending id. Time grows with the number of held versions.
    pub fn live_list(&self) -> Result<Seq<Object>, OutOfMemory>
        ensures { IfOk result (λ objects. objects ≡ live_list self.now.opening self.now.executed) }
    {
        let mut live = BTreeMap::new(self.alloc);
        add_live_under(&mut live, self, &self.base)?;
        add_live_among(&mut live, self, &self.maps.versions)?;
        let objects = values_of(self.alloc, live)?;
        Ok(Seq::from_vec(objects))
    }

    /// The objects with which the epoch opened, by ascending id; of two with one id the last. Time grows with the
    /// number of held versions.
    pub fn opening_list(&self) -> Result<Seq<Object>, OutOfMemory>
        ensures { IfOk result (λ objects. objects ≡ ascending self.now.opening) }
    {
        let mut opened = BTreeMap::new(self.alloc);
        add_base(&mut opened, &self.base)?;
        add_opened_among(&mut opened, &self.maps.versions)?;
        let objects = values_of(self.alloc, opened)?;
        Ok(Seq::from_vec(objects))
    }
}
