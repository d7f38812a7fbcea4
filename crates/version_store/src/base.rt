//! The base: the objects with which the epoch opened, one version of each id.

ghost use Rattle.std.specs.Prelude.{◌≡◌, ◌≤◌, [], IfOk, None, drop, length, option_copied, if◌then◌else◌};
ghost use Rattle.std.specs.List.{list_any};
ghost use Rattle.std.specs.Map.{lookup};
ghost use Rattle.indexmap.specs.IndexMap.{index_map_len, spare, values};
ghost use Rattle.chain_types.specs.Equal.{id_eq};
ghost use Rattle.version_store.specs.Bases.{at_version, front_entries};
ghost use Rattle.version_store.specs.Steps.{with_all_newer};

use crate::maps::add_newer;
use chain_types::{HashedObject, Object, ObjectId, ObjectKey};
use indexmap::{IndexMap, IndexSet};
use std::alloc::Global;
use tables::insert_new;
use wire_bcs::OutOfMemory;

/// The objects before the first one that repeats the id of an earlier one, each under its id.
pub(crate) fn front_of(
    alloc: Global,
    objects: &[Object],
) -> Result<IndexMap<ObjectId, HashedObject>, OutOfMemory>
    ensures { IfOk result (λ m. m.entries ≡ front_entries [] objects.now) }
{
    let mut front = IndexMap::new(alloc);
    for object in objects {
        if front.contains_key(&object.id) {
            return Ok(front);
        }
        insert_new(&mut front, object.id, HashedObject::new(*object))?;
    }
    Ok(front)
}

/// The objects after the first `count`.
#[tactic(auto, using(crate::proofs::Opened::slice_rest))]
pub(crate) fn behind(objects: &[Object], count: usize) -> &[Object]
    requires { count ≤ length objects.now }
    ensures { result.now ≡ drop count objects.now }
{
    &objects[count..]
}

/// The object of this version; none exactly if there is no object of the id, or it has another version.
pub(crate) fn at_version<'a>(
    base: &'a IndexMap<ObjectId, HashedObject>,
    key: &ObjectKey,
) -> Option<&'a HashedObject>
    ensures { option_copied result ≡ at_version key.now.version (lookup (id_eq key.now.id) base.now.entries) }
{
    match base.get(&key.id) {
        Some(object) => {
            if object.object().version == key.version {
                Some(object)
            } else {
                None
            }
        }
        None => None,
    }
}

/// Puts each of these objects under its id, unless a newer one is there; there is room.
pub(crate) fn add_newest(
    base: &mut IndexMap<ObjectId, HashedObject>,
    newest: &IndexMap<ObjectId, HashedObject>,
)
    requires { index_map_len newest.now ≤ spare base.old }
    ensures { base.new.entries ≡ with_all_newer base.old.entries (values newest.now) }
{
    for object in newest.values() {
        add_newer(base, object);
    }
}

/// Takes out the objects with these ids.
pub(crate) fn take_out(base: &mut IndexMap<ObjectId, HashedObject>, ids: &IndexSet<ObjectId>)
    ensures { (id : ObjectId) → lookup (id_eq id) base.new.entries ≡ (if list_any (id_eq id) ids.now.keys then None else lookup (id_eq id) base.old.entries) }
{
    for id in ids.iter() {
        base.swap_remove(id);
    }
}
