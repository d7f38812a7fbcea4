//! The shared objects with which an epoch opens.

ghost use Rattle.std.specs.Prelude.{◌≡◌, ◌++◌, ◌∷◌, [], IfOk, OnOk, false, filter, fold, map};
ghost use Rattle.indexmap.specs.IndexMap.{insert_entry};
ghost use Rattle.protocol_spec.specs.Chain.Words.{repeats};
ghost use Rattle.chain_types.specs.Equal.{id_eq};
ghost use Rattle.version_assign.specs.Books.{IsOpening, object_in};
ghost use Rattle.version_assign.specs.Calls.{id_of, is_shared_one};
ghost use Rattle.version_assign.specs.Steps.{with_shared, with_all_shared};

use chain_types::{Object, ObjectId, Owner};
use indexmap::IndexMap;
use std::alloc::Global;
use wire_bcs::{OutOfMemory, Seq};

/// Whether the object is shared.
pub(crate) fn is_shared_one(object: &Object) -> bool
    ensures { result ≡ is_shared_one object.now }
{
    matches!(object.owner, Owner::Shared(_))
}

/// Puts the object under its id, if it is shared.
fn add_shared(map: &mut IndexMap<ObjectId, Object>, object: &Object) -> Result<(), OutOfMemory>
    ensures { OnOk result (map.new.entries ≡ with_shared map.old.entries object.now) }
{
    if is_shared_one(object) {
        map.insert(object.id, *object)?;
    }
    Ok(())
}

/// The shared objects, each under its id; no two objects have one id.
pub(crate) fn shared_objects(
    alloc: Global,
    objects: &Seq<Object>,
) -> Result<IndexMap<ObjectId, Object>, OutOfMemory>
    ensures { IfOk result (λ map. map.entries ≡ with_all_shared [] objects.now) }
{
    let mut map = IndexMap::new(alloc);
    let mut rest = objects.as_slice();
    while let [object, after @ ..] = rest {
        add_shared(&mut map, object)?;
        rest = after;
    }
    Ok(map)
}
