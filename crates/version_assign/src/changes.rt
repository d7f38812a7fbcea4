//! What an epoch changed, and the shared objects with which the next one opens.

ghost use Rattle.std.specs.Prelude.{◌≡◌, OnErr, OnOk, None, Some};
ghost use Rattle.version_assign.specs.Changes.{AreShared, Changes, IsOwn, Puts};
ghost use Rattle.version_assign.specs.Sharing.{if_shared};
ghost use Rattle.protocol_spec.specs.Chain.Words.{Each};

use crate::shared::is_shared_one;
use chain_types::{Object, ObjectId};
use indexmap::IndexMap;
use wire_bcs::OutOfMemory;

/// An object that an epoch changed, as it lives at its end; none if it no longer lives.
#[derive(Clone, Copy)]
pub struct Change {
    pub id: ObjectId,
    pub lives: Option<Object>,
}

/// The object, if it is shared.
fn shared_now(now: Option<Object>) -> Option<Object>
    ensures { result ≡ if_shared now }
{
    match now {
        Some(object) => {
            if is_shared_one(&object) {
                Some(object)
            } else {
                None
            }
        }
        None => None,
    }
}

/// Puts an object under an id.
#[tactic(auto, using(crate::proofs::Changing::puts_some))]
fn put(
    opening: &mut IndexMap<ObjectId, Object>,
    id: ObjectId,
    object: Object,
) -> Result<(), OutOfMemory>
    ensures ok { OnOk result (Puts opening.old.entries opening.new.entries id (Some object)) }
    ensures err { OnErr result (opening.new.entries ≡ opening.old.entries) }
{
    opening.insert(id, object)?;
    Ok(())
}

/// Takes out what stands under an id.
#[tactic(auto, using(crate::proofs::Changing::puts_none))]
fn take_out(opening: &mut IndexMap<ObjectId, Object>, id: &ObjectId)
    ensures { Puts opening.old.entries opening.new.entries id.now None }
{
    opening.swap_remove(id);
}

/// One change: a shared object is put under its id, and else nothing stands there.
fn change_one(opening: &mut IndexMap<ObjectId, Object>, change: &Change) -> Result<(), OutOfMemory>
    ensures ok { OnOk result (Puts opening.old.entries opening.new.entries change.now.id (if_shared change.now.lives)) }
    ensures err { OnErr result (opening.new.entries ≡ opening.old.entries) }
{
    match shared_now(change.lives) {
        Some(object) => put(opening, change.id, object),
        None => {
            take_out(opening, &change.id);
            Ok(())
        }
    }
}

/// The changes, one after the other.
pub(crate) fn change_all(
    opening: &mut IndexMap<ObjectId, Object>,
    changes: &[Change],
) -> Result<(), OutOfMemory>
    requires own { Each IsOwn changes.now }
    requires shared { AreShared opening.old.entries }
    ensures shared { AreShared opening.new.entries }
    ensures changes { OnOk result (Changes opening.old.entries opening.new.entries changes.now) }
{
    let mut rest = changes;
    while let [change, after @ ..] = rest {
        change_one(opening, change)?;
        rest = after;
    }
    Ok(())
}
