//! Results of natives: new objects, a changed object, an object with a new owner.

ghost use Rattle.std.specs.Prelude.{◌≡◌, ◌+◌, ◌<◌, ◌^◌, ◌∷◌, [], IfOk};
ghost use Rattle.protocol_spec.specs.Block.Natives.{new_item, gives, owned_by_all};
ghost use Rattle.native_calls.specs.Sites.{site_of};

use crate::place::Place;
use chain_types::{Content, ObjectId, Owner};
use digest_core::created_id;
use protocol_spec::{Gave, Item, Placed};
use std::alloc::Global;
use wire_bcs::{OutOfMemory, Seq};

/// A new object under the next creation number, or under the one `ahead` (0 or 1) after it.
pub(crate) fn new_item(place: &Place, ahead: u32, content: Content) -> Item
    requires { ahead < 2 }
    ensures { result ≡ new_item (site_of place.now) ahead content }
{
    Item {
        id: ObjectId(created_id(&place.tx, u64::from(place.made + ahead))),
        content,
        fresh: true,
    }
}

/// A list of one item.
pub(crate) fn one(alloc: Global, item: Item) -> Result<Seq<Item>, OutOfMemory>
    ensures { IfOk result (λ items. items ≡ item ∷ []) }
{
    let mut items = Seq::new(alloc);
    items.push(item)?;
    Ok(items)
}

/// The answer of a native with no result, and with the object that it changed, if it changed one.
pub(crate) fn gives_nothing(alloc: Global, place: &Place, changed: Option<Item>) -> Gave
    ensures { result ≡ gives (site_of place.now) [] changed }
{
    Gave::Done {
        results: Seq::new(alloc),
        changed,
        placed: None,
        made: place.made,
    }
}

/// The answer of a native with one new object as its result, and with the object that it changed, if it changed one.
pub(crate) fn gives_new(
    alloc: Global,
    place: &Place,
    content: Content,
    changed: Option<Item>,
) -> Result<Gave, OutOfMemory>
    ensures { IfOk result (λ gave. gave ≡ gives (site_of place.now) (content ∷ []) changed) }
{
    Ok(Gave::Done {
        results: one(alloc, new_item(place, 0, content))?,
        changed,
        placed: None,
        made: place.made + 1,
    })
}

/// The answer of a native that gives an object to an owner outside the block.
pub(crate) fn gives_owner(alloc: Global, place: &Place, item: Item, owner: Owner) -> Gave
    ensures { result ≡ owned_by_all (site_of place.now) item owner }
{
    Gave::Done {
        results: Seq::new(alloc),
        changed: None,
        placed: Some(Placed { item, owner }),
        made: place.made,
    }
}
