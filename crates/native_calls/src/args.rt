//! The arguments of a native.

ghost use Rattle.std.specs.Prelude.{◌≡◌, IsTrue};
ghost use Rattle.protocol_spec.specs.Block.Natives.{number_at, item_at, items_at};
ghost use Rattle.native_calls.specs.Forms.{has_item};

use protocol_spec::{Given, Item};

/// The number at a place; 0 if something else stands there.
pub(crate) fn number_at(args: &[Given], place: usize) -> u64
    ensures { result ≡ number_at args.now place }
{
    match args.get(place) {
        Some(Given::Number(number)) => *number,
        Some(Given::Item(_)) | Some(Given::Items(_)) | None => 0,
    }
}

/// The object at a place, at which one stands.
pub(crate) fn item_at(args: &[Given], place: usize) -> Item
    requires { IsTrue (has_item place args.now) }
    ensures { result ≡ item_at args.now place }
{
    match args.get(place) {
        Some(Given::Item(item)) => *item,
        Some(Given::Number(_)) | Some(Given::Items(_)) | None => unreachable!(),
    }
}

/// The list of objects at a place; empty if something else stands there.
pub(crate) fn items_at(args: &[Given], place: usize) -> &[Item]
    ensures { result.now ≡ items_at args.now place }
{
    match args.get(place) {
        Some(Given::Items(items)) => items.as_slice(),
        Some(Given::Number(_)) | Some(Given::Item(_)) | None => &[],
    }
}
