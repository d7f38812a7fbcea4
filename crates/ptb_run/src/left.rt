//! What left a block, by id, and what an object is at the end of the block.

ghost use Rattle.std.specs.Prelude.{◌≡◌, [], IfOk, OnOk};
ghost use Rattle.protocol_spec.specs.Block.Execution.{object_at};
ghost use Rattle.ptb_run.specs.Blocks.{block_of};
ghost use Rattle.ptb_run.specs.Left.{firsts_after, moved_now, object_left, with_first};

use crate::block::Block;
use crate::value::Value;
use crate::written::Moved;
use chain_types::{Object, ObjectId, Owner};
use indexmap::IndexMap;
use protocol_spec::{Item, Placed};
use std::alloc::Global;
use tables::insert_new;
use wire_bcs::OutOfMemory;

/// Notes an object that left the block, unless one with its id is noted already.
fn note_first(left: &mut IndexMap<ObjectId, Placed>, placed: &Placed) -> Result<(), OutOfMemory>
    ensures { OnOk result (left.new.entries ≡ with_first left.old.entries placed.now) }
{
    if left.contains_key(&placed.item.id) {
        return Ok(());
    }
    insert_new(left, placed.item.id, *placed)
}

/// The first object of each id among those that left the block.
pub(crate) fn firsts_of(
    alloc: Global,
    placed: &[Placed],
) -> Result<IndexMap<ObjectId, Placed>, OutOfMemory>
    ensures { IfOk result (λ left. left.entries ≡ firsts_after [] placed.now) }
{
    let mut left = IndexMap::new(alloc);
    let mut rest = placed;
    while let [one, after @ ..] = rest {
        note_first(&mut left, one)?;
        rest = after;
    }
    Ok(left)
}

/// An item as an object of this owner, at this version.
fn object_at(version: u64, owner: Owner, item: &Item) -> Object
    ensures { result ≡ object_at version owner item.now }
{
    Object {
        id: item.id,
        version,
        owner,
        content: item.content,
    }
}

/// The object of this id as it left the block, at its new version; none if none left.
pub(crate) fn object_left(
    version: u64,
    left: &IndexMap<ObjectId, Placed>,
    id: &ObjectId,
) -> Option<Object>
    ensures { result ≡ object_left version left.now.entries id.now }
{
    match left.get(id) {
        Some(placed) => Some(object_at(version, placed.owner, &placed.item)),
        None => None,
    }
}

/// What an object is at the end of the block: in its place, or where it went; none if it is deleted.
#[tactic(auto, unfolding(crate::specs::Blocks::block_of))]
pub(crate) fn moved_now(
    version: u64,
    left: &IndexMap<ObjectId, Placed>,
    block: &Block,
    moved: &Moved,
) -> Option<Object>
    ensures { result ≡ moved_now version left.now.entries (block_of block.now) moved.now }
{
    match block.slots.at(moved.spot) {
        Some(Value::Object(item)) => Some(object_at(version, moved.object.owner, item)),
        Some(Value::Pure(_)) | Some(Value::Vector { .. }) | None => {
            object_left(version, left, &moved.object.id)
        }
    }
}
