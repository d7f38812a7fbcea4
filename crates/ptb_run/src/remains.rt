//! The objects that a block leaves.

ghost use Rattle.std.specs.Prelude.{◌≡◌, ◌≤◌, ◌++◌, ◌∷◌, [], IfOk, length, map};
ghost use Rattle.protocol_spec.specs.Block.Execution.{less_cost, less_cost_first, same_object, with_rest, with_rest_first, written_of};
ghost use Rattle.protocol_spec.specs.Chain.Shape.{cost};
ghost use Rattle.ptb_run.specs.Blocks.{block_of};
ghost use Rattle.ptb_run.specs.Remains.{created_below, gone_after, kept_after, listed_after, same_after};

use crate::block::Block;
use crate::commands::Site;
use crate::drawn::DrawnIds;
use crate::left::{moved_now, object_left};
use crate::written::Moved;
use chain_types::{Object, ObjectId, Transaction, object_digest};
use effects_core::Written;
use indexmap::IndexMap;
use native_calls::contents::{amount_of, with_amount};
use protocol_spec::Placed;
use std::alloc::Global;
use wire_bcs::{OutOfMemory, Seq};

/// The written objects that the block did not delete, as they are at its end.
fn keep_each(
    alloc: Global,
    version: u64,
    left: &IndexMap<ObjectId, Placed>,
    block: &Block,
    moved: &[Moved],
) -> Result<Seq<Object>, OutOfMemory>
    ensures { IfOk result (λ objects. objects ≡ kept_after version left.now.entries (block_of block.now) [] moved.now) }
{
    let mut objects = Seq::with_room(alloc, moved.len() as u64)?;
    let mut rest = moved;
    while let [one, after @ ..] = rest {
        if let Some(object) = moved_now(version, left, block, one) {
            objects.push(object)?;
        }
        rest = after;
    }
    Ok(objects)
}

/// The ids of the written objects that the block deleted.
pub(crate) fn drop_each(
    alloc: Global,
    version: u64,
    left: &IndexMap<ObjectId, Placed>,
    block: &Block,
    moved: &[Moved],
) -> Result<Seq<ObjectId>, OutOfMemory>
    ensures { IfOk result (λ ids. ids ≡ gone_after version left.now.entries (block_of block.now) [] moved.now) }
{
    let mut ids = Seq::new(alloc);
    let mut rest = moved;
    while let [one, after @ ..] = rest {
        if moved_now(version, left, block, one).is_none() {
            ids.push(one.object.id)?;
        }
        rest = after;
    }
    Ok(ids)
}

/// The objects that left the block under ids that it drew, by number.
fn create_each(
    alloc: Global,
    site: &Site,
    left: &IndexMap<ObjectId, Placed>,
    drawn: &DrawnIds,
    made: u32,
) -> Result<Seq<Object>, OutOfMemory>
    ensures { IfOk result (λ objects. objects ≡ created_below site.now.tx site.now.version left.now.entries made) }
{
    let mut objects = Seq::new(alloc);
    let mut number = 0;
    while number < made {
        let id = drawn.id_of(&site.tx, number);
        if let Some(object) = object_left(site.version, left, &id) {
            objects.push(object)?;
        }
        number += 1;
    }
    Ok(objects)
}

/// The object at another version.
fn same_object(version: u64, object: &Object) -> Object
    ensures { result ≡ same_object version object.now }
{
    Object {
        id: object.id,
        version,
        owner: object.owner,
        content: object.content,
    }
}

/// The objects that are written, all the same but for the version.
fn renew_each(alloc: Global, version: u64, moved: &[Moved]) -> Result<Seq<Object>, OutOfMemory>
    ensures { IfOk result (λ objects. objects ≡ same_after version [] moved.now) }
{
    let mut objects = Seq::with_room(alloc, moved.len() as u64)?;
    let mut rest = moved;
    while let [one, after @ ..] = rest {
        objects.push(same_object(version, &one.object))?;
        rest = after;
    }
    Ok(objects)
}

/// A written object with its owner and its digest.
fn written_of(object: &Object) -> Written
    ensures { result ≡ written_of object.now }
{
    Written {
        id: object.id,
        owner: object.owner,
        digest: object_digest(object),
    }
}

/// The loop of [`list_all`].
fn list_each(alloc: Global, objects: &[Object]) -> Result<Seq<Written>, OutOfMemory>
    ensures { IfOk result (λ written. written ≡ listed_after [] objects.now) }
{
    let mut written = Seq::with_room(alloc, objects.len() as u64)?;
    let mut rest = objects;
    while let [object, after @ ..] = rest {
        written.push(written_of(object))?;
        rest = after;
    }
    Ok(written)
}

/// The entries of effects for these objects: id, owner and digest of each.
#[tactic(auto, using(crate::proofs::Remaining::listed_are))]
pub(crate) fn list_all(alloc: Global, objects: &[Object]) -> Result<Seq<Written>, OutOfMemory>
    ensures { IfOk result (λ written. written ≡ map written_of objects.now) }
{
    list_each(alloc, objects)
}

/// What the transaction costs, in units of currency 0.
pub(crate) fn cost(tx: &Transaction) -> u64
    requires { length tx.now.commands ≤ 1024 }
    ensures { result ≡ cost tx.now }
{
    1000 + 100 * tx.commands.len()
}

/// The gas coin with the rest of the budget, up to the largest amount.
fn with_rest(tx: &Transaction, coin: &Object) -> Object
    requires { length tx.now.commands ≤ 1024 }
    ensures { result ≡ with_rest tx.now coin.now }
{
    let rest = tx.budget.saturating_sub(cost(tx));
    let amount = amount_of(&coin.content).saturating_add(rest);
    Object {
        id: coin.id,
        version: coin.version,
        owner: coin.owner,
        content: with_amount(amount, &coin.content),
    }
}

/// Gives the rest of the budget back to the first object.
fn return_rest(tx: &Transaction, objects: &mut Seq<Object>)
    requires { length tx.now.commands ≤ 1024 }
    ensures { objects.new ≡ with_rest_first tx.now objects.old }
{
    match objects.as_slice() {
        [coin, ..] => {
            let richer = with_rest(tx, coin);
            let _before = objects.set(0, richer);
        }
        [] => {}
    }
}

/// The gas coin less the cost.
fn less_cost(tx: &Transaction, coin: &Object) -> Object
    requires { length tx.now.commands ≤ 1024 }
    ensures { result ≡ less_cost tx.now coin.now }
{
    let amount = amount_of(&coin.content).saturating_sub(cost(tx));
    Object {
        id: coin.id,
        version: coin.version,
        owner: coin.owner,
        content: with_amount(amount, &coin.content),
    }
}

/// Takes the cost from the first object.
fn take_cost(tx: &Transaction, objects: &mut Seq<Object>)
    requires { length tx.now.commands ≤ 1024 }
    ensures { objects.new ≡ less_cost_first tx.now objects.old }
{
    match objects.as_slice() {
        [coin, ..] => {
            let poorer = less_cost(tx, coin);
            let _before = objects.set(0, poorer);
        }
        [] => {}
    }
}

/// What a block that succeeded leaves: the written objects, and then the created ones by number.
#[tactic(auto, unfolding(crate::specs::Blocks::block_of))]
pub(crate) fn done_objects(
    alloc: Global,
    tx: &Transaction,
    site: &Site,
    left: &IndexMap<ObjectId, Placed>,
    block: &Block,
    moved: &[Moved],
) -> Result<Seq<Object>, OutOfMemory>
    requires { length tx.now.commands ≤ 1024 }
    ensures { IfOk result (λ objects. objects ≡ with_rest_first tx.now (kept_after site.now.version left.now.entries (block_of block.now) [] moved.now) ++ created_below site.now.tx site.now.version left.now.entries (block_of block.now).made) }
{
    let mut objects = keep_each(alloc, site.version, left, block, moved)?;
    return_rest(tx, &mut objects);
    let created = create_each(alloc, site, left, &block.drawn, block.made())?;
    objects.extend(created.as_slice())?;
    Ok(objects)
}

/// What a block that failed leaves: the same objects, and the gas coin less the cost.
pub(crate) fn failed_objects(
    alloc: Global,
    tx: &Transaction,
    version: u64,
    moved: &[Moved],
) -> Result<Seq<Object>, OutOfMemory>
    requires { length tx.now.commands ≤ 1024 }
    ensures { IfOk result (λ objects. objects ≡ less_cost_first tx.now (same_after version [] moved.now)) }
{
    let mut objects = renew_each(alloc, version, moved)?;
    take_cost(tx, &mut objects);
    Ok(objects)
}
