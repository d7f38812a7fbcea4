//! A store of three coins and two transactions: what it has, what is undone, and what the next epoch opens with.

ghost use Rattle.std.specs.Prelude.{◌≡◌, [], IfOk};
ghost use Rattle.version_store.specs.Stores.{are_new};

use crate::objects::{coin, digest, id, key};
use crate::same::{holds, same};
use chain_types::{HashedObject, Object, ObjectId, ObjectKey, Producer};
use digest_core::Digest;
use effects_core::{Effects, HashedEffects, Status};
use std::alloc::Global;
use std::process::Abort;
use version_store::Store;
use wire_bcs::{OutOfMemory, Seq};

/// Whether none of these objects stands there twice.
#[tactic(auto, unfolding(protocol_spec::specs::Member::Versions::versions))]
fn are_apart(alloc: Global, objects: &Seq<Object>) -> Result<bool, OutOfMemory>
    ensures { IfOk result (λ apart. apart ≡ are_new [] objects.now) }
{
    let hashed = HashedObject::all(alloc, objects.as_slice())?;
    let empty = Store::opening(alloc, &Seq::new(alloc))?;
    let apart = empty.are_new(&hashed);
    drop(empty);
    apart
}

/// A store that opens with these objects, if none stands there twice.
pub(crate) fn opened(alloc: Global, objects: &[Object]) -> Result<Option<Store>, OutOfMemory> {
    let objects = Seq::from_slice(alloc, objects)?;
    if !are_apart(alloc, &objects)? {
        return Ok(None);
    }
    Ok(Some(Store::opening(alloc, &objects)?))
}

/// Whether the store took the execution of a transaction that deleted these.
pub(crate) fn takes(
    alloc: Global,
    store: &mut Store,
    tx: u8,
    objects: &[Object],
    consumed: &[ObjectKey],
    deleted: &[ObjectId],
) -> Result<bool, OutOfMemory> {
    let effects = Effects {
        tx: digest(tx),
        status: Status::Done,
        version: 4,
        gas: 1000,
        created: 1,
        written: Seq::new(alloc),
        deleted: Seq::from_slice(alloc, deleted)?,
    };
    let effects = HashedEffects::new(alloc, effects)?;
    let objects = HashedObject::all(alloc, objects)?;
    if store.is_executed(&effects.effects().tx) || !store.are_new(&objects)? {
        return Ok(false);
    }
    store.write(effects, objects, Seq::from_slice(alloc, consumed)?)?;
    Ok(true)
}

/// Whether the store took the transaction 9, which moved the coin 2 into the coin 1 and made the coin 0.
fn takes_join(alloc: Global, store: &mut Store) -> Result<bool, OutOfMemory> {
    let joined = [coin(1, 4, 540), coin(0, 4, 10)];
    let consumed = [key(1, 1), key(2, 3)];
    let deleted = [id(2)];
    takes(
        alloc,
        store,
        9,
        joined.as_slice(),
        consumed.as_slice(),
        deleted.as_slice(),
    )
}

/// Whether the store took the transaction 8, which wrote the coin 3.
fn takes_spent(alloc: Global, store: &mut Store) -> Result<bool, OutOfMemory> {
    let spent = [coin(3, 2, 6)];
    let consumed = [key(3, 1)];
    takes(alloc, store, 8, spent.as_slice(), consumed.as_slice(), &[])
}

/// Tests what the store of three coins has after the transaction 9, which it takes once.
fn expect_kept(rt: &impl Abort, alloc: Global, store: &mut Store) -> Result<(), OutOfMemory> {
    holds(rt, takes_join(alloc, store)?);
    same(rt, store.get(&key(1, 1)).copied(), Some(coin(1, 1, 500)));
    same(rt, store.get(&key(1, 4)).copied(), Some(coin(1, 4, 540)));
    same(rt, store.get(&key(1, 2)).copied(), None);
    same(rt, store.producer(&key(2, 3)), Some(Producer::Opening));
    same(
        rt,
        store.producer(&key(0, 4)),
        Some(Producer::Tx(digest(9))),
    );
    same(rt, store.producer(&key(0, 3)), None);
    same(rt, store.consumer(&key(2, 3)), Some(digest(9)));
    same(rt, store.consumer(&key(0, 4)), None);
    same(rt, store.live(&id(1)).copied(), Some(coin(1, 4, 540)));
    same(rt, store.live(&id(2)).copied(), None);
    holds(rt, store.has(&id(2)));
    holds(rt, !store.has(&id(4)));
    holds(rt, store.is_executed(&digest(9)));
    same(rt, takes(alloc, store, 9, &[], &[], &[]), Ok(false));
    Ok(())
}

/// The version of a live object, 0 if it does not live.
fn live_version(store: &Store, byte: u8) -> u64 {
    match store.live(&id(byte)) {
        Some(object) => object.version,
        None => 0,
    }
}

/// The versions of the live objects 0 to 3.
fn live_versions(store: &Store) -> [u64; 4] {
    [
        live_version(store, 0),
        live_version(store, 1),
        live_version(store, 2),
        live_version(store, 3),
    ]
}

/// The first bytes of digests, as the digits of a number.
fn digits(txs: &Seq<Digest>) -> u64 {
    let mut number = 0u64;
    for tx in txs.as_slice() {
        number = number.wrapping_mul(10).wrapping_add(u64::from(tx.0[0]));
    }
    number
}

/// Undoes what is not kept, and answers which transactions that was.
fn undo(alloc: Global, store: &mut Store, kept: &[Digest]) -> Result<u64, OutOfMemory> {
    let undone = store.revert_to(&Seq::from_slice(alloc, kept)?)?;
    Ok(digits(&undone))
}

/// Whether these are the objects that the transaction 9 left, by ascending id.
fn are_left(store: &Store) -> Result<bool, OutOfMemory> {
    let live = store.live_list()?;
    Ok(live.as_slice() == [coin(0, 4, 10), coin(1, 4, 540), coin(3, 1, 7)].as_slice())
}

/// Tests that what stands in no checkpoint is undone, and that the next epoch opens with what lives, and nothing else.
fn expect_turned(rt: &impl Abort, alloc: Global, store: &mut Store) -> Result<(), OutOfMemory> {
    let kept = [digest(9)];
    holds(rt, takes_spent(alloc, store)?);
    same(rt, undo(alloc, store, kept.as_slice())?, 8);
    same(rt, live_versions(store), [4, 4, 0, 1]);
    store.turn()?;
    holds(rt, are_left(store)?);
    same(rt, store.get(&key(1, 1)).copied(), None);
    same(rt, store.get(&key(2, 3)).copied(), None);
    holds(rt, !store.has(&id(2)));
    holds(rt, !store.is_executed(&digest(9)));
    same(rt, store.consumer(&key(1, 1)), None);
    Ok(())
}

/// Tests a second epoch, in which another transaction 9 spent the coin 3 and deleted the coin 0.
fn expect_turned_again(
    rt: &impl Abort,
    alloc: Global,
    store: &mut Store,
) -> Result<(), OutOfMemory> {
    let spent = [coin(3, 9, 6)];
    let deleted = [id(0)];
    let taken = takes(alloc, store, 9, spent.as_slice(), &[], deleted.as_slice());
    same(rt, taken, Ok(true));
    let kept = [digest(9)];
    same(rt, undo(alloc, store, kept.as_slice()), Ok(0));
    store.turn()?;
    same(rt, live_versions(store), [0, 4, 0, 9]);
    Ok(())
}

/// Tests the store of three coins over two epochs.
fn expect_all(rt: &impl Abort, alloc: Global, store: &mut Store) -> Result<(), OutOfMemory> {
    expect_kept(rt, alloc, store)?;
    expect_turned(rt, alloc, store)?;
    expect_turned_again(rt, alloc, store)
}

/// The three coins.
fn three() -> [Object; 3] {
    [coin(3, 1, 7), coin(2, 3, 50), coin(1, 1, 500)]
}

#[test]
fn a_store_goes_through_two_epochs(rt: HostRuntime) {
    let alloc = rt.alloc();
    let Ok(Some(mut store)) = opened(alloc, three().as_slice()) else {
        return holds(&rt, false);
    };
    let said = expect_all(&rt, alloc, &mut store);
    drop(store);
    same(&rt, said, Ok(()));
}

/// Tests that all is undone if nothing is kept, the oldest reported first.
fn expect_undone(rt: &impl Abort, alloc: Global, store: &mut Store) -> Result<(), OutOfMemory> {
    holds(rt, takes_join(alloc, store)?);
    holds(rt, takes_spent(alloc, store)?);
    same(rt, undo(alloc, store, &[])?, 98);
    same(rt, live_versions(store), [0, 1, 3, 1]);
    Ok(())
}

#[test]
fn without_a_checkpoint_all_is_undone(rt: HostRuntime) {
    let alloc = rt.alloc();
    let Ok(Some(mut store)) = opened(alloc, three().as_slice()) else {
        return holds(&rt, false);
    };
    let said = expect_undone(&rt, alloc, &mut store);
    drop(store);
    same(&rt, said, Ok(()));
}

/// Tests that of two versions of one object the newer opens the next epoch.
fn expect_newer(rt: &impl Abort, store: &mut Store) -> Result<(), OutOfMemory> {
    store.turn()?;
    same(rt, live_version(store, 1), 2);
    same(rt, store.get(&key(1, 1)).copied(), None);
    Ok(())
}

#[test]
fn of_two_versions_the_newer_opens(rt: HostRuntime) {
    let alloc = rt.alloc();
    let Ok(Some(mut store)) = opened(alloc, [coin(1, 2, 5), coin(1, 1, 6)].as_slice()) else {
        return holds(&rt, false);
    };
    let said = expect_newer(&rt, &mut store);
    drop(store);
    same(&rt, said, Ok(()));
}

/// Whether none of these objects stands there twice.
fn apart(alloc: Global, objects: &[Object]) -> Result<bool, OutOfMemory> {
    are_apart(alloc, &Seq::from_slice(alloc, objects)?)
}

#[test]
fn versions_stand_once(rt: HostRuntime) {
    let alloc = rt.alloc();
    let twice = [coin(1, 1, 5), coin(1, 1, 6)];
    same(&rt, apart(alloc, twice.as_slice()), Ok(false));
    let once = [coin(1, 1, 5), coin(1, 2, 6)];
    same(&rt, apart(alloc, once.as_slice()), Ok(true));
}
