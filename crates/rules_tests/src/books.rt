//! The books of a member: locks, votes, and held certificates with the first fork among them.

ghost use Rattle.std.specs.Prelude.{◌≡◌, []};

use crate::objects::{ALICE, coin, digest, id, key, reference};
use crate::same::{holds, same};
use chain_messages::Certificate;
use chain_types::{DecideRefusal, Input, ObjectRef, Transaction, object_digest};
use digest_core::Digest;
use lock_table::{LockRefusal, LockTable};
use protocol_spec::{Held, SharedCertificate};
use std::alloc::Global;
use std::process::Abort;
use version_store::Store;
use vote_rules::{CertificateStore, Fork, VoteStore};
use wire_bcs::{OutOfMemory, Seq};

/// Tests that all versions are locked or none, for one transaction, which may lock them again.
fn expect_locks(rt: &impl Abort, alloc: Global, table: &mut LockTable) -> Result<(), OutOfMemory> {
    let (one, two) = (digest(1), digest(2));
    same(rt, table.locked_by(&key(1, 5)), None);
    let both = Seq::from_slice(alloc, [key(1, 5), key(2, 5)].as_slice())?;
    same(rt, table.lock_all(&both, &one), Ok(()));
    same(rt, table.lock_all(&both, &one), Ok(()));
    same(rt, table.locked_by(&key(1, 5)), Some(one));
    same(rt, table.locked_by(&key(2, 5)), Some(one));
    let wanted = Seq::from_slice(alloc, [key(3, 5), key(2, 5), key(1, 5)].as_slice())?;
    let refusal = LockRefusal::Locked {
        key: key(2, 5),
        by: one,
    };
    same(rt, table.lock_all(&wanted, &two), Err(refusal));
    same(rt, table.locked_by(&key(3, 5)), None);
    same(rt, table.locked_by(&key(2, 5)), Some(one));
    let other = Seq::from_slice(alloc, [key(2, 6)].as_slice())?;
    same(rt, table.lock_all(&other, &two), Ok(()));
    same(rt, table.locked_by(&key(2, 6)), Some(two));
    table.clear();
    same(rt, table.locked_by(&key(1, 5)), None);
    same(rt, table.lock_all(&both, &two), Ok(()));
    same(rt, table.locked_by(&key(2, 5)), Some(two));
    Ok(())
}

#[test]
fn locks_all_or_none(rt: HostRuntime) {
    let alloc = rt.alloc();
    let mut table = LockTable::new(alloc);
    let said = expect_locks(&rt, alloc, &mut table);
    drop(table);
    same(&rt, said, Ok(()));
}

/// A transaction of Alice's without commands.
fn transaction(alloc: Global, gas: ObjectRef, inputs: Seq<Input>) -> Transaction {
    Transaction {
        epoch: 0,
        sender: ALICE,
        gas,
        budget: 2000,
        inputs,
        commands: Seq::new(alloc),
    }
}

/// Whether there is no vote for a transaction under this digest that spends the coin 5, or why.
fn refused(
    alloc: Global,
    book: &VoteStore,
    digest: &Digest,
) -> Result<Option<DecideRefusal>, OutOfMemory> {
    let store = Store::opening(
        alloc,
        &Seq::from_slice(alloc, [coin(5, 1, 5000)].as_slice())?,
    )?;
    let gas = ObjectRef {
        id: id(5),
        version: 1,
        digest: object_digest(&coin(5, 1, 5000)),
    };
    let tx = transaction(alloc, gas, Seq::new(alloc));
    let refusal = book.decide(alloc, &store, &tx, digest).err();
    drop(tx);
    drop(store);
    Ok(refusal)
}

/// Casts a vote for the transaction 1: it consumes the coin 5, and names two origins.
fn cast(alloc: Global, book: &mut VoteStore) -> Result<(), OutOfMemory>
    requires { book.old ≡ [] }
{
    let keys = Seq::from_slice(alloc, [key(5, 1)].as_slice())?;
    let origins = Seq::from_slice(alloc, [None, Some(digest(2))].as_slice())?;
    book.cast(digest(1), keys, origins)
}

/// Whether a vote was given that names these origins.
fn names(book: &VoteStore, tx: &Digest, origins: &[Option<Digest>]) -> bool {
    match book.origins(tx) {
        Some(named) => named.as_slice() == origins,
        None => false,
    }
}

/// Tests which origins votes name, and whom their locks hinder: another transaction, and not their own.
fn expect_votes(rt: &impl Abort, alloc: Global, book: &VoteStore) {
    let (one, two) = (digest(1), digest(2));
    holds(rt, names(book, &one, [None, Some(two)].as_slice()));
    holds(rt, book.origins(&two).is_none());
    let locked = DecideRefusal::Locked {
        key: key(5, 1),
        by: one,
    };
    same(rt, refused(alloc, book, &two), Ok(Some(locked)));
    same(rt, refused(alloc, book, &one), Ok(None));
}

#[test]
fn a_vote_locks_for_its_own_transaction(rt: HostRuntime) {
    let alloc = rt.alloc();
    let mut book = VoteStore::new(alloc);
    let said = cast(alloc, &mut book);
    expect_votes(&rt, alloc, &book);
    drop(book);
    same(&rt, said, Ok(()));
}

/// Holds a certificate of a transaction that consumes version 1 of these two, if none of this digest is held.
fn takes(
    alloc: Global,
    book: &mut CertificateStore,
    digest: Digest,
    gas: u8,
    input: u8,
) -> Result<bool, OutOfMemory> {
    if book.has(&digest) {
        return Ok(false);
    }
    let mut inputs = Seq::new(alloc);
    inputs.push(Input::Owned(reference(input, 1)))?;
    let cert = Certificate {
        tx: transaction(alloc, reference(gas, 1), inputs),
        origins: Seq::new(alloc),
        seals: Seq::new(alloc),
    };
    let cert = SharedCertificate::new(alloc, cert)?;
    book.hold(Held { digest, cert })?;
    Ok(true)
}

/// The gas coin of a held transaction.
fn gas_of(book: &CertificateStore, tx: &Digest) -> Option<ObjectRef> {
    match book.get(tx) {
        Some(cert) => Some(cert.tx.gas),
        None => None,
    }
}

/// The transaction that was held at a place.
fn held_at(book: &CertificateStore, place: usize) -> Option<Digest> {
    match book.as_slice().get(place) {
        Some(held) => Some(held.digest),
        None => None,
    }
}

/// Tests that what is held is found, in order, and that the first fork stays.
fn expect_held(
    rt: &impl Abort,
    alloc: Global,
    book: &mut CertificateStore,
) -> Result<(), OutOfMemory> {
    let (first, second, third) = (digest(2), digest(1), digest(3));
    holds(rt, !book.has(&first));
    same(rt, takes(alloc, book, first, 5, 6), Ok(true));
    same(rt, book.fork(), None);
    same(rt, takes(alloc, book, second, 7, 6), Ok(true));
    let keys = [key(4, 1), key(6, 1), key(7, 1)];
    same(
        rt,
        book.fork_with(keys.as_slice()),
        Some((key(6, 1), first)),
    );
    same(rt, book.fork_with(&keys[2..]), Some((key(7, 1), second)));
    same(rt, book.fork_with(&keys[..1]), None);
    same(rt, takes(alloc, book, third, 7, 8), Ok(true));
    same(rt, takes(alloc, book, third, 7, 8), Ok(false));
    let fork = Fork {
        key: key(6, 1),
        first,
        second,
    };
    same(rt, book.fork(), Some(fork));
    same(rt, gas_of(book, &second), Some(reference(7, 1)));
    same(rt, gas_of(book, &digest(4)), None);
    same(rt, book.as_slice().len(), 3);
    same(rt, held_at(book, 1), Some(second));
    same(rt, held_at(book, 3), None);
    Ok(())
}

#[test]
fn finds_what_is_held(rt: HostRuntime) {
    let alloc = rt.alloc();
    let mut book = CertificateStore::new(alloc);
    let said = expect_held(&rt, alloc, &mut book);
    drop(book);
    same(&rt, said, Ok(()));
}
