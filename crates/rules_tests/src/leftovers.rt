//! What a run leaves in cases that no schedule reaches: two certificates of one version with no fork noticed, and a transaction that
//! was admitted by another certificate, so that nothing is assigned to it.

ghost use Rattle.std.specs.Prelude.{◌≡◌};

use crate::objects::{ALICE, coin, digest, id, key};
use crate::same::{holds, same};
use crate::sequences::is_admitted;
use crate::stores::{opened, takes};
use chain_messages::Certificate;
use chain_types::{
    Content, Input, Object, ObjectKey, ObjectRef, Owner, Transaction, object_digest,
};
use exec_plan::{DependencyIndex, left};
use protocol_spec::{Held, SharedCertificate};
use std::alloc::Global;
use std::process::Abort;
use version_assign::Admission;
use version_store::Store;
use wire_bcs::{OutOfMemory, Seq};

/// Alice's coin.
fn gas() -> Object {
    coin(1, 1, 10000)
}

fn counter() -> Object {
    Object {
        id: id(9),
        version: 1,
        owner: Owner::Shared(1),
        content: Content::Counter { value: 0 },
    }
}

/// The certificate under this digest of a transaction that pays with the coin and names these inputs, with this many
/// origins, none of which is a transaction.
fn held(
    alloc: Global,
    number: u8,
    inputs: Seq<Input>,
    objects: usize,
) -> Result<Held, OutOfMemory> {
    let none = [None, None];
    let origins = Seq::from_slice(alloc, none.get(..objects).unwrap_or_default())?;
    let tx = Transaction {
        epoch: 0,
        sender: ALICE,
        gas: ObjectRef {
            id: id(1),
            version: 1,
            digest: object_digest(&gas()),
        },
        budget: 2000,
        inputs,
        commands: Seq::new(alloc),
    };
    let cert = Certificate {
        tx,
        origins,
        seals: Seq::new(alloc),
    };
    Ok(Held {
        digest: digest(number),
        cert: SharedCertificate::new(alloc, cert)?,
    })
}

/// The certificate under the digest 1, which writes the counter.
fn writer(alloc: Global) -> Result<Held, OutOfMemory> {
    let mut inputs = Seq::new(alloc);
    inputs.push(Input::Shared {
        id: id(9),
        initial: 1,
        mutable: true,
    })?;
    held(alloc, 1, inputs, 2)
}

/// What is left if only this one is held: the version that it lacks, or none if it does not fit; nothing if it is
/// not left.
fn left_of(
    alloc: Global,
    store: &Store,
    admission: &Admission,
    held: Held,
) -> Result<Option<Option<ObjectKey>>, OutOfMemory> {
    let mut waiting = DependencyIndex::new(alloc);
    waiting.hold(store, admission, &[], &held)?;
    let mut all = Seq::new(alloc);
    all.push(held)?;
    let left = left(alloc, store, admission, &waiting, all.as_slice())?;
    Ok(match left.as_slice() {
        [one] => Some(one.key),
        _ => None,
    })
}

/// Tests what is left of a transaction that was admitted by another certificate, and of one whose coin another consumed.
fn expect_left(
    rt: &impl Abort,
    alloc: Global,
    store: &mut Store,
    admission: &mut Admission,
) -> Result<(), OutOfMemory> {
    holds(rt, is_admitted(alloc, admission)?);
    let unassigned = left_of(alloc, store, admission, writer(alloc)?);
    same(rt, unassigned, Ok(Some(Some(key(9, 1)))));
    let spent = [coin(1, 2, 8900)];
    let consumed = [key(1, 1)];
    let taken = takes(alloc, store, 9, spent.as_slice(), consumed.as_slice(), &[]);
    same(rt, taken, Ok(true));
    let second = held(alloc, 8, Seq::new(alloc), 1)?;
    same(rt, left_of(alloc, store, admission, second), Ok(Some(None)));
    Ok(())
}

#[test]
fn what_no_schedule_leaves(rt: HostRuntime) {
    let alloc = rt.alloc();
    let Ok(Some(mut store)) = opened(alloc, [gas(), counter()].as_slice()) else {
        return holds(&rt, false);
    };
    let mut admission = Admission::empty(alloc, None);
    let said = expect_left(&rt, alloc, &mut store, &mut admission);
    drop(admission);
    drop(store);
    same(&rt, said, Ok(()));
}
