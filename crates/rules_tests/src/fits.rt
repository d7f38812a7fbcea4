//! Which objects fit a transaction: one for each that it names, at that version, with that digest and owner, and gas enough.

use crate::same::same;
use chain_types::{
    Address, Content, Input, Object, ObjectId, ObjectRef, Owner, Transaction, object_digest,
};
use digest_core::Digest;
use ptb_run::fits;
use std::alloc::Global;
use wire_bcs::{OutOfMemory, Seq};

const ALICE: Owner = Owner::Address(Address(Digest([1; 32])));

const BOB: Owner = Owner::Address(Address(Digest([2; 32])));

fn object(number: u8, version: u64, owner: Owner, content: Content) -> Object {
    Object {
        id: ObjectId(Digest([number; 32])),
        version,
        owner,
        content,
    }
}

/// A coin of this number that pays gas.
fn coin(number: u8, version: u64, owner: Owner, balance: u64) -> Object {
    let content = Content::Coin {
        currency: 0,
        balance,
    };
    object(number, version, owner, content)
}

fn counter(version: u64, owner: Owner) -> Object {
    object(9, version, owner, Content::Counter { value: 4 })
}

fn reference(object: &Object) -> ObjectRef {
    ObjectRef {
        id: object.id,
        version: object.version,
        digest: object_digest(object),
    }
}

fn shared(initial: u64) -> Input {
    Input::Shared {
        id: ObjectId(Digest([9; 32])),
        initial,
        mutable: true,
    }
}

fn add_inputs(alloc: Global, inputs: &mut Seq<Input>, input: Input) -> Result<(), OutOfMemory> {
    match inputs.push(Input::Pure(Seq::new(alloc))) {
        Ok(()) => inputs.push(input),
        Err(refused) => {
            drop(input);
            Err(refused)
        }
    }
}

/// Pure bytes and, after them, this input.
fn inputs_of(alloc: Global, input: Input) -> Result<Seq<Input>, OutOfMemory> {
    let mut inputs = Seq::new(alloc);
    match add_inputs(alloc, &mut inputs, input) {
        Ok(()) => Ok(inputs),
        Err(refused) => {
            drop(inputs);
            Err(refused)
        }
    }
}

fn fits_all(alloc: Global, tx: &Transaction, objects: &[Object]) -> Result<bool, OutOfMemory> {
    let objects = Seq::from_slice(alloc, objects)?;
    Ok(fits(tx, &objects))
}

/// Whether the objects fit alice's transaction with a budget of 2000, this gas coin and, after Pure
/// bytes, this input.
fn fit(alloc: Global, gas: &Object, input: Input, objects: &[Object]) -> Result<bool, OutOfMemory> {
    let inputs = inputs_of(alloc, input)?;
    let tx = Transaction {
        epoch: 0,
        sender: Address(Digest([1; 32])),
        gas: reference(gas),
        budget: 2000,
        inputs,
        commands: Seq::new(alloc),
    };
    let said = fits_all(alloc, &tx, objects);
    drop(tx);
    said
}

#[test]
fn takes_what_is_named(rt: HostRuntime) {
    let a = rt.alloc();
    let gas = coin(7, 3, ALICE, 2000);
    let other = coin(8, 5, ALICE, 1);
    let owned = Input::Owned(reference(&other));
    same(&rt, fit(a, &gas, owned, &[gas, other]), Ok(true));
    let frozen = counter(5, Owner::Immutable);
    let immutable = Input::Immutable(reference(&frozen));
    same(&rt, fit(a, &gas, immutable, &[gas, frozen]), Ok(true));
    let old = counter(6, Owner::Shared(4));
    same(&rt, fit(a, &gas, shared(4), &[gas, old]), Ok(true));
    same(
        &rt,
        fit(a, &gas, Input::Pure(Seq::new(a)), &[gas]),
        Ok(true),
    );
}

#[test]
fn wants_one_object_each(rt: HostRuntime) {
    let a = rt.alloc();
    let gas = coin(7, 3, ALICE, 2000);
    let old = counter(6, Owner::Shared(4));
    same(&rt, fit(a, &gas, shared(4), &[]), Ok(false));
    same(&rt, fit(a, &gas, shared(4), &[gas]), Ok(false));
    same(&rt, fit(a, &gas, shared(4), &[old, gas]), Ok(false));
    same(&rt, fit(a, &gas, shared(4), &[gas, old, old]), Ok(false));
    let another = object(8, 6, Owner::Shared(4), Content::Counter { value: 4 });
    same(&rt, fit(a, &gas, shared(4), &[gas, another]), Ok(false));
}

#[test]
fn wants_version_digest_and_owner(rt: HostRuntime) {
    let a = rt.alloc();
    let gas = coin(7, 3, ALICE, 2000);
    let other = coin(8, 5, ALICE, 1);
    let later = coin(8, 6, ALICE, 1);
    let richer = coin(8, 5, ALICE, 2);
    let named = Input::Owned(reference(&other));
    same(&rt, fit(a, &gas, named, &[gas, later]), Ok(false));
    let named = Input::Owned(reference(&other));
    same(&rt, fit(a, &gas, named, &[gas, richer]), Ok(false));
    let of_bob = coin(8, 5, BOB, 1);
    let named = Input::Owned(reference(&of_bob));
    same(&rt, fit(a, &gas, named, &[gas, of_bob]), Ok(false));
    let named = Input::Immutable(reference(&other));
    same(&rt, fit(a, &gas, named, &[gas, other]), Ok(false));
    let old = counter(6, Owner::Shared(4));
    same(&rt, fit(a, &gas, shared(5), &[gas, old]), Ok(false));
}

#[test]
fn wants_gas(rt: HostRuntime) {
    let a = rt.alloc();
    let old = counter(6, Owner::Shared(4));
    let poor = coin(7, 3, ALICE, 1999);
    same(&rt, fit(a, &poor, shared(4), &[poor, old]), Ok(false));
    let of_bob = coin(7, 3, BOB, 2000);
    same(&rt, fit(a, &of_bob, shared(4), &[of_bob, old]), Ok(false));
    let content = Content::Coin {
        currency: 1,
        balance: 2000,
    };
    let foreign = object(7, 3, ALICE, content);
    same(&rt, fit(a, &foreign, shared(4), &[foreign, old]), Ok(false));
}

#[test]
fn wants_low_versions(rt: HostRuntime) {
    let a = rt.alloc();
    let gas = coin(7, 3, ALICE, 2000);
    let high = counter(4611686018427387902, Owner::Shared(4));
    same(&rt, fit(a, &gas, shared(4), &[gas, high]), Ok(true));
    let over = counter(4611686018427387903, Owner::Shared(4));
    same(&rt, fit(a, &gas, shared(4), &[gas, over]), Ok(false));
}
