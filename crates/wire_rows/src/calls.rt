//! Calls on a value that is read from bytes.

ghost use Rattle.chain_types.specs.Transactions.{transaction};
ghost use Rattle.effects_core.specs.Effects.{effects as effects_codec};
ghost use Rattle.checkpoint_core.specs.Checkpoints.{checkpoint as checkpoint_codec};

use crate::names::tell_digest;
use crate::values::tell_fault;
use chain_types::{
    Object, Transaction, has_long_list, object_count, object_digest, owned_keys, tx_digest,
};
use checkpoint_core::{Checkpoint, checkpoint_digest};
use digest_core::Digest;
use effects_core::{Effects, currency_sum, effects_digest};
use std::io;
use wire_bcs::{OutOfMemory, Seq, Unread, decode};

/// Says a digest that took memory.
fn tell_made(rt: &HostRuntime, made: Result<Digest, OutOfMemory>) -> io::Result<()> {
    match made {
        Ok(digest) => tell_digest(rt, &digest),
        Err(_) => println!(rt; "out of memory"),
    }
}

/// Says the digest of an object.
fn of_object(rt: &HostRuntime, bytes: &[u8]) -> io::Result<()> {
    let read: Result<Object, Unread> = decode(rt.alloc(), bytes);
    match read {
        Ok(object) => tell_digest(rt, &object_digest(&object)),
        Err(why) => tell_fault(rt, why),
    }
}

/// Says how much money of the currencies 7, 8 and 0 the objects have.
fn of_objects(rt: &HostRuntime, bytes: &[u8]) -> io::Result<()> {
    let read: Result<Seq<Object>, Unread> = decode(rt.alloc(), bytes);
    match read {
        Ok(objects) => {
            let sums = [
                currency_sum(&objects, 7),
                currency_sum(&objects, 8),
                currency_sum(&objects, 0),
            ];
            drop(objects);
            println!(rt; "{sums:?}")
        }
        Err(why) => tell_fault(rt, why),
    }
}

/// Says the digest of effects.
fn of_effects(rt: &HostRuntime, bytes: &[u8]) -> io::Result<()> {
    let read: Result<Effects, Unread> = decode(rt.alloc(), bytes);
    match read {
        Ok(effects) => {
            let made = effects_digest(rt.alloc(), &effects);
            drop(effects);
            tell_made(rt, made)
        }
        Err(why) => tell_fault(rt, why),
    }
}

/// Says the digest of a checkpoint.
fn of_checkpoint(rt: &HostRuntime, bytes: &[u8]) -> io::Result<()> {
    let read: Result<Checkpoint, Unread> = decode(rt.alloc(), bytes);
    match read {
        Ok(checkpoint) => {
            let made = checkpoint_digest(rt.alloc(), &checkpoint);
            drop(checkpoint);
            tell_made(rt, made)
        }
        Err(why) => tell_fault(rt, why),
    }
}

/// Says the keys of the versions that a transaction consumes.
fn tell_keys(rt: &HostRuntime, tx: &Transaction) -> io::Result<()> {
    match owned_keys(rt.alloc(), tx) {
        Ok(keys) => println!(rt; "{keys:?}"),
        Err(_) => println!(rt; "out of memory"),
    }
}

/// Says how many objects a transaction names.
fn tell_count(rt: &HostRuntime, tx: &Transaction) -> io::Result<()> {
    if tx.inputs.len() >= 1 << 31 {
        return println!(rt; "too many");
    }
    let count = object_count(tx);
    println!(rt; "{count}")
}

/// Says whether a transaction has a list of more than 1, 2 and 3.
fn tell_long(rt: &HostRuntime, tx: &Transaction) -> io::Result<()> {
    let longer = [
        has_long_list(1, tx),
        has_long_list(2, tx),
        has_long_list(3, tx),
    ];
    println!(rt; "{longer:?}")
}

/// Says what the call of this name gives.
fn tell_of(rt: &HostRuntime, name: &str, tx: &Transaction) -> io::Result<()>
    requires short { transaction.short tx.now }
{
    match name {
        "tx_digest" => tell_made(rt, tx_digest(rt.alloc(), tx)),
        "object_count" => tell_count(rt, tx),
        "owned_keys" => tell_keys(rt, tx),
        "has_long_list" => tell_long(rt, tx),
        _ => println!(rt; "no such row"),
    }
}

/// Says what the call of this name gives of a transaction.
fn of_transaction(rt: &HostRuntime, name: &str, bytes: &[u8]) -> io::Result<()> {
    let read: Result<Transaction, Unread> = decode(rt.alloc(), bytes);
    match read {
        Ok(tx) => {
            let said = tell_of(rt, name, &tx);
            drop(tx);
            said
        }
        Err(why) => tell_fault(rt, why),
    }
}

/// Says what the call of this name gives of the value of the bytes.
pub(crate) fn call(rt: &HostRuntime, name: &str, bytes: &[u8]) -> io::Result<()> {
    match name {
        "object_digest" => of_object(rt, bytes),
        "currency_sums" => of_objects(rt, bytes),
        "effects_digest" => of_effects(rt, bytes),
        "checkpoint_digest" => of_checkpoint(rt, bytes),
        _ => of_transaction(rt, name, bytes),
    }
}
