//! Values of the types that have a codec.

ghost use Rattle.std.specs.Prelude.{IfOk};

use crate::calls::call;
use crate::encoders::encode_again;
use chain_messages::{
    Certificate, Entry, MemberSeal, Sealed, Statement, decode_certificate, decode_entry,
    decode_sealed, decode_statement,
};
use chain_types::{
    Address, Argument, Command, Content, Input, Kind, Object, ObjectId, ObjectRef, Owner, SignedTx,
    Transaction, decode_signed,
};
use checkpoint_core::{Checkpoint, Item};
use digest_core::Digest;
use effects_core::{Effects, Status, Written};
use journal_core::{RanItem, Record, decode_record};
use quorum_core::Signer;
use std::fmt::Debug;
use std::io;
use wire_bcs::{Duplicate, OutOfMemory, Seq, Unread, Wire, decode, encode};

/// Whether encoding succeeded and gave these bytes.
pub(crate) fn is_so(encoded: Result<Seq<u8>, OutOfMemory>, bytes: &[u8]) -> bool {
    match encoded {
        Ok(again) => again.as_slice() == bytes,
        Err(_) => false,
    }
}

/// Says why nothing was read.
pub(crate) fn tell_fault(rt: &HostRuntime, why: Unread) -> io::Result<()> {
    match why {
        Unread::Wire(fault) => println!(rt; "fault at {} why {}", fault.at, fault.why),
        Unread::OutOfMemory => println!(rt; "out of memory"),
    }
}

/// Says what was read, and first whether it is encoded so again; or the fault.
fn tell<T: Wire + Debug>(rt: &HostRuntime, bytes: &[u8], read: Result<T, Unread>) -> io::Result<()>
    requires { IfOk read T.codec.short }
{
    match read {
        Ok(value) => {
            let again = is_so(encode(rt.alloc(), &value), bytes);
            let said = println!(rt; "{again} {value:?}");
            drop(value);
            said
        }
        Err(why) => tell_fault(rt, why),
    }
}

/// Says the value of the bytes, or the fault.
fn say_as<T: Wire + Debug>(rt: &HostRuntime, bytes: &[u8]) -> io::Result<()> {
    let read: Result<T, Unread> = decode(rt.alloc(), bytes);
    tell(rt, bytes, read)
}

/// Says the value of this type, or goes on to the next types.
pub(crate) fn say(rt: &HostRuntime, name: &str, bytes: &[u8]) -> io::Result<()> {
    match name {
        "Digest" => say_as::<Digest>(rt, bytes),
        "Origins" => say_as::<Seq<Option<Digest>>>(rt, bytes),
        "ObjectId" => say_as::<ObjectId>(rt, bytes),
        "Address" => say_as::<Address>(rt, bytes),
        "ObjectRef" => say_as::<ObjectRef>(rt, bytes),
        "Owner" => say_as::<Owner>(rt, bytes),
        "Kind" => say_as::<Kind>(rt, bytes),
        "Content" => say_as::<Content>(rt, bytes),
        "Object" => say_as::<Object>(rt, bytes),
        "Input" => say_as::<Input>(rt, bytes),
        "Argument" => say_as::<Argument>(rt, bytes),
        "Command" => say_as::<Command>(rt, bytes),
        _ => say_message(rt, name, bytes),
    }
}

fn say_message(rt: &HostRuntime, name: &str, bytes: &[u8]) -> io::Result<()> {
    let alloc = rt.alloc();
    match name {
        "Transaction" => say_as::<Transaction>(rt, bytes),
        "SignedTx" => tell(rt, bytes, decode_signed(alloc, bytes)),
        "Statement" => tell(rt, bytes, decode_statement(alloc, bytes)),
        "Sealed" => tell(rt, bytes, decode_sealed(alloc, bytes)),
        "MemberSeal" => say_as::<MemberSeal>(rt, bytes),
        "Certificate" => tell(rt, bytes, decode_certificate(alloc, bytes)),
        "Entry" => tell(rt, bytes, decode_entry(alloc, bytes)),
        "Signer" => say_as::<Signer>(rt, bytes),
        _ => say_outcome(rt, name, bytes),
    }
}

fn say_outcome(rt: &HostRuntime, name: &str, bytes: &[u8]) -> io::Result<()> {
    match name {
        "Status" => say_as::<Status>(rt, bytes),
        "Written" => say_as::<Written>(rt, bytes),
        "Effects" => say_as::<Effects>(rt, bytes),
        "Item" => say_as::<Item>(rt, bytes),
        "Checkpoint" => say_as::<Checkpoint>(rt, bytes),
        "RanItem" => say_as::<RanItem>(rt, bytes),
        "Record" => tell(rt, bytes, decode_record(rt.alloc(), bytes)),
        _ => say_copy(rt, name, bytes),
    }
}

/// Says whether a copy of the value of the bytes is encoded as these bytes.
fn copy<T: Wire + Duplicate>(rt: &HostRuntime, bytes: &[u8]) -> io::Result<()> {
    let read: Result<T, Unread> = decode(rt.alloc(), bytes);
    match read {
        Ok(value) => {
            let same = match value.copy() {
                Ok(copied) => is_so(encode(rt.alloc(), &copied), bytes),
                Err(_) => false,
            };
            println!(rt; "copied {same}")
        }
        Err(why) => tell_fault(rt, why),
    }
}

fn say_copy(rt: &HostRuntime, name: &str, bytes: &[u8]) -> io::Result<()> {
    match name {
        "copy_signed" => copy::<SignedTx>(rt, bytes),
        "copy_statement" => copy::<Statement>(rt, bytes),
        "copy_sealed" => copy::<Sealed>(rt, bytes),
        "copy_certificate" => copy::<Certificate>(rt, bytes),
        "copy_entry" => copy::<Entry>(rt, bytes),
        "copy_record" => copy::<Record>(rt, bytes),
        "copy_effects" => copy::<Effects>(rt, bytes),
        "copy_checkpoint" => copy::<Checkpoint>(rt, bytes),
        _ => encode_again(rt, name, bytes),
    }
}
