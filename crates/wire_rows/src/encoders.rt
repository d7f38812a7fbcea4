//! The calls that encode a value of one type.

use crate::calls::call;
use crate::values::{is_so, tell_fault};
use chain_messages::{
    decode_certificate, decode_entry, decode_sealed, decode_statement, encode_certificate,
    encode_entry, encode_sealed, encode_statement,
};
use chain_types::{decode_signed, encode_signed, encode_tx};
use journal_core::{decode_record, encode_record};
use std::io;
use wire_bcs::{OutOfMemory, Seq, decode};

/// Says whether a value was encoded as these bytes.
fn tell_encoded(
    rt: &HostRuntime,
    encoded: Result<Seq<u8>, OutOfMemory>,
    bytes: &[u8],
) -> io::Result<()> {
    let same = is_so(encoded, bytes);
    println!(rt; "encoded {same}")
}

fn tx(rt: &HostRuntime, bytes: &[u8]) -> io::Result<()> {
    match decode(rt.alloc(), bytes) {
        Ok(value) => {
            let encoded = encode_tx(rt.alloc(), &value);
            drop(value);
            tell_encoded(rt, encoded, bytes)
        }
        Err(why) => tell_fault(rt, why),
    }
}

fn signed(rt: &HostRuntime, bytes: &[u8]) -> io::Result<()> {
    match decode_signed(rt.alloc(), bytes) {
        Ok(value) => {
            let encoded = encode_signed(rt.alloc(), &value);
            drop(value);
            tell_encoded(rt, encoded, bytes)
        }
        Err(why) => tell_fault(rt, why),
    }
}

fn statement(rt: &HostRuntime, bytes: &[u8]) -> io::Result<()> {
    match decode_statement(rt.alloc(), bytes) {
        Ok(value) => {
            let encoded = encode_statement(rt.alloc(), &value);
            drop(value);
            tell_encoded(rt, encoded, bytes)
        }
        Err(why) => tell_fault(rt, why),
    }
}

fn sealed(rt: &HostRuntime, bytes: &[u8]) -> io::Result<()> {
    match decode_sealed(rt.alloc(), bytes) {
        Ok(value) => {
            let encoded = encode_sealed(rt.alloc(), &value);
            drop(value);
            tell_encoded(rt, encoded, bytes)
        }
        Err(why) => tell_fault(rt, why),
    }
}

fn certificate(rt: &HostRuntime, bytes: &[u8]) -> io::Result<()> {
    match decode_certificate(rt.alloc(), bytes) {
        Ok(value) => {
            let encoded = encode_certificate(rt.alloc(), &value);
            drop(value);
            tell_encoded(rt, encoded, bytes)
        }
        Err(why) => tell_fault(rt, why),
    }
}

fn entry(rt: &HostRuntime, bytes: &[u8]) -> io::Result<()> {
    match decode_entry(rt.alloc(), bytes) {
        Ok(value) => {
            let encoded = encode_entry(rt.alloc(), &value);
            drop(value);
            tell_encoded(rt, encoded, bytes)
        }
        Err(why) => tell_fault(rt, why),
    }
}

fn record(rt: &HostRuntime, bytes: &[u8]) -> io::Result<()> {
    match decode_record(rt.alloc(), bytes) {
        Ok(value) => {
            let encoded = encode_record(rt.alloc(), &value);
            drop(value);
            tell_encoded(rt, encoded, bytes)
        }
        Err(why) => tell_fault(rt, why),
    }
}

/// Says whether the call of this name encodes the value of the bytes as these bytes; any other name goes on to the
/// other calls.
pub(crate) fn encode_again(rt: &HostRuntime, name: &str, bytes: &[u8]) -> io::Result<()> {
    match name {
        "encode_tx" => tx(rt, bytes),
        "encode_signed" => signed(rt, bytes),
        "encode_statement" => statement(rt, bytes),
        "encode_sealed" => sealed(rt, bytes),
        "encode_certificate" => certificate(rt, bytes),
        "encode_entry" => entry(rt, bytes),
        "encode_record" => record(rt, bytes),
        _ => call(rt, name, bytes),
    }
}
