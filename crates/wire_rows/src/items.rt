//! Items one by one, as the reader and the writer have them.

use crate::bytes::bytes_of;
use digest_core::Digest;
use std::alloc::Global;
use std::fmt::Debug;
use std::io;
use wire_bcs::{OutOfMemory, Reader, Seq, Unread, WireFault, Writer, read};

/// Says what an item is, or its fault.
fn tell<T: Debug + Drop>(rt: &HostRuntime, found: Result<T, WireFault>) -> io::Result<()> {
    match found {
        Ok(value) => {
            let said = print!(rt; "{value:?}, ");
            drop(value);
            said
        }
        Err(fault) => print!(rt; "fault at {} why {}, ", fault.at, fault.why),
    }
}

/// Reads a variant number below a limit.
fn read_tag(rt: &HostRuntime, reader: &mut Reader, limit: &str) -> io::Result<()> {
    match limit.parse::<u32>() {
        Ok(limit) => tell(rt, reader.tag(limit)),
        Err(_) => print!(rt; "no limit, "),
    }
}

/// Says a value of a type that has a codec, or its fault.
fn tell_value<T: Debug + Drop>(rt: &HostRuntime, found: Result<T, Unread>) -> io::Result<()> {
    let said = print!(rt; "{found:?}, ");
    drop(found);
    said
}

/// Reads an item of this kind. After a fault the next item is read from the same place.
fn read_item(rt: &HostRuntime, reader: &mut Reader, kind: &str) -> io::Result<()> {
    match kind {
        "u8" => tell(rt, reader.u8()),
        "u16" => tell(rt, reader.u16()),
        "u32" => tell(rt, reader.u32()),
        "u64" => tell(rt, reader.u64()),
        "u128" => tell(rt, reader.u128()),
        "bool" => tell(rt, reader.bool()),
        "len" => tell(rt, reader.len()),
        "fixed" => tell(rt, reader.fixed32()),
        "bytes" => tell(rt, reader.bytes()),
        "text" => tell(rt, reader.text()),
        "origin" => tell_value::<Option<Digest>>(rt, read(rt.alloc(), reader)),
        "origins" => tell_value::<Seq<Option<Digest>>>(rt, read(rt.alloc(), reader)),
        _ => read_tag(rt, reader, kind.strip_prefix("tag<").unwrap_or(kind)),
    }
}

/// Reads items of these kinds, and says where the reader then stands and whether that is the end.
pub(crate) fn read_items(rt: &HostRuntime, words: &str) -> io::Result<()> {
    let (kinds, words) = words.split_once(' ').unwrap_or((words, ""));
    let Some(bytes) = bytes_of(rt.alloc(), words, &[]) else {
        return println!(rt; "no bytes");
    };
    let mut reader = Reader::new(bytes.as_slice());
    for kind in kinds.split(',') {
        read_item(rt, &mut reader, kind)?;
    }
    let at = reader.at();
    match reader.finish() {
        Ok(()) => println!(rt; "ends at {at}"),
        Err(fault) => println!(rt; "at {at} fault at {} why {}", fault.at, fault.why),
    }
}

/// Writes a number in this many bytes.
fn put_number(writer: &mut Writer, kind: &str, number: u128) -> Result<(), OutOfMemory> {
    match kind {
        "u8" => writer.put_u8((number % (1 << 8)) as u8),
        "u16" => writer.put_u16((number % (1 << 16)) as u16),
        "u32" => writer.put_u32((number % (1 << 32)) as u32),
        "u64" => writer.put_u64((number % (1 << 64)) as u64),
        "u128" => writer.put_u128(number),
        "len" => writer.put_len((number % (1 << 31)) as u32),
        _ => writer.put_tag((number % (1 << 32)) as u32),
    }
}

/// Writes bytes, after their length if the kind is `bytes`.
fn put_bytes(writer: &mut Writer, kind: &str, bytes: &[u8]) -> Result<(), OutOfMemory> {
    match kind {
        "bytes" if bytes.len() < 1 << 31 => writer.put_bytes(bytes),
        _ => writer.put_fixed(bytes),
    }
}

/// Writes an item: `len:128`, `text:a`, `bytes:0708`.
fn put_item(
    alloc: Global,
    writer: &mut Writer,
    kind: &str,
    value: &str,
) -> Result<(), OutOfMemory> {
    match kind {
        "true" => writer.put_bool(true),
        "text" if value.len() < 1 << 31 => writer.put_text(value),
        "bytes" | "fixed" => match hex::decode(alloc, value) {
            Ok(bytes) => put_bytes(writer, kind, bytes.as_slice()),
            Err(_) => Err(OutOfMemory),
        },
        _ => put_number(writer, kind, value.parse::<u128>().unwrap_or(0)),
    }
}

/// Writes items, one after the other, and says the bytes.
pub(crate) fn write_items(rt: &HostRuntime, words: &str) -> io::Result<()> {
    let mut writer = Writer::new(rt.alloc());
    for word in words.split_whitespace() {
        let (kind, value) = word.split_once(':').unwrap_or((word, ""));
        if put_item(rt.alloc(), &mut writer, kind, value).is_err() {
            return println!(rt; "out of memory");
        }
    }
    let bytes = writer.finish();
    match hex::encode(rt.alloc(), bytes.as_slice()) {
        Ok(text) => println!(rt; "{text}"),
        Err(_) => println!(rt; "out of memory"),
    }
}
