//! Reads rows, of worked bytes or of a call, and writes the result of each: one line for each row.
//!
//! A row begins with a name. After a type come the bytes of a value: the answer is whether it is encoded so again, and
//! the value; or the fault. After a call come its arguments. Empty lines and lines that begin with `#` are written as
//! they are.
#![tactic(auto)]

mod bytes;
mod calls;
mod encoders;
mod items;
mod links;
mod names;
mod quorums;
mod values;

use bytes::bytes_of;
use items::{read_items, write_items};
use links::link_of;
use names::{address, created, digest, genesis, hash, made};
use quorums::{check, lamport_of, seal_of, stakes, weigh};
use std::io;
use values::say;

/// The answer to a row about bytes. Its bytes are kept, for later rows to begin with a part of them, unless it begins
/// with such a part itself.
fn answer_of_bytes(
    rt: &HostRuntime,
    name: &str,
    words: &str,
    kept: &mut Vec<u8>,
) -> io::Result<()> {
    let Some(bytes) = bytes_of(rt.alloc(), words, kept.as_slice()) else {
        return println!(rt; "no bytes");
    };
    let said = say(rt, name, bytes.as_slice());
    if words.starts_with('<') {
        drop(bytes);
    } else {
        drop(std::mem::replace(kept, bytes));
    }
    said
}

/// The answer to a row.
fn answer(rt: &HostRuntime, line: &str, kept: &mut Vec<u8>) -> io::Result<()> {
    let Some((name, words)) = line.split_once(' ') else {
        return println!(rt; "{line}");
    };
    match name {
        "#" => println!(rt; "{line}"),
        "read" => read_items(rt, words),
        "write" => write_items(rt, words),
        "hash" => hash(rt, words),
        "digest_of" => digest(rt, words),
        "created_id" => created(rt, words),
        "genesis_id" => genesis(rt, words),
        "address_of" => address(rt, words),
        "make_text" => made(rt, words),
        "seal" => seal_of(rt, words),
        "check" => check(rt, words),
        "check_link" => link_of(rt, words),
        "committee" => stakes(rt, words),
        "weigh" => weigh(rt, words),
        "lamport" => lamport_of(rt, words),
        _ => answer_of_bytes(rt, name, words, kept),
    }
}

fn main(rt: HostRuntime) -> io::Result<()> {
    let mut kept = Vec::new(rt.alloc());
    for line in rt.lines(rt.alloc()) {
        let line = line?;
        answer(&rt, line.as_str(), &mut kept)?;
    }
    Ok(())
}
