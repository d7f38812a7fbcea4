//! Digests of pieces of bytes, the names of things, and texts that are made, by their digests.

use digest_core::{Digest, Hasher, address_of, created_id, digest_of, genesis_id};
use schedule_make::make_text;
use std::io;

/// Says a digest, in hexadecimal digits.
pub(crate) fn tell_digest(rt: &HostRuntime, digest: &Digest) -> io::Result<()> {
    match hex::encode(rt.alloc(), digest.0.as_slice()) {
        Ok(text) => println!(rt; "{text}"),
        Err(_) => println!(rt; "out of memory"),
    }
}

/// Says the digest of a tag and pieces: `hash 61 b  c` of the byte 61 and the texts between single spaces.
pub(crate) fn hash(rt: &HostRuntime, words: &str) -> io::Result<()> {
    let Some((tag, pieces)) = words.split_once(' ') else {
        return println!(rt; "no tag");
    };
    let Ok(tag) = u8::from_str_radix(tag, 16) else {
        return println!(rt; "no tag");
    };
    let mut hasher = Hasher::begin(tag);
    for piece in pieces.split(' ') {
        hasher.add(piece.as_bytes());
    }
    tell_digest(rt, &hasher.end())
}

/// Says the digest of a tag and a text.
pub(crate) fn digest(rt: &HostRuntime, words: &str) -> io::Result<()> {
    let Some((tag, text)) = words.split_once(' ') else {
        return println!(rt; "no tag");
    };
    match u8::from_str_radix(tag, 16) {
        Ok(tag) => tell_digest(rt, &digest_of(tag, text.as_bytes())),
        Err(_) => println!(rt; "no tag"),
    }
}

/// Two numbers.
fn pair(words: &str) -> Option<(u32, u32)> {
    let (first, second) = words.split_once(' ')?;
    Some((first.parse().ok()?, second.parse().ok()?))
}

/// Says the id of a creation: `created_id 1 2` is number 2 of the transaction whose digest has the byte 1 everywhere.
pub(crate) fn created(rt: &HostRuntime, words: &str) -> io::Result<()> {
    match pair(words) {
        Some((byte, number)) => {
            let tx = Digest([(byte % 256) as u8; 32]);
            tell_digest(rt, &created_id(&tx, number as u64))
        }
        None => println!(rt; "no numbers"),
    }
}

/// Says the id of an object of the set-up.
pub(crate) fn genesis(rt: &HostRuntime, words: &str) -> io::Result<()> {
    match words.parse::<u64>() {
        Ok(number) => tell_digest(rt, &genesis_id(number)),
        Err(_) => println!(rt; "no number"),
    }
}

/// Says the address of a user.
pub(crate) fn address(rt: &HostRuntime, words: &str) -> io::Result<()> {
    tell_digest(rt, &address_of(words.as_bytes()))
}

/// Says the digest of the schedule that is made of this many transactions for this many workers.
pub(crate) fn made(rt: &HostRuntime, words: &str) -> io::Result<()> {
    let Some((number, workers)) = pair(words) else {
        return println!(rt; "no numbers");
    };
    if number < 1 || number > 10000 || workers < 1 || workers > 16 {
        return println!(rt; "out of range");
    }
    match make_text(rt.alloc(), number, workers) {
        // Its first byte stands in the place of a tag.
        Ok(text) => match text.as_slice() {
            [first, rest @ ..] => tell_digest(rt, &digest_of(*first, rest)),
            [] => println!(rt; "no text"),
        },
        Err(_) => println!(rt; "out of memory"),
    }
}
