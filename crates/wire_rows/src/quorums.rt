//! Committees, seals and versions.

ghost use Rattle.std.specs.Prelude.{◌≡◌, ◌<◌, ◌-◌, ◌^◌, true};
ghost use Rattle.std.specs.List.{All};

use crate::bytes::bytes_of;
use crate::names::tell_digest;
use chain_types::lamport;
use digest_core::Digest;
use quorum_core::{Checker, Committee, KeyedSeal, Sealer, Signer};
use std::alloc::Global;
use std::io;
use wire_bcs::{Unread, decode};

/// The numbers of the words; `1*65` is a number this many times.
fn numbers_of(alloc: Global, words: &str) -> Option<Vec<u32>> {
    let mut numbers = Vec::new(alloc);
    for word in words.split_whitespace() {
        let (number, count) = word.split_once('*').unwrap_or((word, "1"));
        let number = number.parse::<u32>().ok()?;
        for _ in 0..count.parse::<u32>().ok()? {
            numbers.push(number).ok()?;
        }
    }
    Some(numbers)
}

/// Says why the stakes are not a committee, or how many members a copy of it has, their stakes and the sum of these.
pub(crate) fn stakes(rt: &HostRuntime, words: &str) -> io::Result<()> {
    let Some(stakes) = numbers_of(rt.alloc(), words) else {
        return println!(rt; "no stakes");
    };
    match Committee::new(stakes.as_slice()) {
        Ok(first) => {
            let committee = first.copy();
            let (count, total) = (committee.len(), committee.total());
            let (last, none) = (
                committee.stake(count.wrapping_sub(1)),
                committee.stake(count),
            );
            println!(rt; "members {count} total {total} last {last:?} then {none:?}")
        }
        Err(refusal) => println!(rt; "{refusal:?}"),
    }
}

/// Says what members weigh among these stakes, and whether that is a quorum.
fn tell_weight(rt: &HostRuntime, committee: &Committee, members: &[u32]) -> io::Result<()> {
    if !committee.is_roll(members) {
        return println!(rt; "no roll");
    }
    let weight = committee.weight(members);
    let is_quorum = committee.is_quorum(weight);
    println!(rt; "weight {weight} quorum {is_quorum}")
}

/// Says what members weigh: `weigh 1 1 4 of 0 2`, the stakes and then the members.
pub(crate) fn weigh(rt: &HostRuntime, words: &str) -> io::Result<()> {
    let (stakes, members) = words.split_once(" of ").unwrap_or((words, ""));
    let (Some(stakes), Some(members)) = (
        numbers_of(rt.alloc(), stakes),
        numbers_of(rt.alloc(), members),
    ) else {
        return println!(rt; "no numbers");
    };
    match Committee::new(stakes.as_slice()) {
        Ok(committee) => tell_weight(rt, &committee.copy(), members.as_slice()),
        Err(refusal) => println!(rt; "{refusal:?}"),
    }
}

/// The secret of the seals: the bytes 0 to 31.
const SECRET: [u8; 32] = [
    0, 1, 2, 3, 4, 5, 6, 7, 8, 9, 10, 11, 12, 13, 14, 15, 16, 17, 18, 19, 20, 21, 22, 23, 24, 25,
    26, 27, 28, 29, 30, 31,
];

/// The signer of these bytes.
fn signer_of(alloc: Global, words: &str) -> Option<Signer> {
    let bytes = bytes_of(alloc, words, &[])?;
    let read: Result<Signer, Unread> = decode(alloc, bytes.as_slice());
    read.ok()
}

/// The seal of these bytes.
fn read_seal(alloc: Global, words: &str) -> Option<Digest> {
    let bytes = bytes_of(alloc, words, &[])?;
    let read: Result<Digest, Unread> = decode(alloc, bytes.as_slice());
    read.ok()
}

/// Says the seal of a signer over a text: `seal 00 02010000 of abc`.
pub(crate) fn seal_of(rt: &HostRuntime, words: &str) -> io::Result<()> {
    let (signer, text) = words.split_once(" of ").unwrap_or((words, ""));
    match signer_of(rt.alloc(), signer) {
        Some(signer) => {
            let seal = KeyedSeal::new(SECRET).seal(&signer, text.as_bytes());
            tell_digest(rt, &seal)
        }
        None => println!(rt; "no signer"),
    }
}

/// Says whether a seal is that of a signer over a text: `check 00 02010000 of abc SEAL`.
pub(crate) fn check(rt: &HostRuntime, words: &str) -> io::Result<()> {
    let (signer, rest) = words.split_once(" of ").unwrap_or((words, ""));
    let (text, seal) = rest.split_once(' ').unwrap_or((rest, ""));
    let (Some(signer), Some(seal)) = (signer_of(rt.alloc(), signer), read_seal(rt.alloc(), seal))
    else {
        return println!(rt; "no signer or seal");
    };
    let is_so = KeyedSeal::new(SECRET).check(&signer, text.as_bytes(), &seal);
    println!(rt; "{is_so}")
}

/// The versions of the words.
fn versions_of(alloc: Global, words: &str) -> Option<Vec<u64>> {
    let mut versions = Vec::new(alloc);
    for word in words.split_whitespace() {
        versions.push(word.parse::<u64>().ok()?).ok()?;
    }
    Some(versions)
}

/// Whether each version is below the greatest number.
fn are_low(versions: &[u64]) -> bool
    ensures { result ≡ true → All (λ version. version < 2 ^ 64 - 1) versions.now }
{
    versions.iter().all(|version| *version < u64::MAX)
}

/// Says the version that is written when these are read.
pub(crate) fn lamport_of(rt: &HostRuntime, words: &str) -> io::Result<()> {
    let Some(versions) = versions_of(rt.alloc(), words) else {
        return println!(rt; "no versions");
    };
    let versions = versions.as_slice();
    if versions.is_empty() || !are_low(versions) {
        return println!(rt; "no version follows");
    }
    let next = lamport(versions);
    println!(rt; "{next}")
}
