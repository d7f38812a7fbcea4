//! A node that keeps its records in a file: it reads a sealed transaction from standard input, is asked for its vote, is
//! dropped, is opened again from its file, and is asked once more.
//!
//! The committee has four members of stake 1; the first epoch opens with one coin of alice. The second vote is the first
//! one again, since its record stood in the file before it was given. The file is removed at the end.
#![tactic(auto)]

use anyhow::{Error as Failure, Result};
use outside::read_text;
use outside_std::{FileDisk, InSource, Missing};
use std::fs;
use sui_validator::node::{Committee, DiskJournal, KeyedSeal, Voted, journal_over_disk};
use sui_validator::types::{Seq, coin_of};
use sui_validator::{Error, Member};

type Node = Member<DiskJournal<FileDisk>, KeyedSeal>;

/// The journal of a file, which is made if it is missing.
fn journal_in(rt: &HostRuntime, path: &str) -> Result<DiskJournal<FileDisk>> {
    let disk = match FileDisk::open(rt, path, Missing::IsMade) {
        Ok(disk) => disk,
        Err(fault) => return Err(Failure::msg(fault)),
    };
    match journal_over_disk(rt.alloc(), disk) {
        Ok(journal) => Ok(journal),
        Err((_disk, refusal)) => Err(Failure::msg(Error::from(refusal))),
    }
}

/// Opens member 0 from its file.
fn open(rt: &HostRuntime, path: &str) -> Result<Node> {
    let committee = Committee::new(&[1, 1, 1, 1])?;
    let coin = coin_of(b"alice", 0, 10_000);
    let coins = Seq::from_slice(rt.alloc(), &[coin])?;
    let journal = journal_in(rt, path)?;
    let sealer = KeyedSeal::new([0x5a; 32]);
    let node = Member::open(rt.alloc(), 0, &committee, &coins, None, journal, sealer)?;
    Ok(node)
}

/// Opens the node from its file, asks it for its vote, and drops it: nothing of it is left but the file.
fn ask(rt: &HostRuntime, path: &str, bytes: &[u8]) -> Result<()> {
    let mut node = open(rt, path)?;
    let voted = node.vote(bytes);
    drop(node);
    let Voted { fresh, .. } = voted?;
    let when = if fresh {
        "which is new"
    } else {
        "which was given before"
    };
    println!(rt; "a vote, {when}")?;
    Ok(())
}

fn main(rt: HostRuntime) -> Result<()> {
    let mut source = InSource::new(rt.reader());
    let bytes = read_text(rt.alloc(), 65_536, &mut source)?;
    let path = "example_file.records";
    ask(&rt, path, bytes.as_slice())?;
    ask(&rt, path, bytes.as_slice())?;
    fs::remove_file(&rt, path)?;
    Ok(())
}
