//! A node, which answers what it is asked over a channel.

use anyhow::Result;
use crossbeam_channel::{Receiver, Sender};
use std::alloc::Global;
use std::sync::Wait;
use std::thread::Threads;
use sui_validator::node::{AckRefusal, Committee, KeyedSeal, MemJournal, Voted, journal_in_memory};
use sui_validator::types::{Sealed, Seq, coin_of};
use sui_validator::{Error, Member, Workers};

type Node = Member<MemJournal, KeyedSeal>;

/// What a node answers: a statement under its seal, or a refusal.
pub type Said = Result<Sealed, Error>;

/// A node of a committee of two, in an epoch that opens with a coin of alice.
fn open(alloc: Global, number: u32) -> Result<Node, Error> {
    let (committee, journal) = (Committee::new(&[1, 1])?, journal_in_memory(alloc)?);
    let coins = Seq::from_slice(alloc, &[coin_of(b"alice", 0, 10_000)])?;
    let sealer = KeyedSeal::new([0x5a; 32]);
    Ok(Member::open(alloc, number, &committee, &coins, None, journal, sealer)?)
}

/// Votes for a transaction.
fn vote(node: &mut Node, bytes: &[u8]) -> Said {
    let Voted { sealed, .. } = node.vote(bytes)?;
    Ok(sealed)
}

/// Executes a certificate, and acknowledges what it did.
fn pay<R: Threads + Sync>(rt: &R, node: &mut Node, cert: &[u8]) -> Said {
    node.hold(cert)?;
    let ran = node.run(rt, &Workers::one())?;
    match ran.executed.as_slice() {
        [paid, ..] => Ok(node.ack(&paid.effects().tx)?),
        [] => Err(Error::Ack(AckRefusal::NotExecuted)),
    }
}

/// Sees the certificate and a mark in the sequence, closes the epoch, and says its End.
fn close(node: &mut Node, entry: &[u8]) -> Said {
    node.see(0, entry)?;
    node.see(1, &[2])?;
    node.close()?;
    Ok(node.end()?)
}

/// Sees an End in the sequence, as the entry of this number.
fn see(node: &mut Node, number: u64, end: &[u8]) -> Result<(), Error> {
    node.see(number, end)?;
    Ok(())
}

/// Turns to the next epoch: its number.
fn turn(node: &mut Node) -> Result<u64, Error> {
    node.turn()?;
    Ok(node.epoch())
}

/// Answers what it is asked in each round of a payment, a second spend and an epoch's end: the number of the epoch then.
fn answer<R: Threads + Wait + Sync>(
    rt: &R,
    node: &mut Node,
    asks: &Receiver<Seq<u8>>,
    said: &Sender<Said>,
) -> Result<u64> {
    said.send(rt, vote(node, asks.recv(rt)?.as_slice()))?;
    said.send(rt, pay(rt, node, asks.recv(rt)?.as_slice()))?;
    said.send(rt, vote(node, asks.recv(rt)?.as_slice()))?;
    said.send(rt, close(node, asks.recv(rt)?.as_slice()))?;
    see(node, 2, asks.recv(rt)?.as_slice())?;
    see(node, 3, asks.recv(rt)?.as_slice())?;
    Ok(turn(node)?)
}

/// A node of this number, from its opening to the end of its epoch.
pub(crate) fn live<R: Threads + Wait + Sync>(
    rt: &R,
    alloc: Global,
    number: u32,
    asks: Receiver<Seq<u8>>,
    said: Sender<Said>,
) -> Result<u64> {
    let mut node = open(alloc, number)?;
    let epoch = answer(rt, &mut node, &asks, &said);
    drop(node);
    epoch
}
