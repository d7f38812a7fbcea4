//! Votes collected in ways that no line asks for: of a member named twice, of none, and of another epoch.

use crate::same::same;
use chain_messages::Statement;
use digest_core::Digest;
use quorum_core::Committee;
use std::alloc::Global;
use std::test::Fail;
use wire_bcs::{OutOfMemory, Seq};
use world_lines::{Collected, StatementLog};

const TX: Digest = Digest([7; 32]);

/// The seal on each vote; collecting looks at none.
const SEAL: Digest = Digest([9; 32]);

/// The epoch that the votes name.
const EPOCH: u64 = 5;

/// A member votes for the transaction, and names one origin, which is none.
fn vote(alloc: Global, book: &mut StatementLog, member: u32) -> Result<(), OutOfMemory> {
    let origins = Seq::from_slice(alloc, [None].as_slice())?;
    let vote = Statement::Vote {
        epoch: EPOCH,
        tx: TX,
        origins,
    };
    book.say_sealed(member, vote, SEAL)
}

/// Says votes of the members 0 and 1, and what those of these members for the transaction of the epoch give.
fn collected(
    alloc: Global,
    book: &mut StatementLog,
    epoch: u64,
    members: &[u32],
) -> Result<Option<Collected>, OutOfMemory> {
    vote(alloc, book, 0)?;
    vote(alloc, book, 1)?;
    match Committee::new([1, 1, 1].as_slice()) {
        Ok(committee) => Ok(Some(book.collect(&committee, epoch, &TX, members))),
        Err(_) => Ok(None),
    }
}

/// The weight of three that these members have, if it is too little.
fn weight(alloc: Global, members: &[u32]) -> Option<u64> {
    let mut book = StatementLog::new(alloc);
    let collected = collected(alloc, &mut book, EPOCH, members);
    drop(book);
    match collected {
        Ok(Some(Collected::Short { weight, total: 3 })) => Some(weight),
        _ => None,
    }
}

#[test]
fn a_member_named_twice_weighs_once(rt: HostRuntime) -> Result<(), Fail> {
    // Exactly two thirds are not a quorum.
    same(&rt, weight(rt.alloc(), [0, 1, 0].as_slice()), Some(2));
    same(&rt, weight(rt.alloc(), [].as_slice()), Some(0));
    Ok(())
}

/// The first of the members without a vote for the transaction of the epoch.
fn lacking(alloc: Global, epoch: u64, members: &[u32]) -> Option<u32> {
    let mut book = StatementLog::new(alloc);
    let collected = collected(alloc, &mut book, epoch, members);
    drop(book);
    match collected {
        Ok(Some(Collected::Lacks(member))) => Some(member),
        _ => None,
    }
}

#[test]
fn a_vote_of_another_epoch_does_not_count(rt: HostRuntime) -> Result<(), Fail> {
    same(
        &rt,
        lacking(rt.alloc(), EPOCH, [0, 1, 2].as_slice()),
        Some(2),
    );
    same(&rt, lacking(rt.alloc(), 4, [0, 1].as_slice()), Some(0));
    Ok(())
}
