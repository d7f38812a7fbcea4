//! Ends of the members of a committee with equal stakes, ordered in a book of sequences: including some that no line makes.

ghost use Rattle.std.specs.Prelude.{IfOk};
ghost use Rattle.chain_messages.specs.Messages as codecs;

use crate::members::sealer;
use crate::same::same;
use chain_messages::{Entry, Sealed, Statement, encode_statement};
use quorum_core::{Committee, Sealer, Signer};
use std::alloc::Global;
use std::process::Abort;
use std::test::Fail;
use wire_bcs::{OutOfMemory, Seq};
use world_lines::ConsensusLog;

/// A member's End of an epoch, under the seal of this signer.
#[tactic(auto, unfolding(chain_messages::specs::Messages::statement), using(world_lines::proofs::Spelled::short_end))]
fn end(alloc: Global, member: u32, signer: u32, epoch: u64) -> Result<Entry, OutOfMemory>
    ensures { IfOk result (λ end. codecs.entry.short end) }
{
    let statement = Statement::End { epoch };
    let bytes = encode_statement(alloc, &statement)?;
    let seal = sealer().seal(&Signer::Member(signer), bytes.as_slice());
    Ok(Entry::End(Sealed {
        member,
        statement,
        seal,
    }))
}

/// Orders an End, and says whether the open epoch has ended then.
fn order(
    alloc: Global,
    book: &mut ConsensusLog,
    committee: &Committee,
    end: &(u32, u32, u64),
) -> Result<bool, OutOfMemory> {
    let entry = self::end(alloc, end.0, end.1, end.2)?;
    let pushed = book.push(&entry);
    drop(entry);
    pushed?;
    book.has_ended(committee, &sealer())
}

/// What is said after each of these Ends: a member, the signer of its seal, and an epoch.
fn told(
    alloc: Global,
    book: &mut ConsensusLog,
    committee: &Committee,
    ends: &[(u32, u32, u64)],
) -> Result<Seq<bool>, OutOfMemory> {
    let mut told = Seq::new(alloc);
    for end in ends {
        told.push(order(alloc, book, committee, end)?)?;
    }
    Ok(told)
}

/// A seal of another member, an End of another epoch, a repeat and a stranger count nothing: the seventh ends the epoch.
const ENDS: [(u32, u32, u64); 8] = [
    (0, 0, 0),
    (1, 0, 0),
    (1, 1, 1),
    (1, 1, 0),
    (0, 0, 0),
    (9, 9, 0),
    (3, 3, 0),
    (2, 2, 0),
];

const TOLD: [bool; 8] = [false, false, false, false, false, false, true, true];

/// Ends of the next epoch, after one of the last.
const NEXT: [(u32, u32, u64); 3] = [(3, 3, 0), (3, 3, 1), (0, 0, 1)];

/// Tests what is said as the epoch ends, and as the next one opens.
fn expect_ends(
    rt: &impl Abort,
    alloc: Global,
    book: &mut ConsensusLog,
    committee: &Committee,
) -> Result<(), OutOfMemory> {
    let ended = told(alloc, book, committee, ENDS.as_slice())?;
    same(rt, ended.as_slice(), TOLD.as_slice());
    book.rise()?;
    let next = told(alloc, book, committee, NEXT.as_slice())?;
    same(rt, next.as_slice(), [false; 3].as_slice());
    same(rt, (book.epoch(), book.len(), book.count(0)), (1, 3, 8));
    Ok(())
}

#[test]
fn an_epoch_ends_behind_the_ends_of_three_of_four(rt: HostRuntime) -> Result<(), Fail> {
    let alloc = rt.alloc();
    let Ok(committee) = Committee::new([1, 1, 1, 1].as_slice()) else {
        return Err(Fail::new("four stakes are a committee"));
    };
    let mut book = ConsensusLog::new(alloc);
    let expected = expect_ends(&rt, alloc, &mut book, &committee);
    drop(book);
    Ok(expected?)
}
