//! The program over sources, sinks and keepers in memory, from bytes to bytes. The expected texts are worked by hand from the
//! rules.

ghost use Rattle.std.specs.Prelude.{◌<◌, ◌≤◌, length};
ghost use Rattle.committee_core.specs.Journals.{AreEmpty};

use crate::same::same;
use committee_core::{committee, fresh_keeper};
use outside::{AlteredKeeper, Keeper, MemSink, MemSource, NarrowSink, Sink};
use std::alloc::Global;
use std::process::Abort;
use std::sync::Wait;
use std::test::Fail;
use std::thread::Threads;

/// Three of four members vote, and the first one executes the certificate.
const CERTIFIED: &str =
    "member 1 honest\nmember 1 honest\nmember 1 honest\nmember 1 honest\ncoin g0 alice 10000\n\
tx t1 alice 0 g0@1 2000 n:500 a:bob split(gas,i0) transfer(r0,i1)\n\
vote 0 t1\nvote 1 t1\nvote 2 t1\ncert t1 0 1 2\nsend 0 t1\nrun 0 2\nshow 0\n";

const REPORT: &str = "tx t1: made\nvote 0 t1: voted -\nvote 1 t1: voted -\nvote 2 t1: voted -\n\
cert t1: formed by 0 1 2\nsend 0 t1: held\nrun 0: executed 1\n  t1 done v2 gas 1200\n\
show 0: epoch 0 objects 2\n  g0 v2 alice coin 0 8300\n  t1.0 v2 bob coin 0 500\n";

/// The lines of its first two events.
const TWO_LINES: &str = "tx t1: made\nvote 0 t1: voted -\n";

/// A member votes and starts again.
const RESTART: &str = "member 1 honest\ncoin g0 alice 10000\n\
tx t1 alice 0 g0@1 2000 a:bob transfer(gas,i0)\nvote 0 t1\nrestart 0\n";

/// A member votes and starts again, among four members and with another transaction.
const FOUR_RESTART: &str =
    "member 1 honest\nmember 1 honest\nmember 1 honest\nmember 1 honest\ncoin g0 alice 10000\n\
tx t1 alice 0 g0@1 2000 n:500 a:bob split(gas,i0) transfer(r0,i1)\nvote 0 t1\nrestart 0\n";

/// What is reported if the first record is bad.
const BAD: &str = "tx t1: made\nvote 0 t1: voted -\nrestart 0: bad record 0\n";

/// Runs the words `run` over a text, which is read in such pieces, and gives the status.
#[tactic(auto, using(committee_core::proofs::Obeying::begins_empty))]
fn run_over<R: Threads + Wait + Sync, K: Sink, D: Keeper>(
    rt: &R,
    alloc: Global,
    text: &str,
    piece: u32,
    failing_read: u64,
    sink: &mut K,
    keeper: &mut D,
) -> Result<u8, Fail>
    requires piece { 0 < piece }
    requires room { 64 ≤ D.width keeper.old }
    requires empty { AreEmpty (D.lists keeper.old) }
{
    let words = vec![in alloc; "run".to_string(alloc)?]?;
    let mut source = MemSource::new(alloc, text.as_bytes(), piece, [failing_read].as_slice())?;
    Ok(committee(rt, alloc, words.as_slice(), &mut source, sink, keeper))
}

/// Runs a text over a source, a sink and a keeper that fail at these calls, and tests the status and what was written.
pub(crate) fn expect_run<R: Abort + Threads + Wait + Sync>(
    rt: &R,
    alloc: Global,
    text: &str,
    failing: [u64; 3],
    status: u8,
    written: &str,
) -> Result<(), Fail> {
    let [read, write, keep] = failing;
    let mut sink = MemSink::new(alloc, [write].as_slice())?;
    let mut keeper = fresh_keeper(alloc, [keep].as_slice())?;
    let ended = run_over(rt, alloc, text, 64, read, &mut sink, &mut keeper)?;
    same(rt, (failing, ended), (failing, status));
    same(rt, sink.bytes(), written.as_bytes());
    Ok(())
}

/// Runs a text over a sink that takes at most this many bytes of a piece.
fn expect_narrow<R: Abort + Threads + Wait + Sync>(
    rt: &R,
    alloc: Global,
    most: u32,
    status: u8,
    written: &str,
) -> Result<(), Fail> {
    let mut sink = NarrowSink::new(alloc, most, &[])?;
    let mut keeper = fresh_keeper(alloc, &[])?;
    let ended = run_over(rt, alloc, CERTIFIED, 7, 0, &mut sink, &mut keeper)?;
    same(rt, (most, ended), (most, status));
    same(rt, sink.bytes(), written.as_bytes());
    Ok(())
}

#[test]
fn pieces_do_not_matter(rt: HostRuntime) -> Result<(), Fail> {
    expect_narrow(&rt, rt.alloc(), 7, 0, REPORT)?;
    expect_narrow(&rt, rt.alloc(), 0, 5, "")
}

#[test]
fn a_fault_ends_the_report(rt: HostRuntime) -> Result<(), Fail> {
    expect_run(&rt, rt.alloc(), CERTIFIED, [2, 0, 0], 4, "")?;
    expect_run(&rt, rt.alloc(), CERTIFIED, [0, 3, 0], 5, TWO_LINES)?;
    expect_run(&rt, rt.alloc(), CERTIFIED, [0, 0, 1], 6, "tx t1: made\n")
}

/// Runs a text over a keeper that gives these bytes in place of the first record of member 0, and gives the status.
fn run_altered<R: Threads + Wait + Sync>(
    rt: &R,
    alloc: Global,
    text: &str,
    bytes: &[u8],
    sink: &mut MemSink,
) -> Result<u8, Fail> {
    let inner = fresh_keeper(alloc, &[])?;
    let mut keeper = AlteredKeeper::new(inner, 0, 0, bytes)?;
    let ended = run_over(rt, alloc, text, 64, 0, sink, &mut keeper);
    drop(keeper);
    ended
}

/// Runs a text over a keeper that gives these bytes in place of the first record of member 0, and expects that the
/// record is bad.
fn expect_bad<R: Abort + Threads + Wait + Sync>(
    rt: &R,
    alloc: Global,
    text: &str,
    bytes: &[u8],
) -> Result<(), Fail> {
    let mut sink = MemSink::new(alloc, &[])?;
    let ended = run_altered(rt, alloc, text, bytes, &mut sink)?;
    same(rt, ended, 6);
    same(rt, sink.bytes(), BAD.as_bytes());
    Ok(())
}

#[test]
fn a_bad_record_is_said(rt: HostRuntime) -> Result<(), Fail> {
    // a run without its items, and a turn that no member took
    for bytes in [[6], [5]] {
        expect_bad(&rt, rt.alloc(), RESTART, bytes.as_slice())?;
        expect_bad(&rt, rt.alloc(), FOUR_RESTART, bytes.as_slice())?;
    }
    Ok(())
}
