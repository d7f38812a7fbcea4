//! The program over a journal file, on a disk in memory of which each call fails in turn. What is found after that was
//! worked out from the file's format: the opening of an empty file makes three calls, and each record four.

use crate::same::same;
use crate::stops::PATH;
use committee_core::committee_in;
use disk_log::MemDisk;
use outside::{MemSink, MemSource};
use std::alloc::{AllocError, Global};
use std::sync::Wait;
use std::test::Fail;
use std::thread::Threads;

/// The calls of a run of the path, which keeps three records.
const CALLS: u64 = 15;

/// One word, owned.
fn one(alloc: Global, word: &str) -> Result<Vec<String>, AllocError> {
    let mut words = Vec::new(alloc);
    words.push(String::from_str(alloc, word)?)?;
    Ok(words)
}

/// Two words, owned.
fn two(alloc: Global, first: &str, second: &str) -> Result<Vec<String>, AllocError> {
    let mut words = one(alloc, first)?;
    words.push(String::from_str(alloc, second)?)?;
    Ok(words)
}

/// Runs the path over the disk, and then starts its member from what is there: both statuses, and how many records were
/// kept.
fn run_and_replay<R: Threads + Wait + Sync>(
    rt: &R,
    alloc: Global,
    words: (&[String], &[String]),
    sources: (&mut MemSource, &mut MemSource),
    sinks: (&mut MemSink, &mut MemSink),
    disk: MemDisk,
) -> (u8, u8) {
    let (ran, disk) = committee_in(rt, alloc, words.0, sources.0, sinks.0, disk);
    let (replayed, disk) = committee_in(rt, alloc, words.1, sources.1, sinks.1, disk);
    drop(disk);
    (ran, replayed)
}

/// A source of the path.
fn path(alloc: Global) -> Result<MemSource, Fail> {
    Ok(MemSource::new(alloc, PATH.as_bytes(), 64, &[])?)
}

/// What comes of the run and of the replay if the call of this number fails, and whether the replay says that there
/// are this many records.
fn behind_fault<R: Threads + Wait + Sync>(
    rt: &R,
    alloc: Global,
    call: u64,
    said: &[u8],
) -> Result<(u8, u8, bool), Fail> {
    let words = (one(alloc, "run")?, two(alloc, "replay", "0")?);
    let mut sources = (path(alloc)?, path(alloc)?);
    let mut sinks = (MemSink::new(alloc, &[])?, MemSink::new(alloc, &[])?);
    let disk = MemDisk::new(alloc, &[], [call].as_slice())?;
    let (ran, replayed) = run_and_replay(
        rt,
        alloc,
        (words.0.as_slice(), words.1.as_slice()),
        (&mut sources.0, &mut sources.1),
        (&mut sinks.0, &mut sinks.1),
        disk,
    );
    let is_said = sinks.1.bytes().starts_with(said);
    drop(sources);
    Ok((ran, replayed, is_said))
}

/// What a replay says first of this many records.
fn said_of(records: u64) -> &'static [u8] {
    match records {
        0 => b"restart 0: records 0\n".as_slice(),
        1 => b"restart 0: records 1\n".as_slice(),
        2 => b"restart 0: records 2\n".as_slice(),
        _ => b"restart 0: records 3\n".as_slice(),
    }
}

#[test]
fn each_call_of_the_disk_fails(rt: HostRuntime) -> Result<(), Fail> {
    for call in 1..=CALLS {
        // The record of the fourth call after the opening stands in the file, though its sync failed.
        let records = if call < 3 { 0 } else { (call - 3) / 4 };
        let come = behind_fault(&rt, rt.alloc(), call, said_of(records))?;
        same(&rt, (call, come), (call, (6, 0, true)));
    }
    let whole = behind_fault(&rt, rt.alloc(), CALLS + 1, said_of(3))?;
    same(&rt, whole.0, 0);
    Ok(())
}
