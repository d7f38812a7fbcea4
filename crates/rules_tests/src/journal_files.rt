//! The bytes of a journal file, what an opening finds, open gates and faults.

use crate::same::same;
use disk_log::{DiskLog, LogRefusal, MemDisk, OpenRefusal, RunLog};
use outside::{Keeper, OutFault};
use std::alloc::Global;
use wire_bcs::{OutOfMemory, Seq};

/// A number for each answer of an append.
fn number_of(answer: Result<(), LogRefusal>) -> u8 {
    match answer {
        Ok(()) => 0,
        Err(LogRefusal::Shut) => 1,
        Err(LogRefusal::Full) => 2,
        Err(LogRefusal::OutOfMemory) => 3,
        Err(LogRefusal::DiskFault) => 4,
    }
}

/// How many records of members 0 and 1 an opening finds; 100 and the place of a bad member, 200
/// if it was refused otherwise.
fn found(alloc: Global, contents: &[u8]) -> Result<(u64, u64), OutOfMemory> {
    if contents.len() >= 1 << 63 {
        return Ok((200, 0));
    }
    let disk = MemDisk::new(alloc, contents, &[])?;
    match DiskLog::open(alloc, disk, 2) {
        Ok(log) => Ok(counts(log)),
        Err((_disk, refusal)) => Ok(refused(refusal)),
    }
}

/// The numbers for an opening that was refused.
fn refused(refusal: OpenRefusal) -> (u64, u64) {
    match refusal {
        OpenRefusal::BadMember { at } => (100, at),
        _ => (200, 0),
    }
}

/// How many records members 0 and 1 have.
fn counts(log: DiskLog<MemDisk>) -> (u64, u64) {
    let both = if log.members() < 2 {
        (200, 0)
    } else {
        (log.count(0), log.count(1))
    };
    let _disk = log.into_disk();
    both
}

/// A record of member 1 with the bytes 7 and 8, after a gate, and the next gate.
const ONE: &[u8] = &[1, 2, 0, 0, 0, 1, 0, 0, 0, 7, 8, 0];

/// The record of member 1 with the bytes 7 and 8, but after a closed gate, and the next gate.
const CLOSED: &[u8] = &[0, 2, 0, 0, 0, 1, 0, 0, 0, 7, 8, 0];

/// The record of member 1 with the bytes 7 and 8, but after a torn gate, neither open nor closed.
const ODD: &[u8] = &[255, 2, 0, 0, 0, 1, 0, 0, 0, 7, 8, 0];

/// A torn record after a closed gate.
const TORN: &[u8] = &[0, 1, 1, 1, 1, 1, 1, 1];

/// A record of member 0 with the byte 5, after a gate, and the next gate.
const FIVE: &[u8] = &[1, 1, 0, 0, 0, 0, 0, 0, 0, 5, 0];

/// Files, and how many records of members 0 and 1 an opening finds in them.
const FILES: &[(&[u8], (u64, u64))] = &[
    // After the first write and its sync of an append: anything after the closed gate.
    (&[0], (0, 0)),
    (CLOSED, (0, 0)),
    (TORN, (0, 0)),
    // After the write of the gate: any gate, with all that is after it.
    (ODD, (0, 0)),
    (ONE, (0, 1)),
    (&[0, 1, 0, 0, 0, 0, 0, 0, 0, 5, 0], (0, 0)),
    // A member that is none of two; a length that goes past the end; no gate after the record.
    (&[1, 1, 0, 0, 0, 2, 0, 0, 0, 5, 0], (100, 0)),
    (&[1, 255, 255, 255, 255, 0, 0, 0, 0, 5, 0], (0, 0)),
    (&[1, 1, 0, 0, 0, 1, 0, 0, 0, 5], (0, 0)),
    // What stands after the gate that ends the records means nothing.
    (&[1, 0, 0, 0, 0, 0, 0, 0, 0, 0, 1, 0, 0, 0, 0], (1, 0)),
];

#[test]
fn an_opening_finds_what_counts(rt: HostRuntime) {
    for (file, records) in FILES {
        same(&rt, found(rt.alloc(), *file), Ok(*records));
    }
}

/// What an append is answered (9 if there was none), the bytes that the disk has then, and how many records of members 0
/// and 1 an opening finds in them.
#[derive(Drop)]
struct Left {
    answer: u8,
    bytes: Vec<u8>,
    found: (u64, u64),
}

/// Appends a record of member 1.
fn appended(log: DiskLog<MemDisk>, bytes: &[u8]) -> (u8, MemDisk) {
    let mut log = log;
    if log.members() < 2 || bytes.len() >= 1 << 31 {
        return (9, log.into_disk());
    }
    let answer = number_of(log.append_record(1, bytes));
    (answer, log.into_disk())
}

/// What an append to these contents leaves, on a disk that fails at these calls.
fn left_by(
    alloc: Global,
    contents: &[u8],
    failing: &[u64],
    bytes: &[u8],
) -> Result<Left, OutOfMemory> {
    if contents.len() >= 1 << 63 {
        return Err(OutOfMemory);
    }
    let disk = MemDisk::new(alloc, contents, failing)?;
    let (answer, disk) = match DiskLog::open(alloc, disk, 2) {
        Ok(log) => appended(log, bytes),
        Err((disk, _refusal)) => (9, disk),
    };
    let bytes = Seq::from_slice(alloc, disk.bytes())?.into_vec();
    drop(disk);
    let found = found(alloc, bytes.as_slice())?;
    Ok(Left {
        answer,
        bytes,
        found,
    })
}

/// Contents, calls that fail, a record of member 1, what is answered, the bytes then, and the records that are
/// found in them.
type Row<'a> = (&'a [u8], &'a [u64], &'a [u8], u8, &'a [u8], (u64, u64));

const APPENDS: &[Row] = &[
    (&[], &[], &[7, 8], 0, ONE, (0, 1)),
    // A gate that was open is closed: that opening makes four calls, a sync, a read, a write and a sync.
    (&[1], &[5], &[7], 4, &[0], (0, 0)),
    // The opening of an empty file makes three calls, so the fifth is the first sync of the append.
    (&[], &[5], &[7, 8], 4, CLOSED, (0, 0)),
    // After the first write and its sync the record in progress does not count, whole or torn; nor after a gate of which
    // something else came through. After the open gate it does.
    (
        CLOSED,
        &[],
        &[9],
        0,
        &[1, 1, 0, 0, 0, 1, 0, 0, 0, 9, 0, 0],
        (0, 1),
    ),
    (
        TORN,
        &[],
        &[9],
        0,
        &[1, 1, 0, 0, 0, 1, 0, 0, 0, 9, 0],
        (0, 1),
    ),
    (
        ODD,
        &[],
        &[9],
        0,
        &[1, 1, 0, 0, 0, 1, 0, 0, 0, 9, 0, 0],
        (0, 1),
    ),
    (ONE, &[], &[9], 0, ONE_AND_NINE, (0, 2)),
];

/// The record of the bytes 7 and 8, and one of the byte 9 after it.
const ONE_AND_NINE: &[u8] = &[
    1, 2, 0, 0, 0, 1, 0, 0, 0, 7, 8, 1, 1, 0, 0, 0, 1, 0, 0, 0, 9, 0,
];

/// Whether appending to the row's contents gives what the row says.
fn is_left(alloc: Global, row: &Row) -> Result<bool, OutOfMemory> {
    let (contents, failing, bytes, answer, file, found) = *row;
    let left = left_by(alloc, contents, failing, bytes)?;
    let said = left.answer == answer && left.bytes.as_slice() == file && left.found == found;
    drop(left);
    Ok(said)
}

#[test]
fn an_append_leaves_its_record(rt: HostRuntime) {
    for row in APPENDS {
        same(&rt, is_left(rt.alloc(), row), Ok(true));
    }
}

/// Appends the byte 5 as a record of member 0, and once more if it was refused.
fn appended_twice(log: DiskLog<MemDisk>) -> ((u8, u8), MemDisk) {
    let mut log = log;
    if log.members() < 1 {
        return ((9, 9), log.into_disk());
    }
    let first = number_of(log.append_record(0, [5].as_slice()));
    let second = if first == 0 {
        9
    } else {
        number_of(log.append_record(0, [5].as_slice()))
    };
    ((first, second), log.into_disk())
}

/// What the log of an empty disk answers to a record of member 0, and to a second one after a first that was refused (9
/// if there was none); whether the record then stands in the file; and what an opening finds.
fn twice_left(alloc: Global, failing: &[u64]) -> Result<((u8, u8), bool, (u64, u64)), OutOfMemory> {
    let disk = MemDisk::new(alloc, &[], failing)?;
    let (answers, disk) = match DiskLog::open(alloc, disk, 2) {
        Ok(log) => appended_twice(log),
        Err((disk, _refusal)) => ((9, 9), disk),
    };
    let (stands, found) = (disk.bytes() == FIVE, found(alloc, disk.bytes()));
    drop(disk);
    Ok((answers, stands, found?))
}

#[test]
fn a_log_is_shut_behind_a_fault(rt: HostRuntime) {
    same(&rt, twice_left(rt.alloc(), &[]), Ok(((0, 9), true, (1, 0))));
    // The first sync of the append fails, and the log is asked once more.
    same(
        &rt,
        twice_left(rt.alloc(), &[5]),
        Ok(((4, 1), false, (0, 0))),
    );
}

/// Two appends of a run on an empty disk, 0 if they were kept, 1 at a fault, 2 for running out of
/// memory; and how many records of member 1 an opening of the same disk then finds.
fn run_left(alloc: Global, failing: &[u64]) -> Result<(u8, u8, u64), OutOfMemory> {
    let disk = MemDisk::new(alloc, &[], failing)?;
    let (answers, disk) = match RunLog::open(alloc, disk, 2) {
        Ok(log) => run_twice(log),
        Err((disk, _refusal)) => ((9, 9), disk),
    };
    let (_, ones) = found(alloc, disk.bytes())?;
    Ok((answers.0, answers.1, ones))
}

/// Appends two records of member 1.
fn run_twice(log: RunLog<MemDisk>) -> ((u8, u8), MemDisk) {
    let mut log = log;
    if log.members() < 2 {
        return ((9, 9), log.into_disk());
    }
    let first = kept_as(log.append(1, [7].as_slice()));
    let second = kept_as(log.append(1, [8].as_slice()));
    ((first, second), log.into_disk())
}

/// A number for each answer of a keeper.
fn kept_as(answer: Result<(), OutFault>) -> u8 {
    match answer {
        Ok(()) => 0,
        Err(OutFault::Failed) => 1,
        Err(OutFault::OutOfMemory) => 2,
    }
}

#[test]
fn the_log_of_a_run(rt: HostRuntime) {
    // A fault of the disk is a fault, and the log that is shut after it gives no room.
    same(&rt, run_left(rt.alloc(), &[]), Ok((0, 0, 2)));
    same(&rt, run_left(rt.alloc(), &[5]), Ok((1, 2, 0)));
}
