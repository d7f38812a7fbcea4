//! Crashes after each device call of three runs: one of three short records, and what the members of two worked schedules
//! keep. The records of these are those of an independent script, which has their digests and seals from SHA-256 and their
//! encodings from the rules.

use crate::same::same;
use disk_log::{DiskLog, MemDisk};
use outside::Keeper;
use std::alloc::Global;
use wire_bcs::OutOfMemory;

/// A record: its member, the nine bytes that stand before it in the file, which are its gate, its length and its
/// member, and its bytes as hexadecimal digits.
type Row = (u32, [u8; 9], &'static str);

/// A vote for t1, after a transaction with 500 for bob.
const VOTE: &str =
    "0000000000000000008664e69e5d6097e16cbe321bca1759cc2f4e908a4045089a58592cfd335e41f0805c8476ced89a9d1feb86\
c99137b7049dcfc88a198c062a07a3458d16584c40010000000000000072955c7862d0b42671fb1238e910ac9487c4625bbd99f8\
2a2164c99dfbca6b39d007000000000000020008f40100000000000000204e7030e3beadedd34c6d94354b55086f5e4d975eb9c7\
16a3e984bea4947768da0202000101000001010200000101000100";

/// The certificate of that vote, under the seals of members 0, 1 and 2.
const HOLD: &str =
    "0100000000000000008664e69e5d6097e16cbe321bca1759cc2f4e908a4045089a58592cfd335e41f0805c8476ced89a9d1feb86\
c99137b7049dcfc88a198c062a07a3458d16584c40010000000000000072955c7862d0b42671fb1238e910ac9487c4625bbd99f8\
2a2164c99dfbca6b39d007000000000000020008f40100000000000000204e7030e3beadedd34c6d94354b55086f5e4d975eb9c7\
16a3e984bea4947768da0202000101000001010200000101000100030000000000248d68e7ac0330af9e6ec51c5273f1c4d933e5\
278c863c353143fbba74e4c5010000001d3ff32f226315e76017b9fb3346ce28f16fbece1793841859e2996614268d7402000000\
2a205e1408c577d908217720cb84b1880cf0b653da17f2a0227515ff359e62a5";

/// Its run, with the digest of its effects.
const RAN: &str =
    "06011426d8ed2fd646d24b82c3ae079936d3e2216a833a5ac705cf7e0eb6ce2cce8795c9c55bf1d4656631a7fcd96ddf9aed1014\
d3a4a92ce254f0747ad1e41a88a2";

/// A transfer among four members: three vote, and member 0 holds the certificate and executes it. Each record has what
/// stands before it in the file.
const TRANSFER: &[Row] = &[
    (0, [1, 183, 0, 0, 0, 0, 0, 0, 0], VOTE),
    (1, [1, 183, 0, 0, 0, 1, 0, 0, 0], VOTE),
    (2, [1, 183, 0, 0, 0, 2, 0, 0, 0], VOTE),
    (0, [1, 36, 1, 0, 0, 0, 0, 0, 0], HOLD),
    (0, [1, 66, 0, 0, 0, 0, 0, 0, 0], RAN),
];

/// The vote of a member that is a committee by itself, for alice's coin to bob.
const OWN_VOTE: &str =
    "0000000000000000008664e69e5d6097e16cbe321bca1759cc2f4e908a4045089a58592cfd335e41f0805c8476ced89a9d1feb86\
c99137b7049dcfc88a198c062a07a3458d16584c40010000000000000072955c7862d0b42671fb1238e910ac9487c4625bbd99f8\
2a2164c99dfbca6b39d0070000000000000100204e7030e3beadedd34c6d94354b55086f5e4d975eb9c716a3e984bea4947768da\
010101000100000100";

/// The certificate of that one vote.
const OWN_HOLD: &str =
    "0100000000000000008664e69e5d6097e16cbe321bca1759cc2f4e908a4045089a58592cfd335e41f0805c8476ced89a9d1feb86\
c99137b7049dcfc88a198c062a07a3458d16584c40010000000000000072955c7862d0b42671fb1238e910ac9487c4625bbd99f8\
2a2164c99dfbca6b39d0070000000000000100204e7030e3beadedd34c6d94354b55086f5e4d975eb9c716a3e984bea4947768da\
0101010001000001000100000000a850e1bcc4e98703a09e5f6a85f145a8e6d784c070cf18b73619d7340a8f7e73";

/// Its run, with the digest of its effects.
const OWN_RAN: &str =
    "0601d9b638650074ff3caf6f23727531c030a45748d982d3d89b473638a4f5efae56ca8c2c5e92f674cfda1e6acc39b06041ff27\
4ac20eb369f6d3874084f1fcbf79";

/// The certificate is seen as an entry of the sequence.
const SEE_CERT: &str =
    "02ca010000000000000000008664e69e5d6097e16cbe321bca1759cc2f4e908a4045089a58592cfd335e41f0805c8476ced89a9d\
1feb86c99137b7049dcfc88a198c062a07a3458d16584c40010000000000000072955c7862d0b42671fb1238e910ac9487c4625b\
bd99f82a2164c99dfbca6b39d0070000000000000100204e7030e3beadedd34c6d94354b55086f5e4d975eb9c716a3e984bea494\
7768da0101010001000001000100000000a850e1bcc4e98703a09e5f6a85f145a8e6d784c070cf18b73619d7340a8f7e73";

/// A mark is seen.
const SEE_MARK: &str = "020102";

/// The member closes.
const CLOSE: &str = "03";

/// Its own End is seen, which ends the epoch.
const SEE_END: &str =
    "022e010000000001000000000000000032bfbdea9dc163751d78ee9b152b20caee060ec251787b426478cd2012d580b8";

/// The member turns.
const TURN: &str = "05";

/// Its vote in the next epoch, for bob's coin to alice.
const NEXT_VOTE: &str =
    "0001000000000000004e7030e3beadedd34c6d94354b55086f5e4d975eb9c716a3e984bea4947768da805c8476ced89a9d1feb86\
c99137b7049dcfc88a198c062a07a3458d16584c400200000000000000d992e5abeb78e852c2f6236ada0398c2f311706c874bcf\
e0f004093d0bc73c79d0070000000000000100208664e69e5d6097e16cbe321bca1759cc2f4e908a4045089a58592cfd335e41f0\
010101000100000100";

/// Two epochs of that member.
const EPOCHS: &[Row] = &[
    (0, [1, 165, 0, 0, 0, 0, 0, 0, 0], OWN_VOTE),
    (0, [1, 202, 0, 0, 0, 0, 0, 0, 0], OWN_HOLD),
    (0, [1, 66, 0, 0, 0, 0, 0, 0, 0], OWN_RAN),
    (0, [1, 205, 0, 0, 0, 0, 0, 0, 0], SEE_CERT),
    (0, [1, 3, 0, 0, 0, 0, 0, 0, 0], SEE_MARK),
    (0, [1, 1, 0, 0, 0, 0, 0, 0, 0], CLOSE),
    (0, [1, 48, 0, 0, 0, 0, 0, 0, 0], SEE_END),
    (0, [1, 1, 0, 0, 0, 0, 0, 0, 0], TURN),
    (0, [1, 165, 0, 0, 0, 0, 0, 0, 0], NEXT_VOTE),
];

/// Three short records, of two members.
const SHORT: &[Row] = &[
    (0, [1, 1, 0, 0, 0, 0, 0, 0, 0], "05"),
    (1, [1, 2, 0, 0, 0, 1, 0, 0, 0], "0708"),
    (1, [1, 3, 0, 0, 0, 1, 0, 0, 0], "090a0b"),
];

/// A record: its member and its bytes.
#[derive(Drop)]
struct Kept {
    member: u32,
    bytes: Vec<u8>,
}

/// Records of a run, and the file that they make, up to its last gate.
#[derive(Drop)]
struct Run {
    records: Vec<Kept>,
    file: Vec<u8>,
}

/// Adds a record to the run, and to its file after what stands before it there.
fn add(alloc: Global, run: &mut Run, row: &Row) -> Result<(), OutOfMemory> {
    let (member, front, digits) = *row;
    let Ok(bytes) = hex::decode(alloc, digits) else {
        return Err(OutOfMemory);
    };
    run.file.extend_from_slice(front.as_slice())?;
    run.file.extend_from_slice(bytes.as_slice())?;
    run.records.push(Kept { member, bytes })?;
    Ok(())
}

/// The run of these records: the file ends in a closed gate.
fn run_of(alloc: Global, rows: &[Row]) -> Result<Run, OutOfMemory> {
    let mut run = Run {
        records: Vec::new(alloc),
        file: Vec::new(alloc),
    };
    for row in rows {
        add(alloc, &mut run, row)?;
    }
    run.file.push(0)?;
    Ok(run)
}

/// Appends a record. Answers whether it was acknowledged.
fn appends(log: &mut DiskLog<MemDisk>, record: &Kept) -> bool {
    if log.members() <= record.member || record.bytes.len() >= 1 << 31 {
        return false;
    }
    log.append_record(record.member, record.bytes.as_slice())
        .is_ok()
}

/// Appends the records from a place on, up to the first that is refused. Answers how many stand.
fn run_from(log: DiskLog<MemDisk>, records: &[Kept], place: u64) -> (u64, MemDisk) {
    let mut log = log;
    let count = records.len() as u64;
    for next in place..count {
        if !appends(&mut log, &records[next as usize]) {
            return (next, log.into_disk());
        }
    }
    (count, log.into_disk())
}

/// The run on an empty file whose disk fails at this call: how many records are acknowledged.
fn run_to(alloc: Global, records: &[Kept], call: u64) -> Result<(u64, MemDisk), OutOfMemory> {
    let disk = MemDisk::new(alloc, &[], [call].as_slice())?;
    Ok(match DiskLog::open(alloc, disk, 4) {
        Ok(log) => run_from(log, records, 0),
        Err((disk, _refusal)) => (0, disk),
    })
}

/// How many of the first records are this member's.
fn count_of(records: &[Kept], first: u64, member: u32) -> u64 {
    let mut count: u64 = 0;
    for (place, record) in records.iter().enumerate() {
        if (place as u64) < first && record.member == member {
            count = count.saturating_add(1);
        }
    }
    count
}

/// How many records the log has of each member.
fn counts(log: &DiskLog<MemDisk>) -> [u64; 4] {
    if log.members() < 4 {
        return [0; 4];
    }
    [log.count(0), log.count(1), log.count(2), log.count(3)]
}

/// Whether the members have as many records as are theirs among the first ones.
fn are_first(records: &[Kept], found: u64, counts: [u64; 4]) -> bool {
    for (member, count) in counts.iter().enumerate() {
        if *count != count_of(records, found, member as u32) {
            return false;
        }
    }
    true
}

/// How many records an opening found.
fn sum(counts: [u64; 4]) -> u64 {
    let [zero, one, two, three] = counts;
    zero.saturating_add(one)
        .saturating_add(two)
        .saturating_add(three)
}

/// Opens what a crash left of a run with this many acknowledged records, and runs on. Answers whether these records were
/// found, with the one in progress or without it, and the run ends as it does undisturbed.
fn runs_on(alloc: Global, run: &Run, disk: MemDisk, acknowledged: u64) -> bool {
    let Ok(log) = DiskLog::open(alloc, disk, 4) else {
        return false;
    };
    let counts = counts(&log);
    let found = sum(counts);
    let (stand, disk) = run_from(log, run.records.as_slice(), found);
    let is_run = disk.bytes().starts_with(run.file.as_slice());
    drop(disk);
    stand == run.records.len() as u64
        && is_run
        && are_first(run.records.as_slice(), found, counts)
        && acknowledged <= found
        && found - acknowledged <= 1
}

/// Whether the run goes on after a crash at this call.
fn is_survived(alloc: Global, run: &Run, call: u64, choice: u64) -> Result<bool, OutOfMemory> {
    let (acknowledged, disk) = run_to(alloc, run.records.as_slice(), call)?;
    let disk = disk.crash(choice)?;
    Ok(runs_on(alloc, run, disk, acknowledged))
}

/// Numbers of crashes. Of the places that were written or tried since the last sync, 0 leaves all as they were, 4 all as
/// written, and 8 another byte, 255, in all. With 1 and 2 the first of them is as written or 255, and the file ends there
/// unless it was longer; with 3 and 5 it is as it was or 255 and the others are as written; with 6 and 7 it is as it was or
/// as written and the others are 255. Each 9 more move one place from the others to the first ones: 70 and 79 write a prefix
/// of eight and nine places, up to the record, and leave 255 in its place; 73 lets the file end there; 907 and 1803 leave
/// 255 or the end in the middle of a long one. With the greater numbers all are 1, an open gate, if a record of this
/// size is written: of 66, 183 and 292 bytes.
const TRANSFER_CHOICES: &[u64] = &[
    0, 1, 2, 3, 4, 5, 6, 7, 8, 10, 70, 73, 75, 79, 82, 907, 1803, 171458, 438920, 688094,
];

/// Numbers of crashes, as above, for records of 1, 3, 48, 66, 165, 202 and 205 bytes.
const EPOCHS_CHOICES: &[u64] = &[
    0, 1, 2, 3, 4, 5, 6, 7, 8, 70, 73, 79, 907, 1803, 22868, 27440, 130310, 171458, 397772, 482354,
    489212,
];

/// Numbers of crashes, as above, for the short run: 10 writes a prefix of two places, 73 one of nine; at 22868, 25154
/// and 27440 all are 1, an open gate, if they are 10, 11 or 12.
const SHORT_CHOICES: &[u64] = &[
    0, 1, 2, 3, 4, 5, 6, 7, 8, 10, 12, 37, 39, 70, 73, 75, 79, 82, 22868, 25154, 27440, 999999996,
];

/// The first of these choices such that the run does not go on after the crash at this call.
fn first_lost_at(
    alloc: Global,
    run: &Run,
    call: u64,
    choices: &[u64],
) -> Result<Option<u64>, OutOfMemory> {
    for choice in choices {
        if !is_survived(alloc, run, call, *choice)? {
            return Ok(Some(*choice));
        }
    }
    Ok(None)
}

/// The first call and choice such that the run does not go on after the crash.
fn first_lost(
    alloc: Global,
    run: &Run,
    calls: u64,
    choices: &[u64],
) -> Result<Option<(u64, u64)>, OutOfMemory> {
    for call in 1..=calls {
        if let Some(choice) = first_lost_at(alloc, run, call, choices)? {
            return Ok(Some((call, choice)));
        }
    }
    Ok(None)
}

/// How many records are acknowledged if this call of the disk fails.
fn acknowledged(alloc: Global, rows: &[Row], call: u64) -> Result<u64, OutOfMemory> {
    let run = run_of(alloc, rows)?;
    let (acknowledged, disk) = run_to(alloc, run.records.as_slice(), call)?;
    drop(disk);
    Ok(acknowledged)
}

/// The first call and choice such that the run of these records does not go on after the crash.
fn lost(
    alloc: Global,
    rows: &[Row],
    calls: u64,
    choices: &[u64],
) -> Result<Option<(u64, u64)>, OutOfMemory> {
    let run = run_of(alloc, rows)?;
    first_lost(alloc, &run, calls, choices)
}

// The opening makes three calls, and each record four.
#[test]
fn runs_go_on_behind_each_crash(rt: HostRuntime) {
    let alloc = rt.alloc();
    same(&rt, acknowledged(alloc, SHORT, 15), Ok(2));
    same(&rt, acknowledged(alloc, SHORT, 16), Ok(3));
    same(&rt, lost(alloc, SHORT, 16, SHORT_CHOICES), Ok(None));
    same(&rt, acknowledged(alloc, TRANSFER, 23), Ok(4));
    same(&rt, acknowledged(alloc, TRANSFER, 24), Ok(5));
    same(&rt, lost(alloc, TRANSFER, 24, TRANSFER_CHOICES), Ok(None));
    same(&rt, acknowledged(alloc, EPOCHS, 39), Ok(8));
    same(&rt, acknowledged(alloc, EPOCHS, 40), Ok(9));
    same(&rt, lost(alloc, EPOCHS, 40, EPOCHS_CHOICES), Ok(None));
}

/// Whether a crash after this call of the short run leaves these bytes.
fn leaves(alloc: Global, call: u64, choice: u64, image: &[u8]) -> Result<bool, OutOfMemory> {
    let run = run_of(alloc, SHORT)?;
    let (_acknowledged, disk) = run_to(alloc, run.records.as_slice(), call)?;
    let disk = disk.crash(choice)?;
    let said = disk.bytes() == image;
    drop(disk);
    Ok(said)
}

/// Calls of the short run, choices, and what a crash leaves.
const IMAGES: &[(u64, u64, &[u8])] = &[
    // The fifth call is the sync after the first record, whose gate is closed: ten bytes are not stable.
    (5, 0, &[0]),
    (5, 10, &[0, 1, 0]),
    (5, 3, &[0, 0, 0, 0, 0, 0, 0, 0, 0, 5, 0]),
    (5, 4, &[0, 1, 0, 0, 0, 0, 0, 0, 0, 5, 0]),
    (5, 22868, &[0, 1, 1, 1, 1, 1, 1, 1, 1, 1, 1]),
    // The seventh call is the sync after the gate of the first record: it is old, new or another.
    (7, 0, &[0, 1, 0, 0, 0, 0, 0, 0, 0, 5, 0]),
    (7, 1, &[1, 1, 0, 0, 0, 0, 0, 0, 0, 5, 0]),
    (7, 2, &[255, 1, 0, 0, 0, 0, 0, 0, 0, 5, 0]),
    // After it the record is stable, and the next write is tried.
    (8, 0, &[1, 1, 0, 0, 0, 0, 0, 0, 0, 5, 0]),
];

#[test]
fn crashes_leave_images(rt: HostRuntime) {
    for (call, choice, image) in IMAGES {
        same(&rt, leaves(rt.alloc(), *call, *choice, *image), Ok(true));
    }
}
