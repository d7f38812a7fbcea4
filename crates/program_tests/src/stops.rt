//! Schedules of which each call on the outside is made to fail in turn: the status, and how much is written. The expected texts
//! are worked by hand from the rules.

use crate::runs::expect_run;
use std::alloc::Global;
use std::process::Abort;
use std::sync::Wait;
use std::test::Fail;
use std::thread::Threads;

/// A call on the outside. The appends and reads of records count together.
#[derive(Clone, Copy, Debug)]
enum Call {
    Read,
    Write,
    Record,
}

/// Which call fails, its number from 1, the status, and how many events' lines are written.
type Row = (Call, u64, u8, u64);

/// A transfer, from the vote to the objects.
pub(crate) const PATH: &str = "member 1 honest\ncoin g0 alice 10000\n\
tx t1 alice 0 g0@1 2000 a:bob transfer(gas,i0)\n\
vote 0 t1\ncert t1 0\nsend 0 t1\nrun 0 1\nshow 0\n";

/// What each of its events writes.
const LINES: [&str; 6] = [
    "tx t1: made\n",
    "vote 0 t1: voted -\n",
    "cert t1: formed by 0\n",
    "send 0 t1: held\n",
    "run 0: executed 1\n  t1 done v2 gas 1100\n",
    "show 0: epoch 0 objects 1\n  g0 v2 bob coin 0 8900\n",
];

/// 128 bytes are read in pieces of 64, and one read finds the end. The vote, the certificate and the run are recorded.
const ROWS: [Row; 15] = [
    (Call::Read, 1, 4, 0),
    (Call::Read, 2, 4, 0),
    (Call::Read, 3, 4, 0),
    (Call::Read, 4, 0, 6),
    (Call::Write, 1, 5, 0),
    (Call::Write, 2, 5, 1),
    (Call::Write, 3, 5, 2),
    (Call::Write, 4, 5, 3),
    (Call::Write, 5, 5, 4),
    (Call::Write, 6, 5, 5),
    (Call::Write, 7, 0, 6),
    (Call::Record, 1, 6, 1),
    (Call::Record, 2, 6, 3),
    (Call::Record, 3, 6, 4),
    (Call::Record, 4, 0, 6),
];

/// The member stops at the append of its vote for t1, and the record is lost.
const LOST: &str =
    "member 1 honest\nmember 1 honest\nmember 1 honest\nmember 1 honest\ncoin g0 alice 10000\n\
tx t1 alice 0 g0@1 2000 n:500 a:bob split(gas,i0) transfer(r0,i1)\n\
tx t2 alice 0 g0@1 2000 a:bob transfer(gas,i0)\n\
stop 0 lost\nvote 0 t1\nvote 0 t2\nrestart 0\nvote 0 t2\n";

/// What each event writes if the record was lost: the restarted member has no vote.
const LOST_LINES: [&str; 7] = [
    "tx t1: made\n",
    "tx t2: made\n",
    "stop 0: armed lost\n",
    "vote 0 t1: stopped\n",
    "vote 0 t2: down\n",
    "restart 0: records 0\n",
    "vote 0 t2: voted -\n",
];

/// 249 bytes are read in pieces of 64, and one read finds the end. Each of the seven events is written at once. The
/// stopped append never reaches the keeper, and no record is read back: the one append is that of the vote for t2.
const LOST_ROWS: [Row; 16] = [
    (Call::Read, 1, 4, 0),
    (Call::Read, 2, 4, 0),
    (Call::Read, 3, 4, 0),
    (Call::Read, 4, 4, 0),
    (Call::Read, 5, 4, 0),
    (Call::Read, 6, 0, 7),
    (Call::Write, 1, 5, 0),
    (Call::Write, 2, 5, 1),
    (Call::Write, 3, 5, 2),
    (Call::Write, 4, 5, 3),
    (Call::Write, 5, 5, 4),
    (Call::Write, 6, 5, 5),
    (Call::Write, 7, 5, 6),
    (Call::Write, 8, 0, 7),
    (Call::Record, 1, 6, 6),
    (Call::Record, 2, 0, 7),
];

/// The schedule of the lost vote with its record kept: the vote for t2 is refused after the restart.
const KEPT: &str =
    "member 1 honest\nmember 1 honest\nmember 1 honest\nmember 1 honest\ncoin g0 alice 10000\n\
tx t1 alice 0 g0@1 2000 n:500 a:bob split(gas,i0) transfer(r0,i1)\n\
tx t2 alice 0 g0@1 2000 a:bob transfer(gas,i0)\n\
stop 0 kept\nvote 0 t1\nvote 0 t2\nrestart 0\nvote 0 t2\n";

/// What each event writes if the record was kept: the restarted member has voted for t1.
const KEPT_LINES: [&str; 7] = [
    "tx t1: made\n",
    "tx t2: made\n",
    "stop 0: armed kept\n",
    "vote 0 t1: stopped\n",
    "vote 0 t2: down\n",
    "restart 0: records 1\n",
    "vote 0 t2: locked g0@1 by t1\n",
];

/// The stopped append reaches the keeper, and the restart reads the record back. The refused vote appends nothing.
const KEPT_ROWS: [Row; 17] = [
    (Call::Read, 1, 4, 0),
    (Call::Read, 2, 4, 0),
    (Call::Read, 3, 4, 0),
    (Call::Read, 4, 4, 0),
    (Call::Read, 5, 4, 0),
    (Call::Read, 6, 0, 7),
    (Call::Write, 1, 5, 0),
    (Call::Write, 2, 5, 1),
    (Call::Write, 3, 5, 2),
    (Call::Write, 4, 5, 3),
    (Call::Write, 5, 5, 4),
    (Call::Write, 6, 5, 5),
    (Call::Write, 7, 5, 6),
    (Call::Write, 8, 0, 7),
    (Call::Record, 1, 6, 3),
    (Call::Record, 2, 6, 5),
    (Call::Record, 3, 0, 7),
];

/// Two epochs of a member that is a committee by itself, and its restart.
const EPOCHS: &str = "member 1 honest\ncoin g0 alice 10000\n\
tx t1 alice 0 g0@1 2000 a:bob transfer(gas,i0)\n\
vote 0 t1\ncert t1 0\nsend 0 t1\nrun 0 1\norder t1\norder commit\nsee 0 2\n\
close 0\nend 0\norder end 0\nsee 0 1\nturn 0\n\
tx t2 bob 1 g0@2 2000 a:alice transfer(gas,i0)\nvote 0 t2\nrestart 0\n";

/// What each event writes.
const EPOCHS_LINES: [&str; 16] = [
    "tx t1: made\n",
    "vote 0 t1: voted -\n",
    "cert t1: formed by 0\n",
    "send 0 t1: held\n",
    "run 0: executed 1\n  t1 done v2 gas 1100\n",
    "order t1: entry 0\n",
    "order commit: entry 1\n",
    "see 0 entry 0: admitted t1\nsee 0 entry 1: commit\n  checkpoint 0: t1\n",
    "close 0: closed\n",
    "end 0: said\n",
    "order end 0: entry 2\n",
    "see 0 entry 2: end of 0 weight 1 of 1, epoch ended\n  checkpoint 1: last\n",
    "turn 0: epoch 1 reverted 0\n",
    "tx t2: made\n",
    "vote 0 t2: voted -\n",
    "restart 0: records 9\n",
];

/// Each of the nine records is appended, and then read back.
const EPOCHS_ROWS: [Row; 19] = [
    (Call::Record, 1, 6, 1),
    (Call::Record, 2, 6, 3),
    (Call::Record, 3, 6, 4),
    (Call::Record, 4, 6, 7),
    (Call::Record, 5, 6, 7),
    (Call::Record, 6, 6, 8),
    (Call::Record, 7, 6, 11),
    (Call::Record, 8, 6, 12),
    (Call::Record, 9, 6, 14),
    (Call::Record, 10, 6, 15),
    (Call::Record, 11, 6, 15),
    (Call::Record, 12, 6, 15),
    (Call::Record, 13, 6, 15),
    (Call::Record, 14, 6, 15),
    (Call::Record, 15, 6, 15),
    (Call::Record, 16, 6, 15),
    (Call::Record, 17, 6, 15),
    (Call::Record, 18, 6, 15),
    (Call::Record, 19, 0, 16),
];

/// A member among four votes and starts again.
const RESTART: &str =
    "member 1 honest\nmember 1 honest\nmember 1 honest\nmember 1 honest\ncoin g0 alice 10000\n\
tx t1 alice 0 g0@1 2000 n:500 a:bob split(gas,i0) transfer(r0,i1)\nvote 0 t1\nrestart 0\n";

/// What each event writes.
const RESTART_LINES: [&str; 3] = [
    "tx t1: made\n",
    "vote 0 t1: voted -\n",
    "restart 0: records 1\n",
];

/// The first call of the keeper is the append of the vote, the second one the restart's read.
const RESTART_ROWS: [Row; 3] = [
    (Call::Record, 1, 6, 1),
    (Call::Record, 2, 6, 2),
    (Call::Record, 3, 0, 3),
];

/// The numbers of the read, the write and the append or read of a record that fail.
fn failing(call: Call, number: u64) -> [u64; 3] {
    match call {
        Call::Read => [number, 0, 0],
        Call::Write => [0, number, 0],
        Call::Record => [0, 0, number],
    }
}

/// The first lines of a report, as many events' as asked for.
fn front(alloc: Global, lines: &[&str], count: u64) -> Result<String, Fail> {
    let mut text = String::new(alloc);
    for (place, line) in lines.iter().enumerate() {
        if (place as u64) < count {
            text.push_str(line)?;
        }
    }
    Ok(text)
}

/// Runs a text with each call of these rows failing in turn, and tests the status and what was written.
fn expect_rows<R: Abort + Threads + Wait + Sync>(
    rt: &R,
    alloc: Global,
    text: &str,
    lines: &[&str],
    rows: &[Row],
) -> Result<(), Fail> {
    for (call, number, status, events) in rows {
        let written = front(alloc, lines, *events)?;
        let failing = failing(*call, *number);
        expect_run(rt, alloc, text, failing, *status, written.as_str())?;
    }
    Ok(())
}

#[test]
fn each_call_fails_in_turn(rt: HostRuntime) -> Result<(), Fail> {
    let cases = [
        (PATH, LINES.as_slice(), ROWS.as_slice()),
        (LOST, LOST_LINES.as_slice(), LOST_ROWS.as_slice()),
        (KEPT, KEPT_LINES.as_slice(), KEPT_ROWS.as_slice()),
        (EPOCHS, EPOCHS_LINES.as_slice(), EPOCHS_ROWS.as_slice()),
        (RESTART, RESTART_LINES.as_slice(), RESTART_ROWS.as_slice()),
    ];
    for (text, lines, rows) in cases {
        expect_rows(&rt, rt.alloc(), text, lines, rows)?;
    }
    Ok(())
}
