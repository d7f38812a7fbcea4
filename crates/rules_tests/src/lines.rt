//! Lines that no schedule gives, as they are printed; the cases of `conformance/` have every other form, on the built
//! program. The lines that are wanted were written by hand.

use crate::same::{holds, same};
use report_text::{
    CloseText, EntryText, Line, RestartText, RunText, SeeText, SendText, TurnText, VoteText,
    print_line,
};
use std::alloc::Global;
use wire_bcs::{OutOfMemory, Seq};

/// The lines without names, as they are printed.
const PRINTED: [&str; 12] = [
    "raw 0 vote: full\n",
    "raw 1 hold: full\n",
    "see 2: full\n",
    "run 3: full\n",
    "close 0: full\n",
    "turn 1: full\n",
    "see 3 entry 18446744073709551615: ignored malformed\n",
    "see 3 entry 18446744073709551615: ignored statement\n",
    "see 3 entry 18446744073709551615: ignored epoch\n",
    "see 3 entry 18446744073709551615: ignored seal\n",
    "restart 0: bad record 2\n",
    "make 4: transactions 4 checkpoints 1 objects 6 sum 340282366920938463463374607431768211455\n",
];

/// The line of an entry of the greatest number.
fn entry(text: EntryText) -> Line {
    Line::SeeEntry {
        member: 3,
        entry: u64::MAX,
        text,
    }
}

/// The line at a place of these: of a member with as many records as it can have; of an entry that is none of its
/// sequence; of a bad record; and the summary with the greatest sum.
fn line_at(place: usize) -> Line {
    match place {
        0 => Line::RawVote {
            member: 0,
            text: VoteText::Full,
        },
        1 => Line::RawHold {
            member: 1,
            text: SendText::Full,
        },
        2 => Line::See {
            member: 2,
            text: SeeText::Full,
        },
        3 => Line::Run {
            member: 3,
            text: RunText::Full,
        },
        4 => Line::Close {
            member: 0,
            text: CloseText::Full,
        },
        5 => Line::Turn {
            member: 1,
            text: TurnText::Full,
        },
        6 => entry(EntryText::IgnoredMalformed),
        7 => entry(EntryText::IgnoredStatement),
        8 => entry(EntryText::IgnoredEpoch),
        9 => entry(EntryText::IgnoredSeal),
        10 => Line::Restart {
            member: 0,
            text: RestartText::BadRecord { place: 2 },
        },
        _ => Line::Make {
            number: 4,
            transactions: 4,
            checkpoints: 1,
            objects: 6,
            sum: u128::MAX,
        },
    }
}

/// Whether the line is printed as wanted.
fn prints(alloc: Global, line: Line, want: &str) -> bool {
    let mut out = Seq::new(alloc);
    let printed = print_line(&line, &mut out).is_ok();
    drop(line);
    printed && out.as_slice() == want.as_bytes()
}

/// The first of the lines without names that is printed otherwise.
fn first_wrong(alloc: Global) -> Option<usize> {
    for (place, want) in PRINTED.iter().enumerate() {
        if !prints(alloc, line_at(place), *want) {
            return Some(place);
        }
    }
    None
}

/// A mark of a round that admits t1 and drops t2.
fn mark(alloc: Global) -> Result<Line, OutOfMemory> {
    let (mut admitted, mut dropped) = (Seq::new(alloc), Seq::new(alloc));
    admitted.push(Seq::from_slice(alloc, b"t1")?)?;
    dropped.push(Seq::from_slice(alloc, b"t2")?)?;
    let text = EntryText::Commit { admitted, dropped };
    Ok(entry(text))
}

/// Bytes that are not a transaction, though a line itself made them.
fn unread(alloc: Global) -> Result<Line, OutOfMemory> {
    let (tx, text) = (
        Seq::from_slice(alloc, b"t1")?,
        VoteText::Malformed { at: 1, why: 2 },
    );
    Ok(Line::Vote {
        member: 0,
        tx,
        text,
    })
}

/// A certificate that is out of order, though a line itself formed it.
fn unordered(alloc: Global) -> Result<Line, OutOfMemory> {
    let (tx, text) = (Seq::from_slice(alloc, b"t2")?, SendText::Order);
    Ok(Line::Send {
        member: 1,
        tx,
        text,
    })
}

/// Whether the line is made, and printed so.
fn prints_made(alloc: Global, made: Result<Line, OutOfMemory>, want: &str) -> bool {
    match made {
        Ok(line) => prints(alloc, line, want),
        Err(_) => false,
    }
}

#[test]
fn lines(rt: HostRuntime) {
    let alloc = rt.alloc();
    same(&rt, first_wrong(alloc), None);
    let want = "see 3 entry 18446744073709551615: commit admitted t1 dropped t2\n";
    holds(&rt, prints_made(alloc, mark(alloc), want));
    holds(
        &rt,
        prints_made(alloc, unread(alloc), "vote 0 t1: malformed at 1 why 2\n"),
    );
    holds(
        &rt,
        prints_made(alloc, unordered(alloc), "send 1 t2: order\n"),
    );
}
