//! One and two callers at a desk whose member has no objects and is handed bytes that are not transactions.

use crate::members::{member_from, sealer};
use crate::same::{holds, same};
use protocol_spec::VoteRefusal;
use std::alloc::Global;
use std::sync::Wait;
use std::thread::Threads;
use vote_desk::{DeskEntry, SureKeeper, answers_to_callers};
use wire_bcs::{OutOfMemory, Seq};

/// The requests: the bytes 0, 1 and 2, each by itself.
fn requests(alloc: Global) -> Result<Vec<Seq<u8>>, OutOfMemory> {
    let mut requests = Vec::new(alloc);
    for byte in 0..3u8 {
        requests.push(Seq::from_slice(alloc, [byte].as_slice())?)?;
    }
    Ok(requests)
}

/// What 1 to 16 callers make of the requests.
fn history<R: Threads + Wait + Sync>(
    rt: &R,
    alloc: Global,
    callers: u32,
) -> Option<Seq<DeskEntry>> {
    if callers < 1 || 16 < callers {
        return None;
    }
    let requests = requests(alloc).ok()?;
    let keeper = SureKeeper::new(alloc, 1).ok()?;
    let member = member_from(alloc, "member 1 honest\n", &Seq::new(alloc))?;
    let calls = requests.as_slice();
    answers_to_callers(rt, alloc, member, keeper, sealer(), calls, callers).ok()
}

/// The place of the call that asked for this byte.
fn place_of(history: &Seq<DeskEntry>, byte: u8) -> Option<usize> {
    for (place, entry) in history.as_slice().iter().enumerate() {
        if entry.bytes.as_slice() == [byte].as_slice() {
            return Some(place);
        }
    }
    None
}

/// The places of the three, and how many calls there are.
type Places = (Option<usize>, Option<usize>, Option<usize>, u64);

fn places(history: &Seq<DeskEntry>) -> Places {
    (
        place_of(history, 0),
        place_of(history, 1),
        place_of(history, 2),
        history.len(),
    )
}

/// Whether the reply to each call is that the bytes encode nothing.
fn all_malformed(history: &Seq<DeskEntry>) -> bool {
    for entry in history.as_slice() {
        if !matches!(entry.reply, Err(VoteRefusal::Malformed(_))) {
            return false;
        }
    }
    true
}

/// The places in what callers make of the requests, and whether all are malformed.
fn asked<R: Threads + Wait + Sync>(rt: &R, alloc: Global, callers: u32) -> Option<(Places, bool)> {
    let history = history(rt, alloc, callers)?;
    let asked = (places(&history), all_malformed(&history));
    drop(history);
    Some(asked)
}

#[test]
fn one_caller_asks_in_order(rt: HostRuntime) {
    let wanted = (Some(0), Some(1), Some(2), 3);
    same(&rt, asked(&rt, rt.alloc(), 1), Some((wanted, true)));
}

/// Whether the first request was asked for before the last, by the same caller, and the other at any time.
fn are_in_order(asked: Option<(Places, bool)>) -> bool {
    let Some(((first, other, last, calls), malformed)) = asked else {
        return false;
    };
    first.is_some() && first < last && other.is_some() && calls == 3 && malformed
}

#[test]
fn each_of_two_callers_asks_in_order(rt: HostRuntime) {
    let asked = asked(&rt, rt.alloc(), 2);
    holds(&rt, are_in_order(asked));
}
