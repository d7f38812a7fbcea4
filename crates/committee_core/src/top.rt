//! The [`committee`] call: the whole program over any source, sink and keeper.

ghost use Rattle.std.specs.Prelude.{◌≡◌, ◌↔◌, ◌≤◌, None, Some, IfSome, map};
ghost use Rattle.std.specs.String.{string_bytes};
ghost use Rattle.committee_core.specs.Endings.{BeginsEmpty, Ends};
ghost use Rattle.committee_core.specs.Outside.{outside};
ghost use Rattle.command_words.specs.Words.{command_in};

use crate::check::check;
use crate::desk::desk;
use crate::follow::follow;
use crate::make::make;
use crate::replay::replay;
use crate::report::run;
use crate::status::{BAD_WORDS, OUT_OF_MEMORY};
use command_words::{Command, command_of, is_parsed};
use outside::{Keeper, Sink, Source};
use run_law::generated_text_is_a_schedule;
use std::alloc::Global;
use std::sync::Wait;
use std::thread::Threads;

/// Runs the program: does what the words say, over a keeper with a list for each of 64 members. If the words run
/// events, a keeper that shows its lists must have no record at the start. Answers the status.
///
/// `run`: runs the schedule that the source holds.
///
/// | Status | Comes | Written, kept |
/// |---|---|---|
/// | 0 | only if all events ran, the source was read to its end, and the keeper's count of faults did not rise | the whole report; each observable list is its member's journal |
/// | 3 | only if the bytes are not a schedule, and the line was written | `refused line L cause C`; observable lists stay |
/// | 4 | only if the source's count of faults rose | nothing; observable lists stay |
/// | 5 | only if the sink's count of faults rose | a prefix of what was to be written; each observable list is a prefix of its journal |
/// | 6 | only if the keeper's count of faults rose, or a record read back is bad | a prefix of the report, and after a bad record `restart M: bad record PLACE` |
/// | 7 | (in no clause) if out of memory | as at 5 |
///
/// A keeper that shows its lists never gives a bad record. If a keeper does not show them, nothing is said of the
/// report after the first restart.
///
/// `make N`, for N from 1 to 10,000: runs the generator's schedule of N transactions, whose late member runs on 4
/// workers, and writes `make N: transactions A checkpoints B objects C sum D`: the transactions in the checkpoints that
/// member 0 built, these checkpoints, its live objects and their sum in currency 0. The source is not touched.
///
/// | Status | Comes | Written, kept |
/// |---|---|---|
/// | 0 | only if all events ran, and the keeper's count of faults did not rise | the line; each observable list is its member's journal |
/// | 5 | only if the sink's count of faults rose | a prefix of the line; each observable list is a prefix of its journal |
/// | 6 | only if the keeper's count of faults rose | as at 5 |
/// | 7 | (in no clause) if out of memory | as at 5 |
///
/// `check STAKES TX`, for 1 to 64 stakes from 1 to 4294967295, joined by commas, and the 64 hexadecimal digits of a
/// digest: reads a chain of checkpoints from the source, at most 16777216 bytes, and says whether it is certified by a
/// committee of these stakes, under the seals of the program, and in which checkpoint the transaction stands. The
/// keeper is not touched.
///
/// | Status | Comes | Written |
/// |---|---|---|
/// | 0 | only if the bytes encode a certified chain, and the line was written | `certified N included in K` with the number of links and the number of the first checkpoint that lists the transaction, or `certified N not included` |
/// | 4 | only if the source's count of faults rose | nothing |
/// | 5 | only if the sink's count of faults rose | a prefix of the line |
/// | 7 | (in no clause) if out of memory | a prefix of the line |
/// | 8 | only if there are more bytes, or they encode no chain, or one that is not certified, and the line was written | `refused too large`, `refused malformed at A why W`, `refused link P cause C` |
///
/// `follow M`, for M from 0 to 63: runs the schedule that the source holds, and writes no report. Then a follower that opens
/// with the objects of the set-up takes the checkpoints that member M built in the epochs before its own, each with the
/// transactions that `tx` lines made, and its live objects are compared with those with which the member opened its epoch.
///
/// | Status | Comes | Written, kept |
/// |---|---|---|
/// | 0 | only if all events ran, the keeper's count of faults did not rise, and the objects are the same | `follow M: equal checkpoints B epoch E objects C`: the checkpoints that were taken, the member's epoch, and the follower's live objects; each observable list is its member's journal |
/// | 3, 4 | as for `run` | as for `run` |
/// | 5 | only if the sink's count of faults rose | a prefix of the line; each observable list is a prefix of its journal |
/// | 6 | only if the keeper's count of faults rose, or a record read back is bad | nothing; lists as at 5 |
/// | 7 | (in no clause) if out of memory | as at 5 |
/// | 8 | only if all events ran, the keeper's count of faults did not rise, and one of these applies | the first that does of `follow M: no honest member`, `follow M: down`, `follow M: stuck N P` and `follow M: differs N P`, with the number of the first checkpoint that is not applied and the place of its first bad transaction, `follow M: unequal`; lists as at 0 |
///
/// Under the run assumptions, if `tx` lines made all transactions, `stuck`, `differs` and `unequal` never come.
///
/// `desk N`, for N from 1 to 16: puts member 0 of the set-up of the schedule that the source holds, whose events are
/// all `tx`, behind a vote desk, and lets N callers, each in a thread of its own, ask it for its votes. A caller asks,
/// in order, for the transactions whose places leave its number as the remainder on division by N. The keeper's lists
/// stay as they are.
///
/// | Status | Comes | Written |
/// |---|---|---|
/// | 0 | only if all were asked for, and none ran out of memory | `desk 0: calls C`, and for each call, in the order in which they were made, two spaces and the line of its vote: one history of them all |
/// | 3 | only if the bytes are not a schedule, and the line was written | `refused line L cause C` |
/// | 4 | only if the source's count of faults rose | nothing |
/// | 5 | only if the sink's count of faults rose | a prefix of what was to be written |
/// | 7 | (in no clause) if out of memory | as at 5 |
/// | 8 | only if an event is not a `tx` line, or member 0 is not honest, and the line was written | `desk: only tx lines`, else `desk: no honest member` |
///
/// `replay M`, for M from 0 to 63: starts member M of the set-up of the schedule that the source holds, whose events do
/// not run, from the records that the keeper has. The keeper's lists stay as they are.
///
/// | Status | Comes | Written |
/// |---|---|---|
/// | 0 | if the member started | `restart M: records N`, and the lines of `show M` for the member in that state, by the names of the set-up |
/// | 3 | only if the bytes are not a schedule, and the line was written | `refused line L cause C` |
/// | 4 | only if the source's count of faults rose | nothing |
/// | 5 | only if the sink's count of faults rose | a prefix of what was to be written |
/// | 6 | if a record is bad, or if the keeper's count of faults rose | `restart M: bad record PLACE`; nothing after a fault |
/// | 7 | (in no clause) if out of memory | as at 5 |
/// | 8 | only if the set-up has no honest member M, and the line was written | `replay M: no honest member` |
///
/// Status 2 comes exactly if the words are not a command: nothing is read, written or kept then.
#[tactic(auto, using(crate::proofs::Obeying::unused, crate::proofs::Obeying::obeyed, crate::proofs::Obeying::starved))]
pub fn committee<R: Threads + Wait + Sync, S: Source, K: Sink, D: Keeper>(
    rt: &R,
    alloc: Global,
    words: &[String],
    source: &mut S,
    sink: &mut K,
    keeper: &mut D,
) -> u8
    requires room { 64 ≤ D.width keeper.old }
    requires empty { BeginsEmpty (command_in (map string_bytes words.now)) (D.lists keeper.old) }
    ensures usage { (result ≡ 2) ↔ (command_in (map string_bytes words.now) ≡ None) }
    ensures ends { Ends (command_in (map string_bytes words.now)) (outside (S.left source.old) (S.faults source.old) (K.held sink.old) (K.faults sink.old) (D.lists keeper.old) (D.failed keeper.old)) (outside (S.left source.new) (S.faults source.new) (K.held sink.new) (K.faults sink.new) (D.lists keeper.new) (D.failed keeper.new)) result }
{
    let Some(command) = command_of(words) else {
        return BAD_WORDS;
    };
    generated_text_is_a_schedule();
    if is_parsed(alloc, words).is_err() {
        return OUT_OF_MEMORY;
    }
    match command {
        Command::Run => run(rt, alloc, source, sink, keeper),
        Command::Make { number } => make(rt, alloc, number, sink, keeper),
        Command::Check { committee, tx } => check(alloc, &committee, &tx, source, sink),
        Command::Follow { member } => follow(rt, alloc, member, source, sink, keeper),
        Command::Desk { callers } => desk(rt, alloc, callers, source, sink),
        Command::Replay { member } => replay(alloc, member, source, sink, keeper),
    }
}
