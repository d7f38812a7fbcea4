//! The [`inspect`] call: the whole program over any source, sink and keeper.

ghost use Rattle.std.specs.Prelude.{◌≡◌, ◌↔◌, ◌≤◌, None, Some, map};
ghost use Rattle.std.specs.String.{string_bytes};
ghost use Rattle.committee_core.specs.Journals.{AreEmpty};
ghost use Rattle.committee_core.specs.Outside.{outside};
ghost use Rattle.inspect.specs.Ends.{Ends};
ghost use Rattle.inspect.specs.Words.{question_in};

use crate::ask::ask;
use crate::questions::question_of;
use committee_core::status::BAD_WORDS;
use outside::{Keeper, Sink, Source};
use std::alloc::Global;
use std::thread::Threads;

/// Runs the program: reads a schedule from the source, runs it under the seals of `committee` with no report, over a
/// keeper with a list for each of 64 members, and writes what the words ask of the world after it. A keeper that shows
/// its lists must have no record at the start. Answers the status.
///
/// `chain M MEMBERS`, for M from 0 to 63 and members from 0 to 63, joined by commas, each above the one before it: the
/// chain of the checkpoints that member M built, over all epochs, each under a seal of each of the members, as
/// `committee check` reads it. A member seals what it has built, while it is honest and up.
///
/// `digests`: `tx NAME HEX` for each `tx` line that ran; then, for the lowest-numbered member that is honest and up, if there
/// is one, `checkpoint N HEX` for each checkpoint that it has built, and `object NAME V HEX` for each of its live objects, in
/// the order and by the names of a report's `show` lines.
///
/// `blame`: who sealed two votes of which an honest member casts at most one. A line `blame T1 T2: members M .. stake S of T`
/// for each two valid certificates of one epoch whose transactions differ and consume one version: those that `cert` lines
/// formed, and after them those that `raw M hold` lines hand over as bytes.
///
/// `states`: `member M: epoch E entries N checkpoints C objects K` for each member that is honest and up, and the lines of
/// its live objects, as a report's `show` writes them; `member M: down` or `member M: faulty` for another. `states L`, for L
/// from 1 to 16,777,216: the same after a run of the first L lines only.
///
/// | Status | Comes | Written, kept |
/// |---|---|---|
/// | 0 | only if all events ran, and, for `chain`, member M is honest and up, and the members have built all that it has | the bytes of the chain, or the lines; each observable list is its member's journal |
/// | 3 | only if the bytes (for `states L`, the first L lines) are not a schedule, and the line was written | `refused line L cause C`; observable lists stay |
/// | 4 | only if the source's count of faults rose | nothing; observable lists stay |
/// | 5 | only if the sink's count of faults rose | a prefix of what was to be written; each observable list is a prefix of its journal |
/// | 6 | only if the keeper's count of faults rose, or a record read back is bad | nothing; each observable list is a prefix of its journal |
/// | 7 | (in no clause) if out of memory | as at 5 |
/// | 8 | for `chain`, only if all events ran, and there is no such member M, or else one of the members has not built a checkpoint that M has; for `states L`, only if all events ran, and there are fewer lines | `inspect chain M: no honest member that is up`, or `inspect chain M: no seal of member K on checkpoint N` for the first such member and its first such checkpoint; `inspect states L: no such line`; each observable list is its member's journal |
///
/// A keeper that shows its lists never gives a bad record. If a keeper does not show them and the run restarts a
/// member, nothing is said of what is written.
///
/// Status 2 comes exactly if the words ask nothing: nothing is read, written or kept then.
pub fn inspect<R: Threads + Sync, S: Source, K: Sink, D: Keeper>(
    rt: &R,
    alloc: Global,
    words: &[String],
    source: &mut S,
    sink: &mut K,
    keeper: &mut D,
) -> u8
    requires room { 64 ≤ D.width keeper.old }
    requires empty { AreEmpty (D.lists keeper.old) }
    ensures usage { (result ≡ 2) ↔ (question_in (map string_bytes words.now) ≡ None) }
    ensures ends { Ends (question_in (map string_bytes words.now)) (outside (S.left source.old) (S.faults source.old) (K.held sink.old) (K.faults sink.old) (D.lists keeper.old) (D.failed keeper.old)) (outside (S.left source.new) (S.faults source.new) (K.held sink.new) (K.faults sink.new) (D.lists keeper.new) (D.failed keeper.new)) result }
{
    match question_of(words) {
        Some(question) => ask(rt, alloc, &question, source, sink, keeper),
        None => BAD_WORDS,
    }
}
