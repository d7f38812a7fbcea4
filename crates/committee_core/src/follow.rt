//! The command `follow`: how far a follower gets with what a member built in a run.

ghost use Rattle.std.specs.Prelude.{◌≡◌, ◌⊎◌, ◌≤◌, ℕ, None, Ok, Err, IfOk, IsErrOf, OnErr, OnOk};
ghost use Rattle.std.specs.Io.KnownBytes.{Appends, Keeps};
ghost use Rattle.outside.specs.Causes.{Rose};
ghost use Rattle.outside.specs.Lists.{KeepsJournals};
ghost use Rattle.outside.specs.Streams.{AppendsFront};
ghost use Rattle.outside.specs.declared.faults.OutFault.TheVariants as out_fault;
ghost use Rattle.schedule_text.specs.declared.words.Schedule.{Schedule};
ghost use Rattle.schedule_text.specs.Schedule.{Refused, schedule_of};
ghost use Rattle.committee_core.specs.Follow.{Finds, Follows, FollowsBad, FollowsFront, FrontOf, SaysOf, SaysVerdict, verdict_text};
ghost use Rattle.committee_core.specs.Headline.{IsRefused, program_trust};
ghost use Rattle.committee_core.specs.Journals.{AreEmpty};
ghost use Rattle.committee_core.specs.Report.{refusal_text};
ghost use Rattle.committee_core.specs.Ways.{MeetsBadRecord, TextCut};
ghost use Rattle.committee_core.specs.declared.silent.Unrun.TheVariants as unrun;

use crate::silent::{Unrun, world_behind};
use crate::status::{KEEP_FAULT, OUT_OF_MEMORY, READ_FAULT, WRITE_FAULT};
use crate::text::{LONGEST_TEXT, say_refused};
use crate::verdict::{Verdict, verdict_behind, verdict_line, verdict_status};
use outside::{Keeper, OutFault, Sink, Source, read_text, write_all};
use std::alloc::Global;
use std::thread::Threads;
use wire_bcs::OutOfMemory;

/// Runs a text and writes no report: answers the verdict on the member after the run of its schedule.
fn find_verdict<R: Threads + Sync, D: Keeper>(
    rt: &R,
    alloc: Global,
    text: &[u8],
    member: u32,
    keeper: &mut D,
) -> Result<Verdict, Unrun>
    requires room { 64 ≤ D.width keeper.old }
    requires empty { AreEmpty (D.lists keeper.old) }
    ensures finds { IfOk result (Finds text.now member (D.lists keeper.old) (D.lists keeper.new)) }
    ensures steady { IfOk result (λ _. Rose (D.failed keeper.old) (D.failed keeper.new) → ⊥) }
    ensures refused { (line cause : ℕ) → IsErrOf result (unrun.Refused line cause) → (schedule_of text.now ≡ Err (record { line = line; cause = cause })) × KeepsJournals (D.lists keeper.old) (D.lists keeper.new) }
    ensures bad { IsErrOf result unrun.BadRecord → (s : Schedule) × (schedule_of text.now ≡ Ok s) × MeetsBadRecord program_trust s Appends None None (D.lists keeper.old) }
    ensures cut { OnErr result (TextCut program_trust (schedule_of text.now) None None (D.lists keeper.old) (D.lists keeper.new)) }
    ensures keep_fault { IsErrOf result unrun.KeepFault → Rose (D.failed keeper.old) (D.failed keeper.new) }
{
    match world_behind(rt, alloc, text, keeper) {
        Ok(world) => match verdict_behind(alloc, world, member) {
            Ok(verdict) => Ok(verdict),
            Err(OutOfMemory) => Err(Unrun::OutOfMemory),
        },
        Err(why) => Err(why),
    }
}

/// Writes the line of a verdict.
fn write_verdict<K: Sink>(
    alloc: Global,
    member: u32,
    verdict: Verdict,
    sink: &mut K,
) -> Result<(), OutFault>
    ensures ok { OnOk result (Appends (K.held sink.old) (K.held sink.new) (verdict_text member verdict)) }
    ensures some { AppendsFront (K.held sink.old) (K.held sink.new) (verdict_text member verdict) }
    ensures later { K.faults sink.old ≤ K.faults sink.new }
    ensures fault { IsErrOf result out_fault.Failed → Rose (K.faults sink.old) (K.faults sink.new) }
{
    let text = verdict_line(alloc, u64::from(member), verdict)?;
    write_all(sink, text.as_slice())
}

/// Writes the line of a verdict. Answers the verdict's status if it was written, else 5 (write fault) or 7 (out of
/// memory).
fn say_verdict<K: Sink>(alloc: Global, member: u32, verdict: Verdict, sink: &mut K) -> u8
    ensures known { (result ≡ 0) ⊎ (result ≡ 5) ⊎ (result ≡ 7) ⊎ (result ≡ 8) }
    ensures whole { (result ≡ 0) ⊎ (result ≡ 8) → SaysVerdict member verdict result (K.held sink.old) (K.held sink.new) }
    ensures write_fault { result ≡ 5 → Rose (K.faults sink.old) (K.faults sink.new) }
    ensures cut { (result ≡ 5) ⊎ (result ≡ 7) → AppendsFront (K.held sink.old) (K.held sink.new) (verdict_text member verdict) }
{
    match write_verdict(alloc, member, verdict, sink) {
        Ok(()) => verdict_status(verdict),
        Err(OutFault::Failed) => WRITE_FAULT,
        Err(OutFault::OutOfMemory) => OUT_OF_MEMORY,
    }
}

/// Runs a text that was read, and writes the verdict on the member after it, or why there is none. Answers the status.
fn follow_text<R: Threads + Sync, K: Sink, D: Keeper>(
    rt: &R,
    alloc: Global,
    text: &[u8],
    member: u32,
    sink: &mut K,
    keeper: &mut D,
) -> u8
    requires room { 64 ≤ D.width keeper.old }
    requires empty { AreEmpty (D.lists keeper.old) }
    ensures known { (result ≡ 0) ⊎ (result ≡ 3) ⊎ (result ≡ 5) ⊎ (result ≡ 6) ⊎ (result ≡ 7) ⊎ (result ≡ 8) }
    ensures whole { (result ≡ 0) ⊎ (result ≡ 8) → SaysOf text.now member result (K.held sink.old) (K.held sink.new) (D.lists keeper.old) (D.lists keeper.new) }
    ensures steady { (result ≡ 0) ⊎ (result ≡ 8) → Rose (D.failed keeper.old) (D.failed keeper.new) → ⊥ }
    ensures refused { result ≡ 3 → (r : Refused) × (schedule_of text.now ≡ Err r) × Appends (K.held sink.old) (K.held sink.new) (refusal_text r) × KeepsJournals (D.lists keeper.old) (D.lists keeper.new) }
    ensures unwritten { result ≡ 6 → Keeps (K.held sink.old) (K.held sink.new) }
    ensures write_fault { result ≡ 5 → Rose (K.faults sink.old) (K.faults sink.new) }
    ensures keep_fault { result ≡ 6 → (Rose (D.failed keeper.old) (D.failed keeper.new) × FrontOf text.now member (K.held sink.old) (K.held sink.new) (D.lists keeper.old) (D.lists keeper.new) (Rose (D.failed keeper.old) (D.failed keeper.new))) ⊎ ((s : Schedule) × (schedule_of text.now ≡ Ok s) × MeetsBadRecord program_trust s Appends None None (D.lists keeper.old)) }
    ensures cut { (result ≡ 5) ⊎ (result ≡ 7) → FrontOf text.now member (K.held sink.old) (K.held sink.new) (D.lists keeper.old) (D.lists keeper.new) (Rose (D.failed keeper.old) (D.failed keeper.new)) }
{
    match find_verdict(rt, alloc, text, member, keeper) {
        Ok(verdict) => say_verdict(alloc, member, verdict, sink),
        Err(Unrun::Refused { line, cause }) => say_refused(alloc, line, cause, sink),
        Err(Unrun::KeepFault) => KEEP_FAULT,
        Err(Unrun::BadRecord) => KEEP_FAULT,
        Err(Unrun::OutOfMemory) => OUT_OF_MEMORY,
    }
}

/// The command `follow`: reads the source, runs the schedule that it is, and writes how far a follower gets with what the
/// member built. Answers the status.
pub(crate) fn follow<R: Threads + Sync, S: Source, K: Sink, D: Keeper>(
    rt: &R,
    alloc: Global,
    member: u32,
    source: &mut S,
    sink: &mut K,
    keeper: &mut D,
) -> u8
    requires room { 64 ≤ D.width keeper.old }
    requires empty { AreEmpty (D.lists keeper.old) }
    ensures known { (result ≡ 0) ⊎ (result ≡ 3) ⊎ (result ≡ 4) ⊎ (result ≡ 5) ⊎ (result ≡ 6) ⊎ (result ≡ 7) ⊎ (result ≡ 8) }
    ensures whole { (result ≡ 0) ⊎ (result ≡ 8) → Follows member result (S.left source.old) (S.left source.new) (K.held sink.old) (K.held sink.new) (D.lists keeper.old) (D.lists keeper.new) }
    ensures steady { (result ≡ 0) ⊎ (result ≡ 8) → Rose (D.failed keeper.old) (D.failed keeper.new) → ⊥ }
    ensures refused { result ≡ 3 → IsRefused (S.left source.old) (S.left source.new) (K.held sink.old) (K.held sink.new) (D.lists keeper.old) (D.lists keeper.new) }
    ensures read_fault { result ≡ 4 → Rose (S.faults source.old) (S.faults source.new) × KeepsJournals (D.lists keeper.old) (D.lists keeper.new) }
    ensures unwritten { (result ≡ 4) ⊎ (result ≡ 6) → Keeps (K.held sink.old) (K.held sink.new) }
    ensures write_fault { result ≡ 5 → Rose (K.faults sink.old) (K.faults sink.new) }
    ensures keep_fault { result ≡ 6 → (Rose (D.failed keeper.old) (D.failed keeper.new) × FollowsFront member (S.left source.old) (S.left source.new) (K.held sink.old) (K.held sink.new) (D.lists keeper.old) (D.lists keeper.new) (Rose (D.failed keeper.old) (D.failed keeper.new))) ⊎ FollowsBad (S.left source.old) (S.left source.new) (D.lists keeper.old) }
    ensures cut { (result ≡ 5) ⊎ (result ≡ 7) → FollowsFront member (S.left source.old) (S.left source.new) (K.held sink.old) (K.held sink.new) (D.lists keeper.old) (D.lists keeper.new) (Rose (D.failed keeper.old) (D.failed keeper.new)) }
{
    match read_text(alloc, LONGEST_TEXT, source) {
        Ok(text) => follow_text(rt, alloc, text.as_slice(), member, sink, keeper),
        Err(OutFault::Failed) => READ_FAULT,
        Err(OutFault::OutOfMemory) => OUT_OF_MEMORY,
    }
}
