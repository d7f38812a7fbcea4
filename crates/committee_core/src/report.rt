//! The command `run`: the report of the schedule that the source holds.

ghost use Rattle.std.specs.Prelude.{◌≡◌, ◌⊎◌, ◌≤◌};
ghost use Rattle.std.specs.Io.KnownBytes.{Keeps};
ghost use Rattle.outside.specs.Causes.{Rose};
ghost use Rattle.outside.specs.Lists.{KeepsJournals};
ghost use Rattle.committee_core.specs.Headline.{IsBad, IsCut, IsRefused, IsWhole};
ghost use Rattle.committee_core.specs.Journals.{AreEmpty};

use crate::run::{asks_no_names, run_schedule};
use crate::seals::{laws_of_scenes, program_sealer};
use crate::status::{DONE, KEEP_FAULT, OUT_OF_MEMORY, READ_FAULT, WRITE_FAULT};
use crate::stop::Stop;
use crate::text::{LONGEST_TEXT, say_refused};
use outside::{Keeper, OutFault, Sink, Source, read_text};
use schedule_text::{ScheduleRefusal, read_schedule};
use std::alloc::Global;
use std::thread::Threads;

/// The command `run`: reads the source, and writes the report of the schedule that its text is, under the seals of the
/// program, or the line that says why it is not one. Answers the status.
pub(crate) fn run<R: Threads + Sync, S: Source, K: Sink, D: Keeper>(
    rt: &R,
    alloc: Global,
    source: &mut S,
    sink: &mut K,
    keeper: &mut D,
) -> u8
    requires room { 64 ≤ D.width keeper.old }
    requires empty { AreEmpty (D.lists keeper.old) }
    ensures known { (result ≡ 0) ⊎ (result ≡ 3) ⊎ (result ≡ 4) ⊎ (result ≡ 5) ⊎ (result ≡ 6) ⊎ (result ≡ 7) }
    ensures whole { result ≡ 0 → IsWhole (S.left source.old) (S.left source.new) (K.held sink.old) (K.held sink.new) (D.lists keeper.old) (D.lists keeper.new) }
    ensures steady { result ≡ 0 → Rose (D.failed keeper.old) (D.failed keeper.new) → ⊥ }
    ensures refused { result ≡ 3 → IsRefused (S.left source.old) (S.left source.new) (K.held sink.old) (K.held sink.new) (D.lists keeper.old) (D.lists keeper.new) }
    ensures read_fault { result ≡ 4 → Rose (S.faults source.old) (S.faults source.new) }
    ensures unwritten { result ≡ 4 → Keeps (K.held sink.old) (K.held sink.new) × KeepsJournals (D.lists keeper.old) (D.lists keeper.new) }
    ensures write_fault { result ≡ 5 → Rose (K.faults sink.old) (K.faults sink.new) }
    ensures keep_fault { result ≡ 6 → (Rose (D.failed keeper.old) (D.failed keeper.new) × IsCut (S.left source.old) (S.left source.new) (K.held sink.old) (K.held sink.new) (D.lists keeper.old) (D.lists keeper.new)) ⊎ IsBad (S.left source.old) (S.left source.new) (K.held sink.old) (K.held sink.new) (D.lists keeper.old) }
    ensures cut { (result ≡ 5) ⊎ (result ≡ 7) → IsCut (S.left source.old) (S.left source.new) (K.held sink.old) (K.held sink.new) (D.lists keeper.old) (D.lists keeper.new) }
{
    let text = match read_text(alloc, LONGEST_TEXT, source) {
        Ok(text) => text,
        Err(OutFault::Failed) => return READ_FAULT,
        Err(OutFault::OutOfMemory) => return OUT_OF_MEMORY,
    };
    let schedule = match read_schedule(alloc, text.as_slice()) {
        Ok(schedule) => schedule,
        Err(ScheduleRefusal::Refused { line, cause }) => {
            return say_refused(alloc, line, cause, sink);
        }
        Err(ScheduleRefusal::OutOfMemory) => return OUT_OF_MEMORY,
    };
    drop(text);
    laws_of_scenes();
    let sealer = program_sealer();
    let waits = asks_no_names(&schedule);
    match run_schedule(rt, alloc, schedule, &sealer, sink, keeper, waits) {
        Ok(world) => {
            drop(world);
            DONE
        }
        Err(Stop::WriteFault) => WRITE_FAULT,
        Err(Stop::KeepFault) => KEEP_FAULT,
        Err(Stop::BadRecord) => KEEP_FAULT,
        Err(Stop::OutOfMemory) => OUT_OF_MEMORY,
    }
}
