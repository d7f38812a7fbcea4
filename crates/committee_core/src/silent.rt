//! Running a text for the world after it, without writing a report.

ghost use Rattle.std.specs.Prelude.{◌≡◌, ◌<◌, ◌≤◌, ℕ, None, Ok, Err, length, IfOk, OnErr, IsErrOf};
ghost use Rattle.std.specs.Io.KnownBytes.{Appends, WriteAppends};
ghost use Rattle.outside.specs.Causes.{Rose, WriteCause};
ghost use Rattle.schedule_text.specs.declared.words.Schedule.{Schedule};
ghost use Rattle.schedule_text.specs.Schedule.{schedule_of};
ghost use Rattle.committee_core.specs.Headline.{program_trust};
ghost use Rattle.committee_core.specs.Journals.{AreEmpty};
ghost use Rattle.committee_core.specs.Ways.{MeetsBadRecord, RunsSilently, TextCut};
ghost use Rattle.committee_core.specs.declared.silent.Unrun.TheVariants as unrun;

use crate::run::run_schedule;
use crate::seals::{laws_of_scenes, program_sealer};
use crate::stop::Stop;
use outside::{Keeper, OutFault, Sink};
use schedule_text::{ScheduleRefusal, read_schedule};
use std::alloc::Global;
use std::thread::Threads;
use world_core::World;

/// The sink of a run without a report: takes every piece whole, and keeps nothing.
#[derive(Drop)]
pub(crate) struct Silence;

impl Sink for Silence {
    ghost held = { λ s. None };

    ghost faults = { λ s. 0 };

    fn write(&mut self, bytes: &[u8]) -> Result<usize, OutFault>
        requires { 0 < length bytes.now }
        ensures count { IfOk result (λ n. n ≤ length bytes.now) }
        ensures takes { WriteAppends None None result bytes.now }
        ensures cause { WriteCause 0 0 result }
    {
        Ok(bytes.len())
    }
}

/// Why there is no world after a text.
#[derive(Clone, Copy, Debug, PartialEq, Eq)]
pub enum Unrun {
    /// The text is not a schedule.
    Refused { line: u64, cause: u8 },
    /// The keeper did not keep a record, or did not give one.
    KeepFault,
    /// A record that was read back is bad.
    BadRecord,
    OutOfMemory,
}

/// Runs a text under the seals of the program and writes no report: answers the world after the schedule that it is, only if
/// the keeper's count of faults did not rise. The keeper has a list for each of 64 members, and no record if it shows its lists.
#[tactic(auto, using(crate::proofs::Members::read_committee, crate::proofs::Whole::nothing_done, crate::proofs::Whole::schedule_cut, crate::proofs::Whole::ran_silently))]
pub fn world_behind<R: Threads + Sync, D: Keeper>(
    rt: &R,
    alloc: Global,
    text: &[u8],
    keeper: &mut D,
) -> Result<World, Unrun>
    requires room { 64 ≤ D.width keeper.old }
    requires empty { AreEmpty (D.lists keeper.old) }
    ensures ran { IfOk result (RunsSilently program_trust text.now (D.lists keeper.old) (D.lists keeper.new)) }
    ensures steady { IfOk result (λ _. Rose (D.failed keeper.old) (D.failed keeper.new) → ⊥) }
    ensures refused { (line cause : ℕ) → IsErrOf result (unrun.Refused line cause) → schedule_of text.now ≡ Err (record { line = line; cause = cause }) }
    ensures bad { IsErrOf result unrun.BadRecord → (s : Schedule) × (schedule_of text.now ≡ Ok s) × MeetsBadRecord program_trust s Appends None None (D.lists keeper.old) }
    ensures cut { OnErr result (TextCut program_trust (schedule_of text.now) None None (D.lists keeper.old) (D.lists keeper.new)) }
    ensures kept_later { D.failed keeper.old ≤ D.failed keeper.new }
    ensures keep_fault { IsErrOf result unrun.KeepFault → Rose (D.failed keeper.old) (D.failed keeper.new) }
{
    let schedule = match read_schedule(alloc, text) {
        Ok(schedule) => schedule,
        Err(ScheduleRefusal::Refused { line, cause }) => {
            return Err(Unrun::Refused { line, cause });
        }
        Err(ScheduleRefusal::OutOfMemory) => return Err(Unrun::OutOfMemory),
    };
    laws_of_scenes();
    let sealer = program_sealer();
    match run_schedule(rt, alloc, schedule, &sealer, &mut Silence, keeper, false) {
        Ok(world) => Ok(world),
        Err(Stop::WriteFault) => unreachable!(),
        Err(Stop::KeepFault) => Err(Unrun::KeepFault),
        Err(Stop::BadRecord) => Err(Unrun::BadRecord),
        Err(Stop::OutOfMemory) => Err(Unrun::OutOfMemory),
    }
}
