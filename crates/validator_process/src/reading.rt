//! The set-up of a process.

ghost use Rattle.std.specs.Prelude.{◌≡◌, ◌==◌, Err, IfErr, IfOk, IsErrOf, Ok, length, slice_get, true};
ghost use Rattle.outside.specs.Causes.{Rose};
ghost use Rattle.outside.specs.Streams.{ReadsText};
ghost use Rattle.schedule_text.specs.Schedule.{longest_text, schedule_of};
ghost use Rattle.world_core.specs.Crews.{honest_post};
ghost use Rattle.world_core.specs.Trusts.{trust_by};
ghost use Rattle.validator_process.specs.declared.stop.Stop.TheVariants as stop;
ghost use Rattle.validator_process.specs.declared.reading.Unstarted.TheVariants as unstarted;
ghost use Rattle.validator_process.specs.Genesis.{genesis_of, scene_in};
ghost use Rattle.validator_process.specs.Starting.{OpensAs, ReadsAs};

use crate::stop::{Stop, unread};
use outside::{Source, read_text};
use process_lines::StartLine;
use schedule_text::{Schedule, ScheduleRefusal, read_schedule};
use std::alloc::Global;
use wire_bcs::Seq;
use world_core::{World, WorldRefusal};
use world_lines::MakesSeals;

/// The bytes of a set-up at most.
const LONGEST_TEXT: u32 = 16_777_216;

/// Why no member starts.
#[derive(Clone, Copy, Debug, PartialEq, Eq)]
pub(crate) enum Unstarted {
    /// A line says why.
    Refused(StartLine),
    Stopped(Stop),
}

/// The text of a set-up, read to its end or to one byte past its limit.
pub(crate) fn read_genesis<G: Source>(alloc: Global, genesis: &mut G) -> Result<Seq<u8>, Stop>
    ensures ok { IfOk result (λ text. ReadsText longest_text (G.left genesis.old) (G.left genesis.new) text) }
    ensures fault { IsErrOf result stop.ReadFault → Rose (G.faults genesis.old) (G.faults genesis.new) }
    ensures only { (IsErrOf result stop.WriteFault → ⊥) × (IsErrOf result stop.KeepFault → ⊥) }
{
    match read_text(alloc, LONGEST_TEXT, genesis) {
        Ok(text) => Ok(text),
        Err(fault) => Err(unread(fault)),
    }
}

/// The schedule that the text is, which has no events.
fn setup_of(alloc: Global, text: &[u8]) -> Result<Schedule, Unstarted>
    ensures { ReadsAs (schedule_of text.now) result }
{
    match read_schedule(alloc, text) {
        Ok(schedule) => {
            if schedule.events.is_empty() {
                Ok(schedule)
            } else {
                drop(schedule);
                Err(Unstarted::Refused(StartLine::HasEvents))
            }
        }
        Err(ScheduleRefusal::Refused { line, cause }) => {
            Err(Unstarted::Refused(StartLine::NoSchedule { line, cause }))
        }
        Err(ScheduleRefusal::OutOfMemory) => Err(Unstarted::Stopped(Stop::OutOfMemory)),
    }
}

/// The world of a set-up. One that has no committee, as no schedule's has, counts as running out of memory.
fn world_of<S: MakesSeals>(
    alloc: Global,
    schedule: &Schedule,
    sealer: &S,
) -> Result<World, Unstarted>
    ensures ok { IfOk result (λ w. w ≡ scene_in (trust_by (S.made sealer.now) (S.accepts sealer.now)) schedule.now) }
    ensures err { IfErr result (λ why. why ≡ unstarted.Stopped stop.OutOfMemory) }
{
    match World::new(alloc, schedule.setup.as_slice(), sealer) {
        Ok(world) => Ok(world),
        Err(WorldRefusal::NoCommittee) => Err(Unstarted::Stopped(Stop::OutOfMemory)),
        Err(WorldRefusal::OutOfMemory) => Err(Unstarted::Stopped(Stop::OutOfMemory)),
    }
}

/// The world that the text sets up, which has this honest member.
#[tactic(auto, unfolding(crate::specs::Genesis::genesis_of))]
pub(crate) fn open_world<S: MakesSeals>(
    alloc: Global,
    text: &[u8],
    member: u32,
    sealer: &S,
) -> Result<World, Unstarted>
    ensures { OpensAs (genesis_of (trust_by (S.made sealer.now) (S.accepts sealer.now)) member text.now) result }
{
    let schedule = match setup_of(alloc, text) {
        Ok(schedule) => schedule,
        Err(why) => return Err(why),
    };
    let world = match world_of(alloc, &schedule, sealer) {
        Ok(world) => world,
        Err(why) => return Err(why),
    };
    if world.is_honest(member) {
        return Ok(world);
    }
    drop(world);
    Err(Unstarted::Refused(StartLine::NoMember { member }))
}
