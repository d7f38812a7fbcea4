//! Running a schedule from its set-up on, line by line, up to the world after it.

ghost use Rattle.std.specs.Prelude.{◌≡◌, ◌≤◌, ◌↔◌, Ok, length, IfOk, IsTrue, OnErr, OnOk, IsErrOf};
ghost use Rattle.std.specs.Io.KnownBytes.{Appends};
ghost use Rattle.outside.specs.Causes.{Rose};
ghost use Rattle.outside.specs.Lists.{HasMembers};
ghost use Rattle.quorum_core.specs.Committee.{committee_of};
ghost use Rattle.world_spec.specs.Scene.{new_scene};
ghost use Rattle.world_spec.specs.Setting.{stakes_of};
ghost use Rattle.world_core.specs.Trusts.{trust_by};
ghost use Rattle.committee_core.specs.Journals.{AreAtLeast, AreEmpty, StartsAlong};
ghost use Rattle.committee_core.specs.Laws.{SceneLaws};
ghost use Rattle.committee_core.specs.Report.{setting_in};
ghost use Rattle.committee_core.specs.Ways.{MeetsBadRecord, RunsCut, RunsWhole, ShowsRun};
ghost use Rattle.committee_core.specs.declared.stop.Stop.TheVariants as stop;

use crate::event::run_event;
use crate::stop::Stop;
use outside::{Keeper, Sink};
use schedule_text::{Event, Schedule};
use std::alloc::Global;
use std::thread::Threads;
use wire_bcs::OutOfMemory;
use world_core::{World, WorldRefusal};
use world_lines::MakesSeals;

/// Whether a count of faults rose. One that stands at its last value is taken as risen. Takes no memory.
fn has_risen(before: u64, now: u64) -> bool
    ensures { IsTrue result ↔ Rose before now }
{
    before.saturating_add(1) <= now
}

/// Runs the events in order, from the world of the set-up on; the memory of each is given back once it ran. If the
/// keeper's count of faults rose, the run is not reported as whole, even if every event ran.
#[tactic(auto, using(crate::proofs::Whole::whole_cut))]
fn run_events<R: Threads + Sync, S: MakesSeals, K: Sink, D: Keeper>(
    rt: &R,
    alloc: Global,
    world: &mut World,
    schedule: Schedule,
    sealer: &S,
    sink: &mut K,
    keeper: &mut D,
) -> Result<(), Stop>
    requires opened { world.old ≡ new_scene (setting_in (trust_by (S.made sealer.now) (S.accepts sealer.now)) schedule) schedule.setup }
    requires room { length world.old.posts ≤ D.width keeper.old }
    requires wide { AreAtLeast (D.lists keeper.old) (length world.old.posts) }
    requires empty { AreEmpty (D.lists keeper.old) }
    requires laws { SceneLaws (trust_by (S.made sealer.now) (S.accepts sealer.now)) }
    requires along { StartsAlong (setting_in (trust_by (S.made sealer.now) (S.accepts sealer.now)) schedule) schedule.events }
    ensures ok { OnOk result (RunsWhole (trust_by (S.made sealer.now) (S.accepts sealer.now)) schedule (K.held sink.old) (K.held sink.new) (D.lists keeper.old) (D.lists keeper.new)) }
    ensures steady { OnOk result (Rose (D.failed keeper.old) (D.failed keeper.new) → ⊥) }
    ensures shows { OnOk result (ShowsRun (trust_by (S.made sealer.now) (S.accepts sealer.now)) schedule (D.lists keeper.old) world.new) }
    ensures cut { OnErr result (RunsCut (trust_by (S.made sealer.now) (S.accepts sealer.now)) schedule (K.held sink.old) (K.held sink.new) (D.lists keeper.old) (D.lists keeper.new)) }
    ensures bad { IsErrOf result stop.BadRecord → MeetsBadRecord (trust_by (S.made sealer.now) (S.accepts sealer.now)) schedule Appends (K.held sink.old) (K.held sink.new) (D.lists keeper.old) }
    ensures later { K.faults sink.old ≤ K.faults sink.new }
    ensures fault { IsErrOf result stop.WriteFault → Rose (K.faults sink.old) (K.faults sink.new) }
    ensures kept_later { D.failed keeper.old ≤ D.failed keeper.new }
    ensures keep_fault { IsErrOf result stop.KeepFault → Rose (D.failed keeper.old) (D.failed keeper.new) }
{
    let before = keeper.faults();
    for event in schedule.events.into_vec() {
        let ran = run_event(rt, alloc, world, &event, sealer, sink, keeper);
        // Dropped by name: if the event were dropped in place, the drop of all its forms would be proved here.
        drop(event);
        ran?;
    }
    if has_risen(before, keeper.faults()) {
        return Err(Stop::KeepFault);
    }
    Ok(())
}

/// Opens the world of a set-up whose members are a committee, as those of each schedule that is read are. It has at
/// most 64 members.
#[tactic(auto, using(crate::proofs::Opening::few_posts))]
pub(crate) fn open_world<S: MakesSeals>(
    alloc: Global,
    schedule: &Schedule,
    sealer: &S,
) -> Result<World, OutOfMemory>
    requires committee { committee_of (stakes_of schedule.now.setup) ≡ Ok (stakes_of schedule.now.setup) }
    ensures opened { IfOk result (λ w. w ≡ new_scene (setting_in (trust_by (S.made sealer.now) (S.accepts sealer.now)) schedule.now) schedule.now.setup) }
    ensures few { IfOk result (λ w. length w.posts ≤ 64) }
{
    match World::new(alloc, schedule.setup.as_slice(), sealer) {
        Ok(world) => Ok(world),
        Err(WorldRefusal::NoCommittee) => unreachable!(),
        Err(WorldRefusal::OutOfMemory) => Err(OutOfMemory),
    }
}

/// Whether a line can ask for the name of an object that no word of a schedule names: it shows objects, or hands in bytes.
/// Takes no memory.
fn asks_names(event: &Event) -> bool {
    match event {
        Event::Show(_) | Event::RawVote { .. } | Event::RawHold { .. } => true,
        Event::Tx { .. }
        | Event::Vote { .. }
        | Event::Fvote { .. }
        | Event::Cert { .. }
        | Event::Send { .. }
        | Event::Order(_)
        | Event::OrderEnd(_)
        | Event::OrderCommit
        | Event::See { .. }
        | Event::Run { .. }
        | Event::Close(_)
        | Event::End(_)
        | Event::Turn(_)
        | Event::Stop { .. }
        | Event::Restart(_)
        | Event::Ack { .. }
        | Event::Final { .. } => false,
    }
}

/// Whether no line of a schedule can ask for such a name. Takes no memory.
pub(crate) fn asks_no_names(schedule: &Schedule) -> bool {
    for event in schedule.events.as_slice() {
        if asks_names(event) {
            return false;
        }
    }
    true
}

/// Opens the world of a set-up for a run. If no line asks for names (`waits`), the ids that lines draw wait.
fn open_to_run<S: MakesSeals>(
    alloc: Global,
    schedule: &Schedule,
    sealer: &S,
    waits: bool,
) -> Result<World, OutOfMemory>
    requires committee { committee_of (stakes_of schedule.now.setup) ≡ Ok (stakes_of schedule.now.setup) }
    ensures opened { IfOk result (λ w. w ≡ new_scene (setting_in (trust_by (S.made sealer.now) (S.accepts sealer.now)) schedule.now) schedule.now.setup) }
    ensures few { IfOk result (λ w. length w.posts ≤ 64) }
{
    let mut world = open_world(alloc, schedule, sealer)?;
    if waits {
        world.let_ids_wait();
        return Ok(world);
    }
    Ok(world)
}

/// Runs a schedule from its set-up on. Answers the world after it. If no line asks for names, and none is asked for
/// after it (`waits`), the ids that lines draw are not made.
#[tactic(auto, using(crate::proofs::Opening::wide_enough, crate::proofs::Whole::nothing_run))]
pub(crate) fn run_schedule<R: Threads + Sync, S: MakesSeals, K: Sink, D: Keeper>(
    rt: &R,
    alloc: Global,
    schedule: Schedule,
    sealer: &S,
    sink: &mut K,
    keeper: &mut D,
    waits: bool,
) -> Result<World, Stop>
    requires room { 64 ≤ D.width keeper.old }
    requires empty { AreEmpty (D.lists keeper.old) }
    requires committee { committee_of (stakes_of schedule.setup) ≡ Ok (stakes_of schedule.setup) }
    requires laws { SceneLaws (trust_by (S.made sealer.now) (S.accepts sealer.now)) }
    requires along { StartsAlong (setting_in (trust_by (S.made sealer.now) (S.accepts sealer.now)) schedule) schedule.events }
    ensures ok { IfOk result (λ _. RunsWhole (trust_by (S.made sealer.now) (S.accepts sealer.now)) schedule (K.held sink.old) (K.held sink.new) (D.lists keeper.old) (D.lists keeper.new)) }
    ensures steady { IfOk result (λ _. Rose (D.failed keeper.old) (D.failed keeper.new) → ⊥) }
    ensures shows { IfOk result (λ w. ShowsRun (trust_by (S.made sealer.now) (S.accepts sealer.now)) schedule (D.lists keeper.old) w) }
    ensures cut { OnErr result (RunsCut (trust_by (S.made sealer.now) (S.accepts sealer.now)) schedule (K.held sink.old) (K.held sink.new) (D.lists keeper.old) (D.lists keeper.new)) }
    ensures bad { IsErrOf result stop.BadRecord → MeetsBadRecord (trust_by (S.made sealer.now) (S.accepts sealer.now)) schedule Appends (K.held sink.old) (K.held sink.new) (D.lists keeper.old) }
    ensures later { K.faults sink.old ≤ K.faults sink.new }
    ensures fault { IsErrOf result stop.WriteFault → Rose (K.faults sink.old) (K.faults sink.new) }
    ensures kept_later { D.failed keeper.old ≤ D.failed keeper.new }
    ensures keep_fault { IsErrOf result stop.KeepFault → Rose (D.failed keeper.old) (D.failed keeper.new) }
{
    // there are as many observable lists as the keeper has
    let _ = keeper.members();
    match open_to_run(alloc, &schedule, sealer, waits) {
        Ok(mut world) => match run_events(rt, alloc, &mut world, schedule, sealer, sink, keeper) {
            Ok(()) => Ok(world),
            Err(stop) => {
                drop(world);
                Err(stop)
            }
        },
        Err(OutOfMemory) => Err(Stop::OutOfMemory),
    }
}
