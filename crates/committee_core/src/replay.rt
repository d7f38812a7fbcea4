//! The command `replay`: a member as it starts from the records that the keeper has.

ghost use Rattle.std.specs.Prelude.{◌≡◌, ◌⊎◌, ◌<◌, ◌≤◌, ◌++◌, ◌∷◌, Ok, IfOk, IsErrOf, IsTrue, OnOk, Some, true};
ghost use Rattle.std.specs.Io.KnownBytes.{Appends, Keeps};
ghost use Rattle.outside.specs.Causes.{Rose};
ghost use Rattle.outside.specs.Lists.{KeepsJournals};
ghost use Rattle.outside.specs.declared.faults.OutFault.TheVariants as out_fault;
ghost use Rattle.quorum_core.specs.Committee.{committee_of};
ghost use Rattle.report_text.specs.declared.lines.Line.TheVariants as report_line;
ghost use Rattle.report_text.specs.declared.lines.RestartText.TheVariants as restart_text;
ghost use Rattle.report_text.specs.Text.{text_of};
ghost use Rattle.schedule_text.specs.Schedule.{schedule_of};
ghost use Rattle.world_spec.specs.Scene.{new_scene};
ghost use Rattle.world_spec.specs.Setting.{stakes_of};
ghost use Rattle.world_spec.specs.World.{is_honest, new_world};
ghost use Rattle.world_core.specs.Texts.{show_by};
ghost use Rattle.world_core.specs.Trusts.{trust_by};
ghost use Rattle.committee_core.specs.Headline.{program_trust};
ghost use Rattle.committee_core.specs.Replay.{Says, SaysFront, SaysOfText, member_ending, no_member_text, text_ending};
ghost use Rattle.committee_core.specs.Report.{lines_text, setting_in};
ghost use Rattle.outside.specs.Streams.{AppendsFront};
ghost use Rattle.committee_core.specs.Ways.{bad_record_text};

use crate::event::{print_lines, write_bad_record};
use crate::run::open_world;
use crate::saying::text_with_number;
use crate::seals::program_sealer;
use crate::status::{
    DONE, KEEP_FAULT, NEGATIVE, NO_SCHEDULE, OUT_OF_MEMORY, READ_FAULT, WRITE_FAULT,
};
use crate::text::{LONGEST_TEXT, say_refused};
use outside::{Keeper, OutFault, Sink, Source, read_text, write_all};
use report_text::{Line, RestartText, print_line};
use schedule_text::{Schedule, ScheduleRefusal, read_schedule};
use std::alloc::Global;
use wire_bcs::{OutOfMemory, Seq};
use world_core::{Replayed, RestartFault, World};
use world_lines::MakesSeals;

/// Prints `restart M: records N`.
fn print_restart(member: u32, count: u64, text: &mut Seq<u8>) -> Result<(), OutOfMemory>
    ensures { OnOk result (text.new ≡ text.old ++ text_of (report_line.Restart member (restart_text.Records count))) }
{
    let line = Line::Restart {
        member: u64::from(member),
        text: RestartText::Records { count },
    };
    let printed = print_line(&line, text);
    drop(line);
    printed
}

/// Adds the lines of a member that started from its records: how many, and the lines of `show` for its state.
fn print_started(
    alloc: Global,
    world: &World,
    member: u32,
    replayed: &Replayed,
) -> Result<Seq<u8>, OutOfMemory>
    ensures { IfOk result (λ text. text ≡ lines_text (report_line.Restart member (restart_text.Records replayed.now.count) ∷ show_by world.now.known member (Some replayed.now.validator))) }
{
    let mut text = Seq::new(alloc);
    print_restart(member, replayed.count, &mut text)?;
    let lines = world.show_lines(member, &replayed.validator)?;
    let shown = print_lines(alloc, &lines)?;
    text.extend(shown.as_slice())?;
    Ok(text)
}

/// Writes the lines of a member that started from its records, as one piece.
fn write_started<K: Sink>(
    alloc: Global,
    world: &World,
    member: u32,
    replayed: &Replayed,
    sink: &mut K,
) -> Result<(), OutFault>
    ensures ok { OnOk result (Appends (K.held sink.old) (K.held sink.new) (lines_text (report_line.Restart member (restart_text.Records replayed.now.count) ∷ show_by world.now.known member (Some replayed.now.validator)))) }
    ensures some { AppendsFront (K.held sink.old) (K.held sink.new) (lines_text (report_line.Restart member (restart_text.Records replayed.now.count) ∷ show_by world.now.known member (Some replayed.now.validator))) }
    ensures later { K.faults sink.old ≤ K.faults sink.new }
    ensures fault { IsErrOf result out_fault.Failed → Rose (K.faults sink.old) (K.faults sink.new) }
{
    let text = print_started(alloc, world, member, replayed)?;
    write_all(sink, text.as_slice())
}

/// Writes the lines of a member that started from its records. Answers the status.
fn say_started<K: Sink>(
    alloc: Global,
    world: &World,
    member: u32,
    replayed: &Replayed,
    sink: &mut K,
) -> u8
    ensures known { (result ≡ 0) ⊎ (result ≡ 5) ⊎ (result ≡ 7) }
    ensures written { result ≡ 0 → Appends (K.held sink.old) (K.held sink.new) (lines_text (report_line.Restart member (restart_text.Records replayed.now.count) ∷ show_by world.now.known member (Some replayed.now.validator))) }
    ensures write_fault { result ≡ 5 → Rose (K.faults sink.old) (K.faults sink.new) }
    ensures cut { (result ≡ 5) ⊎ (result ≡ 7) → AppendsFront (K.held sink.old) (K.held sink.new) (lines_text (report_line.Restart member (restart_text.Records replayed.now.count) ∷ show_by world.now.known member (Some replayed.now.validator))) }
{
    match write_started(alloc, world, member, replayed, sink) {
        Ok(()) => DONE,
        Err(OutFault::Failed) => WRITE_FAULT,
        Err(OutFault::OutOfMemory) => OUT_OF_MEMORY,
    }
}

/// Writes the line that a record is bad. Answers the status.
fn say_bad_record<K: Sink>(alloc: Global, member: u32, place: u64, sink: &mut K) -> u8
    ensures known { (result ≡ 5) ⊎ (result ≡ 6) ⊎ (result ≡ 7) }
    ensures written { result ≡ 6 → Appends (K.held sink.old) (K.held sink.new) (bad_record_text member place) }
    ensures write_fault { result ≡ 5 → Rose (K.faults sink.old) (K.faults sink.new) }
    ensures cut { (result ≡ 5) ⊎ (result ≡ 7) → AppendsFront (K.held sink.old) (K.held sink.new) (bad_record_text member place) }
{
    match write_bad_record(alloc, member, place, sink) {
        Ok(()) => KEEP_FAULT,
        Err(OutFault::Failed) => WRITE_FAULT,
        Err(OutFault::OutOfMemory) => OUT_OF_MEMORY,
    }
}

/// `replay M: no honest member`
fn no_member_line(alloc: Global, member: u64) -> Result<Seq<u8>, OutOfMemory>
    ensures { IfOk result (λ text. text ≡ no_member_text member) }
{
    text_with_number(
        alloc,
        b"replay ".as_slice(),
        member,
        b": no honest member\n".as_slice(),
    )
}

/// Writes `replay M: no honest member`.
fn write_no_member<K: Sink>(alloc: Global, member: u32, sink: &mut K) -> Result<(), OutFault>
    ensures ok { OnOk result (Appends (K.held sink.old) (K.held sink.new) (no_member_text member)) }
    ensures some { AppendsFront (K.held sink.old) (K.held sink.new) (no_member_text member) }
    ensures later { K.faults sink.old ≤ K.faults sink.new }
    ensures fault { IsErrOf result out_fault.Failed → Rose (K.faults sink.old) (K.faults sink.new) }
{
    let text = no_member_line(alloc, u64::from(member))?;
    write_all(sink, text.as_slice())
}

/// Writes the line that says that no honest member has the number. Answers the status.
fn say_no_member<K: Sink>(alloc: Global, member: u32, sink: &mut K) -> u8
    ensures known { (result ≡ 5) ⊎ (result ≡ 7) ⊎ (result ≡ 8) }
    ensures written { result ≡ 8 → Appends (K.held sink.old) (K.held sink.new) (no_member_text member) }
    ensures write_fault { result ≡ 5 → Rose (K.faults sink.old) (K.faults sink.new) }
    ensures cut { (result ≡ 5) ⊎ (result ≡ 7) → AppendsFront (K.held sink.old) (K.held sink.new) (no_member_text member) }
{
    match write_no_member(alloc, member, sink) {
        Ok(()) => NEGATIVE,
        Err(OutFault::Failed) => WRITE_FAULT,
        Err(OutFault::OutOfMemory) => OUT_OF_MEMORY,
    }
}

/// Whether the set-up makes the member honest.
fn is_honest<S: MakesSeals>(world: &World, schedule: &Schedule, sealer: &S, member: u32) -> bool
    requires opened { world.now ≡ new_scene (setting_in (trust_by (S.made sealer.now) (S.accepts sealer.now)) schedule.now) schedule.now.setup }
    ensures { result ≡ is_honest (new_world (setting_in (trust_by (S.made sealer.now) (S.accepts sealer.now)) schedule.now)) member }
{
    world.member(member).is_some()
}

/// Starts a member that the set-up makes honest from its records, and writes how that went. Answers
/// the status.
fn replay_honest<S: MakesSeals, K: Sink, D: Keeper>(
    alloc: Global,
    world: &World,
    schedule: &Schedule,
    member: u32,
    sealer: &S,
    sink: &mut K,
    keeper: &mut D,
) -> u8
    requires opened { world.now ≡ new_scene (setting_in (trust_by (S.made sealer.now) (S.accepts sealer.now)) schedule.now) schedule.now.setup }
    requires honest { is_honest (new_world (setting_in (trust_by (S.made sealer.now) (S.accepts sealer.now)) schedule.now)) member ≡ true }
    requires known { member < D.width keeper.old }
    ensures known { (result ≡ 0) ⊎ (result ≡ 5) ⊎ (result ≡ 6) ⊎ (result ≡ 7) }
    ensures stays { KeepsJournals (D.lists keeper.old) (D.lists keeper.new) }
    ensures whole { result ≡ 0 → Says (member_ending (trust_by (S.made sealer.now) (S.accepts sealer.now)) schedule.now member) member Appends 0 (D.lists keeper.old) (K.held sink.old) (K.held sink.new) }
    ensures write_fault { result ≡ 5 → Rose (K.faults sink.old) (K.faults sink.new) }
    ensures bad { result ≡ 6 → Says (member_ending (trust_by (S.made sealer.now) (S.accepts sealer.now)) schedule.now member) member Appends 6 (D.lists keeper.old) (K.held sink.old) (K.held sink.new) ⊎ (Rose (D.failed keeper.old) (D.failed keeper.new) × Keeps (K.held sink.old) (K.held sink.new)) }
    ensures cut { (result ≡ 5) ⊎ (result ≡ 7) → SaysFront (member_ending (trust_by (S.made sealer.now) (S.accepts sealer.now)) schedule.now member) member (D.lists keeper.old) (K.held sink.old) (K.held sink.new) }
{
    match world.replay(keeper, sealer, member) {
        Ok(replayed) => {
            let status = say_started(alloc, world, member, &replayed, sink);
            drop(replayed);
            status
        }
        Err(RestartFault::BadRecord { place }) => say_bad_record(alloc, member, place, sink),
        Err(RestartFault::KeepFault) => KEEP_FAULT,
        Err(RestartFault::OutOfMemory) => OUT_OF_MEMORY,
    }
}

/// Replays a member of the world of a schedule's set-up. Answers the status.
fn replay_member<S: MakesSeals, K: Sink, D: Keeper>(
    alloc: Global,
    world: &World,
    schedule: &Schedule,
    member: u32,
    sealer: &S,
    sink: &mut K,
    keeper: &mut D,
) -> u8
    requires opened { world.now ≡ new_scene (setting_in (trust_by (S.made sealer.now) (S.accepts sealer.now)) schedule.now) schedule.now.setup }
    requires known { member < D.width keeper.old }
    ensures known { (result ≡ 0) ⊎ (result ≡ 5) ⊎ (result ≡ 6) ⊎ (result ≡ 7) ⊎ (result ≡ 8) }
    ensures stays { KeepsJournals (D.lists keeper.old) (D.lists keeper.new) }
    ensures whole { (result ≡ 0) ⊎ (result ≡ 8) → Says (member_ending (trust_by (S.made sealer.now) (S.accepts sealer.now)) schedule.now member) member Appends result (D.lists keeper.old) (K.held sink.old) (K.held sink.new) }
    ensures write_fault { result ≡ 5 → Rose (K.faults sink.old) (K.faults sink.new) }
    ensures bad { result ≡ 6 → Says (member_ending (trust_by (S.made sealer.now) (S.accepts sealer.now)) schedule.now member) member Appends 6 (D.lists keeper.old) (K.held sink.old) (K.held sink.new) ⊎ (Rose (D.failed keeper.old) (D.failed keeper.new) × Keeps (K.held sink.old) (K.held sink.new)) }
    ensures cut { (result ≡ 5) ⊎ (result ≡ 7) → SaysFront (member_ending (trust_by (S.made sealer.now) (S.accepts sealer.now)) schedule.now member) member (D.lists keeper.old) (K.held sink.old) (K.held sink.new) }
{
    if is_honest(world, schedule, sealer, member) {
        return replay_honest(alloc, world, schedule, member, sealer, sink, keeper);
    }
    say_no_member(alloc, member, sink)
}

/// Replays a member of a schedule's set-up. Answers the status.
fn replay_schedule<S: MakesSeals, K: Sink, D: Keeper>(
    alloc: Global,
    schedule: &Schedule,
    member: u32,
    sealer: &S,
    sink: &mut K,
    keeper: &mut D,
) -> u8
    requires committee { committee_of (stakes_of schedule.now.setup) ≡ Ok (stakes_of schedule.now.setup) }
    requires known { member < D.width keeper.old }
    ensures known { (result ≡ 0) ⊎ (result ≡ 5) ⊎ (result ≡ 6) ⊎ (result ≡ 7) ⊎ (result ≡ 8) }
    ensures stays { KeepsJournals (D.lists keeper.old) (D.lists keeper.new) }
    ensures whole { (result ≡ 0) ⊎ (result ≡ 8) → Says (member_ending (trust_by (S.made sealer.now) (S.accepts sealer.now)) schedule.now member) member Appends result (D.lists keeper.old) (K.held sink.old) (K.held sink.new) }
    ensures write_fault { result ≡ 5 → Rose (K.faults sink.old) (K.faults sink.new) }
    ensures bad { result ≡ 6 → Says (member_ending (trust_by (S.made sealer.now) (S.accepts sealer.now)) schedule.now member) member Appends 6 (D.lists keeper.old) (K.held sink.old) (K.held sink.new) ⊎ (Rose (D.failed keeper.old) (D.failed keeper.new) × Keeps (K.held sink.old) (K.held sink.new)) }
    ensures cut { (result ≡ 5) ⊎ (result ≡ 7) → SaysFront (member_ending (trust_by (S.made sealer.now) (S.accepts sealer.now)) schedule.now member) member (D.lists keeper.old) (K.held sink.old) (K.held sink.new) }
{
    match open_world(alloc, schedule, sealer) {
        Ok(world) => {
            let status = replay_member(alloc, &world, schedule, member, sealer, sink, keeper);
            drop(world);
            status
        }
        Err(OutOfMemory) => OUT_OF_MEMORY,
    }
}

/// Replays a member of the set-up of a text. Answers the status.
fn replay_text<S: MakesSeals, K: Sink, D: Keeper>(
    alloc: Global,
    text: &[u8],
    member: u32,
    sealer: &S,
    sink: &mut K,
    keeper: &mut D,
) -> u8
    requires known { member < D.width keeper.old }
    ensures known { (result ≡ 0) ⊎ (result ≡ 3) ⊎ (result ≡ 5) ⊎ (result ≡ 6) ⊎ (result ≡ 7) ⊎ (result ≡ 8) }
    ensures stays { KeepsJournals (D.lists keeper.old) (D.lists keeper.new) }
    ensures whole { (result ≡ 0) ⊎ (result ≡ 3) ⊎ (result ≡ 8) → Says (text_ending (trust_by (S.made sealer.now) (S.accepts sealer.now)) member (schedule_of text.now)) member Appends result (D.lists keeper.old) (K.held sink.old) (K.held sink.new) }
    ensures write_fault { result ≡ 5 → Rose (K.faults sink.old) (K.faults sink.new) }
    ensures bad { result ≡ 6 → Says (text_ending (trust_by (S.made sealer.now) (S.accepts sealer.now)) member (schedule_of text.now)) member Appends 6 (D.lists keeper.old) (K.held sink.old) (K.held sink.new) ⊎ (Rose (D.failed keeper.old) (D.failed keeper.new) × Keeps (K.held sink.old) (K.held sink.new)) }
    ensures cut { (result ≡ 5) ⊎ (result ≡ 7) → SaysFront (text_ending (trust_by (S.made sealer.now) (S.accepts sealer.now)) member (schedule_of text.now)) member (D.lists keeper.old) (K.held sink.old) (K.held sink.new) }
{
    match read_schedule(alloc, text) {
        Ok(schedule) => replay_schedule(alloc, &schedule, member, sealer, sink, keeper),
        Err(ScheduleRefusal::Refused { line, cause }) => say_refused(alloc, line, cause, sink),
        Err(ScheduleRefusal::OutOfMemory) => OUT_OF_MEMORY,
    }
}

/// Replays a member of the set-up of a text that was read, under the seals of the program. Answers
/// the status.
fn replay_read<K: Sink, D: Keeper>(
    alloc: Global,
    text: &[u8],
    member: u32,
    sink: &mut K,
    keeper: &mut D,
) -> u8
    requires known { member < D.width keeper.old }
    ensures known { (result ≡ 0) ⊎ (result ≡ 3) ⊎ (result ≡ 5) ⊎ (result ≡ 6) ⊎ (result ≡ 7) ⊎ (result ≡ 8) }
    ensures stays { KeepsJournals (D.lists keeper.old) (D.lists keeper.new) }
    ensures whole { (result ≡ 0) ⊎ (result ≡ 3) ⊎ (result ≡ 8) → Says (text_ending program_trust member (schedule_of text.now)) member Appends result (D.lists keeper.old) (K.held sink.old) (K.held sink.new) }
    ensures write_fault { result ≡ 5 → Rose (K.faults sink.old) (K.faults sink.new) }
    ensures bad { result ≡ 6 → Says (text_ending program_trust member (schedule_of text.now)) member Appends 6 (D.lists keeper.old) (K.held sink.old) (K.held sink.new) ⊎ (Rose (D.failed keeper.old) (D.failed keeper.new) × Keeps (K.held sink.old) (K.held sink.new)) }
    ensures cut { (result ≡ 5) ⊎ (result ≡ 7) → SaysFront (text_ending program_trust member (schedule_of text.now)) member (D.lists keeper.old) (K.held sink.old) (K.held sink.new) }
{
    let sealer = program_sealer();
    replay_text(alloc, text, member, &sealer, sink, keeper)
}

/// The command `replay`: reads the source, and replays a member of the set-up of the schedule that
/// it is. Answers the status.
pub(crate) fn replay<S: Source, K: Sink, D: Keeper>(
    alloc: Global,
    member: u32,
    source: &mut S,
    sink: &mut K,
    keeper: &mut D,
) -> u8
    requires known { member < D.width keeper.old }
    ensures known { (result ≡ 0) ⊎ (result ≡ 3) ⊎ (result ≡ 4) ⊎ (result ≡ 5) ⊎ (result ≡ 6) ⊎ (result ≡ 7) ⊎ (result ≡ 8) }
    ensures stays { KeepsJournals (D.lists keeper.old) (D.lists keeper.new) }
    ensures whole { (result ≡ 0) ⊎ (result ≡ 3) ⊎ (result ≡ 8) → SaysOfText member (λ ending. Says ending member Appends result (D.lists keeper.old) (K.held sink.old) (K.held sink.new)) (S.left source.old) (S.left source.new) }
    ensures read_fault { result ≡ 4 → Rose (S.faults source.old) (S.faults source.new) }
    ensures unwritten { result ≡ 4 → Keeps (K.held sink.old) (K.held sink.new) }
    ensures write_fault { result ≡ 5 → Rose (K.faults sink.old) (K.faults sink.new) }
    ensures bad { result ≡ 6 → SaysOfText member (λ ending. Says ending member Appends 6 (D.lists keeper.old) (K.held sink.old) (K.held sink.new)) (S.left source.old) (S.left source.new) ⊎ (Rose (D.failed keeper.old) (D.failed keeper.new) × Keeps (K.held sink.old) (K.held sink.new)) }
    ensures cut { (result ≡ 5) ⊎ (result ≡ 7) → Keeps (K.held sink.old) (K.held sink.new) ⊎ SaysOfText member (λ ending. SaysFront ending member (D.lists keeper.old) (K.held sink.old) (K.held sink.new)) (S.left source.old) (S.left source.new) }
{
    match read_text(alloc, LONGEST_TEXT, source) {
        Ok(text) => replay_read(alloc, text.as_slice(), member, sink, keeper),
        Err(OutFault::Failed) => READ_FAULT,
        Err(OutFault::OutOfMemory) => OUT_OF_MEMORY,
    }
}
