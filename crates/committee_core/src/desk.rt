//! The command `desk`: member 0 behind a vote desk, and callers that ask it for its votes.

ghost use Rattle.std.specs.Prelude.{◌≡◌, ◌⊎◌, ◌<◌, ◌≤◌, ◌++◌, [], IfOk, OnOk, Ok, Some, length, map, replicate, true};
ghost use Rattle.std.specs.List.{flat_map, list_all};
ghost use Rattle.std.specs.Io.KnownBytes.{Appends, Keeps};
ghost use Rattle.outside.specs.Causes.{Rose};
ghost use Rattle.outside.specs.Streams.{AppendsFront};
ghost use Rattle.quorum_core.specs.Committee.{committee_of};
ghost use Rattle.report_text.specs.declared.lines.Line.TheVariants as report_line;
ghost use Rattle.report_text.specs.Text.{text_of};
ghost use Rattle.schedule_text.specs.Schedule.{schedule_of};
ghost use Rattle.protocol_spec.specs.Chain.Certificates.{read_signed};
ghost use Rattle.protocol_spec.specs.Member.Member.{fresh};
ghost use Rattle.validator_core.specs.Calls.{vote_ended};
ghost use Rattle.validator_core.specs.Seats.{answered};
ghost use Rattle.world_spec.specs.Setting.{stakes_of};
ghost use Rattle.world_spec.specs.World.{is_honest, new_world};
ghost use Rattle.world_spec.specs.Posts.{seat_at};
ghost use Rattle.world_spec.specs.SceneWorlds.{Shows};
ghost use Rattle.vote_desk.specs.Callers.{AreAnswered, asked_in};
ghost use Rattle.vote_desk.specs.Dealt.{AreMadeBy};
ghost use Rattle.vote_desk.specs.Histories.{IsLegal};
ghost use Rattle.vote_desk.specs.Votes.{FollowsUnder, standing};
ghost use Rattle.world_core.specs.Trusts.{trust_by};
ghost use Rattle.committee_core.specs.Desk.{EndsAs, EndsBy, IsDeskCut, IsSaid, IsSaidCut, SaysOfDesk, are_txs, call_line_by, call_text, desk_world, digest_read, is_tx, none_honest_text, only_tx_text, signed_bytes, text_by};
ghost use Rattle.committee_core.specs.Headline.{program_trust};
ghost use Rattle.committee_core.specs.Journals.{StartsAlong};
ghost use Rattle.committee_core.specs.Laws.{SceneLaws};
ghost use Rattle.committee_core.specs.Report.{setting_in};

use crate::keeping::MOST_MEMBERS;
use crate::run::run_schedule;
use crate::saying::text_with_number;
use crate::seals::{laws_of_scenes, program_sealer};
use crate::silent::Silence;
use crate::status::{DONE, NEGATIVE, NO_SCHEDULE, OUT_OF_MEMORY, READ_FAULT, WRITE_FAULT};
use crate::stop::Stop;
use crate::text::LONGEST_TEXT;
use chain_types::{decode_signed, encode_signed, tx_digest};
use digest_core::Digest;
use outside::{OutFault, Sink, Source, read_text, write_all};
use quorum_core::Sealer;
use report_text::{Line, print_line};
use schedule_text::{Event, Schedule, ScheduleRefusal, read_schedule};
use std::alloc::Global;
use std::sync::Wait;
use std::thread::Threads;
use validator_core::Validator;
use vote_desk::{DeskEntry, SureKeeper, answers_to_callers};
use wire_bcs::{OutOfMemory, Seq, Unread};
use world_core::{Replayed, RestartFault, World};
use world_lines::MakesSeals;

/// How the command ends if nothing fails: its status, and the bytes that it writes.
#[derive(Drop)]
struct Said {
    status: u8,
    text: Seq<u8>,
}

/// Whether the line makes a transaction.
fn is_tx(event: &Event) -> bool
    ensures { result ≡ is_tx event.now }
{
    matches!(event, Event::Tx { .. })
}

/// Whether all lines make transactions.
fn only_tx(events: &[Event]) -> bool
    ensures { result ≡ list_all is_tx events.now }
{
    for event in events {
        if !is_tx(event) {
            return false;
        }
    }
    true
}

/// The bytes of the transactions that the lines made, in order.
fn signed_requests(alloc: Global, world: &World) -> Result<Seq<Seq<u8>>, OutOfMemory>
    ensures { IfOk result (λ requests. requests ≡ map signed_bytes world.now.known.txs) }
{
    let mut requests = Seq::new(alloc);
    for place in 0..u32::MAX {
        let Some(signed) = world.signed(place) else {
            return Ok(requests);
        };
        requests.push(encode_signed(alloc, signed)?)?;
    }
    // no text has so many lines; it counts as running out of memory
    Err(OutOfMemory)
}

/// The digest of the transaction that the bytes encode, zeros if they encode none.
#[tactic(auto, unfolding(protocol_spec::specs::Chain::Certificates::read_signed))]
fn signed_digest(alloc: Global, bytes: &[u8]) -> Result<Digest, OutOfMemory>
    ensures { IfOk result (λ digest. digest ≡ digest_read (read_signed bytes.now)) }
{
    match decode_signed(alloc, bytes) {
        Ok(signed) => tx_digest(alloc, &signed.tx),
        Err(Unread::Wire(_)) => Ok(Digest([0; 32])),
        Err(Unread::OutOfMemory) => Err(OutOfMemory),
    }
}

/// Adds the line of a call, indented by two spaces.
fn print_call(
    alloc: Global,
    world: &World,
    call: &DeskEntry,
    text: &mut Seq<u8>,
) -> Result<(), OutOfMemory>
    requires { vote_ended call.now.reply ≡ answered }
    ensures { OnOk result (text.new ≡ text.old ++ call_text (call_line_by world.now.known call.now)) }
{
    let digest = signed_digest(alloc, call.bytes.as_slice())?;
    text.extend(b"  ".as_slice())?;
    let line = world.vote_line(0, &digest, &call.reply)?;
    let printed = print_line(&line, text);
    drop(line);
    printed
}

/// Adds the lines of the calls.
fn print_calls(
    alloc: Global,
    world: &World,
    calls: &[DeskEntry],
    text: &mut Seq<u8>,
) -> Result<(), OutOfMemory>
    requires { AreAnswered calls.now }
    ensures { OnOk result (text.new ≡ text.old ++ flat_map (λ e. call_text (call_line_by world.now.known e)) calls.now) }
{
    for call in calls {
        print_call(alloc, world, call, text)?;
    }
    Ok(())
}

/// How many calls there are, and the line of each.
fn print_history(
    alloc: Global,
    world: &World,
    calls: &Seq<DeskEntry>,
) -> Result<Seq<u8>, OutOfMemory>
    requires { AreAnswered calls.now }
    ensures { IfOk result (λ text. text ≡ text_by (call_line_by world.now.known) calls.now) }
{
    let mut text = text_with_number(
        alloc,
        b"desk 0: calls ".as_slice(),
        calls.len(),
        b"\n".as_slice(),
    )?;
    print_calls(alloc, world, calls.as_slice(), &mut text)?;
    Ok(text)
}

/// Member 0 of a world, as it starts from an empty list. The keeper stays as it was.
fn opened_member<S: Sealer>(
    world: &World,
    keeper: &mut SureKeeper,
    sealer: &S,
) -> Result<Validator, OutOfMemory>
    requires { keeper.old ≡ replicate 64 [] }
    ensures member { IfOk result (λ member. member ≡ seat_at world.now.terms 0 (fresh world.now.opening)) }
    ensures keeper { keeper.new ≡ keeper.old }
{
    match world.replay(keeper, sealer, 0) {
        Ok(replayed) => {
            let Replayed {
                validator,
                count: _,
            } = replayed;
            Ok(validator)
        }
        Err(RestartFault::BadRecord { place: _ }) => unreachable!(),
        Err(RestartFault::KeepFault) => unreachable!(),
        Err(RestartFault::OutOfMemory) => Err(OutOfMemory),
    }
}

/// The history of this many callers that ask member 0 of a world for its votes, for the transactions that the lines made.
fn calls_in<R: Threads + Wait + Sync, S: Sealer + Drop + Send + Sync>(
    rt: &R,
    alloc: Global,
    callers: u32,
    world: &World,
    sealer: S,
) -> Result<Seq<DeskEntry>, OutOfMemory>
    requires some { 0 < callers }
    requires few { callers ≤ 16 }
    ensures legal { IfOk result (IsLegal FollowsUnder (standing (seat_at world.now.terms 0 (fresh world.now.opening)) (S.accepts sealer) 0 (Some (replicate 64 [])))) }
    ensures made { IfOk result (λ calls. AreMadeBy callers (map signed_bytes world.now.known.txs) (asked_in calls)) }
    ensures answered { IfOk result AreAnswered }
{
    let requests = signed_requests(alloc, world)?;
    let mut keeper = SureKeeper::new(alloc, MOST_MEMBERS)?;
    let member = opened_member(world, &mut keeper, &sealer)?;
    answers_to_callers(
        rt,
        alloc,
        member,
        keeper,
        sealer,
        requests.as_slice(),
        callers,
    )
}

/// The world after all lines of a schedule. Nothing of its run is written, and its records go to a keeper of its own.
fn world_of<R: Threads + Sync, S: MakesSeals>(
    rt: &R,
    alloc: Global,
    schedule: Schedule,
    sealer: &S,
) -> Result<World, OutOfMemory>
    requires committee { committee_of (stakes_of schedule.setup) ≡ Ok (stakes_of schedule.setup) }
    requires laws { SceneLaws (trust_by (S.made sealer.now) (S.accepts sealer.now)) }
    requires along { StartsAlong (setting_in (trust_by (S.made sealer.now) (S.accepts sealer.now)) schedule) schedule.events }
    ensures { IfOk result (Shows (trust_by (S.made sealer.now) (S.accepts sealer.now)) (setting_in (trust_by (S.made sealer.now) (S.accepts sealer.now)) schedule) (desk_world (trust_by (S.made sealer.now) (S.accepts sealer.now)) schedule)) }
{
    let mut keeper = SureKeeper::new(alloc, MOST_MEMBERS)?;
    match run_schedule(
        rt,
        alloc,
        schedule,
        sealer,
        &mut Silence,
        &mut keeper,
        false,
    ) {
        Ok(world) => Ok(world),
        Err(Stop::WriteFault) => unreachable!(),
        Err(Stop::KeepFault) => unreachable!(),
        Err(Stop::BadRecord) => unreachable!(),
        Err(Stop::OutOfMemory) => Err(OutOfMemory),
    }
}

/// An ending that is this one line, with this status.
fn said_line(alloc: Global, status: u8, line: &[u8]) -> Result<Said, OutOfMemory>
    ensures { IfOk result (λ said. said ≡ record { status = status; text = line.now }) }
{
    Ok(Said {
        status,
        text: Seq::from_slice(alloc, line)?,
    })
}

/// The ending for the world of a schedule whose lines are all `tx`: a history of calls, or that member 0 is not
/// honest.
fn said_in<R: Threads + Wait + Sync, S: MakesSeals + Drop + Send + Sync>(
    rt: &R,
    alloc: Global,
    callers: u32,
    world: &World,
    sealer: S,
) -> Result<Said, OutOfMemory>
    requires some { 0 < callers }
    requires few { callers ≤ 16 }
    ensures { IfOk result (λ said. (s : Schedule) → are_txs s ≡ true → Shows (trust_by (S.made sealer) (S.accepts sealer)) (setting_in (trust_by (S.made sealer) (S.accepts sealer)) s) (desk_world (trust_by (S.made sealer) (S.accepts sealer)) s) world.now → EndsBy true (is_honest (new_world (setting_in (trust_by (S.made sealer) (S.accepts sealer)) s)) 0) (trust_by (S.made sealer) (S.accepts sealer)) callers s said.status said.text) }
{
    if !world.is_honest(0) {
        return said_line(alloc, NEGATIVE, b"desk: no honest member\n".as_slice());
    }
    let calls = calls_in(rt, alloc, callers, world, sealer)?;
    let text = print_history(alloc, world, &calls)?;
    Ok(Said { status: DONE, text })
}

/// The ending for a schedule: a history of calls, or why its desk takes no callers.
fn said_of<R: Threads + Wait + Sync, S: MakesSeals + Drop + Send + Sync>(
    rt: &R,
    alloc: Global,
    callers: u32,
    schedule: Schedule,
    sealer: S,
) -> Result<Said, OutOfMemory>
    requires some { 0 < callers }
    requires few { callers ≤ 16 }
    requires committee { committee_of (stakes_of schedule.setup) ≡ Ok (stakes_of schedule.setup) }
    requires laws { SceneLaws (trust_by (S.made sealer) (S.accepts sealer)) }
    requires along { StartsAlong (setting_in (trust_by (S.made sealer) (S.accepts sealer)) schedule) schedule.events }
    ensures { IfOk result (λ said. EndsBy (are_txs schedule) (is_honest (new_world (setting_in (trust_by (S.made sealer) (S.accepts sealer)) schedule)) 0) (trust_by (S.made sealer) (S.accepts sealer)) callers schedule said.status said.text) }
{
    if !only_tx(schedule.events.as_slice()) {
        return said_line(alloc, NEGATIVE, b"desk: only tx lines\n".as_slice());
    }
    match world_of(rt, alloc, schedule, &sealer) {
        Ok(world) => {
            let said = said_in(rt, alloc, callers, &world, sealer);
            drop(world);
            said
        }
        Err(OutOfMemory) => Err(OutOfMemory),
    }
}

/// Adds the line of a refusal.
fn print_refused(line: u64, cause: u8, text: &mut Seq<u8>) -> Result<(), OutOfMemory>
    ensures { OnOk result (text.new ≡ text.old ++ text_of (report_line.Refused line cause)) }
{
    let refused = Line::Refused {
        line,
        cause: u64::from(cause),
    };
    let printed = print_line(&refused, text);
    drop(refused);
    printed
}

/// The ending for a text that is not a schedule: the line that says why.
fn said_refused(alloc: Global, line: u64, cause: u8) -> Result<Said, OutOfMemory>
    ensures { IfOk result (λ said. said ≡ record { status = 3; text = text_of (report_line.Refused line cause) }) }
{
    let mut text = Seq::new(alloc);
    print_refused(line, cause, &mut text)?;
    Ok(Said {
        status: NO_SCHEDULE,
        text,
    })
}

/// The ending for any text.
fn said_of_text<R: Threads + Wait + Sync, S: MakesSeals + Drop + Send + Sync>(
    rt: &R,
    alloc: Global,
    callers: u32,
    text: &[u8],
    sealer: S,
) -> Result<Said, OutOfMemory>
    requires some { 0 < callers }
    requires few { callers ≤ 16 }
    requires laws { SceneLaws (trust_by (S.made sealer) (S.accepts sealer)) }
    ensures { IfOk result (λ said. EndsAs (trust_by (S.made sealer) (S.accepts sealer)) callers (schedule_of text.now) said.status said.text) }
{
    match read_schedule(alloc, text) {
        Ok(schedule) => said_of(rt, alloc, callers, schedule, sealer),
        Err(ScheduleRefusal::Refused { line, cause }) => said_refused(alloc, line, cause),
        Err(ScheduleRefusal::OutOfMemory) => Err(OutOfMemory),
    }
}

/// Writes the bytes of an ending. Answers its status if they were written, else 5 (write fault) or 7 (out of memory).
fn say<K: Sink>(said: &Said, sink: &mut K) -> u8
    requires { (said.now.status ≡ 0) ⊎ (said.now.status ≡ 3) ⊎ (said.now.status ≡ 8) }
    ensures known { (result ≡ said.now.status) ⊎ (result ≡ 5) ⊎ (result ≡ 7) }
    ensures written { result ≡ said.now.status → Appends (K.held sink.old) (K.held sink.new) said.now.text }
    ensures write_fault { result ≡ 5 → Rose (K.faults sink.old) (K.faults sink.new) }
    ensures cut { AppendsFront (K.held sink.old) (K.held sink.new) said.now.text }
{
    match write_all(sink, said.text.as_slice()) {
        Ok(()) => said.status,
        Err(OutFault::Failed) => WRITE_FAULT,
        Err(OutFault::OutOfMemory) => OUT_OF_MEMORY,
    }
}

/// Lets this many callers ask at the desk of a text that was read, under the seals of the program. Answers the status.
fn desk_read<R: Threads + Wait + Sync, K: Sink>(
    rt: &R,
    alloc: Global,
    callers: u32,
    text: &[u8],
    sink: &mut K,
) -> u8
    requires some { 0 < callers }
    requires few { callers ≤ 16 }
    ensures known { (result ≡ 0) ⊎ (result ≡ 3) ⊎ (result ≡ 5) ⊎ (result ≡ 7) ⊎ (result ≡ 8) }
    ensures whole { (result ≡ 0) ⊎ (result ≡ 3) ⊎ (result ≡ 8) → IsSaid program_trust callers (schedule_of text.now) Appends result (K.held sink.old) (K.held sink.new) }
    ensures write_fault { result ≡ 5 → Rose (K.faults sink.old) (K.faults sink.new) }
    ensures cut { (result ≡ 5) ⊎ (result ≡ 7) → IsSaidCut program_trust callers (schedule_of text.now) (K.held sink.old) (K.held sink.new) }
{
    laws_of_scenes();
    let sealer = program_sealer();
    match said_of_text(rt, alloc, callers, text, sealer) {
        Ok(said) => say(&said, sink),
        Err(OutOfMemory) => OUT_OF_MEMORY,
    }
}

/// The command `desk`: reads the source, and lets this many callers ask at the desk of the schedule that it is. Answers the
/// status.
pub(crate) fn desk<R: Threads + Wait + Sync, S: Source, K: Sink>(
    rt: &R,
    alloc: Global,
    callers: u32,
    source: &mut S,
    sink: &mut K,
) -> u8
    requires some { 0 < callers }
    requires few { callers ≤ 16 }
    ensures known { (result ≡ 0) ⊎ (result ≡ 3) ⊎ (result ≡ 4) ⊎ (result ≡ 5) ⊎ (result ≡ 7) ⊎ (result ≡ 8) }
    ensures whole { (result ≡ 0) ⊎ (result ≡ 3) ⊎ (result ≡ 8) → SaysOfDesk callers Appends result (S.left source.old) (S.left source.new) (K.held sink.old) (K.held sink.new) }
    ensures read_fault { result ≡ 4 → Rose (S.faults source.old) (S.faults source.new) }
    ensures unwritten { result ≡ 4 → Keeps (K.held sink.old) (K.held sink.new) }
    ensures write_fault { result ≡ 5 → Rose (K.faults sink.old) (K.faults sink.new) }
    ensures cut { (result ≡ 5) ⊎ (result ≡ 7) → IsDeskCut callers (S.left source.old) (S.left source.new) (K.held sink.old) (K.held sink.new) }
{
    match read_text(alloc, LONGEST_TEXT, source) {
        Ok(text) => desk_read(rt, alloc, callers, text.as_slice(), sink),
        Err(OutFault::Failed) => READ_FAULT,
        Err(OutFault::OutOfMemory) => OUT_OF_MEMORY,
    }
}
