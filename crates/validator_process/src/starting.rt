//! A process that serves: its member starts from the journal, and answers.

ghost use Rattle.std.specs.Prelude.{◌≡◌, ◌⊎◌, ◌<◌, ◌≤◌, [], Err, IfErr, IfOk, IsErrOf, OnErr, OnOk, length, true};
ghost use Rattle.std.specs.Io.KnownBytes.{Appends, Keeps};
ghost use Rattle.outside.specs.Causes.{Rose};
ghost use Rattle.outside.specs.Streams.{AppendsFront};
ghost use Rattle.disk_log.specs.Keeping.{told_lists};
ghost use Rattle.world_core.specs.Trusts.{trust_by};
ghost use Rattle.validator_process.specs.declared.identity.Head.TheVariants as head;
ghost use Rattle.validator_process.specs.declared.reading.Unstarted.TheVariants as unstarted;
ghost use Rattle.validator_process.specs.declared.stop.Stop.TheVariants as stop;
ghost use Rattle.validator_process.specs.Ending.{EndsJournal, EndsLog, EndsText, HasHead, IsHeadRefused, IsSaid, SaysUnopened, SaysUnstarted};
ghost use Rattle.validator_process.specs.Genesis.{line_status};
ghost use Rattle.validator_process.specs.Growing.{EachLeft, HasMore, IsWhole, StandsAs, records_in};
ghost use Rattle.validator_process.specs.Starting.{LivesCut, LivesWhole, StartsAs, start_bytes};

use crate::identity::{Head, genesis_digest, read_head};
use crate::journal::{Unopened, open_journal};
use crate::opening::{open_member, ready};
use crate::reading::{Unstarted, open_world};
use crate::serving::{say, serve};
use crate::start_log::{Opening, StartLog};
use crate::stop::Stop;
use disk_log::{Disk, DiskLog};
use outside::{Failed, Sink, Source};
use process_lines::{LineReader, StartLine, print_start};
use quorum_core::Sealer;
use std::alloc::Global;
use std::marker::Brand;
use std::thread::Threads;
use validator_core::Validator;
use wire_bcs::{OutOfMemory, Seq};
use world_core::World;
use world_lines::MakesSeals;

/// The first line of a process.
fn start_bytes(alloc: Global, start: &StartLine) -> Result<Seq<u8>, OutOfMemory>
    ensures { IfOk result (λ text. text ≡ start_bytes start.now) }
{
    let mut text = Seq::new(alloc);
    print_start(&mut text, start)?;
    text.push(b'\n')?;
    Ok(text)
}

/// Writes the first line of a process.
pub(crate) fn say_start<K: Sink>(alloc: Global, start: &StartLine, sink: &mut K) -> Result<(), Stop>
    ensures ok { OnOk result (Appends (K.held sink.old) (K.held sink.new) (start_bytes start.now)) }
    ensures some { AppendsFront (K.held sink.old) (K.held sink.new) (start_bytes start.now) }
    ensures later { K.faults sink.old ≤ K.faults sink.new }
    ensures fault { IsErrOf result stop.WriteFault → Rose (K.faults sink.old) (K.faults sink.new) }
    ensures only { (IsErrOf result stop.ReadFault → ⊥) × (IsErrOf result stop.KeepFault → ⊥) }
{
    match start_bytes(alloc, start) {
        Ok(text) => say(sink, text.as_slice()),
        Err(OutOfMemory) => Err(Stop::OutOfMemory),
    }
}

/// Writes the `ready` line of a member that started, and answers requests to the end of the source.
#[tactic(auto, using(crate::proofs::Lived::whole, crate::proofs::Lived::some, crate::proofs::Lived::unready, crate::proofs::Lived::unsaid))]
fn serve_member<R: Threads + Sync, F: Disk, S: Sealer, I: Source, K: Sink>(
    rt: &R,
    alloc: Global,
    validator: &mut Validator,
    log: &mut DiskLog<F>,
    sealer: &S,
    member: u32,
    source: &mut I,
    sink: &mut K,
) -> Result<(), Stop>
    requires few { member ≤ 63 }
    requires member { validator.old.member ≡ member }
    requires up { validator.old.up ≡ true }
    requires width { length log.old.counts ≡ 65 }
    requires whole { IsWhole (F.history log.old.disk) log.old.end log.old.shut }
    ensures lived { OnOk result (LivesWhole (S.accepts sealer.now) validator.old (I.left source.old) (I.left source.new) (K.held sink.old) (K.held sink.new) (told_lists (F.history log.old.disk) log.old.end (length log.old.counts)) (told_lists (F.history log.new.disk) log.new.end (length log.new.counts))) }
    ensures cut { IfErr result (λ why. LivesCut (S.accepts sealer.now) why validator.old (I.left source.old) (I.left source.new) (K.held sink.old) (K.held sink.new) (told_lists (F.history log.old.disk) log.old.end (length log.old.counts)) (told_lists (F.history log.new.disk) log.new.end (length log.new.counts))) }
    ensures each { IfErr result (λ why. EachLeft (λ lists. LivesCut (S.accepts sealer.now) why validator.old (I.left source.old) (I.left source.new) (K.held sink.old) (K.held sink.new) (told_lists (F.history log.old.disk) log.old.end (length log.old.counts)) lists) (length log.new.counts) (F.history log.new.disk)) }
    ensures whole { OnOk result (IsWhole (F.history log.new.disk) log.new.end log.new.shut) }
    ensures more { HasMore (F.history log.old.disk) (F.history log.new.disk) log.old.end log.new.end (F.failed log.new.disk) }
    ensures width { length log.new.counts ≡ length log.old.counts }
    ensures later { F.failed log.old.disk ≤ F.failed log.new.disk }
    ensures read_fault { IsErrOf result stop.ReadFault → Rose (I.faults source.old) (I.faults source.new) }
    ensures keep_fault { IsErrOf result stop.KeepFault → Rose (F.failed log.old.disk) (F.failed log.new.disk) }
    ensures write_fault { IsErrOf result stop.WriteFault → Rose (K.faults sink.old) (K.faults sink.new) }
{
    let Ok(mut reader) = LineReader::new(alloc) else {
        return Err(Stop::OutOfMemory);
    };
    let start = ready(member, validator);
    match say_start(alloc, &start, sink) {
        Ok(()) => {}
        Err(stop) => return Err(stop),
    }
    match serve(
        rt,
        alloc,
        validator,
        log,
        sealer,
        member,
        &mut reader,
        source,
        sink,
    ) {
        Ok(()) => Ok(()),
        Err(stop) => Err(stop),
    }
}

/// The status of a line that refuses a start.
fn status_of(start: &StartLine) -> u8
    ensures { result ≡ line_status start.now }
{
    match start {
        StartLine::Ready { .. } | StartLine::Made { .. } => 0,
        StartLine::NoSchedule { .. } => 3,
        StartLine::BadRecord { .. } => 6,
        StartLine::HasEvents
        | StartLine::NoMember { .. }
        | StartLine::NotMade
        | StartLine::OtherMember
        | StartLine::OtherGenesis
        | StartLine::NotEmpty => 8,
    }
}

/// Writes the one line of a process that ends with it. Returns the status.
#[tactic(auto, using(crate::proofs::Ended::said_whole, crate::proofs::Ended::said_cut))]
pub(crate) fn say_ended<K: Sink>(alloc: Global, start: &StartLine, sink: &mut K) -> u8
    ensures { IsSaid start.now (K.held sink.old) (K.held sink.new) (K.faults sink.old) (K.faults sink.new) result }
{
    match say_start(alloc, start, sink) {
        Ok(()) => status_of(start),
        Err(stop) => stop.status(),
    }
}

/// Writes why no member starts, if a line says it. Returns the status.
pub(crate) fn say_unstarted<K: Sink>(alloc: Global, why: Unstarted, sink: &mut K) -> u8
    ensures { SaysUnstarted why (K.held sink.old) (K.held sink.new) (K.faults sink.old) (K.faults sink.new) result }
{
    match why {
        Unstarted::Refused(start) => say_ended(alloc, &start, sink),
        Unstarted::Stopped(stop) => stop.status(),
    }
}

/// Writes why a journal was not opened, if a line says it. Returns the status.
pub(crate) fn say_unopened<K: Sink>(alloc: Global, why: Unopened, sink: &mut K) -> u8
    ensures { SaysUnopened why (K.held sink.old) (K.held sink.new) (K.faults sink.old) (K.faults sink.new) result }
{
    match why {
        Unopened::BadList => say_ended(alloc, &StartLine::NotMade, sink),
        Unopened::Stopped(stop) => stop.status(),
    }
}

/// Starts the member from the records of an open log. Gives the log back, as it was.
fn start_over<F: Disk, S: Sealer, O: Opening>(
    world: &World,
    member: u32,
    sealer: &S,
    log: DiskLog<F>,
) -> (Result<Validator, Unstarted>, DiskLog<F>)
    requires known { member < length log.counts }
    requires stands { StandsAs (F.history log.disk) log.end log.counts log.shut O.history O.end O.counts O.shut }
    ensures starts { StartsAs (S.accepts sealer.now) world.now member (told_lists (F.history log.disk) log.end (length log.counts)) result.0 }
    ensures member { IfOk result.0 (λ v. (v.member ≡ member) × (v.up ≡ true)) }
    ensures stands { StandsAs (F.history result.1.disk) result.1.end result.1.counts result.1.shut O.history O.end O.counts O.shut }
    ensures later { F.failed log.disk ≤ F.failed result.1.disk }
    ensures fault { result.0 ≡ Err (unstarted.Stopped stop.KeepFault) → Rose (F.failed log.disk) (F.failed result.1.disk) }
{
    let mut keeper: StartLog<F, O> = StartLog::new(log);
    let opened = open_member(world, member, sealer, &mut keeper);
    (opened, keeper.into_log())
}

/// Starts the member from the records of an open log. Gives the log back, as it was.
#[tactic(auto, using(crate::proofs::Growing::same_log))]
fn start_from<F: Disk, S: Sealer>(
    world: &World,
    member: u32,
    sealer: &S,
    log: DiskLog<F>,
) -> (Result<Validator, Unstarted>, DiskLog<F>)
    requires known { member < length log.counts }
    requires width { length log.counts ≡ 65 }
    requires whole { IsWhole (F.history log.disk) log.end log.shut }
    ensures starts { StartsAs (S.accepts sealer.now) world.now member (told_lists (F.history log.disk) log.end (length log.counts)) result.0 }
    ensures member { IfOk result.0 (λ v. (v.member ≡ member) × (v.up ≡ true)) }
    ensures stands { StandsAs (F.history result.1.disk) result.1.end result.1.counts result.1.shut (F.history log.disk) log.end log.counts log.shut }
    ensures width { length result.1.counts ≡ 65 }
    ensures whole { IsWhole (F.history result.1.disk) result.1.end result.1.shut }
    ensures later { F.failed log.disk ≤ F.failed result.1.disk }
    ensures fault { result.0 ≡ Err (unstarted.Stopped stop.KeepFault) → Rose (F.failed log.disk) (F.failed result.1.disk) }
{
    start_over::<F, S, Brand>(world, member, sealer, log)
}

/// Starts the member from an open log, and serves. Gives the disk back.
fn serve_over<R: Threads + Sync, F: Disk, S: MakesSeals, I: Source, K: Sink>(
    rt: &R,
    alloc: Global,
    world: World,
    log: DiskLog<F>,
    member: u32,
    sealer: &S,
    source: &mut I,
    sink: &mut K,
) -> (u8, F)
    requires few { member ≤ 63 }
    requires width { length log.counts ≡ 65 }
    requires whole { IsWhole (F.history log.disk) log.end log.shut }
    ensures { EndsLog (records_in (F.history log.disk) log.end) (S.accepts sealer.now) world member (F.history result.1) (I.left source.old) (I.left source.new) (K.held sink.old) (K.held sink.new) (told_lists (F.history log.disk) log.end (length log.counts)) (I.faults source.old) (I.faults source.new) (K.faults sink.old) (K.faults sink.new) (F.failed log.disk) (F.failed result.1) result.0 }
{
    let (opened, started) = start_from(&world, member, sealer, log);
    drop(world);
    let mut log = started;
    match opened {
        Ok(mut validator) => {
            let served = serve_member(
                rt,
                alloc,
                &mut validator,
                &mut log,
                sealer,
                member,
                source,
                sink,
            );
            drop(validator);
            let disk = log.into_disk();
            match served {
                Ok(()) => (0, disk),
                Err(stop) => (stop.status(), disk),
            }
        }
        Err(why) => (say_unstarted(alloc, why, sink), log.into_disk()),
    }
}

/// Opens the log of a disk that is a journal of the member, and serves. Gives the disk back.
#[tactic(auto, using(crate::proofs::Ended::journal_life, crate::proofs::Ended::unopened_ends))]
fn serve_journal<R: Threads + Sync, F: Disk, S: MakesSeals, I: Source, K: Sink>(
    rt: &R,
    alloc: Global,
    world: World,
    disk: F,
    member: u32,
    sealer: &S,
    source: &mut I,
    sink: &mut K,
) -> (u8, F)
    requires few { member ≤ 63 }
    ensures { EndsJournal (S.accepts sealer.now) world member (F.history disk) (F.history result.1) (I.left source.old) (I.left source.new) (K.held sink.old) (K.held sink.new) (I.faults source.old) (I.faults source.new) (K.faults sink.old) (K.faults sink.new) (F.failed disk) (F.failed result.1) result.0 }
{
    match open_journal(alloc, disk) {
        Ok(log) => serve_over(rt, alloc, world, log, member, sealer, source, sink),
        Err((disk, why)) => {
            drop(world);
            (say_unopened(alloc, why, sink), disk)
        }
    }
}

/// Whether the first bytes of a disk are those of a journal of this member and this set-up, else why not.
fn check_head<F: Disk>(disk: &mut F, member: u32, text: &[u8]) -> Result<(), Unstarted>
    ensures own { OnOk result (HasHead (F.history disk.old) member text.now head.Own) }
    ensures refused { IfErr result (λ why. IsHeadRefused why (F.history disk.old) member text.now (F.failed disk.old) (F.failed disk.new)) }
    ensures history { F.history disk.new ≡ F.history disk.old }
    ensures later { F.failed disk.old ≤ F.failed disk.new }
{
    match read_head(disk, member, &genesis_digest(text)) {
        Ok(Head::Own) => Ok(()),
        Ok(Head::Unmade) => Err(Unstarted::Refused(StartLine::NotMade)),
        Ok(Head::OtherMember) => Err(Unstarted::Refused(StartLine::OtherMember)),
        Ok(Head::OtherGenesis) => Err(Unstarted::Refused(StartLine::OtherGenesis)),
        Err(Failed) => Err(Unstarted::Stopped(Stop::KeepFault)),
    }
}

/// Starts the member of the set-up that the text is from its journal, and serves. Gives the disk back.
#[tactic(auto, using(crate::proofs::Ended::no_genesis, crate::proofs::Ended::begun_ends, crate::proofs::Ended::no_journal))]
pub(crate) fn serve_text<R: Threads + Sync, F: Disk, S: MakesSeals, I: Source, K: Sink>(
    rt: &R,
    alloc: Global,
    text: &[u8],
    disk: F,
    member: u32,
    sealer: &S,
    source: &mut I,
    sink: &mut K,
) -> (u8, F)
    requires few { member ≤ 63 }
    ensures { EndsText (trust_by (S.made sealer.now) (S.accepts sealer.now)) (S.accepts sealer.now) member text.now (F.history disk) (F.history result.1) (I.left source.old) (I.left source.new) (K.held sink.old) (K.held sink.new) (I.faults source.old) (I.faults source.new) (K.faults sink.old) (K.faults sink.new) (F.failed disk) (F.failed result.1) result.0 }
{
    let mut disk = disk;
    let world = match open_world(alloc, text, member, sealer) {
        Ok(world) => world,
        Err(why) => return (say_unstarted(alloc, why, sink), disk),
    };
    match check_head(&mut disk, member, text) {
        Ok(()) => serve_journal(rt, alloc, world, disk, member, sealer, source, sink),
        Err(why) => {
            drop(world);
            (say_unstarted(alloc, why, sink), disk)
        }
    }
}
