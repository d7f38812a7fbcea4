//! Serving: reads lines one after the other, and answers each once its record is kept.

ghost use Rattle.std.specs.Prelude.{◌≡◌, ◌<◌, ◌≤◌, [], None, IfErr, IfOk, IsErrOf, OnErr, OnOk, length, slice_get, true};
ghost use Rattle.std.specs.Io.KnownBytes.{Appends};
ghost use Rattle.outside.specs.Causes.{Rose};
ghost use Rattle.outside.specs.Lists.{journal_of};
ghost use Rattle.outside.specs.Streams.{AppendsFront};
ghost use Rattle.disk_log.specs.Keeping.{told_lists};
ghost use Rattle.outside.specs.declared.faults.OutFault.TheVariants as out;
ghost use Rattle.process_lines.specs.Lines.{longest_line};
ghost use Rattle.process_lines.specs.Requests.{HasWorkers, request_of};
ghost use Rattle.world_core.specs.Replies.{Leaves, spelled_due};
ghost use Rattle.world_core.specs.declared.reply.SeatFault.TheVariants as faults;
ghost use Rattle.validator_process.specs.declared.stop.Stop.TheVariants as stop;
ghost use Rattle.validator_process.specs.Moves.{due_for, moved};
ghost use Rattle.validator_process.specs.Growing.{EachLeft, HasMore, IsWhole};
ghost use Rattle.validator_process.specs.Serving.{IsAnswer, IsCutBy, IsServed, IsStoppedBy, Next, ServesAll, ServesSome, around, due_for_request, ended, seat_behind_request};
ghost use Rattle.validator_process.specs.Says.{Says};
ghost use Rattle.process_lines.specs.Texts.{bad_request_text};

use crate::answering::answer;
use crate::keeping::keep_due;
use crate::stop::{Stop, unread, unwritten};
use disk_log::{Disk, DiskLog};
use outside::{Keeper, MemKeeper, OutFault, Sink, Source, write_all};
use process_lines::{Got, LineReader, Request, read_request};
use quorum_core::Sealer;
use std::alloc::Global;
use std::thread::Threads;
use validator_core::Validator;
use wire_bcs::{OutOfMemory, Seq};
use world_core::SeatFault;

/// The line `bad request`.
fn bad_request(alloc: Global) -> Result<Seq<u8>, SeatFault>
    ensures text { IfOk result (λ text. text ≡ ended bad_request_text) }
    ensures only { IsErrOf result faults.KeepFault → ⊥ }
{
    match Seq::from_slice(alloc, b"bad request\n".as_slice()) {
        Ok(text) => Ok(text),
        Err(OutOfMemory) => Err(SeatFault::OutOfMemory),
    }
}

/// The line that answers a request.
fn answer_request<R: Threads + Sync, D: Keeper, S: Sealer>(
    rt: &R,
    alloc: Global,
    validator: &mut Validator,
    keeper: &mut D,
    sealer: &S,
    member: u32,
    request: &Request,
) -> Result<Seq<u8>, SeatFault>
    requires member { validator.old.member ≡ member }
    requires known { validator.old.member < D.width keeper.old }
    requires up { validator.old.up ≡ true }
    requires workers { HasWorkers request.now }
    ensures says { IfOk result (λ text. (body : _) × (text ≡ ended body) × Says (S.accepts sealer.now) validator.old request.now body) }
    ensures state { OnOk result (validator.new ≡ moved (S.accepts sealer.now) validator.old request.now) }
    ensures kept { Leaves (D.lists keeper.old) (D.lists keeper.new) validator.old.member (due_for (S.accepts sealer.now) validator.old request.now) result }
    ensures width { D.width keeper.new ≡ D.width keeper.old }
    ensures later { D.failed keeper.old ≤ D.failed keeper.new }
    ensures fault { IsErrOf result faults.KeepFault → Rose (D.failed keeper.old) (D.failed keeper.new) }
{
    let mut text = answer(rt, alloc, validator, keeper, sealer, member, request)?;
    match text.push(b'\n') {
        Ok(()) => Ok(text),
        Err(OutOfMemory) => Err(SeatFault::OutOfMemory),
    }
}

/// The answer to a line of the source, with its end; the line is not too long.
#[tactic(auto, using(validator_core::proofs::Settling::keeps_same))]
fn answer_line<R: Threads + Sync, D: Keeper, S: Sealer>(
    rt: &R,
    alloc: Global,
    validator: &mut Validator,
    keeper: &mut D,
    sealer: &S,
    member: u32,
    line: &[u8],
) -> Result<Seq<u8>, SeatFault>
    requires member { validator.old.member ≡ member }
    requires known { validator.old.member < D.width keeper.old }
    requires up { validator.old.up ≡ true }
    ensures says { IfOk result (IsAnswer (S.accepts sealer.now) validator.old (request_of line.now)) }
    ensures state { OnOk result (validator.new ≡ seat_behind_request (S.accepts sealer.now) validator.old (request_of line.now)) }
    ensures kept { Leaves (D.lists keeper.old) (D.lists keeper.new) validator.old.member (due_for_request (S.accepts sealer.now) validator.old (request_of line.now)) result }
    ensures width { D.width keeper.new ≡ D.width keeper.old }
    ensures later { D.failed keeper.old ≤ D.failed keeper.new }
    ensures fault { IsErrOf result faults.KeepFault → Rose (D.failed keeper.old) (D.failed keeper.new) }
{
    let request = match read_request(alloc, line) {
        Ok(request) => request,
        Err(OutOfMemory) => return Err(SeatFault::OutOfMemory),
    };
    match request {
        Some(request) => answer_request(rt, alloc, validator, keeper, sealer, member, &request),
        None => bad_request(alloc),
    }
}

/// Writes bytes whole.
pub(crate) fn say<K: Sink>(sink: &mut K, bytes: &[u8]) -> Result<(), Stop>
    ensures ok { OnOk result (Appends (K.held sink.old) (K.held sink.new) bytes.now) }
    ensures some { AppendsFront (K.held sink.old) (K.held sink.new) bytes.now }
    ensures later { K.faults sink.old ≤ K.faults sink.new }
    ensures fault { IsErrOf result stop.WriteFault → Rose (K.faults sink.old) (K.faults sink.new) }
    ensures only { (IsErrOf result stop.ReadFault → ⊥) × (IsErrOf result stop.KeepFault → ⊥) }
{
    match write_all(sink, bytes) {
        Ok(()) => Ok(()),
        Err(OutFault::Failed) => Err(Stop::WriteFault),
        Err(OutFault::OutOfMemory) => Err(Stop::OutOfMemory),
    }
}

/// The first record of a member; none if it has none. Any failure counts as out of memory.
fn first_record(paper: &mut MemKeeper, member: u32) -> Result<Option<Seq<u8>>, OutOfMemory>
    requires known { member < length paper.old.lists }
    ensures { IfOk result (λ first. first ≡ slice_get (journal_of paper.old.lists member) 0) }
{
    if paper.count(member) == 0 {
        return Ok(None);
    }
    match paper.read(member, 0) {
        Ok(record) => Ok(Some(record)),
        Err(_) => Err(OutOfMemory),
    }
}

/// The answer to a line of the source, and the encoding of the record that is due, if any. The record is not kept yet:
/// the member writes it to a keeper in memory. The line is not too long.
#[tactic(auto, using(world_core::proofs::Replying::paper_due))]
fn answer_on_paper<R: Threads + Sync, S: Sealer>(
    rt: &R,
    alloc: Global,
    validator: &mut Validator,
    sealer: &S,
    member: u32,
    line: &[u8],
) -> Result<(Seq<u8>, Option<Seq<u8>>), OutOfMemory>
    requires few { member ≤ 63 }
    requires member { validator.old.member ≡ member }
    requires up { validator.old.up ≡ true }
    ensures says { IfOk result (λ given. IsAnswer (S.accepts sealer.now) validator.old (request_of line.now) given.0) }
    ensures state { OnOk result (validator.new ≡ seat_behind_request (S.accepts sealer.now) validator.old (request_of line.now)) }
    ensures due { IfOk result (λ given. given.1 ≡ spelled_due (due_for_request (S.accepts sealer.now) validator.old (request_of line.now))) }
{
    let mut paper = MemKeeper::new(alloc, member + 1, [].as_slice())?;
    let text = match answer_line(rt, alloc, validator, &mut paper, sealer, member, line) {
        Ok(text) => text,
        Err(_) => return Err(OutOfMemory),
    };
    let due = first_record(&mut paper, member)?;
    Ok((text, due))
}

/// Answers a line, which is not too long: the answer is handed to the sink once the record that it rests on is kept.
fn serve_line<R: Threads + Sync, F: Disk, S: Sealer, K: Sink>(
    rt: &R,
    alloc: Global,
    validator: &mut Validator,
    log: &mut DiskLog<F>,
    sealer: &S,
    member: u32,
    line: &[u8],
    sink: &mut K,
) -> Result<(), Stop>
    requires few { member ≤ 63 }
    requires member { validator.old.member ≡ member }
    requires up { validator.old.up ≡ true }
    requires width { length log.old.counts ≡ 65 }
    requires whole { IsWhole (F.history log.old.disk) log.old.end log.old.shut }
    ensures ok { OnOk result (IsServed (S.accepts sealer.now) (request_of line.now) (K.held sink.old) (K.held sink.new) (told_lists (F.history log.old.disk) log.old.end (length log.old.counts)) (told_lists (F.history log.new.disk) log.new.end (length log.new.counts)) validator.old validator.new) }
    ensures cut { IfErr result (λ why. IsStoppedBy (S.accepts sealer.now) why (request_of line.now) (K.held sink.old) (K.held sink.new) (told_lists (F.history log.old.disk) log.old.end (length log.old.counts)) (told_lists (F.history log.new.disk) log.new.end (length log.new.counts)) validator.old) }
    ensures each { IfErr result (λ why. EachLeft (λ lists. IsStoppedBy (S.accepts sealer.now) why (request_of line.now) (K.held sink.old) (K.held sink.new) (told_lists (F.history log.old.disk) log.old.end (length log.old.counts)) lists validator.old) (length log.new.counts) (F.history log.new.disk)) }
    ensures whole { OnOk result (IsWhole (F.history log.new.disk) log.new.end log.new.shut) }
    ensures more { HasMore (F.history log.old.disk) (F.history log.new.disk) log.old.end log.new.end (F.failed log.new.disk) }
    ensures width { length log.new.counts ≡ length log.old.counts }
    ensures later { F.failed log.old.disk ≤ F.failed log.new.disk }
    ensures said_later { K.faults sink.old ≤ K.faults sink.new }
    ensures keep_fault { IsErrOf result stop.KeepFault → Rose (F.failed log.old.disk) (F.failed log.new.disk) }
    ensures write_fault { IsErrOf result stop.WriteFault → Rose (K.faults sink.old) (K.faults sink.new) }
{
    let (text, due) = match answer_on_paper(rt, alloc, validator, sealer, member, line) {
        Ok(given) => given,
        Err(OutOfMemory) => return Err(Stop::OutOfMemory),
    };
    match keep_due(log, member, &due) {
        Ok(()) => {}
        Err(stop) => return Err(stop),
    }
    match say(sink, text.as_slice()) {
        Ok(()) => Ok(()),
        Err(stop) => Err(stop),
    }
}

/// Writes `bad request`.
fn say_bad<K: Sink>(sink: &mut K) -> Result<(), Stop>
    ensures ok { OnOk result (Appends (K.held sink.old) (K.held sink.new) (ended bad_request_text)) }
    ensures some { AppendsFront (K.held sink.old) (K.held sink.new) (ended bad_request_text) }
    ensures later { K.faults sink.old ≤ K.faults sink.new }
    ensures fault { IsErrOf result stop.WriteFault → Rose (K.faults sink.old) (K.faults sink.new) }
    ensures only { (IsErrOf result stop.ReadFault → ⊥) × (IsErrOf result stop.KeepFault → ⊥) }
{
    say(sink, b"bad request\n".as_slice())
}

/// Answers a line that is not a request: writes `bad request`.
#[tactic(auto, using(crate::proofs::Served::bad_served, crate::proofs::Served::bad_half_said, validator_core::proofs::Settling::keeps_same))]
fn serve_bad<S: Sealer, D: Keeper, K: Sink>(
    validator: &Validator,
    keeper: &D,
    sealer: &S,
    sink: &mut K,
) -> Result<(), Stop>
    ensures ok { OnOk result (IsServed (S.accepts sealer.now) None (K.held sink.old) (K.held sink.new) (D.lists keeper.now) (D.lists keeper.now) validator.now validator.now) }
    ensures cut { IfErr result (λ why. IsStoppedBy (S.accepts sealer.now) why None (K.held sink.old) (K.held sink.new) (D.lists keeper.now) (D.lists keeper.now) validator.now) }
    ensures said_later { K.faults sink.old ≤ K.faults sink.new }
    ensures write_fault { IsErrOf result stop.WriteFault → Rose (K.faults sink.old) (K.faults sink.new) }
    ensures only { IsErrOf result stop.KeepFault → ⊥ }
{
    match say_bad(sink) {
        Ok(()) => Ok(()),
        Err(stop) => Err(stop),
    }
}

/// Reads the next line, and answers it. Returns whether there was one.
#[tactic(auto, using(crate::proofs::Served::next_line, crate::proofs::Served::next_long, crate::proofs::Served::next_over, crate::proofs::Served::cut_long))]
fn serve_next<R: Threads + Sync, F: Disk, S: Sealer, I: Source, K: Sink>(
    rt: &R,
    alloc: Global,
    validator: &mut Validator,
    log: &mut DiskLog<F>,
    sealer: &S,
    member: u32,
    reader: &mut LineReader,
    source: &mut I,
    sink: &mut K,
) -> Result<bool, Stop>
    requires few { member ≤ 63 }
    requires member { validator.old.member ≡ member }
    requires up { validator.old.up ≡ true }
    requires width { length log.old.counts ≡ 65 }
    requires whole { IsWhole (F.history log.old.disk) log.old.end log.old.shut }
    ensures next { IfOk result (Next (S.accepts sealer.now) (around reader.old (I.left source.old) (K.held sink.old) (told_lists (F.history log.old.disk) log.old.end (length log.old.counts)) validator.old) (around reader.new (I.left source.new) (K.held sink.new) (told_lists (F.history log.new.disk) log.new.end (length log.new.counts)) validator.new)) }
    ensures cut { IfErr result (λ why. IsCutBy (S.accepts sealer.now) why (around reader.old (I.left source.old) (K.held sink.old) (told_lists (F.history log.old.disk) log.old.end (length log.old.counts)) validator.old) (around reader.new (I.left source.new) (K.held sink.new) (told_lists (F.history log.new.disk) log.new.end (length log.new.counts)) validator.new)) }
    ensures each { IfErr result (λ why. EachLeft (λ lists. IsCutBy (S.accepts sealer.now) why (around reader.old (I.left source.old) (K.held sink.old) (told_lists (F.history log.old.disk) log.old.end (length log.old.counts)) validator.old) (around reader.new (I.left source.new) (K.held sink.new) lists validator.new)) (length log.new.counts) (F.history log.new.disk)) }
    ensures whole { OnOk result (IsWhole (F.history log.new.disk) log.new.end log.new.shut) }
    ensures more { HasMore (F.history log.old.disk) (F.history log.new.disk) log.old.end log.new.end (F.failed log.new.disk) }
    ensures width { length log.new.counts ≡ length log.old.counts }
    ensures read_later { I.faults source.old ≤ I.faults source.new }
    ensures later { F.failed log.old.disk ≤ F.failed log.new.disk }
    ensures said_later { K.faults sink.old ≤ K.faults sink.new }
    ensures read_fault { IsErrOf result stop.ReadFault → Rose (I.faults source.old) (I.faults source.new) }
    ensures keep_fault { IsErrOf result stop.KeepFault → Rose (F.failed log.old.disk) (F.failed log.new.disk) }
    ensures write_fault { IsErrOf result stop.WriteFault → Rose (K.faults sink.old) (K.faults sink.new) }
{
    match reader.next(source) {
        Ok(Got::Line(line)) => {
            match serve_line(
                rt,
                alloc,
                validator,
                log,
                sealer,
                member,
                line.as_slice(),
                sink,
            ) {
                Ok(()) => Ok(true),
                Err(stop) => Err(stop),
            }
        }
        Ok(Got::TooLong) => match serve_bad(validator, log, sealer, sink) {
            Ok(()) => Ok(true),
            Err(stop) => Err(stop),
        },
        Ok(Got::End) => Ok(false),
        Err(fault) => Err(unread(fault)),
    }
}

/// Answers the requests of a source to its end. After 2^64 - 1 of them the process ends as if out of memory.
pub(crate) fn serve<R: Threads + Sync, F: Disk, S: Sealer, I: Source, K: Sink>(
    rt: &R,
    alloc: Global,
    validator: &mut Validator,
    log: &mut DiskLog<F>,
    sealer: &S,
    member: u32,
    reader: &mut LineReader,
    source: &mut I,
    sink: &mut K,
) -> Result<(), Stop>
    requires few { member ≤ 63 }
    requires member { validator.old.member ≡ member }
    requires up { validator.old.up ≡ true }
    requires new { reader.old ≡ [] }
    requires width { length log.old.counts ≡ 65 }
    requires whole { IsWhole (F.history log.old.disk) log.old.end log.old.shut }
    ensures all { OnOk result (ServesAll (S.accepts sealer.now) (around [] (I.left source.old) (K.held sink.old) (told_lists (F.history log.old.disk) log.old.end (length log.old.counts)) validator.old) (around reader.new (I.left source.new) (K.held sink.new) (told_lists (F.history log.new.disk) log.new.end (length log.new.counts)) validator.new)) }
    ensures cut { IfErr result (λ why. ServesSome (S.accepts sealer.now) why (around [] (I.left source.old) (K.held sink.old) (told_lists (F.history log.old.disk) log.old.end (length log.old.counts)) validator.old) (around reader.new (I.left source.new) (K.held sink.new) (told_lists (F.history log.new.disk) log.new.end (length log.new.counts)) validator.new)) }
    ensures each { IfErr result (λ why. EachLeft (λ lists. ServesSome (S.accepts sealer.now) why (around [] (I.left source.old) (K.held sink.old) (told_lists (F.history log.old.disk) log.old.end (length log.old.counts)) validator.old) (around reader.new (I.left source.new) (K.held sink.new) lists validator.new)) (length log.new.counts) (F.history log.new.disk)) }
    ensures whole { OnOk result (IsWhole (F.history log.new.disk) log.new.end log.new.shut) }
    ensures more { HasMore (F.history log.old.disk) (F.history log.new.disk) log.old.end log.new.end (F.failed log.new.disk) }
    ensures width { length log.new.counts ≡ length log.old.counts }
    ensures later { F.failed log.old.disk ≤ F.failed log.new.disk }
    ensures read_fault { IsErrOf result stop.ReadFault → Rose (I.faults source.old) (I.faults source.new) }
    ensures keep_fault { IsErrOf result stop.KeepFault → Rose (F.failed log.old.disk) (F.failed log.new.disk) }
    ensures write_fault { IsErrOf result stop.WriteFault → Rose (K.faults sink.old) (K.faults sink.new) }
{
    for _ in 0..u64::MAX {
        if !serve_next(
            rt, alloc, validator, log, sealer, member, reader, source, sink,
        )? {
            return Ok(());
        }
    }
    Err(Stop::OutOfMemory)
}
