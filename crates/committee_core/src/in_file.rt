//! The program over a journal file.

ghost use Rattle.std.specs.Prelude.{◌≡◌, ◌⊎◌, ◌≤◌, None, IfOk, IsErrOf, OnOk, length, map};
ghost use Rattle.std.specs.String.{string_bytes};
ghost use Rattle.std.specs.Io.KnownBytes.{Appends, Keeps};
ghost use Rattle.outside.specs.Causes.{Rose};
ghost use Rattle.outside.specs.declared.faults.OutFault.TheVariants as out_fault;
ghost use Rattle.disk_log.specs.Keeping.{told_lists};
ghost use Rattle.disk_log.specs.declared.refusals.OpenRefusal.TheVariants as open_refusal;
ghost use Rattle.committee_core.specs.Calling.{IsCalling};
ghost use Rattle.committee_core.specs.Endings.{BeginsEmpty};
ghost use Rattle.committee_core.specs.InFile.{EndsInFile, EndsOver, EndsOverLog, IsBadMember, bad_member_text, kept_in, not_empty_text};
ghost use Rattle.committee_core.specs.Outside.{outside};
ghost use Rattle.outside.specs.Streams.{AppendsFront};
ghost use Rattle.command_words.specs.Words.{command_in};

use crate::call_log::{CallLog, Opening};
use crate::keeping::MOST_MEMBERS;
use crate::saying::text_with_number;
use crate::status::{KEEP_FAULT, NEGATIVE, OUT_OF_MEMORY, WRITE_FAULT};
use crate::top::committee;
use command_words::names_replay;
use disk_log::{Disk, DiskLog, OpenRefusal};
use outside::{OutFault, Sink, Source, write_all};
use std::alloc::Global;
use std::marker::Brand;
use std::sync::Wait;
use std::thread::Threads;
use wire_bcs::{OutOfMemory, Seq};

/// `journal: bad member at A`
fn bad_member_line(alloc: Global, at: u64) -> Result<Seq<u8>, OutOfMemory>
    ensures { IfOk result (λ text. text ≡ bad_member_text at) }
{
    text_with_number(
        alloc,
        b"journal: bad member at ".as_slice(),
        at,
        b"\n".as_slice(),
    )
}

/// Writes `journal: bad member at A`.
fn write_bad_member<K: Sink>(alloc: Global, at: u64, sink: &mut K) -> Result<(), OutFault>
    ensures ok { OnOk result (Appends (K.held sink.old) (K.held sink.new) (bad_member_text at)) }
    ensures some { AppendsFront (K.held sink.old) (K.held sink.new) (bad_member_text at) }
    ensures later { K.faults sink.old ≤ K.faults sink.new }
    ensures fault { IsErrOf result out_fault.Failed → Rose (K.faults sink.old) (K.faults sink.new) }
{
    let text = bad_member_line(alloc, at)?;
    write_all(sink, text.as_slice())
}

/// Writes `journal: not empty`. Takes no memory of its own.
fn write_not_empty<K: Sink>(sink: &mut K) -> Result<(), OutFault>
    ensures ok { OnOk result (Appends (K.held sink.old) (K.held sink.new) not_empty_text) }
    ensures some { AppendsFront (K.held sink.old) (K.held sink.new) not_empty_text }
    ensures later { K.faults sink.old ≤ K.faults sink.new }
    ensures fault { IsErrOf result out_fault.Failed → Rose (K.faults sink.old) (K.faults sink.new) }
{
    write_all(sink, b"journal: not empty\n".as_slice())
}

/// Writes why a log was not opened, if a bad record is the reason. Answers the status.
fn say_unopened<K: Sink>(alloc: Global, refusal: OpenRefusal, sink: &mut K) -> u8
    ensures known { (result ≡ 5) ⊎ (result ≡ 6) ⊎ (result ≡ 7) ⊎ (result ≡ 8) }
    ensures refused { result ≡ 8 → IsBadMember refusal (λ at. Appends (K.held sink.old) (K.held sink.new) (bad_member_text at)) }
    ensures write_fault { result ≡ 5 → Rose (K.faults sink.old) (K.faults sink.new) }
    ensures disk_fault { result ≡ 6 → (refusal ≡ open_refusal.DiskFault) × Keeps (K.held sink.old) (K.held sink.new) }
    ensures cut { (result ≡ 5) ⊎ (result ≡ 7) → Keeps (K.held sink.old) (K.held sink.new) ⊎ IsBadMember refusal (λ at. AppendsFront (K.held sink.old) (K.held sink.new) (bad_member_text at)) }
{
    match refusal {
        OpenRefusal::DiskFault => KEEP_FAULT,
        OpenRefusal::OutOfMemory => OUT_OF_MEMORY,
        OpenRefusal::BadMember { at } => match write_bad_member(alloc, at, sink) {
            Ok(()) => NEGATIVE,
            Err(OutFault::Failed) => WRITE_FAULT,
            Err(OutFault::OutOfMemory) => OUT_OF_MEMORY,
        },
    }
}

/// Ends the program after a log that was not opened: gives the status, and the disk back.
fn unopened<K: Sink, F: Disk>(alloc: Global, refused: (F, OpenRefusal), sink: &mut K) -> (u8, F)
    ensures disk { result.1 ≡ refused.0 }
    ensures known { (result.0 ≡ 5) ⊎ (result.0 ≡ 6) ⊎ (result.0 ≡ 7) ⊎ (result.0 ≡ 8) }
    ensures refused { result.0 ≡ 8 → IsBadMember refused.1 (λ at. Appends (K.held sink.old) (K.held sink.new) (bad_member_text at)) }
    ensures write_fault { result.0 ≡ 5 → Rose (K.faults sink.old) (K.faults sink.new) }
    ensures disk_fault { result.0 ≡ 6 → (refused.1 ≡ open_refusal.DiskFault) × Keeps (K.held sink.old) (K.held sink.new) }
    ensures cut { (result.0 ≡ 5) ⊎ (result.0 ≡ 7) → Keeps (K.held sink.old) (K.held sink.new) ⊎ IsBadMember refused.1 (λ at. AppendsFront (K.held sink.old) (K.held sink.new) (bad_member_text at)) }
{
    let (disk, refusal) = refused;
    let status = say_unopened(alloc, refusal, sink);
    (status, disk)
}

/// Writes the line that the journal is not empty. Answers the status.
fn say_not_empty<K: Sink>(sink: &mut K) -> u8
    ensures known { (result ≡ 5) ⊎ (result ≡ 7) ⊎ (result ≡ 8) }
    ensures refused { result ≡ 8 → Appends (K.held sink.old) (K.held sink.new) not_empty_text }
    ensures write_fault { result ≡ 5 → Rose (K.faults sink.old) (K.faults sink.new) }
    ensures cut { (result ≡ 5) ⊎ (result ≡ 7) → AppendsFront (K.held sink.old) (K.held sink.new) not_empty_text }
{
    match write_not_empty(sink) {
        Ok(()) => NEGATIVE,
        Err(OutFault::Failed) => WRITE_FAULT,
        Err(OutFault::OutOfMemory) => OUT_OF_MEMORY,
    }
}

/// Runs the program with an open log as its keeper. Gives the status, and the disk back.
fn obey_over<R: Threads + Wait + Sync, S: Source, K: Sink, F: Disk, O: Opening>(
    rt: &R,
    alloc: Global,
    words: &[String],
    source: &mut S,
    sink: &mut K,
    log: DiskLog<F>,
) -> (u8, F)
    requires opened { F.failed log.disk ≡ O.faults }
    requires begun { told_lists (F.history log.disk) log.end (length log.counts) ≡ O.begun }
    requires calling { IsCalling O.faults O.begun (F.history log.disk) (F.failed log.disk) log.end log.counts None }
    requires empty { BeginsEmpty (command_in (map string_bytes words.now)) (told_lists (F.history log.disk) log.end (length log.counts)) }
    ensures { EndsOver (command_in (map string_bytes words.now)) (F.history result.1) (outside (S.left source.old) (S.faults source.old) (K.held sink.old) (K.faults sink.old) (told_lists (F.history log.disk) log.end (length log.counts)) (F.failed log.disk)) (outside (S.left source.new) (S.faults source.new) (K.held sink.new) (K.faults sink.new) (kept_in (F.history result.1)) (F.failed result.1)) result.0 }
{
    let mut log: CallLog<F, O> = CallLog::new(alloc, log);
    let status = committee(rt, alloc, words, source, sink, &mut log);
    (status, log.into_disk())
}

/// Runs the program with an open log as its keeper, unless the log has records and the words are not a `replay`. Gives
/// the status, and the disk back.
#[tactic(auto, using(crate::proofs::InFiles::begins_replay, crate::proofs::InFiles::begins_where_empty, crate::proofs::InFiles::no_records, crate::proofs::InFiles::some_records))]
fn over_log<R: Threads + Wait + Sync, S: Source, K: Sink, F: Disk>(
    rt: &R,
    alloc: Global,
    words: &[String],
    source: &mut S,
    sink: &mut K,
    log: DiskLog<F>,
) -> (u8, F)
    requires calling { IsCalling (F.failed log.disk) (told_lists (F.history log.disk) log.end (length log.counts)) (F.history log.disk) (F.failed log.disk) log.end log.counts None }
    ensures { EndsOverLog (map string_bytes words.now) (F.history log.disk) (F.history result.1) log.end (outside (S.left source.old) (S.faults source.old) (K.held sink.old) (K.faults sink.old) (told_lists (F.history log.disk) log.end (length log.counts)) (F.failed log.disk)) (outside (S.left source.new) (S.faults source.new) (K.held sink.new) (K.faults sink.new) (kept_in (F.history result.1)) (F.failed result.1)) result.0 }
{
    if names_replay(words) {
        return obey_over::<R, S, K, F, Brand>(rt, alloc, words, source, sink, log);
    }
    if log.is_empty() {
        return obey_over::<R, S, K, F, Brand>(rt, alloc, words, source, sink, log);
    }
    let status = say_not_empty(sink);
    (status, log.into_disk())
}

/// Runs the program over a journal file: opens a log of 64 members over the disk, and does what the
/// words say with the log as the keeper, as [`committee`] does over any. Gives the disk back, and
/// the status.
///
/// | Status | Comes | Written, kept |
/// |---|---|---|
/// | 8 | only if a record that counts is of no member below 64, and the line was written | `journal: bad member at A`, the place of the first such record's gate |
/// | 8 | else only if a record counts, and the first word is not `replay`, and the line was written | `journal: not empty` |
/// | 5, 7 | only if the sink's count of faults rose, or if out of memory | a prefix of such a line |
/// | 6 | only if the disk's count of faults rose in the opening | nothing |
///
/// With these, the records that count are those of before. With any other end, the status is that of [`committee`], and
/// all that its clauses say of the keeper's lists and its count of faults holds of the lists of the records that count
/// and of the disk's count. So 6 comes only if the disk's count of faults rose, or a record read back is bad; a log
/// that has no room answers 7. The file then holds those records; only if that count rose in this call, it may hold one
/// more. Whichever it holds, the command may have ended in this way with that file: after a run that broke off, each of
/// its lists is a prefix of its member's journal, so the one more is the record that was due then.
#[tactic(auto, using(crate::proofs::Calling::calling_opened))]
pub fn committee_in<R: Threads + Wait + Sync, S: Source, K: Sink, F: Disk>(
    rt: &R,
    alloc: Global,
    words: &[String],
    source: &mut S,
    sink: &mut K,
    disk: F,
) -> (u8, F)
    ensures { EndsInFile (map string_bytes words.now) (F.history disk) (F.history result.1) (outside (S.left source.old) (S.faults source.old) (K.held sink.old) (K.faults sink.old) (kept_in (F.history disk)) (F.failed disk)) (outside (S.left source.new) (S.faults source.new) (K.held sink.new) (K.faults sink.new) (kept_in (F.history result.1)) (F.failed result.1)) result.0 }
{
    match DiskLog::open(alloc, disk, MOST_MEMBERS) {
        Ok(log) => over_log(rt, alloc, words, source, sink, log),
        Err(refused) => unopened(alloc, refused, sink),
    }
}
