//! Making a journal, the task `init`: appending the first record, which says of which member and set-up the journal
//! is.

ghost use Rattle.std.specs.Prelude.{◌≡◌, ◌⊎◌, ◌≤◌, IfErr, IfOk, IsErrOf, OnErr, OnOk, length, true};
ghost use Rattle.outside.specs.Causes.{Rose};
ghost use Rattle.outside.specs.Lists.{KeepsJournals};
ghost use Rattle.disk_log.specs.Disk.{IfTold};
ghost use Rattle.disk_log.specs.Keeping.{told_lists};
ghost use Rattle.disk_log.specs.Running.{IsEmptyTo};
ghost use Rattle.process_lines.specs.declared.starts.StartLine.TheVariants as start;
ghost use Rattle.world_core.specs.Trusts.{trust_by};
ghost use Rattle.validator_process.specs.declared.stop.Stop.TheVariants as stop;
ghost use Rattle.validator_process.specs.Ending.{AddsIdentity, AreFresh, EndsLists, EndsMade, EndsMaking, HasIdentity};
ghost use Rattle.validator_process.specs.Growing.{EachLeft, HasMore, IsWhole};
ghost use Rattle.validator_process.specs.Identity.{genesis_digest};
ghost use Rattle.validator_process.specs.Starting.{IsInside};

use crate::identity::{HEAD_SIZE, IDENTITY_LIST, genesis_digest, identity_of};
use crate::journal::open_journal;
use crate::keeping::keep;
use crate::reading::open_world;
use crate::starting::{say_ended, say_unopened, say_unstarted};
use crate::stop::Stop;
use disk_log::{Disk, DiskLog};
use outside::Sink;
use process_lines::StartLine;
use std::alloc::Global;
use wire_bcs::OutOfMemory;
use world_lines::MakesSeals;

/// Appends the first record.
#[tactic(auto, using(validator_core::proofs::Settling::keeps_same))]
fn keep_identity<F: Disk>(
    alloc: Global,
    log: &mut DiskLog<F>,
    member: u32,
    text: &[u8],
) -> Result<StartLine, Stop>
    requires width { length log.old.counts ≡ 65 }
    requires whole { IsWhole (F.history log.old.disk) log.old.end log.old.shut }
    requires empty { IfTold (F.history log.old.disk) (IsEmptyTo log.old.end true) }
    ensures made { IfOk result (λ line. line ≡ start.Made member (genesis_digest text.now)) }
    ensures adds { OnOk result (AddsIdentity member text.now (told_lists (F.history log.old.disk) log.old.end (length log.old.counts)) (told_lists (F.history log.new.disk) log.new.end (length log.new.counts))) }
    ensures keeps { OnErr result (KeepsJournals (told_lists (F.history log.old.disk) log.old.end (length log.old.counts)) (told_lists (F.history log.new.disk) log.new.end (length log.new.counts))) }
    ensures each { OnErr result (EachLeft (λ lists. AddsIdentity member text.now (told_lists (F.history log.old.disk) log.old.end (length log.old.counts)) lists ⊎ KeepsJournals (told_lists (F.history log.old.disk) log.old.end (length log.old.counts)) lists) (length log.new.counts) (F.history log.new.disk)) }
    ensures whole { OnOk result (IsWhole (F.history log.new.disk) log.new.end log.new.shut) }
    ensures more { HasMore (F.history log.old.disk) (F.history log.new.disk) log.old.end log.new.end (F.failed log.new.disk) }
    ensures inside { IfErr result IsInside }
    ensures width { length log.new.counts ≡ 65 }
    ensures later { F.failed log.old.disk ≤ F.failed log.new.disk }
    ensures fault { IsErrOf result stop.KeepFault → Rose (F.failed log.old.disk) (F.failed log.new.disk) }
    ensures alone { OnOk result (HasIdentity member text.now (F.history log.new.disk)) }
{
    let genesis = genesis_digest(text);
    let bytes = match identity_of(alloc, member, &genesis) {
        Ok(bytes) => bytes,
        Err(OutOfMemory) => return Err(Stop::OutOfMemory),
    };
    match keep(log, IDENTITY_LIST, bytes.as_slice()) {
        Ok(()) => Ok(StartLine::Made { member, genesis }),
        Err(stop) => Err(stop),
    }
}

/// Appends the first record to a log that has none, and says so. Answers the status.
#[tactic(auto, using(crate::proofs::Made::made, crate::proofs::Made::unmade_same, crate::proofs::Made::made_alone, crate::proofs::Made::unmade_alone))]
fn make_first<F: Disk, K: Sink>(
    alloc: Global,
    log: &mut DiskLog<F>,
    member: u32,
    text: &[u8],
    sink: &mut K,
) -> u8
    requires width { length log.old.counts ≡ 65 }
    requires whole { IsWhole (F.history log.old.disk) log.old.end log.old.shut }
    requires fresh { AreFresh (told_lists (F.history log.old.disk) log.old.end (length log.old.counts)) }
    requires empty { IfTold (F.history log.old.disk) (IsEmptyTo log.old.end true) }
    ensures ends { EndsLists member text.now (K.held sink.old) (K.held sink.new) (told_lists (F.history log.old.disk) log.old.end (length log.old.counts)) (told_lists (F.history log.new.disk) log.new.end (length log.new.counts)) (K.faults sink.old) (K.faults sink.new) (F.failed log.old.disk) (F.failed log.new.disk) result }
    ensures each { EachLeft (λ lists. EndsLists member text.now (K.held sink.old) (K.held sink.new) (told_lists (F.history log.old.disk) log.old.end (length log.old.counts)) lists (K.faults sink.old) (K.faults sink.new) (F.failed log.old.disk) (F.failed log.new.disk) result) (length log.new.counts) (F.history log.new.disk) }
    ensures more { HasMore (F.history log.old.disk) (F.history log.new.disk) log.old.end log.new.end (F.failed log.new.disk) }
    ensures width { length log.new.counts ≡ 65 }
    ensures alone { result ≡ 0 → HasIdentity member text.now (F.history log.new.disk) }
{
    match keep_identity(alloc, log, member, text) {
        Ok(start) => say_ended(alloc, &start, sink),
        Err(stop) => stop.status(),
    }
}

/// Appends the first record to a log that has none. Answers the status.
#[tactic(auto, using(crate::proofs::Made::no_lists, crate::proofs::Made::full, crate::proofs::Made::still_empty, crate::proofs::Made::full_alone))]
fn make_over<F: Disk, K: Sink>(
    alloc: Global,
    log: &mut DiskLog<F>,
    member: u32,
    text: &[u8],
    sink: &mut K,
) -> u8
    requires width { length log.old.counts ≡ 65 }
    requires whole { IsWhole (F.history log.old.disk) log.old.end log.old.shut }
    ensures ends { EndsLists member text.now (K.held sink.old) (K.held sink.new) (told_lists (F.history log.old.disk) log.old.end (length log.old.counts)) (told_lists (F.history log.new.disk) log.new.end (length log.new.counts)) (K.faults sink.old) (K.faults sink.new) (F.failed log.old.disk) (F.failed log.new.disk) result }
    ensures each { EachLeft (λ lists. EndsLists member text.now (K.held sink.old) (K.held sink.new) (told_lists (F.history log.old.disk) log.old.end (length log.old.counts)) lists (K.faults sink.old) (K.faults sink.new) (F.failed log.old.disk) (F.failed log.new.disk) result) (length log.new.counts) (F.history log.new.disk) }
    ensures more { HasMore (F.history log.old.disk) (F.history log.new.disk) log.old.end log.new.end (F.failed log.new.disk) }
    ensures width { length log.new.counts ≡ 65 }
    ensures alone { result ≡ 0 → HasIdentity member text.now (F.history log.new.disk) }
{
    if log.is_empty() {
        return make_first(alloc, log, member, text, sink);
    }
    say_ended(alloc, &StartLine::NotEmpty, sink)
}

/// Makes the journal on a disk that has no more than an interrupted making leaves. Gives the disk back.
#[tactic(auto, using(crate::proofs::Made::unmaking))]
fn make_journal<F: Disk, K: Sink>(
    alloc: Global,
    disk: F,
    member: u32,
    text: &[u8],
    sink: &mut K,
) -> (u8, F)
    ensures { EndsMaking member text.now (F.history disk) (F.history result.1) (K.held sink.old) (K.held sink.new) (K.faults sink.old) (K.faults sink.new) (F.failed disk) (F.failed result.1) result.0 }
{
    match open_journal(alloc, disk) {
        Ok(log) => {
            let mut log = log;
            let status = make_over(alloc, &mut log, member, text, sink);
            (status, log.into_disk())
        }
        Err((disk, why)) => (say_unopened(alloc, why, sink), disk),
    }
}

/// Makes the journal of the member of the set-up that the text is. A disk that has more bytes than an interrupted making
/// leaves is refused, and nothing is written to it. Gives the disk back.
#[tactic(auto, using(crate::proofs::Made::no_setup, crate::proofs::Made::too_long, crate::proofs::Made::made_for))]
pub(crate) fn make_text<F: Disk, S: MakesSeals, K: Sink>(
    alloc: Global,
    text: &[u8],
    disk: F,
    member: u32,
    sealer: &S,
    sink: &mut K,
) -> (u8, F)
    ensures { EndsMade (trust_by (S.made sealer.now) (S.accepts sealer.now)) member text.now (F.history disk) (F.history result.1) (K.held sink.old) (K.held sink.new) (K.faults sink.old) (K.faults sink.new) (F.failed disk) (F.failed result.1) result.0 }
{
    match open_world(alloc, text, member, sealer) {
        Ok(world) => drop(world),
        Err(why) => return (say_unstarted(alloc, why, sink), disk),
    }
    if disk.size() > HEAD_SIZE + 1 {
        return (say_ended(alloc, &StartLine::NotEmpty, sink), disk);
    }
    make_journal(alloc, disk, member, text, sink)
}
