//! Keeping the record that is due: it is appended to the log before a line is answered.

ghost use Rattle.std.specs.Prelude.{◌≡◌, ◌<◌, ◌≤◌, ◌^◌, ◌⊎◌, IfErr, IsErrOf, Ok, OnErr, OnOk, is_some, length, true};
ghost use Rattle.outside.specs.Causes.{Rose};
ghost use Rattle.outside.specs.Lists.{AddsRecord, KeepsJournals};
ghost use Rattle.disk_log.specs.Keeping.{told_lists};
ghost use Rattle.disk_log.specs.Running.{AddsExactly};
ghost use Rattle.validator_process.specs.declared.stop.Stop.TheVariants as stop;
ghost use Rattle.validator_process.specs.Growing.{AddsDue, EachLeft, HasMore, IsWhole, MayAddDue};
ghost use Rattle.validator_process.specs.Starting.{IsInside};

use crate::stop::{Stop, unkept};
use disk_log::{Disk, DiskLog};
use wire_bcs::Seq;

/// Appends a record of fewer than 2^31 bytes to a list.
fn append<F: Disk>(log: &mut DiskLog<F>, list: u32, bytes: &[u8]) -> Result<(), Stop>
    requires known { list < length log.old.counts }
    requires short { length bytes.now < 2 ^ 31 }
    requires whole { IsWhole (F.history log.old.disk) log.old.end log.old.shut }
    ensures adds { OnOk result (AddsRecord (told_lists (F.history log.old.disk) log.old.end (length log.old.counts)) (told_lists (F.history log.new.disk) log.new.end (length log.new.counts)) list bytes.now) }
    ensures exactly { OnOk result (AddsExactly (F.history log.old.disk) (F.history log.new.disk) log.old.end log.new.end (record { member = list; bytes = bytes.now }) (Ok tt)) }
    ensures keeps { OnErr result (KeepsJournals (told_lists (F.history log.old.disk) log.old.end (length log.old.counts)) (told_lists (F.history log.new.disk) log.new.end (length log.new.counts))) }
    ensures each { OnErr result (EachLeft (λ lists. AddsRecord (told_lists (F.history log.old.disk) log.old.end (length log.old.counts)) lists list bytes.now ⊎ KeepsJournals (told_lists (F.history log.old.disk) log.old.end (length log.old.counts)) lists) (length log.new.counts) (F.history log.new.disk)) }
    ensures whole { OnOk result (IsWhole (F.history log.new.disk) log.new.end log.new.shut) }
    ensures more { HasMore (F.history log.old.disk) (F.history log.new.disk) log.old.end log.new.end (F.failed log.new.disk) }
    ensures width { length log.new.counts ≡ length log.old.counts }
    ensures later { F.failed log.old.disk ≤ F.failed log.new.disk }
    ensures fault { IsErrOf result stop.KeepFault → Rose (F.failed log.old.disk) (F.failed log.new.disk) }
    ensures inside { IfErr result IsInside }
{
    let answer = log.append_record(list, bytes);
    unkept(answer)
}

/// Appends a record to a list. One of 2^31 bytes or more, and one for which the log has no room, count as running out of
/// memory. After a fault of the disk each file that is left has the record or not, and no other more.
#[tactic(auto, using(crate::proofs::Kept::each_whole))]
pub(crate) fn keep<F: Disk>(log: &mut DiskLog<F>, list: u32, bytes: &[u8]) -> Result<(), Stop>
    requires known { list < length log.old.counts }
    requires whole { IsWhole (F.history log.old.disk) log.old.end log.old.shut }
    ensures adds { OnOk result (AddsRecord (told_lists (F.history log.old.disk) log.old.end (length log.old.counts)) (told_lists (F.history log.new.disk) log.new.end (length log.new.counts)) list bytes.now) }
    ensures exactly { OnOk result (AddsExactly (F.history log.old.disk) (F.history log.new.disk) log.old.end log.new.end (record { member = list; bytes = bytes.now }) (Ok tt)) }
    ensures keeps { OnErr result (KeepsJournals (told_lists (F.history log.old.disk) log.old.end (length log.old.counts)) (told_lists (F.history log.new.disk) log.new.end (length log.new.counts))) }
    ensures each { OnErr result (EachLeft (λ lists. AddsRecord (told_lists (F.history log.old.disk) log.old.end (length log.old.counts)) lists list bytes.now ⊎ KeepsJournals (told_lists (F.history log.old.disk) log.old.end (length log.old.counts)) lists) (length log.new.counts) (F.history log.new.disk)) }
    ensures whole { OnOk result (IsWhole (F.history log.new.disk) log.new.end log.new.shut) }
    ensures more { HasMore (F.history log.old.disk) (F.history log.new.disk) log.old.end log.new.end (F.failed log.new.disk) }
    ensures width { length log.new.counts ≡ length log.old.counts }
    ensures later { F.failed log.old.disk ≤ F.failed log.new.disk }
    ensures fault { IsErrOf result stop.KeepFault → Rose (F.failed log.old.disk) (F.failed log.new.disk) }
    ensures inside { IfErr result IsInside }
{
    if bytes.len() >= 1 << 31 {
        return Err(Stop::OutOfMemory);
    }
    append(log, list, bytes)
}

/// Appends the record that is due, if one is. A fault of the disk comes only if one is.
#[tactic(auto, using(crate::proofs::Kept::each_whole, validator_core::proofs::Settling::keeps_same))]
pub(crate) fn keep_due<F: Disk>(
    log: &mut DiskLog<F>,
    list: u32,
    due: &Option<Seq<u8>>,
) -> Result<(), Stop>
    requires known { list < length log.old.counts }
    requires whole { IsWhole (F.history log.old.disk) log.old.end log.old.shut }
    ensures adds { OnOk result (AddsDue (told_lists (F.history log.old.disk) log.old.end (length log.old.counts)) (told_lists (F.history log.new.disk) log.new.end (length log.new.counts)) list due.now) }
    ensures keeps { OnErr result (KeepsJournals (told_lists (F.history log.old.disk) log.old.end (length log.old.counts)) (told_lists (F.history log.new.disk) log.new.end (length log.new.counts))) }
    ensures each { OnErr result (EachLeft (λ lists. MayAddDue (told_lists (F.history log.old.disk) log.old.end (length log.old.counts)) lists list due.now) (length log.new.counts) (F.history log.new.disk)) }
    ensures whole { OnOk result (IsWhole (F.history log.new.disk) log.new.end log.new.shut) }
    ensures more { HasMore (F.history log.old.disk) (F.history log.new.disk) log.old.end log.new.end (F.failed log.new.disk) }
    ensures width { length log.new.counts ≡ length log.old.counts }
    ensures later { F.failed log.old.disk ≤ F.failed log.new.disk }
    ensures fault { IsErrOf result stop.KeepFault → Rose (F.failed log.old.disk) (F.failed log.new.disk) }
    ensures owed { IsErrOf result stop.KeepFault → is_some due.now ≡ true }
    ensures inside { IfErr result IsInside }
{
    match due {
        Some(bytes) => keep(log, list, bytes.as_slice()),
        None => Ok(()),
    }
}
