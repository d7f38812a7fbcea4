//! Opening a journal.

ghost use Rattle.std.specs.Prelude.{◌≡◌, ◌≤◌, IfErr, IfOk, length};
ghost use Rattle.disk_log.specs.Keeping.{told_lists};
ghost use Rattle.disk_log.specs.Running.{Unchanged};
ghost use Rattle.validator_process.specs.Ending.{IsUnopenedBy, kept_in};
ghost use Rattle.validator_process.specs.Growing.{IsWhole, counted_in, records_in};

use crate::identity::LISTS;
use crate::stop::Stop;
use disk_log::{Disk, DiskLog, OpenRefusal};
use std::alloc::Global;

/// Why a journal was not opened.
#[derive(Clone, Copy, Debug, PartialEq, Eq)]
pub(crate) enum Unopened {
    /// A record that counts is of no list of a journal.
    BadList,
    Stopped(Stop),
}

/// Opens the log of a journal. A refusal hands the disk back.
#[tactic(auto, using(crate::proofs::Growing::records_opened, crate::proofs::Kept::whole_opened, disk_log::proofs::Running::lists_opened, disk_log::proofs::Running::unchanged_refused, crate::proofs::Ended::unopened_fault, crate::proofs::Ended::unopened_memory, crate::proofs::Ended::unopened_bad))]
pub(crate) fn open_journal<F: Disk>(alloc: Global, disk: F) -> Result<DiskLog<F>, (F, Unopened)>
    ensures width { IfOk result (λ log. length log.counts ≡ 65) }
    ensures lists { IfOk result (λ log. told_lists (F.history log.disk) log.end (length log.counts) ≡ kept_in (F.history disk)) }
    ensures records { IfOk result (λ log. records_in (F.history log.disk) log.end ≡ counted_in (F.history disk)) }
    ensures whole { IfOk result (λ log. IsWhole (F.history log.disk) log.end log.shut) }
    ensures later { IfOk result (λ log. F.failed disk ≤ F.failed log.disk) }
    ensures stays { IfErr result (λ e. Unchanged (F.history disk) (F.history e.0)) }
    ensures cause { IfErr result (λ e. IsUnopenedBy e.1 (F.history disk) (F.failed disk) (F.failed e.0)) }
{
    match DiskLog::open(alloc, disk, LISTS) {
        Ok(log) => Ok(log),
        Err((disk, OpenRefusal::DiskFault)) => Err((disk, Unopened::Stopped(Stop::KeepFault))),
        Err((disk, OpenRefusal::BadMember { .. })) => Err((disk, Unopened::BadList)),
        Err((disk, OpenRefusal::OutOfMemory)) => Err((disk, Unopened::Stopped(Stop::OutOfMemory))),
    }
}
