//! Journals in memory and over a disk.

ghost use Rattle.std.specs.Prelude.{◌≡◌, ◌∷◌, [], IfErr, IfOk, Some, false};
ghost use Rattle.disk_log.specs.Keeping.{NotOpened, Opened};
ghost use Rattle.disk_log.specs.Log.{WalkCause};
ghost use Rattle.sui_validator.specs.Journals.{first_of};

use crate::disk_journal::DiskJournal;
use crate::journal::FirstList;
use disk_log::{Disk, DiskLog, OpenRefusal};
use outside::MemKeeper;
use std::alloc::Global;
use wire_bcs::OutOfMemory;

/// A journal in memory: its records go with it.
pub type MemJournal = FirstList<MemKeeper>;

/// An empty journal in memory, over a keeper that fails at no call.
pub fn journal_in_memory(alloc: Global) -> Result<MemJournal, OutOfMemory>
    ensures made { IfOk result (λ j. j ≡ record { lists = [] ∷ []; turns = record { calls = 0; failing = [] }; faults = 0 }) }
    ensures empty { IfOk result (λ j. first_of (Some j.lists) ≡ Some []) }
{
    let keeper = MemKeeper::new(alloc, 1, &[])?;
    Ok(FirstList::over(keeper))
}

/// The journal that a disk has, with the records that count in it; a refusal hands the disk back.
pub fn journal_over_disk<K: Disk>(
    alloc: Global,
    disk: K,
) -> Result<DiskJournal<K>, (K, OpenRefusal)>
    ensures opened { IfOk result (λ log. Opened (K.history disk) (K.history log.disk) log.end 1) }
    ensures not_opened { IfErr result (λ e. NotOpened (K.history disk) (K.history e.0)) }
    ensures cause { IfErr result (λ e. WalkCause (K.failed disk) (K.failed e.0) (K.history disk) 1 e.1) }
{
    match DiskLog::open(alloc, disk, 1) {
        Ok(log) => Ok(DiskJournal {
            list: FirstList::over(log),
        }),
        Err(refusal) => Err(refusal),
    }
}
