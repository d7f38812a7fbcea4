//! A journal over a disk.

ghost use Rattle.std.specs.Prelude.{◌≡◌, ◌<◌, length, slice_index};
ghost use Rattle.disk_log.specs.Keeping.{told_lists};
ghost use Rattle.sui_validator.specs.Journals.{first_of};

use crate::journal::{FirstList, Journal};
use disk_log::{Disk, DiskLog};
use outside::OutFault;
use std::marker::Model;
use wire_bcs::Seq;

/// A journal over a disk: its records survive a crash at any moment (`disk_log`). Contracts see the log. It may be dropped
/// at any moment if its disk may.
pub struct DiskJournal<K: Disk> {
    pub(crate) list: FirstList<DiskLog<K>>,
}

impl<K: Disk> Model for DiskJournal<K> {
    ghost use Rattle.disk_log.specs.Keeping.{LogState};

    ghost Value = { LogState K };

    ghost view = { λ j. j.list };
}

impl<K: Disk> DiskJournal<K> {
    /// Ends the journal, and gives back its disk, which holds the records. Takes no memory.
    pub fn into_disk(self) -> K
        ensures { result ≡ self.disk }
    {
        let DiskJournal { list } = self;
        list.into_keeper().into_disk()
    }
}

impl<K: Disk + Drop> Drop for DiskJournal<K> {
    fn drop(self) {
        drop(self.into_disk());
    }
}

impl<K: Disk> Journal for DiskJournal<K> {
    ghost records = { λ j. first_of (told_lists (K.history j.disk) j.end (length j.counts)) };

    ghost size = { λ j. slice_index j.counts 0 };

    ghost failed = { λ j. j.faults };

    fn append(&mut self, bytes: &[u8]) -> Result<(), OutFault> {
        self.list.append(bytes)
    }

    fn count(&self) -> u64 {
        self.list.count()
    }

    fn faults(&self) -> u64 {
        self.list.faults()
    }

    fn read(&mut self, place: u64) -> Result<Seq<u8>, OutFault> {
        self.list.read(place)
    }
}
