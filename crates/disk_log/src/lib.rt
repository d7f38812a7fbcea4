//! The journal file: records of all members in one file that survives a crash at any moment.
//!
//! A [`Disk`] is a file as the journal sees it. Its model shows each moment so far, and of a moment
//! what a crash may leave: any bytes in what was written or tried since the last sync. [`MemDisk`]
//! is one in memory, which shows all of it and can be crashed.
//!
//! The file is a list of records, each after a gate byte: the gate, the length of the record's
//! bytes (4 bytes, the lowest first), the member (the same), and the bytes. After each record
//! stands the next gate. A record counts if its gate is 1, all before it count, and it lies in
//! the file with the next gate. [`DiskLog`] puts a record after a gate that is not open on the
//! disk, with the next gate closed, and opens the gate once all of that is on the disk. So a crash
//! at any moment leaves the acknowledged records, with the one in progress or without it. [`RunLog`] is
//! the log as a run of the program keeps its records in it.
#![tactic(auto)]

mod crash;
mod disk;
mod index;
mod keeping;
mod log;
mod mem_disk;
mod mend;
mod moment;
mod present;
mod put;
mod record;
mod refusals;
mod run_log;
mod walk;

pub use disk::Disk;
pub use log::DiskLog;
pub use mem_disk::{Change, MemDisk};
pub use moment::{Moment, Span};
pub use refusals::{LogRefusal, OpenRefusal};
pub use run_log::RunLog;
