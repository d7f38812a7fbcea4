//! Why a log did not do its work.

ghost use Rattle.std.specs.Prelude.{◌≡◌};
ghost use Rattle.disk_log.specs.declared.refusals.OpenRefusal.TheVariants as refused;

use std::{error, fmt};
use wire_bcs::OutOfMemory;

/// Why a log could not be opened.
#[derive(Clone, Copy, Debug, PartialEq, Eq)]
pub enum OpenRefusal {
    /// The disk did not do its work, and its count of faults rose.
    DiskFault,
    /// The record whose gate stands at `at` counts, and its member is none of the log's.
    BadMember { at: u64 },
    OutOfMemory,
}

impl From<OutOfMemory> for OpenRefusal {
    ghost from_gives = { λ _ given. given ≡ refused.OutOfMemory };

    fn from(_refusal: OutOfMemory) -> Self {
        OpenRefusal::OutOfMemory
    }
}

/// Why a record was not acknowledged.
#[derive(Clone, Copy, Debug, PartialEq, Eq)]
pub enum LogRefusal {
    /// An earlier append met a fault of the disk: open the file again.
    Shut,
    /// The record and the gate after it would end at 2^63 or more.
    Full,
    OutOfMemory,
    /// The disk did not do its work, and its count of faults rose. The record stands or does not.
    DiskFault,
}

impl fmt::Display for OpenRefusal {
    fn fmt<W: fmt::Write>(&self, f: &mut fmt::Formatter<W>) -> fmt::Result {
        match *self {
            OpenRefusal::DiskFault => f.write_str("the disk did not do its work"),
            OpenRefusal::BadMember { at } => write!(
                f,
                "the record at offset {at} is of a member that the log does not have"
            ),
            OpenRefusal::OutOfMemory => write!(f, "{OutOfMemory}"),
        }
    }
}

impl fmt::Display for LogRefusal {
    fn fmt<W: fmt::Write>(&self, f: &mut fmt::Formatter<W>) -> fmt::Result {
        match *self {
            LogRefusal::Shut => {
                f.write_str("the disk failed at an earlier record: open the log again")
            }
            LogRefusal::Full => f.write_str("the log would end at 2^63 or more"),
            LogRefusal::OutOfMemory => write!(f, "{OutOfMemory}"),
            LogRefusal::DiskFault => f.write_str("the disk did not do its work"),
        }
    }
}

impl error::Error for OpenRefusal {}

impl error::Error for LogRefusal {}
