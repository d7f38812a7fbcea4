//! The answers of a call that did not do its work.

ghost use Rattle.std.specs.Prelude.{◌≡◌};
ghost use Rattle.outside.specs.declared.faults.OutFault.TheVariants as fault;

use std::{error, fmt};
use wire_bcs::OutOfMemory;

/// The outside did not do it, and the object's count of faults rose.
#[derive(Clone, Copy, Debug, PartialEq, Eq)]
pub struct Failed;

/// Why a call that takes memory did not do its work.
#[derive(Clone, Copy, Debug, PartialEq, Eq)]
pub enum OutFault {
    /// The outside did not do it, and the object's count of faults rose.
    Failed,
    OutOfMemory,
}

impl fmt::Display for Failed {
    fn fmt<W: fmt::Write>(&self, f: &mut fmt::Formatter<W>) -> fmt::Result {
        f.write_str("bytes could not be read or written")
    }
}

impl fmt::Display for OutFault {
    fn fmt<W: fmt::Write>(&self, f: &mut fmt::Formatter<W>) -> fmt::Result {
        match *self {
            OutFault::Failed => write!(f, "{Failed}"),
            OutFault::OutOfMemory => write!(f, "{OutOfMemory}"),
        }
    }
}

impl error::Error for Failed {}

impl error::Error for OutFault {}

impl From<OutOfMemory> for OutFault {
    ghost from_gives = { λ _ given. given ≡ fault.OutOfMemory };

    fn from(_refusal: OutOfMemory) -> Self {
        OutFault::OutOfMemory
    }
}
