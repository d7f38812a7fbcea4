//! How a process ends early.

ghost use Rattle.std.specs.Prelude.{◌≡◌};
ghost use Rattle.validator_process.specs.Stops.{status_of, unkept, unread, unwritten};

use disk_log::LogRefusal;
use outside::OutFault;

/// Why a process ends before its input does.
#[derive(Clone, Copy, Debug, PartialEq, Eq)]
pub(crate) enum Stop {
    /// The source did not give what it has.
    ReadFault,
    /// The sink did not take the bytes.
    WriteFault,
    /// The journal did not keep a record, or did not give one.
    KeepFault,
    OutOfMemory,
}

impl Stop {
    /// The status with which the process ends.
    pub(crate) fn status(self) -> u8
        ensures { result ≡ status_of self }
    {
        match self {
            Stop::ReadFault => 4,
            Stop::WriteFault => 5,
            Stop::KeepFault => 6,
            Stop::OutOfMemory => 7,
        }
    }
}

/// The stop for a fault of the source.
pub(crate) fn unread(fault: OutFault) -> Stop
    ensures { result ≡ unread fault }
{
    match fault {
        OutFault::Failed => Stop::ReadFault,
        OutFault::OutOfMemory => Stop::OutOfMemory,
    }
}

/// The stop for a fault of the sink.
pub(crate) fn unwritten(fault: OutFault) -> Stop
    ensures { result ≡ unwritten fault }
{
    match fault {
        OutFault::Failed => Stop::WriteFault,
        OutFault::OutOfMemory => Stop::OutOfMemory,
    }
}

/// How an append to the log ends a process, if it does.
pub(crate) fn unkept(answer: Result<(), LogRefusal>) -> Result<(), Stop>
    ensures { result ≡ unkept answer }
{
    match answer {
        Ok(()) => Ok(()),
        Err(LogRefusal::DiskFault) => Err(Stop::KeepFault),
        Err(LogRefusal::Shut) => Err(Stop::OutOfMemory),
        Err(LogRefusal::Full) => Err(Stop::OutOfMemory),
        Err(LogRefusal::OutOfMemory) => Err(Stop::OutOfMemory),
    }
}
