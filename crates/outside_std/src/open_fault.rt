//! Why a file is not opened as a disk.

use std::fmt::{self, Display, Formatter};
use std::io;

/// Why the file of a path is not opened as a disk.
#[derive(Clone, Copy, Debug)]
pub enum OpenFault {
    /// A symbolic link stands at the path. Name the file itself: its folder is made safe from a crash too.
    Link,
    /// It is not a plain file: a folder, say, or a device.
    NotPlain,
    /// Another process has it open as a journal.
    Held,
    /// Another file took its name while it was opened.
    Replaced,
    /// It has 2^63 bytes or more.
    TooLarge,
    /// Its first byte is neither 0 nor 1, as that of a log is. To a log its bytes would mean nothing, and be overwritten.
    NotLog,
    /// An error of the system, for example that the file is missing.
    System(io::Error),
}

impl From<io::Error> for OpenFault {
    fn from(error: io::Error) -> OpenFault {
        OpenFault::System(error)
    }
}

impl Display for OpenFault {
    fn fmt<W: fmt::Write>(&self, f: &mut Formatter<W>) -> fmt::Result {
        match self {
            OpenFault::Link => write!(f, "it is a symbolic link; name the file itself"),
            OpenFault::NotPlain => write!(f, "it is not a plain file"),
            OpenFault::Held => write!(f, "another process has it open"),
            OpenFault::Replaced => write!(f, "another file took its name while it was opened"),
            OpenFault::TooLarge => write!(f, "it is too large"),
            OpenFault::NotLog => write!(f, "it is not a journal"),
            OpenFault::System(error) => write!(f, "{error}"),
        }
    }
}
