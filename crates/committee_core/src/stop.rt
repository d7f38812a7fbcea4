//! Why the run of a schedule ends early.

/// Why the run of a schedule ended early.
#[derive(Clone, Copy, Debug, PartialEq, Eq)]
pub(crate) enum Stop {
    /// The sink did not take the bytes.
    WriteFault,
    /// The keeper did not keep a record, or did not give one.
    KeepFault,
    /// A record that was read back is bad, and the line that says so was written.
    BadRecord,
    OutOfMemory,
}
