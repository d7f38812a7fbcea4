//! How a call on a member ends.

/// What became of a call on a member.
#[derive(Debug, Drop)]
pub enum Reply<A> {
    /// The member is down, or there is none of this number.
    Down,
    /// The member stopped at the append of its record, and is down.
    Stopped,
    Answered(A),
}

/// Why a call on a member was not completed. The member is down.
#[derive(Clone, Copy, Debug, PartialEq, Eq)]
pub enum SeatFault {
    /// The record was not kept, and the keeper's count of faults rose.
    KeepFault,
    OutOfMemory,
}

/// Why a member did not restart. It stays as it was.
#[derive(Clone, Copy, Debug, PartialEq, Eq)]
pub enum RestartFault {
    /// The first record that does not decode, or that no call would have appended.
    BadRecord { place: u64 },
    /// A record was not read, and the keeper's count of faults rose.
    KeepFault,
    OutOfMemory,
}
