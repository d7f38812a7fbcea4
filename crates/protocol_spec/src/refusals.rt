//! Refusals of the calls of a member. `Down`: the member has to be started from its records.
//! `Halted`: it met a fork, two certificates that consume one version. `Full`: its list has
//! 4,194,303 records. `KeepFault`: the record was not kept, and the member is down.

use chain_types::{CertRefusal, ObjectKey};
use digest_core::Digest;
use wire_bcs::WireFault;

/// Why a member does not start from its records.
#[derive(Clone, Copy, PartialEq, Eq)]
pub enum StartRefusal {
    /// The first record that does not decode (1), or that no call would have appended (2).
    BadRecord { place: u64, why: u8 },
    OutOfMemory,
}

/// Why a member does not vote.
#[derive(Clone, Copy, PartialEq, Eq)]
pub enum VoteRefusal {
    Down,
    Halted { first: Digest, second: Digest },
    Full,
    Malformed(WireFault),
    /// The transaction is of epoch `had`, the member in `want`.
    WrongEpoch { had: u64, want: u64 },
    Closed,
    /// The shape's fault, 1 to 12.
    Invalid(u8),
    /// The sender's seal is not accepted.
    Unsealed,
    Absent(ObjectKey),
    Consumed { key: ObjectKey, by: Digest },
    WrongDigest(ObjectKey),
    WrongOwner(ObjectKey),
    WrongKind(ObjectKey),
    PoorGas { had: u64, want: u64 },
    Locked { key: ObjectKey, by: Digest },
    KeepFault,
    OutOfMemory,
}

/// Why a member does not hold a certificate.
#[derive(Clone, Copy, PartialEq, Eq)]
pub enum HoldRefusal {
    Down,
    Halted {
        first: Digest,
        second: Digest,
    },
    Full,
    Malformed(WireFault),
    WrongEpoch {
        had: u64,
        want: u64,
    },
    Closed,
    Cert(CertRefusal),
    KeepFault,
    /// It is kept as evidence: it consumes this version, as a certificate held before does.
    Fork {
        key: ObjectKey,
        first: Digest,
        second: Digest,
    },
    OutOfMemory,
}

/// Why a member does not take an entry of the sequence.
#[derive(Clone, Copy, PartialEq, Eq)]
pub enum SeeRefusal {
    Down,
    Halted {
        first: Digest,
        second: Digest,
    },
    Full,
    /// The end of the epoch was seen.
    Over,
    /// The entry has the number `had`, and the next one is `want`.
    Gap {
        had: u64,
        want: u64,
    },
    KeepFault,
    Fork {
        key: ObjectKey,
        first: Digest,
        second: Digest,
    },
    OutOfMemory,
}

/// Why a member does not run.
#[derive(Clone, Copy, PartialEq, Eq)]
pub enum RunRefusal {
    Down,
    Halted { first: Digest, second: Digest },
    Full,
    KeepFault,
    OutOfMemory,
}

/// Why a member does not close.
#[derive(Clone, Copy, PartialEq, Eq)]
pub enum CloseRefusal {
    Down,
    Halted { first: Digest, second: Digest },
    Full,
    KeepFault,
    OutOfMemory,
}

/// Why a member does not state its End.
#[derive(Clone, Copy, PartialEq, Eq)]
pub enum EndRefusal {
    Down,
    Halted { first: Digest, second: Digest },
    NotClosed,
    /// The first held transaction that is not in the sequence seen.
    Waits { tx: Digest },
    OutOfMemory,
}

/// Why a member does not turn to the next epoch.
#[derive(Clone, Copy, PartialEq, Eq)]
pub enum TurnRefusal {
    Down,
    Halted { first: Digest, second: Digest },
    Full,
    NotEnded,
    /// The first admitted transaction that is not done.
    Waits { tx: Digest },
    KeepFault,
    OutOfMemory,
}

/// Why a member does not acknowledge.
#[derive(Clone, Copy, PartialEq, Eq)]
pub enum AckRefusal {
    Down,
    Halted { first: Digest, second: Digest },
    NotExecuted,
    OutOfMemory,
}
