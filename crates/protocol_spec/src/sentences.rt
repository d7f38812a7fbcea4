//! Refusals, in sentences.

use crate::refusals::{
    AckRefusal, CloseRefusal, EndRefusal, HoldRefusal, RunRefusal, SeeRefusal, StartRefusal,
    TurnRefusal, VoteRefusal,
};
use chain_types::{DecideRefusal, ObjectKey};
use digest_core::Digest;
use std::{error, fmt};
use wire_bcs::OutOfMemory;

fn say_down<W: fmt::Write>(f: &mut fmt::Formatter<W>) -> fmt::Result {
    f.write_str("the member is down, and has to be opened again from its journal")
}

fn say_halted<W: fmt::Write>(
    f: &mut fmt::Formatter<W>,
    first: Digest,
    second: Digest,
) -> fmt::Result {
    write!(
        f,
        "the member is halted: the certificates of {first} and {second} consume one version"
    )
}

fn say_full<W: fmt::Write>(f: &mut fmt::Formatter<W>) -> fmt::Result {
    f.write_str("the member can keep no more records")
}

fn say_unkept<W: fmt::Write>(f: &mut fmt::Formatter<W>) -> fmt::Result {
    f.write_str("the journal did not keep the record, and the member is down")
}

fn say_epoch<W: fmt::Write>(f: &mut fmt::Formatter<W>, had: u64, want: u64) -> fmt::Result {
    write!(f, "it is of epoch {had}, and the member is in epoch {want}")
}

fn say_closed<W: fmt::Write>(f: &mut fmt::Formatter<W>) -> fmt::Result {
    f.write_str("the member has closed its epoch")
}

fn say_fork<W: fmt::Write>(
    f: &mut fmt::Formatter<W>,
    key: ObjectKey,
    first: Digest,
    second: Digest,
) -> fmt::Result {
    write!(
        f,
        "the certificates of {first} and {second} both consume {key}"
    )
}

fn say_decided<W: fmt::Write>(f: &mut fmt::Formatter<W>, refusal: DecideRefusal) -> fmt::Result {
    fmt::Display::fmt(&refusal, f)
}

impl fmt::Display for StartRefusal {
    fn fmt<W: fmt::Write>(&self, f: &mut fmt::Formatter<W>) -> fmt::Result {
        match *self {
            StartRefusal::BadRecord { place, why: 1 } => {
                write!(f, "record {place} of the journal is not a record")
            }
            StartRefusal::BadRecord { place, .. } => {
                write!(f, "no call would have kept record {place} of the journal")
            }
            StartRefusal::OutOfMemory => fmt::Display::fmt(&OutOfMemory, f),
        }
    }
}

impl fmt::Display for VoteRefusal {
    fn fmt<W: fmt::Write>(&self, f: &mut fmt::Formatter<W>) -> fmt::Result {
        match *self {
            VoteRefusal::Down => say_down(f),
            VoteRefusal::Halted { first, second } => say_halted(f, first, second),
            VoteRefusal::Full => say_full(f),
            VoteRefusal::Malformed(fault) => fmt::Display::fmt(&fault, f),
            VoteRefusal::WrongEpoch { had, want } => say_epoch(f, had, want),
            VoteRefusal::Closed => say_closed(f),
            VoteRefusal::Invalid(fault) => {
                write!(f, "the transaction has fault {fault} of its shape")
            }
            VoteRefusal::Unsealed => {
                f.write_str("the seal of the transaction's sender is not accepted")
            }
            VoteRefusal::Absent(key) => say_decided(f, DecideRefusal::Absent(key)),
            VoteRefusal::Consumed { key, by } => {
                say_decided(f, DecideRefusal::Consumed { key, by })
            }
            VoteRefusal::WrongDigest(key) => say_decided(f, DecideRefusal::WrongDigest(key)),
            VoteRefusal::WrongOwner(key) => say_decided(f, DecideRefusal::WrongOwner(key)),
            VoteRefusal::WrongKind(key) => say_decided(f, DecideRefusal::WrongKind(key)),
            VoteRefusal::PoorGas { had, want } => {
                say_decided(f, DecideRefusal::PoorGas { had, want })
            }
            VoteRefusal::Locked { key, by } => say_decided(f, DecideRefusal::Locked { key, by }),
            VoteRefusal::KeepFault => say_unkept(f),
            VoteRefusal::OutOfMemory => fmt::Display::fmt(&OutOfMemory, f),
        }
    }
}

impl fmt::Display for HoldRefusal {
    fn fmt<W: fmt::Write>(&self, f: &mut fmt::Formatter<W>) -> fmt::Result {
        match *self {
            HoldRefusal::Down => say_down(f),
            HoldRefusal::Halted { first, second } => say_halted(f, first, second),
            HoldRefusal::Full => say_full(f),
            HoldRefusal::Malformed(fault) => fmt::Display::fmt(&fault, f),
            HoldRefusal::WrongEpoch { had, want } => say_epoch(f, had, want),
            HoldRefusal::Closed => say_closed(f),
            HoldRefusal::Cert(refusal) => fmt::Display::fmt(&refusal, f),
            HoldRefusal::KeepFault => say_unkept(f),
            HoldRefusal::Fork { key, first, second } => say_fork(f, key, first, second),
            HoldRefusal::OutOfMemory => fmt::Display::fmt(&OutOfMemory, f),
        }
    }
}

impl fmt::Display for SeeRefusal {
    fn fmt<W: fmt::Write>(&self, f: &mut fmt::Formatter<W>) -> fmt::Result {
        match *self {
            SeeRefusal::Down => say_down(f),
            SeeRefusal::Halted { first, second } => say_halted(f, first, second),
            SeeRefusal::Full => say_full(f),
            SeeRefusal::Over => f.write_str("the member has seen the end of the epoch"),
            SeeRefusal::Gap { had, want } => {
                write!(f, "the entry has number {had}, and the next one is {want}")
            }
            SeeRefusal::KeepFault => say_unkept(f),
            SeeRefusal::Fork { key, first, second } => say_fork(f, key, first, second),
            SeeRefusal::OutOfMemory => fmt::Display::fmt(&OutOfMemory, f),
        }
    }
}

impl fmt::Display for RunRefusal {
    fn fmt<W: fmt::Write>(&self, f: &mut fmt::Formatter<W>) -> fmt::Result {
        match *self {
            RunRefusal::Down => say_down(f),
            RunRefusal::Halted { first, second } => say_halted(f, first, second),
            RunRefusal::Full => say_full(f),
            RunRefusal::KeepFault => say_unkept(f),
            RunRefusal::OutOfMemory => fmt::Display::fmt(&OutOfMemory, f),
        }
    }
}

impl fmt::Display for CloseRefusal {
    fn fmt<W: fmt::Write>(&self, f: &mut fmt::Formatter<W>) -> fmt::Result {
        match *self {
            CloseRefusal::Down => say_down(f),
            CloseRefusal::Halted { first, second } => say_halted(f, first, second),
            CloseRefusal::Full => say_full(f),
            CloseRefusal::KeepFault => say_unkept(f),
            CloseRefusal::OutOfMemory => fmt::Display::fmt(&OutOfMemory, f),
        }
    }
}

impl fmt::Display for EndRefusal {
    fn fmt<W: fmt::Write>(&self, f: &mut fmt::Formatter<W>) -> fmt::Result {
        match *self {
            EndRefusal::Down => say_down(f),
            EndRefusal::Halted { first, second } => say_halted(f, first, second),
            EndRefusal::NotClosed => f.write_str("the member has not closed its epoch"),
            EndRefusal::Waits { tx } => {
                write!(f, "transaction {tx} is held, and not in the sequence seen")
            }
            EndRefusal::OutOfMemory => fmt::Display::fmt(&OutOfMemory, f),
        }
    }
}

impl fmt::Display for TurnRefusal {
    fn fmt<W: fmt::Write>(&self, f: &mut fmt::Formatter<W>) -> fmt::Result {
        match *self {
            TurnRefusal::Down => say_down(f),
            TurnRefusal::Halted { first, second } => say_halted(f, first, second),
            TurnRefusal::Full => say_full(f),
            TurnRefusal::NotEnded => f.write_str("the member has not seen the end of the epoch"),
            TurnRefusal::Waits { tx } => {
                write!(f, "transaction {tx} is admitted, and not executed yet")
            }
            TurnRefusal::KeepFault => say_unkept(f),
            TurnRefusal::OutOfMemory => fmt::Display::fmt(&OutOfMemory, f),
        }
    }
}

impl fmt::Display for AckRefusal {
    fn fmt<W: fmt::Write>(&self, f: &mut fmt::Formatter<W>) -> fmt::Result {
        match *self {
            AckRefusal::Down => say_down(f),
            AckRefusal::Halted { first, second } => say_halted(f, first, second),
            AckRefusal::NotExecuted => {
                f.write_str("the member has not executed the transaction in its epoch")
            }
            AckRefusal::OutOfMemory => fmt::Display::fmt(&OutOfMemory, f),
        }
    }
}

impl fmt::Debug for StartRefusal {
    fn fmt<W: fmt::Write>(&self, f: &mut fmt::Formatter<W>) -> fmt::Result {
        fmt::Display::fmt(self, f)
    }
}

impl fmt::Debug for VoteRefusal {
    fn fmt<W: fmt::Write>(&self, f: &mut fmt::Formatter<W>) -> fmt::Result {
        fmt::Display::fmt(self, f)
    }
}

impl fmt::Debug for HoldRefusal {
    fn fmt<W: fmt::Write>(&self, f: &mut fmt::Formatter<W>) -> fmt::Result {
        fmt::Display::fmt(self, f)
    }
}

impl fmt::Debug for SeeRefusal {
    fn fmt<W: fmt::Write>(&self, f: &mut fmt::Formatter<W>) -> fmt::Result {
        fmt::Display::fmt(self, f)
    }
}

impl fmt::Debug for RunRefusal {
    fn fmt<W: fmt::Write>(&self, f: &mut fmt::Formatter<W>) -> fmt::Result {
        fmt::Display::fmt(self, f)
    }
}

impl fmt::Debug for CloseRefusal {
    fn fmt<W: fmt::Write>(&self, f: &mut fmt::Formatter<W>) -> fmt::Result {
        fmt::Display::fmt(self, f)
    }
}

impl fmt::Debug for EndRefusal {
    fn fmt<W: fmt::Write>(&self, f: &mut fmt::Formatter<W>) -> fmt::Result {
        fmt::Display::fmt(self, f)
    }
}

impl fmt::Debug for TurnRefusal {
    fn fmt<W: fmt::Write>(&self, f: &mut fmt::Formatter<W>) -> fmt::Result {
        fmt::Display::fmt(self, f)
    }
}

impl fmt::Debug for AckRefusal {
    fn fmt<W: fmt::Write>(&self, f: &mut fmt::Formatter<W>) -> fmt::Result {
        fmt::Display::fmt(self, f)
    }
}

impl error::Error for StartRefusal {}

impl error::Error for VoteRefusal {}

impl error::Error for HoldRefusal {}

impl error::Error for SeeRefusal {}

impl error::Error for RunRefusal {}

impl error::Error for CloseRefusal {}

impl error::Error for EndRefusal {}

impl error::Error for TurnRefusal {}

impl error::Error for AckRefusal {}
