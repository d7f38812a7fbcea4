//! Refusals that the definitions of the chain answer. The crates of the calls pass them on.

use crate::objects::ObjectKey;
use digest_core::Digest;
use std::{error, fmt};
use wire_bcs::OutOfMemory;

/// Why a member does not vote for a transaction, in the order in which the cases are tried.
#[derive(Clone, Copy, PartialEq, Eq)]
pub enum DecideRefusal {
    /// A named version is not held.
    Absent(ObjectKey),
    /// A transaction executed here consumed the version.
    Consumed { key: ObjectKey, by: Digest },
    WrongDigest(ObjectKey),
    /// The version is another user's.
    WrongOwner(ObjectKey),
    WrongKind(ObjectKey),
    /// The gas coin holds `had`, less than the budget `want`.
    PoorGas { had: u64, want: u64 },
    /// An earlier vote of this epoch, for the transaction `by`, consumes the version.
    Locked { key: ObjectKey, by: Digest },
    OutOfMemory,
}

/// Why a certificate is not valid, in the order in which the cases are tried.
#[derive(Clone, Copy, PartialEq, Eq)]
pub enum CertRefusal {
    /// The shape's fault, 1 to 12, or 13 if there is not one origin for each object.
    Shape(u8),
    /// The members do not ascend, repeat, or are not known.
    Order,
    ShortStake { weight: u64, total: u64 },
    BadSeal { member: u32 },
    OutOfMemory,
}

impl fmt::Display for DecideRefusal {
    fn fmt<W: fmt::Write>(&self, f: &mut fmt::Formatter<W>) -> fmt::Result {
        match *self {
            DecideRefusal::Absent(key) => write!(f, "the member does not hold {key}"),
            DecideRefusal::Consumed { key, by } => {
                write!(f, "transaction {by} has consumed {key}")
            }
            DecideRefusal::WrongDigest(key) => write!(f, "{key} has another digest"),
            DecideRefusal::WrongOwner(key) => write!(f, "{key} is not the sender's"),
            DecideRefusal::WrongKind(key) => write!(f, "{key} is of another kind"),
            DecideRefusal::PoorGas { had, want } => {
                write!(f, "the gas coin holds {had}, and the budget is {want}")
            }
            DecideRefusal::Locked { key, by } => {
                write!(f, "the member has voted for {by}, which consumes {key}")
            }
            DecideRefusal::OutOfMemory => fmt::Display::fmt(&OutOfMemory, f),
        }
    }
}

impl fmt::Display for CertRefusal {
    fn fmt<W: fmt::Write>(&self, f: &mut fmt::Formatter<W>) -> fmt::Result {
        match *self {
            CertRefusal::Shape(fault) => {
                write!(f, "the transaction has fault {fault} of its shape")
            }
            CertRefusal::Order => {
                f.write_str("the members do not ascend, repeat, or are not known")
            }
            CertRefusal::ShortStake { weight, total } => write!(
                f,
                "the members have {weight} of {total} of the stake, which is not more than two thirds"
            ),
            CertRefusal::BadSeal { member } => {
                write!(f, "the seal of member {member} is not accepted")
            }
            CertRefusal::OutOfMemory => fmt::Display::fmt(&OutOfMemory, f),
        }
    }
}

impl fmt::Debug for DecideRefusal {
    fn fmt<W: fmt::Write>(&self, f: &mut fmt::Formatter<W>) -> fmt::Result {
        fmt::Display::fmt(self, f)
    }
}

impl fmt::Debug for CertRefusal {
    fn fmt<W: fmt::Write>(&self, f: &mut fmt::Formatter<W>) -> fmt::Result {
        fmt::Display::fmt(self, f)
    }
}

impl error::Error for DecideRefusal {}

impl error::Error for CertRefusal {}
