//! Why bytes are refused.

ghost use Rattle.std.specs.Prelude.{◌≡◌};
ghost use Rattle.light_client.specs.declared.refusal.Refusal.TheVariants as refusal;

use std::{error, fmt};
use wire_bcs::OutOfMemory;

/// Why a call has no other answer.
#[derive(Clone, Copy, PartialEq, Eq)]
pub enum Refusal {
    OutOfMemory,
    /// There are more than 16,777,216 bytes.
    TooLarge,
    /// The bytes encode no such value: the offset of the first fault, and what is wrong there.
    Malformed { at: u64, why: u8 },
    /// The first bad link of a chain, counted from 0, and its first cause, 1 to 6.
    BadLink { place: u64, cause: u8 },
    /// No checkpoint of the chain lists the transaction.
    NotIncluded,
    /// The fault of a transaction's shape, 1 to 12, or 13 if there is not one origin for each object.
    Shape { fault: u8 },
    /// The members are not in ascending order, one repeats, or one is not known.
    Order,
    /// The stake of the members is not more than two thirds of all.
    ShortStake { weight: u64, total: u64 },
    /// The seal of this member, the first such, is not accepted.
    BadSeal { member: u32 },
    /// The statement at this place, counted from 0, is not an acknowledgement.
    NoAcknowledgement { place: u64 },
    /// Member `b` is the first that acknowledges something other than `a`, the member of the first statement.
    Differ { a: u32, b: u32 },
    /// The certificates are not of two transactions of one epoch that consume one version.
    NoRivals,
}

impl From<OutOfMemory> for Refusal {
    ghost from_gives = { λ _ given. given ≡ refusal.OutOfMemory };

    fn from(_error: OutOfMemory) -> Self {
        Refusal::OutOfMemory
    }
}

impl fmt::Display for Refusal {
    fn fmt<W: fmt::Write>(&self, f: &mut fmt::Formatter<W>) -> fmt::Result {
        match *self {
            Refusal::OutOfMemory => write!(f, "{OutOfMemory}"),
            Refusal::TooLarge => f.write_str("there are more than 16777216 bytes"),
            Refusal::Malformed { at, why } => {
                write!(f, "the bytes are wrong at offset {at} (kind {why})")
            }
            Refusal::BadLink { place, cause } => {
                write!(f, "link {place} of the chain is bad (cause {cause})")
            }
            Refusal::NotIncluded => f.write_str("no checkpoint of the chain lists the transaction"),
            Refusal::Shape { fault } => {
                write!(f, "the transaction has fault {fault} of its shape")
            }
            Refusal::Order => f.write_str("the members do not ascend, repeat, or are not known"),
            Refusal::ShortStake { weight, total } => write!(
                f,
                "the members have {weight} of {total} of the stake, which is not more than two thirds"
            ),
            Refusal::BadSeal { member } => write!(f, "the seal of member {member} is not accepted"),
            Refusal::NoAcknowledgement { place } => {
                write!(f, "statement {place} is not an acknowledgement")
            }
            Refusal::Differ { a, b } => {
                write!(f, "the statements of members {a} and {b} differ")
            }
            Refusal::NoRivals => f.write_str(
                "the certificates are not of two transactions of one epoch that consume one version",
            ),
        }
    }
}

impl fmt::Debug for Refusal {
    fn fmt<W: fmt::Write>(&self, f: &mut fmt::Formatter<W>) -> fmt::Result {
        fmt::Display::fmt(self, f)
    }
}

impl error::Error for Refusal {}
