//! Refusals, in sentences.

ghost use Rattle.std.specs.Prelude.{◌≡◌};
ghost use Rattle.wallet_core.specs.declared.refusals.EncodeRefusal.TheVariants as unencoded;
ghost use Rattle.wallet_core.specs.declared.refusals.GatherRefusal.TheVariants as refusal;

use std::{error, fmt};
use wire_bcs::OutOfMemory;

/// Why a value has no bytes.
#[derive(Clone, Copy, Debug, PartialEq, Eq)]
pub enum EncodeRefusal {
    /// One of its lists has more than 2,147,483,647 items.
    TooLong,
    OutOfMemory,
}

/// Why votes make no certificate, or acknowledgements make nothing final, in the order in which the cases are tried.
#[derive(Clone, Copy, Debug, PartialEq, Eq)]
pub enum GatherRefusal {
    /// A list of the transaction has more than 2,147,483,647 items.
    TooLong,
    /// The statement at this place, counted from 0, is not a vote for the transaction in its epoch.
    NoVote { place: u64 },
    /// The statement at this place, counted from 0, does not acknowledge the transaction of the first one in its epoch,
    /// or there are no statements.
    NoAcknowledgement { place: u64 },
    /// The members are not in ascending order, one repeats, or one is not known.
    Order,
    /// The stake of the members is not more than two thirds of all.
    ShortStake { weight: u64, total: u64 },
    /// The first member `a` and the first other `b` whose statements differ.
    Differ { a: u32, b: u32 },
    OutOfMemory,
}

impl fmt::Display for EncodeRefusal {
    fn fmt<W: fmt::Write>(&self, f: &mut fmt::Formatter<W>) -> fmt::Result {
        match *self {
            EncodeRefusal::TooLong => f.write_str(
                "a list of the value has more than 2147483647 items",
            ),
            EncodeRefusal::OutOfMemory => write!(f, "{OutOfMemory}"),
        }
    }
}

impl fmt::Display for GatherRefusal {
    fn fmt<W: fmt::Write>(&self, f: &mut fmt::Formatter<W>) -> fmt::Result {
        match *self {
            GatherRefusal::TooLong => {
                f.write_str("a list of the transaction has more than 2147483647 items")
            }
            GatherRefusal::NoVote { place } => write!(
                f,
                "statement {place} is not a vote for the transaction in its epoch"
            ),
            GatherRefusal::NoAcknowledgement { place } => write!(
                f,
                "there is no statement {place} that acknowledges the transaction of the first one"
            ),
            GatherRefusal::Order => f.write_str(
                "the members do not ascend, repeat, or are not known",
            ),
            GatherRefusal::ShortStake { weight, total } => write!(
                f,
                "the members have {weight} of {total} of the stake, which is not more than two thirds"
            ),
            GatherRefusal::Differ { a, b } => {
                write!(f, "the statements of members {a} and {b} differ")
            }
            GatherRefusal::OutOfMemory => write!(f, "{OutOfMemory}"),
        }
    }
}

impl error::Error for EncodeRefusal {}

impl error::Error for GatherRefusal {}

impl From<OutOfMemory> for EncodeRefusal {
    ghost from_gives = { λ _ given. given ≡ unencoded.OutOfMemory };

    fn from(_error: OutOfMemory) -> Self {
        EncodeRefusal::OutOfMemory
    }
}

impl From<OutOfMemory> for GatherRefusal {
    ghost from_gives = { λ _ given. given ≡ refusal.OutOfMemory };

    fn from(_error: OutOfMemory) -> Self {
        GatherRefusal::OutOfMemory
    }
}
