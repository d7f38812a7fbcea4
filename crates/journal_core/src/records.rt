//! Journal records.

use chain_messages::Certificate;
use chain_types::Transaction;
use digest_core::Digest;
use wire_bcs::Seq;

/// A transaction that a run executed, with the digest of its effects.
#[derive(Clone, Copy, Debug, PartialEq, Eq)]
pub struct RanItem {
    pub tx: Digest,
    pub effects: Digest,
}

/// One record, appended before the call that made it answers.
#[derive(Debug, Drop)]
pub enum Record {
    /// A fresh vote, with the origins that it named.
    Vote {
        tx: Transaction,
        origins: Seq<Option<Digest>>,
    },
    /// A certificate that is newly held.
    Hold(Certificate),
    /// The bytes of the next entry of the epoch's sequence.
    See(Seq<u8>),
    Close,
    /// The transactions of a run, in order. Still read, but no longer appended.
    Ran(Seq<Digest>),
    Turn,
    /// The transactions of a run, in order, with their effects.
    Ran2(Seq<RanItem>),
}
