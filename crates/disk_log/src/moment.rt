//! A disk at one moment.

use wire_bcs::Seq;

/// A range of a file: where it begins, and how many bytes it has.
#[derive(Clone, Copy, Debug, PartialEq, Eq)]
pub struct Span {
    pub at: u64,
    pub count: u64,
}

/// A disk at one moment. A crash leaves any bytes of any length from that of `stable` to `most`
/// that are those of `stable` outside the ranges.
#[derive(Debug, Drop)]
pub struct Moment {
    /// What reads give.
    pub reads: Seq<u8>,
    /// What reads gave at the last sync that succeeded.
    pub stable: Seq<u8>,
    /// The greatest size since then, in bytes; what was tried counts as if it had been written.
    pub most: u64,
    /// What was written or tried since then, the first of them first.
    pub ranges: Seq<Span>,
}
