//! Effects (Sui documentation).

use chain_types::{ObjectId, Owner};
use digest_core::Digest;
use wire_bcs::Seq;

/// How a block ended.
#[derive(Clone, Copy, Debug, PartialEq, Eq)]
pub enum Status {
    Done,
    /// The command of this number failed by this cause.
    Failed { command: u16, cause: u8 },
    /// The native that the command of this number calls aborted with this code.
    Aborted { command: u16, code: u8 },
}

/// A written object: its owner after the block, and its digest.
#[derive(Clone, Copy, Debug, PartialEq, Eq)]
pub struct Written {
    pub id: ObjectId,
    pub owner: Owner,
    pub digest: Digest,
}

/// What a transaction's execution did. `gas` is what it cost, in units of currency 0; `created` is
/// the number of ids that were drawn, 0 after a failure.
#[derive(Debug, Drop)]
pub struct Effects {
    pub tx: Digest,
    pub status: Status,
    pub version: u64,
    pub gas: u64,
    pub created: u32,
    pub written: Seq<Written>,
    pub deleted: Seq<ObjectId>,
}
