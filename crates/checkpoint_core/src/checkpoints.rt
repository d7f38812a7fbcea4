//! Checkpoints (Sui Lutris).

use digest_core::Digest;
use wire_bcs::Seq;

/// A transaction of a checkpoint, with the digest of its effects.
#[derive(Clone, Copy, Debug, PartialEq, Eq)]
pub struct Item {
    pub tx: Digest,
    pub effects: Digest,
}

/// A checkpoint. Numbers begin at 0 and go on over the epochs; the parent of number 0 is 32 zero
/// bytes, that of every other is the digest of the checkpoint before it.
#[derive(Debug, Drop)]
pub struct Checkpoint {
    pub epoch: u64,
    pub number: u64,
    pub parent: Digest,
    pub items: Seq<Item>,
    /// Whether it is the last of its epoch.
    pub last: bool,
}
