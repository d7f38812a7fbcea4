//! The types of a chain: checkpoints, each under seals of members, and why a chain is not certified.

use chain_messages::MemberSeal;
use checkpoint_core::Checkpoint;
use wire_bcs::Seq;

/// A checkpoint, and seals of members on their statement of it.
#[derive(Debug, Drop)]
pub struct Link {
    pub checkpoint: Checkpoint,
    pub seals: Seq<MemberSeal>,
}

/// Checkpoints under seals, from number 0 on.
#[derive(Debug, Drop)]
pub struct Chain {
    pub links: Seq<Link>,
}

/// Why a chain is not certified.
#[derive(Clone, Copy, Debug, PartialEq, Eq)]
pub enum ChainRefusal {
    /// The first link that does not go on or is not sealed, counted from 0, and the first cause: 1 another number,
    /// 2 another parent, 3 another epoch, 4 members that do not ascend or are not known, 5 no quorum, 6 a seal that
    /// is not accepted.
    Bad { place: u64, cause: u8 },
    OutOfMemory,
}
