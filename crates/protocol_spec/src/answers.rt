//! What the calls of a member answer.

use crate::shared::SharedCertificate;
use chain_messages::Sealed;
use chain_types::{ObjectId, ObjectKey, Producer};
use checkpoint_core::HashedCheckpoint;
use digest_core::Digest;
use effects_core::HashedEffects;
use wire_bcs::Seq;

/// The version that admission assigned to a shared object, and who wrote it.
#[derive(Clone, Copy, Debug, PartialEq, Eq)]
pub struct Assigned {
    pub id: ObjectId,
    pub version: u64,
    pub writer: Producer,
    pub mutable: bool,
}

/// A vote. `fresh` is false if the member had voted for this transaction before.
#[derive(Debug, Drop)]
pub struct Voted {
    pub sealed: Sealed,
    pub fresh: bool,
}

/// Why an entry of the sequence is ignored, in the order in which the causes are tried.
#[derive(Clone, Copy, Debug, PartialEq, Eq)]
pub enum Ignore {
    Malformed,
    /// It is a sealed statement, but not an End.
    Statement,
    /// It is of another epoch.
    Epoch,
    /// The certificate is not valid.
    Cert,
    /// The member is not known, or its seal is not accepted.
    Seal,
    /// The transaction is in the sequence, or the member's End is.
    Repeat,
}

/// What a member made of an entry.
#[derive(Debug, Drop)]
pub enum SeenWhat {
    /// A certificate's entry: what it admitted and what it dropped, each in order.
    Taken {
        admitted: Seq<Digest>,
        dropped: Seq<Digest>,
    },
    /// The transaction waits for this origin, the first that is not admitted.
    Pending {
        tx: Digest,
        origin: Digest,
    },
    /// The transaction waits for the next mark, since this object has as many writers as the limit allows.
    Deferred {
        tx: Digest,
        id: ObjectId,
    },
    /// A mark: what was admitted and dropped right after it, each in order.
    Commit {
        admitted: Seq<Digest>,
        dropped: Seq<Digest>,
    },
    /// A member's End was counted: the weight of the members with one so far.
    Counted {
        member: u32,
        weight: u64,
    },
    /// A member's End was counted, and the Ends are a quorum with it: the epoch ends here. Their weight.
    Ended {
        member: u32,
        weight: u64,
    },
    Ignored(Ignore),
}

/// What a member made of an entry, and the checkpoints that it completed.
#[derive(Debug, Drop)]
pub struct Seen {
    pub what: SeenWhat,
    pub built: Seq<HashedCheckpoint>,
}

/// A held certificate that a run left although what it waited for is executed: the first version
/// that is not there, or none if it does not fit.
#[derive(Clone, Copy, Debug, PartialEq, Eq)]
pub struct Left {
    pub tx: Digest,
    pub key: Option<ObjectKey>,
}

/// What a run did: what it executed, what it left, and the checkpoints that it completed.
#[derive(Debug, Drop)]
pub struct Ran {
    pub executed: Seq<HashedEffects>,
    pub left: Seq<Left>,
    pub built: Seq<HashedCheckpoint>,
}

/// A certificate that a member holds, with its transaction's digest.
#[derive(Debug, Drop)]
pub struct Held {
    pub digest: Digest,
    pub cert: SharedCertificate,
}
