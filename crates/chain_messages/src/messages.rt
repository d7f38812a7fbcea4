//! The messages.

use chain_types::Transaction;
use digest_core::Digest;
use wire_bcs::Seq;

/// What a member states under its seal (Sui Lutris).
#[derive(Debug, Drop)]
pub enum Statement {
    /// A vote for a transaction, with one origin for each of its objects: the transaction of this
    /// epoch that produced the version, or none if the epoch opened with it.
    Vote {
        epoch: u64,
        tx: Digest,
        origins: Seq<Option<Digest>>,
    },
    /// The member is done with the epoch.
    End {
        epoch: u64,
    },
    Checkpoint {
        epoch: u64,
        number: u64,
        digest: Digest,
    },
    /// The member executed the transaction, with these effects.
    Ack {
        epoch: u64,
        tx: Digest,
        effects: Digest,
    },
}

/// A statement with the seal of the member that makes it.
#[derive(Debug, Drop)]
pub struct Sealed {
    pub member: u32,
    pub statement: Statement,
    pub seal: Digest,
}

/// A member's seal on a statement that stands elsewhere.
#[derive(Clone, Copy, Debug, PartialEq, Eq)]
pub struct MemberSeal {
    pub member: u32,
    pub seal: Digest,
}

/// A transaction, the origins that its voters named, and their seals on that vote.
#[derive(Debug, Drop)]
pub struct Certificate {
    pub tx: Transaction,
    pub origins: Seq<Option<Digest>>,
    pub seals: Seq<MemberSeal>,
}

/// One entry of the consensus sequence.
#[derive(Debug, Drop)]
pub enum Entry {
    Cert(Certificate),
    End(Sealed),
    /// The mark at which a checkpoint is cut.
    Commit,
}
