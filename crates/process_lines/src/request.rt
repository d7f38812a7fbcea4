//! The requests to a member's process.

use digest_core::Digest;
use wire_bcs::Seq;

/// A request. Bytes are those of the wire format.
#[derive(Drop)]
pub enum Request {
    /// `vote SIGNED_TX`
    Vote(Seq<u8>),
    /// `hold CERTIFICATE`
    Hold(Seq<u8>),
    /// `see N ENTRY`
    See { number: u64, entry: Seq<u8> },
    /// `run WORKERS`, from 1 to 16
    Run { workers: u32 },
    /// `close`
    Close,
    /// `end`
    End,
    /// `turn`
    Turn,
    /// `ack ID`
    Ack { tx: Digest },
    /// `checkpoint N`
    Checkpoint { number: u64 },
    /// `object ID`
    Object { id: Digest },
    /// `version ID V`
    Version { id: Digest, version: u64 },
    /// `effects ID`
    Effects { tx: Digest },
    /// `state`
    State,
}
