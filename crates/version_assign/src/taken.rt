//! What a call took.

use digest_core::Digest;
use wire_bcs::Seq;

/// The transactions that a call admitted, and those that it dropped, each in order.
#[derive(Drop)]
pub struct Taken {
    pub admitted: Seq<Digest>,
    pub dropped: Seq<Digest>,
}
