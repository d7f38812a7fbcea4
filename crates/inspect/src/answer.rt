//! The answer to a question: a status, and bytes.

use wire_bcs::Seq;

/// A status, and the bytes to be written with it.
#[derive(Debug, Drop)]
pub(crate) struct Answer {
    pub status: u8,
    pub text: Seq<u8>,
}
