//! What a wallet does between the members of a committee: bytes of values, certificates of votes, and what acknowledgements
//! make final (Sui Lutris).
//!
//! Nothing is required of a caller: each condition of `cert_rules` and of the encoders below is a refusal here. [`encode`] gives
//! the bytes of a value, [`certify`] the certificate of votes, [`finality`] what acknowledgements make final. Whether the seals
//! are accepted is for a light client to check.
#![tactic(auto)]

mod acks;
mod coins;
mod digests;
mod encoding;
mod lengths;
mod refusals;
mod votes;

pub use acks::finality;
pub use cert_rules::Finality;
pub use coins::coin_of;
pub use digests::{checkpoint_digest, effects_digest, tx_digest};
pub use encoding::encode;
pub use lengths::Measured;
pub use refusals::{EncodeRefusal, GatherRefusal};
pub use votes::certify;
