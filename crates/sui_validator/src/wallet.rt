//! A wallet: what is made of the statements of members, which are asked for votes and acknowledgements.

pub use wallet_core::{Finality, GatherRefusal, certify, finality};
