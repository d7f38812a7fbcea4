//! Checkpoints: the admitted transactions in order, with their effects, in one chain over all epochs.
#![tactic(auto)]

mod checkpoints;
mod checkpoints_wire;
mod hashed;
mod links;

pub use checkpoints::{Checkpoint, Item};
pub use checkpoints_wire::checkpoint_digest;
pub use hashed::HashedCheckpoint;
pub use links::{LinkRefusal, check_link};
