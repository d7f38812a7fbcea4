//! What a member does towards the end of an epoch: it counts the members that said End, and builds checkpoints.
//!
//! An [`EndCount`] says when the members that said End are a quorum. A [`CheckpointBuilder`] learns what was admitted and where
//! it was cut, and each [`CheckpointBuilder::advance`] builds the checkpoints of the cuts up to the first that has a transaction which
//! is not done by then: at constant work for each transaction, since what is done stays done. Its numbers and parents go
//! on over the epochs. [`tell`] reports to it what an admission has let in, [`first_unordered`] finds what keeps a member from saying that
//! its epoch is to end, and [`revert_uncut`] and [`renew`] open the next one. [`next_opening`] does so for a caller that holds only a
//! store and the checkpointed transactions.
#![tactic(auto)]

mod chain;
mod due;
mod ends;
mod growth;
mod laws;
mod opening;
mod ordered;
mod rows;
mod telling;

pub use chain::CheckpointBuilder;
pub use due::{CutMark, Due};
pub use ends::{Counted, EndCount};
pub use laws::what_is_built_stays;
pub use opening::{Turned, next_opening, renew, revert_uncut};
pub use ordered::{first_unordered, ordered_on};
pub use telling::tell;
