//! A node without a vote: it builds the state of the validators from checkpoints and their transactions (Sui Lutris).
//!
//! A [`Follower`] opens with the objects of the set-up. [`Follower::apply`] takes the next checkpoint with its
//! transactions, executes them one after the other, and compares what each did with what the checkpoint says; or it
//! reports the first thing that is wrong, and stands as before, or is down after running out of memory. Its live objects are those
//! that one thread leaves after executing the transactions of all applied checkpoints in order ([`applied_is_followed`]).
//! [`catch_up`] takes the checkpoints of an [`Archive`] in order, up to an epoch.
#![tactic(auto)]

mod archive;
mod catching;
mod follower;
mod laws;
mod ledger;
mod place;
mod reading;
mod refusals;
mod standing;
mod tip;

pub use archive::Archive;
pub use catching::{CatchUpRefusal, catch_up};
pub use follower::Follower;
pub use laws::applied_is_followed;
pub use refusals::FollowRefusal;
