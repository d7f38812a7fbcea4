//! The committee and its seals: who signs, with what weight, and which seals are accepted.
//!
//! A [`Committee`] is a list of 1 to 64 stakes; a weight is a quorum if it is more than two
//! thirds of the stake (Sui Lutris). A [`Checker`] checks seals of members and users, and a
//! [`Sealer`] makes them too: what it made is accepted. What is promised is said by the definitions of `specs/`, one
//! equation a call. No call here takes memory, except the codec of [`Signer`].
#![tactic(auto)]

mod committee;
mod roll;
mod sealer;
mod sets;
mod signer;

pub use committee::{Committee, CommitteeRefusal};
pub use sealer::{Checker, KeyedSeal, Sealer};
pub use sets::is_among;
pub use signer::Signer;
