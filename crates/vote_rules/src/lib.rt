//! The vote rule, and what a member voted for and holds in an epoch.
//!
//! [`decide`] answers the origins that a vote for a transaction names, one for each object of the transaction, or the
//! first of eight cases in which there is no vote (Sui Lutris). It looks at locks in place of votes, and its answer
//! holds for any votes that the locks stand for. A [`VoteStore`] has the votes of a member in one epoch, a
//! [`CertificateStore`] the certificates that it holds, with the first fork. Contracts see lists, in the order of
//! voting and of holding. What a call looks for is found by maps.
#![tactic(auto)]

mod case;
mod certificate_store;
mod origin;
mod rule;
mod vote_store;

pub use certificate_store::{CertificateStore, Fork};
pub use chain_types::DecideRefusal;
pub use rule::decide;
pub use vote_store::VoteStore;
