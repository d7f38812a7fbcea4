//! What a client that trusts only the stakes of a committee finds out from bytes: whether a chain of checkpoints or a
//! certificate is certified, what a quorum acknowledged, and who is to blame for two certificates (Sui Lutris).
//!
//! Each input has at most 16,777,216 bytes. A seal is judged by a [`Checker`]: [`AcceptedSeals`] is a set of seals that
//! the caller has accepted, and a sealer of `quorum_core` is a checker too. [`list_chain`], [`list_certificate`] and
//! [`list_acknowledgements`] list the seals that bytes have. Each answer is what the definitions in `specs/` give,
//! unless memory is refused.
#![tactic(auto)]

mod accepted;
mod blaming;
mod certificates;
mod chains;
mod digests;
mod finality;
mod input;
mod listing;
mod refusal;

pub use accepted::{AcceptedSeals, SealRow};
pub use blaming::blame_members;
pub use certificates::check_certificate;
pub use chains::{check_chain, check_chain_by, find_transaction};
pub use digests::{digest_of_effects, digest_of_object, digest_of_transaction};
pub use finality::{Acknowledged, check_final};
pub use listing::{Listing, list_acknowledgements, list_certificate, list_chain};
pub use quorum_core::Checker;
pub use refusal::Refusal;
