//! Certificates: which are valid, and how votes become one (Sui Lutris).
//!
//! A certificate is a transaction with the votes of a quorum that agree. [`check_cert`] says
//! whether one is valid, or the first reason why it is not: the shape of its transaction, one
//! origin for each object, members in order, their stake, and each seal over the vote. [`collect`]
//! makes one of votes, or says that their stake is short or which two differ. What is promised is
//! said by definitions, one equation a call. Of votes whose seals are accepted it makes a valid
//! certificate, if the transaction has a valid shape and the votes name one origin for each
//! object. A check encodes the vote once and checks one seal a member.
//!
//! [`collect_words`] answers what the votes of members, or their acknowledgements, give together, over any
//! [`LastWords`]. [`collect`] is built on it, and so is [`collect_acks`], which says what the acknowledgements of a
//! quorum make final.
#![tactic(auto)]

mod acks;
mod check;
mod collecting;
mod votes;

pub use acks::{Finality, collect_acks};
pub use chain_types::CertRefusal;
pub use check::check_cert;
pub use collecting::{Collected, LastWords, collect_words};
pub use votes::{CollectRefusal, collect, same_origins};
