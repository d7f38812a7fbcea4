//! A Sui validator, and what others need of one, under one name.
//!
//! - [`types`]: values and their bytes;
//! - [`node`]: a validator, [`Member`], with its journal and its sealer;
//! - [`wallet`]: certificates of votes, and what acknowledgements make final;
//! - [`client`]: a light client.
//!
//! One equation for each call, over the definitions of the Sui Lutris protocol, says what a member answers, keeps and
//! becomes. The calls are those of `validator_core`, but here nothing is required of a caller.
#![tactic(auto)]

pub mod client;
mod disk_journal;
mod errors;
mod journal;
mod journals;
mod member;
pub mod node;
mod opening;
mod records;
mod sole;
pub mod types;
pub mod wallet;
mod workers;

pub use node::{Error, Journal, Member, Workers};
