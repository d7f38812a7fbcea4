//! The light client: a client that trusts only the stakes of a committee checks a chain of its checkpoints (Sui Lutris).
//!
//! A [`Chain`] is a list of checkpoints, each with the seals of members on it. [`check_chain`] says whether it is
//! certified, or the first link that is not, with the first cause; [`find`] looks for a transaction in it, and
//! [`make_chain`] seals checkpoints as members do. [`judge`] checks and searches a chain that is given as bytes, and
//! [`check_source`] one that it reads from a source, and writes its finding in one line.
#![tactic(auto)]

mod cause;
mod chain;
mod chain_wire;
mod check;
mod client;
mod finding;
mod link;
mod make;
mod rivals;
mod said;
mod verdict;

pub use chain::{Chain, ChainRefusal, Link};
pub use chain_wire::{decode_chain, encode_chain};
pub use check::check_chain;
pub use client::check_source;
pub use finding::find;
pub use make::make_chain;
pub use rivals::{DoubleVote, blame};
pub use verdict::{Verdict, judge};
