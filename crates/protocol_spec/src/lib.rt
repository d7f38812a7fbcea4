//! What a validator is: the definitions of the chain, of the execution of a block, and of a committee's member.
//!
//! `specs/` is read in the order of its folders: Chain, Block, Member.
//!
//! What blocks take and give, and what the calls of a member answer and refuse.
//!
//! Plain data, on which the definitions and the crates of the calls both stand. Each enum of refusals lists them in
//! the order in which they are tried.
#![tactic(auto)]

mod answers;
mod pieces;
mod refusals;
mod sentences;
mod shared;

pub use answers::{Assigned, Held, Ignore, Left, Ran, Seen, SeenWhat, Voted};
pub use chain_types::Mode;
pub use pieces::{Executed, Gave, Given, Item, Placed};
pub use refusals::{
    AckRefusal, CloseRefusal, EndRefusal, HoldRefusal, RunRefusal, SeeRefusal, StartRefusal,
    TurnRefusal, VoteRefusal,
};
pub use shared::SharedCertificate;
