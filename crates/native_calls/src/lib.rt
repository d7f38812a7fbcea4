//! The natives: functions that stand in for Move code, which the commands of a block call.
//!
//! Their names and parameters are the table `NATIVES` of `chain_types`.
//! [`mode`] says how a native takes each of its parameters, and [`call`] what it gives of its
//! arguments. Each is one equation by the definitions of the natives. A call takes memory for the
//! objects that it gives, and may be refused it; nothing else can go wrong with it. What a content
//! holds is read and written by [`contents`], whose calls take no memory.
#![tactic(auto)]

mod args;
mod coins;
pub mod contents;
mod counters;
mod dispatch;
mod gives;
mod modes;
mod owners;
mod place;
mod vaults;

pub use dispatch::call;
pub use modes::{mode, parameter_count};
