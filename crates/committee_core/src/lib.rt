//! The program `committee` over any source, sink and keeper: its six commands, from the bytes read to the bytes
//! written.
//!
//! The clauses of [`committee`] are what is promised. [`fresh_keeper`] is a keeper in memory for its members.
//! [`committee_in`] is the program over a journal file. [`world_behind`] runs a schedule with no report. [`agrees`]
//! compares a chain that a client checked with what the members of a world built.
#![tactic(auto)]

mod agreement;
mod call_log;
mod check;
mod desk;
mod event;
mod follow;
mod in_file;
mod keeping;
mod make;
mod replay;
mod report;
mod run;
mod saying;
mod seals;
mod silent;
pub mod status;
mod stop;
mod text;
mod top;
mod verdict;

pub use agreement::{Agreement, agrees, is_same};
pub use in_file::committee_in;
pub use keeping::fresh_keeper;
pub use seals::program_sealer;
pub use silent::{Unrun, world_behind};
pub use text::{LONGEST_TEXT, refuse};
pub use top::committee;
