//! The words of the program's commands.
//!
//! [`command_of`] says which command the words are; [`is_parsed`] says whether the `clap` crate takes them, as it does
//! every command; it needs memory for that. [`place_of`] finds the path of a journal file in them. [`read_numbers`]
//! reads a word that is a list of numbers.
#![tactic(auto)]

mod check_words;
mod list_words;
mod parsing;
mod place;
mod words;

pub use list_words::read_numbers;
pub use parsing::is_parsed;
pub use place::{names_replay, place_of};
pub use words::{Command, command_of};
