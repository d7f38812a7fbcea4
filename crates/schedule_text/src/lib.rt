//! The text of a schedule: its words, and the reader that turns bytes into them.
//!
//! A schedule is a list of set-up lines and then a list of events, one a line.
//! The types here are the words of these lines; the layers above run them.
#![tactic(auto)]

mod bytes;
mod cause;
mod commands;
mod inputs;
mod lines;
mod names;
mod reader;
mod reading;
mod refs;
mod statement;
mod words;

pub use bytes::{cut_part, is_word, number_in, parts_of};
pub use cause::Cause;
pub use inputs::{are_hex_bytes, hex_of, is_hex};
pub use reader::read_schedule;
pub use statement::Statement;
pub use words::{
    ArgWord, CommandWord, Event, InputWord, ObjWord, RefWord, Schedule, ScheduleRefusal, Setup,
};
