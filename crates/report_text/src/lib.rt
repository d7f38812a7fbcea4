//! The lines of a report, and their printer.
//!
//! A line is its head and, if the head has several endings, one of these: a text.
//! [`Line`] has one variant for each head, and each group of texts is an enum of its own,
//! with one variant for each text; `raw` lines share the texts of `vote` and `send`.
//! The fields are what stands in the line, in its order. A number is a `u64`, and what is
//! named (a transaction, an object, a key, an address) is the text that is printed.
#![tactic(auto)]

mod lines;
mod pieces;
mod printer;
mod texts;

pub use lines::{
    AckText, CertText, CloseText, ContentText, EndText, EntryText, FinalText, Line, OrderEndText,
    OrderText, OwnerText, RestartText, RunText, SeeText, SendText, ShowText, TurnText, VoteText,
};
pub use printer::print_line;
