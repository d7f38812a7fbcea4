//! The real outside: standard input and standard output, or anything that reads and writes, and files.
//!
//! A few lines over std's `Read`, `Write` and `File`, with a count of faults that is raised at each error.
//! This is the trusted edge: no clause says what a terminal, a pipe or a file gives or takes.
#![tactic(auto)]

mod file;
mod input;
mod open_fault;
mod output;

pub use file::{FileDisk, Missing};
pub use input::InSource;
pub use open_fault::OpenFault;
pub use output::OutSink;

#[cfg(test)]
mod tests;
