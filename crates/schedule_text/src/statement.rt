//! One line of a schedule.

use crate::words::{Event, Setup};

/// A line that is not skipped.
#[derive(Drop)]
pub enum Statement {
    /// A set-up line.
    Setup(Setup),
    /// An event line.
    Event(Event),
}
