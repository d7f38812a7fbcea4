//! The words of a `tx` line, as [`make`](crate::make) takes them.

use schedule_text::{CommandWord, InputWord, RefWord};

/// The words of a `tx` line, borrowed from the schedule.
#[derive(Clone, Copy)]
pub struct TxLine<'a> {
    pub name: &'a [u8],
    pub sender: &'a [u8],
    /// Whether the sender's seal is spoiled.
    pub spoiled: bool,
    pub epoch: u64,
    pub gas: &'a RefWord,
    pub budget: u64,
    pub inputs: &'a [InputWord],
    pub commands: &'a [CommandWord],
}
