//! The records of a member's journal, of which its state is a function.
#![tactic(auto)]

mod encoding;
mod records;
mod records_wire;

pub use encoding::{encode_record_with, encode_see};
pub use records::{RanItem, Record};
pub use records_wire::{decode_record, encode_record};
