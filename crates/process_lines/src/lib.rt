//! The lines of a member's process: the requests that it reads, and the answers that it writes.
//!
//! A [`LineReader`] cuts what a source gives into lines of at most 4 MiB. [`read_request`] says which request a line is;
//! the words of a line are parted by one space, and bytes are hexadecimal digits in lower case. Each answer is one line,
//! and for each kind of answer one function appends it to a text: a word first, then numbers, digests and bytes. Versions
//! are written as `ID@V`. Nothing here calls a member.
#![tactic(auto)]

mod checkpoints;
mod faults;
mod holds;
mod line_reader;
mod looks;
mod pieces;
mod reading;
mod request;
mod runs;
mod sees;
mod starts;
mod stated;
mod turns;
mod votes;

pub use checkpoints::{print_checkpoint, print_none};
pub use holds::{print_held, print_hold_refusal};
pub use line_reader::{Got, LineReader};
pub use looks::{Counts, print_effects, print_object, print_state};
pub use reading::read_request;
pub use request::Request;
pub use runs::{print_ran, print_run_refusal};
pub use sees::{print_see_refusal, print_seen};
pub use starts::{StartLine, print_start};
pub use stated::{print_ack, print_ack_refusal, print_end, print_end_refusal};
pub use turns::{print_close_refusal, print_closed, print_turn_refusal, print_turned};
pub use votes::{print_vote_refusal, print_voted};
