//! One member of a committee as a process: it keeps each record in its journal file before it answers, can be killed at
//! any moment, starts again from the file, and goes on.
//!
//! [`validator`] is the program over any source, sink and disk. `init` makes a journal: its first record says of which
//! member and of which set-up it is. A start reads that record before anything is written, starts the member from its
//! records, writes one line, and then answers requests, a line each, until the source ends. A member writes the record
//! of an answer to a keeper in memory; the process appends it to the log, and hands the answer to the sink once the
//! record is in the file for good. A fault of the file, of memory or of a stream ends the process, and no answer is
//! handed out whose record was not kept.
#![tactic(auto)]

mod answering;
mod entries;
mod identity;
mod journal;
mod keeping;
mod living;
mod looking;
mod making;
mod opening;
mod reading;
mod serving;
mod start_log;
mod starting;
mod stating;
mod stop;
mod top;
mod turning;
mod voting;
mod words;

pub use living::{head_stays, kept_first, made_starts, processes_live};
pub use top::validator;
pub use words::{Task, task_of};
