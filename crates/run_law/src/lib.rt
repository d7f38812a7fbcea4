//! Theorems about runs and records: reports, restarts and workers, encodings, and the view that code has of a world.
//!
//! Theorems about the text of a schedule, and about the run of every schedule that a text says.
#![tactic(auto)]

mod honesty;
mod reading;
mod runs;
mod scenes;
mod spellings;

pub use honesty::{
    nothing_read_is_forged, read_runs_are_spellable, read_transactions_are_spellable,
};
pub use reading::{
    canonical_text_reads_back, generated_text_is_a_schedule, what_is_read_can_be_said,
    what_is_read_reads_back,
};
pub use runs::{
    each_event_is_reported, no_record_no_change, older_runs_are_read, restart_keeps_states,
    workers_change_nothing,
};
pub use scenes::{
    bytes_of_calls, records_of_a_world, restarts_of_a_run, steps_of_a_world, steps_of_posts,
};
pub use spellings::transactions_are_spelled_apart;
