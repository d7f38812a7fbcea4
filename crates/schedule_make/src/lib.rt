//! The schedules that show the program at work: `number` transactions of four shapes, run by
//! four members, of which one comes late and uses `workers` threads.
#![tactic(auto)]

mod make;
mod parts;

pub use make::make_text;
