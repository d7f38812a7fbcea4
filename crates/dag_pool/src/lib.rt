//! A plan executed by 1 to 16 workers in threads of their own.
//!
//! [`run_plan`] works on a board that was laid over the plan: a worker claims a task on it, takes the task's inputs
//! from it, runs the job, and pays the values to it. Whatever the number of workers and the order of their steps, the
//! outputs are those of the plan, and the seat that comes back has claimed every task, and has paid and taken every
//! edge, once each; how often a job is called is in no clause. Tasks are passed on through decks, one for each worker;
//! what is proved of a run rests only on the board. A [`Gate`] is notified of each execution. Beneath stands
//! [`run_team`], for work that can be handed out in parts.
//!
//! No speed is promised: a worker that finds nothing retires for good, so after a narrow part of a plan only the workers
//! that had a task there go on. Nor does any proof say that two workers run at the same time.
#![tactic(auto)]

mod crew;
mod gate;
mod kit;
mod order;
mod post;
mod run;
mod shift;
mod sweep;
mod task;
mod team;
mod worker;

pub use gate::{Gate, OpenGate};
pub use run::{PoolRun, run_plan};
pub use team::{Team, run_team};
