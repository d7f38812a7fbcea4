//! Plans of tasks: jobs, the edges that carry values between them, and their values on one thread.
//!
//! A [`Plan`] has a [`Job`] per task, and edges that go from a task to a later one.
//! The values of a plan are the list built from task 0 on: each task's output and the values of its outgoing edges are
//! the job's meaning applied to the values of its incoming edges, in edge order. [`evaluate_plain`] answers the outputs.
#![tactic(auto)]

mod evaluate;
mod job;
mod plan;

pub use evaluate::{empty_slots, evaluate_plain};
pub use job::Job;
pub use plan::{Edge, Plan, PlanRefusal};
