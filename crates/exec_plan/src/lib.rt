//! The execution of held certificates in rounds, by a plan of tasks.
//!
//! A run executes the certificates that a member holds, round after round: a round has those that are
//! ready after the rounds before it, in order of holding, and reads the store as it was before the round.
//! A certificate with a shared input runs once it is admitted, and reads the version that admission
//! assigned. [`left`] says which certificates a run leaves although all that they waited for is executed.
//! A [`DependencyIndex`] keeps the places of the held certificates that are not executed: under their own
//! transaction until that is admitted, and then under a transaction that makes what they want. A run looks
//! at those that wait for nothing, and at those that wait for what it plans.
//!
//! No round is executed as such. [`plan_ready`] makes a [`Task`] for each certificate whose turn may come, layer after
//! layer, and an edge for each version that one makes for a later one, and executes nothing. A caller that evaluates the
//! plan, on one thread or on many, hands its outputs to [`settle`], which keeps those that the rounds execute, writes
//! them and answers their effects. A task is not kept if one that makes what it wants is not, if what it wants is
//! missing or does not fit it, or if it writes a version that is already there. [`run_planned`] does all three on the
//! caller's thread, [`run_pooled`] on workers in threads of their own. [`plan_keeps_the_rounds`] and
//! [`plan_leaves_the_left`] are theorems over the definitions: what is kept is what the rounds execute, and what is
//! left is what the rounds leave. A member executes a block only by a task.
#![tactic(auto)]

mod behind;
mod drafting;
mod inputs;
mod keeping;
mod leaving;
mod link;
mod makers;
mod past;
mod planner;
mod planning;
mod pooled;
mod ready;
mod settled;
mod task;
mod waiting;

pub use leaving::left;
pub use planning::{layers_are_rounds, plan_keeps_the_rounds, plan_leaves_the_left};
pub use pooled::run_pooled;
pub use ready::{Ready, plan_ready};
pub use settled::{run_planned, settle};
pub use task::{Carry, Outcome, Slot, Task, Want};
pub use waiting::DependencyIndex;
