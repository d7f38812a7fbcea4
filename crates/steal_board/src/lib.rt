//! Claims and values of a plan's tasks, for callers on any threads.
//!
//! A [`Board`] is laid over a plan. It has one word per task, the number of its unpaid incoming edges or the mark 2^64 - 1
//! if the task is claimed, and one slot per edge. Each caller has a [`BoardSeat`], whose view says what was claimed,
//! paid and taken with it. The board rule holds between any two steps, whatever the order in which threads make them:
//! each task is claimed at most once over all seats, only once all its incoming edges are paid, and an edge's slot
//! gives the plan's value. No call but `lay` and `close` takes memory, and none waits.
#![tactic(auto)]

mod board;
mod law;
mod view;
mod words;

pub use board::{Board, BoardSeat, Claim};
pub use view::{Paper, View};
