//! Definitions of a run of a schedule: the world, its report and journals, the run assumptions.
//!
//! Also what code sees of a run: a member at its seat, and a world without its members' records.
//!
//! The definitions keep every member's records, and compute its state from them. Code keeps the state of each member
//! that is up, and leaves the records to the keeper. A scene is a world seen in this way. That a step of the scene is
//! the definition's step, with the same lines, is a law of `run_law`.
#![tactic(auto)]

mod laws;

pub use laws::{
    acks_change_nothing, acks_need_no_rules, closes_need_no_rules, ends_change_nothing,
    ends_need_no_rules, runs_need_no_rules, turns_need_no_rules,
};
