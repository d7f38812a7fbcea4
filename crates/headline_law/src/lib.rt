//! The headline: what holds at every moment of the run of every schedule that a text says, and what more holds under the
//! run assumptions.
#![tactic(auto)]

mod blame;
mod certified;
mod epochs;
mod finality;
mod followers;
mod money;
mod presence;
mod readiness;
mod reports;
mod statements;
mod versions;

ghost use Rattle.headline_law.specs.Headline.{EveryMomentHolds};

pub use blame::{none_is_honest, they_have_more_than_a_third};
pub use certified::{certified_agrees, certified_agrees_in_schedules, certified_is_built};
pub use epochs::{counted_is_stated, ends_are_whole, nothing_free_waits};
pub use finality::{final_is_agreed, final_once, final_stands, final_stands_in_schedules};
pub use followers::{
    followers_come_through, followers_come_through_in_schedules, followers_open_alike,
    followers_open_alike_in_schedules, honest_checkpoints_are_followed,
    honest_checkpoints_are_followed_in_schedules, looked_up_is_handed,
};
pub use money::{
    amounts_stay_amounts, gas_was_held, money_stays_amounts, openings_hold_amounts,
    read_currencies_are_backed, read_gas_alone_leaves, read_set_ups_are_amounts,
    read_set_ups_have_no_gas_cap, threads_keep_amounts,
};
pub use presence::{
    certificates_fit, every_vote_was_cast, owned_inputs_are_present, owned_inputs_fit,
};
pub use readiness::{
    due_is_ready, next_round_takes_all, next_round_takes_due, no_run_leaves_anything,
    no_turn_waits_behind_a_run, none_is_unfit, nothing_clashes, nothing_is_left,
    nothing_is_ready_behind_a_run, present_is_ready, runs_are_complete, runs_build_all,
    runs_execute_admitted, runs_execute_all, runs_execute_ready, shared_inputs_are_present,
    shared_inputs_fit, versions_are_shared_alike, what_is_ready_is_executed, writes_new_keys,
};
pub use reports::{
    printed_is_final, read_reports_hold, ready_is_always_executed, reported_stands,
    reports_are_calm,
};
pub use statements::{
    every_ack_was_executed, every_end_was_settled, every_statement_was_made, executed_is_admitted,
};
pub use versions::{assigned_versions_rise, versions_are_one_chain};

/// After each prefix of the lines of a schedule, no member has cast votes in one epoch for transactions of different
/// digests that consume one version. And as long as under a third of the stake is faulty, no statement is forged and no
/// digests collide:
/// - no two certified transactions of an epoch consume one version;
/// - every member opened its epoch with what one thread leaves, and built that thread's checkpoints;
/// - a run leaves no certificate absent or unfit;
/// - of the currency of gas only gas goes, and the opening objects hold as much of each other one as its caps say;
/// - what a quorum acknowledged stands in a checkpoint of its epoch at each member that has left it, and so does what a
///   `final by` line of the report names.
pub fn headline()
    ensures { EveryMomentHolds }
{}
