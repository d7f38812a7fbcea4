//! Theorems about every member in every run: quorums intersect, no version is in two votes or two certified
//! transactions, and a journal gives the member back.
//!
//! Theorems about several members: what they admit, execute and checkpoint, and how they open each epoch.
#![tactic(auto)]

mod agreement;
mod current;
mod epochs;
mod owners;
mod quorums;
mod replays;
mod votes;

pub use agreement::{
    every_admission, executions_agree, executions_explained, held_as_given,
    members_follow_the_sequence, one_sequence, one_transaction,
};
pub use current::{
    checkpoints_of_fold, effects_of_fold, epochs_open_apart, executed_is_step, executions_same,
    set_up_apart, steps_orderly, turns_to_fold, versions_same,
};
pub use epochs::{
    built_is_of_thread, currencies_are_backed, every_checkpoint, every_opening, members_agree,
    one_list_of_checkpoints, only_gas_leaves, opened_alike, set_up_has_no_gas_cap,
    set_up_is_backed, versions_are_chains,
};
pub use owners::{
    certified_is_formed_or_valid, certified_is_voted_for, formed_is_voted_for, fronts_are_honest,
    no_call_meets_a_fork, no_fork_is_met, nothing_is_forged, one_list_of_origins, one_owner,
    sender_has_signed, statements_only_grow,
};
pub use quorums::two_quorums_meet;
pub use replays::no_record_is_bad;
pub use votes::{
    every_record_is_due, every_vote_is_kept, no_version_is_voted_twice, votes_name_one_origins,
    votes_share_no_version,
};
