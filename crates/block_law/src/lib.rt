//! Theorems about the execution of a block, each for every transaction and all objects: what it keeps, and what it
//! makes of shared objects.
//!
//! Theorems about one thread: what the execution of a list of transactions keeps, what a list in another order leaves,
//! and what admission makes of a sequence.
#![tactic(auto)]

mod admissions;
mod block;
mod chains;
mod sequences;
mod shared;

pub use admissions::{admitted_in_order, nothing_deferred};
pub use block::{
    a_failed_block_pays_gas, caps_are_kept, effects_name_each_id_once,
    effects_name_what_is_touched, gas_currency_is_kept, money_moves_with_supplies,
};
pub use chains::{chain_reads, live_is_map, live_list_is_map};
pub use sequences::{
    backed_currencies_stay_backed, caps_stay_in_sequence, money_moves_in_sequence, only_gas_goes,
    untouched_objects_stay,
};
pub use shared::{shared_inputs_are_written, writes_stay_shared};
