//! The effects of a transaction: what its execution wrote, deleted and cost; and sums of a currency.
#![tactic(auto)]

mod effects;
mod effects_wire;
mod hashed;
mod money;

pub use effects::{Effects, Status, Written};
pub use effects_wire::effects_digest;
pub use hashed::HashedEffects;
pub use money::currency_sum;
