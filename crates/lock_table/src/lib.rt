//! The lock table of a member: the transaction for which each owned object version was voted.
//!
//! A finite map from key to transaction digest, kept in the order of locking. `lock_all` locks all
//! the keys of a transaction or none, even if memory is refused; a lock is never taken over by
//! another transaction before the table is cleared at the end of the epoch (Sui Lutris, owned
//! object locks). Each call costs time in proportion to its keys.
#![tactic(auto)]

mod locks;

pub use locks::{LockRefusal, LockTable};
