//! The versions that a member holds in an epoch, and the transactions that it has executed.
//!
//! A [`Store`] opens with the objects of the epoch; [`Store::write`] adds what one executed transaction
//! wrote. Every version stays held until the epoch ends, since a reader that is executed late still reads
//! the version that it was assigned. At its end [`Store::revert_to`] undoes what no checkpoint has, and
//! [`Store::turn`] opens the next epoch with the live objects. Contracts see the opening objects and the list
//! of executions, and each answer is that of the definitions on this list. Look-ups are by maps: none scans
//! what is held.
//!
//! The opening objects stand in a base, one version under each id, and what the epoch did in maps of its
//! own. A turn puts the newest of those into the base: it walks what was written, and not what is held.
#![tactic(auto)]

mod base;
mod changed;
mod found;
mod fresh;
mod live;
mod maps;
mod revert;
mod store;
mod turn;

pub use store::Store;
