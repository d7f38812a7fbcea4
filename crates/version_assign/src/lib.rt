//! The admission of the certificates of one epoch's sequence, and the versions that it assigns to shared objects.
//!
//! An [`Admission`] is handed the certificates of the sequence and its Commit marks, in order. It admits a certificate
//! once the transactions that its origins name are admitted and, if there is a limit, the objects that it writes have
//! fewer writers since the last mark; those that wait are admitted in order of arrival. An admitted transaction's
//! shared inputs get their current versions (Sui Lutris); that certificates wait for origins, and the limit, are this
//! profile's own.
#![tactic(auto)]

mod admission;
mod asking;
mod begun;
mod book;
mod changes;
mod entries;
mod excerpt;
mod laws;
mod lines;
mod register;
mod renewing;
mod shared;
mod shelf;
mod taken;
mod waits;

pub use admission::Admission;
pub use changes::Change;
pub use laws::shared_objects_serve;
pub use taken::Taken;
