//! Objects and transactions, as the chain's messages have them.
//!
//! Plain data: a layer above reads the fields. What a rule says of them stands in the crates of
//! definitions and of rules above.
#![tactic(auto)]

mod digests;
mod encoded;
mod hashed;
mod keys;
mod long;
mod natives;
mod objects;
mod objects_wire;
mod refusals;
mod transactions;
mod transactions_wire;

pub use digests::object_digest;
pub use encoded::{decode_signed_with, encoded_digest};
pub use hashed::HashedObject;
pub use keys::{lamport, object_count, owned_keys};
pub use long::has_long_list;
pub use natives::{LAST_NATIVE, Mode, NATIVES, Native};
pub use objects::{
    Address, Content, Kind, Object, ObjectId, ObjectKey, ObjectRef, Owner, Producer,
};
pub use refusals::{CertRefusal, DecideRefusal};
pub use transactions::{Argument, Command, Input, SignedTx, Transaction};
pub use transactions_wire::{decode_signed, encode_signed, encode_tx, tx_digest};
pub use wire_bcs::Unread;
