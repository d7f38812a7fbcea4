//! Values and their bytes: objects, transactions, statements, certificates, entries, effects and checkpoints.
//!
//! Each value has one encoding, which [`encode`] writes and its `decode_` function reads; a fault is the first wrong byte.

pub use chain_messages::{
    Certificate, Entry, MemberSeal, Sealed, Statement, decode_certificate, decode_entry,
    decode_sealed, decode_statement,
};
pub use chain_types::{
    Address, Argument, Command, Content, Input, Kind, Object, ObjectId, ObjectKey, ObjectRef,
    Owner, SignedTx, Transaction, decode_signed, object_digest,
};
pub use checkpoint_core::{Checkpoint, Item};
pub use digest_core::{Digest, address_of, genesis_id};
pub use effects_core::{Effects, Status, Written};
pub use wallet_core::{
    EncodeRefusal, Measured, checkpoint_digest, coin_of, effects_digest, encode, tx_digest,
};
pub use wire_bcs::{OutOfMemory, Seq, Unread, Wire, WireFault};
