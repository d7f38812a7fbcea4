//! Lists, and BCS items on the wire.
//!
//! [`Seq`] is the list type that every layer above shares: contracts see it as a plain list.
//! [`OutOfMemory`] is the one answer to a refused allocation, in every crate.
//! A call says whether it takes memory: those that answer `OutOfMemory` do, the others do not.
//!
//! [`Writer`] and [`Reader`] write and read the items. A type is [`Wire`] by a codec of `specs/`: its one
//! encoding and how it is read back, with the proofs that the two agree. What is written is the encoding
//! of the value; a value is read exactly if the input is its encoding; a fault is the first from the
//! left, and comes exactly if there is no value. A type's codec is made of those of its parts.
#![tactic(auto)]

mod ascending;
mod copies;
mod encoded;
mod fault;
mod fields;
mod reader;
mod seq;
mod wire;
mod writer;

pub use ascending::ascends;
pub use copies::Duplicate;
pub use encoded::{Encoded, read_encoded};
pub use fault::{FaultKind, Unread, WireFault};
pub use fields::{put_variant, put_variant_of_three, put_variant_of_two};
pub use reader::Reader;
pub use seq::{OutOfMemory, Seq};
pub use wire::{Wire, decode, encode, one_spelling, read, read_is_spelled, spelled_is_read};
pub use writer::Writer;
