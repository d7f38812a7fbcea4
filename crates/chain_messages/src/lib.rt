//! What the members of the committee send each other: statements, certificates and the entries of
//! the consensus sequence.
#![tactic(auto)]

mod encoded;
mod members;
mod messages;
mod messages_wire;

pub use encoded::{decode_certificate_with, decode_entry_with};
pub use members::members_of;
pub use messages::{Certificate, Entry, MemberSeal, Sealed, Statement};
pub use messages_wire::{
    decode_certificate, decode_entry, decode_sealed, decode_statement, encode_certificate,
    encode_entry, encode_sealed, encode_statement,
};
