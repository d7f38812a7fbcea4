//! A light client: what a client that trusts only the stakes of a committee finds out from bytes.
//!
//! Seals are judged by a [`Checker`]: [`AcceptedSeals`] is a set that the caller has verified, and a sealer is one too.

pub use light_client::{
    AcceptedSeals, Acknowledged, Checker, Listing, Refusal, SealRow, blame_members,
    check_certificate, check_chain, check_chain_by, check_final, find_transaction,
    list_acknowledgements, list_certificate, list_chain,
};
