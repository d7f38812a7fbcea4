//! A light client: it reads a chain of checkpoints from standard input, and says whether the committee of four members of
//! stake 1 has certified it, and in which checkpoint a transaction stands.
#![tactic(auto)]

use outside::read_text;
use outside_std::InSource;
use std::alloc::Global;
use std::io;
use sui_validator::client::{AcceptedSeals, Refusal, check_chain, find_transaction, list_chain};
use sui_validator::node::Committee;
use sui_validator::types::Digest;

/// How many links the chain has, if it is certified. A caller with real signatures verifies each listed seal first, and
/// hands on those that it accepts; this one takes all of them.
fn links_of(alloc: Global, chain: &[u8], committee: &Committee) -> Result<u64, Refusal> {
    let listing = list_chain(alloc, chain)?;
    let seals = AcceptedSeals::new(listing.rows.as_slice(), listing.statements.as_slice());
    let links = check_chain(alloc, chain, committee, &seals);
    drop(seals);
    drop(listing);
    links
}

/// Says what is found.
fn tell(rt: &HostRuntime, chain: &[u8], committee: &Committee, tx: &Digest) -> io::Result<()> {
    match links_of(rt.alloc(), chain, committee) {
        Ok(links) => println!(rt; "certified: {links} links")?,
        Err(refusal) => return println!(rt; "not certified: {refusal}"),
    }
    match find_transaction(rt.alloc(), chain, tx) {
        Ok((number, _effects)) => println!(rt; "the transaction stands in checkpoint {number}"),
        Err(refusal) => println!(rt; "the transaction is not found: {refusal}"),
    }
}

fn main(rt: HostRuntime) -> io::Result<()> {
    let mut source = InSource::new(rt.reader());
    let Ok(chain) = read_text(rt.alloc(), 16_777_216, &mut source) else {
        return println!(rt; "nothing was read");
    };
    let Ok(committee) = Committee::new(&[1, 1, 1, 1]) else {
        drop(chain);
        return println!(rt; "the stakes are not a committee");
    };
    let told = tell(&rt, chain.as_slice(), &committee, &Digest([0x11; 32]));
    drop(chain);
    told
}
