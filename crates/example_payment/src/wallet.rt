//! The wallet, which asks both nodes over channels, makes the certificate of their votes and finds that the payment is final.

use crate::node::Said;
use anyhow::Result;
use crossbeam_channel::{Receiver, Sender};
use std::alloc::Global;
use std::sync::Wait;
use sui_validator::node::Committee;
use sui_validator::types::{Certificate, Entry, Sealed, Seq, decode_signed, encode};
use sui_validator::wallet::{certify, finality};

/// The wallet's ends of the channels to each node.
pub type Nodes = [(Sender<Seq<u8>>, Receiver<Said>); 2];

/// Hands bytes to both nodes.
fn send<R: Wait>(rt: &R, alloc: Global, nodes: &Nodes, bytes: &[u8]) -> Result<()> {
    for (asks, _) in nodes {
        asks.send(rt, Seq::from_slice(alloc, bytes)?)?;
    }
    Ok(())
}

/// Hands bytes to both nodes, and collects the statements that they seal. A refusal is printed.
fn ask<R: Wait + Print>(rt: &R, alloc: Global, nodes: &Nodes, bytes: &[u8]) -> Result<Seq<Sealed>> {
    send(rt, alloc, nodes, bytes)?;
    let mut statements = Seq::new(alloc);
    for (_, said) in nodes {
        match said.recv(rt)? {
            Ok(sealed) => statements.push(sealed)?,
            Err(refusal) => println!(rt; "no: {refusal}")?,
        }
    }
    Ok(statements)
}

/// Makes the certificate of a payment of these votes.
fn certified(
    alloc: Global,
    committee: &Committee,
    payment: &[u8],
    votes: &Seq<Sealed>,
) -> Result<Certificate> {
    let signed = decode_signed(alloc, payment)?;
    let cert = certify(alloc, &signed.tx, votes, committee);
    drop(signed);
    Ok(cert?)
}

/// Collects both votes for a payment: its certificate.
fn order<R: Wait + Print>(
    rt: &R,
    alloc: Global,
    nodes: &Nodes,
    committee: &Committee,
    payment: &[u8],
) -> Result<Certificate> {
    let votes = ask(rt, alloc, nodes, payment)?;
    let cert = certified(alloc, committee, payment, &votes);
    drop(votes);
    cert
}

/// Has both nodes execute the certificate that the bytes are, and says by how many it is final.
fn pay<R: Wait + Print>(
    rt: &R,
    alloc: Global,
    nodes: &Nodes,
    committee: &Committee,
    cert: &[u8],
) -> Result<()> {
    let acks = ask(rt, alloc, nodes, cert)?;
    let paid = finality(alloc, &acks, committee);
    drop(acks);
    let nodes = paid?.members.len();
    println!(rt; "final by {nodes} nodes")?;
    Ok(())
}

/// Asks both nodes for a second spend, and says how many vote for it.
fn spend_again<R: Wait + Print>(rt: &R, alloc: Global, nodes: &Nodes, second: &[u8]) -> Result<()> {
    let votes = ask(rt, alloc, nodes, second)?;
    let count = votes.len();
    drop(votes);
    println!(rt; "{count} votes for the second spend")?;
    Ok(())
}

/// The bytes of an entry of the sequence.
fn entry_of(alloc: Global, entry: Entry) -> Result<Seq<u8>> {
    let bytes = encode(alloc, &entry);
    drop(entry);
    Ok(bytes?)
}

/// The bytes of a certificate, and those of it as an entry of the sequence.
fn bytes_of(alloc: Global, cert: Certificate) -> Result<(Seq<u8>, Seq<u8>)> {
    let bytes = encode(alloc, &cert);
    let entry = entry_of(alloc, Entry::Cert(cert));
    Ok((bytes?, entry?))
}

/// Orders the certificate's entry and then both Ends in the sequence.
fn end<R: Wait + Print>(rt: &R, alloc: Global, nodes: &Nodes, entry: &[u8]) -> Result<()> {
    for end in ask(rt, alloc, nodes, entry)?.into_vec() {
        let entry = entry_of(alloc, Entry::End(end))?;
        send(rt, alloc, nodes, entry.as_slice())?;
    }
    Ok(())
}

/// A payment, a second spend of its coin, and the end of the epoch.
pub(crate) fn trade<R: Wait + Print>(
    rt: &R,
    alloc: Global,
    nodes: &Nodes,
    text: &[u8],
) -> Result<()> {
    let (payment, second) = text.split_at(text.len() / 2);
    let committee = Committee::new(&[1, 1])?;
    let cert = order(rt, alloc, nodes, &committee, payment)?;
    let (bytes, entry) = bytes_of(alloc, cert)?;
    pay(rt, alloc, nodes, &committee, bytes.as_slice())?;
    spend_again(rt, alloc, nodes, second)?;
    end(rt, alloc, nodes, entry.as_slice())
}
