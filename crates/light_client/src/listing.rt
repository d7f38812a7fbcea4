//! Listing the seals in bytes, with their statements, for a caller that checks each seal itself.

ghost use Rattle.std.specs.Prelude.{◌≡◌, ◌++◌, ◌∷◌, [], IfOk, Ok, OnOk, length, map};
ghost use Rattle.wire_bcs.specs.Shapes.{seq};
ghost use Rattle.chain_messages.specs.Messages as codecs;
ghost use Rattle.light_check.specs.Chains as chains;
ghost use Rattle.light_client.specs.Input.{Answers};
ghost use Rattle.light_client.specs.Finality.{AllShort};
ghost use Rattle.light_client.specs.Listing.{Lists, acknowledgements_listing, certificate_listing, chain_listing, listed, of_acknowledgements, of_certificate, of_chain, of_link, row_at};
ghost use Rattle.light_client.specs.declared.listing.Listing.{Listing as ListingOf};

use crate::accepted::SealRow;
use crate::certificates::vote_bytes;
use crate::chains::stated;
use crate::input::read_input;
use crate::refusal::Refusal;
use chain_messages::{Certificate, MemberSeal, Sealed, encode_statement};
use chain_types::tx_digest;
use light_check::{Chain, Link};
use std::alloc::Global;
use wire_bcs::{OutOfMemory, Seq};

/// A list of seals: each row is a seal on a statement, which stands among the bytes of `statements`.
#[derive(Debug, Drop)]
pub struct Listing {
    pub rows: Seq<SealRow>,
    pub statements: Seq<u8>,
}

/// Adds the rows of these seals on a statement that stands at this offset.
fn add_rows(
    rows: &mut Seq<SealRow>,
    at: u64,
    statement: &[u8],
    seals: &[MemberSeal],
) -> Result<(), OutOfMemory>
    ensures { OnOk result (rows.new ≡ rows.old ++ map (row_at at statement.now) seals.now) }
{
    let mut rest = seals;
    while let [seal, after @ ..] = rest {
        rows.push(SealRow {
            at,
            length: statement.len() as u64,
            member: seal.member,
            seal: seal.seal.0,
        })?;
        rest = after;
    }
    Ok(())
}

impl Listing {
    /// No seals. Takes no memory.
    fn new(alloc: Global) -> Listing
        ensures rows { result.rows ≡ [] }
        ensures statements { result.statements ≡ [] }
    {
        Listing {
            rows: Seq::new(alloc),
            statements: Seq::new(alloc),
        }
    }

    /// Adds a statement, and the seals on it.
    fn add(&mut self, statement: &[u8], seals: &[MemberSeal]) -> Result<(), OutOfMemory>
        ensures rows { OnOk result (self.new.rows ≡ self.old.rows ++ map (row_at (length self.old.statements) statement.now) seals.now) }
        ensures statements { OnOk result (self.new.statements ≡ self.old.statements ++ statement.now) }
    {
        let at = self.statements.len();
        self.statements.extend(statement)?;
        add_rows(&mut self.rows, at, statement, seals)
    }
}

/// Adds the seals of links.
fn add_links(alloc: Global, listing: &mut Listing, links: &[Link]) -> Result<(), OutOfMemory>
    requires none_yet { listing.old ≡ listed [] }
    requires short { chains.AllShort links.now }
    ensures { OnOk result (listing.new ≡ listed (map of_link links.now)) }
{
    let mut rest = links;
    while let [link, after @ ..] = rest {
        let statement = stated(alloc, &link.checkpoint)?;
        listing.add(statement.as_slice(), link.seals.as_slice())?;
        rest = after;
    }
    Ok(())
}

/// Adds the seals of sealed statements.
fn add_sealed(alloc: Global, listing: &mut Listing, said: &[Sealed]) -> Result<(), OutOfMemory>
    requires none_yet { listing.old ≡ listed [] }
    requires short { AllShort said.now }
    ensures { OnOk result (listing.new ≡ listed (of_acknowledgements said.now)) }
{
    let mut rest = said;
    while let [sealed, after @ ..] = rest {
        let statement = encode_statement(alloc, &sealed.statement)?;
        let seal = MemberSeal {
            member: sealed.member,
            seal: sealed.seal,
        };
        listing.add(statement.as_slice(), &[seal])?;
        rest = after;
    }
    Ok(())
}

/// Adds the seals of a certificate.
#[tactic(auto, using(crate::proofs::Votes::tx_short))]
fn add_certificate(
    alloc: Global,
    listing: &mut Listing,
    cert: &Certificate,
) -> Result<(), OutOfMemory>
    requires none_yet { listing.old ≡ listed [] }
    requires short { codecs.certificate.short cert.now }
    ensures { OnOk result (listing.new ≡ listed (of_certificate cert.now)) }
{
    let digest = tx_digest(alloc, &cert.tx)?;
    let statement = vote_bytes(alloc, cert, digest)?;
    listing.add(statement.as_slice(), cert.seals.as_slice())
}

/// The seals of the chain that the bytes encode, each on what its member states of the checkpoint; else why there are
/// none: `TooLarge` or `Malformed`.
#[tactic(auto, unfolding(crate::specs::Listing::chain_listing))]
pub fn list_chain(alloc: Global, bytes: &[u8]) -> Result<Listing, Refusal>
    ensures exact { Answers result (chain_listing bytes.now) }
    // All its seals are accepted with the listing.
    ensures named { IfOk result (Lists chains.chain of_chain bytes.now) }
{
    let chain: Chain = read_input(alloc, bytes)?;
    let mut listing = Listing::new(alloc);
    let added = add_links(alloc, &mut listing, chain.links.as_slice());
    drop(chain);
    added?;
    Ok(listing)
}

/// The seals of the certificate that the bytes encode, each on the vote of its member; else why there are none:
/// `TooLarge` or `Malformed`.
#[tactic(auto, unfolding(crate::specs::Listing::certificate_listing))]
pub fn list_certificate(alloc: Global, bytes: &[u8]) -> Result<Listing, Refusal>
    ensures exact { Answers result (certificate_listing bytes.now) }
    // All its seals are accepted with the listing.
    ensures named { IfOk result (Lists codecs.certificate of_certificate bytes.now) }
{
    let cert: Certificate = read_input(alloc, bytes)?;
    let mut listing = Listing::new(alloc);
    let added = add_certificate(alloc, &mut listing, &cert);
    drop(cert);
    added?;
    Ok(listing)
}

/// The seals of the list of sealed statements that the bytes encode; else why there are none: `TooLarge` or `Malformed`.
#[tactic(auto, unfolding(crate::specs::Listing::acknowledgements_listing), using(crate::proofs::Final::all_short))]
pub fn list_acknowledgements(alloc: Global, bytes: &[u8]) -> Result<Listing, Refusal>
    ensures exact { Answers result (acknowledgements_listing bytes.now) }
    // All its seals are accepted with the listing.
    ensures named { IfOk result (Lists (seq codecs.sealed) of_acknowledgements bytes.now) }
{
    let said: Seq<Sealed> = read_input(alloc, bytes)?;
    let mut listing = Listing::new(alloc);
    let added = add_sealed(alloc, &mut listing, said.as_slice());
    drop(said);
    added?;
    Ok(listing)
}
