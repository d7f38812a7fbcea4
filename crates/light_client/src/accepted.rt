//! A set of seals that a caller has accepted.

ghost use Rattle.std.specs.Prelude.{◌≡◌, bytes_eq, drop, is_some, take};
ghost use Rattle.std.specs.List.{list_any};
ghost use Rattle.light_client.specs.Accepted.{accepted_in, names_member, statement_of, names_seal};

use digest_core::Digest;
use quorum_core::{Checker, Signer};
use std::cell::Cell;

/// A seal of a member on a statement, which stands at an offset in the bytes beside the rows.
#[repr(C)]
#[derive(Clone, Copy, Debug, PartialEq, Eq)]
pub struct SealRow {
    /// The offset of the statement's first byte.
    pub at: u64,
    /// The number of its bytes.
    pub length: u64,
    pub member: u32,
    pub seal: [u8; 32],
}

/// The seals that are accepted: each row names a member, a statement among the bytes, and a seal.
#[derive(Drop)]
pub struct AcceptedSeals<'a> {
    rows: &'a [SealRow],
    statements: &'a [u8],
    /// Where the next seal is looked for first: it changes no answer.
    next: Cell<usize>,
}

/// The statement of a row: this many bytes from its offset on, as far as there are some.
fn statement_of<'a>(statements: &'a [u8], row: &SealRow) -> &'a [u8]
    ensures { result.now ≡ statement_of statements.now row.now }
{
    let (_, rest) = statements.split_at((row.at as usize).min(statements.len()));
    let (statement, _) = rest.split_at((row.length as usize).min(rest.len()));
    statement
}

/// Whether a row is of this member.
fn names_member(row: &SealRow, signer: &Signer) -> bool
    ensures { result ≡ names_member row.now signer.now }
{
    match signer {
        Signer::Member(member) => row.member == *member,
        Signer::User(_) => false,
    }
}

/// Whether a row names the seal of this signer on these bytes.
fn names_seal(
    statements: &[u8],
    signer: &Signer,
    bytes: &[u8],
    seal: &Digest,
    row: &SealRow,
) -> bool
    ensures { result ≡ names_seal statements.now signer.now bytes.now seal.now row.now }
{
    names_member(row, signer)
        && Digest(row.seal) == *seal
        && *statement_of(statements, row) == *bytes
}

/// The place of the first row that names the seal.
fn place_of(
    rows: &[SealRow],
    statements: &[u8],
    signer: &Signer,
    bytes: &[u8],
    seal: &Digest,
) -> Option<usize>
    ensures { is_some result ≡ list_any (names_seal statements.now signer.now bytes.now seal.now) rows.now }
{
    let mut place = 0;
    let mut rest = rows;
    while let [row, after @ ..] = rest {
        if names_seal(statements, signer, bytes, seal, row) {
            return Some(place);
        }
        place += 1;
        rest = after;
    }
    None
}

/// The place of a row that names the seal; the rows from `from` on are tried first, then those before.
fn place_from(
    rows: &[SealRow],
    from: usize,
    statements: &[u8],
    signer: &Signer,
    bytes: &[u8],
    seal: &Digest,
) -> Option<usize>
    ensures { is_some result ≡ list_any (names_seal statements.now signer.now bytes.now seal.now) rows.now }
{
    let from = from.min(rows.len());
    let (before, behind) = rows.split_at(from);
    match place_of(behind, statements, signer, bytes, seal) {
        Some(place) => Some(from.saturating_add(place)),
        None => place_of(before, statements, signer, bytes, seal),
    }
}

impl<'a> AcceptedSeals<'a> {
    /// The set of these rows over these bytes.
    pub fn new(rows: &'a [SealRow], statements: &'a [u8]) -> AcceptedSeals<'a>
        ensures rows { result.rows.now ≡ rows.now }
        ensures statements { result.statements.now ≡ statements.now }
    {
        AcceptedSeals {
            rows,
            statements,
            next: Cell::new(0),
        }
    }
}

impl Checker for AcceptedSeals<'_> {
    ghost accepts = { λ set. accepted_in set.rows.now set.statements.now };

    fn check(&self, signer: &Signer, bytes: &[u8], seal: &Digest) -> bool {
        match place_from(
            self.rows,
            self.next.get(),
            self.statements,
            signer,
            bytes,
            seal,
        ) {
            Some(place) => {
                self.next.set(place.saturating_add(1));
                true
            }
            None => false,
        }
    }
}
