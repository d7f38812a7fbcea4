//! The tables of an admission.

ghost use Rattle.std.specs.Prelude.{◌≡◌, fold, ◌+◌, ◌-◌, ◌<◌, ◌≤◌, ◌&&◌, ◌++◌, ◌∷◌, [], IfOk, IfSome, OnErr, OnOk, Option, Some, None, ℕ, Bool, true, false, drop, filter_map, find, is_some, length, map, not, option_map, slice_get, slice_set};
ghost use Rattle.std.specs.List.{list_all, list_any};
ghost use Rattle.std.specs.Vec.{vec_capacity, vec_len};
ghost use Rattle.chain_types.specs.Equal.{digest_eq};
ghost use Rattle.protocol_spec.specs.Chain.Words.{first_of};
ghost use Rattle.protocol_spec.specs.Member.Admission.{full_id, has_room, is_admitted, is_free, missing_origin};
ghost use Rattle.version_assign.specs.Books.{AreLines, IsKept, IsSkipped, admission_of, lacks_one, opening_of, placed, row_at, shown, version_within};
ghost use Rattle.version_assign.specs.Calls.{settled, with_taken};
ghost use Rattle.indexmap.specs.IndexMap.{spare};
ghost use Rattle.version_assign.specs.Lines.{are_lined, filled, greater_assigned, greatest_of};
ghost use Rattle.version_assign.specs.Steps.{Admits, Drops, Gives, Skips, TakesOut, is_free_one, judged};

use crate::excerpt::{Candidate, Excerpt};
use crate::lines::{Line, fill, line_at, move_lines};
use chain_types::{Object, ObjectId, Producer};
use digest_core::Digest;
use indexmap::{IndexMap, IndexSet};
use protocol_spec::Assigned;
use tables::insert_in_room;
use wire_bcs::Seq;

/// A certificate that waits, and what its shared inputs would be assigned if nobody had named them before.
#[derive(Drop)]
pub(crate) struct PendingCertificate {
    pub(crate) held: Candidate,
    pub(crate) assigned: Vec<Assigned>,
}

/// An admitted certificate: the version at which it writes, and the versions of its shared inputs.
#[derive(Drop)]
pub(crate) struct AdmittedCertificate {
    pub(crate) cert: Excerpt,
    pub(crate) version: u64,
    pub(crate) assigned: Seq<Assigned>,
}

/// The tables of an admission: certificates in order of arrival, admitted and dropped ones, and a line for each shared
/// object that one of them named.
#[derive(Drop)]
pub(crate) struct AdmissionTables {
    /// In order of arrival; none if the certificate was admitted or dropped.
    pub(crate) rows: Vec<Option<PendingCertificate>>,
    /// The digests of all of them, in the same order.
    pub(crate) known: IndexSet<Digest>,
    pub(crate) admitted: IndexMap<Digest, AdmittedCertificate>,
    pub(crate) dropped: Vec<Digest>,
    /// How many were admitted before the last mark.
    pub(crate) marked: usize,
    /// How many wait.
    pub(crate) waiting: usize,
    /// No certificate waits at a place below this one.
    pub(crate) low: usize,
    pub(crate) lines: IndexMap<ObjectId, Line>,
    /// The shared objects with which the epoch opened.
    pub(crate) opening: IndexMap<ObjectId, Object>,
    pub(crate) writers: Option<u32>,
}

/// Takes the row at a place, if there is one.
fn take_row(rows: &mut Vec<Option<PendingCertificate>>, place: usize) -> Option<PendingCertificate>
    ensures taken { result ≡ row_at rows.old.items place }
    ensures left { rows.new.items ≡ slice_set rows.old.items place None }
{
    if place < rows.len() {
        return std::mem::replace(&mut rows[place], None);
    }
    None
}

/// Whether no certificate waits at a place.
fn is_taken(rows: &[Option<PendingCertificate>], place: usize) -> bool
    ensures { result ≡ not (is_some (row_at rows.now place)) }
{
    match rows.get(place) {
        Some(Some(_)) => false,
        Some(None) => true,
        None => true,
    }
}

/// The row of the certificate that waits at a place.
pub(crate) fn row_at(
    rows: &[Option<PendingCertificate>],
    place: usize,
) -> Option<&PendingCertificate>
    ensures { option_map (λ (r : _). r.now) result ≡ row_at rows.now place }
{
    match rows.get(place) {
        Some(Some(row)) => Some(row),
        Some(None) => None,
        None => None,
    }
}

/// Puts a digest after the others; there is room.
pub(crate) fn push_in_room(all: &mut Vec<Digest>, tx: Digest)
    requires { vec_len all.old < vec_capacity all.old }
    ensures items { all.new.items ≡ all.old.items ++ tx ∷ [] }
    ensures len { vec_len all.new ≡ vec_len all.old + 1 }
    ensures capacity { vec_capacity all.old ≤ vec_capacity all.new }
{
    match all.push(tx) {
        Ok(()) => {}
        Err(_) => unreachable!(),
    }
}

/// Whether an assigned version was to come from the epoch's opening, in which no shared object has its id: then the
/// certificate is dropped.
fn lacks_one(opening: &IndexMap<ObjectId, Object>, one: &Assigned) -> bool
    ensures { result ≡ lacks_one opening.now.entries one.now }
{
    matches!(one.writer, Producer::Opening) && !opening.contains_key(&one.id)
}

/// Whether one of the assigned objects is missing.
fn lacks_any(opening: &IndexMap<ObjectId, Object>, assigned: &[Assigned]) -> bool
    ensures { result ≡ list_any (lacks_one opening.now.entries) assigned.now }
{
    for one in assigned {
        if lacks_one(opening, one) {
            return true;
        }
    }
    false
}

/// The greatest of this version and those assigned.
fn greatest_assigned(greatest: u64, assigned: &[Assigned]) -> u64
    ensures { result ≡ fold greater_assigned greatest assigned.now }
{
    let mut greatest = greatest;
    let mut rest = assigned;
    while let [one, after @ ..] = rest {
        greatest = greatest.max(one.version);
        rest = after;
    }
    greatest
}

/// The version after `greatest`; none if it would be 2^62 or more, or an object is missing (`lacks`).
fn version_within(lacks: bool, greatest: u64) -> Option<u64>
    ensures { result ≡ version_within lacks greatest }
{
    if lacks || greatest >= 4611686018427387903 {
        None
    } else {
        Some(greatest + 1)
    }
}

impl AdmissionTables {
    /// Whether the transaction was admitted.
    #[tactic(auto, using(crate::proofs::Finding::admitted_is))]
    pub(crate) fn is_admitted(&self, tx: &Digest) -> bool
        ensures { result ≡ is_admitted (admission_of self.now).admitted tx.now }
    {
        self.admitted.contains_key(tx)
    }

    /// The first of these origins that is not admitted.
    pub(crate) fn missing(&self, origins: &[Option<Digest>]) -> Option<Digest>
        ensures { result ≡ first_of (missing_origin (admission_of self.now)) origins.now }
    {
        let mut rest = origins;
        while let [origin, after @ ..] = rest {
            if let Some(tx) = origin {
                if !self.is_admitted(tx) {
                    return Some(*tx);
                }
            }
            rest = after;
        }
        None
    }

    /// Whether the object has fewer writers than the limit.
    pub(crate) fn has_room(&self, id: &ObjectId) -> bool
        requires { AreLines self.now.writers (opening_of self.now) (admission_of self.now) self.now.lines.entries }
        ensures { result ≡ has_room self.now.writers (admission_of self.now) id.now }
    {
        match self.writers {
            Some(limit) => line_at(&self.lines, id).writers < limit,
            None => true,
        }
    }

    /// The first of these objects that has as many writers as the limit.
    pub(crate) fn full(&self, ids: &[ObjectId]) -> Option<ObjectId>
        requires { AreLines self.now.writers (opening_of self.now) (admission_of self.now) self.now.lines.entries }
        ensures { result ≡ first_of (full_id self.now.writers (admission_of self.now)) ids.now }
    {
        let mut rest = ids;
        while let [id, after @ ..] = rest {
            if !self.has_room(id) {
                return Some(*id);
            }
            rest = after;
        }
        None
    }

    /// Whether a waiting certificate is free: its origins are admitted, and what it writes has room for a writer.
    fn is_free(&self, held: &Candidate) -> bool
        requires { IsKept self.now }
        ensures { result ≡ is_free self.now.writers (admission_of self.now) held.now }
    {
        self.missing(held.origins()).is_none() && self.full(held.writes()).is_none()
    }

    /// Whether a certificate waits at a place and is free.
    pub(crate) fn is_free_at(&self, place: usize) -> bool
        requires { IsKept self.now }
        ensures { result ≡ is_free_one (shown self.now) (placed self.now.rows.items (Some place)) }
    {
        match self.rows.get(place) {
            Some(Some(row)) => self.is_free(&row.held),
            Some(None) => false,
            None => false,
        }
    }

    /// The first place at which a free certificate waits.
    pub(crate) fn first_free(&self) -> Option<usize>
        requires { IsKept self.now }
        ensures place { placed self.now.rows.items result ≡ find (is_free self.now.writers (admission_of self.now)) (admission_of self.now).pending }
        ensures free { IfSome result (λ place. is_free_one (shown self.now) (placed self.now.rows.items (Some place)) ≡ true) }
    {
        for place in self.low..self.rows.len() {
            if self.is_free_at(place) {
                return Some(place);
            }
        }
        None
    }

    /// The first place, from this one on, at which a certificate waits, or the number of rows.
    fn skipped(&self) -> usize
        requires { IsSkipped self.now.low self.now.rows.items }
        ensures { IsSkipped result self.now.rows.items }
    {
        let mut low = self.low;
        while low < self.rows.len() && is_taken(&self.rows, low) {
            low += 1;
        }
        low
    }

    /// Skips the places at which no certificate waits.
    pub(crate) fn skip(&mut self)
        requires { IsSkipped self.old.low self.old.rows.items }
        ensures { Skips self.old self.new }
    {
        self.low = self.skipped();
    }

    /// Puts the current versions into a row's assignments, and answers the version at which its transaction writes;
    /// none if it is to be dropped.
    fn judge(&self, row: &mut PendingCertificate) -> Option<u64>
        ensures held { row.new.held ≡ row.old.held }
        ensures filled { row.new.assigned.items ≡ map (filled self.now.lines.entries) row.old.assigned.items }
        ensures version { result ≡ judged self.now.opening.entries self.now.lines.entries row.old.held.cert row.old.assigned.items }
    {
        let lacks = lacks_any(&self.opening, row.assigned.as_slice());
        fill(&self.lines, row.assigned.as_mut_slice());
        let named = row.held.named();
        version_within(lacks, greatest_assigned(named, row.assigned.as_slice()))
    }

    /// Admits a certificate at a version.
    fn admit(&mut self, row: PendingCertificate, version: u64)
        requires room { 0 < spare self.old.admitted }
        requires lined { are_lined self.old.lines.entries row.assigned.items ≡ true }
        ensures { Admits self.old self.new row.held row.assigned.items version }
    {
        let tx = *row.held.digest();
        move_lines(&mut self.lines, row.assigned.as_slice(), version, tx);
        let admit = AdmittedCertificate {
            cert: row.held.into_cert(),
            version,
            assigned: Seq::from_vec(row.assigned),
        };
        insert_in_room(&mut self.admitted, tx, admit);
    }

    /// Drops a certificate.
    fn drop_out(&mut self, row: &PendingCertificate)
        requires { vec_len self.old.dropped < vec_capacity self.old.dropped }
        ensures { Drops self.old self.new row.now.held }
    {
        push_in_room(&mut self.dropped, *row.held.digest());
    }

    /// Judges a row that was taken out, and admits or drops its certificate.
    pub(crate) fn give(&mut self, row: PendingCertificate)
        requires admitted { 0 < spare self.old.admitted }
        requires dropped { vec_len self.old.dropped < vec_capacity self.old.dropped }
        requires lined { are_lined self.old.lines.entries row.assigned.items ≡ true }
        ensures { Gives self.old self.new row.held row.assigned.items (judged self.old.opening.entries self.old.lines.entries row.held.cert row.assigned.items) }
    {
        let mut row = row;
        match self.judge(&mut row) {
            Some(version) => self.admit(row, version),
            None => self.drop_out(&row),
        }
    }

    /// Takes out the certificate that waits at a place.
    pub(crate) fn take_out(&mut self, place: usize) -> PendingCertificate
        requires there { is_some (row_at self.old.rows.items place) ≡ true }
        requires waits { 0 < self.old.waiting }
        ensures { TakesOut self.old self.new place result }
    {
        self.waiting -= 1;
        match take_row(&mut self.rows, place) {
            Some(row) => row,
            None => unreachable!(),
        }
    }
}
