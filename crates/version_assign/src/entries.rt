//! Entries and marks on the tables. Whatever can be refused memory comes first; after it nothing is refused.

ghost use Rattle.std.specs.Prelude.{◌≡◌, ◌+◌, ◌-◌, ◌<◌, ◌≤◌, ◌^◌, ◌++◌, ◌∷◌, [], IfOk, OnErr, OnOk, Some, None, false, drop, length, map, option_map, slice_get};
ghost use Rattle.std.specs.List.{list_any};
ghost use Rattle.std.specs.Vec.{vec_capacity, vec_len};
ghost use Rattle.indexmap.specs.IndexSet.{spare as set_spare};
ghost use Rattle.chain_types.specs.Equal.{digest_eq};
ghost use Rattle.protocol_spec.specs.Chain.Words.{Each};
ghost use Rattle.protocol_spec.specs.Chain.Keys.{objects_of};
ghost use Rattle.protocol_spec.specs.Chain.Shape.{shape_fault};
ghost use Rattle.protocol_spec.specs.Member.Admission.{is_known};
ghost use Rattle.version_assign.specs.Books.{IsKept, IsLet, admission_of, begun_of, opening_of, shown};
ghost use Rattle.version_assign.specs.Calls.{admitted_since, dropped_since, settled, uncut, with_cut, with_entry, with_mark};
ghost use Rattle.version_assign.specs.Lines.{begun_behind};
ghost use Rattle.version_assign.specs.Steps.{AddsRow, HasRowRoom, Marks, MakesRoom, clear_each, clear_found, digest_in, IsRowOf};

use crate::begun::all_begun;
use crate::book::{AdmissionTables, AdmittedCertificate, PendingCertificate, push_in_room};
use crate::excerpt::Candidate;
use crate::lines::{Line, clear_lines, make_lines};
use crate::taken::Taken;
use chain_types::ObjectId;
use digest_core::Digest;
use indexmap::{IndexMap, IndexSet};
use protocol_spec::{Assigned, SharedCertificate};
use std::alloc::Global;
use wire_bcs::{OutOfMemory, Seq};

/// Notes a digest that is new; there is room.
fn note_digest(known: &mut IndexSet<Digest>, tx: Digest)
    requires room { 0 < set_spare known.old }
    requires new { list_any (λ d. digest_eq tx d) known.old.keys ≡ false }
    ensures { known.new.keys ≡ known.old.keys ++ tx ∷ [] }
{
    match known.insert(tx) {
        Ok(_) => {}
        Err(_) => unreachable!(),
    }
}

/// Appends a row to a list that has room for it.
fn push_row(rows: &mut Vec<Option<PendingCertificate>>, row: PendingCertificate)
    requires { vec_len rows.old < vec_capacity rows.old }
    ensures { rows.new.items ≡ rows.old.items ++ Some row ∷ [] }
{
    match rows.push(Some(row)) {
        Ok(()) => {}
        Err(_) => unreachable!(),
    }
}

/// Forgets the writers of what the admitted transaction at a place wrote.
fn clear_at(
    lines: &mut IndexMap<ObjectId, Line>,
    admitted: &IndexMap<Digest, AdmittedCertificate>,
    place: usize,
)
    requires { Each (IsLet lines.old.entries) admitted.now.entries }
    ensures { lines.new.entries ≡ clear_found lines.old.entries (slice_get admitted.now.entries place) }
{
    if let Some((_, admit)) = admitted.get_index(place) {
        clear_lines(lines, admit.assigned.as_slice());
    }
}

/// Forgets the writers of what was admitted from this place on.
fn clear_since(
    lines: &mut IndexMap<ObjectId, Line>,
    admitted: &IndexMap<Digest, AdmittedCertificate>,
    from: usize,
)
    requires { Each (IsLet lines.old.entries) admitted.now.entries }
    ensures { lines.new.entries ≡ clear_each lines.old.entries (drop from admitted.now.entries) }
{
    for place in from..admitted.len() {
        clear_at(lines, admitted, place);
    }
}

/// The admitted transaction at a place.
fn digest_at(admitted: &IndexMap<Digest, AdmittedCertificate>, place: usize) -> Digest
    requires { place < length admitted.now.entries }
    ensures { option_map digest_in (slice_get admitted.now.entries place) ≡ Some result }
{
    match admitted.get_index(place) {
        Some((tx, _)) => *tx,
        None => unreachable!(),
    }
}

/// Lists the transactions that were admitted from this place on; there is room.
fn list_admitted(
    list: Vec<Digest>,
    admitted: &IndexMap<Digest, AdmittedCertificate>,
    from: usize,
) -> Vec<Digest>
    requires empty { list.items ≡ [] }
    requires room { length admitted.now.entries ≤ from + vec_capacity list }
    ensures { result.items ≡ map digest_in (drop from admitted.now.entries) }
{
    let mut list = list;
    for place in from..admitted.len() {
        push_in_room(&mut list, digest_at(admitted, place));
    }
    list
}

/// Lists the digests from this place on; there is room.
fn list_dropped(list: Vec<Digest>, dropped: &[Digest], from: usize) -> Vec<Digest>
    requires empty { list.items ≡ [] }
    requires room { length dropped.now ≤ from + vec_capacity list }
    ensures { result.items ≡ drop from dropped.now }
{
    let mut list = list;
    for place in from..dropped.len() {
        push_in_room(&mut list, dropped[place]);
    }
    list
}

impl AdmissionTables {
    /// Makes the row of a certificate, with its assignments as if it were the first to name its objects.
    pub(crate) fn row_of(
        &self,
        alloc: Global,
        tx: &Digest,
        cert: &SharedCertificate,
    ) -> Result<PendingCertificate, OutOfMemory>
        requires { IsKept self.now }
        ensures { IfOk result (λ row. IsRowOf (opening_of self.now) (record { digest = tx.now; cert = cert.now }) row) }
    {
        let assigned = all_begun(alloc, &self.opening, cert.get())?;
        let held = Candidate::of(alloc, tx, cert)?;
        Ok(PendingCertificate { held, assigned })
    }

    /// Makes room for one more row: after it nothing that waits can be refused memory.
    pub(crate) fn make_room(&mut self, assigned: &[Assigned]) -> Result<(), OutOfMemory>
        ensures kept { MakesRoom self.old self.new }
        ensures room { OnOk result (HasRowRoom self.new assigned.now) }
    {
        let Some(waiting) = self.waiting.checked_add(1) else {
            return Err(OutOfMemory);
        };
        self.rows.reserve(1)?;
        self.known.reserve(1)?;
        self.admitted.reserve(waiting)?;
        self.dropped.reserve(waiting)?;
        make_lines(&mut self.lines, assigned)
    }

    /// Adds a row for which [`AdmissionTables::make_room`] made room.
    pub(crate) fn add_row(&mut self, row: PendingCertificate)
        requires room { HasRowRoom self.old row.assigned.items }
        requires new { list_any (λ d. digest_eq row.held.digest d) self.old.known.keys ≡ false }
        ensures { AddsRow self.old self.new row }
    {
        note_digest(&mut self.known, *row.held.digest());
        push_row(&mut self.rows, row);
        self.waiting += 1;
    }

    /// Puts what was admitted and dropped since into these lists; there is room.
    pub(crate) fn list_taken(
        &self,
        admitted: Vec<Digest>,
        dropped: Vec<Digest>,
        from: usize,
        from_dropped: usize,
    ) -> Taken
        requires empty { (admitted.items ≡ []) × (dropped.items ≡ []) }
        requires room { (length self.now.admitted.entries ≤ from + vec_capacity admitted) × (length self.now.dropped.items ≤ from_dropped + vec_capacity dropped) }
        ensures admitted { result.admitted ≡ map digest_in (drop from self.now.admitted.entries) }
        ensures dropped { result.dropped ≡ drop from_dropped self.now.dropped.items }
    {
        let admitted = list_admitted(admitted, &self.admitted, from);
        let dropped = list_dropped(dropped, self.dropped.as_slice(), from_dropped);
        Taken {
            admitted: Seq::from_vec(admitted),
            dropped: Seq::from_vec(dropped),
        }
    }

    /// What was admitted is in a checkpoint: it no longer counts for the limit of writers.
    pub(crate) fn pass(&mut self)
        requires { Each (IsLet self.old.lines.entries) self.old.admitted.entries }
        ensures { Marks self.old self.new }
    {
        clear_since(&mut self.lines, &self.admitted, self.marked);
        self.marked = self.admitted.len();
    }

    /// The transactions that were admitted since the last mark.
    pub(crate) fn uncut(&self, alloc: Global) -> Result<Seq<Digest>, OutOfMemory>
        requires { IsKept self.now }
        ensures { IfOk result (λ txs. txs ≡ uncut (shown self.now)) }
    {
        let list = Vec::with_capacity(alloc, self.admitted.len().saturating_sub(self.marked))?;
        Ok(Seq::from_vec(list_admitted(list, &self.admitted, self.marked)))
    }
}
