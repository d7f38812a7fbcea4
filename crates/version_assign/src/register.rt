//! The tables of an admission with its wait lists. In each call whatever can be refused memory comes first; after it
//! nothing is refused.

ghost use Rattle.std.specs.Prelude.{◌≡◌, ◌+◌, ◌≤◌, [], IfOk, OnErr, OnOk, Some, None, false, length, true};
ghost use Rattle.std.specs.Vec.{vec_capacity};
ghost use Rattle.protocol_spec.specs.Chain.Keys.{objects_of};
ghost use Rattle.protocol_spec.specs.Chain.Shape.{shape_fault};
ghost use Rattle.protocol_spec.specs.Member.Admission.{is_known};
ghost use Rattle.version_assign.specs.Books.{IsKept, admission_of, opening_of, placed, shown};
ghost use Rattle.version_assign.specs.Calls.{admitted_since, dropped_since, settled, uncut, with_cut, with_entry, with_mark, with_taken};
ghost use Rattle.version_assign.specs.Lines.{begun_behind};
ghost use Rattle.version_assign.specs.Registers.{IsWhole};
ghost use Rattle.version_assign.specs.Steps.{HasRowRoom, is_free_one};

use crate::book::{AdmissionTables, PendingCertificate};
use crate::taken::Taken;
use crate::waits::PendingIndex;
use digest_core::Digest;
use protocol_spec::SharedCertificate;
use std::alloc::Global;
use wire_bcs::OutOfMemory;

/// The tables of an admission, and the wait lists that find the certificates that may be free.
#[derive(Drop)]
pub(crate) struct IndexedAdmission {
    pub(crate) book: AdmissionTables,
    pub(crate) waits: PendingIndex,
}

impl IndexedAdmission {
    /// Admits or drops the certificate that waits at a place, if one does; it is free.
    fn take(&mut self, place: usize)
        requires kept { IsWhole self.old }
        requires free { is_free_one (shown self.old.book) (placed self.old.book.rows.items (Some place)) ≡ true }
        ensures kept { IsWhole self.new }
        ensures taken { shown self.new.book ≡ with_taken (shown self.old.book) (placed self.old.book.rows.items (Some place)) }
    {
        let row = self.book.take_out(place);
        self.waits.release(&self.book, place, &row.held);
        self.book.give(row);
    }

    /// Admits or drops the first free certificate, again and again until none is free.
    fn settle(&mut self)
        requires { IsWhole self.old }
        ensures kept { IsWhole self.new }
        ensures settled { shown self.new.book ≡ settled (shown self.old.book) }
    {
        while let Some(place) = self.waits.next_free(&self.book) {
            self.take(place);
        }
    }

    /// [`IndexedAdmission::settle`], and then skips the places at the start at which nothing waits any more.
    fn settle_all(&mut self)
        requires { IsWhole self.old }
        ensures kept { IsWhole self.new }
        ensures settled { shown self.new.book ≡ settled (shown self.old.book) }
    {
        self.settle();
        self.book.skip();
    }

    /// Takes all that is free, and lists it; there is room.
    fn settle_listed(&mut self, admitted: Vec<Digest>, dropped: Vec<Digest>) -> Taken
        requires kept { IsWhole self.old }
        requires empty { (admitted.items ≡ []) × (dropped.items ≡ []) }
        requires room { (self.old.book.waiting ≤ vec_capacity admitted) × (self.old.book.waiting ≤ vec_capacity dropped) }
        ensures kept { IsWhole self.new }
        ensures settled { shown self.new.book ≡ settled (shown self.old.book) }
        ensures admitted { result.admitted ≡ admitted_since (admission_of self.old.book) (admission_of self.new.book) }
        ensures dropped { result.dropped ≡ dropped_since (admission_of self.old.book) (admission_of self.new.book) }
    {
        let from = self.book.admitted.len();
        let from_dropped = self.book.dropped.len();
        self.settle_all();
        self.book.list_taken(admitted, dropped, from, from_dropped)
    }

    /// Adds a row, for which there is room, and files it among those that may be free.
    fn add_row(&mut self, row: PendingCertificate)
        requires kept { IsWhole self.old }
        requires room { HasRowRoom self.old.book row.assigned.items }
        requires shaped { shape_fault row.held.cert.tx ≡ None }
        requires origins { length row.held.cert.origins ≡ length (objects_of row.held.cert.tx) }
        requires begins { row.assigned.items ≡ begun_behind (opening_of self.old.book) row.held.cert.tx.inputs row.held.cert.origins }
        requires new { is_known (admission_of self.old.book) row.held.digest ≡ false }
        ensures kept { IsWhole self.new }
        ensures settled { settled (shown self.new.book) ≡ with_entry (shown self.old.book) row.held }
        ensures waiting { self.new.book.waiting ≡ self.old.book.waiting + 1 }
        ensures lists { (admission_of self.new.book).admitted ≡ (admission_of self.old.book).admitted }
        ensures dropped { (admission_of self.new.book).dropped ≡ (admission_of self.old.book).dropped }
    {
        self.waits.mend(&self.book);
        let place = self.book.rows.len();
        self.book.add_row(row);
        self.waits.wake(place);
    }

    /// Takes the entry of a certificate, for which there is room, and all that is free then.
    fn enter(
        &mut self,
        row: PendingCertificate,
        admitted: Vec<Digest>,
        dropped: Vec<Digest>,
    ) -> Taken
        requires kept { IsWhole self.old }
        requires room { HasRowRoom self.old.book row.assigned.items }
        requires shaped { shape_fault row.held.cert.tx ≡ None }
        requires origins { length row.held.cert.origins ≡ length (objects_of row.held.cert.tx) }
        requires begins { row.assigned.items ≡ begun_behind (opening_of self.old.book) row.held.cert.tx.inputs row.held.cert.origins }
        requires new { is_known (admission_of self.old.book) row.held.digest ≡ false }
        requires empty { (admitted.items ≡ []) × (dropped.items ≡ []) }
        requires lists { (self.old.book.waiting + 1 ≤ vec_capacity admitted) × (self.old.book.waiting + 1 ≤ vec_capacity dropped) }
        ensures kept { IsWhole self.new }
        ensures entered { shown self.new.book ≡ with_entry (shown self.old.book) row.held }
        ensures admitted { result.admitted ≡ admitted_since (admission_of self.old.book) (admission_of self.new.book) }
        ensures dropped { result.dropped ≡ dropped_since (admission_of self.old.book) (admission_of self.new.book) }
    {
        self.add_row(row);
        self.settle_listed(admitted, dropped)
    }

    /// Takes the entry of a certificate: it is admitted, dropped or waits, and so are those that waited for it. A
    /// refusal changes nothing.
    pub(crate) fn push(
        &mut self,
        alloc: Global,
        tx: &Digest,
        cert: &SharedCertificate,
    ) -> Result<Taken, OutOfMemory>
        requires kept { IsWhole self.old }
        requires shaped { shape_fault cert.now.tx ≡ None }
        requires origins { length cert.now.origins ≡ length (objects_of cert.now.tx) }
        requires new { is_known (admission_of self.old.book) tx.now ≡ false }
        ensures kept { IsWhole self.new }
        ensures entered { OnOk result (shown self.new.book ≡ with_entry (shown self.old.book) (record { digest = tx.now; cert = cert.now })) }
        ensures admitted { IfOk result (λ taken. taken.admitted ≡ admitted_since (admission_of self.old.book) (admission_of self.new.book)) }
        ensures dropped { IfOk result (λ taken. taken.dropped ≡ dropped_since (admission_of self.old.book) (admission_of self.new.book)) }
        ensures err { OnErr result (shown self.new.book ≡ shown self.old.book) }
    {
        let row = self.book.row_of(alloc, tx, cert)?;
        self.book.make_room(row.assigned.as_slice())?;
        let admitted = Vec::with_capacity(alloc, self.book.waiting + 1)?;
        let dropped = Vec::with_capacity(alloc, self.book.waiting + 1)?;
        Ok(self.enter(row, admitted, dropped))
    }

    /// Cuts what was admitted: it no longer counts for the limit of writers, so the first in each of its queues may be
    /// free.
    pub(crate) fn cut(&mut self)
        requires { IsWhole self.old }
        ensures kept { IsWhole self.new }
        ensures cut { shown self.new.book ≡ with_cut (shown self.old.book) }
        ensures waiting { self.new.book.waiting ≡ self.old.book.waiting }
    {
        let from = self.book.marked;
        self.book.pass();
        self.waits.open_since(&self.book, from);
    }

    /// Takes a Commit mark, after its cut: writers count anew, and what is free then is taken. A refusal changes
    /// nothing.
    pub(crate) fn mark(&mut self, alloc: Global) -> Result<Taken, OutOfMemory>
        requires { IsWhole self.old }
        ensures kept { IsWhole self.new }
        ensures passed { OnOk result (shown self.new.book ≡ with_mark (shown self.old.book)) }
        ensures admitted { IfOk result (λ taken. taken.admitted ≡ admitted_since (admission_of self.old.book) (admission_of self.new.book)) }
        ensures dropped { IfOk result (λ taken. taken.dropped ≡ dropped_since (admission_of self.old.book) (admission_of self.new.book)) }
        ensures err { OnErr result (shown self.new.book ≡ shown self.old.book) }
    {
        let admitted = Vec::with_capacity(alloc, self.book.waiting)?;
        let dropped = Vec::with_capacity(alloc, self.book.waiting)?;
        self.cut();
        Ok(self.settle_listed(admitted, dropped))
    }
}
