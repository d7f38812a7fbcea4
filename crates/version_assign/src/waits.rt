//! The wait lists of an admission: which waiting certificates may be free, so that the others are not looked at.

ghost use Rattle.std.specs.Prelude.{◌≡◌, ◌≤◌, ℕ, Bool, IfSome, [], ◌∷◌, Option, Some, None, true, false, drop, find, slice_get};
ghost use Rattle.std.specs.Ordering.{nat_cmp};
ghost use Rattle.std.specs.BTreeSet.{contains};
ghost use Rattle.chain_types.specs.declared.objects.ObjectId.{ObjectId as Id};
ghost use Rattle.protocol_spec.specs.Chain.Tests.{has_id};
ghost use Rattle.protocol_spec.specs.Member.Admission.{is_free, mutable_ids};
ghost use Rattle.version_assign.specs.declared.book.AdmissionTables.{AdmissionTables as B};
ghost use Rattle.version_assign.specs.Books.{AreLines, IsKept, IsSkipped, admission_of, opening_of, placed, row_at, shown};
ghost use Rattle.version_assign.specs.Steps.{TakesOut, is_free_one};
ghost use Rattle.version_assign.specs.Waiting.{Aside, Frees, Grows, IsFiled, IsFiledIn, Opens, OpensFound, OpensSince, Passes, Rests, TurnsOn, admits_also, admits_in, is_awake, is_under, none_open, or_one_of, room_in, wrote_one, writes_at};

use crate::book::{AdmissionTables, PendingCertificate, row_at};
use crate::excerpt::Candidate;
use crate::shelf::{add_place, pop_place, take_places};
use chain_types::ObjectId;
use digest_core::Digest;
use indexmap::IndexMap;
use std::alloc::Global;
use std::collections::BTreeSet;

/// Where each waiting certificate is filed, by its place among the rows: among those that may be free; under an origin
/// that is not admitted; or in the queue of an object that it writes and that is full, with as many writers as the
/// limit. When an object has room for one more writer, the first of its queue goes to those that may be free; when
/// that one is taken or put aside, the next follows. A place may be filed longer than its certificate waits.
#[derive(Drop)]
pub(crate) struct PendingIndex {
    /// False once a list was refused memory, until [`PendingIndex::mend`]: then the lists are not complete, and each
    /// certificate that waits is looked at.
    pub(crate) whole: bool,
    /// The places of those that may be free.
    pub(crate) awake: BTreeSet<usize>,
    /// The places of those that stand under a transaction.
    pub(crate) behind: IndexMap<Digest, BTreeSet<usize>>,
    /// The places of those in the queue of an object.
    pub(crate) queues: IndexMap<Digest, BTreeSet<usize>>,
    alloc: Global,
}

/// Whether the object is among these.
fn is_one_of(ids: &[ObjectId], id: &ObjectId) -> bool
    ensures { result ≡ has_id ids.now id.now }
{
    for one in ids {
        if *id == *one {
            return true;
        }
    }
    false
}

/// Whether the certificate writes the object.
fn writes_row(row: &PendingCertificate, id: &ObjectId) -> bool
    ensures { result ≡ has_id (mutable_ids row.now.held.cert) id.now }
{
    is_one_of(row.held.writes(), id)
}

/// Whether a certificate waits at the place, and writes the object.
fn writes_at(rows: &[Option<PendingCertificate>], place: usize, id: &ObjectId) -> bool
    ensures { result ≡ writes_at rows.now place id.now }
{
    match row_at(rows, place) {
        Some(row) => writes_row(row, id),
        None => false,
    }
}

impl PendingIndex {
    /// Empty lists. Takes no memory.
    pub(crate) fn new(alloc: Global) -> PendingIndex {
        PendingIndex {
            whole: true,
            awake: BTreeSet::new(alloc),
            behind: IndexMap::new(alloc),
            queues: IndexMap::new(alloc),
            alloc,
        }
    }

    /// Puts a place among those that may be free.
    pub(crate) fn wake(&mut self, place: usize)
        ensures kept { Grows self.old self.new }
        ensures queues { self.new.queues ≡ self.old.queues }
        ensures awake { self.new.whole ≡ true → is_awake self.new place ≡ true }
    {
        match self.awake.insert(place) {
            Ok(_) => {}
            Err(_) => self.whole = false,
        }
    }

    /// If memory was refused before, puts every place from the first waiting one on among those that may be free: then
    /// the lists are complete again, unless memory is refused now too.
    pub(crate) fn mend(&mut self, book: &AdmissionTables)
        requires { IsSkipped book.now.low book.now.rows.items }
        ensures { IsFiledIn book.now self.old → IsFiledIn book.now self.new }
    {
        if self.whole {
            return;
        }
        self.whole = true;
        for place in book.low..book.rows.len() {
            self.wake(place);
        }
    }

    /// Files a place under a transaction.
    fn put_behind(&mut self, tx: Digest, place: usize)
        ensures kept { Grows self.old self.new }
        ensures behind { self.new.whole ≡ true → is_under self.new.behind.entries tx place ≡ true }
    {
        match add_place(self.alloc, &mut self.behind, tx, place) {
            Ok(()) => {}
            Err(_) => self.whole = false,
        }
    }

    /// Files a place in the queue of an object.
    fn put_in_queue(&mut self, id: ObjectId, place: usize)
        ensures kept { Grows self.old self.new }
        ensures queued { self.new.whole ≡ true → is_under self.new.queues.entries id.0 place ≡ true }
    {
        match add_place(self.alloc, &mut self.queues, id.0, place) {
            Ok(()) => {}
            Err(_) => self.whole = false,
        }
    }

    /// Puts these places among those that may be free.
    fn wake_all(&mut self, places: BTreeSet<usize>)
        ensures kept { Grows self.old self.new }
        ensures awake { self.new.whole ≡ true → (q : ℕ) → contains nat_cmp places q ≡ true → is_awake self.new q ≡ true }
    {
        let mut places = places;
        while let Some(place) = places.pop_first() {
            self.wake(place);
        }
    }

    /// Moves all places under a transaction to those that may be free.
    fn wake_behind(&mut self, tx: &Digest)
        ensures { Frees self.old self.new tx.now }
    {
        if let Some(places) = take_places(&mut self.behind, tx) {
            self.wake_all(places);
        }
    }

    /// Moves the first place in the queue of an object to those that may be free. Places whose certificates no longer
    /// wait, or do not write the object, are dropped on the way.
    fn wake_next(&mut self, rows: &[Option<PendingCertificate>], id: &ObjectId)
        ensures { TurnsOn rows.now self.old self.new id.now }
    {
        while let Some(place) = pop_place(&mut self.queues, &id.0) {
            if writes_at(rows, place, id) {
                self.wake(place);
                return;
            }
        }
    }

    /// [`PendingIndex::wake_next`] for an object that has room for one more writer.
    fn open_one(&mut self, book: &AdmissionTables, id: &ObjectId)
        requires { AreLines book.now.writers (opening_of book.now) (admission_of book.now) book.now.lines.entries }
        ensures { (rest : _) → Opens book.now.rows.items (room_in book.now) self.old self.new (id.now ∷ rest) rest }
    {
        if book.has_room(id) {
            self.wake_next(book.rows.as_slice(), id);
        }
    }

    /// [`PendingIndex::open_one`] for each of these objects.
    pub(crate) fn open_all(&mut self, book: &AdmissionTables, ids: &[ObjectId])
        requires { AreLines book.now.writers (opening_of book.now) (admission_of book.now) book.now.lines.entries }
        ensures { Opens book.now.rows.items (room_in book.now) self.old self.new ids.now [] }
    {
        let mut rest = ids;
        while let [id, after @ ..] = rest {
            self.open_one(book, id);
            rest = after;
        }
    }

    /// Takes a place out of those that may be free.
    fn rest(&mut self, place: usize)
        ensures { Rests self.old self.new place }
    {
        self.awake.remove(&place);
    }

    /// Files a certificate that is not free under its first missing origin, or in the queue of the first object that
    /// is full.
    fn file(&mut self, book: &AdmissionTables, place: usize, held: &Candidate)
        requires { IsKept book.now }
        ensures kept { Grows self.old self.new }
        ensures filed { self.new.whole ≡ true → is_free book.now.writers (admission_of book.now) held.now ≡ false → Aside self.new (admits_in book.now) (room_in book.now) place held.now.cert }
    {
        match book.missing(held.origins()) {
            Some(tx) => self.put_behind(tx, place),
            None => {
                if let Some(id) = book.full(held.writes()) {
                    self.put_in_queue(id, place);
                }
            }
        }
    }

    /// Files the certificate at a place, which is not free, and opens the queues of what it writes: so that the next
    /// in them does not wait for this one.
    fn put_aside(&mut self, book: &AdmissionTables, place: usize)
        requires kept { IsKept book.now }
        requires waits { is_free_one (shown book.now) (placed book.now.rows.items (Some place)) ≡ false }
        ensures { IsFiledIn book.now self.old → IsFiledIn book.now self.new }
    {
        match row_at(book.rows.as_slice(), place) {
            Some(row) => {
                self.file(book, place, &row.held);
                self.rest(place);
                self.open_all(book, row.held.writes());
            }
            None => self.rest(place),
        }
    }

    /// The first place at which a free certificate waits. Each round puts one certificate aside, so there are no more
    /// rounds than rows.
    pub(crate) fn next_free(&mut self, book: &AdmissionTables) -> Option<usize>
        requires kept { IsKept book.now }
        requires filed { IsFiledIn book.now self.old }
        ensures filed { IsFiledIn book.now self.new }
        ensures place { placed book.now.rows.items result ≡ find (is_free book.now.writers (admission_of book.now)) (admission_of book.now).pending }
        ensures free { IfSome result (λ place. is_free_one (shown book.now) (placed book.now.rows.items (Some place)) ≡ true) }
    {
        for round in 0..book.rows.len() {
            if !self.whole {
                return book.first_free();
            }
            let Some(place) = self.awake.first() else {
                return None;
            };
            let place = *place;
            if book.is_free_at(place) {
                return Some(place);
            }
            self.put_aside(book, place);
        }
        book.first_free()
    }

    /// Notes that the certificate at a place was taken out: whatever waits for its transaction may be free, and so may
    /// the next in the queue of each object that it writes.
    pub(crate) fn release(&mut self, book: &AdmissionTables, place: usize, held: &Candidate)
        requires { AreLines book.now.writers (opening_of book.now) (admission_of book.now) book.now.lines.entries }
        ensures { (before : B) (row : _) → held.now ≡ row.held → TakesOut before book.now place row → IsFiledIn before self.old → IsFiled book.now.rows.items self.new (admits_also (admits_in book.now) held.now.digest) (room_in book.now) none_open }
    {
        self.rest(place);
        self.wake_behind(held.digest());
        self.open_all(book, held.writes());
    }

    /// [`PendingIndex::open_all`] for the objects that the admitted transaction at a place writes.
    fn open_at(&mut self, book: &AdmissionTables, place: usize)
        requires { AreLines book.now.writers (opening_of book.now) (admission_of book.now) book.now.lines.entries }
        ensures { OpensFound book.now.rows.items (room_in book.now) self.old self.new (slice_get book.now.admitted.entries place) }
    {
        if let Some((_, admit)) = book.admitted.get_index(place) {
            self.open_all(book, admit.cert.writes());
        }
    }

    /// [`PendingIndex::open_at`] for each transaction admitted from this place on: after a mark, which counts their writers
    /// anew.
    pub(crate) fn open_since(&mut self, book: &AdmissionTables, from: usize)
        requires { AreLines book.now.writers (opening_of book.now) (admission_of book.now) book.now.lines.entries }
        ensures { OpensSince book.now.rows.items (room_in book.now) self.old self.new (drop from book.now.admitted.entries) [] }
    {
        for place in from..book.admitted.len() {
            self.open_at(book, place);
        }
    }
}
