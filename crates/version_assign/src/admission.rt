//! The admission of an epoch's certificates: the public calls, over the tables of a [`IndexedAdmission`].

ghost use Rattle.std.specs.Prelude.{◌≡◌, ℕ, ◌<◌, ◌^◌, [], Some, IfOk, OnErr, OnOk, None, false, length, map, option_map, slice_get};
ghost use Rattle.protocol_spec.specs.Chain.Words.{Each, repeats};
ghost use Rattle.protocol_spec.specs.Chain.Keys.{objects_of};
ghost use Rattle.protocol_spec.specs.Chain.Shape.{shape_fault};
ghost use Rattle.chain_types.specs.Equal.{id_eq};
ghost use Rattle.protocol_spec.specs.Member.Admission.{Admitted, assigned_of, deferred_on, digest_of_admitted, is_known, nothing_admitted, pending_on};
ghost use Rattle.version_assign.specs.Changes.{IsOwn, Renews};
ghost use Rattle.version_assign.specs.Calls.{admitted_since, dropped_since, id_of, opened, origins_of, uncut, version_of, with_cut, with_entry, with_mark};

use crate::book::AdmissionTables;
use crate::changes::Change;
use crate::register::IndexedAdmission;
use crate::shared::shared_objects;
use crate::taken::Taken;
use crate::waits::PendingIndex;
use chain_types::{Object, ObjectId};
use digest_core::Digest;
use indexmap::{IndexMap, IndexSet};
use protocol_spec::{Assigned, SharedCertificate};
use std::alloc::Global;
use std::marker::Model;
use wire_bcs::{OutOfMemory, Seq};

/// The certificates of one epoch's sequence: those that were admitted, those that were dropped, and those that wait.
/// Contracts see the shared objects with which the epoch opened, the limit of writers, and these lists.
#[derive(Drop)]
pub struct Admission {
    register: IndexedAdmission,
    alloc: Global,
}

impl Model for Admission {
    ghost use Rattle.version_assign.specs.Calls.{Admitting};

    ghost Value = { Admitting };

    ghost use Rattle.version_assign.specs.Books.{shown};
    ghost use Rattle.version_assign.specs.Registers.{IsWhole};

    ghost view = { λ a. shown a.register.book };

    ghost invariant = { λ a. IsWhole a.register };
}

/// A limit is below 2^32.
fn bound(limit: u32)
    ensures { limit < 2 ^ 32 }
{
    let _limit = limit;
}

/// A limit, if there is one, is below 2^32.
fn bound_of(writers: Option<u32>)
    ensures { (n : ℕ) → writers ≡ Some n → n < 2 ^ 32 }
{
    match writers {
        Some(limit) => bound(limit),
        None => {}
    }
}

impl Admission {
    /// The admission before the first entry of an epoch that opens with these objects, of which no two have one id. With
    /// a limit, no more transactions than that write an object from one mark to the next.
    pub fn new(
        alloc: Global,
        opening: &Seq<Object>,
        writers: Option<u32>,
    ) -> Result<Admission, OutOfMemory>
        requires { repeats id_eq (map id_of opening.now) ≡ false }
        ensures { IfOk result (λ a. a ≡ opened opening.now writers) }
    {
        bound_of(writers);
        let opening = shared_objects(alloc, opening)?;
        let book = AdmissionTables {
            rows: Vec::new(alloc),
            known: IndexSet::new(alloc),
            admitted: IndexMap::new(alloc),
            dropped: Vec::new(alloc),
            marked: 0,
            waiting: 0,
            low: 0,
            lines: IndexMap::new(alloc),
            opening,
            writers,
        };
        let register = IndexedAdmission {
            book,
            waits: PendingIndex::new(alloc),
        };
        Ok(Admission { register, alloc })
    }

    /// Whether the transaction is in the sequence. Takes no memory.
    pub fn is_known(&self, tx: &Digest) -> bool
        ensures { result ≡ is_known self.now.admission tx.now }
    {
        self.register.book.known.contains(tx)
    }

    /// Takes a certificate of valid shape, with one origin for each object; its transaction, of this digest, is not yet
    /// in the sequence. It waits until its origins are admitted and each object that it writes has fewer writers
    /// since the last mark than the limit; then it is admitted (and its shared inputs are assigned their current
    /// versions, Sui Lutris), or dropped if its version would be 2^62 or more, or if a shared input of no origin
    /// was not shared as the epoch opened. Waiting certificates that this frees are admitted or dropped too, in order
    /// of arrival. A refusal changes nothing.
    pub fn push(&mut self, tx: &Digest, cert: &SharedCertificate) -> Result<Taken, OutOfMemory>
        requires shaped { shape_fault cert.now.tx ≡ None }
        requires origins { length cert.now.origins ≡ length (objects_of cert.now.tx) }
        requires new { is_known self.old.admission tx.now ≡ false }
        ensures entered { OnOk result (self.new ≡ with_entry self.old (record { digest = tx.now; cert = cert.now })) }
        ensures admitted { IfOk result (λ taken. taken.admitted ≡ admitted_since self.old.admission self.new.admission) }
        ensures dropped { IfOk result (λ taken. taken.dropped ≡ dropped_since self.old.admission self.new.admission) }
        ensures err { OnErr result (self.new ≡ self.old) }
    {
        self.register.push(self.alloc, tx, cert)
    }

    /// Takes a Commit mark, after its cut: the writers are counted anew, and what waited for that is admitted or dropped,
    /// in order of arrival. A refusal changes nothing.
    pub fn mark(&mut self) -> Result<Taken, OutOfMemory>
        ensures passed { OnOk result (self.new ≡ with_mark self.old) }
        ensures admitted { IfOk result (λ taken. taken.admitted ≡ admitted_since self.old.admission self.new.admission) }
        ensures dropped { IfOk result (λ taken. taken.dropped ≡ dropped_since self.old.admission self.new.admission) }
        ensures err { OnErr result (self.new ≡ self.old) }
    {
        self.register.mark(self.alloc)
    }

    /// Cuts the transactions that were admitted since the last cut or mark, and answers them. A refusal cuts nothing.
    pub fn cut(&mut self) -> Result<Seq<Digest>, OutOfMemory>
        ensures txs { IfOk result (λ txs. txs ≡ uncut self.old) }
        ensures ok { OnOk result (self.new ≡ with_cut self.old) }
        ensures err { OnErr result (self.new ≡ self.old) }
    {
        let txs = self.register.book.uncut(self.alloc)?;
        self.register.cut();
        Ok(txs)
    }

    /// The transactions admitted since the last cut or mark.
    pub fn uncut(&self) -> Result<Seq<Digest>, OutOfMemory>
        ensures { IfOk result (λ txs. txs ≡ uncut self.now) }
    {
        self.register.book.uncut(self.alloc)
    }

    /// The first origin that is not admitted, of a transaction that waits; none exactly if it does not wait, or all
    /// its origins are admitted. Takes no memory.
    pub fn pending_on(&self, tx: &Digest) -> Option<Digest>
        ensures { result ≡ pending_on self.now.admission tx.now }
    {
        self.register.book.pending_on(tx)
    }

    /// The first object in input order that has as many writers as the limit, of a transaction that waits and writes
    /// it; none exactly if it does not wait, or an origin is not admitted. Takes no memory.
    pub fn deferred_on(&self, tx: &Digest) -> Option<ObjectId>
        ensures { result ≡ deferred_on self.now.writers self.now.admission tx.now }
    {
        self.register.book.deferred_on(tx)
    }

    /// The versions assigned to a transaction's shared inputs; none exactly if it is not admitted. Takes no memory.
    pub fn assigned(&self, tx: &Digest) -> Option<&Seq<Assigned>>
        ensures { option_map (λ (a : _). a.now) result ≡ assigned_of self.now.admission tx.now }
    {
        self.register.book.assigned(tx)
    }

    /// The version at which a transaction writes; none exactly if it is not admitted. Takes no memory.
    pub fn version(&self, tx: &Digest) -> Option<u64>
        ensures { result ≡ version_of self.now.admission tx.now }
    {
        self.register.book.version(tx)
    }

    /// How many transactions were admitted. Takes no memory.
    pub fn admitted_count(&self) -> usize
        ensures { result ≡ length self.now.admission.admitted }
    {
        self.register.book.admitted.len()
    }

    /// The admitted transaction at a place, from 0, in order of admission. Takes no memory.
    pub fn admitted_at(&self, place: usize) -> Option<Digest>
        ensures { result ≡ option_map digest_of_admitted (slice_get self.now.admission.admitted place) }
    {
        self.register.book.admitted_at(place)
    }

    /// The origins of the certificate with which the transaction at a place was admitted, from 0. Takes no memory.
    pub fn origins_at(&self, place: usize) -> Option<&[Option<Digest>]>
        ensures { option_map (λ (o : _). o.now) result ≡ option_map origins_of (slice_get self.now.admission.admitted place) }
    {
        self.register.book.origins_at(place)
    }

    /// Goes back to the state in which no entry of the epoch was seen. Takes no memory.
    pub fn clear(&mut self)
        ensures { self.new ≡ record self.old { admission = nothing_admitted } }
    {
        self.register.clear(self.alloc);
    }

    /// The admission before the first entry of an epoch that opens with nothing. Takes no memory.
    pub fn empty(alloc: Global, writers: Option<u32>) -> Admission
        ensures { result ≡ opened [] writers }
    {
        bound_of(writers);
        let book = AdmissionTables {
            rows: Vec::new(alloc),
            known: IndexSet::new(alloc),
            admitted: IndexMap::new(alloc),
            dropped: Vec::new(alloc),
            marked: 0,
            waiting: 0,
            low: 0,
            lines: IndexMap::new(alloc),
            opening: IndexMap::new(alloc),
            writers,
        };
        let register = IndexedAdmission {
            book,
            waits: PendingIndex::new(alloc),
        };
        Admission { register, alloc }
    }

    /// Goes to the next epoch, which opens with what this one did, but for these changes: no entry of it was seen. Each
    /// object has the id under which it changed. Time grows with the changes, and not with what is shared. If memory
    /// is refused, the opening is not to be used.
    pub fn renew(&mut self, changes: &[Change]) -> Result<(), OutOfMemory>
        requires own { Each IsOwn changes.now }
        ensures ok { OnOk result (Renews self.old self.new changes.now) }
        ensures limit { self.new.writers ≡ self.old.writers }
    {
        self.register.renew(self.alloc, changes)
    }

    /// The limit of writers. Takes no memory.
    pub fn writers(&self) -> Option<u32>
        ensures { result ≡ self.now.writers }
    {
        self.register.book.writers
    }
}
