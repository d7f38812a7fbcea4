//! An epoch's admission from its beginning once more, and that of the next epoch.

ghost use Rattle.std.specs.Prelude.{◌≡◌, [], OnOk};
ghost use Rattle.protocol_spec.specs.Chain.Words.{Each};
ghost use Rattle.protocol_spec.specs.Member.Admission.{nothing_admitted};
ghost use Rattle.version_assign.specs.Books.{IsKept, shown};
ghost use Rattle.version_assign.specs.Changes.{IsOwn, Renews};
ghost use Rattle.version_assign.specs.Registers.{IsWhole};

use crate::book::AdmissionTables;
use crate::changes::{Change, change_all};
use crate::register::IndexedAdmission;
use crate::waits::PendingIndex;
use indexmap::{IndexMap, IndexSet};
use std::alloc::Global;
use wire_bcs::OutOfMemory;

impl AdmissionTables {
    /// Empties all tables but the opening and the limit of writers: the epoch before its first entry.
    pub(crate) fn clear(&mut self, alloc: Global)
        requires { IsKept self.old }
        ensures kept { IsKept self.new }
        ensures value { shown self.new ≡ record (shown self.old) { admission = nothing_admitted } }
        ensures rows { self.new.rows.items ≡ [] }
    {
        self.rows = Vec::new(alloc);
        self.known = IndexSet::new(alloc);
        self.admitted = IndexMap::new(alloc);
        self.dropped = Vec::new(alloc);
        self.marked = 0;
        self.waiting = 0;
        self.low = 0;
        self.lines = IndexMap::new(alloc);
    }
}

impl AdmissionTables {
    /// Empties the tables and applies these changes to the opening: the next epoch before its first entry. After a
    /// refusal only some of the changes are applied.
    fn renew(&mut self, alloc: Global, changes: &[Change]) -> Result<(), OutOfMemory>
        requires kept { IsKept self.old }
        requires own { Each IsOwn changes.now }
        ensures kept { IsKept self.new }
        ensures value { OnOk result (Renews (shown self.old) (shown self.new) changes.now) }
        ensures limit { self.new.writers ≡ self.old.writers }
        ensures rows { self.new.rows.items ≡ [] }
    {
        self.clear(alloc);
        let answer = change_all(&mut self.opening, changes);
        // A map's count says that no id comes twice.
        let _distinct = self.opening.len();
        answer
    }
}

impl IndexedAdmission {
    /// Empties the tables and applies these changes to the opening: the next epoch before its first entry. After a
    /// refusal only some of the changes are applied.
    #[tactic(auto, using(crate::proofs::Registering::nothing_filed))]
    pub(crate) fn renew(&mut self, alloc: Global, changes: &[Change]) -> Result<(), OutOfMemory>
        requires kept { IsWhole self.old }
        requires own { Each IsOwn changes.now }
        ensures kept { IsWhole self.new }
        ensures value { OnOk result (Renews (shown self.old.book) (shown self.new.book) changes.now) }
        ensures limit { self.new.book.writers ≡ self.old.book.writers }
    {
        self.waits = PendingIndex::new(alloc);
        self.book.renew(alloc, changes)
    }

    /// Empties all tables but the opening and the limit of writers: the epoch before its first entry.
    #[tactic(auto, using(crate::proofs::Registering::nothing_filed))]
    pub(crate) fn clear(&mut self, alloc: Global)
        requires { IsWhole self.old }
        ensures kept { IsWhole self.new }
        ensures value { shown self.new.book ≡ record (shown self.old.book) { admission = nothing_admitted } }
    {
        self.book.clear(alloc);
        self.waits = PendingIndex::new(alloc);
    }
}
