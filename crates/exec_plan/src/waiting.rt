//! The held certificates that are not executed, by what they wait for.

ghost use Rattle.std.specs.Prelude.{◌≡◌, ◌++◌, ◌∷◌, [], IfOk, OnErr, OnOk, Some, slice_get};
ghost use Rattle.std.specs.List.Sorted.{IsStrictlySortedBy};
ghost use Rattle.std.specs.Ordering.{nat_cmp};
ghost use Rattle.protocol_spec.specs.declared.answers.Held.{Held as H};
ghost use Rattle.protocol_spec.specs.Member.Admission.{Admission as A};
ghost use Rattle.version_store.specs.Stores.{Stored};
ghost use Rattle.exec_plan.specs.Behind.{Frees};
ghost use Rattle.exec_plan.specs.Waits.{Filed, IsFiled, IsWaiting, KeepsPlaces, StoodBefore};

use crate::behind::{add_behind, free_behind};
use crate::inputs::is_let;
use crate::makers::awaited;
use crate::past::PlannedView;
use digest_core::Digest;
use indexmap::{IndexMap, IndexSet};
use protocol_spec::Held;
use std::alloc::Global;
use std::collections::BTreeSet;
use version_assign::Admission;
use version_store::Store;
use wire_bcs::{OutOfMemory, Seq};

/// The held certificates that are not executed, by what they wait for. One that names a shared object waits for its
/// admission. One that may run waits for a transaction that makes what it wants; once all of these are executed, it
/// waits for nothing, and each run looks at it until it is executed.
#[derive(Drop)]
pub struct DependencyIndex {
    /// The places of certificates that wait for nothing.
    next: BTreeSet<usize>,
    /// The places of those that need an admission, each under its own transaction.
    unadmitted: IndexMap<Digest, Seq<usize>>,
    /// The places of all others, each under a transaction that is not executed.
    behind: IndexMap<Digest, Seq<usize>>,
    alloc: Global,
}

impl DependencyIndex {
    /// Nothing held, so nothing waits. Takes no memory.
    #[tactic(auto, using(crate::proofs::Filing::nothing_waits))]
    pub fn new(alloc: Global) -> DependencyIndex
        ensures { (s : Stored) (a : A) → IsWaiting s a [] result }
    {
        DependencyIndex {
            next: BTreeSet::new(alloc),
            unadmitted: IndexMap::new(alloc),
            behind: IndexMap::new(alloc),
            alloc,
        }
    }

    /// Files a held certificate, unless it is executed: among those that need an admission, under the first transaction
    /// that it waits for, or among those that the next run looks at.
    fn file(
        &mut self,
        past: &PlannedView<'_>,
        admission: &Admission,
        place: usize,
        held: &Held,
    ) -> Result<(), OutOfMemory>
        ensures kept { KeepsPlaces self.old self.new }
        ensures filed { OnOk result (Filed past.now admission.now.admission [] self.new place held.now) }
    {
        if past.is_executed(&held.digest) {
            return Ok(());
        }
        if !is_let(admission, held) {
            return add_behind(self.alloc, &mut self.unadmitted, held.digest, place);
        }
        match awaited(past, admission, held) {
            Some(tx) => add_behind(self.alloc, &mut self.behind, tx, place),
            None => {
                self.next.insert(place)?;
                Ok(())
            }
        }
    }

    /// [`DependencyIndex::hold`] with a view of the store.
    fn hold_behind(
        &mut self,
        past: &PlannedView<'_>,
        admission: &Admission,
        held: &[Held],
        new: &Held,
    ) -> Result<(), OutOfMemory>
        requires { IsWaiting past.now admission.now.admission held.now self.old }
        ensures ok { OnOk result (IsWaiting past.now admission.now.admission (held.now ++ new.now ∷ []) self.new) }
        ensures err { OnErr result (IsWaiting past.now admission.now.admission held.now self.new) }
    {
        self.file(past, admission, held.len(), new)
    }

    /// Files one more held certificate, after these. After a refusal, all that waited still waits.
    pub fn hold(
        &mut self,
        store: &Store,
        admission: &Admission,
        held: &[Held],
        new: &Held,
    ) -> Result<(), OutOfMemory>
        requires { IsWaiting store.now admission.now.admission held.now self.old }
        ensures ok { OnOk result (IsWaiting store.now admission.now.admission (held.now ++ new.now ∷ []) self.new) }
        ensures err { OnErr result (IsWaiting store.now admission.now.admission held.now self.new) }
    {
        let none = IndexSet::new(self.alloc);
        self.hold_behind(&PlannedView::of(store, &none), admission, held, new)
    }

    /// These transactions, and no others, were newly admitted: those of them that are held wait for what they want
    /// now. The only error is that memory is refused: nothing is then promised of what waits.
    pub fn admit(
        &mut self,
        store: &Store,
        admission: &Admission,
        held: &[Held],
        txs: &[Digest],
    ) -> Result<(), OutOfMemory>
        requires { StoodBefore store.now admission.now.admission txs.now held.now self.old }
        ensures { OnOk result (IsWaiting store.now admission.now.admission held.now self.new) }
    {
        let woken = self.wake(txs)?;
        self.file_now(store, admission, held, woken.as_slice())
    }

    /// Files the certificate at a place, if there is one.
    fn file_at(
        &mut self,
        past: &PlannedView<'_>,
        admission: &Admission,
        held: &[Held],
        place: usize,
    ) -> Result<(), OutOfMemory>
        ensures kept { KeepsPlaces self.old self.new }
        ensures filed { OnOk result ((h : H) → slice_get held.now place ≡ Some h → Filed past.now admission.now.admission [] self.new place h) }
    {
        match held.get(place) {
            Some(held) => self.file(past, admission, place, held),
            None => Ok(()),
        }
    }

    /// Files the certificates at these places, which are in no list.
    pub(crate) fn file_each(
        &mut self,
        past: &PlannedView<'_>,
        admission: &Admission,
        held: &[Held],
        places: &[usize],
    ) -> Result<(), OutOfMemory>
        requires { IsFiled past.now admission.now.admission places.now held.now self.old }
        ensures { OnOk result (IsWaiting past.now admission.now.admission held.now self.new) }
    {
        let mut rest = places;
        while let [place, after @ ..] = rest {
            self.file_at(past, admission, held, *place)?;
            rest = after;
        }
        Ok(())
    }

    /// [`DependencyIndex::file_each`] with the store as it is.
    pub(crate) fn file_now(
        &mut self,
        store: &Store,
        admission: &Admission,
        held: &[Held],
        places: &[usize],
    ) -> Result<(), OutOfMemory>
        requires { IsFiled store.now admission.now.admission places.now held.now self.old }
        ensures { OnOk result (IsWaiting store.now admission.now.admission held.now self.new) }
    {
        let none = IndexSet::new(self.alloc);
        self.file_each(&PlannedView::of(store, &none), admission, held, places)
    }

    /// The places of all certificates that wait for nothing, in order.
    pub(crate) fn open_places(&self, alloc: Global) -> Result<Vec<usize>, OutOfMemory>
        ensures places { IfOk result (λ places. places.items ≡ self.now.next.keys) }
        ensures ordered { IsStrictlySortedBy nat_cmp self.now.next.keys }
    {
        Ok(self.next.iter().copied().collect(alloc)?)
    }

    /// Takes out the places of all certificates that wait for nothing, in order.
    pub(crate) fn take_open(&mut self, alloc: Global) -> Result<Vec<usize>, OutOfMemory>
        ensures places { IfOk result (λ places. places.items ≡ self.old.next.keys) }
        ensures ordered { IfOk result (λ places. IsStrictlySortedBy nat_cmp places.items) }
        ensures unadmitted { OnOk result (self.new.unadmitted.entries ≡ self.old.unadmitted.entries) }
        ensures behind { OnOk result (self.new.behind.entries ≡ self.old.behind.entries) }
    {
        let places = self.open_places(alloc)?;
        self.next = BTreeSet::new(self.alloc);
        Ok(places)
    }

    /// Takes out the places under these transactions, which were executed.
    pub(crate) fn free(&mut self, txs: &[Digest]) -> Result<Seq<usize>, OutOfMemory>
        ensures unadmitted { self.new.unadmitted.entries ≡ self.old.unadmitted.entries }
        ensures freed { IfOk result (λ freed. Frees self.old.behind.entries self.new.behind.entries freed [] txs.now) }
    {
        free_behind(self.alloc, &mut self.behind, txs)
    }

    /// Takes out the places of these transactions' certificates, which were admitted.
    fn wake(&mut self, txs: &[Digest]) -> Result<Seq<usize>, OutOfMemory>
        ensures next { self.new.next.keys ≡ self.old.next.keys }
        ensures behind { self.new.behind.entries ≡ self.old.behind.entries }
        ensures woken { IfOk result (λ woken. Frees self.old.unadmitted.entries self.new.unadmitted.entries woken [] txs.now) }
    {
        free_behind(self.alloc, &mut self.unadmitted, txs)
    }
}
