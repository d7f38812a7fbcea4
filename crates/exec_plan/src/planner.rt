//! Which certificates a run plans, and in which order.

ghost use Rattle.std.specs.Prelude.{◌≡◌, ◌++◌, ◌∷◌, [], IfOk, OnOk, filter, if◌then◌else◌, map, slice_get};
ghost use Rattle.indexmap.specs.IndexSet.{insert_all, insert_key};
ghost use Rattle.chain_types.specs.Equal.{digest_eq};
ghost use Rattle.protocol_spec.specs.Chain.Shape.{is_empty_list};
ghost use Rattle.exec_plan.specs.Ahead.{Agrees, AreParked, AreTaken, joining, joins_now, joins_of, layer_places, with_digest};
ghost use Rattle.exec_plan.specs.Books.{AreApart, books_of, digest_of_held};
ghost use Rattle.exec_plan.specs.Drafts.{picked};
ghost use Rattle.exec_plan.specs.Layers.{planned_of};
ghost use Rattle.exec_plan.specs.Past.{as_if};
ghost use Rattle.exec_plan.specs.Waits.{IsWaiting};

use crate::inputs::is_let;
use crate::makers::awaited;
use crate::past::PlannedView;
use crate::waiting::DependencyIndex;
use digest_core::Digest;
use indexmap::IndexSet;
use protocol_spec::Held;
use std::alloc::Global;
use version_assign::Admission;
use version_store::Store;
use wire_bcs::{OutOfMemory, Seq};

/// Whether a certificate joins the next layer: it is neither executed nor planned, it may run, and all that makes what it
/// wants is executed or planned.
#[tactic(auto, using(crate::proofs::Making::waits_where))]
fn joins(past: &PlannedView<'_>, admission: &Admission, held: &Held) -> bool
    ensures { result ≡ joins_now past.now admission.now.admission held.now }
{
    if past.is_executed(&held.digest) || !is_let(admission, held) {
        return false;
    }
    let awaited = awaited(past, admission, held);
    awaited.is_none()
}

/// [`joins`] for the certificate at a place; false if there is none.
fn joins_at(past: &PlannedView<'_>, admission: &Admission, held: &[Held], place: usize) -> bool
    ensures { result ≡ joins_of past.now admission.now.admission (slice_get held.now place) }
{
    match held.get(place) {
        Some(held) => joins(past, admission, held),
        None => false,
    }
}

/// Adds a place to the list, if `is` holds.
fn add_where(places: &mut Seq<usize>, place: usize, is: bool) -> Result<(), OutOfMemory>
    ensures { OnOk result (places.new ≡ (if is then places.old ++ place ∷ [] else places.old)) }
{
    if is {
        return places.push(place);
    }
    Ok(())
}

/// The places, among these, whose certificates join the next layer.
fn layer_among(
    alloc: Global,
    past: &PlannedView<'_>,
    admission: &Admission,
    held: &[Held],
    places: &[usize],
) -> Result<Seq<usize>, OutOfMemory>
    ensures { IfOk result (λ layer. layer ≡ layer_places past.now admission.now.admission held.now places.now) }
{
    let mut layer = Seq::new(alloc);
    let mut rest = places;
    while let [place, after @ ..] = rest {
        let joins = joins_at(past, admission, held, *place);
        add_where(&mut layer, *place, joins)?;
        rest = after;
    }
    Ok(layer)
}

/// Adds the transaction of the certificate at a place, if there is one.
fn add_digest(txs: &mut Seq<Digest>, held: &[Held], place: usize) -> Result<(), OutOfMemory>
    ensures { OnOk result (txs.new ≡ with_digest txs.old (slice_get held.now place)) }
{
    match held.get(place) {
        Some(held) => txs.push(held.digest),
        None => Ok(()),
    }
}

/// The transactions of the certificates at these places.
fn digests_at(alloc: Global, held: &[Held], places: &[usize]) -> Result<Seq<Digest>, OutOfMemory>
    ensures { IfOk result (λ txs. txs ≡ map digest_of_held (picked held.now places.now)) }
{
    let mut txs = Seq::new(alloc);
    let mut rest = places;
    while let [place, after @ ..] = rest {
        add_digest(&mut txs, held, *place)?;
        rest = after;
    }
    Ok(txs)
}

/// Adds a transaction to those planned.
fn add_planned(planned: &mut IndexSet<Digest>, tx: Digest) -> Result<(), OutOfMemory>
    ensures { OnOk result (planned.new.keys ≡ insert_key digest_eq planned.old.keys tx) }
{
    planned.insert(tx)?;
    Ok(())
}

/// Adds transactions to those planned.
fn add_all_planned(planned: &mut IndexSet<Digest>, txs: &[Digest]) -> Result<(), OutOfMemory>
    ensures { OnOk result (planned.new.keys ≡ insert_all digest_eq planned.old.keys txs.now) }
{
    let mut rest = txs;
    while let [tx, after @ ..] = rest {
        add_planned(planned, *tx)?;
        rest = after;
    }
    Ok(())
}

/// A plan in the making: the layers so far.
#[derive(Drop)]
pub(crate) struct PlanSoFar {
    /// The planned transactions.
    pub(crate) planned: IndexSet<Digest>,
    /// The places of their certificates, in the order in which they are planned.
    pub(crate) places: Seq<usize>,
    /// All places that were taken out of the wait lists for the plan, those of `places` among them.
    pub(crate) taken: Seq<usize>,
}

impl PlanSoFar {
    /// No layers. Takes no memory.
    fn new(alloc: Global) -> PlanSoFar
        ensures planned { result.planned.keys ≡ [] }
        ensures places { result.places ≡ [] }
        ensures taken { result.taken ≡ [] }
    {
        PlanSoFar {
            planned: IndexSet::new(alloc),
            places: Seq::new(alloc),
            taken: Seq::new(alloc),
        }
    }

    /// One more layer: its places, and its transactions, among places that were taken.
    fn add(&mut self, taken: &[usize], layer: &[usize], txs: &[Digest]) -> Result<(), OutOfMemory>
        ensures planned { OnOk result (self.new.planned.keys ≡ insert_all digest_eq self.old.planned.keys txs.now) }
        ensures places { OnOk result (self.new.places ≡ self.old.places ++ layer.now) }
        ensures taken { OnOk result (self.new.taken ≡ self.old.taken ++ taken.now) }
    {
        self.taken.extend(taken)?;
        self.places.extend(layer)?;
        add_all_planned(&mut self.planned, txs)
    }
}

/// Plans one more layer, and answers whether it is empty. The certificates that waited for its transactions are filed
/// again, by what else they want, as if these had been executed.
fn plan_layer(
    alloc: Global,
    store: &Store,
    admission: &Admission,
    waiting: &mut DependencyIndex,
    held: &[Held],
    ahead: &mut PlanSoFar,
) -> Result<bool, OutOfMemory>
    requires apart { AreApart held.now }
    requires filed { IsWaiting (as_if ahead.old.planned.keys store.now) admission.now.admission held.now waiting.old }
    requires taken { AreTaken held.now ahead.old.planned.keys ahead.old.taken }
    ensures last { IfOk result (λ last. last ≡ is_empty_list (joining (as_if ahead.old.planned.keys store.now) admission.now.admission held.now)) }
    ensures places { OnOk result (picked held.now ahead.new.places ≡ picked held.now ahead.old.places ++ joining (as_if ahead.old.planned.keys store.now) admission.now.admission held.now) }
    ensures planned { OnOk result (ahead.new.planned.keys ≡ insert_all digest_eq ahead.old.planned.keys (map digest_of_held (joining (as_if ahead.old.planned.keys store.now) admission.now.admission held.now))) }
    ensures filed { OnOk result (IsWaiting (as_if ahead.new.planned.keys store.now) admission.now.admission held.now waiting.new) }
    ensures taken { OnOk result (AreTaken held.now ahead.new.planned.keys ahead.new.taken) }
{
    let looked = waiting.take_open(alloc)?;
    let layer = layer_among(
        alloc,
        &PlannedView::new(store, &ahead.planned),
        admission,
        held,
        looked.as_slice(),
    )?;
    let txs = digests_at(alloc, held, layer.as_slice())?;
    ahead.add(looked.as_slice(), layer.as_slice(), txs.as_slice())?;
    let freed = waiting.free(txs.as_slice())?;
    let past = PlannedView::new(store, &ahead.planned);
    waiting.file_each(&past, admission, held, freed.as_slice())?;
    Ok(txs.is_empty())
}

/// Plans layer after layer.
fn plan_layers(
    alloc: Global,
    store: &Store,
    admission: &Admission,
    waiting: &mut DependencyIndex,
    held: &[Held],
) -> Result<PlanSoFar, OutOfMemory>
    requires apart { AreApart held.now }
    requires filed { IsWaiting store.now admission.now.admission held.now waiting.old }
    ensures places { IfOk result (λ ahead. picked held.now ahead.places ≡ planned_of (books_of store.now admission.now.admission held.now) store.now.executed) }
    ensures agrees { IfOk result (λ ahead. Agrees ahead.planned.keys (picked held.now ahead.places)) }
    ensures filed { IfOk result (λ ahead. IsWaiting (as_if ahead.planned.keys store.now) admission.now.admission held.now waiting.new) }
    ensures taken { IfOk result (λ ahead. AreTaken held.now ahead.planned.keys ahead.taken) }
{
    let mut ahead = PlanSoFar::new(alloc);
    let mut left = held.len();
    while left > 0 {
        let last = plan_layer(alloc, store, admission, waiting, held, &mut ahead)?;
        if last {
            return Ok(ahead);
        }
        left -= 1;
    }
    Ok(ahead)
}

/// The places of the certificates that a run plans, in order. They are taken out of what waits, and the others wait for
/// what is neither executed nor planned.
pub(crate) fn plan_places(
    alloc: Global,
    store: &Store,
    admission: &Admission,
    waiting: &mut DependencyIndex,
    held: &[Held],
) -> Result<PlanSoFar, OutOfMemory>
    requires apart { AreApart held.now }
    requires filed { IsWaiting store.now admission.now.admission held.now waiting.old }
    ensures places { IfOk result (λ ahead. picked held.now ahead.places ≡ planned_of (books_of store.now admission.now.admission held.now) store.now.executed) }
    ensures parked { IfOk result (λ ahead. AreParked store.now admission.now.admission (planned_of (books_of store.now admission.now.admission held.now) store.now.executed) ahead.taken held.now waiting.new) }
{
    let mut ahead = plan_layers(alloc, store, admission, waiting, held)?;
    let looked = waiting.take_open(alloc)?;
    ahead.taken.extend(looked.as_slice())?;
    Ok(ahead)
}
