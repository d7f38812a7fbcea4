//! The plan of a run.

ghost use Rattle.std.specs.Prelude.{◌≡◌, IfOk};
ghost use Rattle.protocol_spec.specs.Chain.Words.{Each};
ghost use Rattle.exec_plan.specs.Ahead.{AreParked};
ghost use Rattle.exec_plan.specs.Books.{AreApart, IsSound, books_of};
ghost use Rattle.exec_plan.specs.Layers.{planned_of};
ghost use Rattle.exec_plan.specs.Tasks.{edges_of, tasks_of};
ghost use Rattle.exec_plan.specs.Waits.{IsWaiting};

use crate::drafting::draft_all;
use crate::planner::plan_places;
use crate::task::Task;
use crate::waiting::DependencyIndex;
use dag_core::Plan;
use protocol_spec::Held;
use std::alloc::Global;
use version_assign::Admission;
use version_store::Store;
use wire_bcs::{OutOfMemory, Seq};

/// What a run plans.
#[derive(Drop)]
pub struct Ready<'a> {
    /// A task for each planned certificate, and an edge for each version that one task makes for a later one.
    pub plan: Plan<Task<'a>>,
    /// The places that were taken out of what waits, those of all planned certificates among them.
    pub taken: Seq<usize>,
}

/// Plans a run: layer after layer, the held certificates that are not executed, that are admitted if they name a shared
/// object, and of which all that makes what they want is executed or in an earlier layer (this profile). A layer is in
/// order of holding. Each held certificate stands under its transaction's digest, and its transaction has a valid shape; no
/// transaction is held twice. Nothing is executed or written. The places of what is planned are taken out of what waits until
/// the outputs are settled. The only error is that memory is refused, or that there would be 2^31 or more tasks or
/// edges: nothing is then promised of what waits. Looks at what waits for nothing, and at what waits for a planned
/// transaction, once for each such transaction.
pub fn plan_ready<'a>(
    alloc: Global,
    store: &Store,
    admission: &Admission,
    waiting: &mut DependencyIndex,
    held: &'a [Held],
) -> Result<Ready<'a>, OutOfMemory>
    requires sound { Each IsSound held.now }
    requires apart { AreApart held.now }
    requires waiting { IsWaiting store.now admission.now.admission held.now waiting.old }
    ensures tasks { IfOk result (λ ready. ready.plan.jobs ≡ tasks_of (books_of store.now admission.now.admission held.now) store.now.executed) }
    ensures edges { IfOk result (λ ready. ready.plan.edges ≡ edges_of (books_of store.now admission.now.admission held.now) store.now.executed) }
    ensures parked { IfOk result (λ ready. AreParked store.now admission.now.admission (planned_of (books_of store.now admission.now.admission held.now) store.now.executed) ready.taken held.now waiting.new) }
{
    let ahead = plan_places(alloc, store, admission, waiting, held)?;
    let draft = draft_all(alloc, store, admission, held, ahead.places.as_slice())?;
    let plan = draft.into_plan(alloc)?;
    Ok(Ready {
        plan,
        taken: ahead.taken,
    })
}
