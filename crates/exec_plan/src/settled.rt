//! From the outputs of a plan back to the rounds of a run.

ghost use Rattle.std.specs.Prelude.{◌≡◌, IfOk, OnOk, map};
ghost use Rattle.dag_core.specs.Plans.{plan_outputs};
ghost use Rattle.protocol_spec.specs.Chain.Words.{Each};
ghost use Rattle.protocol_spec.specs.Member.Rounds.{rounds};
ghost use Rattle.exec_plan.specs.Ahead.{AreParked};
ghost use Rattle.exec_plan.specs.Books.{AreApart, IsSound, books_of, effects_of};
ghost use Rattle.exec_plan.specs.Layers.{planned_of};
ghost use Rattle.exec_plan.specs.Runs.{with_executions};
ghost use Rattle.exec_plan.specs.Tasks.{edges_of, tasks_of};
ghost use Rattle.exec_plan.specs.Waits.{IsWaiting};

use crate::keeping::keep_all;
use crate::ready::{Ready, plan_ready};
use crate::task::Outcome;
use crate::waiting::DependencyIndex;
use dag_core::evaluate_plain;
use digest_core::Digest;
use effects_core::HashedEffects;
use protocol_spec::Held;
use std::alloc::Global;
use version_assign::Admission;
use version_store::Store;
use wire_bcs::{OutOfMemory, Seq};

/// Settles the outputs of a run's plan: writes what is kept of them, which is what the rounds execute, and answers its
/// effects in order. From the first output on, what a task gave is kept if all that makes what it wants is executed by
/// then, and all that it writes is new (this profile). The plan is that of [`plan_ready`] over this store, admission and
/// list, and the outputs are the plan's, in the order of its tasks. After it each held certificate that is not executed
/// waits again. The only error is that memory is refused: part of the rounds is then executed, and nothing is promised of
/// the store, but for its opening, and of what waits. Looks at what was planned.
pub fn settle(
    alloc: Global,
    store: &mut Store,
    admission: &Admission,
    waiting: &mut DependencyIndex,
    held: &[Held],
    ready: &Ready<'_>,
    outputs: Seq<(Digest, Outcome)>,
) -> Result<Seq<HashedEffects>, OutOfMemory>
    requires sound { Each IsSound held.now }
    requires apart { AreApart held.now }
    requires tasks { ready.now.plan.jobs ≡ tasks_of (books_of store.old admission.now.admission held.now) store.old.executed }
    requires edges { ready.now.plan.edges ≡ edges_of (books_of store.old admission.now.admission held.now) store.old.executed }
    requires parked { AreParked store.old admission.now.admission (planned_of (books_of store.old admission.now.admission held.now) store.old.executed) ready.now.taken held.now waiting.old }
    requires outputs { outputs ≡ plan_outputs ready.now.plan }
    ensures written { OnOk result (store.new ≡ with_executions store.old (rounds (books_of store.old admission.now.admission held.now) store.old.executed)) }
    ensures effects { IfOk result (λ effects. effects ≡ map effects_of (rounds (books_of store.old admission.now.admission held.now) store.old.executed)) }
    ensures waiting { OnOk result (IsWaiting store.new admission.now.admission held.now waiting.new) }
    ensures opening { store.new.opening ≡ store.old.opening }
{
    let mut effects = Seq::with_room(alloc, outputs.len())?;
    keep_all(
        alloc,
        store,
        &mut effects,
        ready.plan.jobs.as_slice(),
        outputs,
    )?;
    waiting.file_now(store, admission, held, ready.taken.as_slice())?;
    Ok(effects)
}

/// Executes, on the caller's thread, all held certificates that are ready, and answers their effects in the order of the
/// rounds (Sui Lutris; rounds are this profile's own). Conditions and errors are those of
/// [`run_pooled`](crate::run_pooled).
pub fn run_planned(
    alloc: Global,
    store: &mut Store,
    admission: &Admission,
    waiting: &mut DependencyIndex,
    held: &[Held],
) -> Result<Seq<HashedEffects>, OutOfMemory>
    requires sound { Each IsSound held.now }
    requires apart { AreApart held.now }
    requires waiting { IsWaiting store.old admission.now.admission held.now waiting.old }
    ensures written { OnOk result (store.new ≡ with_executions store.old (rounds (books_of store.old admission.now.admission held.now) store.old.executed)) }
    ensures effects { IfOk result (λ effects. effects ≡ map effects_of (rounds (books_of store.old admission.now.admission held.now) store.old.executed)) }
    ensures waiting { OnOk result (IsWaiting store.new admission.now.admission held.now waiting.new) }
    ensures opening { store.new.opening ≡ store.old.opening }
{
    let ready = plan_ready(alloc, store, admission, waiting, held)?;
    let Ok(outputs) = evaluate_plain(alloc, &ready.plan) else {
        drop(ready);
        return Err(OutOfMemory);
    };
    let settled = settle(alloc, store, admission, waiting, held, &ready, outputs);
    drop(ready);
    settled
}
