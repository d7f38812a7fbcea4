//! A run by its plan, on workers in threads of their own.

ghost use Rattle.std.specs.Prelude.{◌≡◌, ◌<◌, ◌≤◌, IfOk, OnOk, map};
ghost use Rattle.dag_core.specs.Plans.{plan_outputs};
ghost use Rattle.protocol_spec.specs.Chain.Words.{Each};
ghost use Rattle.protocol_spec.specs.Member.Rounds.{rounds};
ghost use Rattle.exec_plan.specs.Books.{AreApart, IsSound, books_of, effects_of};
ghost use Rattle.exec_plan.specs.Runs.{with_executions};
ghost use Rattle.exec_plan.specs.Waits.{IsWaiting};

use crate::ready::{Ready, plan_ready};
use crate::settled::settle;
use crate::task::Outcome;
use crate::waiting::DependencyIndex;
use dag_pool::{Gate, run_plan};
use digest_core::Digest;
use effects_core::HashedEffects;
use protocol_spec::Held;
use std::alloc::Global;
use std::thread::Threads;
use steal_board::Board;
use version_assign::Admission;
use version_store::Store;
use wire_bcs::{OutOfMemory, Seq};

/// This many workers, but no more than there are tasks, and at least one.
fn workers_for(ready: &Ready<'_>, workers: u32) -> u32
    requires { (0 < workers) × (workers ≤ 16) }
    ensures { (0 < result) × (result ≤ 16) }
{
    workers.min(ready.plan.tasks().max(1))
}

/// The outputs of a plan by 1 to 16 workers, in the order of its tasks.
fn outputs_of<R: Threads + Sync, G: Gate + Sync>(
    rt: &R,
    alloc: Global,
    ready: &Ready<'_>,
    workers: u32,
    gate: &G,
) -> Result<Seq<(Digest, Outcome)>, OutOfMemory>
    requires { (0 < workers) × (workers ≤ 16) }
    ensures { IfOk result (λ outputs. outputs ≡ plan_outputs ready.now.plan) }
{
    let (board, seat) = Board::lay(alloc, &ready.plan)?;
    let workers = workers_for(ready, workers);
    let run = run_plan(rt, alloc, &ready.plan, &board, seat, workers, gate)?;
    Ok(run.outputs)
}

/// Executes, by 1 to 16 workers, all held certificates that are ready, and answers their effects in the order of the
/// rounds (Sui Lutris; rounds are this profile's own). Each held certificate stands under its transaction's digest, and
/// its transaction has a valid shape; no transaction is held twice. The gate is notified of each execution, which no
/// clause says. The only error is that memory is refused: part of the rounds may then be executed, and nothing is
/// promised of the store, but for its opening, and of what waits.
pub fn run_pooled<R: Threads + Sync, G: Gate + Sync>(
    rt: &R,
    alloc: Global,
    store: &mut Store,
    admission: &Admission,
    waiting: &mut DependencyIndex,
    held: &[Held],
    workers: u32,
    gate: &G,
) -> Result<Seq<HashedEffects>, OutOfMemory>
    requires workers { (0 < workers) × (workers ≤ 16) }
    requires sound { Each IsSound held.now }
    requires apart { AreApart held.now }
    requires waiting { IsWaiting store.old admission.now.admission held.now waiting.old }
    ensures written { OnOk result (store.new ≡ with_executions store.old (rounds (books_of store.old admission.now.admission held.now) store.old.executed)) }
    ensures effects { IfOk result (λ effects. effects ≡ map effects_of (rounds (books_of store.old admission.now.admission held.now) store.old.executed)) }
    ensures waiting { OnOk result (IsWaiting store.new admission.now.admission held.now waiting.new) }
    ensures opening { store.new.opening ≡ store.old.opening }
{
    let ready = plan_ready(alloc, store, admission, waiting, held)?;
    let Ok(outputs) = outputs_of(rt, alloc, &ready, workers, gate) else {
        drop(ready);
        return Err(OutOfMemory);
    };
    let settled = settle(alloc, store, admission, waiting, held, &ready, outputs);
    drop(ready);
    settled
}
