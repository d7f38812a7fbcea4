//! Which outputs of a plan are kept.

ghost use Rattle.std.specs.Prelude.{◌≡◌, ◌∷◌, ◌++◌, ◌&&◌, [], IfOk, MatchOption, OnOk, false, map, reverse};
ghost use Rattle.std.specs.List.{list_all};
ghost use Rattle.chain_types.specs.Digests.{consumed_keys};
ghost use Rattle.protocol_spec.specs.Block.Execution.{written_keys};
ghost use Rattle.protocol_spec.specs.Member.Rounds.{writes_new};
ghost use Rattle.protocol_spec.specs.Member.Versions.{is_executed};
ghost use Rattle.version_store.specs.Stores.{held_in};
ghost use Rattle.exec_plan.specs.Books.{effects_of};
ghost use Rattle.exec_plan.specs.Keeping.{CanBeKept, IsNamed, with_effects, with_kept};
ghost use Rattle.exec_plan.specs.Runs.{with_executions};
ghost use Rattle.exec_plan.specs.Tasks.{is_origin_kept, keep_as, kept_of};
ghost use Rattle.exec_plan.specs.declared.task.Outcome.TheVariants.{Done};

use crate::task::{Outcome, Task, Want};
use chain_types::{ObjectKey, Producer};
use digest_core::Digest;
use effects_core::HashedEffects;
use ptb_run::HashedExecuted;
use std::alloc::Global;
use version_store::Store;
use wire_bcs::{Duplicate, OutOfMemory, Seq};

/// Whether the transaction that makes a wanted version is executed.
fn is_origin_kept(store: &Store, want: &Want) -> bool
    ensures { result ≡ is_origin_kept store.now.executed want.now }
{
    match want.origin {
        Producer::Tx(tx) => store.is_executed(&tx),
        Producer::Opening => true,
    }
}

/// Whether all that makes what is wanted is executed.
fn are_kept(store: &Store, wants: &[Want]) -> bool
    ensures { result ≡ list_all (is_origin_kept store.now.executed) wants.now }
{
    let mut rest = wants;
    while let [want, after @ ..] = rest {
        if !is_origin_kept(store, want) {
            return false;
        }
        rest = after;
    }
    true
}

/// Whether what a task gave is to be kept: all that makes what it wants is executed, and all that it writes is new.
fn keeps(store: &Store, task: &Task<'_>, gave: &HashedExecuted) -> Result<bool, OutOfMemory>
    ensures { IfOk result (λ keeps. keeps ≡ (list_all (is_origin_kept store.now.executed) task.now.wants && writes_new (held_in store.now) (written_keys gave.now))) }
{
    if !are_kept(store, task.wants()) {
        return Ok(false);
    }
    store.are_new(gave.objects())
}

/// Adds a copy of the effects that a task gave, and answers the versions that its transaction consumes.
fn note(
    alloc: Global,
    effects: &mut Seq<HashedEffects>,
    task: &Task<'_>,
    gave: &HashedExecuted,
) -> Result<Seq<ObjectKey>, OutOfMemory>
    ensures copied { OnOk result (effects.new ≡ effects.old ++ gave.now.effects ∷ []) }
    ensures consumed { IfOk result (λ keys. keys ≡ consumed_keys task.now.tx) }
{
    effects.push(gave.effects().copy()?)?;
    task.consumed(alloc)
}

/// Writes what a task gave, if it is kept, and adds a copy of its effects.
fn keep_done(
    alloc: Global,
    store: &mut Store,
    effects: &mut Seq<HashedEffects>,
    task: &Task<'_>,
    gave: HashedExecuted,
) -> Result<(), OutOfMemory>
    requires named { gave.effects.tx ≡ task.now.digest }
    requires first { is_executed store.old.executed task.now.digest ≡ false }
    ensures written { OnOk result (store.new ≡ with_kept store.old (keep_as store.old.opening store.old.executed task.now (Done gave))) }
    ensures copied { OnOk result (effects.new ≡ with_effects effects.old (keep_as store.old.opening store.old.executed task.now (Done gave))) }
    ensures opening { store.new.opening ≡ store.old.opening }
{
    let Ok(kept) = keeps(store, task, &gave) else {
        drop(gave);
        return Err(OutOfMemory);
    };
    if !kept {
        drop(gave);
        return Ok(());
    }
    let Ok(consumed) = note(alloc, effects, task, &gave) else {
        drop(gave);
        return Err(OutOfMemory);
    };
    let (hashed, objects) = gave.into_parts();
    store.write(hashed, objects, consumed)
}

/// [`keep_done`] for the output of a task; one that was not executed is left out.
fn keep_one(
    alloc: Global,
    store: &mut Store,
    effects: &mut Seq<HashedEffects>,
    task: &Task<'_>,
    output: (Digest, Outcome),
) -> Result<(), OutOfMemory>
    requires named { IsNamed task.now output.1 }
    requires first { is_executed store.old.executed task.now.digest ≡ false }
    ensures written { OnOk result (store.new ≡ with_kept store.old (keep_as store.old.opening store.old.executed task.now output.1)) }
    ensures copied { OnOk result (effects.new ≡ with_effects effects.old (keep_as store.old.opening store.old.executed task.now output.1)) }
    ensures opening { store.new.opening ≡ store.old.opening }
{
    match output.1 {
        Outcome::Done(gave) => keep_done(alloc, store, effects, task, gave),
        Outcome::Absent { .. } => Ok(()),
        Outcome::Unfit => Ok(()),
        Outcome::Waits => Ok(()),
    }
}

/// The outputs in reverse, so that the first can be taken off the end.
fn turned(outputs: Seq<(Digest, Outcome)>) -> Seq<(Digest, Outcome)>
    ensures { reverse result ≡ outputs }
{
    let mut turned = outputs.into_vec();
    turned.as_mut_slice().reverse();
    Seq::from_vec(turned)
}

/// Takes the first output out of those that are left, which stand with the last one first.
fn take_first(left: &mut Seq<(Digest, Outcome)>) -> Option<(Digest, Outcome)>
    ensures { MatchOption result (reverse left.old ≡ []) (λ output. reverse left.old ≡ output ∷ reverse left.new) }
{
    left.pop()
}

/// Keeps the outputs of these tasks, from the first on: writes them to the store, and adds copies of their effects.
pub(crate) fn keep_all(
    alloc: Global,
    store: &mut Store,
    effects: &mut Seq<HashedEffects>,
    tasks: &[Task<'_>],
    outputs: Seq<(Digest, Outcome)>,
) -> Result<(), OutOfMemory>
    requires { CanBeKept store.old.opening store.old.executed tasks.now outputs }
    ensures written { OnOk result (store.new ≡ with_executions store.old (kept_of store.old.opening store.old.executed tasks.now outputs)) }
    ensures copied { OnOk result (effects.new ≡ effects.old ++ map effects_of (kept_of store.old.opening store.old.executed tasks.now outputs)) }
    ensures opening { store.new.opening ≡ store.old.opening }
{
    let mut left = turned(outputs);
    let mut rest = tasks;
    while let [task, after @ ..] = rest {
        let Some(output) = take_first(&mut left) else {
            return Ok(());
        };
        keep_one(alloc, store, effects, task, output)?;
        rest = after;
    }
    Ok(())
}
