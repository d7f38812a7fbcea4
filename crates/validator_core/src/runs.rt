//! Runs and the close of an epoch, and the records of runs.

ghost use Rattle.std.specs.Prelude.{◌≡◌, ◌<◌, ◌≤◌, [], IfOk, IfSome, IsErrOf, None, OnOk, false, nat_le, true};
ghost use Rattle.journal_core.specs.Records as journals;
ghost use Rattle.protocol_spec.specs.Chain.Words.{unless_refused};
ghost use Rattle.protocol_spec.specs.Member.Calls.{ran_as, ran_items, ran_record, record_limit};
ghost use Rattle.protocol_spec.specs.Member.Member.{books, fork_of, with_rounds};
ghost use Rattle.protocol_spec.specs.declared.refusals.CloseRefusal.TheVariants as no_close;
ghost use Rattle.protocol_spec.specs.declared.refusals.RunRefusal.TheVariants as no_run;
ghost use Rattle.protocol_spec.specs.Member.Rounds.{rounds};
ghost use Rattle.validator_core.specs.Answers.{close_stopped, run_stopped};
ghost use Rattle.validator_core.specs.Steps.{item_of, items_after, items_of};

use crate::state::State;
use dag_pool::Gate;
use effects_core::HashedEffects;
use journal_core::{RanItem, Record};
use protocol_spec::{CloseRefusal, Ran, RunRefusal};
use std::alloc::Global;
use std::thread::Threads;
use wire_bcs::{OutOfMemory, Seq};

/// The least length at which a list cannot be encoded.
const TOO_LONG: u64 = 2_147_483_648;

/// The item of an executed transaction. Takes no memory.
fn item_of(effects: &HashedEffects) -> RanItem
    ensures { result ≡ item_of effects.now }
{
    RanItem {
        tx: effects.effects().tx,
        effects: effects.digest(),
    }
}

/// The loop of [`ran_items`].
fn collect_items(alloc: Global, effects: &[HashedEffects]) -> Result<Seq<RanItem>, OutOfMemory>
    ensures { IfOk result (λ items. items ≡ items_after [] effects.now) }
{
    let mut items = Seq::with_room(alloc, effects.len() as u64)?;
    let mut rest = effects;
    while let [one, after @ ..] = rest {
        items.push(item_of(one))?;
        rest = after;
    }
    Ok(items)
}

/// The items of executed transactions, in order.
#[tactic(auto, using(crate::proofs::Spelled::items_all))]
pub(crate) fn ran_items(
    alloc: Global,
    effects: &[HashedEffects],
) -> Result<Seq<RanItem>, OutOfMemory>
    ensures { IfOk result (λ items. items ≡ items_of effects.now) }
{
    collect_items(alloc, effects)
}

/// The record of a run that executed transactions with these effects, in order: none if it executed none. A list
/// of 2^31 items counts as running out of memory.
#[tactic(auto, using(crate::proofs::Spelled::ran_short))]
pub(crate) fn ran_record(
    alloc: Global,
    effects: &[HashedEffects],
) -> Result<Option<Record>, OutOfMemory>
    ensures value { IfOk result (λ r. r ≡ ran_record (items_of effects.now)) }
    ensures short { IfOk result (λ r. IfSome r journals.journal_record.short) }
{
    let items = ran_items(alloc, effects)?;
    if items.is_empty() {
        return Ok(None);
    }
    if items.len() >= TOO_LONG {
        return Err(OutOfMemory);
    }
    Ok(Some(Record::Ran2(items)))
}

impl State {
    /// Runs, by 1 to 16 workers in threads: executes all held certificates that are ready, round after round, and says
    /// what is left (Sui Lutris). The gate is notified of each execution, which no clause says. The items of the record
    /// that is due are those of the effects. If memory is refused the state is not to be used.
    pub(crate) fn run<R: Threads + Sync, G: Gate + Sync>(
        &mut self,
        rt: &R,
        workers: u32,
        gate: &G,
    ) -> Result<Ran, OutOfMemory>
        requires workers { (0 < workers) × (workers ≤ 16) }
        ensures state { OnOk result (self.new.member ≡ with_rounds self.old.member) }
        ensures ran { IfOk result (λ ran. ran ≡ ran_as self.old.member (rounds (books self.old.member) self.old.member.executed) (with_rounds self.old.member)) }
        ensures items { IfOk result (λ ran. items_of ran.executed ≡ ran_items self.old.member) }
        ensures limit { self.new.writers ≡ self.old.writers }
    {
        let (executed, built) = self.execute_pooled(rt, workers, gate)?;
        Ok(Ran {
            executed,
            left: self.left()?,
            built,
        })
    }

    /// Whether a run may be asked for. Order of the refusals: `Halted`, `Full`. Takes no memory.
    pub(crate) fn check_run(&self) -> Result<(), RunRefusal>
        ensures value { result ≡ unless_refused (run_stopped self.now.member) tt }
        ensures room { IfOk result (λ _. nat_le record_limit self.now.member.records ≡ false) }
        ensures calm { IfOk result (λ _. fork_of self.now.member ≡ None) }
        ensures never { IsErrOf result no_run.KeepFault → ⊥ }
        ensures sober { IsErrOf result no_run.OutOfMemory → ⊥ }
    {
        if let Some((first, second)) = self.fork() {
            return Err(RunRefusal::Halted { first, second });
        }
        if self.is_full() {
            return Err(RunRefusal::Full);
        }
        Ok(())
    }

    /// Whether a close may be asked for. Order of the refusals: `Halted`, `Full`. Takes no memory.
    pub(crate) fn check_close(&self) -> Result<(), CloseRefusal>
        ensures value { result ≡ unless_refused (close_stopped self.now.member) tt }
        ensures room { IfOk result (λ _. nat_le record_limit self.now.member.records ≡ false) }
        ensures calm { IfOk result (λ _. fork_of self.now.member ≡ None) }
        ensures never { IsErrOf result no_close.KeepFault → ⊥ }
        ensures sober { IsErrOf result no_close.OutOfMemory → ⊥ }
    {
        if let Some((first, second)) = self.fork() {
            return Err(CloseRefusal::Halted { first, second });
        }
        if self.is_full() {
            return Err(CloseRefusal::Full);
        }
        Ok(())
    }
}
