//! Runs and the close of an epoch, over the state of a member.

ghost use Rattle.std.specs.Prelude.{◌≡◌, ◌<◌, ◌≤◌, [], IfOk, IsErrOf, None, OnOk, false, is_some, nat_le, true};
ghost use Rattle.outside.specs.Causes.{Rose};
ghost use Rattle.journal_core.specs.declared.records.Record.TheVariants as record_as;
ghost use Rattle.protocol_spec.specs.Member.Member.{fork_of};
ghost use Rattle.protocol_spec.specs.Member.Calls.{called, close_answer, closes, due, ran_record, record_limit, run_answer, runs};
ghost use Rattle.protocol_spec.specs.declared.refusals.CloseRefusal.TheVariants as no_close;
ghost use Rattle.protocol_spec.specs.declared.refusals.RunRefusal.TheVariants as no_run;
ghost use Rattle.validator_core.specs.Answers.{bare};
ghost use Rattle.validator_core.specs.Steps.{closing, counted_where, items_of};
ghost use Rattle.validator_core.specs.declared.keeping.JournalFault.TheVariants as unkept;
ghost use Rattle.validator_core.specs.Calls.{Closes, Runs, close_ended, run_ended};
ghost use Rattle.validator_core.specs.Seats.{Appended, AppendedWhere, Becomes, Journaled, has_fallen};

use crate::keeping::{JournalFault, append};
use crate::runs::ran_record;
use crate::state::State;
use dag_pool::Gate;
use effects_core::HashedEffects;
use journal_core::Record;
use outside::Keeper;
use protocol_spec::{CloseRefusal, Ran, RunRefusal};
use std::thread::Threads;
use wire_bcs::OutOfMemory;

/// Appends the record of a run that executed transactions with these effects, and counts it; a run that executed
/// none has no record.
fn keep_run<D: Keeper>(
    state: &mut State,
    keeper: &mut D,
    member: u32,
    effects: &[HashedEffects],
) -> Result<(), JournalFault>
    requires known { member < D.width keeper.old }
    requires room { nat_le record_limit state.old.member.records ≡ false }
    ensures state { OnOk result (state.new.member ≡ counted_where (ran_record (items_of effects.now)) state.old.member) }
    ensures kept { AppendedWhere (D.lists keeper.old) (D.lists keeper.new) member (ran_record (items_of effects.now)) result }
    ensures width { D.width keeper.new ≡ D.width keeper.old }
    ensures later { D.failed keeper.old ≤ D.failed keeper.new }
    ensures fault { IsErrOf result unkept.KeepFault → Rose (D.failed keeper.old) (D.failed keeper.new) }
    ensures owed { IsErrOf result unkept.KeepFault → is_some (ran_record (items_of effects.now)) ≡ true }
    ensures limit { state.new.writers ≡ state.old.writers }
{
    let kept = match ran_record(state.allocator(), effects) {
        Ok(Some(kept)) => kept,
        Ok(None) => return Ok(()),
        Err(OutOfMemory) => return Err(JournalFault::OutOfMemory),
    };
    let appended = append(state.allocator(), keeper, member, &kept);
    drop(kept);
    match appended {
        Ok(()) => {
            state.count_run();
            Ok(())
        }
        Err(why) => Err(why),
    }
}

/// Lets a member that is up execute what it holds: the record of a run is appended before the call answers.
#[tactic(auto, using(crate::proofs::Running::run_goes, crate::proofs::Running::run_refused, crate::proofs::Running::run_stays, crate::proofs::Running::run_owed))]
pub(crate) fn run<R: Threads + Sync, D: Keeper, G: Gate + Sync>(
    rt: &R,
    state: &mut State,
    keeper: &mut D,
    member: u32,
    workers: u32,
    gate: &G,
) -> Result<Ran, RunRefusal>
    requires known { member < D.width keeper.old }
    requires workers { (0 < workers) × (workers ≤ 16) }
    ensures answer { Runs (run_answer bare state.old.member) result }
    ensures state { Becomes (called bare state.old.member runs) state.new.member (run_ended result) }
    ensures kept { Journaled (D.lists keeper.old) (D.lists keeper.new) member (due bare state.old.member runs) (run_ended result) }
    ensures width { D.width keeper.new ≡ D.width keeper.old }
    ensures later { D.failed keeper.old ≤ D.failed keeper.new }
    ensures fault { IsErrOf result no_run.KeepFault → Rose (D.failed keeper.old) (D.failed keeper.new) }
    ensures owed { IsErrOf result no_run.KeepFault → is_some (due bare state.old.member runs) ≡ true }
    ensures able { IsErrOf result no_run.OutOfMemory → fork_of state.old.member ≡ None }
    ensures limit { state.new.writers ≡ state.old.writers }
{
    match state.check_run() {
        Ok(()) => {}
        Err(refusal) => return Err(refusal),
    }
    let Ok(ran) = state.run(rt, workers, gate) else {
        return Err(RunRefusal::OutOfMemory);
    };
    keep_run(state, keeper, member, ran.executed.as_slice())?;
    Ok(ran)
}

/// Whether the member is down after this answer.
pub(crate) fn run_is_fatal(answer: &Result<Ran, RunRefusal>) -> bool
    ensures { result ≡ has_fallen (run_ended answer.now) }
{
    match answer {
        Err(RunRefusal::KeepFault | RunRefusal::OutOfMemory) => true,
        Ok(_) => false,
        Err(RunRefusal::Down | RunRefusal::Halted { .. } | RunRefusal::Full) => false,
    }
}

/// Appends the record of a close, and takes it.
#[tactic(auto, unfolding(journal_core::specs::Records::journal_record))]
fn keep_close<D: Keeper>(state: &mut State, keeper: &mut D, member: u32) -> Result<(), JournalFault>
    requires known { member < D.width keeper.old }
    requires room { nat_le record_limit state.old.member.records ≡ false }
    ensures state { OnOk result (state.new.member ≡ closing state.old.member) }
    ensures kept { Appended (D.lists keeper.old) (D.lists keeper.new) member record_as.Close result }
    ensures width { D.width keeper.new ≡ D.width keeper.old }
    ensures later { D.failed keeper.old ≤ D.failed keeper.new }
    ensures fault { IsErrOf result unkept.KeepFault → Rose (D.failed keeper.old) (D.failed keeper.new) }
    ensures limit { state.new.writers ≡ state.old.writers }
{
    match append(state.allocator(), keeper, member, &Record::Close) {
        Ok(()) => {}
        Err(why) => return Err(why),
    }
    state.take_close();
    Ok(())
}

/// Closes the epoch of a member that is up: the record is appended before the call answers.
#[tactic(auto, using(crate::proofs::Running::close_goes, crate::proofs::Running::close_refused, crate::proofs::Running::close_stays, crate::proofs::Running::close_called, crate::proofs::Running::closed_called, crate::proofs::Running::close_owed))]
pub(crate) fn close<D: Keeper>(
    state: &mut State,
    keeper: &mut D,
    member: u32,
) -> Result<bool, CloseRefusal>
    requires known { member < D.width keeper.old }
    ensures answer { Closes (close_answer bare state.old.member) result }
    ensures state { Becomes (called bare state.old.member closes) state.new.member (close_ended result) }
    ensures kept { Journaled (D.lists keeper.old) (D.lists keeper.new) member (due bare state.old.member closes) (close_ended result) }
    ensures width { D.width keeper.new ≡ D.width keeper.old }
    ensures later { D.failed keeper.old ≤ D.failed keeper.new }
    ensures fault { IsErrOf result no_close.KeepFault → Rose (D.failed keeper.old) (D.failed keeper.new) }
    ensures owed { IsErrOf result no_close.KeepFault → is_some (due bare state.old.member closes) ≡ true }
    ensures able { IsErrOf result no_close.OutOfMemory → fork_of state.old.member ≡ None }
    ensures limit { state.new.writers ≡ state.old.writers }
{
    match state.check_close() {
        Ok(()) => {}
        Err(refusal) => return Err(refusal),
    }
    if state.is_closed() {
        return Ok(false);
    }
    keep_close(state, keeper, member)?;
    Ok(true)
}

/// Whether the member is down after this answer.
pub(crate) fn close_is_fatal(answer: &Result<bool, CloseRefusal>) -> bool
    ensures { result ≡ has_fallen (close_ended answer.now) }
{
    match answer {
        Err(CloseRefusal::KeepFault | CloseRefusal::OutOfMemory) => true,
        Ok(_) => false,
        Err(CloseRefusal::Down | CloseRefusal::Halted { .. } | CloseRefusal::Full) => false,
    }
}
