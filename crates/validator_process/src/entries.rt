//! Answers to `see` and `run`.

ghost use Rattle.std.specs.Prelude.{◌≡◌, ◌<◌, ◌≤◌, IfOk, IsErrOf, OnOk, true};
ghost use Rattle.outside.specs.Causes.{Rose};
ghost use Rattle.protocol_spec.specs.Member.Calls.{due, run_answer, runs, see_answer, sees};
ghost use Rattle.world_spec.specs.Posts.{seat_behind};
ghost use Rattle.world_spec.specs.Seats.{bare_rules, rules_of_seat};
ghost use Rattle.world_core.specs.Replies.{Leaves};
ghost use Rattle.world_core.specs.declared.reply.SeatFault.TheVariants as faults;
ghost use Rattle.validator_process.specs.Says.{run_line, see_line};

use dag_pool::OpenGate;
use outside::Keeper;
use process_lines::{print_ran, print_run_refusal, print_see_refusal, print_seen};
use protocol_spec::{Ran, RunRefusal, SeeRefusal, Seen};
use quorum_core::Sealer;
use std::alloc::Global;
use std::thread::Threads;
use validator_core::Validator;
use wire_bcs::{OutOfMemory, Seq};
use world_core::{SeatFault, ask_run, ask_see};

/// The line for a member's answer to `see`, without its end.
fn see_text(alloc: Global, answer: &Result<Seen, SeeRefusal>) -> Result<Seq<u8>, OutOfMemory>
    ensures { IfOk result (λ text. text ≡ see_line answer.now) }
{
    let mut out = Seq::new(alloc);
    match answer {
        Ok(seen) => print_seen(&mut out, seen)?,
        Err(refusal) => print_see_refusal(&mut out, refusal)?,
    }
    Ok(out)
}

/// Answers `see N ENTRY`: hands the entry to the member.
#[tactic(auto, using(crate::proofs::Given::see_says))]
pub(crate) fn see<D: Keeper, S: Sealer>(
    alloc: Global,
    validator: &mut Validator,
    keeper: &mut D,
    sealer: &S,
    number: u64,
    entry: &[u8],
) -> Result<Seq<u8>, SeatFault>
    requires known { validator.old.member < D.width keeper.old }
    requires up { validator.old.up ≡ true }
    ensures says { IfOk result (λ text. text ≡ see_line (see_answer (rules_of_seat validator.old (S.accepts sealer.now)) validator.old.state number entry.now)) }
    ensures state { OnOk result (validator.new ≡ seat_behind (rules_of_seat validator.old (S.accepts sealer.now)) (sees number entry.now) validator.old) }
    ensures kept { Leaves (D.lists keeper.old) (D.lists keeper.new) validator.old.member (due (rules_of_seat validator.old (S.accepts sealer.now)) validator.old.state (sees number entry.now)) result }
    ensures width { D.width keeper.new ≡ D.width keeper.old }
    ensures later { D.failed keeper.old ≤ D.failed keeper.new }
    ensures fault { IsErrOf result faults.KeepFault → Rose (D.failed keeper.old) (D.failed keeper.new) }
{
    let answer = ask_see(validator, keeper, sealer, number, entry)?;
    match see_text(alloc, &answer) {
        Ok(text) => Ok(text),
        Err(OutOfMemory) => Err(SeatFault::OutOfMemory),
    }
}

/// The line for a member's answer to `run`, without its end.
fn run_text(alloc: Global, answer: &Result<Ran, RunRefusal>) -> Result<Seq<u8>, OutOfMemory>
    ensures { IfOk result (λ text. text ≡ run_line answer.now) }
{
    let mut out = Seq::new(alloc);
    match answer {
        Ok(ran) => print_ran(&mut out, ran)?,
        Err(refusal) => print_run_refusal(&mut out, refusal)?,
    }
    Ok(out)
}

/// Answers `run WORKERS`: lets the member run what it holds.
#[tactic(auto, using(crate::proofs::Given::run_says))]
pub(crate) fn run<R: Threads + Sync, D: Keeper>(
    rt: &R,
    alloc: Global,
    validator: &mut Validator,
    keeper: &mut D,
    workers: u32,
) -> Result<Seq<u8>, SeatFault>
    requires known { validator.old.member < D.width keeper.old }
    requires workers { (0 < workers) × (workers ≤ 16) }
    requires up { validator.old.up ≡ true }
    ensures says { IfOk result (λ text. text ≡ run_line (run_answer (bare_rules validator.old) validator.old.state)) }
    ensures state { OnOk result (validator.new ≡ seat_behind (bare_rules validator.old) runs validator.old) }
    ensures kept { Leaves (D.lists keeper.old) (D.lists keeper.new) validator.old.member (due (bare_rules validator.old) validator.old.state runs) result }
    ensures width { D.width keeper.new ≡ D.width keeper.old }
    ensures later { D.failed keeper.old ≤ D.failed keeper.new }
    ensures fault { IsErrOf result faults.KeepFault → Rose (D.failed keeper.old) (D.failed keeper.new) }
{
    let answer = ask_run(rt, validator, keeper, workers, &OpenGate)?;
    match run_text(alloc, &answer) {
        Ok(text) => Ok(text),
        Err(OutOfMemory) => Err(SeatFault::OutOfMemory),
    }
}
