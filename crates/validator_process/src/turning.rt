//! Answers to `close` and `turn`.

ghost use Rattle.std.specs.Prelude.{◌≡◌, ◌<◌, ◌≤◌, IfOk, IsErrOf, OnOk, true};
ghost use Rattle.outside.specs.Causes.{Rose};
ghost use Rattle.protocol_spec.specs.Member.Calls.{called, close_answer, closes, due, turn_answer, turns};
ghost use Rattle.world_spec.specs.Posts.{seat_behind};
ghost use Rattle.world_spec.specs.Seats.{bare_rules};
ghost use Rattle.world_core.specs.Replies.{Leaves};
ghost use Rattle.world_core.specs.declared.reply.SeatFault.TheVariants as faults;
ghost use Rattle.validator_process.specs.Says.{close_line, turn_line};

use digest_core::Digest;
use outside::Keeper;
use process_lines::{print_close_refusal, print_closed, print_turn_refusal, print_turned};
use protocol_spec::{CloseRefusal, TurnRefusal};
use std::alloc::Global;
use validator_core::Validator;
use wire_bcs::{OutOfMemory, Seq};
use world_core::{SeatFault, ask_close, ask_turn};

/// The line for a member's answer to `close`, without its end.
fn close_text(alloc: Global, answer: &Result<bool, CloseRefusal>) -> Result<Seq<u8>, OutOfMemory>
    ensures { IfOk result (λ text. text ≡ close_line answer.now) }
{
    let mut out = Seq::new(alloc);
    match answer {
        Ok(new) => print_closed(&mut out, *new)?,
        Err(refusal) => print_close_refusal(&mut out, refusal)?,
    }
    Ok(out)
}

/// Answers `close`: closes the member's epoch.
#[tactic(auto, using(crate::proofs::Given::close_says))]
pub(crate) fn close<D: Keeper>(
    alloc: Global,
    validator: &mut Validator,
    keeper: &mut D,
) -> Result<Seq<u8>, SeatFault>
    requires known { validator.old.member < D.width keeper.old }
    requires up { validator.old.up ≡ true }
    ensures says { IfOk result (λ text. text ≡ close_line (close_answer (bare_rules validator.old) validator.old.state)) }
    ensures state { OnOk result (validator.new ≡ seat_behind (bare_rules validator.old) closes validator.old) }
    ensures kept { Leaves (D.lists keeper.old) (D.lists keeper.new) validator.old.member (due (bare_rules validator.old) validator.old.state closes) result }
    ensures width { D.width keeper.new ≡ D.width keeper.old }
    ensures later { D.failed keeper.old ≤ D.failed keeper.new }
    ensures fault { IsErrOf result faults.KeepFault → Rose (D.failed keeper.old) (D.failed keeper.new) }
{
    let answer = ask_close(validator, keeper)?;
    match close_text(alloc, &answer) {
        Ok(text) => Ok(text),
        Err(OutOfMemory) => Err(SeatFault::OutOfMemory),
    }
}

/// The line for a member's answer to `turn`, without its end; `epoch` is the member's epoch after it.
fn turn_text(
    alloc: Global,
    epoch: u64,
    answer: &Result<Seq<Digest>, TurnRefusal>,
) -> Result<Seq<u8>, OutOfMemory>
    ensures { IfOk result (λ text. text ≡ turn_line epoch answer.now) }
{
    let mut out = Seq::new(alloc);
    match answer {
        Ok(undone) => print_turned(&mut out, epoch, undone.as_slice())?,
        Err(refusal) => print_turn_refusal(&mut out, refusal)?,
    }
    Ok(out)
}

/// Answers `turn`: turns the member to the next epoch.
#[tactic(auto, using(crate::proofs::Given::turn_says))]
pub(crate) fn turn<D: Keeper>(
    alloc: Global,
    validator: &mut Validator,
    keeper: &mut D,
) -> Result<Seq<u8>, SeatFault>
    requires known { validator.old.member < D.width keeper.old }
    requires up { validator.old.up ≡ true }
    ensures says { IfOk result (λ text. text ≡ turn_line (called (bare_rules validator.old) validator.old.state turns).epoch (turn_answer (bare_rules validator.old) validator.old.state)) }
    ensures state { OnOk result (validator.new ≡ seat_behind (bare_rules validator.old) turns validator.old) }
    ensures kept { Leaves (D.lists keeper.old) (D.lists keeper.new) validator.old.member (due (bare_rules validator.old) validator.old.state turns) result }
    ensures width { D.width keeper.new ≡ D.width keeper.old }
    ensures later { D.failed keeper.old ≤ D.failed keeper.new }
    ensures fault { IsErrOf result faults.KeepFault → Rose (D.failed keeper.old) (D.failed keeper.new) }
{
    let answer = ask_turn(validator, keeper)?;
    let epoch = validator.epoch();
    match turn_text(alloc, epoch, &answer) {
        Ok(text) => Ok(text),
        Err(OutOfMemory) => Err(SeatFault::OutOfMemory),
    }
}
