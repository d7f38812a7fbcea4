//! Requests to a member that is up: entries of its sequence, and the close and the turn of its epoch.

ghost use Rattle.std.specs.Prelude.{◌≡◌, ◌<◌, ◌≤◌, IfOk, IsErrOf, None, OnErr, OnOk, is_some, true};
ghost use Rattle.outside.specs.Causes.{Rose};
ghost use Rattle.protocol_spec.specs.Member.Calls.{closes, due, sees, turns};
ghost use Rattle.protocol_spec.specs.Member.Member.{fork_of};
ghost use Rattle.world_spec.specs.Seats.{bare_rules, rules_of_seat};
ghost use Rattle.world_spec.specs.Posts.{seat_behind};
ghost use Rattle.validator_core.specs.Seats.{Fell};
ghost use Rattle.world_core.specs.declared.reply.SeatFault.TheVariants as faults;
ghost use Rattle.world_core.specs.Replies.{Leaves, SaysClose, SaysSee, SaysTurn, close_fault, see_fault, turn_fault};

use crate::reply::SeatFault;
use crate::requests::Asks;
use digest_core::Digest;
use outside::Keeper;
use protocol_spec::{CloseRefusal, SeeRefusal, Seen, TurnRefusal};
use quorum_core::Sealer;
use std::thread::Threads;
use validator_core::Validator;
use wire_bcs::Seq;

/// The entry of this number of the member's sequence, encoded.
#[derive(Clone, Copy)]
pub(crate) struct SeeRequest<'a> {
    pub(crate) number: u64,
    pub(crate) bytes: &'a [u8],
}

impl Asks for SeeRequest<'_> {
    type Answer = Result<Seen, SeeRefusal>;

    ghost call = { λ q. sees q.number q.bytes.now };

    ghost says = { λ q r _ _ before given. SaysSee r q.number q.bytes.now before given };

    fn ask<R: Threads + Sync, D: Keeper, S: Sealer>(
        &self,
        _rt: &R,
        validator: &mut Validator,
        keeper: &mut D,
        sealer: &S,
    ) -> Result<Result<Seen, SeeRefusal>, SeatFault> {
        ask_see(validator, keeper, sealer, self.number, self.bytes)
    }
}

/// The fault that kept a call from its answer; none if it was answered.
fn see_fault(answer: &Result<Seen, SeeRefusal>) -> Option<SeatFault>
    ensures { result ≡ see_fault answer.now }
{
    match answer {
        Err(SeeRefusal::KeepFault) => Some(SeatFault::KeepFault),
        Err(SeeRefusal::OutOfMemory) => Some(SeatFault::OutOfMemory),
        Ok(_) => None,
        Err(
            SeeRefusal::Down
            | SeeRefusal::Halted { .. }
            | SeeRefusal::Full
            | SeeRefusal::Over
            | SeeRefusal::Gap { .. }
            | SeeRefusal::Fork { .. },
        ) => None,
    }
}

/// Hands an entry to a member that is up. Errors are those of [`ask_vote`](crate::ask_vote).
pub fn ask_see<D: Keeper, S: Sealer>(
    validator: &mut Validator,
    keeper: &mut D,
    sealer: &S,
    number: u64,
    bytes: &[u8],
) -> Result<Result<Seen, SeeRefusal>, SeatFault>
    requires known { validator.old.member < D.width keeper.old }
    requires up { validator.old.up ≡ true }
    ensures answer { IfOk result (SaysSee (rules_of_seat validator.old (S.accepts sealer.now)) number bytes.now validator.old.state) }
    ensures state { OnOk result (validator.new ≡ seat_behind (rules_of_seat validator.old (S.accepts sealer.now)) (sees number bytes.now) validator.old) }
    ensures kept { Leaves (D.lists keeper.old) (D.lists keeper.new) validator.old.member (due (rules_of_seat validator.old (S.accepts sealer.now)) validator.old.state (sees number bytes.now)) result }
    ensures width { D.width keeper.new ≡ D.width keeper.old }
    ensures later { D.failed keeper.old ≤ D.failed keeper.new }
    ensures fault { IsErrOf result faults.KeepFault → Rose (D.failed keeper.old) (D.failed keeper.new) }
    ensures owed { IsErrOf result faults.KeepFault → is_some (due (rules_of_seat validator.old (S.accepts sealer.now)) validator.old.state (sees number bytes.now)) ≡ true }
    ensures able { IsErrOf result faults.OutOfMemory → fork_of validator.old.state ≡ None }
    ensures fell { OnErr result (Fell validator.old validator.new) }
{
    let answer = validator.see(keeper, sealer, number, bytes);
    match see_fault(&answer) {
        Some(fault) => Err(fault),
        None => Ok(answer),
    }
}

/// A request to close the member's epoch.
#[derive(Clone, Copy)]
pub(crate) struct CloseRequest;

#[tactic(auto, using(world_spec::proofs::RulesAside::close_answer_alike, world_spec::proofs::RulesAside::close_due_alike, world_spec::proofs::RulesAside::close_called_alike))]
impl Asks for CloseRequest {
    type Answer = Result<bool, CloseRefusal>;

    ghost call = { λ _. closes };

    ghost says = { λ _ r _ _ before given. SaysClose r before given };

    fn ask<R: Threads + Sync, D: Keeper, S: Sealer>(
        &self,
        _rt: &R,
        validator: &mut Validator,
        keeper: &mut D,
        _sealer: &S,
    ) -> Result<Result<bool, CloseRefusal>, SeatFault> {
        ask_close(validator, keeper)
    }
}

/// The fault that kept a call from its answer; none if it was answered.
fn close_fault(answer: &Result<bool, CloseRefusal>) -> Option<SeatFault>
    ensures { result ≡ close_fault answer.now }
{
    match answer {
        Err(CloseRefusal::KeepFault) => Some(SeatFault::KeepFault),
        Err(CloseRefusal::OutOfMemory) => Some(SeatFault::OutOfMemory),
        Ok(_) => None,
        Err(CloseRefusal::Down | CloseRefusal::Halted { .. } | CloseRefusal::Full) => None,
    }
}

/// Closes the epoch of a member that is up. Errors are those of [`ask_vote`](crate::ask_vote).
pub fn ask_close<D: Keeper>(
    validator: &mut Validator,
    keeper: &mut D,
) -> Result<Result<bool, CloseRefusal>, SeatFault>
    requires known { validator.old.member < D.width keeper.old }
    requires up { validator.old.up ≡ true }
    ensures answer { IfOk result (SaysClose (bare_rules validator.old) validator.old.state) }
    ensures state { OnOk result (validator.new ≡ seat_behind (bare_rules validator.old) closes validator.old) }
    ensures kept { Leaves (D.lists keeper.old) (D.lists keeper.new) validator.old.member (due (bare_rules validator.old) validator.old.state closes) result }
    ensures width { D.width keeper.new ≡ D.width keeper.old }
    ensures later { D.failed keeper.old ≤ D.failed keeper.new }
    ensures fault { IsErrOf result faults.KeepFault → Rose (D.failed keeper.old) (D.failed keeper.new) }
    ensures owed { IsErrOf result faults.KeepFault → is_some (due (bare_rules validator.old) validator.old.state closes) ≡ true }
    ensures able { IsErrOf result faults.OutOfMemory → fork_of validator.old.state ≡ None }
    ensures fell { OnErr result (Fell validator.old validator.new) }
{
    let answer = validator.close(keeper);
    match close_fault(&answer) {
        Some(fault) => Err(fault),
        None => Ok(answer),
    }
}

/// A request to turn to the next epoch.
#[derive(Clone, Copy)]
pub(crate) struct TurnRequest;

#[tactic(auto, using(world_spec::proofs::RulesAside::turn_answer_alike, world_spec::proofs::RulesAside::turn_due_alike, world_spec::proofs::RulesAside::turn_called_alike))]
impl Asks for TurnRequest {
    type Answer = Result<Seq<Digest>, TurnRefusal>;

    ghost call = { λ _. turns };

    ghost says = { λ _ r _ _ before given. SaysTurn r before given };

    fn ask<R: Threads + Sync, D: Keeper, S: Sealer>(
        &self,
        _rt: &R,
        validator: &mut Validator,
        keeper: &mut D,
        _sealer: &S,
    ) -> Result<Result<Seq<Digest>, TurnRefusal>, SeatFault> {
        ask_turn(validator, keeper)
    }
}

/// The fault that kept a call from its answer; none if it was answered.
fn turn_fault(answer: &Result<Seq<Digest>, TurnRefusal>) -> Option<SeatFault>
    ensures { result ≡ turn_fault answer.now }
{
    match answer {
        Err(TurnRefusal::KeepFault) => Some(SeatFault::KeepFault),
        Err(TurnRefusal::OutOfMemory) => Some(SeatFault::OutOfMemory),
        Ok(_) => None,
        Err(
            TurnRefusal::Down
            | TurnRefusal::Halted { .. }
            | TurnRefusal::Full
            | TurnRefusal::NotEnded
            | TurnRefusal::Waits { .. },
        ) => None,
    }
}

/// Turns a member that is up to the next epoch. Errors are those of [`ask_vote`](crate::ask_vote).
pub fn ask_turn<D: Keeper>(
    validator: &mut Validator,
    keeper: &mut D,
) -> Result<Result<Seq<Digest>, TurnRefusal>, SeatFault>
    requires known { validator.old.member < D.width keeper.old }
    requires up { validator.old.up ≡ true }
    ensures answer { IfOk result (SaysTurn (bare_rules validator.old) validator.old.state) }
    ensures state { OnOk result (validator.new ≡ seat_behind (bare_rules validator.old) turns validator.old) }
    ensures kept { Leaves (D.lists keeper.old) (D.lists keeper.new) validator.old.member (due (bare_rules validator.old) validator.old.state turns) result }
    ensures width { D.width keeper.new ≡ D.width keeper.old }
    ensures later { D.failed keeper.old ≤ D.failed keeper.new }
    ensures fault { IsErrOf result faults.KeepFault → Rose (D.failed keeper.old) (D.failed keeper.new) }
    ensures owed { IsErrOf result faults.KeepFault → is_some (due (bare_rules validator.old) validator.old.state turns) ≡ true }
    ensures able { IsErrOf result faults.OutOfMemory → fork_of validator.old.state ≡ None }
    ensures fell { OnErr result (Fell validator.old validator.new) }
{
    let answer = validator.turn(keeper);
    match turn_fault(&answer) {
        Some(fault) => Err(fault),
        None => Ok(answer),
    }
}
