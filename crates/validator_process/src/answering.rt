//! The answer to a request.

ghost use Rattle.std.specs.Prelude.{◌≡◌, ◌<◌, ◌≤◌, IfOk, IsErrOf, OnOk, false, true};
ghost use Rattle.outside.specs.Causes.{Rose};
ghost use Rattle.process_lines.specs.Requests.{HasWorkers};
ghost use Rattle.world_core.specs.Replies.{Leaves};
ghost use Rattle.world_core.specs.declared.reply.SeatFault.TheVariants as faults;
ghost use Rattle.validator_process.specs.Moves.{IsCall, IsLook, due_for, moved};
ghost use Rattle.validator_process.specs.Says.{Says};

use crate::entries::{run, see};
use crate::looking::{effects, object, state, version};
use crate::stating::{ack, checkpoint, end};
use crate::turning::{close, turn};
use crate::voting::{hold, vote};
use outside::Keeper;
use process_lines::Request;
use quorum_core::Sealer;
use std::alloc::Global;
use std::thread::Threads;
use validator_core::Validator;
use wire_bcs::{OutOfMemory, Seq};
use world_core::SeatFault;

/// Answers a request that calls the member.
#[tactic(auto, using(world_spec::proofs::RulesAside::run_answer_alike, world_spec::proofs::RulesAside::run_due_alike, world_spec::proofs::RulesAside::run_called_alike, world_spec::proofs::RulesAside::close_answer_alike, world_spec::proofs::RulesAside::close_due_alike, world_spec::proofs::RulesAside::close_called_alike, world_spec::proofs::RulesAside::turn_answer_alike, world_spec::proofs::RulesAside::turn_due_alike, world_spec::proofs::RulesAside::turn_called_alike))]
fn answer_call<R: Threads + Sync, D: Keeper, S: Sealer>(
    rt: &R,
    alloc: Global,
    validator: &mut Validator,
    keeper: &mut D,
    sealer: &S,
    request: &Request,
) -> Result<Seq<u8>, SeatFault>
    requires known { validator.old.member < D.width keeper.old }
    requires up { validator.old.up ≡ true }
    requires call { IsCall request.now }
    requires workers { HasWorkers request.now }
    ensures says { IfOk result (Says (S.accepts sealer.now) validator.old request.now) }
    ensures state { OnOk result (validator.new ≡ moved (S.accepts sealer.now) validator.old request.now) }
    ensures kept { Leaves (D.lists keeper.old) (D.lists keeper.new) validator.old.member (due_for (S.accepts sealer.now) validator.old request.now) result }
    ensures width { D.width keeper.new ≡ D.width keeper.old }
    ensures later { D.failed keeper.old ≤ D.failed keeper.new }
    ensures fault { IsErrOf result faults.KeepFault → Rose (D.failed keeper.old) (D.failed keeper.new) }
{
    match request {
        Request::Vote(bytes) => vote(alloc, validator, keeper, sealer, bytes.as_slice()),
        Request::Hold(bytes) => hold(alloc, validator, keeper, sealer, bytes.as_slice()),
        Request::See { number, entry } => {
            see(alloc, validator, keeper, sealer, *number, entry.as_slice())
        }
        Request::Run { workers } => run(rt, alloc, validator, keeper, *workers),
        Request::Close => close(alloc, validator, keeper),
        Request::Turn => turn(alloc, validator, keeper),
        Request::End
        | Request::Ack { .. }
        | Request::Checkpoint { .. }
        | Request::Object { .. }
        | Request::Version { .. }
        | Request::Effects { .. }
        | Request::State => unreachable!(),
    }
}

/// Answers a request that changes nothing.
fn answer_look<S: Sealer>(
    alloc: Global,
    validator: &Validator,
    sealer: &S,
    member: u32,
    request: &Request,
) -> Result<Seq<u8>, OutOfMemory>
    requires member { validator.now.member ≡ member }
    requires up { validator.now.up ≡ true }
    requires look { IsLook request.now }
    ensures { IfOk result (Says (S.accepts sealer.now) validator.now request.now) }
{
    match request {
        Request::End => end(alloc, validator, sealer),
        Request::Ack { tx } => ack(alloc, validator, sealer, tx),
        Request::Checkpoint { number } => checkpoint(alloc, validator, sealer, member, *number),
        Request::Object { id } => object(alloc, validator, *id),
        Request::Version { id, version: v } => version(alloc, validator, *id, *v),
        Request::Effects { tx } => effects(alloc, validator, tx),
        Request::State => state(alloc, validator),
        Request::Vote(_)
        | Request::Hold(_)
        | Request::See { .. }
        | Request::Run { .. }
        | Request::Close
        | Request::Turn => unreachable!(),
    }
}

/// Whether a request calls the member.
fn is_call(request: &Request) -> bool
    ensures yes { result ≡ true → IsCall request.now }
    ensures no { result ≡ false → IsLook request.now }
{
    match request {
        Request::Vote(_)
        | Request::Hold(_)
        | Request::See { .. }
        | Request::Run { .. }
        | Request::Close
        | Request::Turn => true,
        Request::End
        | Request::Ack { .. }
        | Request::Checkpoint { .. }
        | Request::Object { .. }
        | Request::Version { .. }
        | Request::Effects { .. }
        | Request::State => false,
    }
}

/// The answer to a request, without the end of its line. At `Ok` the keeper has the record that is due, if any.
#[tactic(auto, using(crate::proofs::Moving::look_moves, crate::proofs::Moving::look_owes, validator_core::proofs::Settling::keeps_same))]
pub(crate) fn answer<R: Threads + Sync, D: Keeper, S: Sealer>(
    rt: &R,
    alloc: Global,
    validator: &mut Validator,
    keeper: &mut D,
    sealer: &S,
    member: u32,
    request: &Request,
) -> Result<Seq<u8>, SeatFault>
    requires member { validator.old.member ≡ member }
    requires known { validator.old.member < D.width keeper.old }
    requires up { validator.old.up ≡ true }
    requires workers { HasWorkers request.now }
    ensures says { IfOk result (Says (S.accepts sealer.now) validator.old request.now) }
    ensures state { OnOk result (validator.new ≡ moved (S.accepts sealer.now) validator.old request.now) }
    ensures kept { Leaves (D.lists keeper.old) (D.lists keeper.new) validator.old.member (due_for (S.accepts sealer.now) validator.old request.now) result }
    ensures width { D.width keeper.new ≡ D.width keeper.old }
    ensures later { D.failed keeper.old ≤ D.failed keeper.new }
    ensures fault { IsErrOf result faults.KeepFault → Rose (D.failed keeper.old) (D.failed keeper.new) }
{
    if is_call(request) {
        return answer_call(rt, alloc, validator, keeper, sealer, request);
    }
    match answer_look(alloc, validator, sealer, member, request) {
        Ok(text) => Ok(text),
        Err(OutOfMemory) => Err(SeatFault::OutOfMemory),
    }
}
