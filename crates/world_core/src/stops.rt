//! Armed stops: a request to a member that may be cut off at the append of its record.

ghost use Rattle.std.specs.Prelude.{◌≡◌, ◌<◌, ◌≤◌, IfOk, IsErrOf, None, OnOk, is_some, length, slice_get, true};
ghost use Rattle.outside.specs.Causes.{Rose};
ghost use Rattle.outside.specs.Lists.{journal_of};
ghost use Rattle.protocol_spec.specs.Member.Calls.{due};
ghost use Rattle.world_spec.specs.World.{reached_up};
ghost use Rattle.world_spec.specs.Seats.{rules_of_seat};
ghost use Rattle.world_spec.specs.Posts.{record_left, seat_behind};
ghost use Rattle.world_core.specs.declared.reply.SeatFault.TheVariants as faults;
ghost use Rattle.world_core.specs.Replies.{AddsBytes, KeptWhere, Leaves, Met, spelled_due, stop_at};

use crate::reply::SeatFault;
use crate::requests::Asks;
use outside::{Keeper, MemKeeper, OutFault};
use quorum_core::Sealer;
use std::alloc::Global;
use std::thread::Threads;
use validator_core::Validator;
use wire_bcs::{OutOfMemory, Seq};

/// The first record of a member; none if it has none. Any failure counts as out of memory.
fn first_record(paper: &mut MemKeeper, member: u32) -> Result<Option<Seq<u8>>, OutOfMemory>
    requires known { member < length paper.old.lists }
    ensures { IfOk result (λ first. first ≡ slice_get (journal_of paper.old.lists member) 0) }
{
    if paper.count(member) == 0 {
        return Ok(None);
    }
    match paper.read(member, 0) {
        Ok(record) => Ok(Some(record)),
        Err(_) => Err(OutOfMemory),
    }
}

/// Asks a member that is up, over a keeper in memory that is thrown away: the answer, and the encoding of the record
/// that the call would leave, if any.
#[tactic(auto, using(crate::proofs::Replying::paper_due))]
fn ask_on_paper<R: Threads + Sync, S: Sealer, Q: Asks>(
    rt: &R,
    alloc: Global,
    validator: &mut Validator,
    sealer: &S,
    member: u32,
    request: &Q,
) -> Result<(Q::Answer, Option<Seq<u8>>), OutOfMemory>
    requires few { member < 64 }
    requires number { validator.old.member ≡ member }
    requires up { validator.old.up ≡ true }
    ensures answer { IfOk result (λ given. Q.says request.now (rules_of_seat validator.old (S.accepts sealer.now)) (S.accepts sealer.now) validator.old.member validator.old.state given.0) }
    ensures state { OnOk result (validator.new ≡ seat_behind (rules_of_seat validator.old (S.accepts sealer.now)) (Q.call request.now) validator.old) }
    ensures due { IfOk result (λ given. given.1 ≡ spelled_due (due (rules_of_seat validator.old (S.accepts sealer.now)) validator.old.state (Q.call request.now))) }
{
    let mut paper = MemKeeper::new(alloc, member + 1, [].as_slice())?;
    let answer = match request.ask(rt, validator, &mut paper, sealer) {
        Ok(answer) => answer,
        Err(_) => return Err(OutOfMemory),
    };
    let due = first_record(&mut paper, member)?;
    Ok((answer, due))
}

/// Appends the bytes of a record. Bytes of length 2^31 or more, which no record has, count as running out of memory.
fn append<D: Keeper>(keeper: &mut D, member: u32, bytes: &[u8]) -> Result<(), SeatFault>
    requires known { member < D.width keeper.old }
    ensures kept { AddsBytes (D.lists keeper.old) (D.lists keeper.new) member bytes.now result }
    ensures width { D.width keeper.new ≡ D.width keeper.old }
    ensures later { D.failed keeper.old ≤ D.failed keeper.new }
    ensures fault { IsErrOf result faults.KeepFault → Rose (D.failed keeper.old) (D.failed keeper.new) }
{
    if bytes.len() >= 1 << 31 {
        return Err(SeatFault::OutOfMemory);
    }
    match keeper.append(member, bytes) {
        Ok(()) => Ok(()),
        Err(OutFault::Failed) => Err(SeatFault::KeepFault),
        Err(OutFault::OutOfMemory) => Err(SeatFault::OutOfMemory),
    }
}

/// Appends the bytes of a record if a stop keeps it.
fn stop<D: Keeper>(keeper: &mut D, member: u32, kept: bool, bytes: &[u8]) -> Result<(), SeatFault>
    requires known { member < D.width keeper.old }
    ensures kept { KeptWhere kept (D.lists keeper.old) (D.lists keeper.new) member bytes.now result }
    ensures width { D.width keeper.new ≡ D.width keeper.old }
    ensures later { D.failed keeper.old ≤ D.failed keeper.new }
    ensures fault { IsErrOf result faults.KeepFault → Rose (D.failed keeper.old) (D.failed keeper.new) }
    ensures owed { IsErrOf result faults.KeepFault → kept ≡ true }
{
    if !kept {
        return Ok(());
    }
    append(keeper, member, bytes)
}

/// Asks a member that is up and has an armed stop, which keeps the record or loses it: its answer; none if
/// it stops.
#[tactic(auto, using(crate::proofs::Replying::met_idle, crate::proofs::Replying::met_stop, crate::proofs::Replying::left_idle, crate::proofs::Replying::left_stop, crate::proofs::Replying::left_same, crate::proofs::Stopping::stop_owed))]
pub(crate) fn ask_armed<R: Threads + Sync, D: Keeper, S: Sealer, Q: Asks>(
    rt: &R,
    alloc: Global,
    validator: &mut Validator,
    keeper: &mut D,
    sealer: &S,
    member: u32,
    kept: bool,
    request: &Q,
) -> Result<Option<Q::Answer>, SeatFault>
    requires known { member < D.width keeper.old }
    requires few { member < 64 }
    requires number { validator.old.member ≡ member }
    requires up { validator.old.up ≡ true }
    ensures answer { IfOk result (Met (Q.says request.now (rules_of_seat validator.old (S.accepts sealer.now)) (S.accepts sealer.now) validator.old.member) (reached_up validator.old.state (Some kept) (due (rules_of_seat validator.old (S.accepts sealer.now)) validator.old.state (Q.call request.now)))) }
    ensures state { OnOk result (validator.new ≡ seat_behind (rules_of_seat validator.old (S.accepts sealer.now)) (Q.call request.now) validator.old) }
    ensures kept { Leaves (D.lists keeper.old) (D.lists keeper.new) member (record_left (reached_up validator.old.state (Some kept) (due (rules_of_seat validator.old (S.accepts sealer.now)) validator.old.state (Q.call request.now)))) result }
    ensures width { D.width keeper.new ≡ D.width keeper.old }
    ensures later { D.failed keeper.old ≤ D.failed keeper.new }
    ensures fault { IsErrOf result faults.KeepFault → Rose (D.failed keeper.old) (D.failed keeper.new) }
    ensures owed { IsErrOf result faults.KeepFault → is_some (record_left (reached_up validator.old.state (Some kept) (due (rules_of_seat validator.old (S.accepts sealer.now)) validator.old.state (Q.call request.now)))) ≡ true }
{
    let (answer, due) = match ask_on_paper(rt, alloc, validator, sealer, member, request) {
        Ok(given) => given,
        Err(OutOfMemory) => return Err(SeatFault::OutOfMemory),
    };
    let Some(bytes) = due else {
        return Ok(Some(answer));
    };
    match stop(keeper, member, kept, bytes.as_slice()) {
        Ok(()) => Ok(None),
        Err(fault) => Err(fault),
    }
}

/// The armed stop that may cut a call of the member. A member that met a fork keeps no record, so no stop cuts its
/// calls. Takes no memory.
#[tactic(auto, using(protocol_spec::proofs::Truth::some_mapped))]
pub(crate) fn stop_of(validator: &Validator, armed: Option<bool>) -> Option<bool>
    ensures { result ≡ stop_at validator.now.state armed }
{
    if validator.fork().is_some() {
        return None;
    }
    armed
}
