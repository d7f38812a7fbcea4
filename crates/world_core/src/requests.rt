//! Requests to a member that is up: votes, certificates, and runs.

ghost use Rattle.std.specs.Prelude.{◌≡◌, ◌<◌, ◌≤◌, ℕ, IfOk, IsErrOf, None, OnErr, OnOk, is_some, length, true};
ghost use Rattle.std.specs.Thread.{IsSync};
ghost use Rattle.outside.specs.Causes.{Rose};
ghost use Rattle.protocol_spec.specs.Chain.Certificates.{Rules};
ghost use Rattle.protocol_spec.specs.Member.Member.{Member, fork_of};
ghost use Rattle.protocol_spec.specs.Member.Calls.{Call, due, holds, runs, votes};
ghost use Rattle.world_spec.specs.Seats.{bare_rules, rules_of_seat};
ghost use Rattle.world_spec.specs.Posts.{seat_behind};
ghost use Rattle.validator_core.specs.Calls.{origins_in};
ghost use Rattle.validator_core.specs.Seats.{Fell};
ghost use Rattle.world_core.specs.declared.reply.SeatFault.TheVariants as faults;
ghost use Rattle.world_core.specs.Replies.{Accepting, Leaves, SaysHold, SaysRun, SaysVote, hold_fault, run_fault, vote_fault};

use crate::reply::SeatFault;
use dag_pool::{Gate, OpenGate};
use outside::Keeper;
use quorum_core::Sealer;
use std::thread::Threads;
use validator_core::{HoldRefusal, Ran, RunRefusal, Validator, VoteRefusal, Voted};

/// A call as a value, so that one piece of code (stops, faults, records) serves all kinds of calls.
pub(crate) trait Asks {
    type Answer: Drop;

    /// The call of the definition that the request stands for.
    ghost call: { Self → Call };

    /// What a member of this number answers, under these rules and accepted seals, in the state before the call.
    ghost says: { Self → Rules → Accepting → ℕ → Member → Self.Answer → Type 0 };

    /// Asks a member that is up, which may start threads.
    fn ask<R: Threads + Sync, D: Keeper, S: Sealer>(
        &self,
        rt: &R,
        validator: &mut Validator,
        keeper: &mut D,
        sealer: &S,
    ) -> Result<Self::Answer, SeatFault>
        requires known { validator.old.member < D.width keeper.old }
        requires up { validator.old.up ≡ true }
        requires sync { IsSync R.row }
        ensures answer { IfOk result (says self.now (rules_of_seat validator.old (S.accepts sealer.now)) (S.accepts sealer.now) validator.old.member validator.old.state) }
        ensures state { OnOk result (validator.new ≡ seat_behind (rules_of_seat validator.old (S.accepts sealer.now)) (call self.now) validator.old) }
        ensures kept { Leaves (D.lists keeper.old) (D.lists keeper.new) validator.old.member (due (rules_of_seat validator.old (S.accepts sealer.now)) validator.old.state (call self.now)) result }
        ensures width { D.width keeper.new ≡ D.width keeper.old }
        ensures later { D.failed keeper.old ≤ D.failed keeper.new }
        ensures fault { IsErrOf result faults.KeepFault → Rose (D.failed keeper.old) (D.failed keeper.new) }
        ensures owed { IsErrOf result faults.KeepFault → is_some (due (rules_of_seat validator.old (S.accepts sealer.now)) validator.old.state (call self.now)) ≡ true }
        ensures able { IsErrOf result faults.OutOfMemory → fork_of validator.old.state ≡ None }
        ensures fell { OnErr result (Fell validator.old validator.new) };
}

/// A request for the vote for the transaction that the bytes encode.
#[derive(Clone, Copy)]
pub(crate) struct VoteRequest<'a> {
    pub(crate) bytes: &'a [u8],
}

/// A request to hold the certificate that the bytes encode.
#[derive(Clone, Copy)]
pub(crate) struct HoldRequest<'a> {
    pub(crate) bytes: &'a [u8],
}

impl Asks for VoteRequest<'_> {
    type Answer = Result<Voted, VoteRefusal>;

    ghost call = { λ q. votes q.bytes.now };

    ghost says = { λ q r accepts m before given. SaysVote r accepts m q.bytes.now before given };

    fn ask<R: Threads + Sync, D: Keeper, S: Sealer>(
        &self,
        _rt: &R,
        validator: &mut Validator,
        keeper: &mut D,
        sealer: &S,
    ) -> Result<Result<Voted, VoteRefusal>, SeatFault> {
        ask_vote(validator, keeper, sealer, self.bytes)
    }
}

impl Asks for HoldRequest<'_> {
    type Answer = Result<bool, HoldRefusal>;

    ghost call = { λ q. holds q.bytes.now };

    ghost says = { λ q r accepts m before given. SaysHold r q.bytes.now before given };

    fn ask<R: Threads + Sync, D: Keeper, S: Sealer>(
        &self,
        _rt: &R,
        validator: &mut Validator,
        keeper: &mut D,
        sealer: &S,
    ) -> Result<Result<bool, HoldRefusal>, SeatFault> {
        ask_hold(validator, keeper, sealer, self.bytes)
    }
}

/// The fault that kept a call from its answer; none if it was answered.
fn vote_fault(answer: &Result<Voted, VoteRefusal>) -> Option<SeatFault>
    ensures { result ≡ vote_fault answer.now }
{
    match answer {
        Err(VoteRefusal::KeepFault) => Some(SeatFault::KeepFault),
        Err(VoteRefusal::OutOfMemory) => Some(SeatFault::OutOfMemory),
        Ok(_) => None,
        Err(
            VoteRefusal::Down
            | VoteRefusal::Halted { .. }
            | VoteRefusal::Full
            | VoteRefusal::Malformed(_)
            | VoteRefusal::WrongEpoch { .. }
            | VoteRefusal::Closed
            | VoteRefusal::Invalid(_)
            | VoteRefusal::Unsealed
            | VoteRefusal::Absent(_)
            | VoteRefusal::Consumed { .. }
            | VoteRefusal::WrongDigest(_)
            | VoteRefusal::WrongOwner(_)
            | VoteRefusal::WrongKind(_)
            | VoteRefusal::PoorGas { .. }
            | VoteRefusal::Locked { .. },
        ) => None,
    }
}

/// Asks a member that is up for its vote. An error says what kept it from an answer: a fault of the keeper, which comes
/// only if a record is due, or running out of memory, which comes only if the member met no fork. After an error the
/// member is down.
pub fn ask_vote<D: Keeper, S: Sealer>(
    validator: &mut Validator,
    keeper: &mut D,
    sealer: &S,
    bytes: &[u8],
) -> Result<Result<Voted, VoteRefusal>, SeatFault>
    requires known { validator.old.member < D.width keeper.old }
    requires up { validator.old.up ≡ true }
    ensures answer { IfOk result (SaysVote (rules_of_seat validator.old (S.accepts sealer.now)) (S.accepts sealer.now) validator.old.member bytes.now validator.old.state) }
    ensures few { IfOk result (λ given. IfOk given (λ v. length (origins_in v.sealed.statement) ≤ 257)) }
    ensures state { OnOk result (validator.new ≡ seat_behind (rules_of_seat validator.old (S.accepts sealer.now)) (votes bytes.now) validator.old) }
    ensures kept { Leaves (D.lists keeper.old) (D.lists keeper.new) validator.old.member (due (rules_of_seat validator.old (S.accepts sealer.now)) validator.old.state (votes bytes.now)) result }
    ensures width { D.width keeper.new ≡ D.width keeper.old }
    ensures later { D.failed keeper.old ≤ D.failed keeper.new }
    ensures fault { IsErrOf result faults.KeepFault → Rose (D.failed keeper.old) (D.failed keeper.new) }
    ensures owed { IsErrOf result faults.KeepFault → is_some (due (rules_of_seat validator.old (S.accepts sealer.now)) validator.old.state (votes bytes.now)) ≡ true }
    ensures able { IsErrOf result faults.OutOfMemory → fork_of validator.old.state ≡ None }
    ensures fell { OnErr result (Fell validator.old validator.new) }
{
    let answer = validator.vote(keeper, sealer, bytes);
    match vote_fault(&answer) {
        Some(fault) => Err(fault),
        None => Ok(answer),
    }
}

/// The fault that kept a call from its answer; none if it was answered.
fn hold_fault(answer: &Result<bool, HoldRefusal>) -> Option<SeatFault>
    ensures { result ≡ hold_fault answer.now }
{
    match answer {
        Err(HoldRefusal::KeepFault) => Some(SeatFault::KeepFault),
        Err(HoldRefusal::OutOfMemory) => Some(SeatFault::OutOfMemory),
        Ok(_) => None,
        Err(
            HoldRefusal::Down
            | HoldRefusal::Halted { .. }
            | HoldRefusal::Full
            | HoldRefusal::Malformed(_)
            | HoldRefusal::WrongEpoch { .. }
            | HoldRefusal::Closed
            | HoldRefusal::Cert(_)
            | HoldRefusal::Fork { .. },
        ) => None,
    }
}

/// Hands a certificate to a member that is up. Errors are those of [`ask_vote`].
pub fn ask_hold<D: Keeper, S: Sealer>(
    validator: &mut Validator,
    keeper: &mut D,
    sealer: &S,
    bytes: &[u8],
) -> Result<Result<bool, HoldRefusal>, SeatFault>
    requires known { validator.old.member < D.width keeper.old }
    requires up { validator.old.up ≡ true }
    ensures answer { IfOk result (SaysHold (rules_of_seat validator.old (S.accepts sealer.now)) bytes.now validator.old.state) }
    ensures state { OnOk result (validator.new ≡ seat_behind (rules_of_seat validator.old (S.accepts sealer.now)) (holds bytes.now) validator.old) }
    ensures kept { Leaves (D.lists keeper.old) (D.lists keeper.new) validator.old.member (due (rules_of_seat validator.old (S.accepts sealer.now)) validator.old.state (holds bytes.now)) result }
    ensures width { D.width keeper.new ≡ D.width keeper.old }
    ensures later { D.failed keeper.old ≤ D.failed keeper.new }
    ensures fault { IsErrOf result faults.KeepFault → Rose (D.failed keeper.old) (D.failed keeper.new) }
    ensures owed { IsErrOf result faults.KeepFault → is_some (due (rules_of_seat validator.old (S.accepts sealer.now)) validator.old.state (holds bytes.now)) ≡ true }
    ensures able { IsErrOf result faults.OutOfMemory → fork_of validator.old.state ≡ None }
    ensures fell { OnErr result (Fell validator.old validator.new) }
{
    let answer = validator.hold(keeper, sealer, bytes);
    match hold_fault(&answer) {
        Some(fault) => Err(fault),
        None => Ok(answer),
    }
}

/// A request to run what the member holds, by 1 to 16 workers.
#[derive(Drop)]
pub(crate) struct RunRequest {
    pub(crate) workers: u32,
    pub(crate) gate: OpenGate,
    ghost some: { (0 < workers) × (workers ≤ 16) },
}

#[tactic(auto, using(world_spec::proofs::RulesAside::run_answer_alike, world_spec::proofs::RulesAside::run_due_alike, world_spec::proofs::RulesAside::run_called_alike))]
impl Asks for RunRequest {
    type Answer = Result<Ran, RunRefusal>;

    ghost call = { λ _. runs };

    ghost says = { λ _ r _ _ before given. SaysRun r before given };

    fn ask<R: Threads + Sync, D: Keeper, S: Sealer>(
        &self,
        rt: &R,
        validator: &mut Validator,
        keeper: &mut D,
        _sealer: &S,
    ) -> Result<Result<Ran, RunRefusal>, SeatFault> {
        ask_run(rt, validator, keeper, self.workers, &self.gate)
    }
}

/// The fault that kept a call from its answer; none if it was answered.
fn run_fault(answer: &Result<Ran, RunRefusal>) -> Option<SeatFault>
    ensures { result ≡ run_fault answer.now }
{
    match answer {
        Err(RunRefusal::KeepFault) => Some(SeatFault::KeepFault),
        Err(RunRefusal::OutOfMemory) => Some(SeatFault::OutOfMemory),
        Ok(_) => None,
        Err(RunRefusal::Down | RunRefusal::Halted { .. } | RunRefusal::Full) => None,
    }
}

/// Lets a member that is up run what it holds, by 1 to 16 workers. Errors are those of [`ask_vote`].
pub fn ask_run<R: Threads + Sync, D: Keeper, G: Gate + Sync>(
    rt: &R,
    validator: &mut Validator,
    keeper: &mut D,
    workers: u32,
    gate: &G,
) -> Result<Result<Ran, RunRefusal>, SeatFault>
    requires known { validator.old.member < D.width keeper.old }
    requires workers { (0 < workers) × (workers ≤ 16) }
    requires up { validator.old.up ≡ true }
    ensures answer { IfOk result (SaysRun (bare_rules validator.old) validator.old.state) }
    ensures state { OnOk result (validator.new ≡ seat_behind (bare_rules validator.old) runs validator.old) }
    ensures kept { Leaves (D.lists keeper.old) (D.lists keeper.new) validator.old.member (due (bare_rules validator.old) validator.old.state runs) result }
    ensures width { D.width keeper.new ≡ D.width keeper.old }
    ensures later { D.failed keeper.old ≤ D.failed keeper.new }
    ensures fault { IsErrOf result faults.KeepFault → Rose (D.failed keeper.old) (D.failed keeper.new) }
    ensures owed { IsErrOf result faults.KeepFault → is_some (due (bare_rules validator.old) validator.old.state runs) ≡ true }
    ensures able { IsErrOf result faults.OutOfMemory → fork_of validator.old.state ≡ None }
    ensures fell { OnErr result (Fell validator.old validator.new) }
{
    let answer = validator.run(rt, keeper, workers, gate);
    match run_fault(&answer) {
        Some(fault) => Err(fault),
        None => Ok(answer),
    }
}
