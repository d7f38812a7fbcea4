//! The change to the next epoch, over the state of a member.

ghost use Rattle.std.specs.Prelude.{◌≡◌, ◌<◌, ◌≤◌, IfOk, IsErrOf, None, false, is_some, nat_le, true};
ghost use Rattle.outside.specs.Causes.{Rose};
ghost use Rattle.journal_core.specs.declared.records.Record.TheVariants as record_as;
ghost use Rattle.protocol_spec.specs.Chain.Words.{first_some, unless_refused};
ghost use Rattle.protocol_spec.specs.Member.Member.{fork_of};
ghost use Rattle.protocol_spec.specs.Member.Calls.{called, due, record_limit, turn_answer, turn_cases, turns};
ghost use Rattle.protocol_spec.specs.Member.Replay.{is_allowed};
ghost use Rattle.protocol_spec.specs.declared.refusals.TurnRefusal.TheVariants as no_turn;
ghost use Rattle.validator_core.specs.Answers.{OnTaken, bare};
ghost use Rattle.validator_core.specs.Calls.{Turns, turn_ended};
ghost use Rattle.validator_core.specs.Seats.{Appended, Becomes, Journaled, has_fallen};
ghost use Rattle.validator_core.specs.Steps.{turning};
ghost use Rattle.validator_core.specs.declared.keeping.JournalFault.TheVariants as unkept;

use crate::keeping::{JournalFault, append};
use crate::state::State;
use digest_core::Digest;
use journal_core::Record;
use outside::Keeper;
use protocol_spec::TurnRefusal;
use std::alloc::Global;
use wire_bcs::{OutOfMemory, Seq};

impl State {
    /// Whether a turn may be asked for. Order of the refusals: `Halted`, `Full`, `NotEnded`, `Waits`. Takes no memory.
    #[tactic(auto, using(crate::proofs::Turned::one_waits, crate::proofs::Turned::none_waits))]
    pub(crate) fn check_turn(&self) -> Result<(), TurnRefusal>
        ensures value { result ≡ unless_refused (first_some (turn_cases self.now.member)) tt }
        ensures room { IfOk result (λ _. nat_le record_limit self.now.member.records ≡ false) }
        ensures calm { IfOk result (λ _. fork_of self.now.member ≡ None) }
        ensures never { IsErrOf result no_turn.KeepFault → ⊥ }
        ensures sober { IsErrOf result no_turn.OutOfMemory → ⊥ }
    {
        if let Some((first, second)) = self.fork() {
            return Err(TurnRefusal::Halted { first, second });
        }
        if self.is_full() {
            return Err(TurnRefusal::Full);
        }
        if !self.has_ended() {
            return Err(TurnRefusal::NotEnded);
        }
        match self.first_undone() {
            Some(tx) => Err(TurnRefusal::Waits { tx }),
            None => Ok(()),
        }
    }

    /// Takes the record of a turn, if the member may turn in this state; else false. If false is answered or memory
    /// is refused the state is not to be used.
    #[tactic(auto, unfolding(protocol_spec::specs::Member::Replay::is_allowed), using(crate::proofs::Turned::turn_allowed, crate::proofs::Turned::turn_not_allowed))]
    pub(crate) fn take_turn_back(&mut self) -> Result<bool, OutOfMemory>
        ensures taken { IfOk result (λ taken. taken ≡ is_allowed bare self.old.member record_as.Turn) }
        ensures state { OnTaken result (self.new.member ≡ turning self.old.member) }
        ensures limit { self.new.writers ≡ self.old.writers }
    {
        if self.check_turn().is_err() {
            return Ok(false);
        }
        self.take_turn()?;
        Ok(true)
    }
}

/// Appends the record of a turn.
#[tactic(auto, unfolding(journal_core::specs::Records::journal_record))]
fn keep_turn<D: Keeper>(alloc: Global, keeper: &mut D, member: u32) -> Result<(), JournalFault>
    requires known { member < D.width keeper.old }
    ensures kept { Appended (D.lists keeper.old) (D.lists keeper.new) member record_as.Turn result }
    ensures width { D.width keeper.new ≡ D.width keeper.old }
    ensures later { D.failed keeper.old ≤ D.failed keeper.new }
    ensures fault { IsErrOf result unkept.KeepFault → Rose (D.failed keeper.old) (D.failed keeper.new) }
{
    append(alloc, keeper, member, &Record::Turn)
}

/// Turns a member that is up to the next epoch: the record is appended before the call answers.
#[tactic(auto, using(crate::proofs::Turned::turn_refused, crate::proofs::Turned::turn_stays, crate::proofs::Turned::turn_goes, crate::proofs::Turned::turn_called, crate::proofs::Turned::turn_owed))]
pub(crate) fn turn<D: Keeper>(
    state: &mut State,
    keeper: &mut D,
    member: u32,
) -> Result<Seq<Digest>, TurnRefusal>
    requires known { member < D.width keeper.old }
    ensures answer { Turns (turn_answer bare state.old.member) result }
    ensures state { Becomes (called bare state.old.member turns) state.new.member (turn_ended result) }
    ensures kept { Journaled (D.lists keeper.old) (D.lists keeper.new) member (due bare state.old.member turns) (turn_ended result) }
    ensures width { D.width keeper.new ≡ D.width keeper.old }
    ensures later { D.failed keeper.old ≤ D.failed keeper.new }
    ensures fault { IsErrOf result no_turn.KeepFault → Rose (D.failed keeper.old) (D.failed keeper.new) }
    ensures owed { IsErrOf result no_turn.KeepFault → is_some (due bare state.old.member turns) ≡ true }
    ensures able { IsErrOf result no_turn.OutOfMemory → fork_of state.old.member ≡ None }
    ensures limit { state.new.writers ≡ state.old.writers }
{
    match state.check_turn() {
        Ok(()) => {}
        Err(refusal) => return Err(refusal),
    }
    keep_turn(state.allocator(), keeper, member)?;
    let Ok(reverted) = state.take_turn() else {
        return Err(TurnRefusal::OutOfMemory);
    };
    Ok(reverted)
}

/// Whether the member is down after this answer.
pub(crate) fn turn_is_fatal(answer: &Result<Seq<Digest>, TurnRefusal>) -> bool
    ensures { result ≡ has_fallen (turn_ended answer.now) }
{
    match answer {
        Err(TurnRefusal::KeepFault | TurnRefusal::OutOfMemory) => true,
        Ok(_) => false,
        Err(
            TurnRefusal::Down
            | TurnRefusal::Halted { .. }
            | TurnRefusal::Full
            | TurnRefusal::NotEnded
            | TurnRefusal::Waits { .. },
        ) => false,
    }
}
