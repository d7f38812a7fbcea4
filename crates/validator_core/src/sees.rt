//! Entries of the consensus sequence, over the state of a member.

ghost use Rattle.std.specs.Prelude.{◌≡◌, ◌<◌, ◌≤◌, IfOk, IsErrOf, None, false, is_some, nat_le, true};
ghost use Rattle.outside.specs.Causes.{Rose};
ghost use Rattle.protocol_spec.specs.Chain.Words.{first_some, unless_refused};
ghost use Rattle.protocol_spec.specs.Member.Member.{fork_of};
ghost use Rattle.protocol_spec.specs.Member.Calls.{called, due, record_limit, see_answer, see_cases, sees};
ghost use Rattle.protocol_spec.specs.declared.refusals.SeeRefusal.TheVariants as no_see;
ghost use Rattle.world_spec.specs.Terms.{rules_for};
ghost use Rattle.validator_core.specs.Calls.{Sees, see_ended};
ghost use Rattle.validator_core.specs.Limits.{terms_at};
ghost use Rattle.validator_core.specs.Seats.{Becomes, Journaled, has_fallen};

use crate::keeping::append_see;
use crate::state::State;
use outside::Keeper;
use protocol_spec::{SeeRefusal, Seen};
use quorum_core::{Committee, Sealer};
use vote_rules::Fork;

impl State {
    /// Whether an entry of this number may be handed in. Order of the refusals: `Halted`, `Full`, `Over`, `Gap`.
    /// Takes no memory.
    pub(crate) fn check_see(&self, number: u64) -> Result<(), SeeRefusal>
        ensures value { result ≡ unless_refused (first_some (see_cases self.now.member number)) tt }
        ensures room { IfOk result (λ _. nat_le record_limit self.now.member.records ≡ false) }
        ensures unended { IfOk result (λ _. self.now.member.sequence.ended ≡ false) }
        ensures calm { IfOk result (λ _. fork_of self.now.member ≡ None) }
        ensures never { IsErrOf result no_see.KeepFault → ⊥ }
        ensures sober { IsErrOf result no_see.OutOfMemory → ⊥ }
    {
        if let Some((first, second)) = self.fork() {
            return Err(SeeRefusal::Halted { first, second });
        }
        if self.is_full() {
            return Err(SeeRefusal::Full);
        }
        if self.has_ended() {
            return Err(SeeRefusal::Over);
        }
        let want = self.seen();
        if number != want {
            return Err(SeeRefusal::Gap { had: number, want });
        }
        Ok(())
    }
}

/// Hands the next entry of its sequence to a member that is up: the record is appended before the call answers.
#[tactic(auto, using(crate::proofs::Seeing::see_owed))]
pub(crate) fn see<D: Keeper, S: Sealer>(
    state: &mut State,
    keeper: &mut D,
    sealer: &S,
    committee: &Committee,
    member: u32,
    number: u64,
    bytes: &[u8],
) -> Result<Seen, SeeRefusal>
    requires known { member < D.width keeper.old }
    ensures answer { Sees (see_answer (rules_for (terms_at state.old committee.now) (S.accepts sealer.now)) state.old.member number bytes.now) result }
    ensures state { Becomes (called (rules_for (terms_at state.old committee.now) (S.accepts sealer.now)) state.old.member (sees number bytes.now)) state.new.member (see_ended result) }
    ensures kept { Journaled (D.lists keeper.old) (D.lists keeper.new) member (due (rules_for (terms_at state.old committee.now) (S.accepts sealer.now)) state.old.member (sees number bytes.now)) (see_ended result) }
    ensures limit { state.new.writers ≡ state.old.writers }
    ensures width { D.width keeper.new ≡ D.width keeper.old }
    ensures later { D.failed keeper.old ≤ D.failed keeper.new }
    ensures fault { IsErrOf result no_see.KeepFault → Rose (D.failed keeper.old) (D.failed keeper.new) }
    ensures owed { IsErrOf result no_see.KeepFault → is_some (due (rules_for (terms_at state.old committee.now) (S.accepts sealer.now)) state.old.member (sees number bytes.now)) ≡ true }
    ensures able { IsErrOf result no_see.OutOfMemory → fork_of state.old.member ≡ None }
{
    match state.check_see(number) {
        Ok(()) => {}
        Err(refusal) => return Err(refusal),
    }
    let Ok(arrival) = state.read_entry(committee, sealer, bytes) else {
        return Err(SeeRefusal::OutOfMemory);
    };
    append_see(state.allocator(), keeper, member, bytes)?;
    let Ok(seen) = state.take_entry(committee, arrival) else {
        return Err(SeeRefusal::OutOfMemory);
    };
    match state.first_fork() {
        Some(Fork { key, first, second }) => Err(SeeRefusal::Fork { key, first, second }),
        None => Ok(seen),
    }
}

/// Whether the member is down after this answer.
pub(crate) fn see_is_fatal(answer: &Result<Seen, SeeRefusal>) -> bool
    ensures { result ≡ has_fallen (see_ended answer.now) }
{
    match answer {
        Err(SeeRefusal::KeepFault | SeeRefusal::OutOfMemory) => true,
        Ok(_) => false,
        Err(
            SeeRefusal::Down
            | SeeRefusal::Halted { .. }
            | SeeRefusal::Full
            | SeeRefusal::Over
            | SeeRefusal::Gap { .. }
            | SeeRefusal::Fork { .. },
        ) => false,
    }
}
