//! A seat: one member of a committee, up or down, with its armed stop.

ghost use Rattle.std.specs.Prelude.{◌≡◌, ◌<◌, ◌≤◌, IfOk, IsErrOf, None, Some, if◌then◌else◌, is_some, option_and_then, option_copied, true};
ghost use Rattle.outside.specs.Causes.{Rose};
ghost use Rattle.world_spec.specs.Seats.{Seated};
ghost use Rattle.world_spec.specs.Terms.{rules_for};
ghost use Rattle.world_spec.specs.Step.{executed_digest};
ghost use Rattle.world_spec.specs.Posts.{arming, reached_post, record_left};
ghost use Rattle.world_core.specs.Steps.{held_by};
ghost use Rattle.world_core.specs.declared.reply.SeatFault.TheVariants as faults;
ghost use Rattle.world_core.specs.Crews.{IsAble, IsPlaced, PostAfter, fallen, honest_at};
ghost use Rattle.world_core.specs.Replies.{Leaves, Replies};

use crate::reply::{Reply, SeatFault};
use crate::requests::Asks;
use crate::stops::{ask_armed, stop_of};
use crate::terms::Terms;
use chain_types::ObjectKey;
use digest_core::Digest;
use outside::Keeper;
use quorum_core::Sealer;
use std::alloc::Global;
use std::marker::Model;
use std::thread::Threads;
use validator_core::Validator;

/// A seat: whether its member is honest, the member if it is up, and an armed stop, which keeps the next record or
/// loses it. Contracts see the definition's post.
#[derive(Drop)]
pub(crate) struct Seat {
    pub(crate) honest: bool,
    pub(crate) validator: Option<Validator>,
    pub(crate) armed: Option<bool>,
}

impl Model for Seat {
    ghost use Rattle.world_spec.specs.Posts.{Post};

    ghost Value = { Post };

    ghost view = { λ s. record { honest = s.honest; standing = s.validator; armed = s.armed } };
}

impl Seat {
    /// Arms a stop. Takes no memory.
    pub(crate) fn arm(&mut self, kept: bool)
        ensures { self.new ≡ arming kept self.old }
    {
        self.armed = Some(kept);
    }

    /// The member starts, and no stop is armed. Takes no memory.
    pub(crate) fn start(&mut self, validator: Validator)
        ensures { self.new ≡ record { honest = self.old.honest; standing = Some validator; armed = None } }
    {
        // Dropped by name: if the member were dropped in place, the drop of all its tables would be proved here.
        drop(self.validator.replace(validator));
        self.armed = None;
    }

    /// Takes the member down, and disarms its stop. Takes no memory.
    fn stop(&mut self)
        ensures { self.new ≡ record self.old { standing = None; armed = None } }
    {
        drop(self.validator.take());
        self.armed = None;
    }

    /// Takes the member down; an armed stop stays armed. Takes no memory.
    fn fall(&mut self)
        ensures { self.new ≡ fallen self.old }
    {
        drop(self.validator.take());
    }

    /// Whether the member is honest. Takes no memory.
    pub(crate) fn is_honest(&self) -> bool
        ensures { result ≡ self.now.honest }
    {
        self.honest
    }

    /// The member, if it is up. Takes no memory.
    pub(crate) fn standing(&self) -> Option<&Validator>
        ensures { option_copied result ≡ self.now.standing }
    {
        self.validator.as_ref()
    }

    /// The member, if it is honest and up. Takes no memory.
    pub(crate) fn honest(&self) -> Option<&Validator>
        ensures { option_copied result ≡ honest_at (Some self.now) }
    {
        if self.honest {
            self.validator.as_ref()
        } else {
            None
        }
    }

    /// The digest that the member has of a version, if it is honest, up and holds it. Takes no memory.
    pub(crate) fn held_digest(&self, key: &ObjectKey) -> Option<Digest>
        ensures { result ≡ (if self.now.honest then held_by key.now self.now.standing else None) }
    {
        if !self.honest {
            return None;
        }
        match &self.validator {
            Some(validator) => validator.held_digest(key),
            None => None,
        }
    }

    /// The digest of the effects that the member has of a transaction, if it is honest, up and executed it in its
    /// present epoch. Takes no memory.
    pub(crate) fn executed_digest(&self, tx: &Digest) -> Option<Digest>
        ensures { result ≡ (if self.now.honest then option_and_then (λ (seat : Seated). executed_digest tx.now seat.state) self.now.standing else None) }
    {
        if !self.honest {
            return None;
        }
        match &self.validator {
            Some(validator) => validator.executed_digest(tx),
            None => None,
        }
    }

    /// Asks the member, which has this number in its committee: `Down` if it is down, `Stopped` if it stops at an armed
    /// stop, else its answer. `KeepFault` comes only if the call leaves a record, running out of memory only if the
    /// member is up and met no fork; after either it is down.
    #[tactic(auto, using(crate::proofs::Stopping::reached_idle, crate::proofs::Stopping::stop_is, crate::proofs::Stopping::stop_free))]
    pub(crate) fn call<R: Threads + Sync, D: Keeper, S: Sealer, Q: Asks>(
        &mut self,
        rt: &R,
        alloc: Global,
        keeper: &mut D,
        sealer: &S,
        _terms: &Terms,
        member: u32,
        request: &Q,
    ) -> Result<Reply<Q::Answer>, SeatFault>
        requires known { member < D.width keeper.old }
        requires few { member < 64 }
        requires placed { IsPlaced _terms.now member self.old.standing }
        ensures answer { IfOk result (Replies (Q.says request.now (rules_for _terms.now (S.accepts sealer.now)) (S.accepts sealer.now) member) (reached_post (rules_for _terms.now (S.accepts sealer.now)) (Q.call request.now) (Some self.old))) }
        ensures post { PostAfter (rules_for _terms.now (S.accepts sealer.now)) (Q.call request.now) self.old self.new result }
        ensures kept { Leaves (D.lists keeper.old) (D.lists keeper.new) member (record_left (reached_post (rules_for _terms.now (S.accepts sealer.now)) (Q.call request.now) (Some self.old))) result }
        ensures width { D.width keeper.new ≡ D.width keeper.old }
        ensures later { D.failed keeper.old ≤ D.failed keeper.new }
        ensures fault { IsErrOf result faults.KeepFault → Rose (D.failed keeper.old) (D.failed keeper.new) }
        ensures owed { IsErrOf result faults.KeepFault → is_some (record_left (reached_post (rules_for _terms.now (S.accepts sealer.now)) (Q.call request.now) (Some self.old))) ≡ true }
        ensures able { IsErrOf result faults.OutOfMemory → IsAble self.old.standing }
    {
        let Some(validator) = &mut self.validator else {
            return Ok(Reply::Down);
        };
        let Some(kept) = stop_of(validator, self.armed) else {
            return match request.ask(rt, validator, keeper, sealer) {
                Ok(answer) => Ok(Reply::Answered(answer)),
                Err(fault) => {
                    self.fall();
                    Err(fault)
                }
            };
        };
        match ask_armed(rt, alloc, validator, keeper, sealer, member, kept, request) {
            Ok(Some(answer)) => Ok(Reply::Answered(answer)),
            Ok(None) => {
                self.stop();
                Ok(Reply::Stopped)
            }
            Err(fault) => {
                self.fall();
                Err(fault)
            }
        }
    }
}
