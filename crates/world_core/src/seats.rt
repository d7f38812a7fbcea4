//! The members of a committee.

ghost use Rattle.std.specs.Prelude.{◌≡◌, ◌<◌, ◌≤◌, ◌^◌, ℕ, [], IfOk, IsErrOf, OnErr, Some, is_ok, option_copied, option_map, length, slice_get, true};
ghost use Rattle.outside.specs.Causes.{Rose};
ghost use Rattle.outside.specs.Lists.{KeepsJournals};
ghost use Rattle.world_spec.specs.Terms.{rules_for};
ghost use Rattle.protocol_spec.specs.Member.Calls.{ack_answer, end_answer};
ghost use Rattle.world_spec.specs.Starts.{AreApart, started};
ghost use Rattle.world_spec.specs.Posts.{armed_at, new_posts};
ghost use Rattle.world_spec.specs.SceneSteps.{seat_state, standing_at};
ghost use Rattle.world_core.specs.Steps.{held_in, says_in};
ghost use Rattle.world_core.specs.declared.reply.SeatFault.TheVariants as faults;
ghost use Rattle.world_core.specs.declared.reply.RestartFault.TheVariants as restart_faults;
ghost use Rattle.world_core.specs.Crews.{IsPlaced, epoch_of, honest_at, honest_flags, honest_post, shown_of};
ghost use Rattle.world_core.specs.Served.{KeeperAfter, Served};
ghost use Rattle.validator_core.specs.Starts.{Starts};
ghost use Rattle.world_lines.specs.Answers.{stated_as};
ghost use Rattle.world_spec.specs.Step.{executed_digest};
ghost use Rattle.world_core.specs.SeatRestarts.{HasBadRecord, Restarted};

use crate::asking::{ask_ack, ask_end};
use crate::reply::{Reply, RestartFault, SeatFault};
use crate::requests::Asks;
use crate::seat::Seat;
use crate::starts::{records_of, start_new};
use crate::terms::Terms;
use chain_messages::Sealed;
use chain_types::{Object, ObjectKey};
use digest_core::Digest;
use outside::{Keeper, OutFault};
use protocol_spec::{AckRefusal, EndRefusal};
use quorum_core::{Committee, Sealer};
use std::alloc::Global;
use std::marker::Model;
use std::thread::Threads;
use validator_core::{StartRefusal, Validator};
use wire_bcs::{OutOfMemory, Seq};
use world_lines::HeldDigests;

/// The members of a committee. Contracts see its terms, and the members as the definition's posts.
#[derive(Drop)]
pub struct Seats {
    terms: Terms,
    flags: Seq<bool>,
    seats: Vec<Seat>,
}

impl Model for Seats {
    ghost use Rattle.std.specs.Prelude.{◌≡◌, ◌≤◌, length};
    ghost use Rattle.world_core.specs.Crews.{Crew, ArePlaced, honest_flags};

    ghost Value = { Crew };

    ghost view = { λ s. record { terms = s.terms; posts = s.seats.items } };

    ghost invariant = { λ s. (ArePlaced s.terms s.seats.items) × (s.flags ≡ honest_flags s.seats.items) × (length s.seats.items ≤ 64) };
}

/// New members, by whether they are honest, of which the first has number 0.
#[tactic(auto, using(crate::proofs::Placing::new_more))]
fn new_seats<S: Sealer>(
    alloc: Global,
    terms: &Terms,
    honest: &[bool],
    opening: &Seq<Object>,
    sealer: &S,
) -> Result<Vec<Seat>, OutOfMemory>
    requires apart { AreApart opening.now }
    requires few { length honest.now ≤ 64 }
    ensures { IfOk result (λ seats. seats.items ≡ new_posts terms.now opening.now 0 honest.now) }
{
    let mut seats = Vec::new(alloc);
    let mut member = 0;
    let mut rest = honest;
    while let [flag, after @ ..] = rest {
        let validator = start_new(alloc, member, terms, opening, sealer)?;
        seats.push(Seat {
            honest: *flag,
            validator: Some(validator),
            armed: None,
        })?;
        member += 1;
        rest = after;
    }
    Ok(seats)
}

impl Seats {
    /// The members of a new committee of these terms, by whether they are honest: each is up, in an epoch 0 that opens with these
    /// objects, none of them twice.
    pub fn new<S: Sealer>(
        alloc: Global,
        terms: &Terms,
        honest: &[bool],
        opening: &Seq<Object>,
        sealer: &S,
    ) -> Result<Seats, OutOfMemory>
        requires apart { AreApart opening.now }
        requires few { length honest.now ≤ 64 }
        ensures { IfOk result (λ seats. seats ≡ record { terms = terms.now; posts = new_posts terms.now opening.now 0 honest.now }) }
    {
        let flags = Seq::from_slice(alloc, honest)?;
        let seats = new_seats(alloc, terms, honest, opening, sealer)?;
        Ok(Seats {
            terms: terms.copy(),
            flags,
            seats,
        })
    }

    /// The number of members, at most 64. Takes no memory.
    pub fn len(&self) -> u32
        ensures value { result ≡ length self.now.posts }
        ensures most { result ≤ 64 }
    {
        self.seats.len() as u32
    }

    /// Whether each member is honest, by its number. Takes no memory.
    pub fn flags(&self) -> &[bool]
        ensures { result.now ≡ honest_flags self.now.posts }
    {
        self.flags.as_slice()
    }

    /// The committee. Takes no memory.
    pub fn committee(&self) -> &Committee
        ensures { result.now ≡ self.now.terms.stakes }
    {
        &self.terms.committee
    }

    /// Arms a stop: the next record of the member is kept or lost, and the member stops there. Does nothing if there is
    /// no such member. Takes no memory.
    pub fn arm(&mut self, member: u32, kept: bool)
        ensures posts { self.new.posts ≡ armed_at self.old.posts member kept }
        ensures terms { self.new.terms ≡ self.old.terms }
        ensures count { length self.new.posts ≡ length self.old.posts }
    {
        if member as usize >= self.seats.len() {
            return;
        }
        let seat = &mut self.seats[member as usize];
        seat.arm(kept);
    }

    /// Hands a request to a member, as [`VoteRequest`](crate::requests::VoteRequest). `Down`: the member is down or not
    /// there. `Stopped`: a stop was armed and a record was due; the member is down, and its record was kept if the stop
    /// keeps. Else it answered, and its record was kept. `KeepFault` comes only if the call leaves a record, running
    /// out of memory only if the member is up and met no fork. After either the member is down, and its record was kept
    /// or not; the other members stay as they are.
    pub(crate) fn call<R: Threads + Sync, D: Keeper, S: Sealer, Q: Asks>(
        &mut self,
        rt: &R,
        alloc: Global,
        keeper: &mut D,
        sealer: &S,
        member: u32,
        request: &Q,
    ) -> Result<Reply<Q::Answer>, SeatFault>
        requires known { length self.old.posts ≤ D.width keeper.old }
        ensures served { Served (Q.says request.now (rules_for self.old.terms (S.accepts sealer.now)) (S.accepts sealer.now) member) (rules_for self.old.terms (S.accepts sealer.now)) (Q.call request.now) member self.old self.new (D.lists keeper.old) (D.lists keeper.new) result }
        ensures keeper { KeeperAfter (D.width keeper.old) (D.width keeper.new) (D.failed keeper.old) (D.failed keeper.new) (IsErrOf result faults.KeepFault) }
    {
        if member as usize >= self.seats.len() {
            return Ok(Reply::Down);
        }
        let seat = &mut self.seats[member as usize];
        seat.call(rt, alloc, keeper, sealer, &self.terms, member, request)
    }

    /// The epoch of a member that is up; 0 if it is down or not there. Takes no memory.
    #[tactic(auto, using(crate::proofs::Turning::epoch_none, crate::proofs::Turning::epoch_some))]
    pub fn epoch(&self, member: u32) -> u64
        ensures { result ≡ epoch_of (standing_at (slice_get self.now.posts member)) }
    {
        match self.standing(member) {
            Some(validator) => validator.epoch(),
            None => 0,
        }
    }

    /// What a member says of its End (epoch change of Sui Lutris); none if it is down or not there. It keeps no
    /// record. Memory is needed only for an End.
    #[tactic(auto, using(crate::proofs::Saying::end_asked, crate::proofs::Saying::asked_none, crate::proofs::Saying::end_able))]
    pub fn end<S: Sealer>(
        &self,
        sealer: &S,
        member: u32,
    ) -> Result<Option<Result<Sealed, EndRefusal>>, OutOfMemory>
        ensures answer { IfOk result (λ answer. option_map stated_as answer ≡ option_map (end_answer (rules_for self.now.terms (S.accepts sealer.now))) (option_map seat_state (standing_at (slice_get self.now.posts member)))) }
        ensures able { OnErr result (option_map (λ state. is_ok (end_answer (rules_for self.now.terms (S.accepts sealer.now)) state)) (option_map seat_state (standing_at (slice_get self.now.posts member))) ≡ Some true) }
    {
        let Some(validator) = self.standing(member) else {
            return Ok(None);
        };
        let answer = ask_end(validator, sealer)?;
        Ok(Some(answer))
    }

    /// What a member says of a transaction that it may have executed (Sui Lutris); none if it is down or not there.
    /// It keeps no record. Memory is needed only for an acknowledgement.
    #[tactic(auto, using(crate::proofs::Saying::ack_asked, crate::proofs::Saying::asked_none, crate::proofs::Saying::ack_able))]
    pub fn ack<S: Sealer>(
        &self,
        sealer: &S,
        member: u32,
        tx: &Digest,
    ) -> Result<Option<Result<Sealed, AckRefusal>>, OutOfMemory>
        ensures answer { IfOk result (λ answer. option_map stated_as answer ≡ option_map (λ state. ack_answer (rules_for self.now.terms (S.accepts sealer.now)) state tx.now) (option_map seat_state (standing_at (slice_get self.now.posts member)))) }
        ensures able { OnErr result (option_map (λ state. is_ok (ack_answer (rules_for self.now.terms (S.accepts sealer.now)) state tx.now)) (option_map seat_state (standing_at (slice_get self.now.posts member))) ≡ Some true) }
    {
        let Some(validator) = self.standing(member) else {
            return Ok(None);
        };
        let answer = ask_ack(validator, sealer, tx)?;
        Ok(Some(answer))
    }

    /// The digest of a transaction's effects at the lowest-numbered honest member that is up and executed it
    /// in its present epoch; none if none did. Takes no memory.
    pub fn executed_digest(&self, tx: &Digest) -> Option<Digest>
        ensures { result ≡ says_in (executed_digest tx.now) self.now.posts }
    {
        executed_in(self.seats.as_slice(), tx)
    }

    /// Starts a member from the records that its keeper has, in an epoch 0 that opens with these objects, and answers
    /// how many records there are. No stop is armed after it. If there is no such member, the answer is 0 and nothing
    /// changes. After a refusal nothing changes.
    pub fn restart<D: Keeper, S: Sealer>(
        &mut self,
        alloc: Global,
        keeper: &mut D,
        sealer: &S,
        opening: &Seq<Object>,
        member: u32,
    ) -> Result<u64, RestartFault>
        requires known { length self.old.posts ≤ D.width keeper.old }
        requires apart { AreApart opening.now }
        ensures ok { IfOk result (Restarted (rules_for self.old.terms (S.accepts sealer.now)) opening.now (D.lists keeper.old) self.old.terms member self.old.posts self.new.posts (slice_get self.old.posts member)) }
        ensures bad { (place : ℕ) → IsErrOf result (restart_faults.BadRecord place) → HasBadRecord (rules_for self.old.terms (S.accepts sealer.now)) opening.now (D.lists keeper.old) member place }
        ensures stay { OnErr result (self.new ≡ self.old) }
        ensures terms { self.new.terms ≡ self.old.terms }
        ensures count { length self.new.posts ≡ length self.old.posts }
        ensures lists { KeepsJournals (D.lists keeper.old) (D.lists keeper.new) }
        ensures width { D.width keeper.new ≡ D.width keeper.old }
        ensures later { D.failed keeper.old ≤ D.failed keeper.new }
        ensures fault { IsErrOf result restart_faults.KeepFault → Rose (D.failed keeper.old) (D.failed keeper.new) }
    {
        if member as usize >= self.seats.len() {
            return Ok(0);
        }
        let kept = match records_of(alloc, keeper, member) {
            Ok(kept) => kept,
            Err(OutFault::Failed) => return Err(RestartFault::KeepFault),
            Err(OutFault::OutOfMemory) => return Err(RestartFault::OutOfMemory),
        };
        match self.terms.start(alloc, member, opening, &kept, sealer) {
            Ok(validator) => {
                let seat = &mut self.seats[member as usize];
                seat.start(validator);
                Ok(kept.len())
            }
            Err(StartRefusal::BadRecord { place, why: _ }) => Err(RestartFault::BadRecord {
                place,
            }),
            Err(StartRefusal::OutOfMemory) => Err(RestartFault::OutOfMemory),
        }
    }

    /// Starts a member of this committee from these records, in an epoch 0 that opens with these objects. The members
    /// stay as they are; refusals are those of [`Validator::start`].
    pub(crate) fn start_one<S: Sealer>(
        &self,
        alloc: Global,
        member: u32,
        opening: &Seq<Object>,
        kept: &Seq<Seq<u8>>,
        sealer: &S,
    ) -> Result<Validator, StartRefusal>
        requires apart { AreApart opening.now }
        requires count { length kept.now < 2 ^ 64 }
        ensures { Starts (started (rules_for self.now.terms (S.accepts sealer.now)) opening.now kept.now) member self.now.terms result }
    {
        self.terms.start(alloc, member, opening, kept, sealer)
    }

    /// A member that is up; none if it is down or not there. Takes no memory.
    #[tactic(auto, using(crate::proofs::Placing::placed_at))]
    pub fn standing(&self, member: u32) -> Option<&Validator>
        ensures value { option_copied result ≡ standing_at (slice_get self.now.posts member) }
        ensures placed { IsPlaced self.now.terms member (option_copied result) }
    {
        match self.seats.get(member as usize) {
            Some(seat) => seat.standing(),
            None => None,
        }
    }

    /// A member that is honest and up; none if it is faulty, down or not there. Takes no memory.
    #[tactic(auto, using(crate::proofs::Placing::honest_placed))]
    pub fn honest(&self, member: u32) -> Option<&Validator>
        ensures value { option_copied result ≡ honest_at (slice_get self.now.posts member) }
        ensures placed { IsPlaced self.now.terms member (option_copied result) }
    {
        match self.seats.get(member as usize) {
            Some(seat) => seat.honest(),
            None => None,
        }
    }

    /// Whether the member is honest, up or not; false if it is not there. Takes no memory.
    pub fn is_honest(&self, member: u32) -> bool
        ensures { result ≡ honest_post (slice_get self.now.posts member) }
    {
        match self.seats.get(member as usize) {
            Some(seat) => seat.is_honest(),
            None => false,
        }
    }

    /// The epoch of a member that is up, and its live objects by ascending id; none if it is down or not there.
    pub fn show(&self, member: u32) -> Result<Option<(u64, Seq<Object>)>, OutOfMemory>
        ensures { IfOk result (λ shown. shown ≡ option_map shown_of (standing_at (slice_get self.now.posts member))) }
    {
        let Some(seat) = self.seats.get(member as usize) else {
            return Ok(None);
        };
        let Some(validator) = &seat.validator else {
            return Ok(None);
        };
        let objects = validator.live_list()?;
        Ok(Some((validator.epoch(), objects)))
    }
}

impl HeldDigests for Seats {
    ghost held = { λ s. held_in s.posts };

    fn held_digest(&self, key: &ObjectKey) -> Option<Digest>
        ensures { result ≡ held_in self.now.posts key.now }
    {
        digest_in(self.seats.as_slice(), key)
    }
}

/// The digest of the version at the first honest member that is up and holds it.
#[tactic(auto, using(crate::proofs::Holders::held_next, crate::proofs::Holders::held_here))]
fn digest_in(seats: &[Seat], key: &ObjectKey) -> Option<Digest>
    ensures { result ≡ held_in seats.now key.now }
{
    let mut rest = seats;
    while let [seat, after @ ..] = rest {
        if let Some(digest) = seat.held_digest(key) {
            return Some(digest);
        }
        rest = after;
    }
    None
}

/// The digest of a transaction's effects at the first honest member that is up and executed it.
#[tactic(auto, using(crate::proofs::Saying::says_next, crate::proofs::Saying::says_here))]
fn executed_in(seats: &[Seat], tx: &Digest) -> Option<Digest>
    ensures { result ≡ says_in (executed_digest tx.now) seats.now }
{
    let mut rest = seats;
    while let [seat, after @ ..] = rest {
        if let Some(digest) = seat.executed_digest(tx) {
            return Some(digest);
        }
        rest = after;
    }
    None
}
