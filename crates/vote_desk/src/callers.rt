//! Callers that ask one member for votes, each in a thread of its own.

ghost use Rattle.std.specs.Prelude.{◌≡◌, ◌+◌, ◌<◌, ◌≤◌, [], IfOk, Some, length, true};
ghost use Rattle.std.specs.Bool.{OnTrue};
ghost use Rattle.std.specs.List.{list_any};
ghost use Rattle.vote_desk.specs.Callers.{AreAnswered, HaveAsked, IsFresh, asked_in, is_starved, is_starved_call, was_asked};
ghost use Rattle.vote_desk.specs.Dealt.{AreMadeBy, HaveMade, IsDue};
ghost use Rattle.vote_desk.specs.Desks.{IsOf, mine, opening, seen, share};
ghost use Rattle.vote_desk.specs.Histories.{IsHistory, IsLegal};
ghost use Rattle.vote_desk.specs.Views.{whole};
ghost use Rattle.vote_desk.specs.Votes.{Follows, FollowsUnder, standing};

use crate::crew::{Crew, Turn};
use crate::desk::{Desk, DeskPass, DeskRefusal};
use crate::entry::DeskEntry;
use crate::sure::SureKeeper;
use dag_pool::{Team, run_team};
use outside::Keeper;
use protocol_spec::{VoteRefusal, Voted};
use quorum_core::Sealer;
use std::alloc::Global;
use std::sync::Wait;
use std::thread::Threads;
use validator_core::Validator;
use wire_bcs::{OutOfMemory, Seq};

impl<R: Wait, D: Keeper + Drop, S: Sealer + Drop> Team<Turn<D, S>> for Crew<'_, R, D, S> {
    ghost ready = { IsFresh };

    ghost worked = { HaveAsked };

    ghost part = { λ turn. share turn.pass };

    fn split(&self, turn: &mut Turn<D, S>, _callers: u32) -> Turn<D, S> {
        Turn {
            pass: self.desk.split(&mut turn.pass),
            whole: true,
        }
    }

    fn work(&self, turn: Turn<D, S>, number: u32) -> Turn<D, S> {
        let Turn { mut pass, whole: _ } = turn;
        let whole = ask_own(self, &mut pass, number);
        Turn { pass, whole }
    }

    fn join(&self, others: Turn<D, S>, one: Turn<D, S>, _number: u32) -> Turn<D, S> {
        let Turn { pass, whole } = others;
        let Turn {
            pass: other,
            whole: also,
        } = one;
        Turn {
            pass: self.desk.join(pass, other),
            whole: both(whole, also),
        }
    }
}

// The conjunction of two flags, as a function for contracts.
fn both(one: bool, two: bool) -> bool
    ensures { result ≡ true → (one ≡ true) × (two ≡ true) }
{
    one && two
}

// Asks for the requests of this caller, in order, up to one for which memory is refused. Answers whether all were asked for.
fn ask_own<R: Wait, D: Keeper + Drop, S: Sealer + Drop>(
    crew: &Crew<'_, R, D, S>,
    pass: &mut DeskPass<D, S>,
    number: u32,
) -> bool
    requires of { IsOf crew.now.desk.now pass.old }
    requires none { mine pass.old ≡ [] }
    ensures of { IsOf crew.now.desk.now pass.new }
    ensures share { share pass.new ≡ share pass.old }
    ensures asked { OnTrue result (HaveMade (IsDue crew.now.callers number (number + 1) (length crew.now.requests.now)) crew.now.callers crew.now.requests.now (asked_in (seen pass.new)) (mine pass.new)) }
{
    for place in 0..crew.requests.len() {
        if !ask_in_turn(crew, pass, number, place) {
            return false;
        }
    }
    true
}

// Asks for the request at this place, if it is this caller's.
fn ask_in_turn<R: Wait, D: Keeper + Drop, S: Sealer + Drop>(
    crew: &Crew<'_, R, D, S>,
    pass: &mut DeskPass<D, S>,
    number: u32,
    place: usize,
) -> bool
    requires of { IsOf crew.now.desk.now pass.old }
    requires inside { place < length crew.now.requests.now }
    requires asked { HaveMade (IsDue crew.now.callers number (number + 1) place) crew.now.callers crew.now.requests.now (asked_in (seen pass.old)) (mine pass.old) }
    ensures of { IsOf crew.now.desk.now pass.new }
    ensures share { share pass.new ≡ share pass.old }
    ensures asked { OnTrue result (HaveMade (IsDue crew.now.callers number (number + 1) (place + 1)) crew.now.callers crew.now.requests.now (asked_in (seen pass.new)) (mine pass.new)) }
{
    if place % crew.callers as usize != number as usize {
        return true;
    }
    let answer = crew
        .desk
        .vote(crew.rt, pass, crew.requests[place].as_slice());
    was_asked(&answer)
}

// Whether the member was asked.
fn was_asked(answer: &Result<Voted, DeskRefusal>) -> bool
    ensures { result ≡ was_asked answer.now }
{
    match answer {
        Ok(_) => true,
        Err(DeskRefusal::Vote(_)) => true,
        Err(DeskRefusal::OutOfMemory) => false,
    }
}

// Lets the callers ask at a desk with parts of this pass, which has the whole share again afterwards.
fn run_callers<
    R: Threads + Wait + Sync,
    D: Keeper + Drop + Send + Sync,
    S: Sealer + Drop + Send + Sync,
>(rt: &R, desk: &Desk<D, S>, pass: DeskPass<D, S>, requests: &[Seq<u8>], callers: u32) -> Turn<D, S>
    requires of { IsOf desk.now pass }
    requires share { share pass ≡ whole }
    requires none { mine pass ≡ [] }
    requires some { 0 < callers }
    requires few { callers ≤ 16 }
    ensures of { IsOf desk.now result.pass }
    ensures share { share result.pass ≡ whole }
    ensures made { result.whole ≡ true → HaveMade (IsDue callers 0 callers (length requests.now)) callers requests.now (asked_in (seen result.pass)) (mine result.pass) }
{
    let crew = Crew {
        rt,
        desk,
        requests,
        callers,
    };
    let turn = Turn { pass, whole: true };
    run_team(rt, &crew, turn, callers)
}

// Lets the callers ask at a desk that was opened, and closes it.
fn ask_and_close<
    R: Threads + Wait + Sync,
    D: Keeper + Drop + Send + Sync,
    S: Sealer + Drop + Send + Sync,
>(
    rt: &R,
    desk: Desk<D, S>,
    pass: DeskPass<D, S>,
    requests: &[Seq<u8>],
    callers: u32,
) -> Result<(Validator, D, Seq<DeskEntry>), OutOfMemory>
    requires of { IsOf desk pass }
    requires share { share pass ≡ whole }
    requires none { mine pass ≡ [] }
    requires some { 0 < callers }
    requires few { callers ≤ 16 }
    ensures history { IfOk result (λ left. IsHistory (Follows S.accepts) (opening desk) left.2 (standing left.0 (opening desk).sealer (D.failed left.1) (D.lists left.1))) }
    ensures made { IfOk result (λ left. AreMadeBy callers requests.now (asked_in left.2)) }
{
    let Turn { pass, whole } = run_callers(rt, &desk, pass, requests, callers);
    let (validator, keeper, history) = desk.close(pass);
    if whole {
        return Ok((validator, keeper, history));
    }
    drop(validator);
    drop(keeper);
    Err(OutOfMemory)
}

/// Puts a member behind a desk and lets 1 to 16 callers ask it for votes, each in a thread of its own. Of n callers,
/// numbered from 0, caller c asks in order for the requests at the places p with p mod n = c. Answers the member, its
/// keeper and the history: the calls in the order in which they were made. If room for an entry is refused there is no
/// history.
pub fn ask_by_callers<
    R: Threads + Wait + Sync,
    D: Keeper + Drop + Send + Sync,
    S: Sealer + Drop + Send + Sync,
>(
    rt: &R,
    alloc: Global,
    validator: Validator,
    keeper: D,
    sealer: S,
    requests: &[Seq<u8>],
    callers: u32,
) -> Result<(Validator, D, Seq<DeskEntry>), OutOfMemory>
    requires known { validator.member < D.width keeper }
    requires some { 0 < callers }
    requires few { callers ≤ 16 }
    ensures history { IfOk result (λ left. IsHistory (Follows S.accepts) (standing validator sealer (D.failed keeper) (D.lists keeper)) left.2 (standing left.0 sealer (D.failed left.1) (D.lists left.1))) }
    ensures made { IfOk result (λ left. AreMadeBy callers requests.now (asked_in left.2)) }
{
    match Desk::open(alloc, validator, keeper, sealer) {
        Ok((desk, pass)) => ask_and_close(rt, desk, pass, requests, callers),
        Err((validator, keeper)) => {
            drop(validator);
            drop(keeper);
            Err(OutOfMemory)
        }
    }
}

// Whether the reply of a call is out of memory.
fn lacks_memory(reply: &Result<Voted, VoteRefusal>) -> bool
    ensures { result ≡ is_starved reply.now }
{
    match reply {
        Err(VoteRefusal::OutOfMemory) => true,
        _ => false,
    }
}

// Whether one of the calls ran out of memory.
fn any_lacks_memory(history: &Seq<DeskEntry>) -> bool
    ensures { result ≡ list_any is_starved_call history.now }
{
    for entry in history.as_slice() {
        if lacks_memory(&entry.reply) {
            return true;
        }
    }
    false
}

/// The history of 1 to 16 callers that ask a member whose keeper never fails, as [`ask_by_callers`] gives it, in terms
/// of the seals that the sealer accepts. Each reply is an answer of the member: none is a fault of the keeper, and if a
/// call runs out of memory, this function does too.
pub fn answers_to_callers<R: Threads + Wait + Sync, S: Sealer + Drop + Send + Sync>(
    rt: &R,
    alloc: Global,
    validator: Validator,
    keeper: SureKeeper,
    sealer: S,
    requests: &[Seq<u8>],
    callers: u32,
) -> Result<Seq<DeskEntry>, OutOfMemory>
    requires known { validator.member < length keeper }
    requires some { 0 < callers }
    requires few { callers ≤ 16 }
    ensures legal { IfOk result (IsLegal FollowsUnder (standing validator (S.accepts sealer) 0 (Some keeper))) }
    ensures made { IfOk result (λ history. AreMadeBy callers requests.now (asked_in history)) }
    ensures answered { IfOk result AreAnswered }
{
    let (validator, keeper, history) = ask_by_callers(
        rt, alloc, validator, keeper, sealer, requests, callers,
    )?;
    drop(validator);
    drop(keeper);
    if any_lacks_memory(&history) {
        return Err(OutOfMemory);
    }
    Ok(history)
}
