//! The desk and its passes.

ghost use Rattle.std.specs.Prelude.{◌≡◌, ℕ, ◌+◌, ◌-◌, ◌<◌, ◌≤◌, [], ◌∷◌, IfOk, IfErr, OnErr, length};
ghost use Rattle.std.specs.Bool.{OnTrue, OnFalse};
ghost use Rattle.vote_desk.specs.declared.kept.Kept.{Kept};

use crate::clerk::Clerk;
use crate::kept::{Kept, Opened};
use crate::law::{Adding, Joining, Law, Looking, Parting, Returning, Taking};
use crate::view::View;
use atomic_table::{Refused, Seat, Table};
use std::alloc::Global;
use std::sync::Wait;
use std::thread;
use wire_bcs::{OutOfMemory, Seq};

/// A clerk that callers on any threads ask, one at a time, and the history of their calls.
#[derive(Drop)]
pub struct SerialDesk<C: Clerk> {
    table: Table<Kept<C>, View<C::State, C::Entry>, Opened<C>, Law, Global>,
}

/// A caller's right to make calls at a desk. It has no bytes, and a view, which says what was seen and done with it.
#[derive(Drop)]
pub struct Pass<C: Clerk> {
    seat: Seat<Kept<C>, View<C::State, C::Entry>>,
}

impl<C: Clerk> SerialDesk<C> {
    ghost use Rattle.vote_desk.specs.Counts.{times};
    ghost use Rattle.vote_desk.specs.Histories.{IsFront, IsHistory};
    ghost use Rattle.vote_desk.specs.Views.{whole, first_view, with_share, parted, joined};
    ghost use Rattle.vote_desk.specs.Passes.{opened, opening, view, IsOf, Holds, Calls, Waits};

    /// The desk of this clerk, and the pass with the whole share. If memory is refused the clerk comes back.
    pub fn open(alloc: Global, clerk: C) -> Result<(SerialDesk<C>, Pass<C>), C>
        ensures opened { IfOk result (λ made. opened made.0 ≡ clerk) }
        ensures of { IfOk result (λ made. IsOf C.step C.state made.0 made.1) }
        ensures view { IfOk result (λ made. view made.1 ≡ first_view (C.state clerk)) }
        ensures err { IfErr result (λ back. back ≡ clerk) }
    {
        let opened = Opened::with(&clerk);
        let Ok(mut slots) = Vec::with_capacity(alloc, 1) else {
            return Err(clerk);
        };
        slots.push_reserved(Kept {
            clerk,
            entries: Vec::new(alloc),
        });
        match Table::new(alloc, &[0], slots, &opened) {
            Ok((table, seat)) => Ok((SerialDesk { table }, Pass { seat })),
            Err(Refused { slots }) => Err(clerk_of(slots)),
        }
    }

    /// Moves 1 of the pass's share to a new pass, which has seen as much and made no call.
    pub fn split(&self, pass: &mut Pass<C>) -> Pass<C>
        requires of { IsOf C.step C.state self.now pass.old }
        requires share { 1 < (view pass.old).share }
        ensures of { IsOf C.step C.state self.now pass.new }
        ensures new_of { IsOf C.step C.state self.now result }
        ensures left { view pass.new ≡ with_share (view pass.old) ((view pass.old).share - 1) }
        ensures new { view result ≡ parted (view pass.old) }
    {
        Pass {
            seat: self.table.shared.split_seat::<Parting>(&mut pass.seat),
        }
    }

    /// Joins two passes: the joint one has seen the longer of what they had seen, of which the shorter is a prefix; it has
    /// the places of both, of which none stands in both, and the sum of their shares.
    pub fn join(&self, one: Pass<C>, other: Pass<C>) -> Pass<C>
        requires one { IsOf C.step C.state self.now one }
        requires other { IsOf C.step C.state self.now other }
        ensures of { IsOf C.step C.state self.now result }
        ensures view { view result ≡ joined (view one) (view other) }
        ensures front { IsFront (view one).seen (view result).seen × IsFront (view other).seen (view result).seen }
        ensures apart { (place : ℕ) → times place (view one).mine + times place (view other).mine ≤ 1 }
    {
        let Pass { mut seat } = one;
        let Pass { seat: other } = other;
        let shared = &self.table.shared;
        shared.join_seat::<Joining>(&mut seat, other);
        shared.load::<Looking>(&mut seat, 0);
        Pass { seat }
    }

    /// Waits for the slot and makes one call. If it answers, its entry stands in the history, after all that the pass
    /// had seen and at a place that is the pass's own; the reply is one that the clerk may give there. If room for the
    /// entry is refused, nothing was asked, and no entry is added.
    pub fn call<W: Wait>(
        &self,
        rt: &W,
        pass: &mut Pass<C>,
        request: C::Request,
    ) -> Result<C::Reply, OutOfMemory>
        requires of { IsOf C.step C.state self.now pass.old }
        ensures of { IsOf C.step C.state self.now pass.new }
        ensures share { (view pass.new).share ≡ (view pass.old).share }
        ensures made { IfOk result (λ reply. Calls C.step C.state C.tells self.now (view pass.old) (view pass.new) request reply) }
        ensures refused { OnErr result (Waits (view pass.old) (view pass.new)) }
    {
        self.wait(rt, pass);
        let answered = pass.seat.slot_mut(&self.table.shared, 0).call(request);
        match answered {
            Ok(reply) => {
                self.table.shared.swap::<Adding>(&mut pass.seat, 0, 0);
                Ok(reply)
            }
            Err(refused) => {
                self.table.shared.swap::<Returning>(&mut pass.seat, 0, 0);
                Err(refused)
            }
        }
    }

    // Takes the slot, as soon as it is home.
    fn wait<W: Wait>(&self, rt: &W, pass: &mut Pass<C>)
        requires of { IsOf C.step C.state self.now pass.old }
        ensures holds { Holds C.step C.state self.now pass.old pass.new }
    {
        for _ in rt.forever() {
            if self.take(pass) {
                return;
            }
            thread::yield_now();
        }
        unreachable!()
    }

    // Takes the slot if it is home.
    fn take(&self, pass: &mut Pass<C>) -> bool
        requires of { IsOf C.step C.state self.now pass.old }
        ensures taken { OnTrue result (Holds C.step C.state self.now pass.old pass.new) }
        ensures busy { OnFalse result (IsOf C.step C.state self.now pass.new × (view pass.new ≡ view pass.old)) }
    {
        self.table
            .shared
            .compare_exchange::<Taking>(&mut pass.seat, 0, 0, 1)
            == 0
    }

    /// The clerk and the history of all calls, of the pass with the whole share. Takes no memory.
    pub fn close(self, pass: Pass<C>) -> (C, Seq<C::Entry>)
        requires of { IsOf C.step C.state self pass }
        requires all { (view pass).share ≡ whole }
        ensures history { IsHistory C.step (opening C.state self) result.1 (C.state result.0) }
        ensures seen { IsFront (view pass).seen result.1 }
        ensures mine { (place : ℕ) → place < length result.1 → times place (view pass).mine ≡ 1 }
    {
        let SerialDesk { table } = self;
        let Pass { seat } = pass;
        let mut closed = table.close_with(seat);
        let Kept { clerk, entries } = closed.take(0);
        closed.free();
        (clerk, Seq::from_vec(entries))
    }
}

// The clerk of a table that was not made.
fn clerk_of<C: Clerk>(mut slots: Vec<Kept<C>>) -> C
    requires { (kept : Kept C C.Request C.Reply C.Entry C.State) × (slots.items ≡ kept ∷ []) }
    ensures { (kept : Kept C C.Request C.Reply C.Entry C.State) → slots.items ≡ kept ∷ [] → result ≡ kept.clerk }
{
    match slots.pop() {
        Some(Kept { clerk, entries: _ }) => clerk,
        None => unreachable!(),
    }
}
