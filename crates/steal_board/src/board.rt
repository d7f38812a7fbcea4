//! The board and its seats.

ghost use Rattle.std.specs.Prelude.{◌≡◌, ℕ, ◌<◌, ◌≤◌, length};
ghost use Rattle.dag_core.specs.Values.{source, target};

use crate::law::{Claiming, Joining, Law, Parting, Paying, Returning, Spot, Taking, Turning};
use crate::view::View;
use crate::words::{MARK, discard, first_words, last_words};
use atomic_table::{Seat, Table};
use dag_core::{Edge, Job, Plan};
use std::alloc::Global;
use std::marker::Brand;
use wire_bcs::{OutOfMemory, Seq};

/// The words and slots of a plan, for callers on any threads.
#[derive(Drop)]
pub struct Board<J: Job> {
    table: Table<Option<J::Value>, View<J::Value>, Plan<J>, Law, Global>,
    edges: Seq<Edge>,
    tasks: usize,
    ghost counted: { tasks ≡ length table.shared.key.jobs },
    ghost same: { edges ≡ table.shared.key.edges },
    ghost wide: { (0 < table.shared.table_id.words) × (length table.shared.key.jobs ≤ table.shared.table_id.words) },
    ghost forward: { (place : ℕ) → place < length edges → (source edges place < target edges place) × (target edges place < length table.shared.key.jobs) },
    ghost deep: { table.shared.table_id.slots ≡ length edges },
}

/// A caller's right to make calls on a board. It has no bytes, and a view, which says what was done with it.
#[derive(Drop)]
pub struct BoardSeat<J: Job> {
    seat: Seat<Option<J::Value>, View<J::Value>>,
}

/// What a claim found.
#[derive(Clone, Copy, Debug, PartialEq, Eq)]
pub enum Claim {
    /// The task is the caller's.
    Mine,
    /// The task was claimed before.
    Taken,
    /// So many of the task's incoming edges are unpaid.
    Waiting(u64),
}

impl<J: Job> Board<J> {
    ghost use Rattle.std.specs.Prelude.{◌+◌, ◌-◌, Some, IfOk, MatchBool, slice_index};
    ghost use Rattle.dag_core.specs.Places.{times};
    ghost use Rattle.dag_core.specs.Values.{count_in, value_of};
    ghost use Rattle.dag_core.specs.Plans.{plan_values};
    ghost use Rattle.steal_board.specs.Views.{whole, mark, paper_of, seat_view, with_share, with_mine, with_gone, with_ready, with_paid, with_taken, joined};
    ghost use Rattle.steal_board.specs.Rule.{owing};
    ghost use Rattle.steal_board.specs.Boards.{over, view, IsOf};

    /// The board of a plan, and the seat with the whole share.
    pub fn lay(alloc: Global, plan: &Plan<J>) -> Result<(Board<J>, BoardSeat<J>), OutOfMemory>
        ensures over { IfOk result (λ laid. over laid.0 ≡ plan.now) }
        ensures of { IfOk result (λ laid. IsOf laid.0 laid.1) }
        ensures view { IfOk result (λ laid. view laid.1 ≡ seat_view (paper_of plan.now) whole) }
    {
        let edges = Seq::from_slice(alloc, plan.edges.as_slice())?;
        let words = first_words(alloc, plan)?;
        let tasks = plan.tasks() as usize;
        let count = plan.edge_count() as usize;
        let (table, seat) = Table::vacant(alloc, words.as_slice(), count, plan)?;
        let board = Board {
            table,
            edges,
            tasks,
        };
        Ok((board, BoardSeat { seat }))
    }

    /// Moves 1 of the seat's share to a new seat with empty lists.
    pub fn split(&self, seat: &mut BoardSeat<J>) -> BoardSeat<J>
        requires of { IsOf self.now seat.old }
        requires share { 1 < (view seat.old).share }
        ensures of { IsOf self.now seat.new }
        ensures new_of { IsOf self.now result }
        ensures left { view seat.new ≡ with_share (view seat.old) ((view seat.old).share - 1) }
        ensures new { view result ≡ seat_view (view seat.old).paper 1 }
    {
        BoardSeat {
            seat: self.table.shared.split_seat::<Parting>(&mut seat.seat),
        }
    }

    /// Joins the lists of two seats and adds their shares.
    pub fn join(&self, one: BoardSeat<J>, other: BoardSeat<J>) -> BoardSeat<J>
        requires one { IsOf self.now one }
        requires other { IsOf self.now other }
        ensures of { IsOf self.now result }
        ensures view { view result ≡ joined (view one) (view other) }
    {
        let BoardSeat { mut seat } = one;
        let BoardSeat { seat: other } = other;
        self.table.shared.join_seat::<Joining>(&mut seat, other);
        BoardSeat { seat }
    }

    /// Claims a task, by one compare-exchange. `Mine` if its word was 0, which is then the mark; `Taken` exactly if
    /// the word was the mark; `Waiting(left)` exactly if it was `left` above 0.
    pub fn claim(&self, seat: &mut BoardSeat<J>, task: u32) -> Claim
        requires of { IsOf self.now seat.old }
        requires task { task < length (over self.now).jobs }
        ensures of { IsOf self.now seat.new }

        // What the word was, and that a task is claimed once.
        ensures mine { result ≡ Claim.Mine → view seat.new ≡ with_mine (view seat.old) task }
        ensures fresh { result ≡ Claim.Mine → times task (view seat.old).mine ≡ 0 }
        ensures taken { result ≡ Claim.Taken → view seat.new ≡ with_gone (view seat.old) task }
        ensures waiting { (left : ℕ) → result ≡ Claim.Waiting left → (0 < left) × (view seat.new ≡ view seat.old) × (0 < count_in (over self.now).edges task) × (times task (view seat.old).ready ≡ 0) }

        // What the seat with the whole share learns.
        ensures all_mine { (view seat.old).share ≡ whole → result ≡ Claim.Mine → (times task (view seat.old).gone ≡ 0) × (0 < count_in (over self.now).edges task → 0 < times task (view seat.old).ready) }
        ensures all_taken { (view seat.old).share ≡ whole → result ≡ Claim.Taken → 0 < times task (view seat.old).mine }
        ensures all_waiting { (left : ℕ) → (view seat.old).share ≡ whole → result ≡ Claim.Waiting left → left ≡ owing (λ edge. times edge (view seat.old).paid) (over self.now).edges task }
        ensures all_once { (view seat.old).share ≡ whole → (t : ℕ) → (times t (view seat.old).mine ≤ 1) × (length (over self.now).jobs ≤ t → times t (view seat.old).mine ≡ 0) }
    {
        let shared = &self.table.shared;
        let found = shared.compare_exchange::<Claiming>(&mut seat.seat, task as usize, 0, MARK);
        if found == 0 {
            Claim::Mine
        } else if found == MARK {
            Claim::Taken
        } else {
            Claim::Waiting(found)
        }
    }

    /// Takes the value of an edge whose target this seat claimed. It is the plan's value of the edge.
    pub fn take_input(&self, seat: &mut BoardSeat<J>, edge: u32) -> J::Value
        requires of { IsOf self.now seat.old }
        requires edge { edge < length (over self.now).edges }
        requires claimed { 0 < times (target (over self.now).edges edge) (view seat.old).mine }
        requires untaken { times edge (view seat.old).taken ≡ 0 }
        ensures of { IsOf self.now seat.new }
        ensures view { view seat.new ≡ with_taken (view seat.old) edge }
        ensures value { value_of (plan_values (over self.now)) edge ≡ Some result }
    {
        self.take_at::<Brand>(seat, edge)
    }

    // Takes the value of the edge that the step names.
    fn take_at<E: Spot>(&self, seat: &mut BoardSeat<J>, edge: u32) -> J::Value
        requires named { edge ≡ E.edge }
        requires of { IsOf self.now seat.old }
        requires edge { edge < length (over self.now).edges }
        requires claimed { 0 < times (target (over self.now).edges edge) (view seat.old).mine }
        requires untaken { times edge (view seat.old).taken ≡ 0 }
        ensures of { IsOf self.now seat.new }
        ensures view { view seat.new ≡ with_taken (view seat.old) edge }
        ensures value { value_of (plan_values (over self.now)) edge ≡ Some result }
    {
        let word = self.edges.as_slice()[edge as usize].to as usize;
        let shared = &self.table.shared;
        shared.load::<Taking<E>>(&mut seat.seat, word);
        let value = shared.exchange(&mut seat.seat, edge as usize, None);
        shared.load::<Returning>(&mut seat.seat, word);
        match value {
            Some(value) => value,
            None => unreachable!(),
        }
    }

    /// Pays the plan's value of an edge whose source this seat claimed. True exactly if the target's word became 0.
    pub fn pay(&self, seat: &mut BoardSeat<J>, edge: u32, value: J::Value) -> bool
        requires of { IsOf self.now seat.old }
        requires edge { edge < length (over self.now).edges }
        requires claimed { 0 < times (source (over self.now).edges edge) (view seat.old).mine }
        requires unpaid { times edge (view seat.old).paid ≡ 0 }
        requires value { value_of (plan_values (over self.now)) edge ≡ Some value }
        ensures of { IsOf self.now seat.new }
        ensures view { MatchBool result (view seat.new ≡ with_ready (with_paid (view seat.old) edge) (target (over self.now).edges edge)) (view seat.new ≡ with_paid (view seat.old) edge) }
    {
        self.pay_at::<Brand>(seat, edge, value)
    }

    // Pays the value of the edge that the steps name.
    fn pay_at<E: Spot>(&self, seat: &mut BoardSeat<J>, edge: u32, value: J::Value) -> bool
        requires named { edge ≡ E.edge }
        requires of { IsOf self.now seat.old }
        requires edge { edge < length (over self.now).edges }
        requires claimed { 0 < times (source (over self.now).edges edge) (view seat.old).mine }
        requires unpaid { times edge (view seat.old).paid ≡ 0 }
        requires value { value_of (plan_values (over self.now)) edge ≡ Some value }
        ensures of { IsOf self.now seat.new }
        ensures view { MatchBool result (view seat.new ≡ with_ready (with_paid (view seat.old) edge) (target (over self.now).edges edge)) (view seat.new ≡ with_paid (view seat.old) edge) }
    {
        let Edge { from, to } = self.edges.as_slice()[edge as usize];
        let shared = &self.table.shared;
        shared.load::<Turning<E>>(&mut seat.seat, from as usize);
        shared.exchange(&mut seat.seat, edge as usize, Some(value));
        shared.fetch_sub::<Paying<E>>(&mut seat.seat, to as usize, 1) == 1
    }

    /// The last words, of the seat with the whole share: a task's word is the mark exactly if the task stands in the
    /// seat's `mine`, and else the number of its incoming edges that do not stand in its `paid`. Each task stands there
    /// once at most, and so does each edge in `paid` and in `taken`. After a refusal the board and the seat are gone.
    pub fn close(self, alloc: Global, seat: BoardSeat<J>) -> Result<Seq<u64>, OutOfMemory>
        requires of { IsOf self seat }
        requires all { (view seat).share ≡ whole }
        ensures len { IfOk result (λ words. length words ≡ length (over self).jobs) }
        ensures once { (x : ℕ) → (times x (view seat).mine ≤ 1) × (times x (view seat).paid ≤ 1) × (times x (view seat).taken ≤ 1) }
        ensures claimed { IfOk result (λ words. (task : ℕ) → task < length (over self).jobs → 0 < times task (view seat).mine → slice_index words task ≡ mark) }
        ensures marked { IfOk result (λ words. (task : ℕ) → task < length (over self).jobs → slice_index words task ≡ mark → 0 < times task (view seat).mine) }
        ensures free { IfOk result (λ words. (task : ℕ) → task < length (over self).jobs → times task (view seat).mine ≡ 0 → slice_index words task ≡ owing (λ edge. times edge (view seat).paid) (over self).edges task) }
    {
        let Board {
            table,
            edges: _edges,
            tasks,
        } = self;
        let BoardSeat { seat } = seat;
        let closed = table.close_with(seat);
        let words = last_words(alloc, &closed, tasks);
        discard(closed);
        words
    }
}
