//! A board of two tasks and one edge, by two callers on two threads, and a board with no task.

ghost use Rattle.std.specs.Prelude.{◌≡◌, ◌+◌, ◌<◌, ◌%◌, ◌^◌, length, replicate, slice_index, IfOk, Some};
ghost use Rattle.dag_core.specs.Values.{source, target, value_of};
ghost use Rattle.dag_core.specs.Plans.{plan_values};
ghost use Rattle.steal_board.specs.Boards.{over, view, IsOf, Claimed};
ghost use Rattle.steal_board.specs.Views.{whole, paper_of, seat_view};
ghost use Rattle.std.proofs.lemmas.List.{length-replicate};

use crate::jobs::Mix;
use crate::same::{holds, same};
use dag_core::{Edge, Plan, PlanRefusal};
use std::alloc::Global;
use std::thread::{Threads, join};
use steal_board::{Board, BoardSeat, Claim};
use wire_bcs::Seq;

/// A claim in a thread of its own.
fn claim_elsewhere<R: Threads + Sync>(
    rt: &R,
    board: &Board<Mix>,
    seat: BoardSeat<Mix>,
    task: u32,
) -> (Claim, BoardSeat<Mix>)
    requires of { IsOf board.now seat }
    requires task { task < length (over board.now).jobs }
    ensures of { IsOf board.now result.1 }
    ensures view { Claimed result.0 task (view seat) (view result.1) }
{
    let (claimed, _) = join(
        rt,
        move || -> (Claim, BoardSeat<Mix>)
            requires { IsOf board.now seat × (task < length (over board.now).jobs) }
            ensures { IsOf board.entry.now result.1 × Claimed result.0 task (view seat) (view result.1) }
        { claim_here(board, seat, task) },
        || (),
    );
    claimed
}

fn claim_here(board: &Board<Mix>, mut seat: BoardSeat<Mix>, task: u32) -> (Claim, BoardSeat<Mix>)
    requires of { IsOf board.now seat }
    requires task { task < length (over board.now).jobs }
    ensures of { IsOf board.now result.1 }
    ensures view { Claimed result.0 task (view seat) (view result.1) }
{
    let found = board.claim(&mut seat, task);
    (found, seat)
}

/// The board of two tasks, of which the first gives 1 to the second, and the seat with the whole share.
fn lay_two(alloc: Global) -> Result<(Board<Mix>, BoardSeat<Mix>), PlanRefusal>
    ensures of { IfOk result (λ laid. IsOf laid.0 laid.1) }
    ensures view { IfOk result (λ laid. view laid.1 ≡ seat_view (paper_of (over laid.0)) whole) }
    ensures tasks { IfOk result (λ laid. length (over laid.0).jobs ≡ 2) }
    ensures edges { IfOk result (λ laid. length (over laid.0).edges ≡ 1) }
    ensures from { IfOk result (λ laid. source (over laid.0).edges 0 ≡ 0) }
    ensures to { IfOk result (λ laid. target (over laid.0).edges 0 ≡ 1) }
    ensures value { IfOk result (λ laid. value_of (plan_values (over laid.0)) 0 ≡ Some 1) }
{
    let jobs = [
        Mix {
            takes: 0,
            gives: 1,
            own: 1,
            factor: 0,
        },
        Mix {
            takes: 1,
            gives: 0,
            own: 1,
            factor: 0,
        },
    ];
    let edges = [Edge { from: 0, to: 1 }];
    let jobs = Seq::from_slice(alloc, &jobs)?;
    let edges = Seq::from_slice(alloc, &edges)?;
    let plan = Plan::new(alloc, jobs, edges)?;
    Ok(Board::lay(alloc, &plan)?)
}

#[test]
fn a_task_waits_for_its_edge(rt: HostRuntime) {
    let alloc = rt.alloc();
    let (board, mut first) = lay_two(alloc).expect(&rt, "memory");
    let second = board.split(&mut first);
    let (found, first) = claim_here(&board, first, 1);
    same(&rt, found, Claim::Waiting(1));
    let (found, mut first) = claim_here(&board, first, 0);
    holds(&rt, found == Claim::Mine);
    let (found, second) = claim_elsewhere(&rt, &board, second, 0);
    same(&rt, found, Claim::Taken);
    holds(&rt, board.pay(&mut first, 0, 1));
    let (found, mut second) = claim_elsewhere(&rt, &board, second, 1);
    holds(&rt, found == Claim::Mine);
    same(&rt, board.take_input(&mut second, 0), 1);
    let seat = board.join(first, second);
    let words = board.close(alloc, seat).expect(&rt, "memory");
    same(&rt, words.as_slice(), [u64::MAX, u64::MAX].as_slice());
}

/// How many words the board of a plan without tasks has.
fn empty_words(alloc: Global) -> Result<u64, PlanRefusal> {
    let plan: Plan<Mix> = Plan::new(alloc, Seq::new(alloc), Seq::new(alloc))?;
    let (board, seat) = Board::lay(alloc, &plan)?;
    Ok(board.close(alloc, seat)?.len())
}

#[test]
fn a_plan_without_tasks_has_no_words(rt: HostRuntime) {
    same(&rt, empty_words(rt.alloc()), Ok(0));
}
