//! A plan, executed by a crew of workers.

ghost use Rattle.std.specs.Prelude.{◌≡◌, ℕ, ◌<◌, ◌≤◌, false, length, IfOk};
ghost use Rattle.dag_core.specs.Places.{times};
ghost use Rattle.dag_core.specs.Plans.{plan_outputs};
ghost use Rattle.steal_board.specs.Boards.{over, view, IsOf};
ghost use Rattle.steal_board.specs.Views.{paper_of, seat_view, whole};
ghost use Rattle.dag_pool.specs.Work.{HasAll};
ghost use Rattle.dag_pool.specs.Crews.{plan_of, HasWorked};

use crate::crew::Crew;
use crate::gate::Gate;
use crate::kit::{Kit, make_kits};
use crate::order::in_order;
use crate::post::{Shift, WorkerState};
use crate::sweep::sweep;
use crate::team::run_team;
use dag_core::{Job, Plan};
use std::alloc::Global;
use std::thread::Threads;
use steal_board::{Board, BoardSeat};
use wire_bcs::{OutOfMemory, Seq};

/// What a run gives.
#[derive(Drop)]
pub struct PoolRun<J: Job> {
    /// The outputs, in the order of the tasks.
    pub outputs: Seq<J::Output>,
    /// The seat that was handed in, which now has claimed every task.
    pub seat: BoardSeat<J>,
    /// How many tasks the closing pass executed, on the caller.
    pub swept: u32,
    /// Whether a worker was refused memory.
    pub starved: bool,
}

/// Executes each task of a plan once, by 1 to 16 workers in threads of their own, over a board that was laid over the plan
/// and that no call was made on. Each task's inputs come from the board, and its values go there.
///
/// A worker takes from its own deck; if that is empty, it tries each of the others' decks once, up to a task that it
/// wins. If it got nothing, it claims once more the tasks that were dealt to it or that its own payments made ready, up
/// to a claim that it wins. It retires when each of these is claimed. What the workers left is executed on the caller:
/// nothing, unless a worker was refused memory. The gate is notified of each execution, before and after, which no
/// clause says. After `OutOfMemory` the seat is gone.
pub fn run_plan<R: Threads + Sync, J: Job + Send + Sync, G: Gate + Sync>(
    rt: &R,
    alloc: Global,
    plan: &Plan<J>,
    board: &Board<J>,
    seat: BoardSeat<J>,
    workers: u32,
    gate: &G,
) -> Result<PoolRun<J>, OutOfMemory>
where
    J::Value: Send,
    J::Output: Send,
    requires workers { (0 < workers) × (workers ≤ 16) }
    requires over { over board.now ≡ plan.now }
    requires of { IsOf board.now seat }
    requires view { view seat ≡ seat_view (paper_of plan.now) whole }
    ensures outputs { IfOk result (λ run. run.outputs ≡ plan_outputs plan.now) }

    // The seat that comes back has claimed every task, and paid and taken every edge once.
    ensures of { IfOk result (λ run. IsOf board.now run.seat) }
    ensures share { IfOk result (λ run. (view run.seat).share ≡ whole) }
    ensures tasks { IfOk result (λ run. HasAll (length plan.now.jobs) (view run.seat)) }
    ensures edges { IfOk result (λ run. (edge : ℕ) → edge < length plan.now.edges → (times edge (view run.seat).paid ≡ 1) × (times edge (view run.seat).taken ≡ 1)) }

    // The closing pass had nothing to do, unless a worker was refused memory.
    ensures swept { IfOk result (λ run. run.starved ≡ false → run.swept ≡ 0) }
{
    let mut others = make_kits(alloc, workers, plan.tasks())?;
    deal_out(&mut others, plan);
    let kit = others.remove(0);
    let crew = Crew {
        alloc,
        plan,
        board,
        gate,
        workers,
    };
    let post = WorkerState {
        seat,
        outputs: Vec::with_capacity(alloc, plan.tasks() as usize)?,
        due: Vec::new(alloc),
        starved: false,
    };
    let shift = Shift {
        post,
        kit,
        others,
        lost: false,
    };
    finish(&crew, run_team(rt, &crew, shift, workers))
}

// Pushes each task without incoming edges on a deck, in turn. Each deck has room for all of them, so none is refused.
fn deal_out<J: Job>(kits: &mut Vec<Kit>, plan: &Plan<J>)
    ensures { length kits.new.items ≡ length kits.old.items }
{
    let mut sources = 0;
    for task in 0..plan.tasks() {
        if plan.edges_into(task).is_empty() {
            push_on(kits, sources, task);
            sources += 1;
        }
    }
}

// Pushes a task on the deck whose turn it is.
fn push_on(kits: &mut Vec<Kit>, turn: usize, task: u32)
    ensures { length kits.new.items ≡ length kits.old.items }
{
    if !kits.is_empty() {
        let place = turn % kits.len();
        let _ = kits[place].hand.push(u64::from(task));
    }
}

// What the workers left is executed, and the outputs are put in order.
fn finish<J: Job, G: Gate>(
    crew: &Crew<'_, J, G>,
    shift: Shift<J>,
) -> Result<PoolRun<J>, OutOfMemory>
    requires worked { HasWorked crew.now 0 crew.now.workers shift }
    requires share { (view shift.post.seat).share ≡ whole }
    ensures outputs { IfOk result (λ run. run.outputs ≡ plan_outputs (plan_of crew.now)) }
    ensures of { IfOk result (λ run. IsOf crew.now.board.now run.seat) }
    ensures share { IfOk result (λ run. (view run.seat).share ≡ whole) }
    ensures tasks { IfOk result (λ run. HasAll (length (plan_of crew.now).jobs) (view run.seat)) }
    ensures edges { IfOk result (λ run. (edge : ℕ) → edge < length (plan_of crew.now).edges → (times edge (view run.seat).paid ≡ 1) × (times edge (view run.seat).taken ≡ 1)) }
    ensures swept { IfOk result (λ run. run.starved ≡ false → run.swept ≡ 0) }
{
    let Shift {
        mut post,
        kit: _,
        others: _,
        lost,
    } = shift;
    if lost {
        return Err(OutOfMemory);
    }
    let starved = post.starved;
    let swept = sweep(crew, &mut post)?;
    let WorkerState {
        seat,
        outputs,
        due: _,
        starved: _,
    } = post;
    Ok(PoolRun {
        outputs: in_order(crew.alloc, outputs, crew.tasks())?,
        seat,
        swept,
        starved,
    })
}
