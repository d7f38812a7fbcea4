//! Plans of several shapes, by one thread and by crews; and two tasks that run at the same time, which no clause says.

ghost use Rattle.std.specs.Prelude.{◌<◌, ◌≤◌};

use crate::jobs::{Mix, Own, plan_over};
use crate::same::same;
use dag_core::{Edge, Plan, PlanRefusal, evaluate_plain};
use dag_pool::{Gate, OpenGate, run_plan};
use std::alloc::Global;
use std::sync::atomic::{AtomicU64, Ordering};
use std::thread;
use std::thread::Threads;
use steal_board::Board;
use wire_bcs::{OutOfMemory, Seq};

/// Whether each word of a board says that its task was executed.
fn are_done(words: &[u64]) -> bool {
    words.iter().all(|word| *word == u64::MAX)
}

/// Whether a crew of this many workers gives these outputs, and leaves nothing.
fn gives<R: Threads + Sync>(
    rt: &R,
    alloc: Global,
    plan: &Plan<Mix>,
    workers: u32,
    outputs: &[u64],
) -> Result<bool, OutOfMemory>
    requires { (0 < workers) × (workers ≤ 16) }
{
    let (board, seat) = Board::lay(alloc, plan)?;
    let run = run_plan(rt, alloc, plan, &board, seat, workers, &OpenGate)?;
    let said = run.outputs.as_slice() == outputs && (run.swept, run.starved) == (0, false);
    let words = board.close(alloc, run.seat)?;
    Ok(said && are_done(words.as_slice()))
}

/// Whether crews of several sizes give these outputs.
fn all_give<R: Threads + Sync>(
    rt: &R,
    alloc: Global,
    plan: &Plan<Mix>,
    outputs: &[u64],
) -> Result<bool, OutOfMemory> {
    Ok(
        gives(rt, alloc, plan, 1, outputs)?
            && gives(rt, alloc, plan, 2, outputs)?
            && gives(rt, alloc, plan, 3, outputs)?
            && gives(rt, alloc, plan, 16, outputs)?,
    )
}

/// Whether one thread and crews of several sizes agree.
fn agrees<R: Threads + Sync>(
    rt: &R,
    alloc: Global,
    tasks: u32,
    edges: &[Edge],
) -> Result<bool, PlanRefusal> {
    let plan = plan_over(alloc, tasks, edges, Own::Number)?;
    let plain = evaluate_plain(alloc, &plan)?;
    let said = all_give(rt, alloc, &plan, plain.as_slice());
    drop(plan);
    Ok(said?)
}

/// Whether each crew counts up along a chain of three.
fn counts_up<R: Threads + Sync>(rt: &R, alloc: Global) -> Result<bool, PlanRefusal> {
    let chain = [Edge { from: 0, to: 1 }, Edge { from: 1, to: 2 }];
    let plan = plan_over(alloc, 3, chain.as_slice(), Own::One)?;
    let said = all_give(rt, alloc, &plan, &[1, 2, 3]);
    drop(plan);
    Ok(said?)
}

/// How the edges of a plan go to a task.
#[derive(Clone, Copy)]
enum Shape {
    None,
    Chain,
    Star,
    Layers,
}

/// Adds the edges that go to the task.
fn add_edges(edges: &mut Seq<Edge>, shape: Shape, to: u32) -> Result<(), OutOfMemory>
    requires { 0 < to }
{
    match shape {
        Shape::None => Ok(()),
        Shape::Chain => edges.push(Edge { from: to - 1, to }),
        Shape::Star => edges.push(Edge { from: 0, to }),
        Shape::Layers if to < 10 => Ok(()),
        Shape::Layers => {
            let layer = (to / 10 - 1) * 10;
            edges.push(Edge {
                from: layer + (to % 10) * 7 % 10,
                to,
            })?;
            edges.push(Edge {
                from: layer + ((to % 10) * 3 + 1) % 10,
                to,
            })
        }
    }
}

/// Whether all agree on this many tasks with edges of this shape.
fn agrees_on<R: Threads + Sync>(
    rt: &R,
    alloc: Global,
    tasks: u32,
    shape: Shape,
) -> Result<bool, PlanRefusal> {
    let mut edges = Seq::new(alloc);
    for to in 1..tasks {
        add_edges(&mut edges, shape, to)?;
    }
    agrees(rt, alloc, tasks, edges.as_slice())
}

#[test]
fn crews_agree_with_one_thread(rt: HostRuntime) {
    let alloc = rt.alloc();
    same(&rt, counts_up(&rt, alloc), Ok(true));
    for tasks in [0, 1, 2, 1000] {
        same(&rt, agrees_on(&rt, alloc, tasks, Shape::None), Ok(true));
    }
    for shape in [Shape::Chain, Shape::Star, Shape::Layers] {
        same(&rt, agrees_on(&rt, alloc, 1000, shape), Ok(true));
    }
}

/// Lets no task run before two have come, or the turns run out.
#[derive(Drop)]
struct Meeting {
    entered: AtomicU64,
    late: AtomicU64,
}

impl Gate for Meeting {
    fn enter(&self, _task: u32) {
        self.entered.fetch_add(1, Ordering::SeqCst);
        for _ in 0..10_000_000u32 {
            if self.entered.load(Ordering::SeqCst) >= 2 {
                return;
            }
            thread::yield_now();
        }
        self.late.fetch_add(1, Ordering::SeqCst);
    }

    fn leave(&self, _task: u32) {}
}

/// Whether two tasks give 0 and 1 after this gate, by two workers.
fn meet<R: Threads + Sync>(rt: &R, alloc: Global, gate: &Meeting) -> Result<bool, PlanRefusal> {
    let plan = plan_over(alloc, 2, &[], Own::Number)?;
    let (board, seat) = Board::lay(alloc, &plan)?;
    let run = run_plan(rt, alloc, &plan, &board, seat, 2, gate)?;
    Ok(run.outputs.as_slice() == [0u64, 1].as_slice())
}

#[test]
fn two_tasks_run_at_once(rt: HostRuntime) {
    let gate = Meeting {
        entered: AtomicU64::new(0),
        late: AtomicU64::new(0),
    };
    same(&rt, meet(&rt, rt.alloc(), &gate), Ok(true));
    same(&rt, gate.entered.load(Ordering::SeqCst), 2);
    same(&rt, gate.late.load(Ordering::SeqCst), 0);
}
