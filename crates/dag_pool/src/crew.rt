//! What all workers of a run share.

ghost use Rattle.std.specs.Prelude.{◌≡◌, ◌<◌};
ghost use Rattle.steal_board.specs.Boards.{over};

use dag_core::{Job, Plan};
use std::alloc::Global;
use steal_board::Board;

/// What all workers of a run share: the plan, the board that was laid over it, the gate, and how many workers there
/// are.
#[derive(Drop)]
pub(crate) struct Crew<'a, J: Job, G> {
    pub(crate) alloc: Global,
    pub(crate) plan: &'a Plan<J>,
    pub(crate) board: &'a Board<J>,
    pub(crate) gate: &'a G,
    pub(crate) workers: u32,
    ghost over: { over board.now ≡ plan.now },
    ghost some: { 0 < workers },
}

impl<J: Job, G> Crew<'_, J, G> {
    ghost use Rattle.std.specs.Prelude.{length, slice_get, Some};
    ghost use Rattle.dag_core.specs.Values.{edge_at, places_to, places_from};
    ghost use Rattle.dag_pool.specs.Crews.{plan_of};

    /// The number of tasks.
    pub(crate) fn tasks(&self) -> u32
        ensures { result ≡ length (plan_of self.now).jobs }
    {
        self.plan.tasks()
    }

    /// The job of a task.
    pub(crate) fn job(&self, task: u32) -> &J
        requires { task < length (plan_of self.now).jobs }
        ensures { slice_get (plan_of self.now).jobs task ≡ Some result.now }
    {
        self.plan.job(task)
    }

    /// The places of the edges that go to a task.
    pub(crate) fn edges_into(&self, task: u32) -> &[u32]
        requires { task < length (plan_of self.now).jobs }
        ensures { result.now ≡ places_to (plan_of self.now).edges task }
    {
        self.plan.edges_into(task)
    }

    /// The places of the edges that go from a task.
    pub(crate) fn edges_from(&self, task: u32) -> &[u32]
        requires { task < length (plan_of self.now).jobs }
        ensures { result.now ≡ places_from (plan_of self.now).edges task }
    {
        self.plan.edges_from(task)
    }

    /// The task that an edge goes to.
    pub(crate) fn target(&self, place: u32) -> u32
        requires { place < length (plan_of self.now).edges }
        ensures { result ≡ (edge_at (plan_of self.now).edges place).to }
    {
        self.plan.edge(place).to
    }
}
