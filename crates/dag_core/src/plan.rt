//! Plans: jobs, and the edges between them.

ghost use Rattle.std.specs.Prelude.{◌≡◌, ℕ, ◌<◌, ◌^◌, [], ◌∷◌, ◌++◌, length, slice_get, slice_set, slice_index_or, replicate, Some, Err, IfOk, OnOk, ◌↔◌};
ghost use Rattle.dag_core.specs.Places.{IsFiled};
ghost use Rattle.dag_core.specs.Values.{edge_at, source, target, count_in, count_out, first_bad, places_to, places_from};

use crate::job::Job;
use std::alloc::Global;
use wire_bcs::{OutOfMemory, Seq};

/// An edge from a task to a later one, by their numbers.
#[derive(Clone, Copy, Debug, PartialEq, Eq)]
pub struct Edge {
    pub from: u32,
    pub to: u32,
}

/// Why there is no plan.
#[derive(Clone, Copy, Debug, PartialEq, Eq)]
pub enum PlanRefusal {
    /// The edge at this place is the first that does not go from a smaller to a larger task number below the number of
    /// tasks.
    BadEdge(u32),
    OutOfMemory,
}

impl From<OutOfMemory> for PlanRefusal {
    ghost use Rattle.dag_core.specs.declared.plan.PlanRefusal.TheVariants.{OutOfMemory};

    ghost from_gives = { λ _ refusal. refusal ≡ OutOfMemory };

    fn from(_error: OutOfMemory) -> Self {
        PlanRefusal::OutOfMemory
    }
}

/// Jobs, and the edges that carry values between them. There are fewer than 2^31 of each, each edge goes from a smaller to
/// a larger task number, and each job takes and gives as many values as edges go to and from its task.
#[derive(Drop)]
pub struct Plan<J: Job> {
    pub jobs: Seq<J>,
    pub edges: Seq<Edge>,
    into: Vec<Seq<u32>>,
    out: Vec<Seq<u32>>,
    pub ghost few: { (length jobs < 2 ^ 31) × (length edges < 2 ^ 31) },
    pub ghost takes: { (task : ℕ) (job : J) → slice_get jobs task ≡ Some job → J.takes job ≡ count_in edges task },
    pub ghost gives: { (task : ℕ) (job : J) → slice_get jobs task ≡ Some job → J.gives job ≡ count_out edges task },
    pub ghost forward: { (place : ℕ) → place < length edges → (source edges place < target edges place) × (target edges place < length jobs) },
    ghost listed: { (length into.items ≡ length jobs) × (length out.items ≡ length jobs) },
    ghost into_is: { (task : ℕ) → task < length jobs → slice_index_or into.items task [] ≡ places_to edges task },
    ghost out_is: { (task : ℕ) → task < length jobs → slice_index_or out.items task [] ≡ places_from edges task },
}

impl<J: Job> Plan<J> {
    /// The number of tasks.
    pub fn tasks(&self) -> u32
        ensures { result ≡ length self.now.jobs }
    {
        self.jobs.len() as u32
    }

    /// The number of edges.
    pub fn edge_count(&self) -> u32
        ensures { result ≡ length self.now.edges }
    {
        self.edges.len() as u32
    }

    /// The edge at a place.
    pub fn edge(&self, place: u32) -> Edge
        requires { place < length self.now.edges }
        ensures { result ≡ edge_at self.now.edges place }
    {
        self.edges.as_slice()[place as usize]
    }

    /// The job of a task.
    pub fn job(&self, task: u32) -> &J
        requires { task < length self.now.jobs }
        ensures { slice_get self.now.jobs task ≡ Some result.now }
    {
        &self.jobs.as_slice()[task as usize]
    }

    /// The places of the edges that go to a task, in edge order.
    pub fn edges_into(&self, task: u32) -> &[u32]
        requires { task < length self.now.jobs }
        ensures { result.now ≡ places_to self.now.edges task }
    {
        self.into[task as usize].as_slice()
    }

    /// The places of the edges that go from a task, in edge order.
    pub fn edges_from(&self, task: u32) -> &[u32]
        requires { task < length self.now.jobs }
        ensures { result.now ≡ places_from self.now.edges task }
    {
        self.out[task as usize].as_slice()
    }
}

impl<J: Job + Drop> Plan<J> {
    /// The plan of these jobs and edges. Refused with `BadEdge` exactly if an edge does not go from a smaller to a larger
    /// task number below the number of tasks, naming the first such edge. After a refusal the jobs and edges are gone.
    pub fn new(alloc: Global, jobs: Seq<J>, edges: Seq<Edge>) -> Result<Plan<J>, PlanRefusal>
        requires few { (length jobs < 2 ^ 31) × (length edges < 2 ^ 31) }
        requires takes { (task : ℕ) (job : J) → slice_get jobs task ≡ Some job → J.takes job ≡ count_in edges task }
        requires gives { (task : ℕ) (job : J) → slice_get jobs task ≡ Some job → J.gives job ≡ count_out edges task }
        ensures ok { IfOk result (λ plan. (plan.jobs ≡ jobs) × (plan.edges ≡ edges)) }
        ensures bad { (place : ℕ) → (result ≡ Err (PlanRefusal.BadEdge place)) ↔ (first_bad (length jobs) edges ≡ Some place) }
    {
        match find_bad(jobs.len() as u32, edges.as_slice()) {
            Some(place) => Err(PlanRefusal::BadEdge(place as u32)),
            None => {
                let (into, out) = list_edges(alloc, jobs.len() as usize, edges.as_slice())?;
                Ok(Plan {
                    jobs,
                    edges,
                    into,
                    out,
                })
            }
        }
    }
}

// The place of the first edge that does not go forward.
fn find_bad(tasks: u32, edges: &[Edge]) -> Option<usize>
    ensures { result ≡ first_bad tasks edges.now }
{
    edges
        .iter()
        .position(|edge| !(edge.from < edge.to && edge.to < tasks))
}

// A list for each task, empty.
fn empty_rows(alloc: Global, tasks: usize) -> Result<Vec<Seq<u32>>, OutOfMemory>
    ensures { IfOk result (λ rows. rows.items ≡ replicate tasks []) }
{
    let mut rows = Vec::with_capacity(alloc, tasks)?;
    for _ in 0..tasks {
        rows.push(Seq::new(alloc))?;
    }
    Ok(rows)
}

// Adds a place to the list of a task.
fn file(rows: &mut Vec<Seq<u32>>, task: u32, place: u32) -> Result<(), OutOfMemory>
    requires { task < length rows.old.items }
    ensures { OnOk result (rows.new.items ≡ slice_set rows.old.items task (slice_index_or rows.old.items task [] ++ place ∷ [])) }
{
    rows[task as usize].push(place)
}

// For each task, the places of the edges that go to it, and of those that go from it.
fn list_edges(
    alloc: Global,
    tasks: usize,
    edges: &[Edge],
) -> Result<(Vec<Seq<u32>>, Vec<Seq<u32>>), OutOfMemory>
    requires few { length edges.now < 2 ^ 31 }
    requires inside { (place : ℕ) → place < length edges.now → (source edges.now place < tasks) × (target edges.now place < tasks) }
    ensures into { IfOk result (λ lists. IsFiled (λ edge. edge.to) edges.now tasks lists.0.items) }
    ensures out { IfOk result (λ lists. IsFiled (λ edge. edge.from) edges.now tasks lists.1.items) }
{
    let mut into = empty_rows(alloc, tasks)?;
    let mut out = empty_rows(alloc, tasks)?;
    for (place, edge) in edges.iter().enumerate() {
        file(&mut into, edge.to, place as u32)?;
        file(&mut out, edge.from, place as u32)?;
    }
    Ok((into, out))
}
