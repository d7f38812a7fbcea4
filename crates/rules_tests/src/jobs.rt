//! Jobs that mix what comes in, and plans of them.

ghost use Rattle.std.specs.Prelude.{◌≡◌, ℕ, ◌+◌, ◌*◌, ◌-◌, ◌<◌, ◌≤◌, ◌%◌, ◌^◌, length, replicate, slice_get, slice_index, IfOk, Some, count_by, ◌==◌};
ghost use Rattle.dag_core.specs.Values.{count_in, count_out};
ghost use Rattle.std.proofs.lemmas.List.{length-replicate};

use dag_core::{Edge, Job, Plan, PlanRefusal};
use std::alloc::Global;
use wire_bcs::{OutOfMemory, Seq};

/// Mixes the first and the last of what comes in with a number of its own, and gives that to each edge.
#[derive(Clone, Copy, Drop)]
pub(crate) struct Mix {
    pub(crate) takes: u32,
    pub(crate) gives: u32,
    pub(crate) own: u32,
    pub(crate) factor: u32,
}

/// What a job adds of its own: 1, so that a chain counts up; or its task's number, and 31 times what comes in first.
#[derive(Clone, Copy)]
pub(crate) enum Own {
    One,
    Number,
}

/// The number and the factor of a task's job.
fn parts(own: Own, task: u32) -> (u32, u32) {
    match own {
        Own::One => (1, 0),
        Own::Number => (task, 31),
    }
}

impl Job for Mix {
    type Value = u64;

    type Output = u64;

    ghost takes = { λ mix. mix.takes };

    ghost gives = { λ mix. mix.gives };

    ghost output = { λ mix inputs. ((slice_index inputs 0 * mix.factor) % 2 ^ 64 + slice_index inputs (length inputs - 1) + mix.own) % 2 ^ 64 };

    ghost values = { λ mix inputs. replicate mix.gives (((slice_index inputs 0 * mix.factor) % 2 ^ 64 + slice_index inputs (length inputs - 1) + mix.own) % 2 ^ 64) };

    ghost sized = { λ mix inputs _. length-replicate mix.gives (((slice_index inputs 0 * mix.factor) % 2 ^ 64 + slice_index inputs (length inputs - 1) + mix.own) % 2 ^ 64) };

    fn run(&self, alloc: Global, inputs: &Seq<u64>) -> Result<(u64, Seq<u64>), OutOfMemory> {
        let (first, last) = ends(inputs.as_slice());
        let value = mixed(first, last, self.own, self.factor);
        let values = vec![in alloc; value; self.gives as usize]?;
        Ok((value, Seq::from_vec(values)))
    }
}

fn ends(inputs: &[u64]) -> (u64, u64)
    ensures { (result.0 ≡ slice_index inputs.now 0) × (result.1 ≡ slice_index inputs.now (length inputs.now - 1)) }
{
    if inputs.is_empty() {
        (0, 0)
    } else {
        (inputs[0], inputs[inputs.len() - 1])
    }
}

fn mixed(first: u64, last: u64, own: u32, factor: u32) -> u64
    ensures { result ≡ ((first * factor) % 2 ^ 64 + last + own) % 2 ^ 64 }
{
    let sum = first.wrapping_mul(factor as u64) as u128 + last as u128 + own as u128;
    (sum % (1 << 64)) as u64
}

/// How many edges go to a task.
fn count_to(edges: &[Edge], task: u32) -> u32
    requires { length edges.now < 2 ^ 31 }
    ensures { result ≡ count_in edges.now task }
{
    passing_to(edges, task)
}

fn passing_to(edges: &[Edge], task: u32) -> u32
    requires { length edges.now < 2 ^ 31 }
    ensures { result ≡ count_by (λ edge. edge.to == task) edges.now }
{
    edges.iter().filter(|edge| edge.to == task).count() as u32
}

/// How many edges go from a task.
fn count_from(edges: &[Edge], task: u32) -> u32
    requires { length edges.now < 2 ^ 31 }
    ensures { result ≡ count_out edges.now task }
{
    passing_from(edges, task)
}

fn passing_from(edges: &[Edge], task: u32) -> u32
    requires { length edges.now < 2 ^ 31 }
    ensures { result ≡ count_by (λ edge. edge.from == task) edges.now }
{
    edges.iter().filter(|edge| edge.from == task).count() as u32
}

/// A job for each task, that takes and gives as many values as there are edges.
fn jobs_for(alloc: Global, tasks: u32, edges: &[Edge], own: Own) -> Result<Seq<Mix>, OutOfMemory>
    requires { length edges.now < 2 ^ 31 }
    ensures count { IfOk result (λ jobs. length jobs ≡ tasks) }
    ensures fits { IfOk result (λ jobs. (task : ℕ) (job : _) → slice_get jobs task ≡ Some job → (job.takes ≡ count_in edges.now task) × (job.gives ≡ count_out edges.now task)) }
{
    let mut jobs = Seq::new(alloc);
    for task in 0..tasks {
        let takes = count_to(edges, task);
        let gives = count_from(edges, task);
        let (own, factor) = parts(own, task);
        jobs.push(Mix {
            takes,
            gives,
            own,
            factor,
        })?;
    }
    Ok(jobs)
}

/// The plan of this many tasks and these edges.
pub(crate) fn plan_over(
    alloc: Global,
    tasks: u32,
    edges: &[Edge],
    own: Own,
) -> Result<Plan<Mix>, PlanRefusal> {
    let edges = Seq::from_slice(alloc, edges)?;
    if tasks >= 1 << 31 || edges.len() >= 1 << 31 {
        return Err(PlanRefusal::OutOfMemory);
    }
    let jobs = jobs_for(alloc, tasks, edges.as_slice(), own)?;
    Plan::new(alloc, jobs, edges)
}
