//! A chain that counts up, a plan without tasks, and one that is refused.

use crate::jobs::{Own, plan_over};
use crate::same::same;
use dag_core::{Edge, PlanRefusal, evaluate_plain};
use std::alloc::Global;

/// The numbers of tasks and edges of a plan, and its outputs.
fn outputs_of(
    alloc: Global,
    tasks: u32,
    edges: &[Edge],
) -> Result<(u32, u32, Vec<u64>), PlanRefusal> {
    let plan = plan_over(alloc, tasks, edges, Own::One)?;
    let outputs = evaluate_plain(alloc, &plan);
    let counts = (plan.tasks(), plan.edge_count());
    drop(plan);
    Ok((counts.0, counts.1, outputs?.into_vec()))
}

/// Whether the plan has this many tasks and edges, and these outputs.
fn gives(alloc: Global, tasks: u32, edges: &[Edge], want: &[u64]) -> Result<bool, PlanRefusal> {
    let (found, count, outputs) = outputs_of(alloc, tasks, edges)?;
    Ok(found == tasks && count as usize == edges.len() && outputs.as_slice() == want)
}

#[test]
fn plans(rt: HostRuntime) {
    let chain = [Edge { from: 0, to: 1 }, Edge { from: 1, to: 2 }];
    same(
        &rt,
        gives(rt.alloc(), 3, chain.as_slice(), &[1, 2, 3]),
        Ok(true),
    );
    same(&rt, gives(rt.alloc(), 0, &[], &[]), Ok(true));
    let to_itself = [Edge { from: 1, to: 1 }];
    same(
        &rt,
        gives(rt.alloc(), 2, to_itself.as_slice(), &[]),
        Err(PlanRefusal::BadEdge(0)),
    );
}
