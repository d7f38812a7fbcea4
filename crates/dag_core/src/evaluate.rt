//! The values of a plan on one thread.

ghost use Rattle.std.specs.Prelude.{◌≡◌, ℕ, ◌+◌, ◌<◌, ◌≤◌, [], ◌∷◌, ◌++◌, None, Some, IfOk, OnOk, length, drop, reverse, replicate, slice_get, slice_set};
ghost use Rattle.std.specs.Option.{option_to_list};
ghost use Rattle.dag_core.specs.Places.{times};
ghost use Rattle.dag_core.specs.Values.{Waits, put_at, value_of, values_at};
ghost use Rattle.dag_core.specs.Plans.{plan_outputs, plan_values};

use crate::job::Job;
use crate::plan::Plan;
use std::alloc::Global;
use wire_bcs::{OutOfMemory, Seq};

/// The outputs of a plan's tasks, in task order: tasks are run from 0 on. Time and memory grow with tasks and edges.
pub fn evaluate_plain<J: Job>(alloc: Global, plan: &Plan<J>) -> Result<Seq<J::Output>, OutOfMemory>
    ensures { IfOk result (λ outputs. outputs ≡ plan_outputs plan.now) }
{
    let mut held = empty_slots(alloc, plan.edge_count() as usize)?;
    let slots = held.as_mut_slice();
    let mut outputs = Seq::new(alloc);
    for task in 0..plan.tasks() {
        let output = evaluate_task(alloc, plan, slots, task)?;
        outputs.push(output)?;
    }
    Ok(outputs)
}

/// So many empty slots.
pub fn empty_slots<V: Drop>(alloc: Global, count: usize) -> Result<Vec<Option<V>>, OutOfMemory>
    ensures { IfOk result (λ slots. slots.items ≡ replicate count None) }
{
    let mut slots = Vec::with_capacity(alloc, count)?;
    for _ in 0..count {
        slots.push(None)?;
    }
    Ok(slots)
}

// Runs a task on the values that wait for it, and puts those that it gives into their slots.
fn evaluate_task<J: Job>(
    alloc: Global,
    plan: &Plan<J>,
    slots: &mut [Option<J::Value>],
    task: u32,
) -> Result<J::Output, OutOfMemory>
    requires task { task < length plan.now.jobs }
    requires waits { Waits plan.now.edges (plan_values plan.now) slots.old task }
    ensures waits { IfOk result (λ _. Waits plan.now.edges (plan_values plan.now) slots.new (task + 1)) }
    ensures output { IfOk result (λ output. slice_get (plan_outputs plan.now) task ≡ Some output) }
{
    let inputs = take_inputs(alloc, slots, plan.edges_into(task))?;
    let (output, values) = plan.job(task).run(alloc, &inputs)?;
    put_values(slots, plan.edges_from(task), values);
    Ok(output)
}

// Takes the values of the edges at these places.
fn take_inputs<V: Drop>(
    alloc: Global,
    slots: &mut [Option<V>],
    places: &[u32],
) -> Result<Seq<V>, OutOfMemory>
    requires inside { (place : ℕ) → 0 < times place places.now → place < length slots.old }
    requires once { (place : ℕ) → times place places.now ≤ 1 }
    ensures inputs { IfOk result (λ inputs. inputs ≡ values_at slots.old places.now) }
    ensures others { IfOk result (λ _. (place : ℕ) → times place places.now ≡ 0 → value_of slots.new place ≡ value_of slots.old place) }
{
    let mut inputs = Seq::new(alloc);
    for place in places {
        take_input(slots, *place, &mut inputs)?;
    }
    Ok(inputs)
}

// Takes the value of the edge at a place, if it has one.
fn take_input<V: Drop>(
    slots: &mut [Option<V>],
    place: u32,
    inputs: &mut Seq<V>,
) -> Result<(), OutOfMemory>
    requires { place < length slots.old }
    ensures inputs { OnOk result (inputs.new ≡ inputs.old ++ option_to_list (value_of slots.old place)) }
    ensures slots { slots.new ≡ slice_set slots.old place None }
{
    match slots[place as usize].take() {
        Some(value) => inputs.push(value),
        None => Ok(()),
    }
}

// Gives each of the edges at these places a value.
fn put_values<V: Drop>(slots: &mut [Option<V>], places: &[u32], values: Seq<V>)
    requires { (place : ℕ) → 0 < times place places.now → place < length slots.old }
    ensures { slots.new ≡ put_at slots.old places.now values }
{
    let mut rest = values.into_vec();
    rest.as_mut_slice().reverse();
    for place in places {
        put_value(slots, *place, &mut rest);
    }
}

// Puts the last value that is left, if there is one, into the slot of the edge at a place.
fn put_value<V: Drop>(slots: &mut [Option<V>], place: u32, rest: &mut Vec<V>)
    requires { place < length slots.old }
    ensures slots { slots.new ≡ put_at slots.old (place ∷ []) (reverse rest.old.items) }
    ensures rest { reverse rest.new.items ≡ drop 1 (reverse rest.old.items) }
{
    if let Some(value) = rest.pop() {
        slots[place as usize] = Some(value);
    }
}
