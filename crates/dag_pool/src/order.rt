//! Outputs in the order of their tasks.

ghost use Rattle.std.specs.Prelude.{◌≡◌, ℕ, ◌<◌, List, Some, None, length, All, IfOk, slice_get};
ghost use Rattle.dag_pool.specs.Outputs.{AreOutputs, times_in};

use dag_core::empty_slots;
use std::alloc::Global;
use wire_bcs::{OutOfMemory, Seq};

/// The outputs of these pairs of task and output, in the order of the tasks. Each task is among the pairs.
pub(crate) fn in_order<O: Drop>(
    alloc: Global,
    mut pairs: Vec<(u32, O)>,
    tasks: u32,
) -> Result<Seq<O>, OutOfMemory>
    requires inside { All (λ pair. pair.0 < tasks) pairs.items }
    requires all { (task : ℕ) → task < tasks → 0 < times_in task pairs.items }
    ensures { IfOk result (λ sorted. (outputs : List O) → length outputs ≡ tasks → AreOutputs outputs pairs.items → sorted ≡ outputs) }
{
    let mut slots = empty_slots(alloc, tasks as usize)?;
    while let Some((task, output)) = pairs.pop() {
        slots[task as usize] = Some(output);
    }
    unwrapped(alloc, slots)
}

// What stands in the slots, each of which is filled.
fn unwrapped<O: Drop>(alloc: Global, mut slots: Vec<Option<O>>) -> Result<Seq<O>, OutOfMemory>
    requires { (place : ℕ) → place < length slots.items → (output : O) × (slice_get slots.items place ≡ Some (Some output)) }
    ensures len { IfOk result (λ outputs. length outputs ≡ length slots.items) }
    ensures same { IfOk result (λ outputs. (place : ℕ) (output : O) → slice_get outputs place ≡ Some output → slice_get slots.items place ≡ Some (Some output)) }
{
    let mut outputs = Vec::with_capacity(alloc, slots.len())?;
    for place in 0..slots.len() {
        let Some(output) = slots[place].take() else {
            unreachable!();
        };
        outputs.push(output)?;
    }
    Ok(Seq::from_vec(outputs))
}
