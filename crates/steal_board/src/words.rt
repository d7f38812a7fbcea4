//! The words of a board, as it is laid and as it is closed.

ghost use Rattle.std.specs.Prelude.{◌≡◌, ℕ, ◌<◌, ◌≤◌, IfOk, length, take, slice_index};
ghost use Rattle.std.specs.Slots.{slots_items, slots_len, IsFull};
ghost use Rattle.dag_core.specs.Values.{count_in};

use atomic_table::Closed;
use dag_core::{Job, Plan};
use std::alloc::Global;
use wire_bcs::{OutOfMemory, Seq};

/// The word of a claimed task.
pub(crate) const MARK: u64 = u64::MAX;

// A word for each task, the number of its incoming edges. If there is no task, one spare word, at the mark.
pub(crate) fn first_words<J: Job>(alloc: Global, plan: &Plan<J>) -> Result<Vec<u64>, OutOfMemory>
    ensures some { IfOk result (λ words. 0 < length words.items) }
    ensures wide { IfOk result (λ words. length plan.now.jobs ≤ length words.items) }
    ensures spare { IfOk result (λ words. (task : ℕ) → length plan.now.jobs ≤ task → task < length words.items → slice_index words.items task ≡ MARK) }
    ensures counted { IfOk result (λ words. (task : ℕ) → task < length plan.now.jobs → slice_index words.items task ≡ count_in plan.now.edges task) }
{
    let mut words = Vec::new(alloc);
    for task in 0..plan.tasks() {
        words.push(plan.edges_into(task).len() as u64)?;
    }
    if words.is_empty() {
        words.push(MARK)?;
    }
    Ok(words)
}

// The first words of a closed table.
pub(crate) fn last_words<T>(
    alloc: Global,
    closed: &Closed<Option<T>, Global>,
    tasks: usize,
) -> Result<Seq<u64>, OutOfMemory>
    requires full { IsFull closed.now.words }
    requires tasks { tasks ≤ slots_len closed.now.words }
    ensures { IfOk result (λ words. words ≡ take tasks (slots_items closed.now.words)) }
{
    let mut words = Seq::new(alloc);
    for task in 0..tasks {
        words.push(closed.word(task))?;
    }
    Ok(words)
}

// Drops what the slots of a closed table hold.
pub(crate) fn discard<T: Drop>(mut closed: Closed<Option<T>, Global>)
    requires { IsFull closed.slots }
{
    let mut slot = 0;
    while slot < closed.slot_count() {
        drop(closed.take(slot));
        slot += 1;
    }
    closed.free();
}
