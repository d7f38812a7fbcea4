//! Where a worker gets tasks from: its own deck, and those of the others.

ghost use Rattle.std.specs.Prelude.{◌≡◌, ◌<◌, ◌≤◌, ◌^◌, length, IfOk};

use std::alloc::Global;
use steal_deck::{Hand, Thief, deal};
use wire_bcs::OutOfMemory;

/// A deck of the worker's own, and a thief of each other deck, the next worker's first.
#[derive(Drop)]
pub(crate) struct Kit {
    pub(crate) hand: Hand,
    pub(crate) thieves: Vec<Thief>,
}

/// A kit for each worker, with decks that have room for every task.
pub(crate) fn make_kits(alloc: Global, workers: u32, tasks: u32) -> Result<Vec<Kit>, OutOfMemory>
    requires workers { (0 < workers) × (workers ≤ 16) }
    requires tasks { tasks < 2 ^ 31 }
    ensures { IfOk result (λ kits. length kits.items ≡ workers) }
{
    let mut hands = deal(alloc, workers, tasks.max(1))?;
    let mut kits = Vec::with_capacity(alloc, workers as usize)?;
    while let Some(hand) = hands.pop() {
        let thieves = Vec::with_capacity(alloc, workers as usize)?;
        kits.push(Kit { hand, thieves })?;
    }
    for distance in 1..workers {
        make_thieves(&mut kits, distance as usize)?;
    }
    Ok(kits)
}

// Gives each worker a thief of the deck that stands so many places after its own.
fn make_thieves(kits: &mut Vec<Kit>, distance: usize) -> Result<(), OutOfMemory>
    requires few { length kits.old.items ≤ 16 }
    requires distance { distance < 16 }
    ensures { length kits.new.items ≡ length kits.old.items }
{
    for number in 0..kits.len() {
        make_thief(kits, number, distance)?;
    }
    Ok(())
}

// Gives one worker a thief of the deck that stands so many places after its own.
fn make_thief(kits: &mut Vec<Kit>, number: usize, distance: usize) -> Result<(), OutOfMemory>
    requires number { number < length kits.old.items }
    requires few { length kits.old.items ≤ 16 }
    requires distance { distance < 16 }
    ensures { length kits.new.items ≡ length kits.old.items }
{
    let from = (number + distance) % kits.len();
    let thief = kits[from].hand.thief()?;
    kits[number].thieves.push(thief)?;
    Ok(())
}
