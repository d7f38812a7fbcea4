//! The decks of a crew.

ghost use Rattle.std.specs.Prelude.{◌≡◌, ◌<◌, ◌≤◌, ◌^◌, length, All, IfOk};
ghost use Rattle.steal_deck.specs.Hands.{IsNew};

use crate::hand::Hand;
use std::alloc::Global;
use wire_bcs::{OutOfMemory, Seq};

/// One deck for each worker, each for `capacity` pushes.
pub fn deal(alloc: Global, workers: u32, capacity: u32) -> Result<Seq<Hand>, OutOfMemory>
    requires workers { (0 < workers) × (workers ≤ 16) }
    requires capacity { (0 < capacity) × (capacity < 2 ^ 31) }
    ensures each { IfOk result (λ hands. length hands ≡ workers) }
    ensures fresh { IfOk result (All (IsNew capacity)) }
{
    let mut hands = Seq::new(alloc);
    for _ in 0..workers {
        hands.push(Hand::new(alloc, capacity)?)?;
    }
    Ok(hands)
}
