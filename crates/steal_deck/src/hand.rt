//! The owner's side of a deck.

ghost use Rattle.std.specs.Prelude.{◌≡◌, ◌<◌, ◌≤◌, true, false, length, IfOk, IfErr, OnOk, MatchOption};
ghost use Rattle.crossbeam_deque.specs.Handles.{worker_capacity, worker_flavor, worker_index, worker_view};

use crate::rule::{Line, Once, Pushing, Returning, Sharing, Taking, Track};
use crate::thief::Thief;
use crossbeam_deque::Worker;
use std::alloc::Global;
use wire_bcs::OutOfMemory;

/// The owner of a deck: it pushes at the back and pops at the front.
#[derive(Drop)]
pub struct Hand {
    owner: Worker<u64, Global, Track, Line>,
    capacity: u32,
    pushes: u32,
    ghost first: { worker_flavor owner ≡ 0 },
    ghost room: { capacity ≤ worker_capacity owner },
    ghost index: { worker_index owner ≤ pushes },
    ghost few: { pushes ≤ capacity },
    ghost counted: { pushes ≡ length (worker_view owner).pushed },
    ghost owns: { (worker_view owner).owner ≡ true },
}

impl Hand {
    ghost use Rattle.std.specs.Prelude.{[], ◌∷◌};
    ghost use Rattle.steal_deck.specs.Deck.{IsAllTaken, NoneTwice, Takes, after_push, new_thief, with_taken};
    ghost use Rattle.steal_deck.specs.Hands.{IsNew, IsThiefOf, SameDeck, capacity_of, hand_track, thief_track};

    /// A new deck, for `capacity` pushes.
    pub(crate) fn new(alloc: Global, capacity: u32) -> Result<Hand, OutOfMemory>
        ensures { IfOk result (IsNew capacity) }
    {
        Ok(Hand {
            owner: Worker::fifo_as(alloc, capacity as usize)?,
            capacity,
            pushes: 0,
        })
    }

    /// A thief of this deck, for another thread.
    pub fn thief(&mut self) -> Result<Thief, OutOfMemory>
        ensures deck { SameDeck self.old self.new }
        ensures of { IfOk result (λ thief. IsThiefOf self.old thief × (thief_track thief ≡ new_thief)) }
        ensures track { IfOk result (λ _. hand_track self.new ≡ record (hand_track self.old) { alone = false }) }
        ensures err { IfErr result (λ _. hand_track self.new ≡ hand_track self.old) }
    {
        let stealer = self.owner.stealer()?;
        let pass = self.owner.another::<Sharing>();
        Ok(Thief { stealer, pass })
    }

    /// Puts an item at the back. The item comes back exactly if `capacity` pushes were made on this deck.
    pub fn push(&mut self, item: u64) -> Result<(), u64>
        ensures deck { SameDeck self.old self.new }
        ensures room { OnOk result (length (hand_track self.old).pushed < capacity_of self.old) }
        ensures pushed { OnOk result (hand_track self.new ≡ after_push (hand_track self.old) item) }
        ensures full { IfErr result (λ back. (back ≡ item) × (length (hand_track self.old).pushed ≡ capacity_of self.old) × (hand_track self.new ≡ hand_track self.old)) }
    {
        if self.pushes >= self.capacity {
            return Err(item);
        }
        match self.owner.push_as::<Pushing>(item) {
            Ok(()) => {
                self.pushes += 1;
                Ok(())
            }
            Err(_) => unreachable!(),
        }
    }

    /// Takes the first item. `None` comes only if the deck was empty at a moment of this call: on a deck of which no
    /// thief was made, exactly if every pushed item was popped.
    pub fn pop(&mut self) -> Option<u64>
        ensures deck { SameDeck self.old self.new }
        ensures item { MatchOption result ((hand_track self.new ≡ hand_track self.old) × IsAllTaken (hand_track self.old)) (λ item. Takes (hand_track self.old) (item ∷ []) (hand_track self.new)) }
    {
        self.owner.pop_as::<Taking>()
    }

    /// Takes a thief of this deck back. What it took counts as taken by the hand from now on: no push was taken twice.
    pub fn take_back(&mut self, thief: Thief)
        requires { IsThiefOf self.old thief }
        ensures deck { SameDeck self.old self.new }
        ensures track { hand_track self.new ≡ with_taken (hand_track self.old) (thief_track thief).taken }
        ensures once { NoneTwice (hand_track self.new).taken }
    {
        let Thief { stealer, pass } = thief;
        self.owner.absorb::<Returning>(pass);
        self.owner.len_as::<Once>();
        drop(stealer);
    }
}
