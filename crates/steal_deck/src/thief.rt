//! The side of a deck that any thread may have.

ghost use Rattle.std.specs.Prelude.{◌≡◌};
ghost use Rattle.crossbeam_deque.specs.Handles.{IsPassOf, stealer_deque, stealer_flavor};

use crate::rule::{Line, Taking, Track};
use crossbeam_deque::{Pass, Steal, Stealer};
use std::alloc::Global;

/// The answer to a steal.
#[derive(Clone, Copy, Debug, PartialEq, Eq)]
pub enum Stolen {
    /// The first item.
    Item(u64),
    /// The deck was empty at a moment of the call.
    Empty,
    /// Another party came between. Nothing was taken, and the steal may be tried again.
    Again,
}

/// Takes from a deck whose hand another thread has.
#[derive(Drop)]
pub struct Thief {
    pub(crate) stealer: Stealer<u64, Global, Track, Line>,
    pub(crate) pass: Pass<u64, Track, Global>,
    ghost of: { IsPassOf (stealer_deque stealer) pass },
    ghost first: { stealer_flavor stealer ≡ 0 },
}

impl Thief {
    ghost use Rattle.steal_deck.specs.Hands.{SameThief, thief_track};
    ghost use Rattle.steal_deck.specs.Steals.{Steals};

    /// Takes the first item.
    pub fn steal(&mut self) -> Stolen
        ensures deck { SameThief self.old self.new }
        ensures item { Steals (thief_track self.old) result (thief_track self.new) }
    {
        match self.stealer.steal_as::<Taking>(&mut self.pass) {
            Steal::Success(item) => Stolen::Item(item),
            Steal::Empty => Stolen::Empty,
            Steal::Retry => Stolen::Again,
        }
    }
}
