//! The rule of a deck, in the form that `crossbeam_deque` keeps at each step of every thread.

ghost use Rattle.std.specs.Prelude.{◌≡◌, false};
ghost use Rattle.steal_deck.specs.Deck.{InOrder, IsAllTaken, Takes, after_push, new_hand, new_thief};

use crossbeam_deque::protocol::{Join, Lesson, Outcome, Protocol, Split};
use std::collections::LinkedList;

/// What the hand of a deck, or a thief, knows of the deck. It exists only in contracts: no value of it is made.
pub struct Track {
    /// Whether it is the hand.
    pub owner: bool,
    /// Whether it is the hand of a deck with no thief.
    pub alone: bool,
    /// The hand's pushes, in their order.
    pub pushed: LinkedList<u64>,
    /// The deck's pushes up to the last that was taken here.
    pub seen: LinkedList<u64>,
    /// The places of the pushes that were taken here, in the order in which they were taken.
    pub taken: LinkedList<u64>,
}

/// The rule of every deck, `InOrder`, as a type.
pub struct Line;

impl Protocol<u64, Track> for Line {
    ghost holds = { InOrder };

    ghost first = { new_hand };

    ghost guest = { new_thief };
}

/// The step of a push: one item joins at the back.
pub struct Pushing;

impl Outcome<u64, Track> for Pushing {
    ghost use Rattle.std.specs.Prelude.{◌++◌};

    ghost then = { λ v items w. w ≡ record v { pushed = v.pushed ++ items } };
}

/// The step of a pop or a steal: one item leaves at the front.
pub struct Taking;

impl Outcome<u64, Track> for Taking {
    ghost then = { Takes };

    ghost empty = { IsAllTaken };
}

/// The step of making a thief.
pub struct Sharing;

impl Split<Track> for Sharing {
    ghost left = { λ v. record v { alone = false } };

    ghost right = { λ v. new_thief };
}

/// The step of taking a thief back: its hand counts what the thief took as its own.
pub struct Returning;

impl Join<Track> for Returning {
    ghost use Rattle.steal_deck.specs.Deck.{with_taken};

    ghost both = { λ v w. with_taken v w.taken };

    ghost spent = { new_thief };
}

/// A consequence of the rule that callers may use: no push was taken twice.
pub struct Once;

impl Lesson<u64, Track> for Once {
    ghost use Rattle.steal_deck.specs.Deck.{NoneTwice};

    ghost fact = { λ v items. NoneTwice v.taken };
}
