//! Decks of numbers for a crew of workers, each first in, first out.
//!
//! [`deal`] makes one deck for each worker. Its [`Hand`] pushes and pops, and a [`Thief`] takes from the same deck
//! in any other thread. Each pushed item is taken at most once, over the hand and all its thieves, and each of them
//! takes in the order of the pushes. A deck takes `capacity` pushes in its life, and these are never refused.
//! No call but `deal` and `thief` takes memory, and none waits.
#![tactic(auto)]

mod crew;
mod hand;
mod rule;
mod thief;

pub use crew::deal;
pub use hand::Hand;
pub use rule::Track;
pub use thief::{Stolen, Thief};
