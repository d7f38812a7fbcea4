//! What the holder of a seat knows of the board. It exists only for contracts: no value of these types is made.

use dag_core::Edge;
use std::collections::LinkedList;

/// A plan as the rule reads it: the number of its tasks, its edges, and the value of each edge.
#[derive(Drop)]
pub struct Paper<T> {
    pub tasks: u64,
    pub edges: LinkedList<Edge>,
    pub values: LinkedList<Option<T>>,
}

/// What was done with a seat, and its share of the board.
#[derive(Drop)]
pub struct View<T> {
    /// The plan, the same in all views.
    pub paper: Paper<T>,
    /// The seat's share of the whole, and 0 if it was joined away.
    pub share: u64,
    /// The tasks that it claimed.
    pub mine: LinkedList<u32>,
    /// The edges that it is about to pay.
    pub turn: LinkedList<u32>,
    /// The edges that it paid.
    pub paid: LinkedList<u32>,
    /// The edges whose values it took.
    pub taken: LinkedList<u32>,
    /// The tasks whose words its payments brought to 0.
    pub ready: LinkedList<u32>,
    /// The tasks that it found claimed.
    pub gone: LinkedList<u32>,
}
