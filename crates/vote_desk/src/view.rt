//! What a pass knows. It exists only for contracts: no value of this type is made.

use std::collections::LinkedList;

/// What was seen of a desk's history by a pass, what was done with it, and its share of the desk.
#[derive(Drop)]
pub struct View<S, E> {
    /// The state in which the desk was opened, the same in all views. None if the pass was joined away.
    pub opening: Option<S>,
    /// The pass's share of the whole, and 0 if it was joined away.
    pub share: u64,
    /// The history, as far as the pass has seen it.
    pub seen: LinkedList<E>,
    /// The shorter of what two passes had seen when they were last joined into this one.
    pub heard: LinkedList<E>,
    /// The places of its own calls in the history, in ascending order.
    pub mine: LinkedList<u64>,
    /// How many slots are out with the pass, 0 or 1.
    pub out: u64,
}
