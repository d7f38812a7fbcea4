//! One deck of two pushes, from end to end.

use crate::same::same;
use steal_deck::{Stolen, deal};

#[test]
fn a_deck_is_first_in_first_out(rt: HostRuntime) {
    let mut hands = deal(rt.alloc(), 1, 2).expect(&rt, "memory");
    let mut hand = hands.pop().expect(&rt, "a deck");
    same(
        &rt,
        (hand.push(5), hand.push(6), hand.push(7)),
        (Ok(()), Ok(()), Err(7)),
    );
    same(&rt, hand.pop(), Some(5));
    let mut thief = hand.thief().expect(&rt, "memory");
    same(&rt, thief.steal(), Stolen::Item(6));
    same(&rt, hand.pop(), None);
    same(&rt, thief.steal(), Stolen::Empty);
    hand.take_back(thief);
}
