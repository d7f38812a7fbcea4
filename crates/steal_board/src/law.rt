//! The board rule, and what each step reports to its caller, as types that the table of the toolchain is instantiated
//! with.

ghost use Rattle.dag_core.specs.Plans.{plan_values};
ghost use Rattle.steal_board.specs.Views.{paper_of, seat_view, whole, with_share, joined, spent};
ghost use Rattle.steal_board.specs.Rule.{Held};
ghost use Rattle.steal_board.specs.Steps.{Claims, Turns, Pays, Takes, Returns};
ghost use Rattle.std.specs.Prelude.{◌-◌, ℕ};

use crate::view::View;
use atomic_table::{Join, Play, Split, TableRule};
use dag_core::{Job, Plan};
use std::marker::{Brand, PhantomData};

/// The board rule of a plan.
pub struct Law;

impl<J: Job> TableRule<Option<J::Value>, View<J::Value>, Plan<J>> for Law {
    ghost holds = { λ plan. Held (paper_of plan) };

    ghost first = { λ plan. seat_view (paper_of plan) whole };
}

/// A claim: a compare-exchange of 0 to the mark.
pub struct Claiming;

impl<T> Play<Option<T>, View<T>> for Claiming {
    ghost then = { Claims };
}

/// Which edge a step is about. A step on a task's word names no edge, so a call picks it.
pub trait Spot {
    ghost edge: { ℕ };
}

impl Spot for Brand {
    ghost edge = { 0 };
}

/// A load of the source's word: the edge's slot goes out, to be paid.
pub struct Turning<E> {
    spot: PhantomData<E>,
}

impl<T, E: Spot> Play<Option<T>, View<T>> for Turning<E> {
    ghost then = { Turns E.edge };
}

/// A subtraction of 1 from the target's word: the slot comes home with its value.
pub struct Paying<E> {
    spot: PhantomData<E>,
}

impl<T, E: Spot> Play<Option<T>, View<T>> for Paying<E> {
    ghost then = { Pays E.edge };
}

/// A load of the target's word: the edge's slot goes out with its value.
pub struct Taking<E> {
    spot: PhantomData<E>,
}

impl<T, E: Spot> Play<Option<T>, View<T>> for Taking<E> {
    ghost then = { Takes E.edge };
}

/// A load of the target's word: the slot of a taken edge comes home, empty.
pub struct Returning;

impl<T> Play<Option<T>, View<T>> for Returning {
    ghost then = { Returns };
}

/// 1 of the share goes to a new seat.
pub struct Parting;

impl<T> Split<View<T>> for Parting {
    ghost left = { λ v. with_share v (v.share - 1) };

    ghost right = { λ v. seat_view v.paper 1 };
}

/// A seat takes in another's lists and share.
pub struct Joining;

impl<T> Join<View<T>> for Joining {
    ghost both = { joined };

    ghost spent = { spent };
}
