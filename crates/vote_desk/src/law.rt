//! The desk rule, and what each step reports to its caller, as the table reads them.

ghost use Rattle.std.specs.Prelude.{◌-◌};
ghost use Rattle.vote_desk.specs.Views.{first_view, with_share, parted, joined, spent};
ghost use Rattle.vote_desk.specs.Kept.{Stands};
ghost use Rattle.vote_desk.specs.Rule.{Held};
ghost use Rattle.vote_desk.specs.Steps.{Takes, Looks, Adds, Returns};

use crate::clerk::Clerk;
use crate::kept::{Kept, Opened};
use crate::view::View;
use atomic_table::{Join, Play, Split, TableRule};

/// The desk rule, over the clerk as the desk was opened with it.
pub struct Law;

impl<C: Clerk> TableRule<Kept<C>, View<C::State, C::Entry>, Opened<C>> for Law {
    ghost holds = { λ opened. Held (Stands C.step C.state) (C.state opened.clerk.value) };

    ghost first = { λ opened. first_view (C.state opened.clerk.value) };
}

/// A compare-exchange of 0 to 1: the slot goes out, or it is out already.
pub struct Taking;

impl<C: Clerk> Play<Kept<C>, View<C::State, C::Entry>> for Taking {
    ghost then = { Takes (Stands C.step C.state) };
}

/// A load that changes nothing.
pub struct Looking;

impl<C: Clerk> Play<Kept<C>, View<C::State, C::Entry>> for Looking {
    ghost then = { Looks };
}

/// A swap to 0: the slot comes home one entry longer.
pub struct Adding;

impl<C: Clerk> Play<Kept<C>, View<C::State, C::Entry>> for Adding {
    ghost then = { Adds (Stands C.step C.state) };
}

/// A swap to 0: the slot comes home as it was.
pub struct Returning;

impl<C: Clerk> Play<Kept<C>, View<C::State, C::Entry>> for Returning {
    ghost then = { Returns };
}

/// 1 of the share goes to a new pass.
pub struct Parting;

impl<S, E> Split<View<S, E>> for Parting {
    ghost left = { λ v. with_share v (v.share - 1) };

    ghost right = { parted };
}

/// A pass takes in another's share and places.
pub struct Joining;

impl<S, E> Join<View<S, E>> for Joining {
    ghost both = { joined };

    ghost spent = { spent };
}
