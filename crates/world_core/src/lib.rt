//! The world of a run: a committee and its events, line by line.
//!
//! [`World::new`] opens the committee of a schedule's set-up; [`World::step`] runs one line, hands its calls to the
//! member that they are for, and answers the lines that the report has for it. Contracts see the world as a scene:
//! the terms and the opening, what is known under names, what was ordered, said and formed, and the members as they
//! stand. Each step is the definition's step of that scene, with its lines, and the keeper's lists grow by the
//! records that the line leaves.
//! [`World::replay`] starts a member from records that were kept before; the world stays as it is.
//! [`World::sums`] says what a member has built and holds, in numbers.
//! Each name, vote and version is found by a map, so a line costs time in proportion to its own words.
//!
//! Within the crate, [`Seats`] are the members, up or down, with armed stops and restarts: each call is handed to the
//! member that it is for, and they say what became of it. An armed stop cuts the next call that has a record to append:
//! the record is kept or lost, as the stop says, and the member is down until it restarts from the records of its
//! keeper. [`ask_vote`] and its like hand a call to a member that is up, for a caller with one member and no world.
#![tactic(auto)]

mod acks;
mod asking;
mod calls;
mod certs;
mod closes;
mod ends;
mod epoch_requests;
mod looks;
mod orders;
mod quiet;
mod replay;
mod reply;
mod requests;
mod restart;
mod seat;
mod seats;
mod sees;
mod starts;
mod step;
mod stops;
mod sums;
mod terms;
mod turns;
mod votes;
mod world;

pub use cert_rules::{CollectRefusal, Finality, collect_acks};
pub use epoch_requests::{ask_close, ask_see, ask_turn};
pub use replay::Replayed;
pub use reply::{Reply, RestartFault, SeatFault};
pub use requests::{ask_hold, ask_run, ask_vote};
pub use seats::Seats;
pub use sums::Sums;
pub use terms::Terms;
pub use world::{World, WorldFault, WorldRefusal};
